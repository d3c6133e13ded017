use super::{StubFault, StubFile, read};
use std::alloc::Global;

// Why a text is no stub library: `version`, `target`, or the number of the document with a bad key.
const FAULTS: &str = "\
    version\t--- !tapi-tbd-v3~tbd-version: 4~targets: [ arm64-macos ]~install-name: /x~\n\
    version\t---~tbd-version: 4~targets: [ arm64-macos ]~install-name: /x~\n\
    version\t--- !tapi-tbd~targets: [ arm64-macos ]~install-name: /x~\n\
    version\t--- !tapi-tbd~tbd-version: 3~targets: [ x86_64-macos ]~\n\
    version\t--- !tapi-tbd~tbd-version: [ 4 ]~targets: [ arm64-macos ]~install-name: /x~\n\
    version\t--- !tapi-tbd~- tbd-version~\n\
    version\t--- !tapi-tbd~\n\
    version\t^--- !tapi-tbd~tbd-version: 5~targets: [ x86_64-macos ]~\n\
    target\t--- !tapi-tbd~tbd-version: 4~targets: [ x86_64-macos ]~install-name: /x~\n\
    target\t--- !tapi-tbd~tbd-version: 4~install-name: /x~exports: a~\n\
    target\t--- !tapi-tbd~tbd-version: 4~targets: arm64-macos~install-name: /x~\n\
    target\t--- !tapi-tbd~tbd-version: 4~targets: [ ]~exports: a~\n\
    target\t--- !tapi-tbd~tbd-version: 4~targets: [ x86_64-macos ]~--- !a~\n\
    0\t--- !tapi-tbd~tbd-version: 4~install-name: /x~targets:~- arm64-macos~- [ a ]~\n\
    0\t--- !tapi-tbd~tbd-version: 4~targets: [ arm64-macos ]~\n\
    0\t--- !tapi-tbd~tbd-version: 4~targets: [ arm64-macos ]~install-name: [ /x ]~\n\
    0\t--- !tapi-tbd~tbd-version: 4~targets: [ arm64-macos ]~install-name: \"/\\0x\"~\n\
    0\t^current-version: [ 1 ]~\n\
    0\t^current-version: 1.2.3.4~\n\
    0\t^current-version: 1..2~\n\
    0\t^current-version:~\n\
    0\t^current-version: 65536~\n\
    0\t^compatibility-version: 1.256~\n\
    0\t^compatibility-version: 1.0.256~\n\
    0\t^compatibility-version: 1a~\n\
    0\t^compatibility-version:~  a: 1~\n\
    0\t^reexported-libraries: /y~\n\
    0\t^reexported-libraries: [ /y ]~\n\
    0\t^reexported-libraries:~- targets: arm64-macos~  libraries: [ /y ]~\n\
    0\t^reexported-libraries:~- targets: [ arm64-macos ]~  libraries: /y~\n\
    0\t^reexported-libraries:~- targets: [ x86_64-macos ]~  libraries: [ /z, \"/\\0y\" ]~\n\
    0\t^exports:~\n\
    0\t^exports: [ _a ]~\n\
    0\t^exports:~- targets: arm64-macos~\n\
    0\t^exports:~- targets: [ arm64-macos ]~  symbols: _a~\n\
    0\t^exports:~- targets: [ arm64-macos ]~  weak-symbols:~    a: b~\n\
    0\t^exports:~- targets: [ arm64-macos ]~  thread-local-symbols:~\n\
    0\t^exports:~- targets: [ arm64-macos ]~  objc-classes: A~\n\
    0\t^exports:~- targets: [ arm64-macos ]~  objc-eh-types: A~\n\
    0\t^exports:~- targets: [ arm64-macos ]~  objc-ivars:~    - [ A ]~\n\
    0\t^exports:~- symbols: _a~\n\
    0\t^exports:~- targets: [ arm64-macos ]~- targets: [ x86_64-macos ]~  symbols: _a~\n\
    0\t^reexports: _a~\n\
    0\t^reexports:~- targets: [ arm64-macos ]~  symbols: _a~\n\
    0\t^exports: a~--- !a~\n\
    1\t^^exports: a~^reexports: a~\n\
    2\t^--- !tapi-tbd~tbd-version: 4~targets: [ x86_64-macos ]~exports: a~^exports: a~\n\
";

fn is_fault(read: &Result<StubFile, StubFault>, wanted: &str) -> bool {
    match read {
        Err(StubFault::NotTbd4) => wanted == "version",
        Err(StubFault::NoTarget) => wanted == "target",
        Err(StubFault::BadKey { doc }) => wanted.parse::<u32>() == Ok(*doc),
        _ => false,
    }
}

/// The first row of which another fault or document is told.
pub fn wrong_fault(alloc: Global) -> Option<&'static str> {
    for row in FAULTS.lines() {
        let (wanted, text) = row.split_once('\t').unwrap_or((row, ""));
        let read = read(alloc, text);
        if !is_fault(&read, wanted) {
            return Some(row);
        }
    }
    None
}
