use super::{read, says};
use std::alloc::Global;

// What a library says, and its text.
const SAID: &str = "\
    /x 10000 10000;\t^\n\
    /x 5416402 10101;\t^current-version: 1345.100.2~compatibility-version: 1.1.1~\n\
    /x ffffffff 20300;\t^current-version: 65535.255.255~compatibility-version: '2.3'~\n\
    /x 70000 0;\t^current-version: 00000000000000000000000007.0~compatibility-version: 0~\n\
    /x 10000 10000 =_a =_b* =_c;\t^exports:~- targets: [ arm64-macos ]~  symbols: [ _c, _a ]~  weak-symbols: [ _b ]~\n\
    /x 10000 10000 =_a =_b;\t^exports:~- targets: [ arm64-macos ]~  symbols: [ _b, _a, _b ]~  thread-local-symbols: [ _a ]~\n\
    /x 10000 10000 =_a* =_b*;\t^exports:~- targets: [ arm64-macos ]~  symbols: [ _a, _b ]~  weak-symbols: [ _a ]~reexports:~- targets: [ arm64-macos ]~  weak-symbols: [ _b ]~\n\
    /x 10000 10000 =_OBJC_CLASS_$_A =_OBJC_EHTYPE_$_B =_OBJC_IVAR_$_A.c =_OBJC_METACLASS_$_A;\t^exports:~- targets: [ arm64-macos ]~  objc-classes: [ A ]~  objc-eh-types: [ B ]~  objc-ivars: [ A.c ]~\n\
    /x 10000 10000 =$ldx =_OBJC_CLASS_$_$ld$ =_OBJC_METACLASS_$_$ld$ =_a;\t^exports:~- targets: [ arm64-macos ]~  symbols: [ $ld$hide$os10.4$_x, $ldx, _a ]~  weak-symbols: [ '$ld$' ]~  objc-classes: [ $ld$ ]~\n\
    /x 10000 10000 =_c;\t^exports:~- targets: [ x86_64-macos ]~  symbols: [ _a ]~- symbols: [ _b ]~- targets: [ x86_64-macos, arm64-macos ]~  symbols: [ _c ]~- targets: [ arm64e-macos ]~  symbols: [ _d ]~\n\
    /x 10000 10000 =_b;\t--- !tapi-tbd~tbd-version: 4~targets: [ arm64e-macos ]~install-name: /x~exports:~- targets: [ arm64-macos ]~  symbols: [ _a ]~- targets: [ arm64e-macos ]~  symbols: [ _b ]~\n\
    /x 10000 10000 =_a;\t--- !tapi-tbd~tbd-version: 4~targets: [ arm64e-macos, arm64-macos ]~install-name: /x~exports:~- targets: [ arm64-macos ]~  symbols: [ _a ]~- targets: [ arm64e-macos ]~  symbols: [ _b ]~\n\
    /x 10000 10000 >/b >/a >/b;\t^reexported-libraries:~- targets: [ arm64-macos ]~  libraries: [ /b, /a ]~- targets: [ x86_64-macos ]~  libraries: [ /c ]~- targets: [ arm64-macos ]~  libraries: [ /b ]~\n\
    /x 10000 10000;\t^swift-abi-version: 5~parent-umbrella:~- targets: [ arm64-macos ]~  umbrella: System~exports:~- targets: [ arm64-macos ]~  libraries: /a~\n\
    /x 10000 10000;/x 10000 10000 =_a;\t^--- !tapi-tbd~tbd-version: 4~targets: [ x86_64-macos ]~exports: a~^exports:~- targets: [ arm64-macos ]~  symbols: [ _a ]~\n\
";

/// The first row of which a library says something else.
pub fn wrong_key(alloc: Global) -> Option<&'static str> {
    for row in SAID.lines() {
        let (wanted, text) = row.split_once('\t').unwrap_or((row, ""));
        let read = read(alloc, text);
        if !says(alloc, &read, wanted.as_bytes()) {
            return Some(row);
        }
    }
    None
}
