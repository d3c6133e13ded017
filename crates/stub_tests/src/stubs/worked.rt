use super::{StubFault, StubFile, read_bytes, says};
use mo_types::Bytes;
use std::alloc::Global;

pub const SDK_HELLO: &[u8] = b"\
--- !tapi-tbd\n\
tbd-version:     4\n\
targets:         [ x86_64-macos, arm64-macos, arm64e-macos ]\n\
install-name:    '/usr/lib/libSystem.B.dylib'\n\
current-version: 1345.100.2\n\
reexported-libraries:\n  \
  - targets:         [ arm64-macos ]\n    \
    libraries:       [ '/usr/lib/system/libsystem_c.dylib' ]\n\
--- !tapi-tbd\n\
tbd-version:     4\n\
targets:         [ arm64-macos ]\n\
install-name:    '/usr/lib/system/libsystem_c.dylib'\n\
exports:\n  \
  - targets:         [ arm64-macos ]\n    \
    symbols:         [ _puts ]\n\
...\n";

const SDK_HELLO_SAID: &[u8] = b"\
/usr/lib/libSystem.B.dylib 5416402 10000 >/usr/lib/system/libsystem_c.dylib;\
/usr/lib/system/libsystem_c.dylib 10000 10000 =_puts;";

// A document that lists so many symbols, from the last one on, each of them twice, and every third one as a weak one.
fn listed(alloc: Global, symbols: u32) -> Result<Bytes, StubFault> {
    let mut text = Vec::new(alloc);
    text.extend_from_slice(super::HEAD.as_bytes())?;
    text.extend_from_slice(b"exports:\n- targets: [ arm64-macos ]\n  symbols: [ ")?;
    for at in 0..symbols {
        let number = symbols - at;
        let names = format!(in alloc; "_{number:05}, _{number:05},\n")?;
        text.extend_from_slice(names.as_bytes())?;
    }
    text.extend_from_slice(b" ]\n  weak-symbols: [ ")?;
    for at in 0..symbols / 3 {
        let number = at * 3;
        let names = format!(in alloc; "_{number:05},\n")?;
        text.extend_from_slice(names.as_bytes())?;
    }
    text.extend_from_slice(b" ]\n")?;
    Ok(Bytes::from_vec(text)?)
}

// How many names the only document of a library exports, and how many of them are weak; whether they rise.
fn counts(file: &StubFile) -> Option<(usize, usize)> {
    let [stub] = file.docs.as_slice() else {
        return None;
    };
    let mut weak = 0usize;
    let mut last: &[u8] = b"";
    for export in stub.exports.as_slice() {
        if export.name.as_slice() <= last {
            return None;
        }
        last = export.name.as_slice();
        weak = weak.wrapping_add(usize::from(export.weak));
    }
    Some((stub.exports.len(), weak))
}

fn counted(read: &Result<StubFile, StubFault>) -> Option<(usize, usize)> {
    match read {
        Ok(file) => counts(file),
        Err(_) => None,
    }
}

/// Whether a document of thousands of symbols exports each once. `_00000` stands among the weak ones alone.
pub fn many_symbols(alloc: Global) -> Result<bool, StubFault> {
    let text = listed(alloc, 6_000)?;
    let read = read_bytes(alloc, &text);
    Ok(counted(&read) == Some((6_001, 2_000)))
}

/// Whether a library and what it re-exports say what they do.
pub fn sdk_hello(alloc: Global) -> bool {
    let read = read_bytes(alloc, &Bytes::from_static(SDK_HELLO));
    says(alloc, &read, SDK_HELLO_SAID)
}
