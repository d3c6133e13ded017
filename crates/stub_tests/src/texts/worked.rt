use super::{read_bytes, tells, walk_of};
use mo_types::Bytes;
use std::alloc::Global;
use tbd_yaml::{YamlFault, YamlFile};

const SDK_HELLO: &[u8] = b"\
--- !tapi-tbd\n\
tbd-version:     4\n\
targets:         [ x86_64-macos, arm64-macos, arm64e-macos ]\n\
install-name:    '/usr/lib/libSystem.B.dylib'\n\
current-version: 1345.100.2\n\
reexported-libraries:\n  \
  - targets:         [ arm64-macos ]\n    \
    libraries:       [ '/usr/lib/system/libsystem_c.dylib' ]\n\
--- !tapi-tbd\n\
tbd-version:     4\n\
targets:         [ arm64-macos ]\n\
install-name:    '/usr/lib/system/libsystem_c.dylib'\n\
exports:\n  \
  - targets:         [ arm64-macos ]\n    \
    symbols:         [ _puts ]\n\
...\n";

const SDK_HELLO_WALK: &[u8] = b"\
%!tapi-tbd{tbd-version=<4>targets=(<x86_64-macos><arm64-macos><arm64e-macos>.\
install-name=</usr/lib/libSystem.B.dylib>current-version=<1345.100.2>\
reexported-libraries=({targets=(<arm64-macos>.libraries=(</usr/lib/system/libsystem_c.dylib>....\
%!tapi-tbd{tbd-version=<4>targets=(<arm64-macos>.install-name=</usr/lib/system/libsystem_c.dylib>\
exports=({targets=(<arm64-macos>.symbols=(<_puts>....";

// The list that the fifth line opens isn't closed.
const OPEN_FLOW_LIST: &[u8] = b"\
--- !tapi-tbd\n\
tbd-version: 4\n\
targets: [ arm64-macos ]\n\
install-name: /x\n\
exports: [ a,\n  \
  b\n\
...\n";

fn has_walk(alloc: Global, file: &YamlFile, walk: &[u8]) -> bool {
    match walk_of(alloc, file) {
        Ok(found) => found.as_slice() == walk,
        Err(_) => false,
    }
}

fn is_walk(alloc: Global, text: &'static [u8], walk: &[u8]) -> bool {
    match &read_bytes(alloc, &Bytes::from_static(text)) {
        Ok(file) => has_walk(alloc, file, walk),
        Err(_) => false,
    }
}

// A text of so many keys within each other, each more indented than the one around it.
fn nested(alloc: Global, levels: usize) -> Result<Bytes, YamlFault> {
    let mut indent = Vec::new(alloc);
    indent.resize(levels, b' ')?;
    let mut text = Vec::with_capacity(alloc, 1 << 30)?;
    text.extend_from_slice(b"---\n")?;
    for level in 0..levels {
        text.extend_from_slice(&indent[..level])?;
        text.extend_from_slice(b"a:\n")?;
    }
    Ok(Bytes::from_vec(text)?)
}

// A text of one list with so many symbols, in lines of four.
fn listed(alloc: Global, lines: usize) -> Result<Bytes, YamlFault> {
    let mut text = Vec::new(alloc);
    text.extend_from_slice(b"---\nsymbols: [ _a")?;
    for _ in 1..lines {
        text.extend_from_slice(b",\n   _b, '_c', \"_d\", _e.f")?;
    }
    text.extend_from_slice(b" ]\n")?;
    Ok(Bytes::from_vec(text)?)
}

// How many steps the walk through the only tree of a file has, or 0.
fn steps(file: &YamlFile) -> usize {
    match file.docs.as_slice() {
        [doc] => doc.events.len(),
        _ => 0,
    }
}

fn steps_of(alloc: Global, text: &Bytes) -> Result<usize, YamlFault> {
    let file = read_bytes(alloc, text)?;
    Ok(steps(&file))
}

/// Whether keys within each other and a long list are read.
pub fn deep_and_long(alloc: Global) -> Result<bool, YamlFault> {
    let deep = steps_of(alloc, &nested(alloc, 46_000)?)?;
    let long = steps_of(alloc, &listed(alloc, 5_000)?)?;
    Ok(deep == 138_001 && long == 20_002)
}

/// Whether the line that opens a list which isn't closed is told.
pub fn open_flow_list(alloc: Global) -> bool {
    let told = read_bytes(alloc, &Bytes::from_static(OPEN_FLOW_LIST));
    tells(&told, 5, "flow")
}

/// Whether two documents, and escapes, are their trees.
pub fn sdk_hello(alloc: Global) -> bool {
    is_walk(alloc, SDK_HELLO, SDK_HELLO_WALK)
        && is_walk(alloc, b"---\na: \"\\n\\t\\0\"", b"%{a=<\n\t\0>.")
}
