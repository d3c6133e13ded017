//! Stub libraries. What is expected comes from the keys of TBD version 4, by hand.
mod faults;
mod keys;
pub mod worked;

ghost use Rattle.std.specs.Prelude.{◌≡◌, IfOk, Ok};
ghost use Rattle.tbd_yaml.specs.File.{file_of};

use mo_types::Bytes;
use std::alloc::Global;
use std::test::Fail;
use tbd_doc::{Stub, StubFault, StubFile, read_stubs};
use tbd_yaml::{YamlFault, YamlFile, read_yaml};

// The first lines of a document that is a stub library.
const HEAD: &str = "--- !tapi-tbd\ntbd-version: 4\ntargets: [ arm64-macos ]\ninstall-name: /x\n";

// The bytes of a row: `~` stands for a newline, `^` for the first lines of a document.
fn text_of(alloc: Global, row: &str) -> Result<Vec<u8>, StubFault> {
    let mut text = Vec::new(alloc);
    for byte in row.as_bytes() {
        match *byte {
            b'~' => text.push(b'\n')?,
            b'^' => text.extend_from_slice(HEAD.as_bytes())?,
            byte => text.push(byte)?,
        }
    }
    Ok(text)
}

// Reads a text, as far as it is one of fewer than 2^32 bytes.
fn read_text(alloc: Global, text: &Bytes) -> Result<YamlFile, YamlFault>
    ensures { IfOk result (λ file. file_of text.now ≡ Ok file) }
{
    if text.len() > 0xffff_ffff {
        return Err(YamlFault::OutOfMemory);
    }
    read_yaml(alloc, text)
}

// Reads a text that has no fault as one.
fn read_bytes(alloc: Global, text: &Bytes) -> Result<StubFile, StubFault> {
    let Ok(file) = read_text(alloc, text) else {
        return Err(StubFault::OutOfMemory);
    };
    if file.docs.len() > 0xffff_ffff {
        return Err(StubFault::OutOfMemory);
    }
    read_stubs(alloc, &file)
}

fn read(alloc: Global, row: &str) -> Result<StubFile, StubFault> {
    let text = Bytes::from_vec(text_of(alloc, row)?)?;
    read_bytes(alloc, &text)
}

// What a document says: its install name, its versions, `>` before each library that it re-exports, `=` before each
// name that it exports and `*` behind a weak one, and `;`.
fn add_stub(alloc: Global, stub: &Stub, said: &mut Vec<u8>) -> Result<(), StubFault> {
    said.extend_from_slice(stub.install.as_slice())?;
    let versions = format!(in alloc; " {:x} {:x}", stub.current, stub.compatible)?;
    said.extend_from_slice(versions.as_bytes())?;
    for name in stub.reexports.as_slice() {
        said.extend_from_slice(b" >")?;
        said.extend_from_slice(name.as_slice())?;
    }
    for export in stub.exports.as_slice() {
        said.extend_from_slice(b" =")?;
        said.extend_from_slice(export.name.as_slice())?;
        if export.weak {
            said.push(b'*')?;
        }
    }
    said.push(b';')?;
    Ok(())
}

fn said(alloc: Global, file: &StubFile) -> Result<Vec<u8>, StubFault> {
    let mut said = Vec::new(alloc);
    for stub in file.docs.as_slice() {
        add_stub(alloc, stub, &mut said)?;
    }
    Ok(said)
}

fn is_said(alloc: Global, file: &StubFile, wanted: &[u8]) -> bool {
    match said(alloc, file) {
        Ok(found) => found.as_slice() == wanted,
        Err(_) => false,
    }
}

// Whether what was read are documents that say this.
fn says(alloc: Global, read: &Result<StubFile, StubFault>, wanted: &[u8]) -> bool {
    match read {
        Ok(file) => is_said(alloc, file, wanted),
        Err(_) => false,
    }
}

#[test]
fn sdk_hello_and_many_symbols(rt: HostRuntime) -> Result<(), Fail> {
    let alloc = rt.alloc();
    assert!(rt; worked::sdk_hello(alloc));
    assert!(rt; worked::many_symbols(alloc) == Ok(true));
    for wrong in [keys::wrong_key(alloc), faults::wrong_fault(alloc)] {
        let row = wrong.unwrap_or("");
        assert!(rt; wrong.is_none(), "{row}");
    }
    Ok(())
}
