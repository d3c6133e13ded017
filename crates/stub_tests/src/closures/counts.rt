use super::{closed, named_at};
use crate::stubs::worked::SDK_HELLO;
use lib_bind::{
    BindFault, Libraries, NamedStub, Provider, StubFileList, provider_of, read_stub_text,
};
use mo_outside::FileList;
use mo_types::{Bytes, OutOfMemory, Refusal, Which};
use std::alloc::Global;

// The words of a command line that names so many libraries.
fn many_words(alloc: Global, count: u16) -> Result<String, OutOfMemory> {
    let mut words = String::from_str(alloc, "main.o")?;
    for _ in 0..count {
        words.push_str(" l.tbd")?;
    }
    Ok(words)
}

fn numbered(alloc: Global, number: u16) -> Result<Option<NamedStub>, OutOfMemory> {
    let install = format!(in alloc; "/l{number}")?;
    named_at(alloc, number.wrapping_add(1), install.as_str())
}

// So many libraries of other install names.
fn many_named(alloc: Global, count: u16) -> Result<StubFileList, OutOfMemory> {
    let mut named = StubFileList::new(alloc);
    for number in 0..count {
        if let Some(stub) = numbered(alloc, number)? {
            named.push(stub)?;
        }
    }
    Ok(named)
}

// So many libraries on one command line.
fn many(alloc: Global, count: u16) -> Result<Option<Libraries>, BindFault> {
    let named = many_named(alloc, count)?;
    let words = many_words(alloc, count)?;
    closed(alloc, words.as_str(), named, FileList::new(alloc), 0)
}

// The ordinal of the last library.
fn last_ordinal(answer: &Result<Option<Libraries>, BindFault>) -> Option<u8> {
    match answer {
        Ok(Some(libs)) => libs
            .graph()
            .libraries
            .as_slice()
            .last()
            .map(|library| library.ordinal),
        _ => None,
    }
}

fn is_limit(answer: &Result<Option<Libraries>, BindFault>) -> bool {
    let Err(fault) = answer else {
        return false;
    };
    let BindFault::Refused(refusal) = fault else {
        return false;
    };
    match refusal {
        Refusal::Limit { which } => matches!(which, Which::Libraries),
        _ => false,
    }
}

/// Whether as many libraries are bound as there may be.
pub fn most_libraries(alloc: Global) -> bool {
    let answer = many(alloc, 240);
    last_ordinal(&answer) == Some(240)
}

/// Whether one library more is told.
pub fn a_library_more(alloc: Global) -> bool {
    let answer = many(alloc, 241);
    is_limit(&answer)
}

// The text of a library of two documents, the second re-exported by the first, named by a command line.
fn worked(alloc: Global) -> Result<Option<Libraries>, BindFault> {
    let text = Bytes::from_static(SDK_HELLO);
    if text.len() >= 0x4000_0000 {
        return Ok(None);
    }
    let Ok(file) = read_stub_text(alloc, &text) else {
        return Ok(None);
    };
    let mut named = StubFileList::new(alloc);
    named.push(NamedStub {
        position: 1,
        label: Bytes::new(),
        file,
    })?;
    closed(
        alloc,
        "main.o libSystem.tbd",
        named,
        FileList::new(alloc),
        0,
    )
}

fn is_worked(libs: &Libraries) -> bool {
    let bound = Provider {
        ordinal: 1,
        weak: false,
        weak_library: false,
    };
    provider_of(libs, b"_puts") == Some(bound)
        && provider_of(libs, b"_put").is_none()
        && provider_of(libs, b"").is_none()
        && libs
            .graph()
            .documents
            .as_slice()
            .iter()
            .any(|document| document.current == 0x0541_6402)
}

/// Whether a library whose second document is re-exported by the first provides its name.
pub fn sdk_hello(alloc: Global) -> bool {
    let answer = worked(alloc);
    match &answer {
        Ok(Some(libs)) => is_worked(libs),
        _ => false,
    }
}
