//! Texts of stub libraries, which are read again and again.
ghost use Rattle.std.specs.Prelude.{◌≡◌, IfOk, Ok};
ghost use Rattle.tbd_yaml.specs.File.{file_of};

use anyhow::{Context, Result, bail};
use mo_types::Bytes;
use std::alloc::Global;
use std::fs;
use tbd_doc::{StubFile, read_stubs};
use tbd_yaml::{YamlEvent, YamlFile, read_yaml};

fn text_of(rt: &HostRuntime, path: &str) -> Result<Bytes> {
    let text = fs::read(rt, path).context("the text isn't there")?;
    Ok(Bytes::from_vec(text)?)
}

fn read(alloc: Global, text: &Bytes) -> Result<YamlFile>
    ensures { IfOk result (λ file. file_of text.now ≡ Ok file) }
{
    if text.len() > 0xffff_ffff {
        bail!("want a text of fewer than 2^32 bytes");
    }
    Ok(read_yaml(alloc, text)?)
}

fn scalar_size(event: &YamlEvent) -> usize {
    match event {
        YamlEvent::Scalar(text) => text.len(),
        _ => 0,
    }
}

// The steps of the walks through a text's trees, and the bytes of their scalars.
fn steps_and_bytes(file: &YamlFile) -> (usize, usize) {
    let mut steps = 0usize;
    let mut bytes = 0usize;
    for doc in file.docs.as_slice() {
        steps = steps.wrapping_add(doc.events.len());
        for event in doc.events.as_slice() {
            bytes = bytes.wrapping_add(scalar_size(event));
        }
    }
    (steps, bytes)
}

fn yaml_counts(alloc: Global, text: &Bytes) -> Result<(usize, usize)> {
    let file = read(alloc, text)?;
    Ok(steps_and_bytes(&file))
}

/// Reads a text so often, and prints how often, the steps of the walks through its trees, and the bytes of their scalars.
pub(crate) fn read_text(rt: &HostRuntime, path: &str, times: u64) -> Result<()> {
    let text = text_of(rt, path)?;
    let mut counts = (0, 0);
    for _ in 0..times {
        counts = yaml_counts(rt.alloc(), &text)?;
    }
    println!(rt; "{times} {} {}", counts.0, counts.1)?;
    Ok(())
}

fn stubs_of(alloc: Global, text: &Bytes) -> Result<StubFile> {
    let file = read(alloc, text)?;
    if file.docs.len() > 0xffff_ffff {
        bail!("want fewer than 2^32 documents");
    }
    Ok(read_stubs(alloc, &file)?)
}

// The documents that say something, and the names that they export.
fn docs_and_names(stubs: &StubFile) -> (usize, usize) {
    let mut names = 0usize;
    for stub in stubs.docs.as_slice() {
        names = names.wrapping_add(stub.exports.len());
    }
    (stubs.docs.len(), names)
}

fn stub_counts(alloc: Global, text: &Bytes) -> Result<(usize, usize)> {
    let stubs = stubs_of(alloc, text)?;
    Ok(docs_and_names(&stubs))
}

/// Reads what a text says so often, and prints how often, the documents that say something, and the names that they
/// export.
pub(crate) fn read_stub(rt: &HostRuntime, path: &str, times: u64) -> Result<()> {
    let text = text_of(rt, path)?;
    let mut counts = (0, 0);
    for _ in 0..times {
        counts = stub_counts(rt.alloc(), &text)?;
    }
    println!(rt; "{times} {} {}", counts.0, counts.1)?;
    Ok(())
}
