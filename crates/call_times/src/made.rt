//! Objects of a large input, which are made from a number.

use anyhow::{Result, bail};
use link_gen::{generate, object_count};
use std::fs;
use std::time::Instant;

// The most functions of an input.
const MOST: u32 = 20_000;

/// Makes all objects of an input of so many functions, and prints how many there are and how many bytes they have.
pub(crate) fn make_objects(rt: &HostRuntime, count: u32) -> Result<()> {
    if count == 0 || count > MOST {
        bail!("want 1 to {MOST} functions");
    }
    let start = Instant::now(rt)?;
    let mut objects = Vec::new(rt.alloc());
    for object in 0..object_count(count) {
        objects.push(generate(rt.alloc(), count, object)?)?;
    }
    eprintln!(rt; "{}", start.elapsed(rt)?.as_micros())?;
    let mut size = 0usize;
    for object in objects.as_slice() {
        size = size.saturating_add(object.len());
    }
    println!(rt; "{} {size}", objects.len())?;
    Ok(())
}

/// Writes the object of a number to a file.
pub(crate) fn write_object(rt: &HostRuntime, path: &str, count: u64, object: u64) -> Result<()> {
    let (count, object) = (u32::try_from(count)?, u32::try_from(object)?);
    if count == 0 || count > MOST || object_count(count) <= object {
        bail!("want 1 to {MOST} functions and one of their objects");
    }
    let bytes = generate(rt.alloc(), count, object)?;
    fs::write(rt, path, bytes.as_slice())?;
    Ok(())
}
