//! An archive as one line of text.
use super::read;
use mo_ar::Archive;
use mo_types::{ObjFault, OutOfMemory};
use std::alloc::{AllocError, Global};

fn put_number(out: &mut Vec<u8>, alloc: Global, number: u64) -> Result<(), AllocError> {
    let text = format!(in alloc; "{number}")?;
    out.extend_from_slice(text.as_bytes())
}

fn put_members(out: &mut Vec<u8>, alloc: Global, archive: &Archive) -> Result<(), OutOfMemory> {
    for member in archive.members.as_slice() {
        out.extend_from_slice(member.name.as_slice())?;
        out.push(b'@')?;
        put_number(out, alloc, member.from)?;
        out.push(b'+')?;
        put_number(out, alloc, member.size)?;
        out.push(b' ')?;
    }
    Ok(())
}

fn put_offers(out: &mut Vec<u8>, alloc: Global, archive: &Archive) -> Result<(), OutOfMemory> {
    for i in 0..archive.offers.len() {
        let Some((name, member)) = archive.offers.get(i) else {
            continue;
        };
        out.push(b' ')?;
        out.extend_from_slice(name)?;
        out.push(b'=')?;
        put_number(out, alloc, u64::from(member))?;
        out.push(b'/')?;
        put_number(
            out,
            alloc,
            u64::from(archive.offers.first_offer(name).unwrap_or(0)),
        )?;
    }
    Ok(())
}

fn described(alloc: Global, archive: &Archive) -> Result<Vec<u8>, OutOfMemory> {
    let mut out = Vec::new(alloc);
    put_members(&mut out, alloc, archive)?;
    out.push(b'|')?;
    put_offers(&mut out, alloc, archive)?;
    Ok(out)
}

// What some bytes are read as: each member's name, place and size, and behind a bar each offer's name, its member
// and the first member that offers the name; or the message of the fault.
fn outcome(alloc: Global, bytes: &[u8]) -> Result<Vec<u8>, OutOfMemory> {
    match read(alloc, Vec::from_slice(alloc, bytes)?) {
        Ok(archive) => described(alloc, &archive),
        Err(fault) => told(alloc, fault),
    }
}

fn told(alloc: Global, fault: ObjFault) -> Result<Vec<u8>, OutOfMemory> {
    let text = format!(in alloc; "{fault}")?;
    Ok(Vec::from_slice(alloc, text.as_bytes())?)
}

/// Whether some bytes are read as that line.
pub fn is_read_as(alloc: Global, bytes: &[u8], text: &str) -> Result<bool, OutOfMemory> {
    let found = outcome(alloc, bytes)?;
    Ok(found.as_slice() == text.as_bytes())
}
