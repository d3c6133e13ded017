//! Relocations that pass the file's end, as many sections as there may be, and sections that share too much.
use super::read;
use super::sample::tells;
use crate::edits::edit;
use mo_types::{ObjFault, Object, OutOfMemory};
use std::alloc::Global;

// One function without relocations: the header of its section at 104, the function at 208, one symbol at 216,
// its name at 232.
fn one() -> &'static [u8] {
    b"\
\xcf\xfa\xed\xfe\x0c\x00\x00\x01\x00\x00\x00\x00\x01\x00\x00\x00\x02\x00\x00\x00\xb0\x00\x00\x00\
\x00\x20\x00\x00\x00\x00\x00\x00\x19\x00\x00\x00\x98\x00\x00\x00\x00\x00\x00\x00\x00\x00\x00\x00\
\x00\x00\x00\x00\x00\x00\x00\x00\x00\x00\x00\x00\x00\x00\x00\x00\x08\x00\x00\x00\x00\x00\x00\x00\
\xd0\x00\x00\x00\x00\x00\x00\x00\x08\x00\x00\x00\x00\x00\x00\x00\x07\x00\x00\x00\x07\x00\x00\x00\
\x01\x00\x00\x00\x00\x00\x00\x00\x5f\x5f\x74\x65\x78\x74\x00\x00\x00\x00\x00\x00\x00\x00\x00\x00\
\x5f\x5f\x54\x45\x58\x54\x00\x00\x00\x00\x00\x00\x00\x00\x00\x00\x00\x00\x00\x00\x00\x00\x00\x00\
\x08\x00\x00\x00\x00\x00\x00\x00\xd0\x00\x00\x00\x02\x00\x00\x00\x00\x00\x00\x00\x00\x00\x00\x00\
\x00\x04\x00\x80\x00\x00\x00\x00\x00\x00\x00\x00\x00\x00\x00\x00\x02\x00\x00\x00\x18\x00\x00\x00\
\xd8\x00\x00\x00\x01\x00\x00\x00\xe8\x00\x00\x00\x07\x00\x00\x00\x00\x00\x80\x52\xc0\x03\x5f\xd6\
\x01\x00\x00\x00\x0f\x01\x00\x00\x00\x00\x00\x00\x00\x00\x00\x00\x00\x5f\x6d\x61\x69\x6e\x00"
}

// The object with a section that names 2 relocations at 0x1e0, and zeros up to a size.
fn with_relocations(alloc: Global, size: usize) -> Result<Vec<u8>, OutOfMemory> {
    let mut bytes = vec![in alloc; 0u8; size]?;
    for (byte, new) in bytes.iter_mut().zip(one().iter()) {
        *byte = *new;
    }
    edit(&mut bytes, "160=e0010000 164=02000000");
    Ok(bytes)
}

// Relocations that pass the file's end; and a byte more: they lie inside, and no row of the table has r_type 0 and
// r_length 0.
const RELOCATIONS: [(usize, &str); 2] = [
    (0x1ef, "malformed at 104: relocations"),
    (0x1f0, "malformed at 480: shape"),
];

fn relocations_are_told(alloc: Global) -> Result<bool, OutOfMemory> {
    for (size, text) in &RELOCATIONS {
        let bytes = with_relocations(alloc, *size)?;
        if !tells(alloc, &bytes, text)? {
            return Ok(false);
        }
    }
    Ok(true)
}

// An object with sections that have no names and no contents, and no symbols: its size in bytes, and the numbers of
// its sections and of the bytes of its one command.
fn with_sections(alloc: Global, size: usize, numbers: &str) -> Result<Vec<u8>, OutOfMemory> {
    let mut bytes = vec![in alloc; 0u8; size]?;
    edit(&mut bytes, "0=cffaedfe0c00000100000000010000000100 32=19");
    edit(&mut bytes, numbers);
    Ok(bytes)
}

// Lets 255 sections of debugging data share one table at 20,504 of that many relocations.
fn share_a_table(bytes: &mut [u8], count: u16) {
    let [low, high] = count.to_le_bytes();
    let headers = bytes.get_mut(104..20_504).unwrap_or(&mut []);
    for (i, byte) in headers.iter_mut().enumerate() {
        *byte = match i % 80 {
            56 => 0x18,
            57 => 0x50,
            60 => low,
            61 => high,
            67 => 2,
            _ => *byte,
        };
    }
}

fn count_of(read: &Result<Object, ObjFault>) -> Option<usize> {
    match read {
        Ok(object) => Some(object.sections.len()),
        Err(_) => None,
    }
}

// How many sections are read, where the object is.
fn section_count(alloc: Global, bytes: &[u8]) -> Option<usize> {
    let object = read(alloc, bytes);
    count_of(&object)
}

fn most_sections_are_read(alloc: Global) -> Result<bool, OutOfMemory> {
    let bytes = with_sections(alloc, 20_504, "96=ff00 20=f84f 36=f84f")?;
    Ok(section_count(alloc, &bytes) == Some(255))
}

fn a_section_more_is_told(alloc: Global) -> Result<bool, OutOfMemory> {
    let bytes = with_sections(alloc, 20_584, "96=0001 20=4850 36=4850")?;
    tells(alloc, &bytes, "malformed at 32: segment")
}

fn shared_tables_are_counted(alloc: Global) -> Result<bool, OutOfMemory> {
    let mut bytes = with_sections(alloc, 28_504, "96=ff00 20=f84f 36=f84f")?;
    share_a_table(&mut bytes, 500);
    let is_read = section_count(alloc, &bytes) == Some(255);
    share_a_table(&mut bytes, 1000);
    Ok(is_read && tells(alloc, &bytes, "out of memory")?)
}

/// Whether relocations lie in the file, and no more sections and relocations are read than may be.
pub fn relocations_and_sections_within_limits(alloc: Global) -> Result<bool, OutOfMemory> {
    Ok(
        relocations_are_told(alloc)?
            && most_sections_are_read(alloc)?
            && a_section_more_is_told(alloc)?
            && shared_tables_are_counted(alloc)?,
    )
}
