//! Atoms' bytes copied, and their fields written as they come.

use arm64_insn::{put_branch, put_low12, put_page};
use atom_cut::bytes_of;
use byteorder::{ByteOrder, LittleEndian};
use mo_types::{LoadedFile, RefKind};
use patch::{Met, PlacedWork};

// Copies the bytes of an atom, and answers where they are.
fn copied<'a>(
    image: &'a mut [u8],
    files: &[LoadedFile],
    item: &PlacedWork,
) -> Option<&'a mut [u8]> {
    let contents = bytes_of(&files.get(item.file)?.object, &item.atom);
    let start = item.at as usize;
    let bytes = image.get_mut(start..start.saturating_add(contents.len()))?;
    if bytes.len() == contents.len() {
        bytes.copy_from_slice(contents);
    }
    Some(bytes)
}

/// Copies the bytes of atoms to their places.
pub fn copy_atoms(image: &mut [u8], files: &[LoadedFile], work: &[PlacedWork]) {
    for item in work {
        let _done = copied(image, files, item).is_some();
    }
}

// The target of a reference with its addend, if it is an address.
fn target_of(met: &Met) -> Option<u64> {
    u64::try_from(i128::from(met.value) + i128::from(met.addend)).ok()
}

// The same modulo 2^64.
fn wrapped_target(met: &Met) -> u64 {
    met.value.wrapping_add(met.addend.cast_unsigned())
}

// The word with its field, or as it was where the value doesn't fit.
fn word_of(word: u32, at: u64, met: &Met) -> u32 {
    let new = match (met.kind, target_of(met)) {
        (RefKind::Branch, Some(target)) => put_branch(word, target.wrapping_sub(at).cast_signed()),
        (RefKind::Page, Some(target)) => put_page(word, (target >> 12) as i64 - (at >> 12) as i64),
        (RefKind::PageOff, _) => put_low12(word, wrapped_target(met)),
        _ => None,
    };
    new.unwrap_or(word)
}

// Writes one field.
fn write_field(bytes: &mut [u8], address: u64, met: &Met) {
    let at = met.place as usize;
    if at > bytes.len() || bytes.len() - at < 8 {
        return;
    }
    match met.kind {
        RefKind::Pointer => LittleEndian::write_u64(&mut bytes[at..], wrapped_target(met)),
        _ => {
            let word = LittleEndian::read_u32(&bytes[at..]);
            let place = address.wrapping_add(met.place);
            LittleEndian::write_u32(&mut bytes[at..], word_of(word, place, met));
        }
    }
}

/// Copies the bytes of atoms to their places and writes their fields, each as it comes: so many references of each atom,
/// one atom's behind the other's.
pub fn write_once(
    image: &mut [u8],
    files: &[LoadedFile],
    work: &[PlacedWork],
    mets: &[Met],
    each: usize,
) {
    for (i, item) in work.iter().enumerate() {
        let first = i.saturating_mul(each);
        let last = first.saturating_add(each);
        match (copied(image, files, item), mets.get(first..last)) {
            (Some(bytes), Some(refs)) => {
                for met in refs {
                    write_field(bytes, item.address, met);
                }
            }
            _ => {}
        }
    }
}
