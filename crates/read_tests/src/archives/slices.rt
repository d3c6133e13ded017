//! Universal files.
use super::llvm_files::{BOTH, both};
use crate::edits::edit;
use mo_ar::{SliceFault, slice_of};
use mo_types::{Kind, OutOfMemory, Rule, kind_of};
use std::alloc::Global;

// Two entries, for x86_64 at 48 and arm64 at 56, of 8 bytes each.
fn sample() -> &'static [u8] {
    b"\xca\xfe\xba\xbe\0\0\0\x02\
\x01\0\0\x07\0\0\0\x03\0\0\0\x30\0\0\0\x08\0\0\0\x03\
\x01\0\0\x0c\0\0\0\0\0\0\0\x38\0\0\0\x08\0\0\0\x03\
x86_64..arm64..."
}

const SIZE: usize = 64;

// The slice of some bytes, where their kind is that of a universal file.
fn slice(bytes: &[u8]) -> Result<(usize, usize), SliceFault> {
    match kind_of(bytes) {
        Kind::Universal => slice_of(bytes),
        _ => Err(fault(0, Rule::NotAnInput)),
    }
}

fn fault(place: u64, rule: Rule) -> SliceFault {
    SliceFault::Malformed { place, rule }
}

// Bytes of the sample, and its slice or the fault.
fn cases() -> [(&'static str, Result<(usize, usize), SliceFault>); 16] {
    let none = Err(fault(0, Rule::NoSlice));
    [
        ("", Ok((56, 8))),
        // no entry; only the one of another machine
        ("7=00", none),
        ("7=01", none),
        // arm64e, and arm64 with a capability
        ("35=02", none),
        ("32=80", none),
        // arm64 twice: the first one
        ("11=0c 15=00", Ok((48, 8))),
        // three entries and two thirds of one more than there is room for
        ("7=03", Err(fault(48, Rule::Slice))),
        ("4=ffffffff", Err(fault(48, Rule::Slice))),
        // a slice of the whole file, an empty one at its end, one behind it, one byte too long
        ("39=00 43=40", Ok((0, 64))),
        ("39=40 43=00", Ok((64, 0))),
        ("39=41 43=00", Err(fault(28, Rule::Slice))),
        ("43=09", Err(fault(28, Rule::Slice))),
        // sums that reach 2^32
        ("36=ffffffff", Err(fault(28, Rule::Slice))),
        ("40=ffffffc8", Err(fault(28, Rule::Slice))),
        ("11=0c 15=00 16=ffffffff", Err(fault(8, Rule::Slice))),
        // the slice of the other machine is not asked
        ("16=ffffffff", Ok((56, 8))),
    ]
}

fn cut(size: usize) -> Result<(usize, usize), SliceFault> {
    match size {
        0..4 => Err(fault(0, Rule::NotAnInput)),
        4..8 => Err(fault(0, Rule::Slice)),
        8..28 => Err(fault(8, Rule::Slice)),
        28..48 => Err(fault(28, Rule::Slice)),
        48..SIZE => Err(fault(28, Rule::Slice)),
        _ => Ok((56, 8)),
    }
}

fn is_changed(
    alloc: Global,
    edits: &str,
    wanted: Result<(usize, usize), SliceFault>,
) -> Result<bool, OutOfMemory> {
    let mut bytes = Vec::from_slice(alloc, sample())?;
    edit(&mut bytes, edits);
    Ok(slice(&bytes) == wanted)
}

/// The first changes to the sample after which something else is told.
pub fn changed(alloc: Global) -> Result<Option<&'static str>, OutOfMemory> {
    for (edits, wanted) in cases() {
        if !is_changed(alloc, edits, wanted)? {
            return Ok(Some(edits));
        }
    }
    Ok(None)
}

/// Whether each first part of the sample tells its fault.
pub fn cut_short() -> bool {
    for size in 0..=SIZE {
        if slice(sample().get(..size).unwrap_or(b"")) != cut(size) {
            return false;
        }
    }
    true
}

/// Whether the slice of a file of two machines is that of arm64.
pub fn slice_of_both() -> bool {
    slice(both()) == Ok(BOTH)
}
