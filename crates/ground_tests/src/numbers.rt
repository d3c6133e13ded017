use crate::first_wrong;
use crate::instructions::{branches_are_written, low_bits_are_written, pages_are_written};
use crate::load_commands::{load_commands_are_read, load_commands_are_written};
use crate::structures::{
    an_object_of_clang_is_read, commands_and_entries_are_read, headers_are_read,
    relocations_of_clang_are_read, structures_are_written, symbols_of_clang_are_read,
};
use mo_bytes::{read_u16, read_u32, read_u64, round_up, uleb_len, uleb_put, uleb_read};
use std::alloc::{AllocError, Global};
use std::test::Fail;

// The first eight bytes of an arm64 Mach-O file: MH_MAGIC_64 and CPU_TYPE_ARM64 (`loader.h`).
const HEADER: [u8; 8] = [0xcf, 0xfa, 0xed, 0xfe, 0x0c, 0x00, 0x00, 0x01];

const OF_16_BITS: [(usize, Option<u16>); 6] = [
    (0, Some(0xfacf)),
    (6, Some(0x0100)),
    (7, None),
    (8, None),
    (9, None),
    (usize::MAX, None),
];

const OF_32_BITS: [(usize, Option<u32>); 4] = [
    (0, Some(0xfeed_facf)),
    (4, Some(0x0100_000c)),
    (5, None),
    (usize::MAX, None),
];

const OF_64_BITS: [(usize, Option<u64>); 3] = [
    (0, Some(0x0100_000c_feed_facf)),
    (1, None),
    (usize::MAX, None),
];

// A number, an exponent, and the least multiple of its power of two.
const ROUNDED: [(u64, u8, Option<u64>); 9] = [
    (0, 14, Some(0)),
    (1, 14, Some(0x4000)),
    (0x4000, 14, Some(0x4000)),
    (0x4001, 14, Some(0x8000)),
    (7, 0, Some(7)),
    (u64::MAX, 0, Some(u64::MAX)),
    (u64::MAX, 1, None),
    (1 << 63, 63, Some(1 << 63)),
    ((1 << 63) + 1, 63, None),
];

// Spellings from DWARF 5, section 7.6 (2 to 12857), and the ends of the range.
const SPELLINGS: [(u64, &[u8]); 8] = [
    (0, &[0x00]),
    (2, &[0x02]),
    (127, &[0x7f]),
    (128, &[0x80, 0x01]),
    (129, &[0x81, 0x01]),
    (4096, &[0x80, 0x20]),
    (12857, &[0xb9, 0x64]),
    (
        u64::MAX,
        &[0xff, 0xff, 0xff, 0xff, 0xff, 0xff, 0xff, 0xff, 0xff, 0x01],
    ),
];

// Bytes, a place, and the number that is spelled there with the place behind it.
const EDGES: [(&[u8], usize, Option<(u64, usize)>); 7] = [
    (&[0x80, 0x00], 0, Some((0, 2))),
    (
        &[0x82, 0x80, 0x80, 0x80, 0x80, 0x80, 0x80, 0x80, 0x80, 0x00],
        0,
        Some((2, 10)),
    ),
    (
        &[
            0x82, 0x80, 0x80, 0x80, 0x80, 0x80, 0x80, 0x80, 0x80, 0x80, 0x00,
        ],
        0,
        None,
    ),
    (
        &[0xff, 0xff, 0xff, 0xff, 0xff, 0xff, 0xff, 0xff, 0xff, 0x02],
        0,
        None,
    ),
    (&[0x05, 0x80], 1, None),
    (&[0x05, 0x80], 2, None),
    (&[0x05, 0x80], usize::MAX, None),
];

fn halves_of_a_header() -> bool {
    for (at, want) in &OF_16_BITS {
        if read_u16(&HEADER, *at) != *want {
            return false;
        }
    }
    true
}

fn words_of_a_header() -> bool {
    for (at, want) in &OF_32_BITS {
        if read_u32(&HEADER, *at) != *want {
            return false;
        }
    }
    for (at, want) in &OF_64_BITS {
        if read_u64(&HEADER, *at) != *want {
            return false;
        }
    }
    true
}

fn is_rounded(value: u64, exponent: u8, want: Option<u64>) -> bool {
    exponent < 64 && round_up(value, exponent) == want
}

fn numbers_are_rounded() -> bool {
    for (value, exponent, want) in &ROUNDED {
        if !is_rounded(*value, *exponent, *want) {
            return false;
        }
    }
    true
}

// A byte, and the spelling of a number.
fn spelling_of(alloc: Global, value: u64) -> Result<Vec<u8>, AllocError> {
    let mut out = vec![in alloc; 0xaa]?;
    uleb_put(&mut out, value)?;
    Ok(out)
}

// Whether a number has this spelling, and is read of it where another byte stands behind it.
fn is_spelled(alloc: Global, value: u64, bytes: &[u8]) -> Result<bool, AllocError> {
    let mut out = spelling_of(alloc, value)?;
    let is_written = out.as_slice().get(1..) == Some(bytes) && uleb_len(value) == bytes.len();
    out.push(0xbb)?;
    let end = bytes.len().wrapping_add(1);
    Ok(is_written && uleb_read(out.as_slice(), 1) == Some((value, end)))
}

fn numbers_are_spelled(alloc: Global) -> Result<bool, AllocError> {
    for (value, bytes) in &SPELLINGS {
        if !is_spelled(alloc, *value, bytes)? {
            return Ok(false);
        }
    }
    Ok(true)
}

fn edges_are_read() -> bool {
    for (bytes, at, want) in &EDGES {
        if uleb_read(bytes, *at) != *want {
            return false;
        }
    }
    true
}

// Numbers of bytes and their spellings, words of the assembler, an object of clang, and structures and load commands that
// yaml2obj writes.
#[test]
fn numbers_words_and_structures(rt: HostRuntime) -> Result<(), Fail> {
    let alloc = rt.alloc();
    let wrong = first_wrong(&[
        ("halves", halves_of_a_header()),
        ("words", words_of_a_header()),
        ("rounded", numbers_are_rounded()),
        ("spelled", numbers_are_spelled(alloc)?),
        ("edges", edges_are_read()),
        ("branches", branches_are_written()),
        ("pages", pages_are_written()),
        ("low bits", low_bits_are_written()),
        ("an object", an_object_of_clang_is_read()),
        ("relocations", relocations_of_clang_are_read()),
        ("symbols", symbols_of_clang_are_read()),
        ("headers", headers_are_read()),
        ("commands", commands_and_entries_are_read()),
        ("structures", structures_are_written(alloc)?),
        ("load commands", load_commands_are_read()),
        ("their bytes", load_commands_are_written(alloc)?),
    ]);
    assert!(rt; wrong.is_empty(), "{wrong}");
    Ok(())
}
