ghost use Rattle.std.specs.Prelude.{◌≡◌, ◌≤◌, ◌<◌, length, take, All, IfOk};
ghost use Rattle.unwind_out.specs.Pages.{encodings as encodings_of, first_function as first_function_of, IsMost, IsFirstPage, ArePages};
ghost use Rattle.unwind_out.specs.Held.{held, IsHeld};

use crate::numbers::{GUESSES, Guesses, forget, put_new};
use image_format::RegularPageEntry;
use mo_types::OutOfMemory;
use std::alloc::Global;

/// The rows of a regular page, which has 4096 bytes at most.
pub const REGULAR_ROWS: usize = 511;

/// An encoding's index in a compressed page has 8 bits.
const MOST_ENCODINGS: usize = 256;

/// The rows and encodings of a compressed page, of 4 bytes each, behind its header of 12 bytes.
const COMPRESSED_ROOM: usize = 1021;

/// The distance of a function from the first one of a compressed page is below this.
const REACH: u64 = 0x100_0000;

/// A page's rows, and where it is a compressed one their encodings, each once, in the order of their first use.
#[derive(Debug, Drop)]
pub struct Page<'a> {
    pub rows: &'a [RegularPageEntry],
    pub encodings: Vec<u32>,
}

/// The function of the first row, and 0 where there is none.
pub fn first_function(rows: &[RegularPageEntry]) -> u32
    ensures { result ≡ first_function_of rows.now }
{
    match rows {
        [row, ..] => row.function_offset,
        [] => 0,
    }
}

// How many rows in front of some one compressed page can hold. Puts their encodings into `numbers`.
#[tactic(auto, using(crate::proofs::Cutting::meeting))]
fn most_rows(
    rows: &[RegularPageEntry],
    numbers: &mut Vec<u32>,
    guesses: &mut Guesses,
) -> Result<usize, OutOfMemory>
    requires some { 0 < length rows.now }
    ensures most { IfOk result (λ most. IsMost rows.now most) }
    ensures encodings { IfOk result (λ most. numbers.new.items ≡ encodings_of (take most rows.now)) }
{
    forget(numbers, guesses);
    let end = u64::from(first_function(rows)) + REACH;
    for (at, row) in rows.iter().enumerate() {
        if u64::from(row.function_offset) >= end {
            return Ok(at);
        }
        let before = numbers.len();
        put_new(numbers, guesses, row.encoding)?;
        if numbers.len() > MOST_ENCODINGS || at + 1 + numbers.len() > COMPRESSED_ROOM {
            numbers.truncate(before);
            return Ok(at);
        }
    }
    Ok(rows.len())
}

// The first page of some rows: a compressed one where that holds more rows than a regular one.
#[tactic(auto, using(crate::proofs::Cutting::first_pages))]
fn first_page<'a>(
    alloc: Global,
    rows: &'a [RegularPageEntry],
    most: usize,
    encodings: &[u32],
) -> Result<Page<'a>, OutOfMemory>
    requires some { 0 < length rows.now }
    requires most { IsMost rows.now most }
    requires encodings { encodings.now ≡ encodings_of (take most rows.now) }
    ensures first { IfOk result (λ page. IsFirstPage rows.now page.rows.now) }
    ensures held { IfOk result IsHeld }
{
    if most > REGULAR_ROWS {
        Ok(Page {
            rows: &rows[..most],
            encodings: Vec::from_slice(alloc, encodings)?,
        })
    } else {
        Ok(Page {
            rows: &rows[..rows.len().min(REGULAR_ROWS)],
            encodings: Vec::new(alloc),
        })
    }
}

/// The rows in pages.
#[tactic(auto, using(crate::proofs::Cutting::cutting))]
pub fn pages(alloc: Global, rows: &[RegularPageEntry]) -> Result<Vec<Page<'_>>, OutOfMemory>
    ensures cut { IfOk result (λ pages. ArePages rows.now (held pages.items)) }
    ensures held { IfOk result (λ pages. All IsHeld pages.items) }
{
    let mut pages = Vec::new(alloc);
    let mut numbers = Vec::with_capacity(alloc, MOST_ENCODINGS + 1)?;
    let mut guesses = [0; GUESSES];
    let mut rest = rows;
    while !rest.is_empty() {
        let most = most_rows(rest, &mut numbers, &mut guesses)?;
        let page = first_page(alloc, rest, most, numbers.as_slice())?;
        rest = &rest[page.rows.len()..];
        pages.push(page)?;
    }
    Ok(pages)
}
