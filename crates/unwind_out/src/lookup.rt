ghost use Rattle.std.specs.Prelude.{◌≡◌, ◌+◌, ◌*◌, ◌<◌, ◌≤◌, ◌^◌, length};
ghost use Rattle.unwind_out.specs.Lookup.{lies as lies_whole, encoding_at, regular_row, compressed_row, regular_rows, compressed_rows, page_rows};
ghost use Rattle.unwind_out.specs.Lookup.{all_rows, each_at, lsda_found, lsda_row, greater as greater_of, row_at, unwind_in, unwind};

use image_format::compact_unwind::{UNWIND_SECOND_LEVEL_COMPRESSED, UNWIND_SECOND_LEVEL_REGULAR};
use image_format::{
    CompressedPageEntry, CompressedPageHeader, RegularPageEntry, RegularPageHeader,
    UnwindIndexEntry, UnwindInfoHeader, UnwindLsdaEntry,
};
use mo_bytes::read_u32;

/// What a section of compact unwind says of a place. Offsets are image offsets.
#[derive(Clone, Copy, Debug, PartialEq, Eq)]
pub struct UnwindHit {
    /// Where the function of the place begins.
    pub function: u32,
    /// Its encoding (`compact_unwind_encoding.h`), 0 where nothing is known.
    pub encoding: u32,
    /// Its language-specific data, or 0 where it has none.
    pub lsda: u32,
}

// A compressed page: its place, the function that its rows count from, and its header.
#[derive(Clone, Copy)]
struct CompressedPage {
    at: usize,
    first: u32,
    header: CompressedPageHeader,
}

// Whether so many bytes from a place on lie in the section.
fn lies(section: &[u8], at: usize, size: usize) -> bool
    ensures { result ≡ lies_whole section.now at size }
{
    size <= section.len() && at <= section.len() - size
}

// Of two rows the one with the greater function, and the second where these are equal.
fn greater(
    first: Option<RegularPageEntry>,
    second: Option<RegularPageEntry>,
) -> Option<RegularPageEntry>
    ensures { result ≡ greater_of first second }
{
    match (first, second) {
        (None, second) => second,
        (first, None) => first,
        (Some(row), Some(later)) if later.function_offset < row.function_offset => Some(row),
        (_, later) => later,
    }
}

// The row of a regular page at a place, where it isn't after the offset.
#[tactic(auto, unfolding(crate::specs::Lookup::regular_row, crate::specs::Lookup::row_at))]
fn regular_row_before(section: &[u8], at: usize, offset: u32) -> Option<RegularPageEntry>
    ensures { result ≡ row_at offset (regular_row section.now at) }
{
    if !lies(section, at, RegularPageEntry::SIZE) {
        return None;
    }
    let row = RegularPageEntry::read(section, at);
    if row.function_offset > offset {
        return None;
    }
    Some(row)
}

#[tactic(auto, using(crate::proofs::Places::seeking))]
fn regular_rows_before(
    section: &[u8],
    first: usize,
    count: u16,
    offset: u32,
) -> Option<RegularPageEntry>
    requires { first < 2 ^ 40 }
    ensures { result ≡ row_at offset (each_at (regular_row section.now) 8 first count) }
{
    let mut best = None;
    for k in 0..usize::from(count) {
        best = greater(best, regular_row_before(section, first + 8 * k, offset));
    }
    best
}

#[tactic(auto, unfolding(crate::specs::Lookup::regular_rows, crate::specs::Lookup::row_at))]
fn regular_page_before(section: &[u8], at: usize, offset: u32) -> Option<RegularPageEntry>
    requires { at < 2 ^ 32 }
    ensures { result ≡ row_at offset (regular_rows section.now at) }
{
    if !lies(section, at, RegularPageHeader::SIZE) {
        return None;
    }
    let page = RegularPageHeader::read(section, at);
    let first = at + usize::from(page.entry_offset);
    regular_rows_before(section, first, page.entry_count, offset)
}

#[tactic(auto, unfolding(crate::specs::Lookup::encoding_at))]
fn encoding_of(
    section: &[u8],
    header: UnwindInfoHeader,
    page: CompressedPage,
    index: u8,
) -> Option<u32>
    requires { page.at < 2 ^ 32 }
    ensures { result ≡ encoding_at section.now header page.at page.header index }
{
    let index = u32::from(index);
    if index < header.common_encodings_count {
        let at = header.common_encodings_offset as usize + 4 * index as usize;
        return read_u32(section, at);
    }
    let index = index - header.common_encodings_count;
    if index < u32::from(page.header.encodings_count) {
        let at = page.at + usize::from(page.header.encodings_offset) + 4 * index as usize;
        return read_u32(section, at);
    }
    None
}

// The row of a compressed page at a place, where it isn't after the offset.
#[tactic(auto, unfolding(crate::specs::Lookup::compressed_row, crate::specs::Lookup::row_at))]
fn compressed_row_before(
    section: &[u8],
    header: UnwindInfoHeader,
    page: CompressedPage,
    at: usize,
    offset: u32,
) -> Option<RegularPageEntry>
    requires { page.at < 2 ^ 32 }
    ensures { result ≡ row_at offset (compressed_row section.now header page.first page.at page.header at) }
{
    if !lies(section, at, CompressedPageEntry::SIZE) {
        return None;
    }
    let row = CompressedPageEntry::read(section, at);
    let encoding = encoding_of(section, header, page, row.encoding_index)?;
    // A function at 2^32 or above is after every offset.
    let function_offset = page.first.checked_add(row.function_offset)?;
    if function_offset > offset {
        return None;
    }
    Some(RegularPageEntry {
        function_offset,
        encoding,
    })
}

#[tactic(auto, using(crate::proofs::Places::seeking))]
fn compressed_rows_before(
    section: &[u8],
    header: UnwindInfoHeader,
    page: CompressedPage,
    offset: u32,
) -> Option<RegularPageEntry>
    requires { page.at < 2 ^ 32 }
    ensures { result ≡ row_at offset (each_at (compressed_row section.now header page.first page.at page.header) 4
        (page.at + page.header.entry_offset) page.header.entry_count) }
{
    let first = page.at + usize::from(page.header.entry_offset);
    let mut best = None;
    for k in 0..usize::from(page.header.entry_count) {
        let row = compressed_row_before(section, header, page, first + 4 * k, offset);
        best = greater(best, row);
    }
    best
}

#[tactic(auto, unfolding(crate::specs::Lookup::compressed_rows, crate::specs::Lookup::row_at))]
fn compressed_page_before(
    section: &[u8],
    header: UnwindInfoHeader,
    first: u32,
    at: usize,
    offset: u32,
) -> Option<RegularPageEntry>
    requires { at < 2 ^ 32 }
    ensures { result ≡ row_at offset (compressed_rows section.now header first at) }
{
    if !lies(section, at, CompressedPageHeader::SIZE) {
        return None;
    }
    let page = CompressedPage {
        at,
        first,
        header: CompressedPageHeader::read(section, at),
    };
    compressed_rows_before(section, header, page, offset)
}

#[tactic(auto, unfolding(crate::specs::Lookup::page_rows, crate::specs::Lookup::row_at))]
fn page_before(
    section: &[u8],
    header: UnwindInfoHeader,
    entry: UnwindIndexEntry,
    offset: u32,
) -> Option<RegularPageEntry>
    ensures { result ≡ row_at offset (page_rows section.now header entry) }
{
    let at = entry.page_offset as usize;
    match read_u32(section, at)? {
        UNWIND_SECOND_LEVEL_REGULAR => regular_page_before(section, at, offset),
        UNWIND_SECOND_LEVEL_COMPRESSED => {
            compressed_page_before(section, header, entry.function_offset, at, offset)
        }
        _ => None,
    }
}

// The last row with the greatest function that isn't after the offset, of the rows of all pages.
#[tactic(auto, using(crate::proofs::Places::seeking), unfolding(crate::specs::Lookup::all_rows))]
fn row_before(section: &[u8], header: UnwindInfoHeader, offset: u32) -> Option<RegularPageEntry>
    requires some { 0 < header.index_count }
    requires whole { header.index_offset + 12 * header.index_count ≤ length section.now }
    ensures { result ≡ row_at offset (all_rows section.now header) }
{
    let first = header.index_offset as usize;
    let mut best = None;
    for k in 0..header.index_count as usize - 1 {
        let entry = UnwindIndexEntry::read(section, first + 12 * k);
        best = greater(best, page_before(section, header, entry, offset));
    }
    best
}

// The data of a function by the row on it that lies at a place.
#[tactic(auto, unfolding(crate::specs::Lookup::lsda_row))]
fn lsda_at(section: &[u8], at: usize, function: u32) -> Option<u32>
    requires { at + 8 ≤ length section.now }
    ensures { result ≡ lsda_found (lsda_row section.now at) function }
{
    let row = UnwindLsdaEntry::read(section, at);
    if row.function_offset != function {
        return None;
    }
    Some(row.lsda_offset)
}

// The data of a function by the first of so many rows on it. Behind one that doesn't lie in the section none does.
#[tactic(auto, using(crate::proofs::Places::passing))]
fn lsda_among(section: &[u8], first: u32, count: u32, function: u32) -> Option<u32>
    ensures { result ≡ lsda_found (each_at (lsda_row section.now) 8 first count) function }
{
    for k in 0..count as usize {
        let at = first as usize + UnwindLsdaEntry::SIZE * k;
        if !lies(section, at, UnwindLsdaEntry::SIZE) {
            return None;
        }
        if let Some(lsda) = lsda_at(section, at, function) {
            return Some(lsda);
        }
    }
    None
}

#[tactic(auto, unfolding(crate::specs::Lookup::unwind_in, crate::specs::Lookup::all_lsda_rows))]
fn find_in(section: &[u8], header: UnwindInfoHeader, offset: u32) -> Option<UnwindHit>
    ensures { result ≡ unwind_in section.now header offset }
{
    let first = header.index_offset as usize;
    let count = header.index_count as usize;
    if count == 0 || !lies(section, first, UnwindIndexEntry::SIZE * count) {
        return None;
    }
    let last = UnwindIndexEntry::read(section, first + UnwindIndexEntry::SIZE * (count - 1));
    if last.function_offset <= offset {
        return None;
    }
    let row = row_before(section, header, offset)?;
    let first = UnwindIndexEntry::read(section, first);
    let lsdas = last.lsda_offset.saturating_sub(first.lsda_offset) / 8;
    Some(UnwindHit {
        function: row.function_offset,
        encoding: row.encoding,
        lsda: lsda_among(section, first.lsda_offset, lsdas, row.function_offset).unwrap_or(0),
    })
}

/// What a section of compact unwind says of a place, given by its image offset, whatever the section's bytes are
/// (`compact_unwind_encoding.h`): the row with the greatest function that isn't after the place, and the last of
/// such rows, of those that lie whole in the section. `None` exactly where there is no such row, or the place isn't
/// below the end that the last entry of the index gives, or that entry doesn't lie in the section. It takes no
/// memory, and goes once through the rows, which needn't be sorted.
#[tactic(auto, unfolding(crate::specs::Lookup::unwind))]
pub fn find_pc(section: &[u8], offset: u32) -> Option<UnwindHit>
    ensures { result ≡ unwind section.now offset }
{
    if !lies(section, 0, UnwindInfoHeader::SIZE) {
        return None;
    }
    find_in(section, UnwindInfoHeader::read(section, 0), offset)
}
