ghost use Rattle.std.specs.Prelude.{◌≡◌, ◌+◌, ◌*◌, ◌≤◌, ◌<◌, ◌^◌, ◌++◌, [], ◌≢◌, nat_le, length, All, OnOk, IfOk, IfErr};
ghost use Rattle.std.specs.List.{AllByRecursion, flat_map, position_or_len};
ghost use Rattle.image_format.specs.Unwind.{unwind_index_entry_bytes, unwind_lsda_entry_bytes};
ghost use Rattle.unwind_out.specs.Table.{AreApart, personalities};
ghost use Rattle.unwind_out.specs.Pages.{field as field_of, lsda_place as lsda_place_of, info_header as info_header_of};
ghost use Rattle.unwind_out.specs.Pages.{index_of, page_bytes, section_bytes, IsSection};
ghost use Rattle.unwind_out.specs.Held.{AreRising, entry_of, held, section_size as section_size_of, IsHeld};
ghost use Rattle.unwind_out.specs.Law.{AreFields, FindsEach, FindsNoOther, NamesEach};

use crate::cut::{Page, first_function, pages};
use crate::numbers::GUESSES;
use crate::pages::{put_numbers, put_page};
use crate::row::{UnwindLimit, UnwindRow, UnwindRows};
use crate::size::{page_size, section_size};
use crate::table::{end, lsdas, slots, table};
use image_format::compact_unwind::UNWIND_SECTION_VERSION;
use image_format::{UnwindIndexEntry, UnwindInfoHeader, UnwindLsdaEntry};
use mo_types::{Bytes, OutOfMemory};
use std::alloc::Global;

// A number in a field of 4 bytes, which holds it modulo 2^32.
fn field(number: u64) -> u32
    ensures { result ≡ field_of number }
{
    (number % 0x1_0000_0000) as u32
}

// How many rows on language-specific data are of functions before another.
fn rows_before(lsdas: &[UnwindLsdaEntry], function: u32) -> usize
    requires { AreRising lsdas.now }
    ensures { result ≡ position_or_len (λ row. nat_le function row.function_offset) lsdas.now }
{
    lsdas.partition_point(|row| row.function_offset < function)
}

// The place of the first row on language-specific data whose function isn't before another, or the end of the rows.
fn lsda_place(lsda_at: u32, lsdas: &[UnwindLsdaEntry], function: u32) -> u32
    requires { AreRising lsdas.now }
    ensures { result ≡ field_of (lsda_place_of lsda_at lsdas.now function) }
{
    let before = u64::from(field(rows_before(lsdas, function) as u64));
    field(u64::from(lsda_at) + UnwindLsdaEntry::SIZE as u64 * before)
}

// Appends the entry of the index for a page at a place, and answers the place behind the page.
#[tactic(auto, using(crate::proofs::Spelling::entries))]
fn put_entry(
    out: &mut Vec<u8>,
    lsda_at: u32,
    lsdas: &[UnwindLsdaEntry],
    at: u32,
    page: &Page,
) -> Result<u32, OutOfMemory>
    requires rise { AreRising lsdas.now }
    requires held { IsHeld page.now }
    ensures entry { OnOk result (out.new.items ≡ out.old.items ++ unwind_index_entry_bytes (entry_of lsda_at lsdas.now at page.now.rows.now)) }
    ensures next { IfOk result (λ next. next ≡ field_of (at + length (page_bytes page.now.rows.now))) }
{
    let first = first_function(page.rows);
    let entry = UnwindIndexEntry {
        function_offset: first,
        page_offset: at,
        lsda_offset: lsda_place(lsda_at, lsdas, first),
    };
    entry.write(out)?;
    Ok(field(u64::from(at) + page_size(page)))
}

#[tactic(auto, using(crate::proofs::Spelling::indexing))]
fn put_index(
    out: &mut Vec<u8>,
    lsda_at: u32,
    lsdas: &[UnwindLsdaEntry],
    page_at: u32,
    pages: &[Page],
) -> Result<(), OutOfMemory>
    requires rise { AreRising lsdas.now }
    requires held { All IsHeld pages.now }
    ensures { OnOk result (out.new.items ≡ out.old.items ++ flat_map unwind_index_entry_bytes (index_of lsda_at lsdas.now page_at (held pages.now))) }
{
    let mut at = page_at;
    for page in pages {
        at = put_entry(out, lsda_at, lsdas, at, page)?;
    }
    Ok(())
}

#[tactic(auto, using(crate::proofs::Loops::putting))]
fn put_lsdas(out: &mut Vec<u8>, lsdas: &[UnwindLsdaEntry]) -> Result<(), OutOfMemory>
    ensures { OnOk result (out.new.items ≡ out.old.items ++ flat_map unwind_lsda_entry_bytes lsdas.now) }
{
    for row in lsdas {
        row.write(out)?;
    }
    Ok(())
}

#[tactic(auto, using(crate::proofs::Loops::putting))]
fn put_pages(out: &mut Vec<u8>, pages: &[Page]) -> Result<(), OutOfMemory>
    requires { All IsHeld pages.now }
    ensures { OnOk result (out.new.items ≡ out.old.items ++ flat_map (λ page. page_bytes page.rows.now) pages.now) }
{
    let mut guesses = [0; GUESSES];
    for page in pages {
        put_page(out, page, &mut guesses)?;
    }
    Ok(())
}

// The places of the rows on language-specific data and of the pages.
#[derive(Clone, Copy)]
struct PartPlaces {
    lsdas: u32,
    pages: u32,
}

fn places(slots: &[u32], lsdas: &[UnwindLsdaEntry], pages: &[Page]) -> PartPlaces
    requires { length slots.now ≤ 3 }
    ensures lsdas { result.lsdas ≡ field_of (28 + 4 * length slots.now + 12 * (length pages.now + 1)) }
    ensures pages { result.pages ≡ field_of (28 + 4 * length slots.now + 12 * (length pages.now + 1) + 8 * length lsdas.now) }
{
    let index_at = UnwindInfoHeader::SIZE as u64 + 4 * slots.len() as u64;
    let entries = u64::from(field(pages.len() as u64 + 1));
    let lsda_at = index_at + UnwindIndexEntry::SIZE as u64 * entries;
    let rows = u64::from(field(lsdas.len() as u64));
    PartPlaces {
        lsdas: field(lsda_at),
        pages: field(lsda_at + UnwindLsdaEntry::SIZE as u64 * rows),
    }
}

fn info_header(slots: &[u32], pages: &[Page]) -> UnwindInfoHeader
    requires { length slots.now ≤ 3 }
    ensures { result ≡ info_header_of (length slots.now) (length pages.now) }
{
    UnwindInfoHeader {
        version: UNWIND_SECTION_VERSION,
        common_encodings_offset: UnwindInfoHeader::SIZE as u32,
        common_encodings_count: 0,
        personalities_offset: UnwindInfoHeader::SIZE as u32,
        personalities_count: slots.len() as u32,
        index_offset: UnwindInfoHeader::SIZE as u32 + 4 * slots.len() as u32,
        index_count: field(pages.len() as u64 + 1),
    }
}

// The section of pages.
#[tactic(auto, using(crate::proofs::Spelling::section_is))]
fn spell(
    alloc: Global,
    slots: &[u32],
    lsdas: &[UnwindLsdaEntry],
    end: u32,
    pages: &[Page],
) -> Result<Vec<u8>, OutOfMemory>
    requires few { length slots.now ≤ 3 }
    requires rise { AreRising lsdas.now }
    requires held { All IsHeld pages.now }
    requires small { section_size_of (length slots.now) (length lsdas.now) (held pages.now) < 2 ^ 63 }
    ensures { IfOk result (λ out. out.items ≡ section_bytes slots.now lsdas.now end (held pages.now)) }
{
    let places = places(slots, lsdas, pages);
    let mut out = Vec::with_capacity(alloc, section_size(slots, lsdas, pages) as usize)?;
    info_header(slots, pages).write(&mut out)?;
    put_numbers(&mut out, slots)?;
    put_index(&mut out, places.lsdas, lsdas, places.pages, pages)?;
    let last = UnwindIndexEntry {
        function_offset: end,
        page_offset: 0,
        lsda_offset: places.pages,
    };
    last.write(&mut out)?;
    put_lsdas(&mut out, lsdas)?;
    put_pages(&mut out, pages)?;
    Ok(out)
}

#[tactic(auto, using(crate::proofs::Law::lsdas_rise, crate::proofs::Sizes::size_small))]
fn section(alloc: Global, rows: &[UnwindRow]) -> Result<Bytes, UnwindLimit>
    requires { AreApart rows.now }
    ensures exact { IfOk result (λ section. IsSection rows.now section) }
    ensures few { OnOk result (length (personalities rows.now) ≤ 3) }
    ensures fits { OnOk result (AllByRecursion AreFields rows.now) }
    ensures many { IfErr result (λ limit. limit ≡ UnwindLimit.Personalities → 4 ≤ length (personalities rows.now)) }
{
    let slots = slots(alloc, rows)?;
    let slots = slots.as_slice();
    let table = table(alloc, slots, rows)?;
    let pages = pages(alloc, table.as_slice())?;
    let lsdas = lsdas(alloc, rows)?;
    let out = spell(alloc, slots, lsdas.as_slice(), end(rows), pages.as_slice())?;
    Ok(Bytes::from_vec(out)?)
}

/// The section of compact unwind of some functions (`compact_unwind_encoding.h`). The numbers of fields are modulo
/// 2^32.
pub fn write_unwind(alloc: Global, entries: &UnwindRows) -> Result<Bytes, UnwindLimit>
    requires some { entries.now ≢ [] }
    requires apart { AreApart entries.now }
    ensures exact { IfOk result (λ section. IsSection entries.now section) }
    ensures few { OnOk result (length (personalities entries.now) ≤ 3) }
    // What is written is read again.
    ensures named { IfOk result (NamesEach entries.now) }
    // It is found again where the section has fewer than 2^32 bytes.
    ensures found { IfOk result (λ section. length section < 2 ^ 32 → FindsEach entries.now section) }
    ensures no_other { IfOk result (λ section. length section < 2 ^ 32 → FindsNoOther entries.now section) }
    ensures many { IfErr result (λ limit. limit ≡ UnwindLimit.Personalities → 4 ≤ length (personalities entries.now)) }
{
    let section = section(alloc, entries.as_slice())?;
    Ok(section)
}
