ghost use Rattle.std.specs.Prelude.{◌≡◌, ◌≤◌, ◌<◌, ◌^◌, length, All, OnOk, IfOk, IfErr};
ghost use Rattle.unwind_out.specs.Table.{AreApart, personalities};
ghost use Rattle.unwind_out.specs.Pages.{page_bytes, IsSizeOf};
ghost use Rattle.unwind_out.specs.Held.{held, page_sizes, section_size as section_size_of, IsHeld};

use crate::cut::{Page, REGULAR_ROWS, pages};
use crate::row::{UnwindLimit, UnwindRow, UnwindRows};
use crate::table::{lsdas, slots, table};
use image_format::{
    CompressedPageEntry, CompressedPageHeader, RegularPageEntry, RegularPageHeader,
    UnwindIndexEntry, UnwindInfoHeader, UnwindLsdaEntry,
};
use std::alloc::Global;

/// How many bytes a page has.
#[tactic(auto, using(crate::proofs::Spelling::paging))]
pub fn page_size(page: &Page) -> u64
    requires { IsHeld page.now }
    ensures exact { result ≡ length (page_bytes page.now.rows.now) }
    ensures small { result < 8192 }
{
    let size = if page.rows.len() > REGULAR_ROWS {
        let places = page.rows.len() + page.encodings.len();
        CompressedPageHeader::SIZE + CompressedPageEntry::SIZE * places
    } else {
        RegularPageHeader::SIZE + RegularPageEntry::SIZE * page.rows.len()
    };
    size as u64
}

#[tactic(auto, using(crate::proofs::Sizes::adding))]
fn pages_size(pages: &[Page]) -> u64
    requires held { All IsHeld pages.now }
    requires small { page_sizes (held pages.now) < 2 ^ 63 }
    ensures { result ≡ page_sizes (held pages.now) }
{
    let mut size = 0;
    for page in pages {
        size += page_size(page);
    }
    size
}

/// How many bytes the section of pages has.
pub fn section_size(slots: &[u32], lsdas: &[UnwindLsdaEntry], pages: &[Page]) -> u64
    requires held { All IsHeld pages.now }
    requires small { section_size_of (length slots.now) (length lsdas.now) (held pages.now) < 2 ^ 63 }
    ensures { result ≡ section_size_of (length slots.now) (length lsdas.now) (held pages.now) }
{
    UnwindInfoHeader::SIZE as u64
        + 4 * slots.len() as u64
        + UnwindIndexEntry::SIZE as u64 * (pages.len() as u64 + 1)
        + UnwindLsdaEntry::SIZE as u64 * lsdas.len() as u64
        + pages_size(pages)
}

#[tactic(auto, using(crate::proofs::Sizes::size_small))]
fn size(alloc: Global, rows: &[UnwindRow]) -> Result<u64, UnwindLimit>
    requires { AreApart rows.now }
    ensures exact { IfOk result (IsSizeOf rows.now) }
    ensures few { OnOk result (length (personalities rows.now) ≤ 3) }
    ensures many { IfErr result (λ limit. limit ≡ UnwindLimit.Personalities → 4 ≤ length (personalities rows.now)) }
{
    let slots = slots(alloc, rows)?;
    let slots = slots.as_slice();
    let table = table(alloc, slots, rows)?;
    let pages = pages(alloc, table.as_slice())?;
    let lsdas = lsdas(alloc, rows)?;
    Ok(section_size(slots, lsdas.as_slice(), pages.as_slice()))
}

/// How many bytes `write_unwind` writes for some functions. It takes memory for the section's rows and pages,
/// and none for its bytes.
pub fn unwind_size(alloc: Global, entries: &UnwindRows) -> Result<u64, UnwindLimit>
    requires apart { AreApart entries.now }
    ensures exact { IfOk result (IsSizeOf entries.now) }
    ensures few { OnOk result (length (personalities entries.now) ≤ 3) }
    ensures many { IfErr result (λ limit. limit ≡ UnwindLimit.Personalities → 4 ≤ length (personalities entries.now)) }
{
    size(alloc, entries.as_slice())
}
