ghost use Rattle.std.specs.Prelude.{◌≡◌, ◌≤◌, ◌<◌, ◌++◌, length, OnOk};
ghost use Rattle.std.specs.List.{flat_map};
ghost use Rattle.image_format.specs.Unwind.{regular_page_entry_bytes, compressed_page_entry_bytes};
ghost use Rattle.mo_bytes.specs.Number.{number_bytes};
ghost use Rattle.unwind_out.specs.Pages.{IsCompressible, compressed_entry, encodings, regular_page, compressed_page, page_bytes};
ghost use Rattle.unwind_out.specs.Held.{AreFirst, AreNear, AreThere, IsHeld};

use crate::cut::{Page, REGULAR_ROWS, first_function};
use crate::numbers::{Guesses, guess_all, place_of};
use image_format::compact_unwind::{UNWIND_SECOND_LEVEL_COMPRESSED, UNWIND_SECOND_LEVEL_REGULAR};
use image_format::{
    CompressedPageEntry, CompressedPageHeader, RegularPageEntry, RegularPageHeader,
};
use mo_types::OutOfMemory;

/// Appends numbers of 4 bytes.
#[tactic(auto, using(crate::proofs::Loops::putting), unfolding(mo_bytes::specs::Number::number_bytes))]
pub fn put_numbers(out: &mut Vec<u8>, numbers: &[u32]) -> Result<(), OutOfMemory>
    ensures { OnOk result (out.new.items ≡ out.old.items ++ flat_map (number_bytes 4) numbers.now) }
{
    for number in numbers {
        out.extend_from_slice(&number.to_le_bytes())?;
    }
    Ok(())
}

#[tactic(auto, using(crate::proofs::Loops::putting))]
fn put_regular_rows(out: &mut Vec<u8>, rows: &[RegularPageEntry]) -> Result<(), OutOfMemory>
    ensures { OnOk result (out.new.items ≡ out.old.items ++ flat_map regular_page_entry_bytes rows.now) }
{
    for row in rows {
        row.write(out)?;
    }
    Ok(())
}

#[tactic(auto, using(crate::proofs::Spelling::appended), unfolding(crate::specs::Pages::regular_page))]
fn put_regular(out: &mut Vec<u8>, rows: &[RegularPageEntry]) -> Result<(), OutOfMemory>
    requires { length rows.now ≤ 511 }
    ensures { OnOk result (out.new.items ≡ out.old.items ++ regular_page rows.now) }
{
    let header = RegularPageHeader {
        kind: UNWIND_SECOND_LEVEL_REGULAR,
        entry_offset: RegularPageHeader::SIZE as u16,
        entry_count: rows.len() as u16,
    };
    header.write(out)?;
    put_regular_rows(out, rows)
}

#[tactic(auto, using(crate::proofs::Spelling::compressing))]
fn put_compressed_rows(
    out: &mut Vec<u8>,
    rows: &[RegularPageEntry],
    first: u32,
    numbers: &[u32],
    guesses: &Guesses,
) -> Result<(), OutOfMemory>
    requires once { AreFirst numbers.now }
    requires near { AreNear first rows.now }
    requires few { length numbers.now ≤ 256 }
    requires there { AreThere numbers.now rows.now }
    ensures { OnOk result (out.new.items ≡ out.old.items ++ flat_map (λ row. compressed_page_entry_bytes (compressed_entry first numbers.now row)) rows.now) }
{
    for row in rows {
        let entry = CompressedPageEntry {
            function_offset: row.function_offset.saturating_sub(first),
            encoding_index: place_of(numbers, guesses, row.encoding) as u8,
        };
        entry.write(out)?;
    }
    Ok(())
}

// Appends a compressed page of rows with their encodings.
#[tactic(auto, using(crate::proofs::Spelling::compressed))]
fn put_compressed(
    out: &mut Vec<u8>,
    rows: &[RegularPageEntry],
    numbers: &[u32],
    guesses: &mut Guesses,
) -> Result<(), OutOfMemory>
    requires some { 0 < length rows.now }
    requires fits { IsCompressible rows.now }
    requires encodings { numbers.now ≡ encodings rows.now }
    ensures { OnOk result (out.new.items ≡ out.old.items ++ compressed_page rows.now) }
{
    let rows_end = CompressedPageHeader::SIZE + CompressedPageEntry::SIZE * rows.len();
    let header = CompressedPageHeader {
        kind: UNWIND_SECOND_LEVEL_COMPRESSED,
        entry_offset: CompressedPageHeader::SIZE as u16,
        entry_count: rows.len() as u16,
        encodings_offset: rows_end as u16,
        encodings_count: numbers.len() as u16,
    };
    header.write(out)?;
    guess_all(numbers, guesses);
    put_compressed_rows(out, rows, first_function(rows), numbers, guesses)?;
    put_numbers(out, numbers)?;
    Ok(())
}

/// Appends a page.
#[tactic(auto, using(crate::proofs::Spelling::paging))]
pub fn put_page(out: &mut Vec<u8>, page: &Page, guesses: &mut Guesses) -> Result<(), OutOfMemory>
    requires held { IsHeld page.now }
    ensures { OnOk result (out.new.items ≡ out.old.items ++ page_bytes page.now.rows.now) }
{
    if page.rows.len() > REGULAR_ROWS {
        put_compressed(out, page.rows, page.encodings.as_slice(), guesses)
    } else {
        put_regular(out, page.rows)
    }
}
