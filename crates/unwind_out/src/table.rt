ghost use Rattle.std.specs.Prelude.{◌≡◌, ◌≤◌, ◌<◌, ◌++◌, ◌&&◌, length, OnOk, IfOk, IfErr, IfSome, nat_lt, nat_le, ◌==◌, ◌∷◌, position, slice_index_or};
ghost use Rattle.std.specs.List.{AllByRecursion, position_or_len};
ghost use Rattle.unwind_out.specs.Law.{AreFields};
ghost use Rattle.unwind_out.specs.Table.{personalities, with_slot, with_personality, personality_number, output_encoding};
ghost use Rattle.unwind_out.specs.Table.{gap, row_of, rows_of, end_of, lsda_of, lsdas_of};

use crate::row::{UnwindLimit, UnwindRow};
use image_format::compact_unwind::{UNWIND_HAS_LSDA, UNWIND_PERSONALITY_MASK};
use image_format::{RegularPageEntry, UnwindLsdaEntry};
use mo_types::OutOfMemory;
use std::alloc::Global;

/// An encoding has two bits for the number of its personality, from 1.
const MOST_PERSONALITIES: usize = 3;

fn place_of(slots: &[u32], slot: u32) -> Option<usize>
    ensures exact { result ≡ position (λ other. other == slot) slots.now }
    ensures within { IfSome result (λ place. place < length slots.now) }
{
    slots.iter().position(|other| *other == slot)
}

fn first_from(slots: &[u32], slot: u32) -> Option<usize>
    ensures { result ≡ position (λ other. nat_le slot other) slots.now }
{
    slots.iter().position(|other| slot <= *other)
}

// The place of the first slot that isn't below another, or the count of the slots.
#[tactic(auto, using(crate::proofs::Slots::placing))]
fn place_from(slots: &[u32], slot: u32) -> usize
    ensures exact { result ≡ position_or_len (λ other. nat_le slot other) slots.now }
    ensures within { result ≤ length slots.now }
{
    first_from(slots, slot).unwrap_or(slots.len())
}

// Whether a slot stands at a place.
fn is_at(slots: &[u32], place: usize, slot: u32) -> bool
    ensures { result ≡ (nat_lt place (length slots.now) && (slice_index_or slots.now place 0 == slot)) }
{
    place < slots.len() && slots[place] == slot
}

// Puts a slot to its place among slots that rise, where it isn't there yet.
fn put_slot(slots: &mut Vec<u32>, slot: u32) -> Result<(), OutOfMemory>
    ensures { OnOk result (slots.new.items ≡ with_slot slot slots.old.items) }
{
    let place = place_from(slots.as_slice(), slot);
    if !is_at(slots.as_slice(), place, slot) {
        slots.insert(place, slot)?;
    }
    Ok(())
}

fn put_personality(slots: &mut Vec<u32>, row: UnwindRow) -> Result<(), OutOfMemory>
    ensures { OnOk result (slots.new.items ≡ with_personality row slots.old.items) }
{
    if row.personality != 0 {
        put_slot(slots, row.personality)?;
    }
    Ok(())
}

/// The slots of the personalities of some functions, by rising offset.
#[tactic(auto, using(crate::proofs::Loops::gathering))]
pub fn slots(alloc: Global, rows: &[UnwindRow]) -> Result<Vec<u32>, UnwindLimit>
    ensures ok { IfOk result (λ slots. slots.items ≡ personalities rows.now) }
    ensures few { IfOk result (λ slots. length slots.items ≤ 3) }
    ensures many { IfErr result (λ limit. limit ≡ UnwindLimit.Personalities → 4 ≤ length (personalities rows.now)) }
{
    let mut slots = Vec::new(alloc);
    for row in rows {
        put_personality(&mut slots, *row)?;
        if slots.len() > MOST_PERSONALITIES {
            return Err(UnwindLimit::Personalities);
        }
    }
    Ok(slots)
}

// The number of a personality, from 1, or 0 for none.
#[tactic(auto, unfolding(crate::specs::Table::personality_number))]
fn number_of(slots: &[u32], slot: u32) -> u32
    requires { length slots.now ≤ 3 }
    ensures exact { result ≡ personality_number slots.now slot }
    ensures few { result ≤ 3 }
{
    match place_of(slots, slot) {
        Some(place) => place as u32 + 1,
        None => 0,
    }
}

/// The encoding of a function's row, with the number of its personality.
#[tactic(auto, unfolding(crate::specs::Table::output_encoding))]
fn encoding_of(slots: &[u32], row: UnwindRow) -> u32
    requires { length slots.now ≤ 3 }
    ensures { result ≡ output_encoding slots.now row }
{
    let own = row.encoding & !(UNWIND_PERSONALITY_MASK | UNWIND_HAS_LSDA);
    let numbered = own + 0x1000_0000 * number_of(slots, row.personality);
    if row.lsda == 0 {
        numbered
    } else {
        numbered + UNWIND_HAS_LSDA
    }
}

// Closes a range where the next function begins later.
fn close(table: &mut Vec<RegularPageEntry>, end: u32, rest: &[UnwindRow]) -> Result<(), OutOfMemory>
    ensures { OnOk result (table.new.items ≡ table.old.items ++ gap end rest.now) }
{
    match rest {
        [next, ..] if end < next.function => table.push(RegularPageEntry {
            function_offset: end,
            encoding: 0,
        })?,
        _ => {}
    }
    Ok(())
}

fn put_row(
    table: &mut Vec<RegularPageEntry>,
    slots: &[u32],
    row: UnwindRow,
    rest: &[UnwindRow],
) -> Result<(), OutOfMemory>
    requires { length slots.now ≤ 3 }
    ensures rows { OnOk result (table.new.items ≡ table.old.items ++ (row_of slots.now row ∷ gap row.end rest.now)) }
    ensures fits { AreFields row }
{
    table.push(RegularPageEntry {
        function_offset: row.function,
        encoding: encoding_of(slots, row),
    })?;
    close(table, row.end, rest)
}

/// The rows of the section: one for each function, and one with encoding 0 where a gap begins.
#[tactic(auto, using(crate::proofs::Loops::tabling))]
pub fn table(
    alloc: Global,
    slots: &[u32],
    rows: &[UnwindRow],
) -> Result<Vec<RegularPageEntry>, OutOfMemory>
    requires { length slots.now ≤ 3 }
    ensures exact { IfOk result (λ table. table.items ≡ rows_of slots.now rows.now) }
    ensures fits { OnOk result (AllByRecursion AreFields rows.now) }
{
    let mut table = Vec::with_capacity(alloc, rows.len())?;
    for (at, row) in rows.iter().enumerate() {
        put_row(&mut table, slots, *row, &rows[at + 1..])?;
    }
    Ok(table)
}

fn put_lsda(lsdas: &mut Vec<UnwindLsdaEntry>, row: UnwindRow) -> Result<(), OutOfMemory>
    ensures { OnOk result (lsdas.new.items ≡ lsdas.old.items ++ lsda_of row) }
{
    if row.lsda != 0 {
        lsdas.push(UnwindLsdaEntry {
            function_offset: row.function,
            lsda_offset: row.lsda,
        })?;
    }
    Ok(())
}

/// The rows on language-specific data.
#[tactic(auto, using(crate::proofs::Loops::putting))]
pub fn lsdas(alloc: Global, rows: &[UnwindRow]) -> Result<Vec<UnwindLsdaEntry>, OutOfMemory>
    ensures { IfOk result (λ lsdas. lsdas.items ≡ lsdas_of rows.now) }
{
    let mut lsdas = Vec::new(alloc);
    for row in rows {
        put_lsda(&mut lsdas, *row)?;
    }
    Ok(lsdas)
}

/// Where the range of the last function ends.
pub fn end(rows: &[UnwindRow]) -> u32
    ensures { result ≡ end_of rows.now }
{
    match rows {
        [.., row] => row.end,
        [] => 0,
    }
}
