//! The table of contents of an archive (`mach-o/ranlib.h`).

ghost use Rattle.std.specs.Prelude.{◌≡◌, ◌+◌, ◌*◌, ◌/◌, ◌<◌, ◌≤◌, ◌^◌, true, length, drop, All, IfOk, IfSome};
ghost use Rattle.std.specs.Option.{option_map};
ghost use Rattle.mo_bytes.specs.Number as numbers;
ghost use Rattle.mo_ar.specs.Contents as contents;
ghost use Rattle.mo_ar.specs.inner.Tables.{IsTable};
ghost use Rattle.mo_ar.specs.inner.Tables.{GivesEntries};
ghost use Rattle.mo_ar.specs.inner.Index.{IsEntry};
ghost use Rattle.mo_ar.specs.inner.Index.{offer_of};
ghost use Rattle.mo_ar.specs.inner.Tables.{IsNumbered};

use crate::offers::Entry;
use crate::places::number_of;
use byteorder::{ByteOrder, LittleEndian};
use mo_strings::Strings;
use mo_types::{Bytes, ObjFault, OutOfMemory, Rule};
use std::alloc::Global;

const SYMDEF: &[u8] = b"__.SYMDEF";

const SYMDEF_SORTED: &[u8] = b"__.SYMDEF SORTED";

/// The fault of a table: its header is the first one of the archive.
pub const FAULT: ObjFault = ObjFault::Malformed {
    place: 8,
    rule: Rule::Contents,
};

/// Whether a member of this name is the table, where it is the first one.
pub fn is_contents(name: &[u8]) -> bool
    ensures { result ≡ contents.is_contents name.now }
{
    name == SYMDEF || name == SYMDEF_SORTED
}

#[tactic(auto, unfolding(mo_bytes::specs::Number::number))]
#[inline(always)]
fn number(table: &[u8], at: usize) -> u32
    requires { at + 4 ≤ length table.now }
    ensures { result ≡ numbers.number 4 table.now at }
{
    LittleEndian::read_u32(&table[at..])
}

/// Whether the pairs and the strings of a table lie within it, and the pairs are whole.
pub fn is_whole(table: &[u8]) -> bool
    ensures exact { result ≡ contents.is_whole table.now }
    ensures within { result ≡ true → IsTable table.now }
{
    if table.len() < 8 {
        return false;
    }
    let pairs = number(table, 0) as usize;
    if pairs % 8 != 0 || table.len() - 8 < pairs {
        return false;
    }
    let strings = number(table, 4 + pairs) as usize;
    strings <= table.len() - 8 - pairs
}

/// The strings of a table, as a part of the file.
#[tactic(auto, unfolding(crate::specs::Contents::strings_of))]
pub fn strings_part(table: &Bytes) -> Result<Bytes, OutOfMemory>
    requires { IsTable table.now }
    ensures value { IfOk result (λ strings. strings ≡ contents.strings_of table.now) }
    ensures few { IfOk result (λ strings. length strings < 2 ^ 32) }
{
    let pairs = number(table.as_slice(), 0) as usize;
    let size = number(table.as_slice(), 4 + pairs) as usize;
    table.part(8 + pairs, size)
}

#[tactic(auto, unfolding(crate::specs::Contents::offer_at, crate::specs::Contents::ran_strx, crate::specs::Contents::ran_off))]
#[inline(always)]
fn entry_at(
    table: &[u8],
    strings: &Strings,
    cells: &[u32],
    places: &[usize],
    i: usize,
) -> Option<Entry>
    requires table { IsTable table.now }
    requires strings { strings.now ≡ contents.strings_of table.now }
    requires few { length strings.now < 2 ^ 32 }
    requires index { i < contents.pair_count table.now }
    requires numbered { IsNumbered cells.now places.now }
    ensures value { option_map (offer_of strings.now) result ≡ contents.offer_at table.now places.now i }
    ensures within { IfSome result (IsEntry strings.now) }
{
    let at = number(table, 4 + 8 * i);
    let size = strings.size_at(at as usize)?;
    let member = number_of(cells, places, number(table, 8 + 8 * i) as usize)?;
    Some(Entry {
        at,
        size: size as u32,
        member,
    })
}

/// What the pairs of a table offer, by the places of the members' headers.
#[tactic(auto, using(crate::proofs::ContentsLemmas::reads))]
pub fn entries_of(
    alloc: Global,
    table: &[u8],
    strings: &Strings,
    cells: &[u32],
    places: &[usize],
) -> Result<Vec<Entry>, ObjFault>
    requires table { IsTable table.now }
    requires strings { strings.now ≡ contents.strings_of table.now }
    requires few { length strings.now < 2 ^ 32 }
    requires whole { contents.is_whole table.now ≡ true }
    requires numbered { IsNumbered cells.now places.now }
    ensures exact { GivesEntries (λ entries. entries.items) (contents.strings_of table.now) result (contents.offers_in table.now places.now) }
    ensures within { IfOk result (λ entries. All (IsEntry (contents.strings_of table.now)) entries.items) }
    ensures few { IfOk result (λ entries. length entries.items < 2 ^ 32) }
{
    let count = number(table, 0) as usize / 8;
    let mut entries = Vec::with_capacity(alloc, count)?;
    for i in 0..count {
        let Some(entry) = entry_at(table, strings, cells, places, i) else {
            return Err(FAULT);
        };
        entries.push_reserved(entry);
    }
    Ok(entries)
}
