//! What an entry says, where it is at fault by itself neither in its function nor in its personality or lsda.

ghost use Rattle.std.specs.Prelude.{◌≡◌, ◌-◌, is_err, min, None};
ghost use Rattle.std.specs.Result.{result_unwrap_or};
ghost use Rattle.std.specs.Option.{option_map};
ghost use Rattle.unwind_read.specs.CutObject.{IsCut};
ghost use Rattle.unwind_read.specs.Found as found;
ghost use Rattle.unwind_read.specs.Rules as rules;
ghost use Rattle.unwind_read.specs.Spots.{IsSpot};
ghost use Rattle.unwind_read.specs.Unwinds as unwinds;

use crate::cut_object::CutObject;
use crate::entry::CompactUnwindEntry;
use crate::fields::{AtFault, atom_of, function_of, lsda_of, offset_of, personality_of};
use crate::guide::Hints;
use crate::pointers::EntryRelocs;
use crate::spans::Span;
use crate::spots::Spot;
use mo_types::Unwind;

/// An entry that is kept: what it says, and the range for which it stands.
#[derive(Clone, Copy, Debug)]
pub struct Found {
    pub unwind: Unwind,
    pub span: Span,
}

// How many bytes of its function an entry of a length covers.
fn length_of(length: u32, function: &Spot) -> u32
    requires { IsSpot function.now }
    ensures { result ≡ min length (function.now.end - function.now.offset) }
{
    let room = function.end - function.offset;
    if u64::from(length) <= room {
        return length;
    }
    room as u32
}

fn span_of(place: u64, entry: &CompactUnwindEntry, function: &Spot) -> Span
    requires { IsSpot function.now }
    ensures { result ≡ unwinds.span_with place entry.now function.now }
{
    Span {
        place,
        section: function.section,
        from: function.offset,
        to: function.offset + u64::from(length_of(entry.length, function)),
    }
}

/// What the entry at a place of the object's bytes says; `None` where its range is empty.
#[tactic(auto, using(crate::proofs::EntryLemmas::entries))]
pub fn read_entry(
    cut: &CutObject,
    hints: &mut Hints,
    place: u64,
    entry: &CompactUnwindEntry,
    relocs: &EntryRelocs,
) -> Result<Option<Found>, AtFault>
    requires { IsCut cut.now }
    ensures fault { is_err result ≡ rules.fails_test cut.now.object.now entry.now relocs.now }
    ensures value { result_unwrap_or result None ≡ option_map (found.found_with cut.now.object.now cut.now.file place entry.now relocs.now)
        (unwinds.kept_function cut.now.object.now entry.now relocs.now) }
{
    let function = function_of(cut, hints, entry, relocs)?;
    let lsda = lsda_of(cut, hints, entry, relocs)?;
    let personality = personality_of(cut, hints, entry, relocs)?;
    let length = length_of(entry.length, &function);
    if length == 0 {
        return Ok(None);
    }
    let unwind = Unwind {
        atom: atom_of(cut.file, &function),
        offset: offset_of(&function),
        length,
        encoding: entry.encoding,
        personality,
        lsda,
    };
    Ok(Some(Found {
        unwind,
        span: span_of(place, entry, &function),
    }))
}
