//! What is kept of the ranges of entries, and whether two of them overlap.

ghost use Rattle.std.specs.Prelude.{◌≡◌, ◌+◌, ◌^◌, ◌<◌, ◌++◌, ◌∷◌, [], ◌&&◌, not, List, map, IfOk, OnOk};
ghost use Rattle.std.specs.List.{flat_map};
ghost use Rattle.mo_types.specs.RelocationRules.{least};
ghost use Rattle.unwind_read.specs.CutObject.{IsCut};
ghost use Rattle.unwind_read.specs.Overlaps as overlaps;
ghost use Rattle.unwind_read.specs.Ranges as ranges;
ghost use Rattle.unwind_read.specs.Ranges.{AreRangesOf};
ghost use Rattle.unwind_read.specs.Unwinds as unwinds;
ghost use Rattle.unwind_read.specs.declared.spans.Span.{Span};

use crate::cut_object::CutObject;
use crate::overlaps::{Bound, are_apart, begin_of, end_of, is_before, overlap_fault};
use crate::spans::Span;
use mo_types::{OutOfMemory, Unwind};
use std::alloc::Global;

/// What is kept of the ranges of entries: the places of the entries, where the last range ends, and whether each begins
/// where the one before it ends, or after that.
#[derive(Debug, Drop)]
pub struct Ranges {
    pub places: Vec<u64>,
    pub end: Bound,
    pub rises: bool,
}

// Whether ranges rise, with one more.
fn still_rises(rises: bool, end: &Bound, span: &Span) -> bool
    ensures { result ≡ (rises && not (overlaps.is_before (overlaps.begin_of span.now) end.now)) }
{
    rises && !is_before(&begin_of(span), end)
}

impl Ranges {
    /// No ranges, with room for so many.
    #[tactic(auto, using(crate::proofs::RangeLemmas::nothing))]
    pub fn with_capacity(alloc: Global, count: usize) -> Result<Ranges, OutOfMemory>
        ensures { IfOk result (λ ranges. AreRangesOf ranges []) }
    {
        Ok(Ranges {
            places: Vec::with_capacity(alloc, count)?,
            end: Bound {
                section: 0,
                offset: 0,
            },
            rises: true,
        })
    }

    /// Puts a range behind the others.
    #[tactic(auto, using(crate::proofs::RangeLemmas::pushes))]
    pub fn push(&mut self, span: &Span) -> Result<(), OutOfMemory>
        ensures { (spans : List Span) → AreRangesOf self.old spans → OnOk result (AreRangesOf self.new (spans ++ span.now ∷ [])) }
    {
        self.places.push(span.place)?;
        self.rises = still_rises(self.rises, &self.end, span);
        self.end = end_of(span);
        Ok(())
    }
}

fn span_from(place: u64, unwind: &Unwind) -> Span
    requires { unwind.now.atom.offset + unwind.now.offset + unwind.now.length < 2 ^ 64 }
    ensures { result ≡ ranges.span_from place unwind.now }
{
    let from = unwind.atom.offset + unwind.offset;
    Span {
        section: unwind.atom.section,
        from,
        to: from + u64::from(unwind.length),
        place,
    }
}

// The ranges of the entries of an object.
fn spans_of(
    alloc: Global,
    cut: &CutObject,
    entries: &[Unwind],
    places: &[u64],
) -> Result<Vec<Span>, OutOfMemory>
    requires cut { IsCut cut.now }
    requires entries { entries.now ≡ flat_map (unwinds.section_unwinds cut.now.object.now cut.now.file) cut.now.object.now.sections }
    requires places { places.now ≡ map ranges.place_of (unwinds.spans_of cut.now.object.now) }
    ensures { IfOk result (λ spans. spans.items ≡ unwinds.spans_of cut.now.object.now) }
{
    let mut spans = Vec::with_capacity(alloc, entries.len())?;
    for (at, unwind) in entries.iter().enumerate() {
        spans.push(span_from(places[at], unwind))?;
    }
    Ok(spans)
}

/// The least place of an entry of an object whose range overlaps that of another one. Nothing is sorted where the ranges
/// rise all the way.
pub fn range_fault(
    alloc: Global,
    cut: &CutObject,
    entries: &[Unwind],
    ranges: &Ranges,
) -> Result<Option<u64>, OutOfMemory>
    requires cut { IsCut cut.now }
    requires entries { entries.now ≡ flat_map (unwinds.section_unwinds cut.now.object.now cut.now.file) cut.now.object.now.sections }
    requires ranges { AreRangesOf ranges.now (unwinds.spans_of cut.now.object.now) }
    ensures { IfOk result (λ fault. fault ≡ least (overlaps.overlap_faults (unwinds.spans_of cut.now.object.now))) }
{
    if ranges.rises {
        return Ok(None);
    }
    let places = ranges.places.as_slice();
    if are_apart(spans_of(alloc, cut, entries, places)?) {
        return Ok(None);
    }
    let spans = spans_of(alloc, cut, entries, places)?;
    overlap_fault(alloc, spans.as_slice())
}
