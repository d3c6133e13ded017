//! Entries whose ranges have an address in common.

ghost use Rattle.std.specs.Prelude.{◌≡◌, ◌<◌, true, not, None, Some, map, All, IfOk, length, slice_get};
ghost use Rattle.std.specs.List.{count_by};
ghost use Rattle.std.specs.List.Sorted.{IsPermutation};
ghost use Rattle.mo_types.specs.RelocationRules.{least};
ghost use Rattle.unwind_read.specs.Overlaps as overlaps;
ghost use Rattle.unwind_read.specs.Overlaps.{AreBounds, IsOrdered, IsRising, IsSpan};
ghost use Rattle.unwind_read.specs.declared.spans.Span.{Span};

use crate::least::lesser;
use crate::spans::Span;
use mo_types::OutOfMemory;
use std::alloc::Global;

/// A place of a section. Places are ordered by section, then by offset.
#[derive(Clone, Copy, Debug, PartialEq, Eq, PartialOrd, Ord)]
pub struct Bound {
    pub section: u16,
    pub offset: u64,
}

/// Where a range begins.
pub fn begin_of(span: &Span) -> Bound
    ensures { result ≡ overlaps.begin_of span.now }
{
    Bound {
        section: span.section,
        offset: span.from,
    }
}

/// Where a range ends.
pub fn end_of(span: &Span) -> Bound
    ensures { result ≡ overlaps.end_of span.now }
{
    Bound {
        section: span.section,
        offset: span.to,
    }
}

/// Whether a place is before another one.
pub fn is_before(a: &Bound, b: &Bound) -> bool
    ensures { result ≡ overlaps.is_before a.now b.now }
{
    a.section < b.section || a.section == b.section && a.offset < b.offset
}

// Whether each range begins where the one before it ends, or after it.
#[tactic(auto, using(crate::proofs::OverlapLemmas::rises))]
fn rise(spans: &[Span]) -> bool
    requires { All IsSpan spans.now }
    ensures { result ≡ true → None ≡ least (overlaps.overlap_faults spans.now) }
{
    for at in 1..spans.len() {
        if is_before(&begin_of(&spans[at]), &end_of(&spans[at - 1])) {
            return false;
        }
    }
    true
}

// The ranges, by where they begin.
fn by_begin(spans: Vec<Span>) -> Vec<Span>
    ensures { IsPermutation spans.items result.items }
{
    let mut sorted = spans;
    sorted.sort_unstable();
    sorted
}

fn in_order(bounds: Vec<Bound>) -> Vec<Bound>
    ensures { IsOrdered bounds.items result.items }
{
    let mut ordered = bounds;
    ordered.sort_unstable();
    ordered
}

fn begins_of(alloc: Global, spans: &[Span]) -> Result<Vec<Bound>, OutOfMemory>
    ensures { IfOk result (λ bounds. bounds.items ≡ map overlaps.begin_of spans.now) }
{
    let mut bounds = Vec::with_capacity(alloc, spans.len())?;
    for span in spans {
        bounds.push(begin_of(span))?;
    }
    Ok(bounds)
}

fn ends_of(alloc: Global, spans: &[Span]) -> Result<Vec<Bound>, OutOfMemory>
    ensures { IfOk result (λ bounds. bounds.items ≡ map overlaps.end_of spans.now) }
{
    let mut bounds = Vec::with_capacity(alloc, spans.len())?;
    for span in spans {
        bounds.push(end_of(span))?;
    }
    Ok(bounds)
}

// How many places are before one.
fn count_before(bounds: &[Bound], bound: &Bound) -> usize
    requires { IsRising bounds.now }
    ensures { result ≡ count_by (λ other. overlaps.is_before other bound.now) bounds.now }
{
    bounds.partition_point(|other| is_before(other, bound))
}

// How many places aren't after one.
fn count_up_to(bounds: &[Bound], bound: &Bound) -> usize
    requires { IsRising bounds.now }
    ensures { result ≡ count_by (λ other. not (overlaps.is_before bound.now other)) bounds.now }
{
    bounds.partition_point(|other| !is_before(bound, other))
}

// Whether a range overlaps another one: of those that begin before its end, itself among them, all overlap it but
// those that end at its start or before.
#[tactic(auto, using(crate::proofs::OverlapLemmas::overlaps))]
fn overlaps_another(spans: &[Span], begins: &[Bound], ends: &[Bound], at: usize) -> bool
    requires spans { All IsSpan spans.now }
    requires bounds { AreBounds spans.now begins.now ends.now }
    requires within { at < length spans.now }
    ensures { (span : Span) → slice_get spans.now at ≡ Some span → result ≡ overlaps.overlaps_another spans.now at span }
{
    let span = &spans[at];
    let begun = count_before(begins, &end_of(span));
    let ended = count_up_to(ends, &begin_of(span));
    begun.saturating_sub(ended) > 1
}

fn overlap_at(spans: &[Span], begins: &[Bound], ends: &[Bound], at: usize) -> Option<u64>
    requires spans { All IsSpan spans.now }
    requires bounds { AreBounds spans.now begins.now ends.now }
    requires within { at < length spans.now }
    ensures { result ≡ overlaps.overlap_at spans.now at }
{
    if overlaps_another(spans, begins, ends, at) {
        return Some(spans[at].place);
    }
    None
}

// The least place of an entry whose range overlaps another one.
#[tactic(auto, using(crate::proofs::OverlapLemmas::sweeps))]
fn least_overlap(spans: &[Span], begins: &[Bound], ends: &[Bound]) -> Option<u64>
    requires spans { All IsSpan spans.now }
    requires bounds { AreBounds spans.now begins.now ends.now }
    ensures { result ≡ least (overlaps.overlap_faults spans.now) }
{
    let mut fault = None;
    for at in 0..spans.len() {
        fault = lesser(fault, overlap_at(spans, begins, ends, at));
    }
    fault
}

/// Whether no two ranges overlap, where this is told: by their begins in order, each begins where the one before it ends,
/// or after that.
#[tactic(auto, using(crate::proofs::MovedLemmas::moves))]
pub fn are_apart(spans: Vec<Span>) -> bool
    requires { All IsSpan spans.items }
    ensures { result ≡ true → None ≡ least (overlaps.overlap_faults spans.items) }
{
    let sorted = by_begin(spans);
    rise(sorted.as_slice())
}

/// The least place of an entry whose range overlaps that of another one, in time n log n of n entries.
pub fn overlap_fault(alloc: Global, spans: &[Span]) -> Result<Option<u64>, OutOfMemory>
    requires { All IsSpan spans.now }
    ensures { IfOk result (λ fault. fault ≡ least (overlaps.overlap_faults spans.now)) }
{
    let begins = in_order(begins_of(alloc, spans)?);
    let ends = in_order(ends_of(alloc, spans)?);
    Ok(least_overlap(spans, begins.as_slice(), ends.as_slice()))
}
