//! Which pointers can't be on a chain.
ghost use Rattle.std.specs.Prelude.{◌≡◌, ◌+◌, ◌-◌, ◌%◌, ◌<◌, ◌==◌, ◌&&◌, ◌||◌, false, length, IsTrue, nat_lt, not, is_none, slice_index_or, MatchOption};
ghost use Rattle.std.specs.List.{list_any};
ghost use Rattle.fixup_chain.specs.Faults as spec;
ghost use Rattle.fixup_chain.specs.Places as places;
ghost use Rattle.fixup_chain.specs.declared.chains.Fixup.{Fixup};
ghost use Rattle.fixup_chain.specs.Encoded.{AreApart};
ghost use Rattle.fixup_chain.specs.inner.Held.{HasOffset};
ghost use Rattle.fixup_chain.specs.inner.Near.{IsThere};
ghost use Rattle.fixup_chain.specs.inner.Open.{AreOpen, may_close};
ghost use Rattle.fixup_chain.specs.inner.Turn.{AreSound, IsFirst};
ghost use Rattle.sect_place.specs.Addresses.{AreOnce};
ghost use Rattle.sect_place.specs.declared.layout.Layout.{Layout as LayoutValue};

use crate::chains::{ChainFault, Fixup};
use crate::goals::is_bound;
use crate::places::PAGE;
use crate::targets::{FAR, is_text, offset_of, target_of};
use mo_types::RangeKind;
use sect_place::{Layout, Segment};
use std::cmp::Ordering;

// The pages of a segment that may have pointers: page_count has 16 bits.
const PAGES: u64 = 0xffff;

// Whether a pointer is rebased to where no word has room for, by what is held for it.
fn is_far(fixup: &Fixup, held: usize) -> bool
    ensures { (layout : LayoutValue) → HasOffset layout fixup.now held → result ≡ spec.is_far layout fixup.now }
{
    !is_bound(&fixup.goal) && held == FAR
}

// Whether an address is one of a segment's at which no pointer may be.
fn is_closed(segment: &Segment, address: u64) -> bool
    ensures { result ≡ spec.is_closed address segment.now }
{
    let distance = address.saturating_sub(segment.address);
    let inside = segment.address <= address && distance < segment.vmsize;
    inside && (is_text(segment) || distance / PAGE >= PAGES)
}

fn is_in_closed(segments: &[Segment], address: u64) -> bool
    ensures { result ≡ list_any (spec.is_closed address) segments.now }
{
    segments.iter().any(|segment| is_closed(segment, address))
}

// Whether no word has room at an address: at the distance of 4 bytes that a word tells, on the page.
fn is_unfit(address: u64) -> bool
    ensures { result ≡ (not (address % 4 == 0) || nat_lt (places.PAGE - 8) (address % places.PAGE)) }
{
    address % 4 != 0 || address % PAGE > PAGE - 8
}

// Whether some address from one to another may be one of a segment's at which no pointer may be.
fn may_close(segment: &Segment, first: u64, last: u64) -> bool
    ensures { result ≡ may_close first last segment.now }
{
    let end = u128::from(segment.address) + u128::from(segment.vmsize);
    let meets = u128::from(first) < end && segment.address <= last;
    meets && (is_text(segment) || last.saturating_sub(segment.address) / PAGE >= PAGES)
}

// Whether some segment may have such an address.
fn may_any_close(segments: &[Segment], first: u64, last: u64) -> bool
    ensures { result ≡ list_any (may_close first last) segments.now }
{
    segments
        .iter()
        .any(|segment| may_close(segment, first, last))
}

// The address of the pointer at an index.
fn place_of(fixups: &[Fixup], at: usize) -> u64
    requires { at < length fixups.now }
    ensures { IsThere fixups.now at result }
{
    fixups[at].address
}

// Whether the segments are open to all pointers up to that at an index, by a test that may miss that they are.
fn are_open_to(segments: &[Segment], fixups: &[Fixup], last: usize) -> bool
    requires apart { AreApart fixups.now }
    requires last { last + 1 ≡ length fixups.now }
    ensures { IsTrue result → AreOpen segments.now fixups.now }
{
    let begin = place_of(fixups, 0);
    let end = place_of(fixups, last);
    !may_any_close(segments, begin, end)
}

/// Whether the segments are open to all pointers, by a test that may miss that they are.
#[tactic(auto, using(crate::proofs::OpenLemmas::opening))]
pub(crate) fn are_open(segments: &[Segment], fixups: &[Fixup]) -> bool
    requires { AreApart fixups.now }
    ensures { IsTrue result → AreOpen segments.now fixups.now }
{
    match fixups.len() {
        0 => true,
        count => are_open_to(segments, fixups, count - 1),
    }
}

// `free` tells that the segments are open to a pointer at the address.
#[tactic(auto, unfolding(crate::specs::Faults::is_misplaced))]
fn is_misplaced(segments: &[Segment], free: bool, address: u64) -> bool
    requires { IsTrue free → list_any (spec.is_closed address) segments.now ≡ false }
    ensures { result ≡ spec.is_misplaced segments.now address }
{
    (!free && is_in_closed(segments, address)) || is_unfit(address)
}

/// Why a pointer can't be on a chain, of an image that begins at `base` and whose segments may be known to be open to it,
/// by what is held for it.
#[tactic(auto, unfolding(crate::specs::Faults::fault_of))]
pub(crate) fn fault_of(
    layout: &Layout,
    base: u64,
    free: bool,
    fixup: &Fixup,
    held: usize,
) -> Option<ChainFault>
    requires once { AreOnce layout.now.placed }
    requires base { base ≡ spec.base_of layout.now.segments }
    requires free { IsTrue free → list_any (spec.is_closed fixup.now.address) layout.now.segments ≡ false }
    requires offset { HasOffset layout.now fixup.now held }
    ensures { result ≡ spec.fault_of layout.now fixup.now }
{
    let (kind, value) = if is_far(fixup, held) {
        (RangeKind::RebaseTarget, target_of(layout, base, fixup))
    } else if is_misplaced(layout.segments.as_slice(), free, fixup.address) {
        let offset = i128::from(fixup.address) - i128::from(base);
        (RangeKind::FixupPlace, offset)
    } else {
        return None;
    };
    Some(ChainFault::Range {
        atom: fixup.atom,
        place: fixup.place,
        kind,
        value,
    })
}

// Which of two pointers is told of first where both have a fault.
#[tactic(auto, unfolding(crate::specs::Faults::compare_turns))]
fn compare_turns(a: &Fixup, b: &Fixup) -> Ordering
    ensures { result ≡ spec.compare_turns a.now b.now }
{
    match a.atom.cmp(&b.atom) {
        Ordering::Equal => match a.place.cmp(&b.place) {
            Ordering::Equal => a.address.cmp(&b.address),
            unequal => unequal,
        },
        unequal => unequal,
    }
}

/// The index of the first pointer with a fault among those up to one, by that among those before it, and by what is held
/// for this one.
#[tactic(auto, using(crate::proofs::TurnLemmas::turning))]
pub(crate) fn first_with(
    layout: &Layout,
    base: u64,
    free: bool,
    fixups: &[Fixup],
    first: Option<usize>,
    at: usize,
    held: usize,
) -> Option<usize>
    requires once { AreOnce layout.now.placed }
    requires base { base ≡ spec.base_of layout.now.segments }
    requires free { IsTrue free → AreOpen layout.now.segments fixups.now }
    requires within { at < length fixups.now }
    requires offset { (d : Fixup) → HasOffset layout.now (slice_index_or fixups.now at d) held }
    requires first { IsFirst layout.now fixups.now at first }
    ensures { IsFirst layout.now fixups.now (at + 1) result }
{
    let fixup = &fixups[at];
    if fault_of(layout, base, free, fixup, held).is_none() {
        return first;
    }
    match first {
        Some(other) => match compare_turns(&fixups[other], fixup) {
            Ordering::Less | Ordering::Equal => Some(other),
            Ordering::Greater => Some(at),
        },
        None => Some(at),
    }
}

/// The fault of the first pointer that has one, by its index.
#[tactic(auto, using(crate::proofs::TurnLemmas::ending))]
pub(crate) fn first_fault(
    layout: &Layout,
    base: u64,
    fixups: &[Fixup],
    first: Option<usize>,
) -> Option<ChainFault>
    requires once { AreOnce layout.now.placed }
    requires base { base ≡ spec.base_of layout.now.segments }
    requires first { IsFirst layout.now fixups.now (length fixups.now) first }
    ensures { MatchOption result (AreSound layout.now fixups.now (length fixups.now)) (spec.IsFirstFault layout.now fixups.now) }
{
    let fixup = &fixups[first?];
    let held = offset_of(layout, base, fixup);
    fault_of(layout, base, false, fixup, held)
}
