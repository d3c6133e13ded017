//! Where pointers lead.
ghost use Rattle.std.specs.Prelude.{◌≡◌, ◌<◌, ◌^◌, length, take};
ghost use Rattle.std.specs.List.{find};
ghost use Rattle.std.specs.Option.{option_copied};
ghost use Rattle.fixup_chain.specs.Faults as spec;
ghost use Rattle.fixup_chain.specs.inner.Held as inner;
ghost use Rattle.sect_place.specs.Addresses.{AreOnce, address_in};

use crate::chains::Fixup;
use crate::goals::is_bound;
use crate::words::in_rebase;
use mo_types::{AtomKey, Goal};
use sect_place::{Layout, Segment, address};

fn text_of(segments: &[Segment]) -> Option<&Segment>
    ensures { option_copied result ≡ find spec.is_text segments.now }
{
    segments.iter().find(|segment| is_text(segment))
}

/// The address that an image's offsets count from: where `__TEXT` begins.
#[tactic(auto, unfolding(crate::specs::Faults::base_of))]
pub(crate) fn base_of(segments: &[Segment]) -> u64
    ensures { result ≡ spec.base_of segments.now }
{
    match text_of(segments) {
        Some(segment) => segment.address,
        None => 0,
    }
}

pub(crate) fn is_text(segment: &Segment) -> bool
    ensures { result ≡ spec.is_text segment.now }
{
    segment.name.as_slice() == b"__TEXT".as_slice()
}

fn address_of(layout: &Layout, atom: AtomKey) -> Option<u64>
    requires { AreOnce layout.now.placed }
    ensures { result ≡ address_in layout.now.placed atom }
{
    address(layout, atom)
}

#[tactic(auto, unfolding(crate::specs::Faults::goal_address))]
fn goal_address(layout: &Layout, base: u64, goal: &Goal) -> u128
    requires once { AreOnce layout.now.placed }
    requires base { base ≡ spec.base_of layout.now.segments }
    ensures value { result ≡ spec.goal_address layout.now goal.now }
    ensures small { result < 2 ^ 65 }
{
    match goal {
        Goal::Def(atom, offset) => {
            u128::from(address_of(layout, *atom).unwrap_or(0)) + u128::from(*offset)
        }
        Goal::WeakSelf(_, _, _)
        | Goal::Header
        | Goal::Import { .. }
        | Goal::Flat(_)
        | Goal::Nobody => u128::from(base),
    }
}

/// The offset of what a pointer leads to that is rebased, in an image that begins at `base`.
#[tactic(auto, unfolding(crate::specs::Faults::target_of))]
pub(crate) fn target_of(layout: &Layout, base: u64, fixup: &Fixup) -> i128
    requires once { AreOnce layout.now.placed }
    requires base { base ≡ spec.base_of layout.now.segments }
    ensures { result ≡ spec.target_of layout.now fixup.now }
{
    let address = goal_address(layout, base, &fixup.goal) as i128;
    address + i128::from(fixup.addend) - i128::from(base)
}

/// What is held in place of an offset that no word has room for.
pub(crate) const FAR: usize = usize::MAX;

/// The offset of what a pointer leads to that is rebased, in an image that begins at `base`, or `FAR`.
#[tactic(auto, unfolding(crate::specs::inner::Held::offset_by))]
#[inline(always)]
pub(crate) fn offset_of(layout: &Layout, base: u64, fixup: &Fixup) -> usize
    requires once { AreOnce layout.now.placed }
    requires base { base ≡ spec.base_of layout.now.segments }
    ensures { result ≡ inner.offset_by (spec.target_of layout.now fixup.now) }
{
    match in_rebase(target_of(layout, base, fixup)) {
        Some(offset) => offset as usize,
        None => FAR,
    }
}

// Pointers whose atoms are looked up in one go: so few that they stay in the processor's nearest memory.
const GO: usize = 128;

// The offset, unless the pointer is bound.
#[inline(always)]
fn offset_if_any(layout: &Layout, base: u64, fixup: &Fixup) -> usize
    requires once { AreOnce layout.now.placed }
    requires base { base ≡ spec.base_of layout.now.segments }
    ensures { inner.HasOffset layout.now fixup.now result }
{
    if is_bound(&fixup.goal) {
        0
    } else {
        offset_of(layout, base, fixup)
    }
}

// Finds the offsets of pointers that aren't bound, from one on, and answers the first one behind those. The loop does
// nothing else, so that a processor waits for many atoms at once.
fn look_up(held: &mut [usize], layout: &Layout, base: u64, fixups: &[Fixup], from: usize) -> usize
    requires once { AreOnce layout.now.placed }
    requires base { base ≡ spec.base_of layout.now.segments }
    requires long { length held.old ≡ length fixups.now }
    requires within { from < length fixups.now }
    ensures long { length held.new ≡ length held.old }
    ensures before { take from held.new ≡ take from held.old }
    ensures ready { inner.AreReady layout.now fixups.now held.new from result }
    ensures some { from < result }
{
    let end = fixups.len().min(from.saturating_add(GO));
    for at in from..end {
        held[at] = offset_if_any(layout, base, &fixups[at]);
    }
    end
}

/// Sees to it that the offset of a pointer that isn't bound is held, where those up to another one are. Answers up to
/// which one they are then.
pub(crate) fn ready_at(
    held: &mut [usize],
    layout: &Layout,
    base: u64,
    fixups: &[Fixup],
    at: usize,
    ready: usize,
) -> usize
    requires once { AreOnce layout.now.placed }
    requires base { base ≡ spec.base_of layout.now.segments }
    requires long { length held.old ≡ length fixups.now }
    requires within { at < length fixups.now }
    requires ready { inner.AreReady layout.now fixups.now held.old at ready }
    ensures long { length held.new ≡ length held.old }
    ensures before { take at held.new ≡ take at held.old }
    ensures ready { inner.AreReady layout.now fixups.now held.new at result }
    ensures some { at < result }
{
    if at < ready {
        ready
    } else {
        look_up(held, layout, base, fixups, at)
    }
}
