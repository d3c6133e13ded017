//! The first entry that leaves unwinding to `__eh_frame`.
ghost use Rattle.std.specs.Prelude.{◌≡◌, ◌∷◌, [], None, fold};
ghost use Rattle.std.specs.Ordering.{is_lt};
ghost use Rattle.unwind_link.specs.Dwarf as spec;
ghost use Rattle.unwind_link.specs.Dwarf.{IsFirst};
ghost use Rattle.unwind_link.specs.inner.Least as least;

use crate::kept::{KeptUnwind, KeptUnwinds};
use image_format::compact_unwind::{UNWIND_ARM64_MODE_DWARF, UNWIND_ARM64_MODE_MASK};

// Whether an entry's encoding names a description in `__eh_frame`.
fn is_dwarf(kept: &KeptUnwind) -> bool
    ensures { result ≡ spec.is_dwarf kept.now }
{
    kept.unwind.encoding & UNWIND_ARM64_MODE_MASK == UNWIND_ARM64_MODE_DWARF
}

// Whether an entry comes before another one: its atom, or in the same atom its place.
#[tactic(auto, unfolding(crate::specs::Dwarf::compare_kept))]
fn is_before(one: &KeptUnwind, other: &KeptUnwind) -> bool
    ensures { result ≡ is_lt (spec.compare_kept one.now other.now) }
{
    let (one, other) = (&one.unwind, &other.unwind);
    one.atom
        .cmp(&other.atom)
        .then(one.offset.cmp(&other.offset))
        .is_lt()
}

// The first of two.
fn lesser(first: Option<KeptUnwind>, next: KeptUnwind) -> Option<KeptUnwind>
    ensures { result ≡ least.lesser first next }
{
    match first {
        Some(first) if !is_before(&next, &first) => Some(first),
        _ => Some(next),
    }
}

// The first one, with another entry more.
fn with_entry(first: Option<KeptUnwind>, kept: &KeptUnwind) -> Option<KeptUnwind>
    ensures { result ≡ fold least.lesser first (spec.dwarfs (kept.now ∷ [])) }
{
    if is_dwarf(kept) {
        lesser(first, *kept)
    } else {
        first
    }
}

// The first of all.
#[tactic(auto, using(crate::proofs::LeastLemmas::walks))]
fn first_of(kept: &[KeptUnwind]) -> Option<KeptUnwind>
    ensures { result ≡ fold least.lesser None (spec.dwarfs kept.now) }
{
    let mut first = None;
    for one in kept {
        first = with_entry(first, one);
    }
    first
}

/// The first entry whose encoding leaves the unwinding to `__eh_frame`, by its atom's key, and then by its place in the atom
/// (`compact_unwind_encoding.h`: UNWIND_ARM64_MODE_DWARF). `None` exactly where there is no such entry. Takes no memory.
pub fn first_dwarf(kept: &KeptUnwinds) -> Option<KeptUnwind>
    ensures { IsFirst (spec.dwarfs kept.now) result }
{
    first_of(kept.as_slice())
}
