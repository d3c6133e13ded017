//! The order of goals, by words of their names rather than bytes.
ghost use Rattle.std.specs.Prelude.{◌≡◌, ◌+◌, ◌<◌, ◌≤◌, ℕ, length, slice_index};
ghost use Rattle.std.specs.Cmp.Lexicographic.{slice_cmp};
ghost use Rattle.std.specs.Ordering.{nat_cmp};
ghost use Rattle.mo_bytes.specs.Number.{number};
ghost use Rattle.mo_types.specs.Goals.{compare_goals};

use byteorder::{ByteOrder, LittleEndian};
use mo_types::Goal;
use std::cmp::Ordering;

#[tactic(auto, unfolding(mo_bytes::specs::Number::number))]
fn word(bytes: &[u8], at: usize) -> u64
    requires { at + 8 ≤ length bytes.now }
    ensures { result ≡ number 8 bytes.now at }
{
    LittleEndian::read_u64(&bytes[at..])
}

// A number of bytes in which two names begin alike.
#[tactic(auto, using(crate::proofs::Fronts::fronts))]
pub(crate) fn same_front(a: &[u8], b: &[u8]) -> usize
    ensures first { result ≤ length a.now }
    ensures second { result ≤ length b.now }
    ensures same { (k : ℕ) → k < result → slice_index a.now k ≡ slice_index b.now k }
{
    let most = a.len().min(b.len());
    let mut at = 0;
    while most - at >= 8 {
        if word(a, at) != word(b, at) {
            return at;
        }
        at += 8;
    }
    at
}

// The order of names, byte by byte.
#[tactic(auto, using(crate::proofs::Fronts::fronts))]
fn compare_names(a: &[u8], b: &[u8]) -> Ordering
    ensures { result ≡ slice_cmp nat_cmp a.now b.now }
{
    let same = same_front(a, b);
    a[same..].cmp(&b[same..])
}

// The order of two goals.
#[tactic(auto, unfolding(mo_types::specs::Goals::compare_goals))]
pub(crate) fn compare(a: &Goal, b: &Goal) -> Ordering
    ensures { result ≡ compare_goals a.now b.now }
{
    match a.group().cmp(&b.group()) {
        Ordering::Equal => match compare_names(a.name(), b.name()) {
            Ordering::Equal => a.cmp(b),
            other => other,
        },
        other => other,
    }
}
