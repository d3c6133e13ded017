//! The fronts of names, as numbers.
ghost use Rattle.std.specs.Prelude.{◌≡◌, List, ℕ, drop, get_or};
ghost use Rattle.std.specs.Ordering.{nat_cmp, ordering_then};
ghost use Rattle.std.specs.Cmp.Lexicographic.{slice_cmp};
ghost use Rattle.std.specs.declared.cmp.Ordering.TheVariants.{Equal};
ghost use Rattle.symbol_winners.specs.inner.Front.{IsFrontOf, front_number};

use std::cmp::Ordering;

/// The first twenty-four bytes of a name, as the numbers that eight of them spell each, the first at its top, with zeros
/// behind a shorter name.
#[derive(Clone, Copy)]
pub(crate) struct Front {
    first: u64,
    second: u64,
    third: u64,
}

/// The bytes that a number has.
const WIDTH: usize = 8;

// The byte at a place, or zero behind the last.
fn byte_at(name: &[u8], at: usize) -> u8
    ensures { result ≡ get_or name.now at 0 }
{
    if at < name.len() { name[at] } else { 0 }
}

// The first eight bytes of a shorter name, with zeros behind it, as one number.
#[tactic(auto, using(crate::proofs::FrontLemmas::numbering))]
fn number_of_few(name: &[u8]) -> u64
    ensures { result ≡ front_number 8 name.now }
{
    let mut number = 0;
    for i in 0..WIDTH {
        number = number * 256 + u64::from(byte_at(name, i));
    }
    number
}

// The first eight bytes as one number.
fn number_of(name: &[u8]) -> u64
    ensures { result ≡ front_number 8 name.now }
{
    if name.len() < WIDTH {
        return number_of_few(name);
    }
    u64::from_be_bytes([
        name[0], name[1], name[2], name[3], name[4], name[5], name[6], name[7],
    ])
}

// The bytes from a place on.
fn behind(name: &[u8], at: usize) -> &[u8]
    ensures { result.now ≡ drop at name.now }
{
    if at < name.len() { &name[at..] } else { &[] }
}

/// The front of a name.
pub(crate) fn front_of(name: &[u8]) -> Front
    ensures { IsFrontOf name.now result }
{
    Front {
        first: number_of(name),
        second: number_of(behind(name, WIDTH)),
        third: number_of(behind(name, 2 * WIDTH)),
    }
}

// How two fronts compare, number by number.
fn order(front: Front, other: Front) -> Ordering
    ensures { result ≡ ordering_then (nat_cmp front.first other.first) (ordering_then (nat_cmp front.second other.second) (nat_cmp front.third other.third)) }
{
    match front.first.cmp(&other.first) {
        Ordering::Equal => match front.second.cmp(&other.second) {
            Ordering::Equal => front.third.cmp(&other.third),
            unequal => unequal,
        },
        unequal => unequal,
    }
}

/// How two names compare by their fronts: where these are one, that says nothing of the names.
pub(crate) fn compare(front: Front, other: Front) -> Ordering
    ensures { (a b : List ℕ) → IsFrontOf a front → IsFrontOf b other → (result ≡ Equal → ⊥) → result ≡ slice_cmp nat_cmp a b }
{
    order(front, other)
}
