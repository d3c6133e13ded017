//! Needs mostly in the order of their goals, by numbers that tell most goals apart. Nothing rests on what the numbers
//! are: a wrong one costs the sort that follows a few steps more.
ghost use Rattle.std.specs.Prelude.{◌≡◌, IfOk, IsPermutation};
ghost use Rattle.slot_plan.specs.inner.Held.{needs_behind};

use crate::need::Need;
use crate::order::{compare, same_front};
use mo_types::{Goal, OutOfMemory};
use std::alloc::Global;
use std::cmp::Ordering;

// A need with the numbers of its goal.
#[derive(Clone, Copy, Debug)]
pub(crate) struct Keyed<'a> {
    high: u64,
    low: u64,
    need: &'a Need,
}

// The same needs, mostly in the order of their goals.
pub(crate) fn roughly_in_order<'a>(
    alloc: Global,
    needs: &[&'a Need],
) -> Result<Vec<&'a Need>, OutOfMemory>
    ensures { IfOk result (λ moved. IsPermutation needs.now moved.items) }
{
    let mut keyed = with_keys(alloc, needs)?;
    keyed.sort_unstable_by(|a, b| compare_keyed(a, b));
    without_keys(alloc, keyed.as_slice())
}

fn compare_keyed(a: &Keyed, b: &Keyed) -> Ordering {
    match a.high.cmp(&b.high) {
        Ordering::Equal => match a.low.cmp(&b.low) {
            Ordering::Equal => compare(&a.need.goal, &b.need.goal),
            other => other,
        },
        other => other,
    }
}

fn with_keys<'a>(alloc: Global, needs: &[&'a Need]) -> Result<Vec<Keyed<'a>>, OutOfMemory>
    ensures { IfOk result (λ keyed. needs_behind keyed.items ≡ needs.now) }
{
    let front = common_front(needs);
    let mut keyed = Vec::with_capacity(alloc, needs.len())?;
    for need in needs {
        let (high, low) = numbers(&need.goal, front);
        keyed.push(Keyed { high, low, need })?;
    }
    Ok(keyed)
}

fn without_keys<'a>(alloc: Global, keyed: &[Keyed<'a>]) -> Result<Vec<&'a Need>, OutOfMemory>
    ensures { IfOk result (λ needs. needs.items ≡ needs_behind keyed.now) }
{
    let mut needs = Vec::with_capacity(alloc, keyed.len())?;
    for each in keyed {
        needs.push(each.need)?;
    }
    Ok(needs)
}

// In so many bytes all names begin alike.
fn common_front(needs: &[&Need]) -> usize {
    let mut front: Option<&[u8]> = None;
    for need in needs {
        let name = need.goal.name();
        if !name.is_empty() {
            front = Some(match front {
                Some(front) => alike(front, name),
                None => name,
            });
        }
    }
    match front {
        Some(front) => front.len(),
        None => 0,
    }
}

// The bytes in which two names begin alike.
fn alike<'a>(a: &'a [u8], b: &[u8]) -> &'a [u8] {
    let mut same = same_front(a, b);
    while same < a.len() && same < b.len() && a[same] == b[same] {
        same += 1;
    }
    &a[..same]
}

// Two numbers that are mostly in the order of the goals: of names, the eight bytes behind those in which all begin alike.
fn numbers(goal: &Goal, front: usize) -> (u64, u64) {
    match goal {
        Goal::Def(key, _) => (
            1 << 63 | u64::from(key.file.position) << 32 | u64::from(key.file.member),
            u64::from(key.section) << 48 ^ key.offset,
        ),
        Goal::Header => (1, 0),
        Goal::Nobody => (u64::MAX, 0),
        named => (0, word_at(named.name(), front)),
    }
}

// Eight bytes of a name as one number, the first the highest.
fn word_at(name: &[u8], at: usize) -> u64 {
    let mut word = 0;
    for i in 0..8usize {
        let byte = match name.get(at.saturating_add(i)) {
            Some(byte) => *byte,
            None => 0,
        };
        word = word << 8 | u64::from(byte);
    }
    word
}
