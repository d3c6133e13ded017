//! The targets of branches, mostly each once and in order. Nothing rests on the order, nor on which of them is said to be
//! a branch's: where that is wrong, the sort and the look-ups that follow take longer.
ghost use Rattle.std.specs.Prelude.{◌≡◌, Contains, IfOk, IfSome, IsPermutation, IsTrue, map};
ghost use Rattle.islands.specs.declared.branch.Branch.{Branch};
ghost use Rattle.islands.specs.inner.Held.{HasTheSame, targets_behind};

use crate::branch::Branch;
use mo_types::{Goal, OutOfMemory};
use sect_place::BranchTarget;
use std::alloc::Global;
use std::cmp::Ordering;

/// A target, with two numbers that are mostly in the order of targets, and which of the different ones it is, in the order
/// in which they were met.
#[derive(Clone, Copy, Debug)]
pub(crate) struct Keyed<'a> {
    high: u64,
    low: u64,
    met: usize,
    pub target: &'a BranchTarget,
}

/// Targets, and which of them each branch goes to.
#[derive(Debug, Drop)]
pub(crate) struct Gathered<'a> {
    pub keyed: Vec<Keyed<'a>>,
    pub met: Vec<usize>,
}

// Places by tags: 0, or the tag in the upper half of a cell and the place plus 1 in the lower.
#[derive(Debug, Drop)]
struct Seen {
    cells: Vec<u64>,
}

// How many cells are looked at.
const STEPS: usize = 8;

impl Seen {
    // A table for so many places.
    fn new(alloc: Global, count: usize) -> Result<Seen, OutOfMemory> {
        let size = count.min(1 << 40).saturating_mul(2).max(16);
        let cells = vec![in alloc; 0u64; size]?;
        Ok(Seen { cells })
    }

    // The cell so many steps from a tag's own.
    fn cell_of(&self, tag: u32, step: usize) -> usize {
        let first = (u64::from(tag) as u128 * self.cells.len() as u128 >> 32) as usize;
        first.wrapping_add(step)
    }

    fn note(&mut self, at: usize, tag: u32, place: usize) {
        if let Some(cell) = self.cells.get_mut(at) {
            *cell = u64::from(tag) << 32 | (place as u64).wrapping_add(1) & 0xffff_ffff;
        }
    }
}

// Where a target stands among some, or else the cell where it is to be noted.
fn look<'a>(
    keyed: &[Keyed<'a>],
    seen: &Seen,
    tag: u32,
    target: &BranchTarget,
) -> Result<usize, usize>
    ensures { IfOk result (λ at. Contains (targets_behind keyed.now) target.now) }
{
    for step in 0..STEPS {
        let at = seen.cell_of(tag, step);
        let cell = seen.cells.get(at).copied().unwrap_or(0);
        if cell == 0 {
            return Err(at);
        }
        if (cell >> 32) as u32 == tag {
            let place = (cell & 0xffff_ffff).wrapping_sub(1) as usize;
            if has_at(keyed, place, target) {
                return Ok(place);
            }
        }
    }
    Err(usize::MAX)
}

// Whether a target stands at a place.
fn has_at(keyed: &[Keyed], place: usize, target: &BranchTarget) -> bool
    ensures { IsTrue result → Contains (targets_behind keyed.now) target.now }
{
    match keyed.get(place) {
        Some(each) => is_same(each.target, target),
        None => false,
    }
}

/// Whether two targets are the same.
pub(crate) fn is_same(a: &BranchTarget, b: &BranchTarget) -> bool
    ensures { IsTrue result → a.now ≡ b.now }
{
    a.addend == b.addend && a.stub == b.stub && is_same_goal(&a.goal, &b.goal)
}

/// Whether two goals are the same. Places in atoms, which are most, are compared at once.
pub(crate) fn is_same_goal(a: &Goal, b: &Goal) -> bool
    ensures { IsTrue result → a.now ≡ b.now }
{
    match a {
        Goal::Def(key, offset) => match b {
            Goal::Def(other, place) => offset == place && key == other,
            _ => false,
        },
        _ => a.is_same(b),
    }
}

/// The targets of branches, mostly each once, and which of them each branch goes to.
pub(crate) fn gather<'a>(alloc: Global, branches: &'a [Branch]) -> Result<Gathered<'a>, OutOfMemory>
    ensures { IfOk result (λ found. HasTheSame (map (λ (branch : Branch). branch.target) branches.now) (targets_behind found.keyed.items)) }
{
    let mut keyed = Vec::new(alloc);
    let mut met = Vec::with_capacity(alloc, branches.len())?;
    let mut seen = Seen::new(alloc, branches.len())?;
    for branch in branches {
        let (high, low) = numbers_of(&branch.target);
        let tag = tag_of(high, low, &branch.target);
        match look(keyed.as_slice(), &seen, tag, &branch.target) {
            Ok(place) => met.push(place)?,
            Err(cell) => {
                let place = keyed.len();
                seen.note(cell, tag, place);
                met.push(place)?;
                keyed.push(Keyed {
                    high,
                    low,
                    met: place,
                    target: &branch.target,
                })?;
            }
        }
    }
    Ok(Gathered { keyed, met })
}

/// The same targets, mostly in order.
pub(crate) fn in_order<'a>(keyed: Vec<Keyed<'a>>) -> Vec<Keyed<'a>>
    ensures { IsPermutation keyed.entry.items result.items }
{
    let mut keyed = keyed;
    keyed.sort_unstable_by(|a, b| compare_keyed(a, b));
    keyed
}

fn compare_keyed(a: &Keyed, b: &Keyed) -> Ordering {
    match a.high.cmp(&b.high) {
        Ordering::Equal => match a.low.cmp(&b.low) {
            Ordering::Equal => compare_rest(a.target, b.target),
            other => other,
        },
        other => other,
    }
}

fn compare_rest(a: &BranchTarget, b: &BranchTarget) -> Ordering {
    match a.goal.cmp(&b.goal) {
        Ordering::Equal => match a.addend.cmp(&b.addend) {
            Ordering::Equal => a.stub.cmp(&b.stub),
            other => other,
        },
        other => other,
    }
}

// How many different targets are before each of those that were met.
fn ranks(alloc: Global, keyed: &[Keyed]) -> Result<Vec<usize>, OutOfMemory> {
    let mut ranks = vec![in alloc; 0usize; keyed.len()]?;
    let mut rank = 0usize;
    let mut last: Option<&BranchTarget> = None;
    for each in keyed {
        if let Some(target) = last {
            if !is_same(target, each.target) {
                rank = rank.wrapping_add(1);
            }
        }
        last = Some(each.target);
        if let Some(place) = ranks.get_mut(each.met) {
            *place = rank;
        }
    }
    Ok(ranks)
}

/// Where each branch's target mostly stands among the different ones in order.
pub(crate) fn hints(
    alloc: Global,
    keyed: &[Keyed],
    met: &[usize],
) -> Result<Vec<usize>, OutOfMemory> {
    let ranks = ranks(alloc, keyed)?;
    let ranks = ranks.as_slice();
    let mut hints = Vec::with_capacity(alloc, met.len())?;
    for number in met {
        hints.push(ranks.get(*number).copied().unwrap_or(0))?;
    }
    Ok(hints)
}

// Two numbers that are mostly in the order of targets: of names, their first bytes.
fn numbers_of(target: &BranchTarget) -> (u64, u64) {
    match &target.goal {
        Goal::Def(key, _) => {
            let member = u64::from(key.file.member) & 0x3fff_ffff;
            let file = u64::from(key.file.position) << 46 | member << 16;
            (2 << 62 | file | u64::from(key.section), key.offset)
        }
        Goal::Header => (1 << 62, 0),
        Goal::Nobody => (3 << 62, 0),
        named => {
            let name = named.name();
            (word_at(name, 0) >> 2, word_at(name, 7))
        }
    }
}

// Eight bytes of a name as one number, the first the highest.
fn word_at(name: &[u8], at: usize) -> u64 {
    let mut word = 0;
    for i in 0..8usize {
        let byte = name.get(at.saturating_add(i)).copied().unwrap_or(0);
        word = word << 8 | u64::from(byte);
    }
    word
}

// A hash of a target with these numbers.
fn tag_of(high: u64, low: u64, target: &BranchTarget) -> u32 {
    let rest = match &target.goal {
        Goal::Def(_, offset) => *offset,
        named => named.name().len() as u64,
    };
    let stub = match target.stub {
        Some(number) => u64::from(number).wrapping_add(1),
        None => 0,
    };
    let hash = mixed(mixed(mixed(high, low), rest), stub);
    (mixed(hash, target.addend.unsigned_abs()) >> 32) as u32
}

// A hash with one word more.
fn mixed(hash: u64, word: u64) -> u64 {
    (hash.rotate_left(5) ^ word).wrapping_mul(0x517c_c1b7_2722_0a95)
}
