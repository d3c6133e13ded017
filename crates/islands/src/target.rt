//! The targets of branches in order.
ghost use Rattle.std.specs.Prelude.{◌≡◌, ◌<◌, ◌≤◌, IfOk, IsTrue, length, map, slice_index_or};
ghost use Rattle.std.specs.List.Sorted.{IsStrictlySortedBy};
ghost use Rattle.std.specs.Ordering.{is_lt};
ghost use Rattle.islands.specs.Targets as spec;
ghost use Rattle.islands.specs.declared.branch.Branch.{Branch};
ghost use Rattle.islands.specs.inner.Held.{aim_of, target_of, targets_behind};

use crate::branch::Branch;
use crate::numbering::{Gathered, Keyed, gather, hints, in_order, is_same_goal};
use mo_types::{Goal, OutOfMemory};
use sect_place::BranchTarget;
use std::alloc::Global;

/// A target that can be put in order: by goal, and then by addend.
#[derive(Debug, Drop, PartialEq, Eq, PartialOrd, Ord)]
pub(crate) struct Aim {
    pub goal: Goal,
    pub addend: i64,
    pub stub: Option<u32>,
}

/// Targets in order, each once, and where that of each branch mostly stands among them.
#[derive(Debug, Drop)]
pub(crate) struct Aims {
    pub aims: Vec<Aim>,
    pub hints: Vec<usize>,
}

impl Aim {
    // A copy of a target.
    fn of(target: &BranchTarget) -> Result<Aim, OutOfMemory>
        ensures { IfOk result (λ aim. aim ≡ aim_of target.now) }
    {
        Ok(Aim {
            goal: target.goal.clone()?,
            addend: target.addend,
            stub: target.stub,
        })
    }

    // Whether it is a target.
    fn is(&self, target: &BranchTarget) -> bool
        ensures { IsTrue result → self.now ≡ aim_of target.now }
    {
        self.addend == target.addend
            && self.stub == target.stub
            && is_same_goal(&self.goal, &target.goal)
    }

    /// The target.
    pub(crate) fn target(&self) -> Result<BranchTarget, OutOfMemory>
        ensures { IfOk result (λ target. target ≡ target_of self.now) }
    {
        Ok(BranchTarget {
            goal: self.goal.clone()?,
            addend: self.addend,
            stub: self.stub,
        })
    }
}

// The targets behind references.
fn copies(alloc: Global, keyed: &[Keyed]) -> Result<Vec<Aim>, OutOfMemory>
    ensures { IfOk result (λ aims. map target_of aims.items ≡ targets_behind keyed.now) }
{
    let mut aims = Vec::with_capacity(alloc, keyed.len())?;
    for each in keyed {
        aims.push(Aim::of(each.target)?)?;
    }
    Ok(aims)
}

// The targets of branches in order, each once.
pub(crate) fn targets(alloc: Global, branches: &[Branch]) -> Result<Aims, OutOfMemory>
    ensures { IfOk result (λ those. spec.AreTargets (map (λ (branch : Branch). branch.target) branches.now) (map target_of those.aims.items)) }
{
    let Gathered { keyed, met } = gather(alloc, branches)?;
    let keyed = in_order(keyed);
    let mut aims = copies(alloc, keyed.as_slice())?;
    aims.sort()?;
    aims.dedup();
    let hints = hints(alloc, keyed.as_slice(), met.as_slice())?;
    Ok(Aims { aims, hints })
}

// Whether a target stands at a place.
pub(crate) fn is_at(aims: &[Aim], at: usize, target: &BranchTarget) -> bool
    ensures { IsTrue result → (at < length aims.now) × (slice_index_or aims.now at (aim_of target.now) ≡ aim_of target.now) }
{
    match aims.get(at) {
        Some(aim) => aim.is(target),
        None => false,
    }
}

// The number of a target: how many are before it.
pub(crate) fn number_of(aims: &[Aim], target: &BranchTarget) -> Result<usize, OutOfMemory>
    requires { IsStrictlySortedBy spec.compare_targets (map target_of aims.now) }
    ensures { IfOk result (λ number. number ≡ spec.number_of (map target_of aims.now) target.now) }
{
    let aim = Aim::of(target)?;
    Ok(count_before(aims, &aim))
}

// How many targets are before one.
fn count_before(aims: &[Aim], aim: &Aim) -> usize
    requires { IsStrictlySortedBy spec.compare_targets (map target_of aims.now) }
    ensures { result ≡ spec.number_of (map target_of aims.now) (target_of aim.now) }
{
    aims.partition_point(|other| is_before(other, aim))
}

// Whether a target is before another.
fn is_before(a: &Aim, b: &Aim) -> bool
    ensures { result ≡ is_lt (spec.compare_targets (target_of a.now) (target_of b.now)) }
{
    a.cmp(b).is_lt()
}
