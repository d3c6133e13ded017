//! The files that a round takes of those that are left.
ghost use Rattle.std.specs.Prelude.{◌≡◌, ◌&&◌, ◌||◌, not, IfOk};
ghost use Rattle.std.specs.List.Sorted.{IsStrictlySortedBy};
ghost use Rattle.mo_types.specs.Keys.{compare_files};
ghost use Rattle.mo_types.specs.declared.key.FileId.{FileId};
ghost use Rattle.member_rounds.specs.Growth.{is_in, same_file};

use crate::id_set::{IdOrder, IdSet};
use mo_types::{FileId, OutOfMemory};
use std::alloc::Global;

// Files in order, and another one where it is left.
#[tactic(auto, using(crate::proofs::TakeLemmas::one_taken))]
fn take_one(next: IdOrder, left: &IdSet, id: FileId) -> Result<IdOrder, OutOfMemory>
    ensures { IfOk result (λ new. (other : FileId) → is_in new other ≡ (is_in next other || (is_in left.now other && same_file other id))) }
{
    if left.contains(id) {
        next.with(id)
    } else {
        Ok(next)
    }
}

// Those of some files that are left, in order.
#[tactic(auto, using(crate::proofs::TakeLemmas::takes))]
fn next_of(alloc: Global, left: &IdSet, asked: &[FileId]) -> Result<IdOrder, OutOfMemory>
    ensures { IfOk result (λ next. (id : FileId) → is_in next id ≡ (is_in left.now id && is_in asked.now id)) }
{
    let mut next = IdOrder::new(alloc);
    for id in asked {
        next = take_one(next, left, *id)?;
    }
    Ok(next)
}

// A set without some files.
#[tactic(auto, using(crate::proofs::TakeLemmas::takes))]
fn without_all(before: IdSet, ids: &[FileId]) -> IdSet
    ensures { (id : FileId) → is_in result id ≡ (is_in before id && not (is_in ids.now id)) }
{
    let mut left = before;
    for id in ids {
        left = left.without(*id);
    }
    left
}

// The set of some files.
#[tactic(auto, using(crate::proofs::TakeLemmas::takes))]
fn set_of(alloc: Global, ids: &[FileId]) -> Result<IdSet, OutOfMemory>
    ensures { IfOk result (λ set. (id : FileId) → is_in set id ≡ is_in ids.now id) }
{
    let mut set = IdSet::new(alloc);
    for id in ids {
        set = set.with(*id)?;
    }
    Ok(set)
}

/// The files that are left of some without others.
#[tactic(auto, using(crate::proofs::TakeLemmas::ends))]
pub(crate) fn left_of(alloc: Global, all: &[FileId], first: &[FileId]) -> Result<IdSet, OutOfMemory>
    ensures { IfOk result (λ left. (id : FileId) → is_in left id ≡ (is_in all.now id && not (is_in first.now id))) }
{
    let all = set_of(alloc, all)?;
    Ok(without_all(all, first))
}

/// Takes those of some files that are left: what is left then, and the files that are taken, by rising id and each once.
#[tactic(auto, using(crate::proofs::TakeLemmas::ends))]
pub(crate) fn take_next(
    alloc: Global,
    left: IdSet,
    asked: &[FileId],
) -> Result<(IdSet, Vec<FileId>), OutOfMemory>
    ensures left { IfOk result (λ r. (id : FileId) → is_in r.0 id ≡ (is_in left id && not (is_in asked.now id))) }
    ensures rises { IfOk result (λ r. IsStrictlySortedBy compare_files r.1.items) }
    ensures taken { IfOk result (λ r. (id : FileId) → is_in r.1.items id ≡ (is_in left id && is_in asked.now id)) }
{
    let next = next_of(alloc, &left, asked)?.into_vec(alloc)?;
    let left = without_all(left, next.as_slice());
    Ok((left, next))
}
