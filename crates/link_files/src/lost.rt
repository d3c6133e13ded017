//! Names that lead nowhere.
ghost use Rattle.std.specs.Prelude.{◌≡◌, IfOk};
ghost use Rattle.std.specs.List.{filter};
ghost use Rattle.std.specs.List.Sorted.{IsStrictlySortedBy};
ghost use Rattle.link_steps.specs.Steps.{Finds};
ghost use Rattle.mo_types.specs.Keys.{compare_keys};
ghost use Rattle.mo_types.specs.declared.answer.Refusal.TheVariants.{Undefined};
ghost use Rattle.link_files.specs.Lost as spec;
ghost use Rattle.link_files.specs.Resolved.{IsResolved, files_of, table_of};

use crate::names::wanted_names;
use crate::resolved::Resolved;
use link_steps::StepFault;
use liveness::{Lost, undefined};
use mo_types::{Bytes, Goal, KeyList, OutOfMemory, Refusal};
use resolve::goal_of_name;
use std::alloc::Global;

// Whether a name leads nowhere.
fn is_lost(alloc: Global, resolved: &Resolved, name: &Bytes) -> Result<bool, OutOfMemory>
    requires { IsResolved resolved.now }
    ensures { IfOk result (λ lost. lost ≡ spec.is_lost resolved.now.command.now resolved.now.libs.now (files_of resolved.now) name.now) }
{
    let Resolved {
        command,
        libs,
        loaded,
        symbols,
        ..
    } = *resolved;
    let goal = goal_of_name(alloc, symbols, libs, loaded, command, name.as_slice())?;
    Ok(matches!(goal, Goal::Nobody))
}

// Those of some names that lead nowhere.
#[tactic(auto, using(crate::proofs::LostLemmas::lost))]
fn lost_among(
    alloc: Global,
    resolved: &Resolved,
    names: &[Bytes],
) -> Result<Vec<Bytes>, OutOfMemory>
    requires { IsResolved resolved.now }
    ensures { IfOk result (λ lost. lost.items ≡ filter (spec.is_lost resolved.now.command.now resolved.now.libs.now (files_of resolved.now)) names.now) }
{
    let mut lost = Vec::new(alloc);
    for name in names {
        if is_lost(alloc, resolved, name)? {
            lost.push(name.clone()?)?;
        }
    }
    Ok(lost)
}

// The refusal of a name that leads nowhere.
fn told(alloc: Global, lost: Lost) -> Result<Refusal, OutOfMemory>
    ensures { IfOk result (λ refusal. refusal ≡ Undefined lost.entry.name.now lost.entry.label.now) }
{
    Ok(Refusal::Undefined {
        name: Bytes::from_slice(alloc, lost.name)?,
        file: Bytes::from_slice(alloc, lost.label)?,
    })
}

/// No name leads nowhere, of those to which kept atoms refer and of those that the command line wants, or the least that
/// does is refused.
pub(crate) fn all_defined(
    alloc: Global,
    resolved: &Resolved,
    keys: &KeyList,
) -> Result<(), StepFault<Refusal>>
    requires resolved { IsResolved resolved.now }
    requires keys { IsStrictlySortedBy compare_keys keys.now }
    ensures { Finds (spec.undefined_refusal resolved.now.command.now resolved.now.libs.now (files_of resolved.now) (table_of resolved.now) keys.now) result }
{
    let wanted = wanted_names(alloc, resolved.command)?;
    let names = lost_among(alloc, resolved, wanted.as_slice())?;
    match undefined(resolved.loaded, resolved.goals, keys, names.as_slice()) {
        Some(lost) => Err(StepFault::Stop(told(alloc, lost)?)),
        None => Ok(()),
    }
}
