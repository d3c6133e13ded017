//! The names that a link wants, and the limit of its atoms.
ghost use Rattle.std.specs.Prelude.{◌≡◌, ◌++◌, IfOk};
ghost use Rattle.link_steps.specs.Steps.{Finds};
ghost use Rattle.link_files.specs.Names as spec;

use command_line::Command;
use link_steps::StepFault;
use mo_types::{Bytes, LoadedFile, NameList, OutOfMemory, Refusal, Which};
use std::alloc::Global;

// There are fewer atoms.
const ATOMS: usize = 1 << 24;

// Names, and more names.
fn add_names(before: Vec<Bytes>, names: &[Bytes]) -> Result<Vec<Bytes>, OutOfMemory>
    ensures { IfOk result (λ all. all.items ≡ before.items ++ names.now) }
{
    let mut all = before;
    for name in names {
        all.push(name.clone()?)?;
    }
    Ok(all)
}

/// The names that the command line wants: the entry of an executable, and those of `-u` (ld(1)).
pub fn wanted_names(alloc: Global, command: &Command) -> Result<NameList, OutOfMemory>
    ensures { IfOk result (λ names. names ≡ spec.wanted command.now) }
{
    let mut names = Vec::new(alloc);
    if !command.dylib {
        names.push(command.entry.clone()?)?;
    }
    let names = add_names(names, command.roots.as_slice())?;
    Ok(NameList::from_vec(names))
}

/// That files have too many atoms, where they have.
#[tactic(auto, using(crate::proofs::NameLemmas::atoms), unfolding(crate::specs::Names::atoms_refusal))]
pub(crate) fn few_atoms(files: &[LoadedFile]) -> Result<(), StepFault<Refusal>>
    ensures { Finds (spec.atoms_refusal files.now) result }
{
    let mut left = ATOMS;
    for file in files {
        if file.atoms.len() >= left {
            return Err(StepFault::Stop(Refusal::Limit {
                which: Which::Atoms,
            }));
        }
        left -= file.atoms.len();
    }
    Ok(())
}
