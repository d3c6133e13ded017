//! Names that two strong definitions have.
ghost use Rattle.std.specs.Prelude.{◌≡◌, IfOk};
ghost use Rattle.link_steps.specs.Steps.{FindsBy};
ghost use Rattle.mo_types.specs.Loaded.{IsWholeLoaded};
ghost use Rattle.name_ids.specs.Names.{numbers_of};
ghost use Rattle.symbol_winners.specs.Duplicates.{IsLeastDuplicate};
ghost use Rattle.symbol_winners.specs.Found.{AreNamed};
ghost use Rattle.link_files.specs.Refusals.{IsDuplicateTold, IsTwice};

use crate::labels::label_of;
use link_steps::StepFault;
use mo_types::{Bytes, FileId, Loaded, OutOfMemory, Refusal};
use name_ids::{NameTable, NamedFiles};
use std::alloc::Global;
use symbol_winners::duplicate;

// The refusal of a name that two files define.
fn twice(
    alloc: Global,
    loaded: &Loaded,
    names: &NameTable,
    found: (u32, FileId, FileId),
) -> Result<Refusal, OutOfMemory>
    requires { IsLeastDuplicate loaded.now.files names.now found.0 (found.1, found.2) }
    ensures { IfOk result (IsTwice loaded.now.files) }
{
    let files = loaded.files.as_slice();
    Ok(Refusal::Duplicate {
        name: Bytes::from_slice(alloc, names.name_of(found.0))?,
        first: label_of(files, found.1)?,
        second: label_of(files, found.2)?,
    })
}

/// No name has two strong definitions, or the least that has is refused, with the files of its first two.
pub(crate) fn defined_once(alloc: Global, named: &NamedFiles) -> Result<(), StepFault<Refusal>>
    requires whole { IsWholeLoaded named.now.loaded }
    requires named { AreNamed named.now.numbered.names named.now.loaded.files }
    requires numbers { named.now.numbered.numbers ≡ numbers_of named.now.numbered.names named.now.loaded.files }
    ensures { FindsBy (IsDuplicateTold named.now.loaded.files) result }
{
    let NamedFiles { loaded, numbered } = named;
    match duplicate(alloc, loaded, &numbered.names, &numbered.numbers)? {
        Some(found) => Err(StepFault::Stop(twice(alloc, loaded, &numbered.names, found)?)),
        None => Ok(()),
    }
}
