//! The libraries that a command line names, less those whose install name an earlier one has.
ghost use Rattle.std.specs.Prelude.{◌≡◌, ◌<◌, ◌≤◌, ◌*◌, ◌^◌, None, Ok, IfOk, length, true};
ghost use Rattle.mo_types.specs.Gives.{Gives};
ghost use Rattle.lib_bind.specs.Closing as spec;
ghost use Rattle.lib_bind.specs.Closing.{IsBindFault};
ghost use Rattle.lib_bind.specs.Found.{found};
ghost use Rattle.lib_bind.specs.Named.{are_named};

use crate::bind_fault::BindFault;
use crate::by_name::ByName;
use crate::checks::MOST;
use crate::library::{Library, LibraryList};
use crate::named::{NamedStub, StubFileList};
use command_line::{Command, CommandInput};
use mo_types::{Bytes, Items, OutOfMemory, Refusal, Which};
use std::alloc::Global;
use tbd_doc::StubFile;

/// Libraries that are kept.
#[derive(Drop)]
pub struct Chosen {
    pub libraries: LibraryList,
    /// For each of them its install name, and the number of its own document.
    pub heads: ByName<usize>,
    pub files: Items<StubFile>,
    /// How many documents their files have.
    pub documents: usize,
}

fn install_of(named: &NamedStub) -> &Bytes
    requires { 0 < length named.now.file.docs }
    ensures { result.now ≡ spec.install_of named.now }
{
    &named.file.docs.as_slice()[0].install
}

// One library more.
fn with_library(input: &CommandInput, named: NamedStub, chosen: Chosen) -> Result<Chosen, BindFault>
    requires some { 0 < length named.file.docs }
    requires limit { length named.file.docs < 2 ^ 32 }
    requires new { found (spec.install_of named) chosen.heads ≡ None }
    requires few { length chosen.libraries < 240 }
    requires sum { chosen.documents ≤ length chosen.libraries * 2 ^ 32 }
    ensures exact { Gives IsBindFault result (Ok (spec.with_library input.now named chosen)) }
    ensures sum { IfOk result (λ next. next.documents ≤ length next.libraries * 2 ^ 32) }
{
    let Chosen {
        mut libraries,
        heads,
        mut files,
        documents,
    } = chosen;
    let more = documents + named.file.docs.len();
    libraries.push(Library {
        position: named.position,
        ordinal: libraries.len() as u8 + 1,
        weak: input.weak,
        reexport: input.reexport,
        document: documents,
    })?;
    let heads = heads.add(install_of(&named).clone()?, documents)?;
    files.push(named.file)?;
    Ok(Chosen {
        libraries,
        heads,
        files,
        documents: more,
    })
}

// The next library of a command line.
#[tactic(auto, unfolding(crate::specs::Closing::choose))]
fn choose(command: &Command, named: NamedStub, chosen: Chosen) -> Result<Chosen, BindFault>
    requires within { named.position < length command.now.inputs }
    requires some { 0 < length named.file.docs }
    requires limit { length named.file.docs < 2 ^ 32 }
    requires sum { chosen.documents ≤ length chosen.libraries * 2 ^ 32 }
    ensures exact { Gives IsBindFault result (spec.choose command.now named chosen) }
    ensures sum { IfOk result (λ next. next.documents ≤ length next.libraries * 2 ^ 32) }
{
    if chosen.heads.get(install_of(&named)).is_some() {
        return Ok(chosen);
    }
    if chosen.libraries.len() >= MOST {
        return Err(BindFault::Refused(Refusal::Limit {
            which: Which::Libraries,
        }));
    }
    let input = &command.inputs.as_slice()[usize::from(named.position)];
    with_library(input, named, chosen)
}

/// The libraries of a command line that are kept.
pub fn chosen_of(alloc: Global, command: &Command, named: StubFileList) -> Result<Chosen, BindFault>
    requires { are_named (length command.now.inputs) 0 named ≡ true }
    ensures { Gives IsBindFault result (spec.chosen_of command.now named) }
{
    let mut chosen = Chosen {
        libraries: Items::new(alloc),
        heads: ByName::new(alloc),
        files: Items::new(alloc),
        documents: 0,
    };
    for stub in named.into_vec() {
        chosen = choose(command, stub, chosen)?;
    }
    Ok(chosen)
}
