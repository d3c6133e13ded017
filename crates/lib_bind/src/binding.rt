//! The libraries of a command line.
ghost use Rattle.std.specs.Prelude.{◌≡◌, length, true, IfOk};
ghost use Rattle.file_cache.specs.Kept.{seen};
ghost use Rattle.lib_bind.specs.Closure.{Closes};
ghost use Rattle.lib_bind.specs.Graph.{AreLibraries, AreLinks, IsWhole};
ghost use Rattle.lib_bind.specs.Named.{are_named};

use crate::bind_fault::BindFault;
use crate::choosing::{Chosen, chosen_of};
use crate::closing::{Closing, begun, closed};
use crate::growing::Growing;
use crate::libraries::Libraries;
use crate::library::LibraryList;
use crate::named::StubFileList;
use command_line::Command;
use file_cache::FileCache;
use mo_outside::Files;
use mo_types::OutOfMemory;
use std::alloc::Global;

// Libraries with the documents that were found.
fn libraries_of(
    alloc: Global,
    libraries: LibraryList,
    closing: Closing,
) -> Result<Libraries, OutOfMemory>
    requires links { AreLinks (length closing.growing.documents) closing.growing.links }
    requires libraries { AreLibraries (length closing.growing.documents) libraries }
    ensures libraries { IfOk result (λ libs. libs.libraries ≡ libraries) }
    ensures documents { IfOk result (λ libs. libs.documents ≡ closing.growing.documents) }
    ensures links { IfOk result (λ libs. libs.links ≡ closing.growing.links) }
    ensures whole { IfOk result IsWhole }
{
    let Closing { growing, .. } = closing;
    let Growing {
        documents,
        links,
        ..
    } = growing;
    Libraries::new(alloc, libraries, documents, links)
}

/// The libraries that a command line names, with all that they re-export, which is fetched breadth first.
///
/// A library is dropped where an earlier one has its install name; the others have the ordinals 1, 2, 3 by position.
/// The 241st is one too many (`Limit`). A re-exported install name is looked for among the documents of the same file,
/// then among the first documents of the libraries that are kept, and then as a path under the root (ld(1):
/// `-syslibroot`): the path of a stub library, and then the install name as it stands. Files are asked for a path once, and
/// not where the cache has it. The
/// first one that has no answer decides: it couldn't be read (`ReadFault`), no file has it nor the other one (`Missing`
/// with the first), or its file isn't the text of a stub library. `are_named` tests the condition.
pub fn closure<F: Files>(
    alloc: Global,
    command: &Command,
    files: &mut F,
    cache: &mut FileCache,
    named: StubFileList,
) -> Result<Libraries, BindFault>
    requires { are_named (length command.now.inputs) 0 named ≡ true }
    ensures closes { Closes F.answers command.now named result
        (seen F.holds F.asked F.faults files.old cache.old) (seen F.holds F.asked F.faults files.new cache.new) }
    ensures whole { IfOk result IsWhole }
{
    let Chosen {
        libraries,
        heads,
        files: kept,
        ..
    } = chosen_of(alloc, command, named)?;
    let start = begun(alloc, libraries.as_slice(), &heads, kept)?;
    let closing = closed(alloc, command, files, cache, &heads, start)?;
    Ok(libraries_of(alloc, libraries, closing)?)
}
