//! The libraries of a link.
ghost use Rattle.std.specs.Prelude.{◌≡◌, length, true};
ghost use Rattle.file_cache.specs.Kept.{seen};
ghost use Rattle.lib_bind.specs.Named.{are_named};
ghost use Rattle.link_engine.specs.Asks.{BindsLibraries};

use crate::stop::{Stop, bind_fault};
use command_line::Command;
use file_cache::FileCache;
use lib_bind::{Libraries, StubFileList, closure};
use link_steps::StepFault;
use mo_outside::Files;
use std::alloc::Global;

/// The libraries that stub libraries are, with what they re-export, for which files are asked; or why there are none.
pub fn bind<F: Files>(
    alloc: Global,
    files: &mut F,
    cache: &mut FileCache,
    command: &Command,
    stubs: StubFileList,
) -> Result<Libraries, StepFault<Stop>>
    requires named { are_named (length command.now.inputs) 0 stubs ≡ true }
    ensures { BindsLibraries F.answers command.now stubs result
        (seen F.holds F.asked F.faults files.old cache.old) (seen F.holds F.asked F.faults files.new cache.new) }
{
    closure(alloc, command, files, cache, stubs).map_err(bind_fault)
}
