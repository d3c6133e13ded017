//! The atoms that a link keeps.
ghost use Rattle.std.specs.Prelude.{◌≡◌, IfOk};
ghost use Rattle.mo_types.specs.Loaded.{IsWholeLoaded};
ghost use Rattle.name_ids.specs.Names.{numbers_of};
ghost use Rattle.link_files.specs.Resolved.{AreKept, IsResolved, files_of, table_of};

use crate::resolved::Resolved;
use liveness::{edges, roots};
use mark_core::KeySet;
use mark_race::kept_by;
use mo_outside::Gate;
use mo_types::{Items, KeyList, OutOfMemory};
use name_ids::NumberList;
use std::alloc::Global;
use std::thread::Threads;

/// The keys of the atoms that are kept, in order: those that are reached from the roots, as so many workers mark them.
pub(crate) fn kept_keys<R: Threads + Sync, G: Gate + Sync>(
    rt: &R,
    alloc: Global,
    gate: &G,
    threads: u32,
    resolved: &Resolved,
    numbers: &Items<NumberList>,
) -> Result<KeyList, OutOfMemory>
    requires whole { IsWholeLoaded resolved.now.loaded.now }
    requires resolved { IsResolved resolved.now }
    requires numbers { numbers.now ≡ numbers_of resolved.now.symbols.now.names resolved.now.loaded.now.files }
    ensures { IfOk result (AreKept resolved.now.command.now (files_of resolved.now) resolved.now.symbols.now (table_of resolved.now)) }
{
    let Resolved {
        command,
        loaded,
        symbols,
        goals,
        ..
    } = *resolved;
    let roots = roots(alloc, loaded, symbols, numbers, command)?;
    let roots = KeySet::from_vec(alloc, roots.into_vec())?;
    let (edges, supports) = edges(alloc, loaded, symbols, goals, &roots)?;
    kept_by(rt, alloc, gate, threads, edges, &supports, roots)
}
