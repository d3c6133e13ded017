//! The run of the tables of an image.

ghost use Rattle.std.specs.Prelude.{◌≡◌, ◌+◌, ◌<◌, ◌≤◌, length, IfOk};
ghost use Rattle.image_read.specs.Commands as commands;
ghost use Rattle.dyld_ops.specs.Runs as runs;
ghost use Rattle.dyld_ops.specs.Runs.{Answers, OpsAt, RunsTable};
ghost use Rattle.dyld_ops.specs.inner.Leaves.{GoesOn, IsLayout, Steps};

use crate::decode::op_at;
use crate::fixup::{OpMap, OpsFault};
use crate::fixups::Fixups;
use crate::info::{Layout, Part, info_of, layout_of};
use crate::machine::{Machine, obey};
use crate::op::{Op, Table};
use mo_types::Items;
use std::alloc::Global;

fn is_done(op: Op) -> bool
    ensures { result ≡ runs.is_done op }
{
    matches!(op, Op::Done)
}

// What the opcode at a place of the table that ends at `end` does; the next place, or `None` where the table ends.
#[tactic(auto, unfolding(crate::specs::Runs::step))]
fn step(
    alloc: Global,
    image: &[u8],
    layout: &Layout,
    table: (Table, usize),
    at: usize,
    machine: &mut Machine,
) -> Result<Option<usize>, OpsFault>
    requires layout { IsLayout image.now layout.now }
    requires end { table.1 ≤ length image.now }
    ensures exact { Steps result machine.old machine.new (runs.step image.now table.0 table.1 at machine.old) }
    ensures further { IfOk result (GoesOn at table.1) }
{
    let (kind, end) = table;
    if at >= end {
        return Ok(None);
    }
    let Some(found) = op_at(kind, &image[..end], at) else {
        return Err(OpsFault::Broken { place: at as u64 });
    };
    if is_done(found.op) {
        return Ok(None);
    }
    obey(alloc, image, layout, at, found.op, machine)?;
    Ok(Some(found.next))
}

#[tactic(auto, using(crate::proofs::RunLemmas::runs))]
fn run_table(
    alloc: Global,
    image: &[u8],
    layout: &Layout,
    kind: Table,
    part: Part,
    fixups: Fixups,
) -> Result<Fixups, OpsFault>
    requires { IsLayout image.now layout.now }
    ensures { Answers (RunsTable image.now kind part fixups) result }
{
    let end = part.at as usize + part.size as usize;
    if image.len() < end {
        return Err(OpsFault::Broken { place: 0 });
    }
    let mut machine = Machine::new(fixups);
    let mut at = part.at as usize;
    while let Some(next) = step(alloc, image, layout, (kind, end), at, &mut machine)? {
        at = next;
    }
    let Machine { fixups, .. } = machine;
    Ok(fixups)
}

/// What the opcodes of an image fix (`loader.h`: `dyld_info_command`): the table of rebases is run, and then that of
/// binds. Nothing where the image has no such tables. An offset counts from the address of the first segment `__TEXT`.
/// `Broken` where the commands or a table don't fit the file (place 0), and at the first opcode that isn't one of its
/// table or has no whole number or name, that tells another type than a pointer, an ordinal of 2^31 or more or a special one
/// other than -2 and -3, or a segment that isn't there, and that fixes a pointer without a segment, without the name or
/// the ordinal of a bind, without an address `__TEXT` of a rebase, that doesn't lie in memory, or that is fixed already.
#[tactic(auto, using(crate::proofs::RunLemmas::boths))]
pub fn run_ops(alloc: Global, image: &[u8]) -> Result<OpMap, OpsFault>
    ensures { Answers (OpsAt image.now) result }
{
    let Some(info) = info_of(image)? else {
        return Ok(Items::new(alloc));
    };
    let layout = layout_of(alloc, image)?;
    let rebased = run_table(
        alloc,
        image,
        &layout,
        Table::Rebases,
        info.rebases,
        Fixups::new(alloc),
    )?;
    let fixups = run_table(alloc, image, &layout, Table::Binds, info.binds, rebased)?;
    Ok(fixups.into_map(alloc)?)
}
