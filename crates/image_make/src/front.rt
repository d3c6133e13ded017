//! The header of an image with its load commands.
ghost use Rattle.std.specs.Prelude.{◌≡◌, ◌-◌, IfOk};
ghost use Rattle.std.specs.Option.{option_map};
ghost use Rattle.image_make.specs.Parts as spec;
ghost use Rattle.load_cmds.specs.Commands.{commands_of};
ghost use Rattle.ref_meet.specs.Addresses.{entry_address};
ghost use Rattle.ref_meet.specs.Near.{IsNear};
ghost use Rattle.ref_meet.specs.Ready.{IsSound, scene_of};
ghost use Rattle.sect_place.specs.Layout.{base_of};
ghost use Rattle.sect_place.specs.Whole.{IsWholeLayout};

use crate::laying::PARTS_THERE;
use crate::parts::linkedit_offset;
use command_line::Command;
use fixup_chain::Chains;
use lib_bind::Libraries;
use load_cmds::{PartPlace, PartSizes, commands};
use mo_types::{Bytes, Goal, OutOfMemory};
use ref_meet::{Scene, entry_address};
use sect_place::Layout;
use std::alloc::Global;

/// Where `__TEXT` begins in memory: in an executable behind `__PAGEZERO`, in a library at 0.
pub(crate) fn base_of(command: &Command) -> u64
    ensures { result ≡ base_of command.now }
{
    if command.dylib { 0 } else { 1 << 32 }
}

const NO_PLACE: PartPlace = PartPlace { offset: 0, size: 0 };

// The parts of an image and what else its load commands tell.
fn parts_of(flags: u32, entryoff: Option<u64>, layout: &Layout, chains: &Chains) -> PartSizes
    ensures { result ≡ spec.parts_of flags entryoff layout.now chains.now }
{
    PartSizes {
        there: PARTS_THERE,
        fixups: PartPlace {
            offset: linkedit_offset(layout.segments.as_slice()),
            size: chains.blob.len() as u64,
        },
        trie: NO_PLACE,
        symbols: NO_PLACE,
        indirect: NO_PLACE,
        strings: NO_PLACE,
        signature: NO_PLACE,
        locals: 0,
        exported: 0,
        undefined: 0,
        entryoff: entryoff.unwrap_or(0),
        flags,
    }
}

// Where a program begins that has its entry in a goal, from the image's start.
fn entry_offset(scene: &Scene, entry: &Goal) -> Option<u64>
    requires sound { IsSound (scene_of scene.now) }
    requires near { IsNear entry.now }
    ensures { result ≡ option_map (λ address. address - scene.now.base) (entry_address (scene_of scene.now) entry.now) }
{
    let address = entry_address(scene, entry)?;
    Some(address.saturating_sub(scene.base))
}

/// The header, of these flags, with the load commands of an image that begins at a goal and has these chains.
pub(crate) fn front_of(
    alloc: Global,
    command: &Command,
    libs: &Libraries,
    scene: &Scene,
    chains: &Chains,
    flags: u32,
    entry: &Goal,
) -> Result<Bytes, OutOfMemory>
    requires whole { IsWholeLayout scene.now.layout.now }
    requires sound { IsSound (scene_of scene.now) }
    requires near { IsNear entry.now }
    ensures { IfOk result (λ front. front ≡ commands_of scene.now.layout.now
        (spec.parts_of flags (option_map (λ address. address - scene.now.base) (entry_address (scene_of scene.now) entry.now)) scene.now.layout.now chains.now)
        command.now libs.now) }
{
    let parts = parts_of(flags, entry_offset(scene, entry), scene.layout, chains);
    commands(alloc, scene.layout, &parts, command, libs)
}
