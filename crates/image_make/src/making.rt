//! The image of the atoms that are kept.
ghost use Rattle.std.specs.Prelude.{◌≡◌, ◌+◌, ◌<◌, ◌≤◌, ◌^◌, Err, length, pos};
ghost use Rattle.std.specs.List.Sorted.{IsStrictlySortedBy};
ghost use Rattle.fixup_chain.specs.Chained.{AreChains, AreMany, IsCause};
ghost use Rattle.image_make.specs.Atoms.{AreLow, AreRising};
ghost use Rattle.image_make.specs.Frames.{HaveFrames};
ghost use Rattle.image_make.specs.Inputs.{inputs_of, inputs_with};
ghost use Rattle.image_make.specs.Made.{IsMade, IsMadeWith, binds_of, kept_of};
ghost use Rattle.image_make.specs.Near.{AreNear};
ghost use Rattle.image_make.specs.Parts as parts;
ghost use Rattle.image_make.specs.inner.Laid.{IsEncoded, IsLaidOut, IsSized};
ghost use Rattle.mo_types.specs.Keys.{compare_keys};
ghost use Rattle.mo_types.specs.Loaded.{IsWholeLoaded};

use crate::fault::MakeFault;
use crate::filling::{Laid, fill_laid, told_fault};
use crate::flags::bound_flags;
use crate::front::{base_of, front_of};
use crate::kept::kept_atoms;
use crate::laying::lay_out;
use crate::parts::{blank_image, linkedit_address};
use crate::rows::work_of;
use crate::unfit::{PointerFault, first_fault};
use command_line::Command;
use fixup_chain::{ChainFault, Chains, encode};
use lib_bind::Libraries;
use mo_outside::Gate;
use mo_types::{Bytes, Goal, KeyList, Loaded};
use patch::RangeFault;
use ref_meet::{Scene, fixups_of, orders_of};
use resolve::GoalTable;
use sect_place::{IslandPlan, PlaceFault};
use slot_plan::Slots;
use std::alloc::Global;
use std::thread::Threads;
use symbol_winners::SymbolTable;
use unwind_link::KeptUnwinds;

/// What an image is made of.
#[derive(Clone, Copy)]
pub struct ImageInputs<'a> {
    pub command: &'a Command,
    pub libs: &'a Libraries,
    pub loaded: &'a Loaded,
    pub symbols: &'a SymbolTable<'a>,
    /// The goals of each file's symbols.
    pub goals: &'a GoalTable,
    /// The atoms that are kept, by rising key.
    pub keys: &'a KeyList,
    /// The header's flags but for those that its pointers and sections tell (`loader.h`: MH_DYLDLINK and its kin).
    pub flags: u32,
    /// Where the program begins.
    pub entry: &'a Goal,
    pub slots: &'a Slots,
    pub islands: &'a IslandPlan,
    /// The unwind entries of the kept atoms.
    pub unwinds: &'a KeptUnwinds,
}

/// An image has fewer bytes than these.
const IMAGE_SIZE: u64 = 1 << 32;

// A number of bytes with those behind them.
fn with_bytes(size: u64, bytes: &[u8]) -> u64
    requires { size < 2 ^ 63 }
    ensures { result ≡ size + length bytes.now }
{
    size + bytes.len() as u64
}

// The bytes of an image with these chains.
fn whole_size(laid: &Laid, chains: &Chains) -> u64
    requires { IsSized laid.now }
    ensures { result ≡ parts.whole_size laid.now.scene.now.base laid.now.scene.now.layout.now chains.now }
{
    let end = linkedit_address(laid.scene.layout.segments.as_slice());
    with_bytes(end.saturating_sub(laid.scene.base), chains.blob.as_slice())
}

// An image would have so many bytes.
fn size_fault(size: u64) -> MakeFault
    ensures { result ≡ MakeFault.Place (PlaceFault.ImageSize (pos size)) }
{
    MakeFault::Place(PlaceFault::ImageSize {
        value: i128::from(size),
    })
}

// Why there is no image that is as large as these chains make it: a value is out of range, or else its size.
fn overlong<R: Threads + Sync, G: Gate + Sync>(
    rt: &R,
    alloc: Global,
    gate: &G,
    threads: u32,
    inputs: &ImageInputs,
    laid: &Laid,
    chains: &Chains,
) -> MakeFault
    requires laid { IsLaidOut (inputs_with inputs.now laid.now.info.now) laid.now }
    requires chains { AreChains laid.now.scene.now.layout.now laid.now.fixups.now chains.now }
    requires long { 2 ^ 32 ≤ parts.whole_size laid.now.scene.now.base laid.now.scene.now.layout.now chains.now }
    ensures { IsMadeWith (inputs_with inputs.now laid.now.info.now) (Err result) }
{
    let _ = inputs;
    match told_fault(rt, alloc, gate, threads, laid) {
        Ok(()) => size_fault(whole_size(laid, chains)),
        Err(fault) => fault,
    }
}

// The image with these chains, which has fewer than 2^32 bytes.
fn image_with<R: Threads + Sync, G: Gate + Sync>(
    rt: &R,
    alloc: Global,
    gate: &G,
    threads: u32,
    inputs: &ImageInputs,
    laid: &Laid,
    chains: Chains,
) -> Result<Bytes, MakeFault>
    requires laid { IsLaidOut (inputs_with inputs.now laid.now.info.now) laid.now }
    requires chains { AreChains laid.now.scene.now.layout.now laid.now.fixups.now chains }
    requires few { parts.whole_size laid.now.scene.now.base laid.now.scene.now.layout.now chains < 2 ^ 32 }
    ensures { IsMadeWith (inputs_with inputs.now laid.now.info.now) result }
{
    let layout = laid.scene.layout;
    let flags = inputs.flags + bound_flags(laid.fixups, layout.sections.as_slice());
    let front = front_of(
        alloc,
        inputs.command,
        inputs.libs,
        laid.scene,
        &chains,
        flags,
        inputs.entry,
    )?;
    let Chains { words, blob } = chains;
    let words = words.as_slice();
    let info = laid.info.clone()?;
    let blank = blank_image(alloc, layout, inputs.slots, info, words, blob, front)?;
    fill_laid(rt, alloc, gate, threads, laid, words, blank)
}

// Why there is no image where pointers have no chains.
fn refused<R: Threads + Sync, G: Gate + Sync>(
    rt: &R,
    alloc: Global,
    gate: &G,
    threads: u32,
    inputs: &ImageInputs,
    laid: &Laid,
    why: ChainFault,
) -> MakeFault
    requires laid { IsLaidOut (inputs_with inputs.now laid.now.info.now) laid.now }
    requires cause { IsCause laid.now.scene.now.layout.now laid.now.fixups.now why }
    ensures { IsMadeWith (inputs_with inputs.now laid.now.info.now) (Err result) }
{
    match why {
        ChainFault::Range {
            atom,
            place,
            kind,
            value,
        } => {
            let fault = RangeFault {
                file_place: place,
                kind,
                value,
            };
            let pointer = PointerFault { atom, fault };
            first_fault(rt, alloc, gate, threads, inputs, laid, pointer)
        }
        ChainFault::Limit(_) => unreachable!(),
        ChainFault::OutOfMemory => MakeFault::OutOfMemory,
    }
}

// The image of what is laid out, or why there is none.
fn image_of<R: Threads + Sync, G: Gate + Sync>(
    rt: &R,
    alloc: Global,
    gate: &G,
    threads: u32,
    inputs: &ImageInputs,
    laid: &Laid,
    chains: Result<Chains, ChainFault>,
) -> Result<Bytes, MakeFault>
    requires laid { IsLaidOut (inputs_with inputs.now laid.now.info.now) laid.now }
    requires chains { IsEncoded laid.now.scene.now.layout.now laid.now.fixups.now chains }
    ensures { IsMadeWith (inputs_with inputs.now laid.now.info.now) result }
{
    match chains {
        Ok(chains) => {
            if whole_size(laid, &chains) < IMAGE_SIZE {
                image_with(rt, alloc, gate, threads, inputs, laid, chains)
            } else {
                Err(overlong(rt, alloc, gate, threads, inputs, laid, &chains))
            }
        }
        Err(why) => Err(refused(rt, alloc, gate, threads, inputs, laid, why)),
    }
}

/// The image of the atoms that are kept: its header with the load commands, stubs, slots, each atom at its place with the
/// fields of its references, `__unwind_info`, and the chains of pointers that the loader fills in, written by so many workers;
/// or why there is none. Everything stands in one allocation, in which each byte of an object is written once. There are to be
/// fewer than 2^24 imports. The entry and what references lead to are to lie within 2^63 bytes of the start of their atoms:
/// these stand below 2^33 in an image, so that each address has 64 bits.
pub fn make_image<R: Threads + Sync, G: Gate + Sync>(
    rt: &R,
    alloc: Global,
    gate: &G,
    threads: u32,
    inputs: &ImageInputs,
) -> Result<Bytes, MakeFault>
    requires whole { IsWholeLoaded inputs.now.loaded.now }
    requires keys { IsStrictlySortedBy compare_keys inputs.now.keys.now }
    requires rising { AreRising (kept_of (inputs_of inputs.now)) }
    requires low { AreLow (kept_of (inputs_of inputs.now)) }
    requires near { AreNear (inputs_of inputs.now) }
    requires frames { HaveFrames (inputs_of inputs.now) }
    requires flags { inputs.now.flags < 2 ^ 31 }
    requires few { ¬ AreMany (binds_of (inputs_of inputs.now)) }
    ensures { IsMade (inputs_of inputs.now) result }
{
    let kept = kept_atoms(alloc, inputs.loaded, inputs.symbols, inputs.keys)?;
    let laying = lay_out(alloc, inputs, &kept)?;
    let work = work_of(alloc, &kept, &laying.layout)?;
    drop(kept);
    let orders = orders_of(alloc, inputs.loaded.files.as_slice())?;
    let scene = Scene {
        loaded: inputs.loaded,
        goals: inputs.goals,
        symbols: inputs.symbols,
        layout: &laying.layout,
        slots: inputs.slots,
        base: base_of(inputs.command),
    };
    let fixups = fixups_of(alloc, &scene, &orders, work.as_slice())?;
    let laid = Laid {
        scene: &scene,
        info: &laying.info,
        orders: &orders,
        work: work.as_slice(),
        fixups: fixups.as_slice(),
    };
    let chains = encode(alloc, &fixups, &laying.layout);
    image_of(rt, alloc, gate, threads, inputs, &laid, chains)
}
