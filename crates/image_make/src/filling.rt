//! A blank image, filled with its atoms.
ghost use Rattle.std.specs.Prelude.{◌≡◌, ◌<◌, ◌^◌, All, [], length};
ghost use Rattle.image_make.specs.Parts as parts;
ghost use Rattle.image_make.specs.inner.Filled.{IsFilled, IsTold};
ghost use Rattle.patch.specs.Range.{AreWork, HasBytes};
ghost use Rattle.ref_meet.specs.Mets.{mets_of};
ghost use Rattle.ref_meet.specs.Ready.{AreInOrder, IsReady, IsSound, met_by, scene_of};
ghost use Rattle.ref_meet.specs.inner.Orders.{AreOrders};

use crate::fault::MakeFault;
use crate::parts::linkedit_offset;
use fixup_chain::{ChainWord, Fixup};
use image_join::{PlacedAtoms, fill};
use mo_outside::Gate;
use mo_types::Bytes;
use patch::{PatchFault, PlacedWork};
use ref_meet::{AtomReferences, FileOrders, Scene};
use std::alloc::Global;
use std::thread::Threads;

/// What is laid out: where everything stands, the bytes of `__unwind_info`, the atoms with bytes, and the pointers that the
/// loader fills in.
#[derive(Clone, Copy)]
pub(crate) struct Laid<'a> {
    pub scene: &'a Scene<'a>,
    pub info: &'a Bytes,
    pub orders: &'a FileOrders,
    pub work: &'a [PlacedWork],
    pub fixups: &'a [Fixup],
}

// Each element of a slice of bytes is one.
fn are_bytes(bytes: &[u8])
    ensures { All (λ byte. byte < 256) bytes.now }
{
    let _ = bytes;
}

// What each atom has in a slice of bytes are bytes.
fn have_bytes(atoms: &PlacedAtoms<AtomReferences>, image: &[u8])
    ensures { All (HasBytes atoms.now.loaded.now.files 0 image.now) atoms.now.work.now }
{
    let _ = atoms;
    are_bytes(image);
}

// An image with its atoms, which stand one behind the other, each with the fields of its references, written by so many
// workers.
fn fill_image<R: Threads + Sync, G: Gate + Sync>(
    rt: &R,
    alloc: Global,
    gate: &G,
    workers: u32,
    atoms: &PlacedAtoms<AtomReferences>,
    blank: Vec<u8>,
) -> Result<Bytes, MakeFault>
    requires ready { IsReady atoms.now.meeting.now }
    requires work { AreWork atoms.now.loaded.now.files (met_by atoms.now.meeting.now) 0 (length blank.items) atoms.now.work.now }
    ensures { IsFilled atoms.now.loaded.now.files (met_by atoms.now.meeting.now) atoms.now.work.now blank.items result }
{
    let mut image = blank;
    match fill(rt, alloc, gate, workers, image.as_mut_slice(), atoms) {
        Ok(()) => {
            let image = Bytes::from_vec(image)?;
            have_bytes(atoms, image.as_slice());
            Ok(image)
        }
        Err(PatchFault::Range { atom, fault }) => Err(MakeFault::Range {
            atom: Some(atom),
            fault,
        }),
        Err(PatchFault::OutOfMemory) => Err(MakeFault::OutOfMemory),
    }
}

/// An image with its atoms, where pointers have these words.
pub(crate) fn fill_laid<R: Threads + Sync, G: Gate + Sync>(
    rt: &R,
    alloc: Global,
    gate: &G,
    workers: u32,
    laid: &Laid,
    words: &[ChainWord],
    blank: Vec<u8>,
) -> Result<Bytes, MakeFault>
    requires sound { IsSound (scene_of laid.now.scene.now) }
    requires orders { AreOrders laid.now.scene.now.loaded.now.files laid.now.orders.now }
    requires words { AreInOrder words.now }
    requires work { AreWork laid.now.scene.now.loaded.now.files (mets_of (scene_of laid.now.scene.now) words.now) 0 (length blank.items) laid.now.work.now }
    ensures { IsFilled laid.now.scene.now.loaded.now.files (mets_of (scene_of laid.now.scene.now) words.now) laid.now.work.now blank.items result }
{
    let meets = AtomReferences::of(alloc, laid.scene, laid.orders, words)?;
    let atoms = PlacedAtoms {
        work: laid.work,
        loaded: laid.scene.loaded,
        meeting: &meets,
    };
    fill_image(rt, alloc, gate, workers, &atoms, blank)
}

/// Whether all fields can hold their values, but for pointers', or the first value that is out of range. They are written
/// into zeros for this, as many as the image has bytes before `__LINKEDIT`: it is asked for where there is no image.
pub(crate) fn told_fault<R: Threads + Sync, G: Gate + Sync>(
    rt: &R,
    alloc: Global,
    gate: &G,
    workers: u32,
    laid: &Laid,
) -> Result<(), MakeFault>
    requires sound { IsSound (scene_of laid.now.scene.now) }
    requires orders { AreOrders laid.now.scene.now.loaded.now.files laid.now.orders.now }
    requires work { AreWork laid.now.scene.now.loaded.now.files (mets_of (scene_of laid.now.scene.now) []) 0 (parts.linkedit_offset laid.now.scene.now.layout.now.segments) laid.now.work.now }
    ensures { IsTold laid.now.scene.now.loaded.now.files (mets_of (scene_of laid.now.scene.now) []) laid.now.work.now result }
{
    let size = linkedit_offset(laid.scene.layout.segments.as_slice());
    let zeros = vec![in alloc; 0u8; size as usize]?;
    let _image = fill_laid(rt, alloc, gate, workers, laid, &[], zeros)?;
    Ok(())
}
