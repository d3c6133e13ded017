//! The atoms of a piece of an image, with their fields.

ghost use Rattle.std.specs.Prelude.{◌≡◌, ◌+◌, ◌≤◌, All, IfErr, IfOk, OnOk, None, length};
ghost use Rattle.std.specs.Ordering.{is_gt};
ghost use Rattle.mo_types.specs.Keys.{compare_keys};
ghost use Rattle.patch.specs.Patched.{AreFields, IsFirstFault};
ghost use Rattle.patch.specs.Range.{AreWork, HasFields, IsLeastFault, IsPatched, IsPlaced, IsSameBeside, IsStanding, bytes_of};
ghost use Rattle.patch.specs.inner.Found.{IsBesideOne, IsLeastSo, IsOnePatched, lesser};

use crate::atom::{patch_atom, write_fields};
use crate::meeting::Meeting;
use crate::met::{Met, RangeFault};
use mo_types::{Atom, AtomKey, Loaded, LoadedFile, OutOfMemory};
use std::alloc::Global;

/// An atom with its place in the image.
#[derive(Clone, Copy, Debug, PartialEq, Eq)]
pub struct PlacedWork {
    pub atom: Atom,
    /// The place of its file among the loaded ones, counted from 0.
    pub file: usize,
    /// Where its bytes begin in the image's file, in bytes.
    pub at: u64,
    /// Where they begin in memory.
    pub address: u64,
}

/// Why atoms aren't placed.
#[derive(Clone, Copy, Debug, PartialEq, Eq)]
pub enum PatchFault {
    /// A value doesn't fit its field: the first one of the atom with the least key.
    Range { atom: AtomKey, fault: RangeFault },
    /// Memory was asked for and refused.
    OutOfMemory,
}

impl From<OutOfMemory> for PatchFault {
    ghost use Rattle.std.specs.Prelude.{◌≡◌};
    ghost use Rattle.patch.specs.declared.range.PatchFault.TheVariants as fault;

    ghost from_gives = { λ _ e. e ≡ fault.OutOfMemory };

    fn from(_e: OutOfMemory) -> PatchFault {
        PatchFault::OutOfMemory
    }
}

// Why one atom isn't placed.
#[derive(Clone, Copy)]
enum Trouble {
    Range(RangeFault),
    OutOfMemory,
}

impl From<OutOfMemory> for Trouble {
    ghost use Rattle.std.specs.Prelude.{◌≡◌};
    ghost use Rattle.patch.specs.declared.range.Trouble.TheVariants as trouble;

    ghost from_gives = { λ _ e. e ≡ trouble.OutOfMemory };

    fn from(_e: OutOfMemory) -> Trouble {
        Trouble::OutOfMemory
    }
}

// The references of the atom that was met last, and where they ended among those of the image.
#[derive(Drop)]
struct LastMet {
    mets: Vec<Met>,
    next: usize,
}

// A fault with the atom that has it.
#[derive(Clone, Copy)]
struct Fault {
    key: AtomKey,
    fault: RangeFault,
}

fn is_after(a: &AtomKey, b: &AtomKey) -> bool
    ensures { result ≡ is_gt (compare_keys a.now b.now) }
{
    a.cmp(b).is_gt()
}

// The fault of the lesser key, or the earlier one.
fn lesser(least: Option<Fault>, fault: Fault) -> Option<Fault>
    ensures { result ≡ lesser least fault }
{
    match least {
        Some(other) if !is_after(&other.key, &fault.key) => Some(other),
        _ => Some(fault),
    }
}

// The bytes of an atom, as its object has them.
#[tactic(auto, unfolding(crate::specs::Range::bytes_of))]
fn contents_of<'a>(files: &'a [LoadedFile], item: &PlacedWork) -> &'a [u8]
    ensures { result.now ≡ bytes_of files.now item.now }
{
    match files.get(item.file) {
        Some(file) => atom_cut::bytes_of(&file.object, &item.atom),
        None => &[],
    }
}

// The references of an atom, in place of those of another one.
fn met_for<M: Meeting>(
    meeting: &M,
    item: &PlacedWork,
    last: &mut LastMet,
) -> Result<(), OutOfMemory>
    requires ready { M.ready meeting.now }
    ensures { OnOk result (last.new.mets.items ≡ M.mets_of meeting.now item.now) }
{
    last.mets.clear();
    meeting.meet(item, &mut last.next, &mut last.mets)
}

// Writes the bytes of an atom with its fields. Only where a value doesn't fit, all are asked for the first fault.
#[tactic(auto, using(crate::proofs::RangeLemmas::placed))]
fn place(
    piece: &mut [u8],
    from: u64,
    item: &PlacedWork,
    files: &[LoadedFile],
    mets: &[Met],
) -> Result<(), RangeFault>
    requires standing { IsStanding files.now from (length piece.old) item.now }
    requires fields { AreFields item.now.address (length (bytes_of files.now item.now)) mets.now }
    ensures beside { IsBesideOne files.now from item.now piece.old piece.new }
    ensures placed { OnOk result (IsPlaced files.now (λ _. mets.now) from piece.new item.now) }
    ensures fault { IfErr result (IsFirstFault item.now.address (bytes_of files.now item.now) mets.now) }
{
    let contents = contents_of(files, item);
    let at = (item.at - from) as usize;
    let bytes = &mut piece[at..at + contents.len()];
    bytes.copy_from_slice(contents);
    if write_fields(bytes, item.address, mets) {
        return Ok(());
    }
    bytes.copy_from_slice(contents);
    patch_atom(bytes, item.address, mets)
}

// Writes the bytes of an atom whose references are met first, in place of those of the one before it.
#[tactic(auto, using(crate::proofs::RangeLemmas::ones))]
fn place_next<M: Meeting>(
    piece: &mut [u8],
    from: u64,
    item: &PlacedWork,
    files: &[LoadedFile],
    meeting: &M,
    last: &mut LastMet,
) -> Result<(), Trouble>
    requires ready { M.ready meeting.now }
    requires standing { IsStanding files.now from (length piece.old) item.now }
    requires fields { HasFields files.now (M.mets_of meeting.now) item.now }
    ensures beside { IsBesideOne files.now from item.now piece.old piece.new }
    ensures patched { IsOnePatched files.now (M.mets_of meeting.now) from piece.new item.now result }
{
    met_for(meeting, item, last)?;
    match place(piece, from, item, files, last.mets.as_slice()) {
        Ok(()) => Ok(()),
        Err(fault) => Err(Trouble::Range(fault)),
    }
}

// Writes the bytes of atoms with their fields, and answers the first fault of the least key.
#[tactic(auto, using(crate::proofs::RangeLemmas::ranges))]
fn place_all<M: Meeting>(
    alloc: Global,
    piece: &mut [u8],
    from: u64,
    work: &[PlacedWork],
    files: &[LoadedFile],
    meeting: &M,
) -> Result<Option<Fault>, OutOfMemory>
    requires ready { M.ready meeting.now }
    requires work { AreWork files.now (M.mets_of meeting.now) from (length piece.old) work.now }
    ensures beside { IsSameBeside files.now from work.now piece.old piece.new }
    ensures placed { IfOk result (λ least. least ≡ None → All (IsPlaced files.now (M.mets_of meeting.now) from piece.new) work.now) }
    ensures fault { IfOk result (λ least. IsLeastSo files.now (M.mets_of meeting.now) work.now least) }
{
    let mut least = None;
    let mut last = LastMet {
        mets: Vec::new(alloc),
        next: 0,
    };
    for item in work {
        match place_next(piece, from, item, files, meeting, &mut last) {
            Ok(()) => {}
            Err(Trouble::Range(fault)) => {
                let key = item.atom.key;
                least = lesser(least, Fault { key, fault });
            }
            Err(Trouble::OutOfMemory) => return Err(OutOfMemory),
        }
    }
    Ok(least)
}

/// Writes the bytes of atoms, as their objects have them, with the fields of their references, each at its place in
/// a piece of an image that begins at the offset `from` of its file, and leaves all other bytes.
///
/// Where values don't fit their fields, it answers the first one of the atom with the least key; the bytes of the
/// atoms' places are unstated then. It takes memory for the references of one atom at a time.
#[tactic(auto, using(crate::proofs::RangeLemmas::answers))]
pub fn patch_range<M: Meeting>(
    alloc: Global,
    piece: &mut [u8],
    from: u64,
    work: &[PlacedWork],
    loaded: &Loaded,
    meeting: &M,
) -> Result<(), PatchFault>
    requires ready { M.ready meeting.now }
    requires work { AreWork loaded.now.files (M.mets_of meeting.now) from (length piece.old) work.now }
    ensures beside { IsSameBeside loaded.now.files from work.now piece.old piece.new }
    ensures patched { IsPatched loaded.now.files (M.mets_of meeting.now) from work.now piece.new result }
{
    match place_all(alloc, piece, from, work, loaded.files.as_slice(), meeting)? {
        Some(Fault { key, fault }) => Err(PatchFault::Range { atom: key, fault }),
        None => Ok(()),
    }
}
