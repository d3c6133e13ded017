//! Atoms with their fields in an image, placed by workers in threads of their own.

ghost use Rattle.std.specs.Prelude.{◌≡◌, ◌+◌, ◌<◌, ◌≤◌, ◌^◌, length};
ghost use Rattle.std.specs.Ordering.{is_gt};
ghost use denote.Param.Send.{IsSync};
ghost use Rattle.mo_types.specs.Keys.{compare_keys};
ghost use Rattle.patch.specs.Range.{AreWork, IsPatched, IsSameBeside};
ghost use Rattle.image_join.specs.inner.Halves.{IsFilled, least_of};

use crate::worker_range::WorkerRange;
use mo_outside::Gate;
use mo_types::{AtomKey, Loaded};
use patch::{Meeting, PatchFault, PlacedWork, patch_range};
use std::alloc::Global;
use std::thread::{Threads, join_mut};

/// Atoms with their places in an image, the loaded files whose objects have their bytes, and what their references mean.
#[derive_where(Clone, Copy)]
pub struct PlacedAtoms<'a, M> {
    pub work: &'a [PlacedWork],
    pub loaded: &'a Loaded,
    pub meeting: &'a M,
}

fn is_after(a: &AtomKey, b: &AtomKey) -> bool
    ensures { result ≡ is_gt (compare_keys a.now b.now) }
{
    a.cmp(b).is_gt()
}

// The fault of the lesser key, or the first one; want of memory in either comes before.
fn least_of(low: Result<(), PatchFault>, high: Result<(), PatchFault>) -> Result<(), PatchFault>
    ensures { result ≡ least_of low high }
{
    match (low, high) {
        (Err(PatchFault::Range { atom: a, .. }), Err(PatchFault::Range { atom: b, .. })) => {
            if is_after(&a, &b) { high } else { low }
        }
        (Err(PatchFault::Range { .. }), Ok(())) => low,
        (Err(PatchFault::OutOfMemory), _) => Err(PatchFault::OutOfMemory),
        (_, high) => high,
    }
}

// The first atom of those that the last workers place, where the first `low` of them place about as many bytes
// as are their share.
fn cut_of(work: &[PlacedWork], low: u32, workers: u32) -> usize
    requires work { 1 < length work.now }
    requires workers { 0 < workers }
    ensures { (0 < result) × (result < length work.now) }
{
    let start = work[0].at;
    let each = work[work.len() - 1].at.saturating_sub(start) / u64::from(workers);
    let middle = start.saturating_add(each.saturating_mul(u64::from(low)));
    work.partition_point(|item| item.at < middle)
        .clamp(1, work.len() - 1)
}

// Places atoms in a piece of the image that begins at the offset `from` of its file, by these workers. The piece is halved
// between two atoms and one half goes to a new thread, or comes last in this one where none can be started.
#[cycle(halves)]
fn fill_piece<R: Threads + Sync, G: Gate + Sync, M: Meeting + Sync>(
    rt: &R,
    alloc: Global,
    gate: &G,
    workers: WorkerRange,
    atoms: &PlacedAtoms<M>,
    from: u64,
    piece: &mut [u8],
) -> Result<(), PatchFault>
    requires ready { M.ready atoms.now.meeting.now }
    requires work { AreWork atoms.now.loaded.now.files (M.mets_of atoms.now.meeting.now) from (length piece.old) atoms.now.work.now }
    ensures { IsFilled atoms.now.loaded.now.files (M.mets_of atoms.now.meeting.now) from atoms.now.work.now piece.old piece.new result }
{
    let (work, loaded, meeting) = (atoms.work, atoms.loaded, atoms.meeting);
    if workers.count < 2 || work.len() < 2 {
        gate.pass(workers.first);
        return patch_range(alloc, piece, from, work, loaded, meeting);
    }
    let first = workers.first;
    let low = workers.count / 2;
    let high = workers.count - low;
    let next = first + low;
    let (before, behind) = work.split_at(cut_of(work, low, workers.count));
    let seam = behind[0].at;
    let (front, back) = piece.split_at_mut((seam - from) as usize);
    let mut place_low = || -> Result<(), PatchFault>
        requires { IsSync R.row × IsSync G.row × IsSync M.row × M.ready meeting.now × (first + low < 2 ^ 32)
            × AreWork loaded.now.files (M.mets_of meeting.now) from (length front.now) before.now }
        ensures { IsFilled loaded.entry.now.files (M.mets_of meeting.entry.now) from before.entry.now front.entry.now front.exit.now result }
    {
        let workers = WorkerRange { first, count: low };
        let atoms = PlacedAtoms {
            work: before,
            loaded,
            meeting,
        };
        fill_piece(rt, alloc, gate, workers, &atoms, from, front)
    };
    let mut place_high = || -> Result<(), PatchFault>
        requires { IsSync R.row × IsSync G.row × IsSync M.row × M.ready meeting.now × (next + high < 2 ^ 32)
            × AreWork loaded.now.files (M.mets_of meeting.now) seam (length back.now) behind.now }
        ensures { IsFilled loaded.entry.now.files (M.mets_of meeting.entry.now) seam behind.entry.now back.entry.now back.exit.now result }
    {
        let workers = WorkerRange {
            first: next,
            count: high,
        };
        let atoms = PlacedAtoms {
            work: behind,
            loaded,
            meeting,
        };
        fill_piece(rt, alloc, gate, workers, &atoms, seam, back)
    };
    let (low, high) = join_mut(rt, &mut place_low, &mut place_high);
    least_of(low, high)
}

/// Writes the bytes of atoms, as their objects have them, with the fields of their references, each at its place in
/// an image, and leaves all other bytes, as `patch_range` does.
///
/// The image is cut into as many pieces as there are workers, or as there are atoms where these are fewer, of about
/// equal bytes and each between two atoms. A worker passes the gate before its piece. Where values don't fit their
/// fields, it answers the first one of the atom with the least key; the bytes of the atoms' places are unstated
/// then. Each worker takes memory for the references of one atom at a time, and where a thread can't be started the
/// caller's thread does that work. No workers count as one.
pub fn fill<R: Threads + Sync, G: Gate + Sync, M: Meeting + Sync>(
    rt: &R,
    alloc: Global,
    gate: &G,
    workers: u32,
    image: &mut [u8],
    atoms: &PlacedAtoms<M>,
) -> Result<(), PatchFault>
    requires ready { M.ready atoms.now.meeting.now }
    requires work { AreWork atoms.now.loaded.now.files (M.mets_of atoms.now.meeting.now) 0 (length image.old) atoms.now.work.now }
    ensures beside { IsSameBeside atoms.now.loaded.now.files 0 atoms.now.work.now image.old image.new }
    ensures patched { IsPatched atoms.now.loaded.now.files (M.mets_of atoms.now.meeting.now) 0 atoms.now.work.now image.new result }
{
    let all = WorkerRange {
        first: 0,
        count: workers,
    };
    fill_piece(rt, alloc, gate, all, atoms, 0, image)
}
