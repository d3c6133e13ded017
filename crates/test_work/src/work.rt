//! Atoms that stand one behind the other, with references whose fields they have.

ghost use Rattle.std.specs.Prelude.{◌≡◌, ◌≤◌, ◌↔◌, All, IfOk, IsTrue};
ghost use Rattle.std.specs.List.{AllPairs};
ghost use Rattle.patch.specs.Order.{StandsBefore};
ghost use Rattle.patch.specs.Range.{AreStanding, AreWork, HasFields, IsStanding, bytes_of};

use crate::fields::fields_are_in_order;
use mo_types::{LoadedFile, OutOfMemory};
use patch::{Meeting, PlacedWork};
use std::alloc::Global;

// The bytes of an atom, as its object has them.
#[tactic(auto, unfolding(patch::specs::Range::bytes_of))]
fn contents_of<'a>(files: &'a [LoadedFile], item: &PlacedWork) -> &'a [u8]
    ensures { result.now ≡ bytes_of files.now item.now }
{
    match files.get(item.file) {
        Some(file) => atom_cut::bytes_of(&file.object, &item.atom),
        None => &[],
    }
}

// Whether an atom's bytes stand within a piece.
fn is_standing(item: &PlacedWork, files: &[LoadedFile], from: u64, size: usize) -> bool
    ensures { IsTrue result ↔ IsStanding files.now from size item.now }
{
    let length = contents_of(files, item).len();
    if item.file >= files.len() || item.at < from || length > size {
        return false;
    }
    item.at - from <= (size - length) as u64
}

fn are_standing(work: &[PlacedWork], files: &[LoadedFile], from: u64, size: usize) -> bool
    ensures { IsTrue result ↔ All (IsStanding files.now from size) work.now }
{
    work.iter().all(|item| is_standing(item, files, from, size))
}

// Whether the bytes of an atom end where those of another one begin, or before.
fn stands_before(a: &PlacedWork, b: &PlacedWork, files: &[LoadedFile]) -> bool
    ensures { IsTrue result ↔ StandsBefore files.now a.now b.now }
{
    let length = contents_of(files, a).len() as u64;
    length <= b.at && a.at <= b.at - length
}

fn stand_in_order(work: &[PlacedWork], files: &[LoadedFile]) -> bool
    ensures { IsTrue result ↔ AllPairs (StandsBefore files.now) work.now }
{
    for i in 1..work.len() {
        if !stands_before(&work[i - 1], &work[i], files) {
            return false;
        }
    }
    true
}

// Whether atoms stand one behind the other in a piece of an image of so many bytes that begins at the offset `from` of
// its file.
fn work_stands(work: &[PlacedWork], files: &[LoadedFile], from: u64, size: usize) -> bool
    ensures { IsTrue result ↔ AreStanding files.now from size work.now }
{
    if !stand_in_order(work, files) {
        return false;
    }
    are_standing(work, files, from, size)
}

// Whether the fields of an atom's references lie apart in its bytes, by rising or by falling place.
fn has_fields<M: Meeting>(
    alloc: Global,
    item: &PlacedWork,
    files: &[LoadedFile],
    meeting: &M,
) -> Result<bool, OutOfMemory>
    requires ready { M.ready meeting.now }
    ensures { IfOk result (λ has. IsTrue has → HasFields files.now (M.mets_of meeting.now) item.now) }
{
    let mut next = 0;
    let mut mets = Vec::new(alloc);
    meeting.meet(item, &mut next, &mut mets)?;
    let size = contents_of(files, item).len();
    Ok(fields_are_in_order(item.address, size, mets.as_slice()))
}

fn have_fields<M: Meeting>(
    alloc: Global,
    work: &[PlacedWork],
    files: &[LoadedFile],
    meeting: &M,
) -> Result<bool, OutOfMemory>
    requires ready { M.ready meeting.now }
    ensures { IfOk result (λ have. IsTrue have → All (HasFields files.now (M.mets_of meeting.now)) work.now) }
{
    for item in work {
        if !has_fields(alloc, item, files, meeting)? {
            return Ok(false);
        }
    }
    Ok(true)
}

/// Whether atoms stand one behind the other in a piece of an image of so many bytes that begins at the offset `from` of
/// its file, and the fields of each one's references lie apart in its bytes, by rising or by falling place: then
/// `patch_range` may be called, and of a whole image `fill`. It takes one pass, and memory for the references of one atom
/// at a time.
pub fn are_work<M: Meeting>(
    alloc: Global,
    work: &[PlacedWork],
    files: &[LoadedFile],
    meeting: &M,
    from: u64,
    size: usize,
) -> Result<bool, OutOfMemory>
    requires ready { M.ready meeting.now }
    ensures { IfOk result (λ are. IsTrue are → AreWork files.now (M.mets_of meeting.now) from size work.now) }
{
    if !work_stands(work, files, from, size) {
        return Ok(false);
    }
    have_fields(alloc, work, files, meeting)
}
