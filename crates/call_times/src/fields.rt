//! Atoms with a reference of each kind, whose fields are written.
ghost use Rattle.std.specs.Prelude.{◌≤◌, ◌^◌};

use crate::objects::{BASE, Input, code_of, met_at, part_of, work_at};
use crate::once::{copy_atoms, write_once};
use anyhow::{Result, bail};
use mo_types::{Bytes, OutOfMemory, RefKind};
use patch::{Meeting, Met, PlacedWork, patch_range};
use std::alloc::Global;
use std::time::Instant;
use test_work::are_work;

// The bytes of an atom.
const ATOM: u64 = 200;

// The references of an atom.
const FIELDS: u64 = 4;

// The most atoms.
const MOST: u64 = 1 << 19;

// `bl`, `nop`, `adrp x0`, `add x0, x0`, and a pointer.
const CODE: &[u8] = b"\0\0\0\x94\x1f\x20\x03\xd5\0\0\0\x90\0\0\0\x91\0\0\0\0\0\0\0\0";

// The bytes of so many atoms, which are filled up with `nop`.
fn contents_of(alloc: Global, count: u64) -> Result<Bytes, OutOfMemory> {
    let mut contents = Vec::new(alloc);
    for _i in 0..count {
        contents.extend_from_slice(CODE)?;
        for _j in 0..44 {
            contents.extend_from_slice(b"\x1f\x20\x03\xd5")?;
        }
    }
    Bytes::from_vec(contents)
}

// The references of so many atoms: a branch, a page, an offset in a page and a pointer, each to another atom.
fn mets_of(alloc: Global, count: u64) -> Result<Vec<Met>, OutOfMemory>
    requires { count ≤ 2 ^ 19 }
{
    let mut mets = Vec::with_capacity(alloc, (count * FIELDS) as usize)?;
    for i in 0..count {
        let target = BASE + i * 7919 % count * ATOM;
        mets.push(met_at(0, RefKind::Branch, target))?;
        mets.push(met_at(8, RefKind::Page, target))?;
        mets.push(met_at(12, RefKind::PageOff, target))?;
        mets.push(met_at(16, RefKind::Pointer, target))?;
    }
    Ok(mets)
}

fn work_of(alloc: Global, count: u64) -> Result<Vec<PlacedWork>, OutOfMemory>
    requires { count ≤ 2 ^ 19 }
{
    let mut work = Vec::with_capacity(alloc, count as usize)?;
    for i in 0..count {
        work.push(work_at(i * ATOM, ATOM))?;
    }
    Ok(work)
}

fn input_of(alloc: Global, count: u64) -> Result<Input, OutOfMemory>
    requires { count ≤ 2 ^ 19 }
{
    let work = work_of(alloc, count)?;
    let mets = mets_of(alloc, count)?;
    let bytes = contents_of(alloc, count)?;
    let loaded = code_of(alloc, bytes)?;
    Ok(Input { loaded, work, mets })
}

// The references of atoms that stand one behind the other.
#[derive(Drop)]
struct Fields<'a> {
    mets: &'a [Met],
}

impl<'a> Meeting for Fields<'a> {
    ghost use Rattle.std.specs.Prelude.{◌*◌, ◌/◌, drop, take};

    ghost ready = { λ _. Unit {0} };

    ghost mets_of = { λ fields item. take 4 (drop (item.atom.key.offset / 200 * 4) fields.mets.now) };

    fn meet(
        &self,
        item: &PlacedWork,
        _next: &mut usize,
        mets: &mut Vec<Met>,
    ) -> Result<(), OutOfMemory> {
        let first = item.atom.key.offset / ATOM * FIELDS;
        mets.extend_from_slice(part_of(self.mets, first as usize, FIELDS as usize))?;
        Ok(())
    }
}

// Prints the microseconds of a copy, of `patch_range`, and of a pass that copies and writes in one.
fn timed(rt: &HostRuntime, input: &Input, image: &mut [u8], other: &mut [u8]) -> Result<()> {
    let (work, mets) = (input.work.as_slice(), input.mets.as_slice());
    let files = input.loaded.files.as_slice();
    copy_atoms(image, files, work);
    copy_atoms(other, files, work);
    let start = Instant::now(rt)?;
    copy_atoms(image, files, work);
    let copied = start.elapsed(rt)?.as_micros();
    let fields = Fields { mets };
    if !are_work(rt.alloc(), work, files, &fields, 0, image.len())? {
        bail!("the atoms or their fields aren't in order");
    }
    let start = Instant::now(rt)?;
    let fault = patch_range(rt.alloc(), image, 0, work, &input.loaded, &fields).is_err();
    let patched = start.elapsed(rt)?.as_micros();
    let start = Instant::now(rt)?;
    write_once(other, files, work, mets, FIELDS as usize);
    let once = start.elapsed(rt)?.as_micros();
    if fault || *image != *other {
        bail!("both ways should write the same");
    }
    eprintln!(rt; "{copied} {patched} {once}")?;
    Ok(())
}

fn patch_images(rt: &HostRuntime, input: &Input) -> Result<()> {
    let size = input.work.len().saturating_mul(ATOM as usize);
    let mut image = vec![in rt.alloc(); 0u8; size]?;
    let mut other = vec![in rt.alloc(); 0u8; size]?;
    timed(rt, input, image.as_mut_slice(), other.as_mut_slice())
}

/// Writes so many atoms into an image, and prints their number and that of their references.
pub(crate) fn patch_fields(rt: &HostRuntime, count: u64) -> Result<()> {
    if count > MOST {
        bail!("want a number of at most {MOST} atoms");
    }
    let input = input_of(rt.alloc(), count)?;
    patch_images(rt, &input)?;
    println!(rt; "{} {}", input.work.len(), input.mets.len())?;
    Ok(())
}
