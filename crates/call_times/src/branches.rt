//! Atoms with a branch each, which workers write into an image.
use crate::objects::{BASE, Input, code_of, met_at, part_of, work_at};
use anyhow::{Result, bail};
use image_join::{PlacedAtoms, fill};
use mo_outside::FreeGate;
use mo_types::{Bytes, OutOfMemory, RefKind};
use patch::{Meeting, Met, PlacedWork};
use std::alloc::Global;
use std::thread::Threads;
use std::time::Instant;
use test_work::are_work;

// The bytes of an atom.
const ATOM_SIZE: u64 = 48;

// Bytes that count from 0 to 250 again and again.
fn contents(alloc: Global, size: u64) -> Result<Bytes, OutOfMemory> {
    let mut bytes = Vec::with_capacity(alloc, size as usize)?;
    for i in 0..size {
        bytes.push((i % 251) as u8)?;
    }
    Bytes::from_vec(bytes)
}

fn work_of(alloc: Global, atoms: u32) -> Result<Vec<PlacedWork>, OutOfMemory> {
    let mut work = Vec::with_capacity(alloc, atoms as usize)?;
    for i in 0..u64::from(atoms) {
        work.push(work_at(ATOM_SIZE * i, ATOM_SIZE))?;
    }
    Ok(work)
}

// A branch to the first atom for each atom.
fn mets_of(alloc: Global, atoms: u32) -> Result<Vec<Met>, OutOfMemory> {
    let mut mets = Vec::with_capacity(alloc, atoms as usize)?;
    for _i in 0..atoms {
        mets.push(met_at(0, RefKind::Branch, BASE))?;
    }
    Ok(mets)
}

fn input_of(alloc: Global, atoms: u32) -> Result<Input, OutOfMemory> {
    let work = work_of(alloc, atoms)?;
    let mets = mets_of(alloc, atoms)?;
    let bytes = contents(alloc, ATOM_SIZE * u64::from(atoms))?;
    let loaded = code_of(alloc, bytes)?;
    Ok(Input { loaded, work, mets })
}

// The branches of atoms that stand one behind the other.
#[derive(Drop)]
struct Branches<'a> {
    mets: &'a [Met],
}

impl<'a> Meeting for Branches<'a> {
    ghost use Rattle.std.specs.Prelude.{◌/◌, drop, take};

    ghost ready = { λ _. Unit {0} };

    ghost mets_of = { λ branches item. take 1 (drop (item.atom.key.offset / 48) branches.mets.now) };

    fn meet(
        &self,
        item: &PlacedWork,
        _next: &mut usize,
        mets: &mut Vec<Met>,
    ) -> Result<(), OutOfMemory> {
        let first = item.atom.key.offset / ATOM_SIZE;
        mets.extend_from_slice(part_of(self.mets, first as usize, 1))?;
        Ok(())
    }
}

/// The sum of bytes modulo 2^64.
pub(crate) fn sum_of(bytes: &[u8]) -> u64 {
    let mut sum = 0u64;
    for byte in bytes {
        sum = sum.wrapping_add(u64::from(*byte));
    }
    sum
}

// Fills an image, and prints the microseconds that it took.
fn filled<T: Threads + Sync>(
    rt: &HostRuntime,
    threads: &T,
    workers: u32,
    input: &Input,
    image: &mut [u8],
) -> Result<()> {
    let (work, mets) = (input.work.as_slice(), input.mets.as_slice());
    let branches = Branches { mets };
    let files = input.loaded.files.as_slice();
    if !are_work(rt.alloc(), work, files, &branches, 0, image.len())? {
        bail!("the atoms or their fields aren't in order");
    }
    let start = Instant::now(rt)?;
    let atoms = PlacedAtoms {
        work,
        loaded: &input.loaded,
        meeting: &branches,
    };
    let fault = fill(threads, rt.alloc(), &FreeGate, workers, image, &atoms).is_err();
    let took = start.elapsed(rt)?;
    if fault {
        bail!("a branch doesn't reach");
    }
    eprintln!(rt; "{}", took.as_micros())?;
    Ok(())
}

fn fill_image<T: Threads + Sync>(
    rt: &HostRuntime,
    threads: &T,
    workers: u32,
    input: &Input,
) -> Result<()> {
    let size = input.work.len().saturating_mul(ATOM_SIZE as usize);
    let mut image = vec![in rt.alloc(); 0u8; size]?;
    filled(rt, threads, workers, input, image.as_mut_slice())?;
    println!(rt; "{}", sum_of(image.as_slice()))?;
    Ok(())
}

/// Has workers write so many atoms into an image, and prints the sum of its bytes, which is the same for every number of
/// workers.
pub(crate) fn fill_by<T: Threads + Sync>(
    rt: &HostRuntime,
    threads: &T,
    workers: u32,
    atoms: u32,
) -> Result<()> {
    let input = input_of(rt.alloc(), atoms)?;
    fill_image(rt, threads, workers, &input)
}
