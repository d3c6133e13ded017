//! Parts and atoms in images that were put together by hand.

ghost use Rattle.std.specs.Prelude.{◌≡◌, ◌+◌, ◌≤◌, IsTrue, length};
ghost use Rattle.image_join.specs.Joined.{AreRising};

use crate::fields::{object, work};
use crate::listed::{Listed, one_each};
use image_join::{Part, PartList, Parts, PlacedAtoms, fill, join};
use mo_outside::{FreeGate, Gate, MeetGate};
use mo_types::{AtomKey, Bytes, Loaded, OutOfMemory, RangeKind, RefKind};
use patch::{Met, PatchFault, PlacedWork, RangeFault};
use std::alloc::Global;
use std::test::Fail;
use std::thread::Threads;
use test_objects::{file, file_id, key, only};
use test_work::are_work;

// ---- parts

// Whether parts begin at a place at the earliest, rise without overlapping, and end at another one at the latest.
fn are_rising(start: u64, end: u64, parts: &[Part]) -> bool
    ensures { IsTrue result → AreRising start end parts.now }
{
    match parts {
        [] => start <= end,
        [part, others @ ..] => {
            let length = part.bytes.len() as u64;
            start <= part.from
                && part.from <= u64::MAX - length
                && are_rising(part.from + length, end, others)
        }
    }
}

// The image of parts that lie apart, as a row gives them: each with its place.
fn joined_of(
    alloc: Global,
    size: u64,
    rows: &[(u64, &'static [u8])],
) -> Result<Vec<u8>, OutOfMemory> {
    let mut list = PartList::new(alloc);
    for row in rows {
        list.push(Part {
            from: row.0,
            bytes: Bytes::from_static(row.1),
        })?;
    }
    let parts = Parts { size, parts: list };
    if size >= 1 << 32 || !are_rising(0, size, parts.parts.as_slice()) {
        return Ok(Vec::new(alloc));
    }
    join(alloc, &parts)
}

fn is_joined(
    alloc: Global,
    size: u64,
    rows: &[(u64, &'static [u8])],
    want: &[u8],
) -> Result<bool, OutOfMemory> {
    let image = joined_of(alloc, size, rows)?;
    Ok(image.as_slice() == want)
}

fn many_rows(alloc: Global) -> Result<Vec<(u64, &'static [u8])>, OutOfMemory> {
    let mut many: Vec<(u64, &'static [u8])> = Vec::new(alloc);
    for i in 0..5000u64 {
        many.push((3 * i + 1, b"#."))?;
    }
    Ok(many)
}

fn many_are_in_place(image: &[u8]) -> bool {
    for (i, byte) in image.iter().enumerate() {
        let want = match i % 3 {
            0 => 0,
            1 => b'#',
            _ => b'.',
        };
        if *byte != want {
            return false;
        }
    }
    image.len() == 15_000
}

fn many_are_joined(alloc: Global) -> Result<bool, OutOfMemory> {
    let many = many_rows(alloc)?;
    let image = joined_of(alloc, 15_000, many.as_slice())?;
    Ok(many_are_in_place(image.as_slice()))
}

// Parts that lie apart, one part that is all, none, and thousands.
#[test]
fn parts_stand_at_their_places(rt: HostRuntime) -> Result<(), Fail> {
    let alloc = rt.alloc();
    let apart: [(u64, &'static [u8]); 4] = [(2, b"ab"), (4, b"c"), (9, b""), (12, b"wxyz")];
    assert!(rt; is_joined(alloc, 16, &apart, b"\0\0abc\0\0\0\0\0\0\0wxyz")?);
    assert!(rt; is_joined(alloc, 3, &[(0, b"xyz")], b"xyz")?);
    assert!(rt; is_joined(alloc, 5, &[], &[0; 5])?);
    assert!(rt; many_are_joined(alloc)?);
    Ok(())
}

// ---- atoms

// One file of one section with these contents.
fn loaded(alloc: Global, contents: &[u8]) -> Result<Loaded, OutOfMemory> {
    let object = object(alloc, Bytes::from_slice(alloc, contents)?)?;
    only(alloc, file(alloc, file_id(0), object))
}

// A branch at an atom's start to an address.
fn branch(file_place: u64, value: u64) -> Met {
    Met {
        place: 0,
        file_place,
        kind: RefKind::Branch,
        value,
        minus: 0,
        addend: 0,
    }
}

// So many words `bl`, as `llvm-mc` spells one to itself.
fn branches(alloc: Global, count: u64) -> Result<Loaded, OutOfMemory> {
    let mut contents = Vec::new(alloc);
    for _ in 0..count {
        contents.extend_from_slice(b"\0\0\0\x94")?;
    }
    loaded(alloc, contents.as_slice())
}

// Fills an image, where its atoms stand there one behind the other, so many bytes apart, each with a row of references whose
// fields it has.
fn filled<R: Threads + Sync, G: Gate + Sync>(
    rt: &R,
    alloc: Global,
    gate: &G,
    workers: u32,
    image: &mut [u8],
    items: &[PlacedWork],
    loaded: &Loaded,
    apart: u64,
    rows: &[&[Met]],
) -> Result<Option<Result<(), PatchFault>>, OutOfMemory> {
    if apart == 0 {
        return Ok(None);
    }
    let listed = Listed {
        from: 0,
        apart,
        rows,
    };
    let files = loaded.files.as_slice();
    if !are_work(alloc, items, files, &listed, 0, image.len())? {
        return Ok(None);
    }
    let atoms = PlacedAtoms {
        work: items,
        loaded,
        meeting: &listed,
    };
    Ok(Some(fill(rt, alloc, gate, workers, image, &atoms)))
}

// Atoms, of which the last one of the section comes first, so many bytes apart.
fn works(alloc: Global, count: u32, apart: u64) -> Result<Vec<PlacedWork>, OutOfMemory> {
    let count = u64::from(count);
    let mut items = Vec::new(alloc);
    for i in 0..count {
        let offset = 4 * (count - 1 - i);
        items.push(work(0, offset, apart.wrapping_mul(i)))?;
    }
    Ok(items)
}

fn branches_to_start(alloc: Global, count: u32) -> Result<Vec<Met>, OutOfMemory> {
    let mut mets = Vec::new(alloc);
    for _ in 0..count {
        mets.push(branch(0x200, 0x1_0000_0000))?;
    }
    Ok(mets)
}

// Every second word of an image of `2 * count` words is an atom, the last one of the section first; the atom at the
// place i of the image branches i words back, to the image's start.
fn branches_are_filled<R: Threads + Sync, G: Gate + Sync>(
    rt: &R,
    alloc: Global,
    gate: &G,
    workers: u32,
    count: u32,
) -> Result<bool, OutOfMemory> {
    let items = works(alloc, count, 8)?;
    let mets = branches_to_start(alloc, count)?;
    let rows = one_each(alloc, mets.as_slice())?;
    let loaded = branches(alloc, u64::from(count))?;
    let mut image = vec![in alloc; 0xee; 8 * count as usize]?;
    let answer = filled(
        rt,
        alloc,
        gate,
        workers,
        image.as_mut_slice(),
        items.as_slice(),
        &loaded,
        8,
        rows.as_slice(),
    )?;
    Ok(answer == Some(Ok(())) && branches_lead_back(image.as_slice(), count))
}

// Whether each second word is a branch of as many bytes back as it lies from the start, and the others are as before.
fn branches_lead_back(image: &[u8], count: u32) -> bool {
    if image.len() != 8 * count as usize {
        return false;
    }
    for (i, byte) in image.iter().enumerate() {
        let back = (i / 8 * 2) as u64;
        let word = match back {
            0 => 0x9400_0000,
            _ => 0x9800_0000u64.wrapping_sub(back),
        };
        let want = if i % 8 < 4 {
            word.to_le_bytes()[i % 4]
        } else {
            0xee
        };
        if *byte != want {
            return false;
        }
    }
    true
}

fn any_number_of_workers<R: Threads + Sync>(rt: &R, alloc: Global) -> Result<bool, OutOfMemory> {
    for (workers, count) in [
        (0, 3),
        (1, 1),
        (1, 5000),
        (2, 2),
        (2, 5000),
        (3, 5000),
        (7, 5),
        (7, 5000),
        (4, 0),
    ] {
        if !branches_are_filled(rt, alloc, &FreeGate, workers, count)? {
            return Ok(false);
        }
    }
    Ok(true)
}

// Whether so many workers meet at a gate that is looked at so often.
fn workers_meet<R: Threads + Sync>(
    rt: &R,
    alloc: Global,
    workers: u32,
    looks: u64,
) -> Result<Option<bool>, OutOfMemory> {
    let gate = MeetGate::new(looks);
    let is_filled = branches_are_filled(rt, alloc, &gate, workers, 5000)?;
    Ok(is_filled.then_some(gate.met()))
}

fn branches_to(alloc: Global, values: &[u64]) -> Result<Vec<Met>, OutOfMemory> {
    let mut mets = Vec::new(alloc);
    for (i, value) in values.iter().enumerate() {
        mets.push(branch(0x200u64.wrapping_add(i as u64), *value))?;
    }
    Ok(mets)
}

// Whether a fault of a key is told for atoms of an image, the last of the section first, which branch to these
// addresses.
fn is_told<R: Threads + Sync>(
    rt: &R,
    alloc: Global,
    workers: u32,
    values: &[u64],
    atom: AtomKey,
    fault: RangeFault,
) -> Result<bool, OutOfMemory> {
    let items = works(alloc, 4, 4)?;
    let mets = branches_to(alloc, values)?;
    let rows = one_each(alloc, mets.as_slice())?;
    let loaded = branches(alloc, 4)?;
    let mut image = [0; 16];
    let answer = filled(
        rt,
        alloc,
        &FreeGate,
        workers,
        &mut image,
        items.as_slice(),
        &loaded,
        4,
        rows.as_slice(),
    )?;
    Ok(answer == Some(Err(PatchFault::Range { atom, fault })))
}

// Of the atoms at fault the last one has the least key. A branch reaches 2^27 bytes less 4 forwards.
const NEAR: u64 = 0x1_0000_0000;

const FAR: u64 = 0x1_0800_0000;

// The addresses, and the place of the one that is told and how far it is.
const FAULTS: [([u64; 4], u64, i128); 4] = [
    ([FAR, NEAR, NEAR, NEAR], 0, 134217728),
    ([FAR, NEAR, NEAR, FAR + 12], 3, 134217728),
    ([FAR, FAR + 4, NEAR, NEAR], 1, 134217728),
    ([NEAR, NEAR, FAR + 8, NEAR], 2, 134217728),
];

fn the_fault_of_the_least_atom<R: Threads + Sync>(
    rt: &R,
    alloc: Global,
    workers: u32,
) -> Result<bool, OutOfMemory> {
    for (values, place, value) in &FAULTS {
        let fault = RangeFault {
            file_place: 0x200 + *place % 4,
            kind: RangeKind::Branch,
            value: *value,
        };
        let atom = key(0, 1, 4 * (3 - *place % 4));
        if !is_told(rt, alloc, workers, values, atom, fault)? {
            return Ok(false);
        }
    }
    Ok(true)
}

#[test]
fn atoms_are_placed_by_any_number_of_workers(rt: HostRuntime) -> Result<(), Fail> {
    let alloc = rt.alloc();
    assert!(rt; any_number_of_workers(&rt, alloc)?);
    assert!(rt; workers_meet(&rt, alloc, 2, 100_000_000)? == Some(true));
    assert!(rt; workers_meet(&rt, alloc, 1, 10)? == Some(false));
    for workers in [1, 2, 3, 4] {
        assert!(rt; the_fault_of_the_least_atom(&rt, alloc, workers)?);
    }
    Ok(())
}
