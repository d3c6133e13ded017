//! Chains of pointers, against those of another writer.

ghost use Rattle.std.specs.Prelude.{IsTrue};
ghost use Rattle.fixup_chain.specs.Encoded.{AreApart};
ghost use Rattle.sect_place.specs.Addresses.{AreOnce};

use fixup_chain::{ChainFault, Chains, Fixup, encode, has_many_imports};
use mo_types::{AtomKey, Bytes, FileId, Goal, Items, OutOfMemory, RangeKind};
use sect_place::{Layout, Placed, PlacedList, PlacedSectionList, Segment, SegmentList};
use sha2::{Digest, Sha256};
use std::alloc::Global;
use std::test::Fail;

const BASE: u64 = 0x1_0000_0000;

const CONST: u64 = BASE + 0x4000;

const DATA: u64 = BASE + 0x1_0000;

// The names, addresses and sizes of the segments.
const SEGMENTS: [(&[u8], u64, u64); 6] = [
    (b"__PAGEZERO", 0, BASE),
    (b"__TEXT", BASE, 0x4000),
    (b"__DATA_CONST", CONST, 0x8000),
    (b"__OTHER", 0x1_0000_c000, 0x4000),
    (b"__DATA", DATA, 0x4000_8000),
    (b"__LINKEDIT", 0x1_4001_8000, 0),
];

// The one atom that is placed, at 0x400 of the image, has section 1.
fn atom(section: u16) -> AtomKey {
    AtomKey {
        file: FileId {
            position: 0,
            member: 0,
        },
        section,
        offset: 0,
    }
}

fn layout_of(alloc: Global) -> Result<Layout, OutOfMemory> {
    let mut segments = SegmentList::new(alloc);
    for (name, address, vmsize) in SEGMENTS {
        segments.push(Segment {
            name: Bytes::from_static(name),
            address,
            vmsize,
            file_offset: 0,
            file_size: 0,
            protection: 3,
            flags: 0,
            sections: 0,
        })?;
    }
    let mut placed = Vec::new(alloc);
    placed.push(Placed {
        atom: atom(1),
        address: BASE + 0x400,
    })?;
    Ok(Layout {
        segments,
        sections: PlacedSectionList::new(alloc),
        placed: PlacedList::from_vec(alloc, placed)?,
    })
}

fn is_short(placed: &[Placed]) -> bool
    ensures { IsTrue result → AreOnce placed.now }
{
    placed.len() < 2
}

// Whether each pointer ends before the next one begins.
fn are_apart(fixups: &[Fixup]) -> bool
    ensures { IsTrue result → AreApart fixups.now }
{
    let mut end = 0u128;
    for fixup in fixups {
        if u128::from(fixup.address) < end {
            return false;
        }
        end = u128::from(fixup.address) + 8;
    }
    true
}

fn encoded(alloc: Global, fixups: Vec<Fixup>) -> Result<Result<Chains, ChainFault>, Fail> {
    let layout = layout_of(alloc)?;
    if !is_short(layout.placed.as_slice()) || !are_apart(fixups.as_slice()) {
        return Err(Fail::from("the atoms aren't one, or the pointers not apart"));
    }
    Ok(encode(alloc, &Items::from_vec(fixups), &layout))
}

// Whether pointers have chains with this digest of the words' addresses and numbers and of the blob.
fn is_encoded(alloc: Global, fixups: Vec<Fixup>, digest: &str) -> Result<bool, Fail> {
    let Ok(chains) = encoded(alloc, fixups)? else {
        return Ok(false);
    };
    let mut hasher = Sha256::new();
    for word in chains.words.as_slice() {
        hasher.update(word.address.to_le_bytes().as_slice());
        hasher.update(word.word.to_le_bytes().as_slice());
    }
    hasher.update(chains.blob.as_slice());
    let found = hex::encode(alloc, hasher.finalize())?;
    Ok(found.as_str() == digest)
}

// What a pointer leads to.
#[derive(Clone, Copy)]
enum Lead {
    // A place in the atom.
    Place(u64),
    Header,
    Weak(&'static [u8]),
    Library(&'static [u8], u8),
    // A name that may be missing, in the seventh library, looked up as a weak definition.
    Missing(&'static [u8]),
    Flat(&'static [u8]),
}

fn goal_of(lead: Lead) -> Goal {
    match lead {
        Lead::Place(offset) => Goal::Def(atom(1), offset),
        Lead::Header => Goal::Header,
        Lead::Weak(name) => Goal::WeakSelf(Bytes::from_static(name), atom(1), 0),
        Lead::Library(name, ordinal) => Goal::Import {
            name: Bytes::from_static(name),
            ordinal,
            by_weak: false,
            optional: false,
        },
        Lead::Missing(name) => Goal::Import {
            name: Bytes::from_static(name),
            ordinal: 7,
            by_weak: true,
            optional: true,
        },
        Lead::Flat(name) => Goal::Flat(Bytes::from_static(name)),
    }
}

// The section of a pointer's atom, the place of its reference, its address, what it leads to, and its addend.
type Row = (Option<u16>, u64, u64, Lead, i64);

fn fixups_of(alloc: Global, rows: &[Row]) -> Result<Vec<Fixup>, OutOfMemory> {
    let mut fixups = Vec::new(alloc);
    for (section, place, address, lead, addend) in rows {
        fixups.push(Fixup {
            atom: match section {
                Some(section) => Some(atom(*section)),
                None => None,
            },
            place: *place,
            address: *address,
            goal: goal_of(*lead),
            addend: *addend,
        })?;
    }
    Ok(fixups)
}

const PUTS: Lead = Lead::Library(b"_puts", 1);

struct Case {
    rows: &'static [Row],
    digest: &'static str,
}

// Pointers of all kinds: an addend at the bounds of a word's, a name with two of them, all ordinals in both forms of the
// imports, and in the wide one those above 253, which the narrow one has no room for, segments without pointers between
// others, a page's last place, and the last page and the last target there are. The digests are of the writer in
// `bench/llvm_chains.py`, which stands apart from the crate and has LLVM list the same pointers.
const CASES: [Case; 11] = [
    Case {
        rows: &[(None, 0, CONST, PUTS, 255)],
        digest: "eb94fe8009aac4e0079bc249542ffb83988049384332df97adea449f5faacd88",
    },
    Case {
        rows: &[(None, 0, CONST, PUTS, 256)],
        digest: "379b03a7f89932f97af2f52e35657cec2e0c66b5c814fbc7786aaea4e14d7aa1",
    },
    Case {
        rows: &[(None, 0, CONST, PUTS, -8)],
        digest: "a08ce9de17cb7cde2972780b907b60f084a131741fc4ad6e93bfdd5e240477d2",
    },
    Case {
        rows: &[
            (None, 0, CONST, Lead::Place(0x28), 0),
            (None, 0, CONST + 0x3ff8, Lead::Place(0x28), 0),
            (None, 0, CONST + 0x4000, Lead::Place(0x28), 0),
        ],
        digest: "3aa9322d4d57c7ee73bf630bf91d2081b61c9a574a5554680e623ba5ef3faecd",
    },
    Case {
        rows: &[
            (None, 0, CONST, Lead::Library(b"_d", 1), 0),
            (None, 0, CONST + 8, Lead::Library(b"_c", 240), 0),
            (None, 0, CONST + 16, Lead::Flat(b"_b"), 0),
            (None, 0, CONST + 24, Lead::Weak(b"_a"), 0),
            (None, 0, CONST + 32, Lead::Missing(b"_e"), 0),
            (None, 0, CONST + 40, Lead::Library(b"_d", 1), 0),
            (None, 0, CONST + 52, Lead::Library(b"_c", 240), 3),
        ],
        digest: "402c9f46d714ca91bdd9a61bdeb022d8cbe1219e3e9fb79fcbb7008fbcf5683f",
    },
    Case {
        rows: &[
            (None, 0, CONST, Lead::Library(b"_d", 1), -1),
            (None, 0, CONST + 8, Lead::Library(b"_c", 240), 0),
            (None, 0, CONST + 16, Lead::Flat(b"_b"), 0),
            (None, 0, CONST + 24, Lead::Weak(b"_a"), 0),
            (None, 0, CONST + 32, Lead::Missing(b"_e"), 0),
            (None, 0, CONST + 40, Lead::Library(b"_d", 1), i64::MAX),
            (None, 0, CONST + 52, Lead::Library(b"_d", 1), i64::MIN),
        ],
        digest: "a07cc66ea2fcda401fcf8f359f9119a2dd49ba6fc199d958bf7bcafea4ef883f",
    },
    Case {
        rows: &[
            (None, 0, CONST, Lead::Library(b"_a", 254), 256),
            (None, 0, CONST + 8, Lead::Library(b"_b", 253), 0),
            (None, 0, CONST + 16, Lead::Library(b"_c", 255), 1),
            (None, 0, CONST + 24, Lead::Flat(b"_d"), 0),
        ],
        digest: "95e95cd65df21c17aeca4f00d366270278097c11835c324734d411e42aac8e0e",
    },
    Case {
        rows: &[(None, 0, CONST, PUTS, 1), (None, 0, CONST + 8, PUTS, 2)],
        digest: "db42b93cc57ebf8c365d77738549312d7b6c681084b9d7527796bccfdc6163d0",
    },
    Case {
        rows: &[
            (None, 0, CONST + 0x7ff8, Lead::Header, 0),
            (None, 0, DATA, Lead::Header, 0xf_ffff_ffff),
            (None, 0, DATA + 0x8000, Lead::Place(0), 8),
        ],
        digest: "bad0399c0654b0627c15b55b32ddd8eab800b3ac8fd3fb6120b3d9141ac43bcd",
    },
    Case {
        rows: &[(None, 0, DATA + 65_534 * 0x4000 + 0x3ff8, Lead::Header, 5)],
        digest: "8c8574c88c6bc37f855de685b4b679ef0d883ec08703324a55237f95b11f4050",
    },
    Case {
        rows: &[],
        digest: "db411caa25e39aaf1446da92fdecc08387c0ce89096182bc9593be6cb963f132",
    },
];

// So many pointers, each `step` bytes after the one before, every second one bound to one of some names with so many
// blocks of 500 letters, with addends from `-low` on that repeat after `spread` pointers; and one that is bound to a last
// name, if it has letters.
struct Shape {
    count: u32,
    step: u32,
    names: u32,
    blocks: u32,
    spread: u32,
    low: i64,
    last: &'static [u8],
    digest: &'static str,
}

// Imports of both forms, by their addends and by their pools: of 2^23 - 1 bytes, which is the greatest one whose places
// the narrow form has room for, of 2^23 bytes, and of those beside with names of one size.
const SHAPES: [Shape; 8] = [
    Shape {
        count: 3000,
        step: 24,
        names: 40,
        blocks: 0,
        spread: 256,
        low: 0,
        last: b"",
        digest: "1d3c1846257e5c325b84ee96b9d04a4b0865b757f9e12aea592be3fab665086f",
    },
    Shape {
        count: 3000,
        step: 24,
        names: 40,
        blocks: 0,
        spread: 257,
        low: 0,
        last: b"",
        digest: "b05329e3622fc98123be02485b2504436550deac0628c29f7f5cfc2f13f3d07b",
    },
    Shape {
        count: 4000,
        step: 40,
        names: 100,
        blocks: 0,
        spread: 3,
        low: 1,
        last: b"",
        digest: "9a7aad068d2985fd8fcb17303d99a98b5816004dd43b6f39ffca9f89ca8c62c7",
    },
    Shape {
        count: 4190,
        step: 8,
        names: 2095,
        blocks: 8,
        spread: 1,
        low: 0,
        last: b"",
        digest: "29a7209254feb5bd482b8dfe5e7694fbceeb05d4a20921eab0bc74f12f4b5f73",
    },
    Shape {
        count: 4190,
        step: 8,
        names: 2094,
        blocks: 8,
        spread: 1,
        low: 0,
        last: b"",
        digest: "39334de47b8a3cc61ce2170e18724227ea2b49dcb519022cd256f2a0774016ef",
    },
    Shape {
        count: 4188,
        step: 8,
        names: 2094,
        blocks: 8,
        spread: 1,
        low: 0,
        last: b"zzzzzzzzzzzzzzzzzzzzzzzzzzzzzzzzzzzzzzzzz",
        digest: "b646c84c39cd3107df62a96cf19ec389887459f1f4610a1d76067e7c28cd3c69",
    },
    Shape {
        count: 4188,
        step: 8,
        names: 2094,
        blocks: 8,
        spread: 1,
        low: 0,
        last: b"zzzzzzzzzzzzzzzzzzzzzzzzzzzzzzzzzzzzzzzzzz",
        digest: "42e724ace1eeb91ca40835d1c93572a1587081cc8dca0f6a0864f28f6b654f21",
    },
    Shape {
        count: 9000,
        step: 5000,
        names: 7,
        blocks: 0,
        spread: 2,
        low: 0,
        last: b"",
        digest: "65003ee9020c6e2b9d8332de4662ad4c16c48b3c91a068b0302d9de4b16e8fdc",
    },
];

const BLOCK: [u8; 500] = [b'a'; 500];

fn name_of(alloc: Global, blocks: u32, number: u32) -> Result<Bytes, OutOfMemory> {
    let mut name = Vec::new(alloc);
    name.push(b'_')?;
    for _block in 0..blocks {
        name.extend_from_slice(BLOCK.as_slice())?;
    }
    for digit in [number / 1000, number / 100, number / 10, number] {
        name.push((0x30 + digit % 10) as u8)?;
    }
    Bytes::from_vec(name)
}

fn turn(number: u32, of: u32) -> u32 {
    if of == 0 { 0 } else { number % of }
}

fn shaped(alloc: Global, shape: &Shape) -> Result<Vec<Fixup>, OutOfMemory> {
    let mut fixups = Vec::new(alloc);
    for k in 0..shape.count {
        let number = turn(k / 2, shape.names);
        let bound = k % 2 == 1;
        fixups.push(Fixup {
            atom: None,
            place: 0,
            address: DATA + u64::from(k) * u64::from(shape.step),
            goal: if bound {
                Goal::Import {
                    name: name_of(alloc, shape.blocks, number)?,
                    ordinal: (number % 240 + 1) as u8,
                    by_weak: false,
                    optional: number % 7 == 0,
                }
            } else {
                Goal::Def(atom(1), u64::from(k) * 8)
            },
            addend: if bound {
                i64::from(turn(k, shape.spread)).saturating_sub(shape.low)
            } else {
                -i64::from(k)
            },
        })?;
    }
    if !shape.last.is_empty() {
        fixups.push(Fixup {
            atom: None,
            place: 0,
            address: DATA + u64::from(shape.count) * u64::from(shape.step),
            goal: Goal::Flat(Bytes::from_static(shape.last)),
            addend: 0,
        })?;
    }
    Ok(fixups)
}

#[test]
fn chains_are_those_of_another_writer(rt: HostRuntime) -> Result<(), Fail> {
    for case in &CASES {
        let fixups = fixups_of(rt.alloc(), case.rows)?;
        assert!(rt; is_encoded(rt.alloc(), fixups, case.digest)?);
        let few = Items::from_vec(fixups_of(rt.alloc(), case.rows)?);
        assert!(rt; !has_many_imports(rt.alloc(), &few)?);
    }
    for shape in &SHAPES {
        let fixups = shaped(rt.alloc(), shape)?;
        assert!(rt; is_encoded(rt.alloc(), fixups, shape.digest)?);
    }
    Ok(())
}

// Pointers that can't be on chains, and which one of them is told of, by its atom's section and its place.
struct Refusal {
    rows: &'static [Row],
    told: (Option<u16>, u64, RangeKind, i128),
}

const REFUSALS: [Refusal; 10] = [
    // Across a page, in `__TEXT`, at an odd place, and on the first page that has no number.
    Refusal {
        rows: &[(Some(1), 700, CONST + 0x3ffc, Lead::Header, 0)],
        told: (Some(1), 700, RangeKind::FixupPlace, 0x7ffc),
    },
    Refusal {
        rows: &[(Some(1), 700, BASE + 0x800, Lead::Header, 0)],
        told: (Some(1), 700, RangeKind::FixupPlace, 0x800),
    },
    Refusal {
        rows: &[(Some(1), 700, CONST + 2, PUTS, 0)],
        told: (Some(1), 700, RangeKind::FixupPlace, 0x4002),
    },
    Refusal {
        rows: &[(None, 0, DATA + 65_535 * 0x4000, PUTS, 0)],
        told: (None, 0, RangeKind::FixupPlace, 0x4000_c000),
    },
    // Beyond the last target, and before the first.
    Refusal {
        rows: &[(Some(1), 700, CONST, Lead::Header, 0x10_0000_0000)],
        told: (Some(1), 700, RangeKind::RebaseTarget, 0x10_0000_0000),
    },
    Refusal {
        rows: &[(Some(1), 700, CONST, Lead::Place(8), -0x409)],
        told: (Some(1), 700, RangeKind::RebaseTarget, -1),
    },
    // Both at once.
    Refusal {
        rows: &[(Some(1), 700, CONST + 2, Lead::Header, -1)],
        told: (Some(1), 700, RangeKind::RebaseTarget, -1),
    },
    // The least atom first, of one atom the least place, and before all atoms a slot.
    Refusal {
        rows: &[
            (Some(2), 16, CONST + 2, PUTS, 0),
            (Some(1), 24, CONST + 18, PUTS, 0),
            (Some(1), 32, CONST + 34, PUTS, 0),
        ],
        told: (Some(1), 24, RangeKind::FixupPlace, 0x4012),
    },
    Refusal {
        rows: &[
            (Some(1), 24, CONST + 2, PUTS, 0),
            (Some(1), 16, CONST + 16, Lead::Header, -5),
        ],
        told: (Some(1), 16, RangeKind::RebaseTarget, -5),
    },
    Refusal {
        rows: &[
            (Some(1), 0, CONST + 2, PUTS, 0),
            (None, 0, DATA + 65_535 * 0x4000, PUTS, 0),
            (None, 0, DATA + 65_535 * 0x4000 + 8, PUTS, 0),
        ],
        told: (None, 0, RangeKind::FixupPlace, 0x4000_c000),
    },
];

#[test]
fn first_fault_is_told(rt: HostRuntime) -> Result<(), Fail> {
    for refusal in &REFUSALS {
        let (section, place, kind, value) = refusal.told;
        let fault = ChainFault::Range {
            atom: section.map(|section| atom(section)),
            place,
            kind,
            value,
        };
        let answer = encoded(rt.alloc(), fixups_of(rt.alloc(), refusal.rows)?)?;
        let told = match answer {
            Ok(_) => None,
            Err(told) => Some(told),
        };
        assert_eq!(rt; told, Some(fault));
    }
    Ok(())
}
