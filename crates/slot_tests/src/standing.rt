//! Slots and stubs of two library functions.
ghost use Rattle.std.specs.Prelude.{◌≡◌, ℕ, true};
ghost use Rattle.slot_place.specs.Places.{HaveRoom};
ghost use Rattle.slot_place.specs.Stubs.{AreReached};
ghost use Rattle.slot_tests.specs.Near.{IsNear};

use mo_types::{AtomKey, Bytes, Goal, KeyList, OutOfMemory, OutSection};
use sect_place::{Layout, PlacedList, PlacedSection, PlacedSectionList, SegmentList};
use slot_place::{SlotStarts, own_section, slot_address, slot_starts, stub_bytes};
use slot_plan::{Need, NeedList, Slots, Way, slots};
use std::alloc::Global;
use std::test::Fail;
use test_objects::key;

const TEXT: u64 = 1 << 32;

// Whether so many bytes from an address on are in the first part of an executable.
fn is_near(start: Option<u64>, size: usize) -> bool
    ensures { result ≡ true → IsNear size start }
{
    match start {
        Some(at) => TEXT <= at && at < TEXT + (1 << 31) && size < 1 << 20,
        None => true,
    }
}

// Whether all slots and stubs are, and slots stand at multiples of 8.
#[tactic(auto, using(crate::proofs::NearLemmas::near))]
fn are_near(starts: SlotStarts, slots: &Slots) -> bool
    ensures room { result ≡ true → HaveRoom starts slots.now }
    ensures reached { result ≡ true → (base : ℕ) × AreReached base starts slots.now }
{
    let (got, stubs, tlv) = (slots.got.len(), slots.stubs.len(), slots.tlv.len());
    got < 1000
        && stubs < 1000
        && tlv < 1000
        && is_near(starts.got, 8 * got)
        && is_near(starts.stubs, 12 * stubs)
        && is_near(starts.tlv, 8 * tlv)
        && starts.got.unwrap_or(0) % 8 == 0
}

fn import(alloc: Global, name: &[u8]) -> Result<Goal, OutOfMemory> {
    Ok(Goal::Import {
        name: Bytes::from_slice(alloc, name)?,
        ordinal: 1,
        by_weak: false,
        optional: false,
    })
}

// The slots of `_abort`, which is loaded, and of `_puts`, which is called.
fn two_slots(alloc: Global) -> Result<Slots, OutOfMemory> {
    let mut needs = NeedList::new(alloc);
    needs.push(Need {
        goal: import(alloc, b"_puts")?,
        way: Way::Stub,
    })?;
    needs.push(Need {
        goal: import(alloc, b"_abort")?,
        way: Way::Got,
    })?;
    slots(alloc, &needs)
}

// A section of the name and type of `__got`, with some atoms.
fn got_with(alloc: Global, address: u64, atoms: KeyList) -> Result<PlacedSection, OutOfMemory> {
    Ok(PlacedSection {
        section: OutSection {
            segment: Bytes::from_slice(alloc, b"__DATA_CONST")?,
            name: Bytes::from_slice(alloc, b"__got")?,
            kind: 6,
            flags: 6,
            align: 3,
            atoms,
        },
        address,
        size: 16,
        file_offset: 0x4000,
    })
}

// A layout whose `__got` stands behind a section of atoms with its name and type.
fn layout(alloc: Global) -> Result<Layout, OutOfMemory> {
    let mut atoms = KeyList::new(alloc);
    atoms.push(key(0, 1, 0))?;
    let mut sections = PlacedSectionList::new(alloc);
    sections.push(got_with(alloc, 0x1_0000_3000, atoms)?)?;
    sections.push(got_with(alloc, 0x1_0000_4000, KeyList::new(alloc))?)?;
    Ok(Layout {
        segments: SegmentList::new(alloc),
        sections,
        placed: PlacedList::from_vec(alloc, Vec::new(alloc))?,
    })
}

// The linker's own section is the one without atoms.
#[test]
fn own_sections_have_no_atoms(rt: HostRuntime) -> Result<(), Fail> {
    let layout = layout(rt.alloc())?;
    let starts = slot_starts(&layout);
    assert_eq!(rt; starts.got, Some(0x1_0000_4000));
    assert_eq!(rt; starts.stubs, None);
    match own_section(layout.sections.as_slice(), Way::Got) {
        Some(section) => assert_eq!(rt; section.file_offset, 0x4000),
        None => assert!(rt; false),
    }
    assert!(rt; own_section(layout.sections.as_slice(), Way::Tlv).is_none());
    Ok(())
}

// `_abort` has the first slot, and `_puts` the second, which its stub loads: `adrp x16`, four pages on, `ldr x16` from
// there, and `br x16` (the Arm Architecture Reference Manual).
#[test]
fn stubs_load_their_slots(rt: HostRuntime) -> Result<(), Fail> {
    let alloc = rt.alloc();
    let slots = two_slots(alloc)?;
    let starts = SlotStarts {
        got: Some(0x1_0000_4000),
        stubs: Some(0x1_0000_0448),
        tlv: None,
    };
    if !are_near(starts, &slots) {
        assert!(rt; false);
        return Ok(());
    }
    let puts = import(alloc, b"_puts")?;
    assert_eq!(rt;
        slot_address(starts, &slots, Way::Got, &puts),
        Some(0x1_0000_4008)
    );
    assert_eq!(rt;
        slot_address(starts, &slots, Way::Stub, &puts),
        Some(0x1_0000_0448)
    );
    assert_eq!(rt; slot_address(starts, &slots, Way::Tlv, &puts), None);
    let abort = import(alloc, b"_abort")?;
    assert_eq!(rt;
        slot_address(starts, &slots, Way::Got, &abort),
        Some(0x1_0000_4000)
    );
    assert_eq!(rt; slot_address(starts, &slots, Way::Stub, &abort), None);
    let bytes = stub_bytes(alloc, starts, &slots)?;
    let by_hand = [
        0x30, 0, 0, 0x90, 0x10, 0x06, 0x40, 0xf9, 0, 0x02, 0x1f, 0xd6,
    ];
    assert_eq!(rt; bytes.as_slice(), by_hand.as_slice());
    Ok(())
}
