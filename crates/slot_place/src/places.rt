//! The linker's own sections of slots and stubs.
ghost use Rattle.std.specs.Prelude.{◌≡◌, ◌<◌, ◌≤◌, IfSome, length};
ghost use Rattle.std.specs.Option.{option_copied};
ghost use Rattle.slot_place.specs.Places as spec;
ghost use Rattle.slot_place.specs.Places.{HasRoom, HaveRoom};

use mo_format::loader::{
    S_NON_LAZY_SYMBOL_POINTERS, S_SYMBOL_STUBS, S_THREAD_LOCAL_VARIABLE_POINTERS,
};
use mo_types::{Goal, OutSection};
use sect_place::{Layout, PlacedSection};
use slot_plan::{SlotList, Slots, Way};

/// Where the sections of slots and stubs begin in memory, those that an image has.
#[derive(Clone, Copy, Debug, PartialEq, Eq)]
pub struct SlotStarts {
    /// `__got`.
    pub got: Option<u64>,
    /// `__stubs`.
    pub stubs: Option<u64>,
    /// `__thread_ptrs`.
    pub tlv: Option<u64>,
}

// Whether a section has some names and a type, and no atoms.
fn is_made(section: &OutSection, segment: &[u8], name: &[u8], kind: u32) -> bool
    ensures { result ≡ spec.is_made section.now segment.now name.now kind }
{
    section.segment.as_slice() == segment
        && section.name.as_slice() == name
        && u32::from(section.kind) == kind
        && section.atoms.len() == 0
}

fn is_own(placed: &PlacedSection, way: Way) -> bool
    ensures { result ≡ spec.is_own way placed.now }
{
    let section = &placed.section;
    match way {
        Way::Got => is_made(
            section,
            b"__DATA_CONST",
            b"__got",
            S_NON_LAZY_SYMBOL_POINTERS,
        ),
        Way::Stub => is_made(section, b"__TEXT", b"__stubs", S_SYMBOL_STUBS),
        Way::Tlv => is_made(
            section,
            b"__DATA",
            b"__thread_ptrs",
            S_THREAD_LOCAL_VARIABLE_POINTERS,
        ),
    }
}

/// The linker's own section of the slots or stubs that are needed in a way, where the image has it (`loader.h`:
/// S_NON_LAZY_SYMBOL_POINTERS, S_SYMBOL_STUBS, S_THREAD_LOCAL_VARIABLE_POINTERS). Takes no memory.
#[tactic(auto, unfolding(crate::specs::Places::own_section))]
pub fn own_section(sections: &[PlacedSection], way: Way) -> Option<&PlacedSection>
    ensures { option_copied result ≡ spec.own_section sections.now way }
{
    sections.iter().find(|placed| is_own(placed, way))
}

fn start_in(sections: &[PlacedSection], way: Way) -> Option<u64>
    ensures { result ≡ spec.start_in sections.now way }
{
    let section = own_section(sections, way)?;
    Some(section.address)
}

/// Where the sections of slots and stubs of a layout begin. Takes no memory.
#[tactic(auto, unfolding(crate::specs::Places::starts_of))]
pub fn slot_starts(layout: &Layout) -> SlotStarts
    ensures { result ≡ spec.starts_of layout.now.sections }
{
    let sections = layout.sections.as_slice();
    SlotStarts {
        got: start_in(sections, Way::Got),
        stubs: start_in(sections, Way::Stub),
        tlv: start_in(sections, Way::Tlv),
    }
}

// The number of a goal among some.
fn number_of(goals: &SlotList, goal: &Goal) -> Option<usize>
    ensures exact { result ≡ spec.number_of goals.now goal.now }
    ensures within { IfSome result (λ number. number < length goals.now) }
{
    // read so that they are known to rise
    let _rising = goals.as_slice();
    goals.place_of(goal)
}

// The address of the slot or stub of a goal among some, of which each has so many bytes.
#[tactic(auto, unfolding(crate::specs::Places::address_from))]
fn address_from(unit: u64, start: Option<u64>, goals: &SlotList, goal: &Goal) -> Option<u64>
    requires unit { unit ≤ 12 }
    requires room { HasRoom unit start goals.now }
    ensures { result ≡ spec.address_from unit start goals.now goal.now }
{
    let number = number_of(goals, goal)?;
    let start = start?;
    Some(start + unit * number as u64)
}

/// The address of a goal's slot or stub, where the goal has one that is needed in a way: those of one section stand one
/// behind the other, of 8 bytes or of 12. Takes no memory.
pub fn slot_address(starts: SlotStarts, slots: &Slots, way: Way, goal: &Goal) -> Option<u64>
    requires { HaveRoom starts slots.now }
    ensures { result ≡ spec.slot_address starts slots.now way goal.now }
{
    match way {
        Way::Got => address_from(8, starts.got, &slots.got, goal),
        Way::Stub => address_from(12, starts.stubs, &slots.stubs, goal),
        Way::Tlv => address_from(8, starts.tlv, &slots.tlv, goal),
    }
}
