//! Lays atoms out, and looks for their addresses.
use crate::given::{areas_of, command, kept_of, loaded_of};
use crate::order::{areas_rise, atoms_are_low, atoms_rise, files_rise, sections_are_low};
use anyhow::{Result, bail};
use command_line::Command;
use mo_types::{Atom, AtomKey, AtomList, Loaded, OutSections};
use sect_list::out_sections;
use sect_place::{
    AreaList, IslandPlan, IslandShifts, Layout, PlaceSizes, WayList, address, address_with, place,
};
use slot_plan::{NeedList, Slots, slots};
use std::time::Instant;

// How many addresses are asked for.
const LOOK_UPS: u64 = 1_000_000;

// The sections of the image.
fn listed(rt: &HostRuntime, loaded: &Loaded, kept: &AtomList) -> Result<OutSections> {
    if !files_rise(loaded.files.as_slice()) {
        bail!("the files aren't in order");
    }
    let start = Instant::now(rt)?;
    let Ok(sections) = out_sections(rt.alloc(), loaded, kept) else {
        bail!("no memory is left");
    };
    tell(rt, start)?;
    Ok(sections)
}

// Prints the milliseconds since an instant.
fn tell(rt: &HostRuntime, start: Instant) -> Result<()> {
    eprintln!(rt; "{}", start.elapsed(rt)?.as_millis())?;
    Ok(())
}

fn sections_of(rt: &HostRuntime, files: u16, kept: &AtomList) -> Result<OutSections> {
    let Ok(loaded) = loaded_of(rt.alloc(), files) else {
        bail!("no memory is left");
    };
    listed(rt, &loaded, kept)
}

// The layout without islands, and without slots.
fn placed(
    rt: &HostRuntime,
    kept: &AtomList,
    sections: &OutSections,
    slots: &Slots,
    islands: &IslandPlan,
    command: &Command,
) -> Result<Layout> {
    if !atoms_rise(kept.as_slice())
        || !atoms_are_low(kept.as_slice())
        || !sections_are_low(sections.as_slice())
    {
        bail!("the atoms aren't in order");
    }
    let sizes = PlaceSizes {
        commands: 80,
        unwind: 0,
    };
    let start = Instant::now(rt)?;
    let Ok(layout) = place(rt.alloc(), kept, sections, slots, islands, &sizes, command) else {
        bail!("the image has no layout");
    };
    tell(rt, start)?;
    Ok(layout)
}

fn laid(
    rt: &HostRuntime,
    kept: &AtomList,
    sections: &OutSections,
    islands: &IslandPlan,
    command: &Command,
) -> Result<Layout> {
    let alloc = rt.alloc();
    let Ok(slots) = slots(alloc, &NeedList::new(alloc)) else {
        bail!("no memory is left");
    };
    placed(rt, kept, sections, &slots, islands, command)
}

fn layout_of(rt: &HostRuntime, kept: &AtomList, sections: &OutSections) -> Result<Layout> {
    let alloc = rt.alloc();
    let Ok(command) = command(alloc) else {
        bail!("no memory is left");
    };
    let islands = IslandPlan {
        areas: AreaList::new(alloc),
        ways: WayList::new(alloc),
    };
    laid(rt, kept, sections, &islands, &command)
}

// A million atoms in no order. They are listed before their addresses are asked for, since reading them costs a look at
// memory of its own.
fn asked_for(rt: &HostRuntime, atoms: &[Atom]) -> Result<Vec<AtomKey>> {
    let mut keys = Vec::with_capacity(rt.alloc(), LOOK_UPS as usize)?;
    for number in 0..LOOK_UPS {
        let at = number * 7919 % (atoms.len() as u64).max(1);
        if let Some(atom) = atoms.get(at as usize) {
            keys.push(atom.key)?;
        }
    }
    Ok(keys)
}

// The sum of some addresses.
fn asked(rt: &HostRuntime, layout: &Layout, keys: &[AtomKey]) -> Result<u64> {
    let start = Instant::now(rt)?;
    let mut sum = 0u64;
    for key in keys {
        sum = sum.wrapping_add(address(layout, *key).unwrap_or(0));
    }
    tell(rt, start)?;
    Ok(sum)
}

// The sum of some addresses with islands.
fn asked_with(
    rt: &HostRuntime,
    layout: &Layout,
    shifts: &IslandShifts,
    keys: &[AtomKey],
) -> Result<u64> {
    let start = Instant::now(rt)?;
    let mut sum = 0u64;
    for key in keys {
        sum = sum.wrapping_add(address_with(layout, shifts, *key).unwrap_or(0));
    }
    tell(rt, start)?;
    Ok(sum)
}

// The table of how far an island in each file moves what the layout has.
fn shifts_of(rt: &HostRuntime, layout: &Layout, files: u16) -> Result<IslandShifts> {
    let alloc = rt.alloc();
    let Ok(areas) = areas_of(alloc, files) else {
        bail!("no memory is left");
    };
    if !areas_rise(areas.as_slice()) {
        bail!("the areas aren't in order");
    }
    let islands = IslandPlan {
        areas: AreaList::from_sorted(areas),
        ways: WayList::new(alloc),
    };
    let Ok(shifts) = IslandShifts::new(alloc, layout, &islands) else {
        bail!("no memory is left");
    };
    Ok(shifts)
}

// Asks for the addresses of a layout.
fn ask(rt: &HostRuntime, layout: &Layout, files: u16, atoms: &[Atom]) -> Result<()> {
    let keys = asked_for(rt, atoms)?;
    let sum = asked(rt, layout, keys.as_slice())?;
    let shifts = shifts_of(rt, layout, files)?;
    let moved = asked_with(rt, layout, &shifts, keys.as_slice())?;
    println!(rt; "{sum} {moved}")?;
    Ok(())
}

fn ask_all(rt: &HostRuntime, files: u16, kept: &AtomList) -> Result<()> {
    let sections = sections_of(rt, files, kept)?;
    let layout = layout_of(rt, kept, &sections)?;
    ask(rt, &layout, files, kept.as_slice())
}

/// Lays so many files out, with so many atoms in each of their sections, and prints the sums of a million addresses,
/// without islands and with one in each file.
pub(crate) fn places(rt: &HostRuntime, files: u16, each: u32) -> Result<()> {
    let Ok(kept) = kept_of(rt.alloc(), files, each) else {
        bail!("no memory is left");
    };
    ask_all(rt, files, &kept)
}
