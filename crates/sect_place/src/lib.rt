//! Where everything of an image stands: its segments, its sections, and the atoms in them (`loader.h`).
//!
//! `place` answers the `Layout` of the kept atoms: exactly the segments, sections and places of `specs/Layout.antt`,
//! the addresses in the order of their atoms. `specs/Arrangement.antt` says which sections there are and in which
//! order, the linker's own among them, and `specs/Places.antt` where they stand: one behind the other, each at the
//! least multiple of its alignment that isn't below the end of what comes before. Where what stands before
//! `__LINKEDIT`, but for `__PAGEZERO`, has 2^32 bytes or more, that is `ImageSize`. The module `arrange` lists segments
//! and sections, and `walk` places them in numbers of 128 bits (`wide`), which hold every sum: what lies in memory is
//! few.
//!
//! `address` answers an atom's address, or `None` exactly where the layout doesn't have it; `address_near` looks at
//! one place of the list first. `IslandShifts` tells how far an `IslandPlan` moves what a layout without islands has
//! (`specs/Shifts.antt`), and `address_with` an atom's address by it, where the sections list their atoms in order: mostly
//! the atom's place in the layout tells its section, else the sections' lists are searched. These look-ups take no memory.
//!
//! The laws say that atoms and sections stand apart and aligned, that places are least (`places_are_least`), that each
//! kept atom that a section lists has a place, that a layout is one thing where no atom is listed twice, how far islands
//! move what follows, and that more of them move nothing down.
//!
//! A body that places an atom where the one before ends, whatever its alignment, isn't proved, nor one that answers an
//! image of 2^32 bytes, or leaves room for half the islands.
#![tactic(auto)]

mod arrange;
mod island;
mod laws;
mod layout;
mod lookup;
mod part;
mod placing;
mod shift;
mod size;
mod walk;
mod wide;

pub use island::{AreaList, BranchTarget, BranchTargetList, IslandArea, IslandPlan, WayList};
pub use laws::{
    a_layout_is_one, atoms_stand_apart, each_listed_atom_is_placed, islands_move_what_follows,
    more_islands_move_nothing_down, no_atom_is_placed_twice, places_are_least,
    sections_are_in_order, sections_stand_apart,
};
pub use layout::{
    Layout, Placed, PlacedList, PlacedSection, PlacedSectionList, Segment, SegmentList,
};
pub use lookup::{address, address_near};
pub use placing::place;
pub use sect_list::out_sections;
pub use shift::{IslandShifts, address_with};
pub use size::{PlaceFault, PlaceSizes};
pub use walk::is_zerofill;
