//! The section `__unwind_info` of compact unwind: sized and written for the functions of an image, and searched for a
//! place.
//!
//! `specs/Table.antt` has the rows of the section: one for each function, and one with encoding 0 where a gap begins.
//! `specs/Pages.antt` cuts them into pages and spells the section, `IsSection`: a compressed page has the most rows
//! that it can hold, and where these are few the page is a regular one. `specs/Lookup.antt` says what any bytes say of
//! a place, by the rows that lie whole in them, and which personality an encoding names.
//!
//! Laws: functions have one section (`one_section`), whose size is that of `unwind_size` before it is written, and the
//! same for functions that differ in nothing but where their slots, in one order, and their language-specific data stand
//! (`one_size`). Its personalities are the slots that functions name, each once, by rising offset
//! (`personalities_rise`), and where a function's encoding says stands its slot. A page's encodings are those of its rows, each once, in the order of their
//! first use (`encodings_by_first_use`). In what is written a look-up in a function's range finds it, its encoding and
//! its language-specific data, and elsewhere nothing or encoding 0: so a writer that leaves out the row that closes a
//! range is refused.
#![tactic(auto)]

mod cut;
mod laws;
mod lookup;
mod numbers;
mod pages;
mod row;
mod size;
mod table;
mod write;

pub use laws::{encodings_by_first_use, one_section, one_size, personalities_rise};
pub use lookup::{UnwindHit, find_pc};
pub use row::{UnwindLimit, UnwindRow, UnwindRows, are_apart};
pub use size::unwind_size;
pub use write::write_unwind;
