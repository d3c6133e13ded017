//! Atoms that are marked by workers in threads of their own, who race for each mark.
//!
//! `kept_by` answers the kept atoms of edges, supports and roots (`IsKept`, of `mark_core`), whose list is one
//! (`mark_core::kept_atoms_are_one_list`): so no number of workers, and no order in which they run, changes it, and it is
//! what `mark_core::kept_from` answers. The atoms that edges and supports name are numbered (`numbers`), the arrows between
//! them sorted into rows by counting (`filling`), and marks made from those that are roots.
//!
//! `mark_all` marks numbers of atoms level by level, each of which has the gains of the last one as its work: it answers the
//! least set that has the atoms of the start, and with an atom those to which its arrows lead (`AreLeast`, in
//! `specs/Least.antt`). Where arrows lead is an `EndTable`, a list of numbers for each atom in one array. `mark_level` marks
//! the ends of the arrows of some atoms, one job an atom: the markers' marks together grew by these ends, and their gains by
//! the numbers that it answers (`HaveMarked`, in `specs/Level.antt`).
//!
//! Between any two atomic steps an atom's bit is set exactly where it was marked at the start or by a marker, and each
//! atom that was marked first by one of them is among the gains of one marker, once (`specs/Rule.antt`). `mark` (one
//! fetch-or) answers true for an atom alone that wasn't marked at the start, nor by this marker; `split` and `join` move
//! passes, marks and gains exactly; `settle` writes the set of the start and of all marks (`is_marked`, in
//! `specs/Marks.antt`), and tells that the gains have each new atom once (`AreGains`). After `begin` no call of a race
//! waits, takes memory or refuses. Nothing is claimed of speed, or that two workers ran at once.
//!
//! Refused are a support that brings in its end for its source, a `mark` that answers true twice, a level that leaves out
//! what another worker gained, and levels that end before one gains nothing.
#![tactic(auto)]

mod bits;
mod ends;
mod filling;
mod keeping;
mod level;
mod levels;
mod numbers;
mod race;
mod rule;
mod team;

pub use ends::EndTable;
pub use keeping::kept_by;
pub use level::mark_level;
pub use levels::mark_all;
pub use race::{MarkRace, Marker};
