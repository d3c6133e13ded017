//! Where names and symbols lead: to their winners, to the image's header, to a library, or nowhere.
//!
//! `goal_of_name` answers exactly the goal of a name (`specs/Goals.antt`): its winner, else the header, else the first
//! library that provides it, else, where the command allows it, whatever image has it at run time, else nowhere. An
//! exported weak winner is looked up when the image is loaded, as another image may have a definition of the name
//! (`loader.h`: two-level namespaces, weak definitions). A literal's place is one in the atom that stands for it.
//!
//! `goal_table` answers the goals of the symbols of each file, file by file, each list in the order of its file's
//! table: an external symbol leads where its name does, and another one to its own place. Files are to be whole, and
//! the symbol table that of the same files and command. The one error of all calls is want of memory.
//!
//! A `GoalTable` has a pool of goals, and for each file the places of its symbols' goals there (`specs/Table.antt`),
//! each of which is in the pool: what many symbols lead to stands there once, and each name is looked up once.
//! `FileGoals` is what it has of one file: `get` is the goal of a symbol by its index, `None` exactly where there is
//! no such symbol. `goal_of` is the goal of a reference's target, be that a symbol or a place in an atom. The module
//! `goals` makes the table, and `table` has it.
//!
//! Refused are a body that answers for one file the goals of another, one that leads a name to the place of another
//! name's goal, and one that has weak winners looked up that no other image sees.
#![tactic(auto)]

mod goals;
mod scope;
mod table;

pub use goals::{goal_of, goal_of_name, goal_table};
pub use table::{FileGoals, GoalTable, PlaceList};
