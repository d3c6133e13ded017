//! Numbers of names: one for each distinct name of a link.
//!
//! A `NameTable` numbers names from 0 on. It owns them, and grows: `with_files` and `with_names` put those of further
//! files' external symbols, or further ones, behind the others, each that isn't there in the order in which they come
//! first, or answer `Names` exactly where there are 2^24 or more then. So each name is hashed once where it stands, and
//! has one number for a whole link. `with_files` answers the numbers of the names of the files' symbols, `NO_NUMBER`
//! for what isn't external (`numbers_of`); `gather` does both at once. `id_of` is the number of a name, `None` exactly
//! where it isn't there, and `name_of` the name of a number, both without memory.
//!
//! Which names there are is said in `specs/Names.antt`, by the list (`gathered`) and without its order (`AreNames`).
//! Laws: each name has a number and nothing else has (`each_name_has_a_number`), a number's name leads back to it
//! (`numbers_lead_back`), what grew holds the names of all (`names_grow`), numbers stay (`numbers_stay`), and names are
//! as many in whatever order they come (`order_is_nothing`).
//!
//! Refused are a body that numbers a name twice, one that takes names of one length for the same, one that leaves out the
//! further names, and one that numbers one name more than the limit allows.
#![tactic(auto)]

mod fault;
mod held_name;
mod laws;
mod name;
mod numbered;
mod numbering;
mod table;

pub use fault::GatherFault;
pub use laws::{
    each_name_has_a_number, names_grow, numbers_lead_back, numbers_stay, order_is_nothing,
};
pub use name::Name;
pub use numbered::{NO_NUMBER, NamedFiles, NumberList, Numbered, number_at, numbers_at};
pub use numbering::gather;
pub use table::NameTable;
