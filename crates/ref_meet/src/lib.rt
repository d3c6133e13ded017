//! How the references of an image's atoms meet their goals: by addresses, slots, stubs, offsets in the template of
//! thread-local variables, and pointers that the loader fills in.
//!
//! A `Scene` has what they are met in: loaded files with the goals of their symbols, and where all stands. Which slot or
//! stub a reference needs is `way_of` of `slot_needs`; `met_of` (`specs/Mets.antt`) says by the kind of a reference what its
//! field is told from: the address of its goal with the addend, that of the goal's slot or stub alone, the word of its
//! chain, or an offset in the template (`specs/Template.antt`). `AtomReferences` answers this for the atoms of a piece of an
//! image, as `patch` asks for it. `fixups_of` answers the pointers that the loader fills in, of slots and of atoms, in the
//! order of their addresses (`specs/Pointers.antt`); `fixup_chain` makes their words. `entry_address` tells where a program
//! begins. `has_many_binds` tells before anything is placed whether an image is bound to 2^24 imports or more
//! (`specs/Binds.antt`). Atoms are to stand below 2^33, and what references lead to within 2^63 bytes of the start of its
//! atom (`IsSound`, in `specs/Ready.antt`), so that each address has 64 bits. The one error is want of memory.
//!
//! The laws say that pointers which don't overlap have an order and just one (`pointers_have_one_order`).
//!
//! Their contracts refuse a body by which an import stands at 0, one that leads a branch past its stub, one that adds an
//! addend to a slot, one that subtracts a reference's own target, and one that counts a template's offset from the
//! start of the goal's atom.
#![tactic(auto)]

mod addresses;
mod binds;
mod fixups;
mod hints;
mod laws;
mod meeting;
mod mets;
mod orders;
mod places;
mod pointers;
mod row;
mod scene;
mod targets;
mod template;
mod words;

pub use addresses::{entry_address, goal_address};
pub use binds::has_many_binds;
pub use fixups::fixups_of;
pub use laws::pointers_have_one_order;
pub use meeting::AtomReferences;
pub use orders::{FileOrders, orders_of};
pub use scene::Scene;
pub use words::word_near;
