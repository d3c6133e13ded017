//! Which goals of an image need slots and stubs, and how: by the references of the atoms that are kept, and by an
//! executable's entry; and which reference can be met by neither.
//!
//! `needs` answers the needs of all references of kept atoms and of the entry (`needs_of`, in `specs/Needs.antt`), from
//! which `slot_plan` makes the slots. What a reference needs hangs on its kind, its addend and its goal alone
//! (`way_of`): what loads a slot or points to one needs that slot, a branch without addend needs a stub where the loader
//! looks the goal up by its name, and nothing else needs more than the goal's own address. An entry that another image
//! has needs a stub, too. The answer has the same needs, in any order and any number of times (`AreSame`). The one error
//! is want of memory.
//!
//! The law `slots_serve_all_needs` says that slots which are made of the answer are those of all these needs.
//!
//! `first_unmet` answers the first reference of a kept atom that tells an address or a distance itself, where another image
//! has its goal or what is subtracted (`specs/Unmet.antt`): no slot and no fixup serves it. It takes no memory.
//!
//! A body that gives a branch to a library's function no stub, one that gives a branch with an addend one, one that
//! asks of atoms that aren't kept, one that takes a goal that was needed in one way for one that was in all, and one that
//! answers the last reference in place of the first don't meet the contracts.
#![tactic(auto)]

mod gathering;
mod laws;
mod referring;
mod unmet;
mod walk;
mod ways;

pub use laws::slots_serve_all_needs;
pub use referring::Referring;
pub use unmet::{Unmet, first_unmet};
pub use walk::needs;
