//! Tests of what `patch_atom`, `patch_range` and `fill` want of references and atoms, for the crates that test or time
//! them: `fields_are_in_order` and `are_work` answer yes only where the call may be made. A link asks neither, as what it
//! lays out is known to be so.
#![tactic(auto)]

mod fields;
mod work;

pub use fields::fields_are_in_order;
pub use work::are_work;
