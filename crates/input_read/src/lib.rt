//! Reads the inputs of a link side by side, and sorts them by what they are.
//!
//! `open_input` answers exactly what an input is, or its first fault (`opening_of`, in `specs/Opening.antt`): an
//! `Opening` is an object with the file that is loaded of it, an archive with its members and table of contents, or
//! the text of stub libraries. Of a universal file the slice for arm64 counts, and places are those in the slice.
//! Faults come in this order: 2^30 bytes or more; bytes of no kind that is linked; a fault of what the input is. No
//! bytes are copied.
//!
//! `open_inputs` answers the same of all inputs (`contents_of`, in `specs/Opened.antt`), each read by one of so many
//! workers in threads: an `Opened` has the objects and archives, the files of the objects, and the stub libraries,
//! each in the order of the inputs; the fault is that of the first input that has one, whichever worker finds it and
//! when. Where no thread can be started the caller reads. Inputs are to stand by rising positions, which
//! `are_in_order` tests.
//!
//! The module `opening` reads one input, `opening_all` all of them, and `sorting` sorts them. The laws say that each
//! input is opened, in order (`each_input_is_opened`), and that a fault is told just where an input has one.
//!
//! No body meets the contract that tells a later input's fault, that drops the stub libraries, or that reads a
//! universal file from its first byte in place of its slice.
#![tactic(auto)]

mod in_order;
mod laws;
mod opened;
mod opening;
mod opening_all;
mod sorting;

pub use in_order::are_in_order;
pub use laws::{
    a_fault_is_told, each_input_is_opened, inputs_keep_their_order,
    objects_are_those_of_the_inputs, stub_libraries_are_named, the_first_fault_is_told,
};
pub use opened::Opened;
pub use opening::{Opening, open_input};
pub use opening_all::open_inputs;
