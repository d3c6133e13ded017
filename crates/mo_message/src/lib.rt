//! The messages of the linker: one line for each answer that isn't `Done`. Nothing here takes memory.
//!
//! `tell` puts the line that belongs to an answer on the messages, for every implementation of `Diag`, and puts
//! nothing for `Done`. Which line that is, is said by `line_of` (`specs/Message.antt` of `mo_types`), by the answer
//! and the path that the line of a `WriteFault` names.
//!
//! What takes the messages may fail: `tell` stops at the first fault, of which `Diag` alone keeps count. Where the
//! count didn't rise, the whole line was appended to what was told before (`line`). After a fault it was appended up
//! to some byte, and nothing stands behind the part that was cut off (`prefix`). The count never falls (`faults`).
//!
//! The module `message` takes an answer apart, and `pieces` puts its parts one behind the other until one fails.
//!
//! Refused are a body that writes a line for `Done`, one that goes on behind a part that failed, and one that names a
//! file for an undefined name that no file refers to.
#![tactic(auto)]

mod message;
mod pieces;

pub use message::tell;
