//! What the linker needs of the outside: files to read, an output to write, a place for messages, and a
//! gate that workers pass. Each of the first three has an optional meaning, what it holds where it tells,
//! and a count of faults, which never falls. For tests each of them stands in memory.
//!
//! This crate states what the linker needs of its surroundings: files to read, an output to write, a place for
//! messages, and a gate that workers pass, each of the first three with what it holds, where it tells, and a count of
//! faults, which rises at each call that fails and stands still at all others. Files may tell what was asked of them,
//! an output which calls were made on it; a write is never handed nothing. Each fetch shows what it answered
//! (`answers`), also of files that tell nothing else, so that a chain of fetches says which answers were given, in
//! order. The objects in memory meet these: `SureFiles` and its kin never fail, `MemFiles` and its kin fail exactly
//! where they are told to, or where something doesn't fit their room. `FreeGate` holds nobody. `MeetGate` holds the
//! workers 0 and 1 before their first jobs until both have come, or until one has looked for the other so many times:
//! the test of its marks is proved, that two threads meet there is tested.
//!
//! The contracts refuse an object in memory that doesn't count its fault, one that says of a file that is there that
//! it isn't, one that drops a piece and answers it as written, and a gate that tells of a meeting though a worker's
//! turns ran out.
#![tactic(auto)]

mod asked;
mod buffer;
mod calls;
mod file_buffer;
mod file_maps;
mod gates;
mod meet_gate;
mod messages;
mod outputs;
mod traits;

pub use calls::CallList;
pub use file_maps::{FileList, MemFiles, SureFiles};
pub use gates::FreeGate;
pub use meet_gate::MeetGate;
pub use messages::{MemDiag, SureDiag};
pub use outputs::{MemOut, SureOut};
pub use traits::{Diag, Failed, FetchFault, Files, Gate, Out};
