//! A line of steps, each of which gives a value or stops: what a function that is such a line promises.
//!
//! A step answers a value, or why there is none (`StepFault`): a stop of its own, which its definition tells, or that
//! memory was refused, which no definition tells. `specs/Steps.antt` has the words in which a line is defined, one
//! line for each step in their order (`gives`, `unless`, `some`, `tries`, `last`), and in which the causes of its
//! stops are listed in the same order (`stands`, `refuses`, `taken`). What a layer below answers is a step too, by
//! `IsToldBy`: its types have want of memory, which tells nothing. The lemmas (`proofs/StepLemmas.antt`) take one
//! fact for each step and give the laws of the whole line: there is one answer, and it is a stop exactly where that
//! stop's cause stands. The crate has no line of its own: `link_files` is one from loaded files to their image, and
//! `link_engine` one from the words of a command line. A body of theirs that leaves out a step isn't proved. Each
//! error by which a call tells want of memory becomes the one `OutOfMemory` of `StepFault`.
#![tactic(auto)]

mod fault;

pub use fault::StepFault;
