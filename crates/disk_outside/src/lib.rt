//! The traits of `mo_outside` over the system's files, writers and standard error, and the words of a command line.
//!
//! This crate has adapters that meet these traits over real files, a real output and standard error. Each counts a
//! fault exactly where it answers one; a file that was opened is given whole, or its first 2^30 bytes, over any
//! reader whose bytes are known, one that wasn't found is answered as missing, and any other error of opening, like a
//! path that isn't text, is a fault; a piece that was answered as written went to the open file; a message goes out
//! whole, or a first part of it with a fault. What the system does behind a call isn't known to any contract, so an
//! adapter that never asks it could pass: real files are tested. `gather` has the words of a command line, which is
//! tested: proved is only that a word which is text stays what it is (`text_of`).
//!
//! The contracts see the adapters as the records of `specs/Adapters.antt`, and say by `specs/Faults.antt` when a fault
//! is counted. They refuse a body that answers a missing file as a fault, one that drops a piece and answers it as
//! written, one that tells a failed end as a success, and one that doesn't count a fault of reading.
#![tactic(auto)]

mod diag;
mod faults;
mod files;
mod out;
mod pieces;
mod words;

pub use diag::WriterDiag;
pub use files::DiskFiles;
pub use out::DiskOut;
pub use words::gather;

#[cfg(test)]
mod tests;
