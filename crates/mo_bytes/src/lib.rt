//! The little-endian numbers of Mach-O's structures, the uleb128 numbers of its tables, and rounding up to
//! a power of two.
//!
//! This crate reads little-endian numbers (`read_u16`, `read_u32`, `read_u64` give the number that stands at a place,
//! `None` exactly where the bytes end before it does), rounds up to the least multiple of a power of two, and reads
//! and writes uleb128 numbers: one grammar of their spellings, which both directions meet.
//!
//! The definitions stand in `specs/Number.antt` (numbers at a place), `specs/Rounding.antt` (`least_multiple`) and
//! `specs/Uleb.antt`. `uleb_read` gives the number with the place behind it, `uleb_len` how many bytes spell a number,
//! and `uleb_put` appends these.
//!
//! Their contracts refuse a body that reads the highest byte first, one that adds a whole unit to what is no multiple,
//! one that ends a uleb128 number at each group, and one that accepts eleven bytes.
#![tactic(auto)]

mod fields;
mod rounding;
mod uleb;

pub use fields::{read_u16, read_u32, read_u64};
pub use rounding::round_up;
pub use uleb::{uleb_len, uleb_put, uleb_read};
