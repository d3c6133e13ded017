//! The chains of an image's pointers (`fixup-chains.h`): `encode` gives the word of each pointer, and the part of
//! `__LINKEDIT` that tells the loader of them.
//!
//! Pointers of one 16 KiB page make up a chain: each tells the distance to the next greater one of its page
//! (`steps_to_next`), and a segment's starts tell where the chain of each page begins, up to the last page with a
//! pointer (`page_start`, `pages_of`). All three are said of the set of the pointers' addresses, so that a distance
//! that skips a pointer and a chain that runs on into the next page are refused.
//!
//! The imports are what pointers are bound to, each once, by name and signed addend (`AreImports`): in the narrow form,
//! or in the wide one where an addend or the pool of names has no room there (`AreFormed`). `AreChains` is the whole
//! answer: the words (`words_of`) and the part with its header (`blob_of`).
//!
//! There are none where there are 2^24 imports or more (`AreMany`), and else where a pointer stands where none may, or
//! leads too far (`fault_of`): the first one is told of, slots before atoms (`IsFirstFault`). An answer is one thing,
//! but for want of memory (`an_answer_is_one`), and there is one (`chains_or_a_fault_exist`). What the loader finds is
//! said in `chain_laws`.
//!
//! `has_many_imports` tells whether there are 2^24 imports before anything has an address. Fewer bound pointers never have
//! that many (`few_pointers_have_few_imports`), and more pointers no fewer (`more_pointers_have_no_fewer_imports`).
//!
//! Refused are a body in which a pointer's distance skips the next one, one that lets a chain run on into the next
//! page, one that tells of a fault in an atom before one in a slot, and one that leaves imports in the order in which
//! they are used.
#![tactic(auto)]

mod blob;
mod chains;
mod encoding;
mod faults;
mod goals;
mod import;
mod import_row;
mod imports;
mod laws;
mod many;
mod numbers;
mod places;
mod pool;
mod rows;
mod starts;
mod targets;
mod wide;
mod words;

pub use chains::{ChainFault, ChainWord, Chains, Fixup, FixupList, WordList};
pub use encoding::encode;
pub use laws::{
    an_answer_is_one, chains_or_a_fault_exist, few_pointers_have_few_imports,
    more_pointers_have_no_fewer_imports,
};
pub use many::has_many_imports;
