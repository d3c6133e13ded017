//! The structures that only images have, as records, each with its bytes in a file and its reading at a place: chained
//! fixups (`fixup-chains.h`), unwind tables (`compact_unwind_encoding.h`) and code signatures (`cs_blobs.h`), and the
//! numbers that these headers name.
//!
//! As in `mo_format`, `read` gives each field as the number or name at its place, and `write` appends the structure's
//! bytes, which read back as the structure whatever follows, or leaves the output as it was. A signature's numbers have
//! their highest byte first, all others their lowest.
//!
//! Each structure has its fields in a table, of which its bytes are made, and its reading, with the place of each
//! field: `specs/ChainedFixups.antt`, `specs/ChainedImport.antt` and `specs/ChainedPointer.antt` for fixups,
//! `specs/Unwind.antt` for unwind tables, and `specs/Signature.antt` for signatures. `specs/BigFields.antt` has the
//! fields whose highest byte comes first.
#![tactic(auto)]

mod big_fields;
mod chained_fixups;
mod chained_import;
mod chained_pointer;
pub mod compact_unwind;
pub mod cs_blobs;
pub mod fixup_chains;
mod signature;
mod unwind;

pub use chained_fixups::{ChainedFixupsHeader, ChainedStartsInImage, ChainedStartsInSegment};
pub use chained_import::{ChainedImport, ChainedImportAddend64};
pub use chained_pointer::{ChainedBind, ChainedRebase};
pub use signature::{BlobIndex, CodeDirectory, SuperBlob};
pub use unwind::{
    CompressedPageEntry, CompressedPageHeader, RegularPageEntry, RegularPageHeader,
    UnwindIndexEntry, UnwindInfoHeader, UnwindLsdaEntry,
};
