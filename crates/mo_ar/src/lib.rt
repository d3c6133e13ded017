//! Reads universal files (`mach-o/fat.h`) and archives (ar(5), `ar.h`, `mach-o/ranlib.h`).
//!
//! This crate finds the slice for arm64 in universal files and reads archives. `slice_of` answers exactly the
//! definition's slice or first fault, without memory: the slice of the first entry for arm64, within the file
//! (`slice_of_the_first_entry`). `read_archive` answers exactly the definition's archive or first fault (`exact`):
//! the members on the one chain that headers make up (`one_chain`), and the pairs of the table of contents, each with
//! the member whose header stands at its place (`an_archive_is_a_chain`). `first_offer` gives the least-numbered
//! member that the table gives to a name, by an index. No contract speaks of time; reading is linear in members,
//! pairs and strings but for what is slow yet.
//!
//! The definitions stand in `specs/Slice.antt`, `specs/Archive.antt` and `specs/Offers.antt`, and the chain of headers
//! in `specs/Chain.antt`. The module `member` reads one header with its name, `contents` the table of contents, and
//! `index` finds names in it.
//!
//! The contracts refuse a body that answers a slice that ends outside the file, one that looks for the next header
//! without the byte that pads an odd member, and one that gives a pair the member of its own number.
#![tactic(auto)]

mod archive;
mod chain;
mod contents;
mod hash;
mod index;
mod laws;
mod member;
mod offer_list;
mod offered;
mod offers;
mod order;
mod places;
mod slice;
mod text;

pub use archive::{Archive, read_archive};
pub use laws::{an_archive_is_a_chain, one_chain, slice_of_the_first_entry};
pub use member::{Member, MemberList};
pub use offer_list::OfferList;
pub use offers::Offer;
pub use slice::{SliceFault, slice_of};
