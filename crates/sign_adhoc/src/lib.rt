//! The ad-hoc signature of an image, its check, and the UUID that goes with it (`cs_blobs.h`, RFC 9562).
//!
//! A signature tells of the bytes before it: `specs/Signature.antt` spells it as a super blob with one entry, a code
//! directory whose fields are those of a record, an identifier, and one SHA-256 for each page of 4,096 bytes. `sign`
//! answers those bytes and no others.
//!
//! `check` reads all bytes: `specs/Standing.antt` says what stands where the command of an image says, and which page
//! is the first whose hash is another. A check has one answer (`one_answer`), it is `Good` of what was signed
//! (`what_is_signed_is_found_so`), and of a signed image that was changed before its signature it tells the first page
//! whose hash is another than before (`a_change_is_told_of`). So a check that stops at a good page, or hashes the last
//! page whole, isn't proved.
//!
//! `identify` writes the UUID, which the hashes of the pages make with zeros in its place, whatever stood there
//! (`the_place_of_a_uuid_counts_for_nothing`), and answers the hashes that then hold, each page being hashed once but
//! for those that have the UUID. The pages are hashed by `rayon`, in pieces of 64 pages or more.
#![tactic(auto)]

mod answer;
mod blob;
mod checking;
mod identity;
mod laws;
mod pages;
mod signing;
mod standing;

pub use answer::Check;
pub use blob::{sign_hashes, signature_size};
pub use checking::check;
pub use identity::identify;
pub use laws::{
    a_change_is_told_of, one_answer, the_place_of_a_uuid_counts_for_nothing,
    what_is_signed_is_found_so,
};
pub use pages::hash_pages;
pub use signing::sign;
pub use standing::Standing;
