//! Which member a name asks for.
ghost use Rattle.std.specs.Prelude.{◌≡◌, Some};
ghost use Rattle.member_rounds.specs.Rounds as rounds;

use crate::offer_index::OfferIndex;
use lib_bind::{Libraries, Offer, offer_of};
use mo_types::FileId;

fn is_header_name(name: &[u8]) -> bool
    ensures { result ≡ rounds.is_header_name name.now }
{
    name == b"___dso_handle".as_slice()
        || name == b"__mh_execute_header".as_slice()
        || name == b"__mh_dylib_header".as_slice()
}

// What is asked for where a library offers the name too.
fn unless_before(id: FileId, library: Option<Offer>) -> Option<FileId>
    ensures { result ≡ rounds.unless_before (Some id) library }
{
    match library {
        Some(offer) => {
            if offer.library.position < id.position {
                None
            } else {
                Some(id)
            }
        }
        None => Some(id),
    }
}

/// The member for which a name without a candidate asks: the least-numbered one that the table of the first archive with
/// the name gives to it. `None` exactly where no archive has the name, where a library that stands before the archive
/// provides it, and for the three names of the image's header. It takes the time of two look-ups by hash, and no memory.
#[tactic(auto, using(crate::proofs::AskLemmas::asks), unfolding(crate::specs::Rounds::asked_by))]
pub fn asked_by(offers: &OfferIndex, libs: &Libraries, name: &[u8]) -> Option<FileId>
    ensures { result ≡ rounds.asked_by offers.now libs.now name.now }
{
    if is_header_name(name) {
        return None;
    }
    match offers.first(name) {
        Some(id) => unless_before(id, offer_of(libs, name)),
        None => None,
    }
}
