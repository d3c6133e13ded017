//! Whether the signature of an image is that of its bytes.

ghost use Rattle.std.specs.Prelude.{◌≡◌, ◌+◌, ◌<◌, ◌≤◌, ◌^◌, ◌*◌, ◌↔◌, IsTrue, MatchOption, length};
ghost use Rattle.sign_adhoc.specs.Pages as pages;
ghost use Rattle.sign_adhoc.specs.Signature.{hashes_begin};
ghost use Rattle.sign_adhoc.specs.Standing.{AreHashed, IsAnswer, IsFirstChanged, IsHashed, IsStanding};

use crate::answer::Check;
use crate::blob;
use crate::blob::DIRECTORY_AT;
use crate::pages::{HASH_SIZE, page_count, page_hash};
use crate::standing::{Standing, signature_of};

fn is_hashed(image: &[u8], s: Standing, number: usize) -> bool
    requires place { s.from + 20 + hashes_begin s.identifier + 32 * number + 32 ≤ length image.now }
    requires number { number < pages.page_count s.from }
    requires few { s.identifier < 2 ^ 32 }
    ensures { IsTrue result ↔ IsHashed image.now s number }
{
    let at = s.from + DIRECTORY_AT + blob::hashes_begin(s.identifier) + HASH_SIZE * number;
    let hash = page_hash(&image[..s.from], number);
    hash.as_slice() == &image[at..at + HASH_SIZE]
}

// The first page whose hash is another.
#[tactic(auto, using(crate::proofs::StandingLemmas::places))]
fn first_changed(image: &[u8], s: Standing) -> Option<u32>
    requires standing { IsStanding image.now s }
    requires few { (s.from < 2 ^ 32) × (s.size < 2 ^ 32) × (s.identifier < 2 ^ 32) }
    ensures { MatchOption result (AreHashed image.now s (pages.page_count s.from)) (IsFirstChanged image.now s) }
{
    for number in 0..page_count(s.from) {
        if !is_hashed(image, s, number) {
            return Some(number as u32);
        }
    }
    None
}

/// Whether the signature that stands in an image where its command says is that of the bytes before it (`cs_blobs.h`).
/// Only ad-hoc signatures of the form that `sign` writes are found. It takes no memory.
pub fn check(image: &[u8]) -> Check
    ensures { IsAnswer image.now result }
{
    let Some(signature) = signature_of(image) else {
        return Check::Absent;
    };
    match first_changed(image, signature) {
        Some(page) => Check::No { page },
        None => Check::Good,
    }
}
