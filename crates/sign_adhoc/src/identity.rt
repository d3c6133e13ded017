//! The UUID of an image.

ghost use Rattle.std.specs.Prelude.{◌≡◌, ℕ, ◌+◌, ◌≤◌, length, slice_index, IfOk, OnOk};
ghost use Rattle.sign_adhoc.specs.Pages.{page_count, page_hashes};
ghost use Rattle.sign_adhoc.specs.Uuid as uuids;
ghost use Rattle.sign_adhoc.specs.Uuid.{IsBesideUuid};
ghost use Rattle.sign_adhoc.specs.inner.Renewed.{renewed};

use crate::pages::{PAGE_SIZE, hash_pages, page_hash};
use mo_types::OutOfMemory;
use sha2::{Digest, Sha256};
use std::alloc::Global;
use std::thread::Threads;

#[tactic(auto, unfolding(crate::specs::Uuid::uuid_of_digest))]
fn uuid_of_digest(digest: &[u8; 32]) -> [u8; 16]
    ensures { result ≡ uuids.uuid_of_digest digest.now }
{
    let mut uuid = [0u8; 16];
    uuid.copy_from_slice(&digest[..16]);
    uuid[6] = 0x50 + digest[6] % 0x10;
    uuid[8] = 0x80 + digest[8] % 0x40;
    uuid
}

// The UUID of an image whose pages have these hashes (RFC 9562), where those are computed with zeros in place of the
// UUID.
#[tactic(auto, unfolding(crate::specs::Uuid::uuid_of, crate::specs::Pages::joined))]
fn uuid_of(hashes: &[[u8; 32]]) -> [u8; 16]
    ensures { result ≡ uuids.uuid_of hashes.now }
{
    let digest = Sha256::digest(hashes.as_flattened());
    uuid_of_digest(&digest)
}

#[tactic(auto, unfolding(crate::specs::Uuid::with_uuid))]
fn put_uuid(image: &mut [u8], at: usize, uuid: &[u8; 16])
    requires { at + 16 ≤ length image.old }
    ensures { image.new ≡ uuids.with_uuid at uuid.now image.old }
{
    image[at..at + 16].copy_from_slice(uuid);
}

// Computes the hashes of the pages anew that hold 16 bytes from a place on.
#[tactic(auto, using(crate::proofs::UuidLemmas::places), unfolding(crate::specs::inner::Renewed::renewed))]
fn renew(hashes: &mut [[u8; 32]], image: &[u8], at: usize)
    requires count { length hashes.old ≡ page_count (length image.now) }
    requires place { at + 16 ≤ length image.now }
    ensures { hashes.new ≡ renewed at image.now hashes.old }
{
    let (first, last) = (at / PAGE_SIZE, (at + 15) / PAGE_SIZE);
    hashes[first] = page_hash(image, first);
    if first < last {
        hashes[last] = page_hash(image, last);
    }
}

/// Writes the UUID of an image, which is what stands in the file before the signature, at its place, and answers the
/// hashes of all pages. It leaves all other bytes.
///
/// All pages are hashed once, and those that hold the UUID a second time. On want of memory the UUID is unstated.
pub fn identify<R: Threads + Sync>(
    rt: &R,
    alloc: Global,
    workers: u32,
    image: &mut [u8],
    uuid_at: usize,
) -> Result<Vec<[u8; 32]>, OutOfMemory>
    requires { uuid_at + 16 ≤ length image.old }
    ensures uuid { OnOk result (image.new ≡ uuids.with_uuid uuid_at (uuids.image_uuid uuid_at image.old) image.old) }
    ensures hashes { IfOk result (λ hashes. hashes.items ≡ page_hashes image.new) }
    ensures beside { (k : ℕ) → IsBesideUuid uuid_at k → slice_index image.new k ≡ slice_index image.old k }
{
    put_uuid(image, uuid_at, &[0u8; 16]);
    let mut hashes = hash_pages(rt, alloc, workers, image)?;
    let uuid = uuid_of(hashes.as_slice());
    put_uuid(image, uuid_at, &uuid);
    renew(hashes.as_mut_slice(), image, uuid_at);
    Ok(hashes)
}
