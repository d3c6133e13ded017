//! The pages of an image and their hashes.

ghost use Rattle.std.specs.Prelude.{◌≡◌, ◌≤◌, ◌<◌, ◌*◌, ◌+◌, length, IfOk};
ghost use Rattle.sign_adhoc.specs.Pages as pages;

use image_format::cs_blobs::CS_SHA256_LEN;
use mo_types::OutOfMemory;
use rayon::prelude::*;
use sha2::{Digest, Sha256};
use std::alloc::Global;
use std::thread::Threads;

/// How many bytes a page has, but for the last one.
pub(crate) const PAGE_SIZE: usize = 4096;

/// How many bytes the hash of a page has.
pub(crate) const HASH_SIZE: usize = CS_SHA256_LEN as usize;

/// The fewest pages that are worth a thread.
const LEAST_PIECE: usize = 64;

/// How many pages so many bytes have.
#[tactic(auto, unfolding(crate::specs::Pages::page_count))]
pub(crate) fn page_count(size: usize) -> usize
    ensures { result ≡ pages.page_count size }
{
    size.div_ceil(PAGE_SIZE)
}

/// The page of this number, from 0.
#[tactic(auto, using(crate::proofs::PageLemmas::paging), unfolding(crate::specs::Pages::page))]
fn page(bytes: &[u8], number: usize) -> &[u8]
    requires { number < pages.page_count (length bytes.now) }
    ensures { result.now ≡ pages.page bytes.now number }
{
    let rest = &bytes[PAGE_SIZE * number..];
    let size = PAGE_SIZE.min(rest.len());
    &rest[..size]
}

/// The hash of a page.
#[tactic(auto, unfolding(crate::specs::Pages::page_hash))]
pub(crate) fn page_hash(bytes: &[u8], number: usize) -> [u8; 32]
    requires { number < pages.page_count (length bytes.now) }
    ensures { result ≡ pages.page_hash bytes.now number }
{
    Sha256::digest(page(bytes, number))
}

/// The hashes of all pages, in order, by so many threads at most.
pub fn hash_pages<R: Threads + Sync>(
    rt: &R,
    alloc: Global,
    workers: u32,
    bytes: &[u8],
) -> Result<Vec<[u8; 32]>, OutOfMemory>
    ensures { IfOk result (λ hashes. hashes.items ≡ pages.page_hashes bytes.now) }
{
    let count = page_count(bytes.len());
    let least = (count / workers.max(1) as usize).max(LEAST_PIECE);
    let hashes = (0..count)
        .into_par_iter()
        .with_min_len(least)
        .map(
            |number: usize| -> [u8; 32]
                requires { number < pages.page_count (length bytes.now) }
                ensures { result ≡ pages.page_hash bytes.entry.now number }
            { page_hash(bytes, number) },
        )
        .collect::<Vec<[u8; 32]>>(rt, alloc)?;
    Ok(hashes)
}
