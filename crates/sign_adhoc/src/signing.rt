//! The signature of an image.

ghost use Rattle.std.specs.Prelude.{◌≡◌, ◌+◌, ◌<◌, ◌^◌, length, IfOk};
ghost use Rattle.sign_adhoc.specs.Signature.{blob_size, signature};

use crate::blob::sign_hashes;
use crate::pages::hash_pages;
use mo_types::{Bytes, OutOfMemory};
use std::alloc::Global;
use std::thread::Threads;

/// The ad-hoc signature of an image, which is what stands in the file before it (`cs_blobs.h`), without zeros behind it.
///
/// `identifier` names the image, `text_size` is how many bytes of the file `__TEXT` has, and `main` tells programs from
/// libraries. The pages are hashed by so many threads at most.
pub fn sign<R: Threads + Sync>(
    rt: &R,
    alloc: Global,
    workers: u32,
    image: &[u8],
    identifier: &[u8],
    text_size: u64,
    main: bool,
) -> Result<Bytes, OutOfMemory>
    requires { length image.now + blob_size (length identifier.now) (length image.now) < 2 ^ 32 }
    ensures { IfOk result (λ bytes. bytes ≡ signature image.now identifier.now text_size main) }
{
    let hashes = hash_pages(rt, alloc, workers, image)?;
    let bytes = sign_hashes(
        alloc,
        image.len(),
        hashes.as_slice(),
        identifier,
        text_size,
        main,
    )?;
    Bytes::from_vec(bytes)
}
