//! The UUID and the signature of an image, written over what stands at their places.

ghost use Rattle.std.specs.Prelude.{◌≡◌, ℕ, ◌-◌, ◌≤◌, ◌++◌, length, replicate, slice_index, OnOk};
ghost use Rattle.sign_adhoc.specs.Signature.{signature_size};
ghost use Rattle.sign_adhoc.specs.Standing.{IsNamed, IsSigned};
ghost use Rattle.image_join.specs.Sealed.{HasPlaces, IsSealed, IsUnsealed};

use crate::parts::Seal;
use mo_types::OutOfMemory;
use sign_adhoc::{identify, sign_hashes};
use std::alloc::Global;
use std::thread::Threads;

// Writes bytes with zeros behind them.
fn put_padded(place: &mut [u8], bytes: &[u8])
    requires { length bytes.now ≤ length place.old }
    ensures { place.new ≡ bytes.now ++ replicate (length place.old - length bytes.now) 0 }
{
    let (front, zeros) = place.split_at_mut(bytes.len());
    front.copy_from_slice(bytes);
    zeros.fill(0);
}

/// Writes the UUID of an image and then its ad-hoc signature, each over what stands at its place, and leaves all other
/// bytes (`cs_blobs.h`, RFC 9562).
///
/// The UUID is made of the hashes of the pages before the signature, with zeros in its place. All pages are hashed once,
/// by so many threads at most, and those that hold the UUID a second time. On want of memory the bytes of the UUID and of
/// the signature are unstated.
pub fn seal<R: Threads + Sync>(
    rt: &R,
    alloc: Global,
    workers: u32,
    image: &mut [u8],
    seal: &Seal,
) -> Result<(), OutOfMemory>
    requires { HasPlaces seal.now (length image.old) }
    ensures sealed { OnOk result (IsSealed seal.now image.new) }
    // Where its command names the signature, a check of the image is good.
    ensures good { OnOk result (IsNamed image.new seal.now.signature_at (signature_size (length seal.now.identifier) seal.now.signature_at)
        → IsSigned image.new) }
    ensures beside { (k : ℕ) → IsUnsealed seal.now k → slice_index image.new k ≡ slice_index image.old k }
{
    let (front, place) = image.split_at_mut(seal.signature_at as usize);
    let hashes = identify(rt, alloc, workers, front, seal.uuid_at as usize)?;
    let signature = sign_hashes(
        alloc,
        front.len(),
        hashes.as_slice(),
        seal.identifier.as_slice(),
        seal.text_size,
        seal.main,
    )?;
    put_padded(place, signature.as_slice());
    Ok(())
}
