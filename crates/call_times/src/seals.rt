//! Images that are sealed, and their pages hashed once.
use crate::branches::sum_of;
use anyhow::{Result, bail};
use image_join::{Seal, seal};
use mo_types::{Bytes, OutOfMemory};
use sign_adhoc::{hash_pages, signature_size};
use std::alloc::Global;
use std::thread::Threads;
use std::time::Instant;

// Where the UUID stands.
const UUID_AT: u64 = 512;

const IDENTIFIER: &[u8] = b"image";

// So many bytes that count from 0 to 250 again and again, with room for so many behind them.
fn image_of(alloc: Global, size: u32, room: u64) -> Result<Vec<u8>, OutOfMemory> {
    let size = size as usize;
    let mut image = vec![in alloc; 0u8; size.saturating_add(room as usize)]?;
    for (i, byte) in image.iter_mut().take(size).enumerate() {
        *byte = (i % 251) as u8;
    }
    Ok(image)
}

fn places_of(size: u32) -> Seal {
    Seal {
        uuid_at: UUID_AT,
        signature_at: u64::from(size),
        text_size: 0x4000,
        identifier: Bytes::from_static(IDENTIFIER),
        main: true,
    }
}

// Seals an image, and prints the microseconds that it took.
fn sealed<T: Threads + Sync>(
    rt: &HostRuntime,
    threads: &T,
    workers: u32,
    image: &mut [u8],
    places: &Seal,
) -> Result<()> {
    let identifier = places.identifier.as_slice();
    if identifier.len() > 1 << 30 || image.len() >= 1 << 32 {
        bail!("the image is too large");
    }
    let room = signature_size(identifier, places.signature_at);
    if places.uuid_at > 1 << 32
        || places.uuid_at + 16 > places.signature_at
        || places.signature_at > 1 << 32
        || room > 1 << 32
        || places.signature_at + room != image.len() as u64
    {
        bail!("the places aren't in the image");
    }
    let start = Instant::now(rt)?;
    seal(threads, rt.alloc(), workers, image, places)?;
    eprintln!(rt; "{}", start.elapsed(rt)?.as_micros())?;
    Ok(())
}

/// Has workers seal an image of so many bytes and its signature, and prints the sum of its bytes, which is the same for
/// every number of workers.
pub(crate) fn seal_image<T: Threads + Sync>(
    rt: &HostRuntime,
    threads: &T,
    workers: u32,
    size: u32,
) -> Result<()> {
    let places = places_of(size);
    let room = signature_size(IDENTIFIER, places.signature_at);
    let mut image = image_of(rt.alloc(), size, room)?;
    sealed(rt, threads, workers, image.as_mut_slice(), &places)?;
    println!(rt; "{}", sum_of(image.as_slice()))?;
    Ok(())
}

/// Has workers hash the pages of so many bytes, and prints the sum of the hashes' bytes, which is the same for every
/// number of workers.
pub(crate) fn hash_image<T: Threads + Sync>(
    rt: &HostRuntime,
    threads: &T,
    workers: u32,
    size: u32,
) -> Result<()> {
    let image = image_of(rt.alloc(), size, 0)?;
    let start = Instant::now(rt)?;
    let hashes = hash_pages(threads, rt.alloc(), workers, image.as_slice())?;
    eprintln!(rt; "{}", start.elapsed(rt)?.as_micros())?;
    println!(rt; "{}", sum_of(hashes.as_slice().as_flattened()))?;
    Ok(())
}
