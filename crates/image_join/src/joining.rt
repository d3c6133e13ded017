//! Parts at their places.

ghost use Rattle.std.specs.Prelude.{◌≡◌, ◌+◌, ◌≤◌, ◌<◌, ◌^◌, length, IfOk};
ghost use Rattle.image_join.specs.Joined.{AreRising, LieApart, joined};
ghost use Rattle.image_join.specs.inner.Writing.{with_part, with_parts};

use crate::parts::{Part, Parts};
use mo_types::OutOfMemory;
use std::alloc::Global;

// Writes a part at its place.
fn write_part(image: &mut [u8], part: &Part)
    requires { part.now.from + length part.now.bytes ≤ length image.old }
    ensures { image.new ≡ with_part image.old part.now }
{
    let bytes = part.bytes.as_slice();
    let from = part.from as usize;
    image[from..from + bytes.len()].copy_from_slice(bytes);
}

// Writes parts at their places, each over what stands there.
#[tactic(auto, using(crate::proofs::WritingLemmas::writes))]
fn write_parts(image: &mut [u8], parts: &[Part])
    requires { AreRising 0 (length image.old) parts.now }
    ensures { image.new ≡ with_parts image.old parts.now }
{
    for part in parts {
        write_part(image, part);
    }
}

/// The image of its parts: each byte is that of the part that covers it, and 0 where none does. It has room for the
/// atoms, which are written afterwards.
///
/// Memory is taken once, as much as the image has bytes.
#[tactic(auto, using(crate::proofs::WritingLemmas::joining))]
pub fn join(alloc: Global, parts: &Parts) -> Result<Vec<u8>, OutOfMemory>
    requires apart { LieApart parts.now }
    requires size { parts.now.size < 2 ^ 32 }
    ensures joined { IfOk result (λ image. image.items ≡ joined parts.now) }
{
    let mut image = vec![in alloc; 0u8; parts.size as usize]?;
    write_parts(image.as_mut_slice(), parts.parts.as_slice());
    Ok(image)
}
