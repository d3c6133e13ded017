//! The starts of the chains.
ghost use Rattle.std.specs.Prelude.{◌≡◌, ◌+◌, ◌<◌, ◌++◌, ◌^◌, ◌%◌, IfOk, OnOk};
ghost use Rattle.mo_bytes.specs.Number.{number_bytes};
ghost use Rattle.fixup_chain.specs.Encoded.{AreApart};
ghost use Rattle.fixup_chain.specs.Places.{addresses_of};
ghost use Rattle.fixup_chain.specs.Starts as starts;

use crate::chains::Fixup;
use crate::places::{PAGE, page_start, pages_of};
use image_format::fixup_chains::DYLD_CHAINED_PTR_64_OFFSET;
use image_format::{ChainedStartsInImage, ChainedStartsInSegment};
use mo_types::OutOfMemory;
use sect_place::Segment;
use std::alloc::Global;

#[tactic(auto, unfolding(mo_bytes::specs::Number::number_bytes))]
fn put_u16(out: &mut Vec<u8>, value: u16) -> Result<(), OutOfMemory>
    ensures { OnOk result (out.new.items ≡ out.old.items ++ number_bytes 2 value) }
{
    out.extend_from_slice(&value.to_le_bytes())?;
    Ok(())
}

#[tactic(auto, unfolding(mo_bytes::specs::Number::number_bytes))]
fn put_u32(out: &mut Vec<u8>, value: u32) -> Result<(), OutOfMemory>
    ensures { OnOk result (out.new.items ≡ out.old.items ++ number_bytes 4 value) }
{
    out.extend_from_slice(&value.to_le_bytes())?;
    Ok(())
}

/// Appends zeros up to the next multiple of a size, where so many bytes stand before.
#[tactic(auto, unfolding(crate::specs::Starts::zeros_to))]
pub(crate) fn put_zeros(out: &mut Vec<u8>, size: usize, at: usize) -> Result<(), OutOfMemory>
    requires { 0 < size }
    ensures { OnOk result (out.new.items ≡ out.old.items ++ starts.zeros_to size at) }
{
    let count = (size - at % size) % size;
    for _zero in 0..count {
        out.push(0)?;
    }
    Ok(())
}

// Appends where the chains of some pages begin.
#[tactic(auto, using(crate::proofs::StartLemmas::paging))]
fn put_pages(out: &mut Vec<u8>, fixups: &[Fixup], page: u64, count: u64) -> Result<(), OutOfMemory>
    requires apart { AreApart fixups.now }
    requires small { page + count < 2 ^ 64 }
    ensures { OnOk result (out.new.items ≡ out.old.items ++ starts.page_starts (addresses_of fixups.now) page count) }
{
    for at in 0..count {
        put_u16(out, page_start(fixups, page + at))?;
    }
    Ok(())
}

// Appends the starts of a segment's chains, with those of some pages, of an image that begins at `base`.
#[tactic(auto, using(crate::proofs::Appends::appends), unfolding(crate::specs::Starts::segment_bytes))]
fn put_segment(
    out: &mut Vec<u8>,
    fixups: &[Fixup],
    base: u64,
    segment: &Segment,
    count: u64,
) -> Result<(), OutOfMemory>
    requires apart { AreApart fixups.now }
    requires few { count < 2 ^ 51 }
    ensures { OnOk result (out.new.items ≡ out.old.items ++ starts.segment_bytes (addresses_of fixups.now) base segment.now count) }
{
    ChainedStartsInSegment {
        size: ((22 + 2 * count) % 0x1_0000_0000) as u32,
        page_size: PAGE as u16,
        pointer_format: DYLD_CHAINED_PTR_64_OFFSET,
        segment_offset: segment.address.saturating_sub(base),
        max_valid_pointer: 0,
        page_count: (count % 0x1_0000) as u16,
    }
    .write(out)?;
    put_pages(out, fixups, segment.address / PAGE, count)
}

// Appends what a segment has among the starts, behind so many bytes.
#[tactic(auto, using(crate::proofs::Appends::appends), unfolding(crate::specs::Starts::part_of))]
fn put_part(
    out: &mut Vec<u8>,
    fixups: &[Fixup],
    base: u64,
    segment: &Segment,
    at: usize,
) -> Result<(), OutOfMemory>
    requires apart { AreApart fixups.now }
    ensures { OnOk result (out.new.items ≡ out.old.items ++ starts.part_of (addresses_of fixups.now) base at segment.now) }
{
    let count = pages_of(fixups, segment);
    if count == 0 {
        return Ok(());
    }
    put_zeros(out, 8, at)?;
    put_segment(out, fixups, base, segment, count)
}

// Where the starts of a segment are that stand behind so many bytes, or 0.
#[tactic(auto, using(crate::proofs::StartLemmas::zeros), unfolding(crate::specs::Starts::offset_of))]
fn offset_of(fixups: &[Fixup], segment: &Segment, at: usize) -> u32
    requires { AreApart fixups.now }
    ensures { result ≡ starts.offset_of (addresses_of fixups.now) at segment.now % 2 ^ 32 }
{
    if pages_of(fixups, segment) == 0 {
        0
    } else {
        ((at as u128 + ((8 - at % 8) % 8) as u128) % 0x1_0000_0000) as u32
    }
}

// The offsets of the segments' starts, and these.
#[derive(Drop)]
struct Listing {
    offsets: Vec<u8>,
    parts: Vec<u8>,
}

#[tactic(auto, using(crate::proofs::StartLemmas::listing))]
fn listed(
    alloc: Global,
    fixups: &[Fixup],
    base: u64,
    segments: &[Segment],
) -> Result<Listing, OutOfMemory>
    requires { AreApart fixups.now }
    ensures offsets { IfOk result (λ listed. listed.offsets.items
        ≡ starts.offsets_from (addresses_of fixups.now) base (starts.lead segments.now) segments.now) }
    ensures parts { IfOk result (λ listed. listed.parts.items ≡ starts.parts_from (addresses_of fixups.now) base (starts.lead segments.now) segments.now) }
{
    let mut offsets = Vec::new(alloc);
    let mut parts = Vec::new(alloc);
    let lead = 4 + 4 * segments.len();
    for (index, segment) in segments.iter().enumerate() {
        let at = lead + parts.as_slice().len();
        put_u32(&mut offsets, offset_of(fixups, segment, at))?;
        put_part(&mut parts, fixups, base, segment, at)?;
    }
    Ok(Listing { offsets, parts })
}

/// The starts of all chains of an image that begins at `base`: dyld_chained_starts_in_image with the offsets of the
/// segments' starts, and these.
#[tactic(auto, using(crate::proofs::StartLemmas::whole))]
pub(crate) fn starts_of(
    alloc: Global,
    fixups: &[Fixup],
    base: u64,
    segments: &[Segment],
) -> Result<Vec<u8>, OutOfMemory>
    requires { AreApart fixups.now }
    ensures { IfOk result (λ made. made.items ≡ starts.starts_bytes (addresses_of fixups.now) base segments.now) }
{
    let all = listed(alloc, fixups, base, segments)?;
    let count = segments.len();
    let mut made = Vec::new(alloc);
    ChainedStartsInImage {
        seg_count: (count % 0x1_0000_0000) as u32,
    }
    .write(&mut made)?;
    made.extend_from_slice(all.offsets.as_slice())?;
    made.extend_from_slice(all.parts.as_slice())?;
    Ok(made)
}
