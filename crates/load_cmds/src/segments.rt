//! The commands of segments.

ghost use Rattle.std.specs.Prelude.{◌≡◌, ◌+◌, ◌-◌, ◌<◌, ◌≤◌, ◌^◌, ◌++◌, OnOk, length};
ghost use Rattle.load_cmds.specs.Segments as segs;
ghost use Rattle.load_cmds.specs.inner.Counted.{AreCounted};

use crate::fields::{name_field, u32_of, u64_of, whole_pages};
use crate::parts::{PartPlace, PartSizes};
use crate::sections::{Indirect, indirect_of, put_sections};
use mo_format::SegmentCommand;
use mo_format::loader::LC_SEGMENT_64;
use sect_place::{PlacedSection, Segment};
use std::alloc::AllocError;

// The end of a part that is there, or a place behind it.
fn past(there: bool, part: PartPlace, place: u128) -> u128
    requires { place < 2 ^ 65 }
    ensures value { result ≡ segs.past there part place }
    ensures small { result < 2 ^ 65 }
    ensures behind { place ≤ result }
{
    let end = u128::from(part.offset) + u128::from(part.size);
    if there && place < end { end } else { place }
}

// The bytes of `__LINKEDIT` in the file.
#[tactic(auto, unfolding(crate::specs::Segments::parts_end))]
fn linkedit_size(parts: PartSizes, segment: &Segment) -> u128
    ensures size { result ≡ segs.linkedit_size parts segment.now }
    ensures small { result < 2 ^ 65 }
{
    let there = parts.there;
    let start = u128::from(segment.file_offset);
    let end = past(there.fixups, parts.fixups, start);
    let end = past(there.trie, parts.trie, end);
    let end = past(there.symbols, parts.symbols, end);
    let end = past(there.symbols, parts.indirect, end);
    let end = past(there.symbols, parts.strings, end);
    past(there.signature, parts.signature, end) - start
}

fn sized_command(segment: &Segment, memory: u64, file: u64) -> SegmentCommand
    ensures { result ≡ segs.sized_command segment.now memory file }
{
    SegmentCommand {
        cmd: LC_SEGMENT_64,
        cmdsize: u32_of(72 + 80 * u64::from(segment.sections)),
        segname: name_field(segment.name.as_slice()),
        vmaddr: segment.address,
        vmsize: memory,
        fileoff: segment.file_offset,
        filesize: file,
        maxprot: segment.protection,
        initprot: segment.protection,
        nsects: segment.sections,
        flags: segment.flags,
    }
}

fn command_of(parts: PartSizes, last: bool, segment: &Segment) -> SegmentCommand
    ensures { result ≡ segs.segment_command parts last segment.now }
{
    if !last {
        return sized_command(segment, segment.vmsize, segment.file_size);
    }
    let size = linkedit_size(parts, segment);
    sized_command(segment, u64_of(whole_pages(size)), u64_of(size))
}

// Appends the command of a segment with the headers of its sections.
#[tactic(auto, using(crate::proofs::Appends::appends))]
fn put_segment(
    out: &mut Vec<u8>,
    command: SegmentCommand,
    indirect: Indirect,
    sections: &[PlacedSection],
) -> Result<(), AllocError>
    requires few { (indirect.stubs < 2 ^ 61) × (indirect.slots < 2 ^ 61) }
    ensures bytes { OnOk result (out.new.items ≡ out.old.items ++ segs.segment_with command indirect.stubs indirect.slots sections.now) }
{
    command.write(out)?;
    put_sections(out, indirect, sections)
}

/// Appends the commands of segments, each with the headers of its sections, which are the next ones.
#[tactic(auto, using(crate::proofs::SegmentLemmas::segmenting), unfolding(crate::specs::Segments::segments_bytes))]
pub fn put_segments(
    out: &mut Vec<u8>,
    parts: PartSizes,
    segments: &[Segment],
    sections: &[PlacedSection],
) -> Result<(), AllocError>
    requires { AreCounted segments.now sections.now }
    ensures bytes { OnOk result (out.new.items ≡ out.old.items ++ segs.segments_bytes parts segments.now sections.now) }
{
    let indirect = indirect_of(sections);
    let mut first = 0;
    for (i, segment) in segments.iter().enumerate() {
        let next = first + segment.sections as usize;
        let command = command_of(parts, i + 1 == segments.len(), segment);
        put_segment(out, command, indirect, &sections[first..next])?;
        first = next;
    }
    Ok(())
}
