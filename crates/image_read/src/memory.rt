//! The bytes that an image has in memory (`loader.h`: `segment_command_64`).

ghost use Rattle.std.specs.Prelude.{◌≡◌, ◌+◌, ◌≤◌, true, length, IfSome};
ghost use Rattle.mo_format.specs.declared.segment.SegmentCommand.{SegmentCommand};
ghost use Rattle.image_read.specs.Commands as commands;
ghost use Rattle.image_read.specs.Commands.{IsFitting};
ghost use Rattle.image_read.specs.Mapped as mapping;

use crate::commands::{cmd, cmdsize, fits, ncmds};
use mo_format::SegmentCommand;
use mo_format::loader::LC_SEGMENT_64;

/// Whether an address is one of a segment's.
pub fn holds(address: u64, segment: &SegmentCommand) -> bool
    ensures exact { result ≡ mapping.holds address segment.now }
    ensures above { result ≡ true → segment.now.vmaddr ≤ address }
{
    segment.vmaddr <= address && address - segment.vmaddr < segment.vmsize
}

/// Whether the command at a place is a segment.
pub fn is_segment(image: &[u8], at: usize) -> bool
    requires { at + 8 ≤ length image.now }
    ensures exact { result ≡ mapping.is_segment image.now at }
{
    cmd(image, at) == LC_SEGMENT_64 && cmdsize(image, at) >= SegmentCommand::SIZE
}

#[tactic(auto, unfolding(crate::specs::Mapped::holder_at))]
fn holder_at(image: &[u8], address: u64, at: usize) -> Option<SegmentCommand>
    requires header { at + 8 ≤ length image.now }
    requires whole { at + commands.cmdsize image.now at ≤ length image.now }
    ensures value { result ≡ mapping.holder_at image.now address at }
    ensures above { IfSome result (λ segment. segment.vmaddr ≤ address) }
{
    if !is_segment(image, at) {
        return None;
    }
    let segment = SegmentCommand::read(image, at);
    if !holds(address, &segment) {
        return None;
    }
    Some(segment)
}

/// The first segment that holds an address.
#[tactic(auto, using(crate::proofs::CommandLemmas::walks, crate::proofs::CommandLemmas::searches), unfolding(crate::specs::Mapped::holder))]
pub fn holder(image: &[u8], address: u64) -> Option<SegmentCommand>
    requires { IsFitting image.now }
    ensures value { result ≡ mapping.holder image.now address }
    ensures above { IfSome result (λ segment. segment.vmaddr ≤ address) }
{
    let mut at = 32;
    for _number in 0..ncmds(image) {
        if let Some(segment) = holder_at(image, address, at) {
            return Some(segment);
        }
        at += cmdsize(image, at);
    }
    None
}

fn byte_in(image: &[u8], address: u64, segment: &SegmentCommand) -> Option<u8>
    requires { segment.now.vmaddr ≤ address }
    ensures { result ≡ mapping.byte_in image.now address segment.now }
{
    if segment.initprot == 0 {
        return None;
    }
    let distance = address - segment.vmaddr;
    if distance >= segment.filesize {
        return Some(0);
    }
    let place = segment.fileoff.checked_add(distance)?;
    image.get(place as usize).copied()
}

/// The byte that an image has at an address: of the first segment that holds the address, the byte in the file, or
/// zero behind those that the file holds of it. `None` where no segment holds the address, where the segment
/// may not be looked at, where the file ends before the byte, and where the commands don't fit the file.
#[tactic(auto, unfolding(crate::specs::Mapped::mapped))]
pub fn mapped(image: &[u8], address: u64) -> Option<u8>
    ensures { result ≡ mapping.mapped image.now address }
{
    if !fits(image) {
        return None;
    }
    let segment = holder(image, address)?;
    byte_in(image, address, &segment)
}
