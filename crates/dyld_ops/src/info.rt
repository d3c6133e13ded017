//! What an image tells of its tables and its segments (`loader.h`: `dyld_info_command`, `segment_command_64`).

ghost use Rattle.std.specs.Prelude.{◌≡◌, ◌+◌, ◌≤◌, length, IfOk, IfSome};
ghost use Rattle.image_read.specs.Commands as commands;
ghost use Rattle.image_read.specs.Commands.{IsFitting};
ghost use Rattle.image_read.specs.Mapped.{is_segment};
ghost use Rattle.image_read.specs.Meaning.{base_of, text_at, text_of};
ghost use Rattle.mo_bytes.specs.Number as numbers;
ghost use Rattle.dyld_ops.specs.Image as images;
ghost use Rattle.dyld_ops.specs.inner.Leaves.{IsLayout};

use crate::fixup::OpsFault;
use crate::loader::LC_DYLD_INFO_ONLY;
use byteorder::{ByteOrder, LittleEndian};
use image_read::{cmd, cmdsize, fits, ncmds};
use mo_format::SegmentCommand;
use mo_format::loader::LC_SEGMENT_64;
use mo_types::OutOfMemory;
use std::alloc::Global;

// The bytes of `dyld_info_command`, and where the offsets of its tables stand in it.
const INFO_SIZE: usize = 48;

const REBASE_OFF_AT: usize = 8;

const BIND_OFF_AT: usize = 16;

// How the name of the segment begins from whose address the image's offsets count.
const SEG_TEXT: &[u8] = b"__TEXT\0";

/// A part of the file, by its offset and its size in bytes.
#[derive(Clone, Copy, Debug, PartialEq, Eq)]
pub struct Part {
    pub at: u32,
    pub size: u32,
}

/// Where the tables of rebases and binds stand.
#[derive(Clone, Copy, Debug, PartialEq, Eq)]
pub struct DyldInfo {
    pub rebases: Part,
    pub binds: Part,
}

/// Where the segments of an image stand.
#[derive(Drop)]
pub struct Layout {
    /// The address of each segment, in the order of the commands.
    pub addresses: Vec<u64>,
    /// The address from which the image's offsets count.
    pub base: Option<u64>,
}

#[tactic(auto, unfolding(mo_bytes::specs::Number::number))]
fn number(image: &[u8], at: usize) -> u32
    requires { at + 4 ≤ length image.now }
    ensures { result ≡ numbers.number 4 image.now at }
{
    LittleEndian::read_u32(&image[at..])
}

fn part_at(image: &[u8], at: usize) -> Part
    requires { at + 8 ≤ length image.now }
    ensures { result ≡ images.part_at image.now at }
{
    Part {
        at: number(image, at),
        size: number(image, at + 4),
    }
}

#[tactic(auto, unfolding(crate::specs::Image::info_at))]
fn info_at(image: &[u8], at: usize) -> Option<usize>
    requires header { at + 8 ≤ length image.now }
    requires whole { at + commands.cmdsize image.now at ≤ length image.now }
    ensures value { result ≡ images.info_at image.now at }
    ensures header { IfSome result (λ found. found + 8 ≤ length image.now) }
    ensures whole { IfSome result (λ found. found + commands.cmdsize image.now found ≤ length image.now) }
{
    if cmd(image, at) != LC_DYLD_INFO_ONLY {
        return None;
    }
    Some(at)
}

#[tactic(auto, using(image_read::proofs::CommandLemmas::walks, image_read::proofs::CommandLemmas::searches), unfolding(crate::specs::Image::info_command))]
fn info_command(image: &[u8]) -> Option<usize>
    requires { IsFitting image.now }
    ensures value { result ≡ images.info_command image.now }
    ensures header { IfSome result (λ found. found + 8 ≤ length image.now) }
    ensures whole { IfSome result (λ found. found + commands.cmdsize image.now found ≤ length image.now) }
{
    let mut at = 32;
    for _number in 0..ncmds(image) {
        if let Some(found) = info_at(image, at) {
            return Some(found);
        }
        at += cmdsize(image, at);
    }
    None
}

/// The tables of an image, or `None` where it has none. The fault is that of commands that don't fit the file.
#[tactic(auto, unfolding(crate::specs::Image::info_of))]
pub fn info_of(image: &[u8]) -> Result<Option<DyldInfo>, OpsFault>
    ensures value { result ≡ images.info_of image.now }
    ensures fitting { IfOk result (λ info. IsFitting image.now) }
{
    if !fits(image) {
        return Err(OpsFault::Broken { place: 0 });
    }
    let Some(at) = info_command(image) else {
        return Ok(None);
    };
    if cmdsize(image, at) < INFO_SIZE {
        return Err(OpsFault::Broken { place: 0 });
    }
    Ok(Some(DyldInfo {
        rebases: part_at(image, at + REBASE_OFF_AT),
        binds: part_at(image, at + BIND_OFF_AT),
    }))
}

// Whether the command at a place is a segment.
fn is_segment(image: &[u8], at: usize) -> bool
    requires { at + 8 ≤ length image.now }
    ensures { result ≡ is_segment image.now at }
{
    cmd(image, at) == LC_SEGMENT_64 && cmdsize(image, at) >= SegmentCommand::SIZE
}

#[tactic(auto, using(image_read::proofs::CommandLemmas::walks, crate::proofs::AddressLemmas::gathers))]
fn addresses_of(alloc: Global, image: &[u8]) -> Result<Vec<u64>, OutOfMemory>
    requires { IsFitting image.now }
    ensures { IfOk result (λ addresses. addresses.items ≡ images.addresses_of image.now) }
{
    let mut addresses = Vec::new(alloc);
    let mut at = 32;
    for _number in 0..ncmds(image) {
        if is_segment(image, at) {
            addresses.push(SegmentCommand::read(image, at).vmaddr)?;
        }
        at += cmdsize(image, at);
    }
    Ok(addresses)
}

#[tactic(auto, unfolding(image_read::specs::Meaning::text_at))]
fn text_at(image: &[u8], at: usize) -> Option<SegmentCommand>
    requires header { at + 8 ≤ length image.now }
    requires whole { at + commands.cmdsize image.now at ≤ length image.now }
    ensures { result ≡ text_at image.now at }
{
    if !is_segment(image, at) {
        return None;
    }
    let segment = SegmentCommand::read(image, at);
    if !segment.segname.starts_with(SEG_TEXT) {
        return None;
    }
    Some(segment)
}

#[tactic(auto, using(image_read::proofs::CommandLemmas::walks, image_read::proofs::CommandLemmas::searches), unfolding(image_read::specs::Meaning::text_of))]
fn text_of(image: &[u8]) -> Option<SegmentCommand>
    requires { IsFitting image.now }
    ensures { result ≡ text_of image.now }
{
    let mut at = 32;
    for _number in 0..ncmds(image) {
        if let Some(segment) = text_at(image, at) {
            return Some(segment);
        }
        at += cmdsize(image, at);
    }
    None
}

#[tactic(auto, using(crate::proofs::AddressLemmas::fits_so), unfolding(image_read::specs::Meaning::base_of))]
fn base_of(image: &[u8]) -> Option<u64>
    requires { IsFitting image.now }
    ensures { result ≡ base_of image.now }
{
    let segment = text_of(image)?;
    Some(segment.vmaddr)
}

/// Where the segments of an image stand.
pub fn layout_of(alloc: Global, image: &[u8]) -> Result<Layout, OutOfMemory>
    requires { IsFitting image.now }
    ensures { IfOk result (IsLayout image.now) }
{
    Ok(Layout {
        addresses: addresses_of(alloc, image)?,
        base: base_of(image),
    })
}
