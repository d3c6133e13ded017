//! Numbers in memory, read at once where their bytes stand in the file one behind the other.

ghost use Rattle.std.specs.Prelude.{◌≡◌, ◌+◌, ◌-◌, ◌≤◌, ◌<◌, ◌^◌, ℕ, true, false, length, Some, None, IfSome};
ghost use Rattle.image_read.specs.Commands as commands;
ghost use Rattle.image_read.specs.Commands.{IsFitting};
ghost use Rattle.image_read.specs.Fixups as fixups;
ghost use Rattle.image_read.specs.Mapped as mapping;
ghost use Rattle.image_read.specs.inner.Window.{IsPart, IsSegmentAt, IsWindow};

use crate::commands::{cmdsize, fits, long_number, ncmds, number};
use crate::memory::{is_segment, mapped};
use mo_format::SegmentCommand;

/// Bytes that an image has in memory as they stand in the file, one behind the other.
#[derive(Clone, Copy, Debug, PartialEq, Eq)]
pub struct Window {
    /// The address of the first one.
    pub from: u64,
    /// How many they are.
    pub size: u64,
    /// The place of the first one in the file.
    pub place: usize,
}

// Whether a segment may have one of `count` addresses from the first one on.
fn meets(segment: &SegmentCommand, first: u64, count: u64) -> bool
    ensures { result ≡ false → (v : ℕ) → first ≤ v → v < first + count → mapping.holds v segment.now ≡ false }
{
    segment.vmaddr.saturating_sub(first) < count
        && first.saturating_sub(segment.vmaddr) < segment.vmsize
}

// What of these addresses a segment has, as far as it stands in the file.
fn part_of(image: &[u8], segment: &SegmentCommand, first: u64, count: u64) -> Option<Window>
    ensures { IfSome result (IsPart image.now segment.now first count) }
{
    let from = first.max(segment.vmaddr);
    let distance = from - segment.vmaddr;
    let place = segment.fileoff.checked_add(distance)?;
    let held = segment.vmsize.min(segment.filesize);
    let length = image.len() as u64;
    if segment.initprot == 0 || held < distance || count < from - first || length < place {
        return None;
    }
    let size = (held - distance)
        .min(count - (from - first))
        .min(length - place);
    Some(Window {
        from,
        size,
        place: place as usize,
    })
}

// The segment at a place, where a segment stands there that may have one of these addresses.
#[tactic(auto, unfolding(crate::specs::Mapped::holder_at))]
fn near_at(image: &[u8], first: u64, count: u64, at: usize) -> Option<SegmentCommand>
    requires header { at + 8 ≤ length image.now }
    requires whole { at + commands.cmdsize image.now at ≤ length image.now }
    ensures some { IfSome result (IsSegmentAt image.now at) }
    ensures none { result ≡ None → (v : ℕ) → first ≤ v → v < first + count → mapping.holder_at image.now v at ≡ None }
{
    if !is_segment(image, at) {
        return None;
    }
    let segment = SegmentCommand::read(image, at);
    if !meets(&segment, first, count) {
        return None;
    }
    Some(segment)
}

/// What of `count` addresses from the first one on the first segment has that may have any.
#[tactic(auto, using(crate::proofs::CommandLemmas::walks, crate::proofs::WindowLemmas::windows))]
pub fn window_in(image: &[u8], first: u64, count: u64) -> Option<Window>
    requires { IsFitting image.now }
    ensures { IfSome result (IsWindow image.now) }
{
    let mut at = 32;
    for _number in 0..ncmds(image) {
        if let Some(segment) = near_at(image, first, count, at) {
            return part_of(image, &segment, first, count);
        }
        at += cmdsize(image, at);
    }
    None
}

fn window_at(image: &[u8], first: u64, count: u64) -> Option<Window>
    ensures { IfSome result (IsWindow image.now) }
{
    if !fits(image) {
        return None;
    }
    window_in(image, first, count)
}

// Whether a window has `count` addresses from the given one on.
fn covers(window: Window, address: u64, count: u64) -> bool
    ensures from { result ≡ true → window.from ≤ address }
    ensures to { result ≡ true → address + count ≤ window.from + window.size }
{
    window.from <= address && count <= window.size && address - window.from <= window.size - count
}

// Where the byte of an address stands in the file.
fn place_in(image: &[u8], window: Window, address: u64, count: u64) -> usize
    requires window { IsWindow image.now window }
    requires from { window.from ≤ address }
    requires to { address + count ≤ window.from + window.size }
    ensures place { result ≡ window.place + (address - window.from) }
    ensures within { result + count ≤ length image.now }
{
    window.place + (address - window.from) as usize
}

#[tactic(auto, using(crate::proofs::WindowLemmas::numbers))]
fn word_of(image: &[u8], window: Window, address: u64) -> u32
    requires window { IsWindow image.now window }
    requires from { window.from ≤ address }
    requires to { address + 4 ≤ window.from + window.size }
    ensures { Some result ≡ fixups.word_at image.now address }
{
    number(image, place_in(image, window, address, 4))
}

#[tactic(auto, using(crate::proofs::WindowLemmas::numbers))]
fn long_of(image: &[u8], window: Window, address: u64) -> u64
    requires window { IsWindow image.now window }
    requires from { window.from ≤ address }
    requires to { address + 8 ≤ window.from + window.size }
    ensures { Some result ≡ fixups.long_at image.now address }
{
    long_number(image, place_in(image, window, address, 8))
}

#[tactic(auto, unfolding(crate::specs::Fixups::short_at))]
fn short_by_bytes(image: &[u8], address: u64) -> Option<u16>
    requires { address + 2 ≤ 2 ^ 64 }
    ensures { result ≡ fixups.short_at image.now address }
{
    let low = mapped(image, address)?;
    let high = mapped(image, address + 1)?;
    Some(u16::from(low) + 0x100 * u16::from(high))
}

#[tactic(auto, unfolding(crate::specs::Fixups::word_at))]
fn word_by_bytes(image: &[u8], address: u64) -> Option<u32>
    requires { address + 4 ≤ 2 ^ 64 }
    ensures { result ≡ fixups.word_at image.now address }
{
    let low = short_by_bytes(image, address)?;
    let high = short_by_bytes(image, address + 2)?;
    Some(u32::from(low) + 0x1_0000 * u32::from(high))
}

#[tactic(auto, unfolding(crate::specs::Fixups::long_at))]
fn long_by_bytes(image: &[u8], address: u64) -> Option<u64>
    requires { address + 8 ≤ 2 ^ 64 }
    ensures { result ≡ fixups.long_at image.now address }
{
    let low = word_by_bytes(image, address)?;
    let high = word_by_bytes(image, address + 4)?;
    Some(u64::from(low) + 0x1_0000_0000 * u64::from(high))
}

/// The number of 4 bytes at an address.
pub fn word_at(image: &[u8], address: u64) -> Option<u32>
    requires { address + 4 ≤ 2 ^ 64 }
    ensures { result ≡ fixups.word_at image.now address }
{
    match window_at(image, address, 4) {
        Some(window) if covers(window, address, 4) => Some(word_of(image, window, address)),
        _ => word_by_bytes(image, address),
    }
}

/// The number of 8 bytes at an address, which a window may have.
pub fn long_by(image: &[u8], window: Option<Window>, address: u64) -> Option<u64>
    requires window { IfSome window (IsWindow image.now) }
    requires range { address + 8 ≤ 2 ^ 64 }
    ensures { result ≡ fixups.long_at image.now address }
{
    match window {
        Some(window) if covers(window, address, 8) => Some(long_of(image, window, address)),
        _ => long_by_bytes(image, address),
    }
}

/// The number of 8 bytes at an address.
pub fn long_at(image: &[u8], address: u64) -> Option<u64>
    requires { address + 8 ≤ 2 ^ 64 }
    ensures { result ≡ fixups.long_at image.now address }
{
    long_by(image, window_at(image, address, 8), address)
}
