//! The load commands of an image (`loader.h`: `mach_header_64`, `load_command`).

ghost use Rattle.std.specs.Prelude.{◌≡◌, ◌+◌, ◌≤◌, true, length};
ghost use Rattle.image_read.specs.Commands as commands;
ghost use Rattle.image_read.specs.Commands.{IsFitting};
ghost use Rattle.mo_bytes.specs.Number as numbers;

use byteorder::{ByteOrder, LittleEndian};

// The bytes of `mach_header_64`, and where `ncmds` and `sizeofcmds` stand in it.
const HEADER_SIZE: usize = 32;

const NCMDS_AT: usize = 16;

const SIZEOFCMDS_AT: usize = 20;

/// The 32-bit number at a place.
#[tactic(auto, unfolding(mo_bytes::specs::Number::number))]
pub fn number(image: &[u8], at: usize) -> u32
    requires { at + 4 ≤ length image.now }
    ensures { result ≡ numbers.number 4 image.now at }
{
    LittleEndian::read_u32(&image[at..])
}

/// The 64-bit number at a place.
#[tactic(auto, unfolding(mo_bytes::specs::Number::number))]
pub fn long_number(image: &[u8], at: usize) -> u64
    requires { at + 8 ≤ length image.now }
    ensures { result ≡ numbers.number 8 image.now at }
{
    LittleEndian::read_u64(&image[at..])
}

/// How many commands the header tells.
#[tactic(auto, unfolding(crate::specs::Commands::ncmds))]
pub fn ncmds(image: &[u8]) -> u32
    requires { 32 ≤ length image.now }
    ensures { result ≡ commands.ncmds image.now }
{
    number(image, NCMDS_AT)
}

/// How many bytes the command at a place has.
#[tactic(auto, unfolding(crate::specs::Commands::cmdsize))]
pub fn cmdsize(image: &[u8], at: usize) -> usize
    requires { at + 8 ≤ length image.now }
    ensures { result ≡ commands.cmdsize image.now at }
{
    number(image, at + 4) as usize
}

/// The kind of the command at a place.
#[tactic(auto, unfolding(crate::specs::Commands::cmd))]
pub fn cmd(image: &[u8], at: usize) -> u32
    requires { at + 8 ≤ length image.now }
    ensures { result ≡ commands.cmd image.now at }
{
    number(image, at)
}

#[tactic(auto, unfolding(crate::specs::Commands::sizeofcmds))]
fn end_of(image: &[u8]) -> usize
    requires { 32 ≤ length image.now }
    ensures { result ≡ commands.end_of image.now }
{
    image
        .len()
        .min(HEADER_SIZE + number(image, SIZEOFCMDS_AT) as usize)
}

fn is_command(image: &[u8], end: usize, at: usize) -> bool
    requires end { end ≡ commands.end_of image.now }
    requires place { at ≤ end }
    ensures exact { result ≡ commands.is_command image.now at }
    ensures within { result ≡ true → at + commands.cmdsize image.now at ≤ end }
    ensures header { result ≡ true → at + 8 ≤ end }
{
    if end - at < 8 {
        return false;
    }
    let size = cmdsize(image, at);
    8 <= size && size <= end - at
}

/// Whether the header and the commands fit the file.
#[tactic(auto, using(crate::proofs::CommandLemmas::fitting), unfolding(crate::specs::Commands::fits))]
pub fn fits(image: &[u8]) -> bool
    ensures exact { result ≡ commands.fits image.now }
    ensures fitting { result ≡ true → IsFitting image.now }
{
    if image.len() < HEADER_SIZE {
        return false;
    }
    let end = end_of(image);
    let mut at = HEADER_SIZE;
    for _number in 0..ncmds(image) {
        if !is_command(image, end, at) {
            return false;
        }
        at += cmdsize(image, at);
    }
    true
}
