//! The header and the load commands of a library (`loader.h`: `mach_header_64`, `load_command`).

ghost use Rattle.std.specs.Prelude.{◌≡◌, ◌+◌, ◌≤◌, false, length, IfOk};
ghost use Rattle.mo_types.specs.Gives.{Gives};
ghost use Rattle.dylib_read.specs.Commands as commands;
ghost use Rattle.dylib_read.specs.Faults.{IsDylibFault};

use crate::fault::{DylibFault, DylibRule};
use mo_bytes::read_u32;
use mo_format::MachHeader;
use mo_format::loader::{CPU_SUBTYPE_ARM64_ALL, CPU_TYPE_ARM64, MH_DYLIB};
use mo_types::{Feature, Items};
use std::alloc::Global;

/// The places of commands in a file.
pub type Places = Items<usize>;

/// The header, where the file is a library for arm64.
#[tactic(auto, unfolding(crate::specs::Commands::header_of))]
pub fn header_of(bytes: &[u8]) -> Result<MachHeader, DylibFault>
    ensures exact { Gives IsDylibFault result (commands.header_of bytes.now) }
    ensures within { IfOk result (λ header. 32 ≤ length bytes.now) }
{
    if bytes.len() < MachHeader::SIZE {
        return Err(DylibFault::Malformed {
            place: 0,
            rule: DylibRule::Header,
        });
    }
    let header = MachHeader::read(bytes, 0);
    if header.cputype != CPU_TYPE_ARM64 || header.cpusubtype != CPU_SUBTYPE_ARM64_ALL {
        return Err(DylibFault::Unsupported(Feature::Machine));
    }
    if header.filetype != MH_DYLIB {
        return Err(DylibFault::Unsupported(Feature::FileType));
    }
    Ok(header)
}

/// The number of 4 bytes at a place, or 0 where the bytes end before it does.
#[tactic(auto, unfolding(crate::specs::Commands::field))]
pub fn field(bytes: &[u8], at: usize) -> u32
    ensures { result ≡ commands.field bytes.now at }
{
    read_u32(bytes, at).unwrap_or(0)
}

#[tactic(auto, unfolding(crate::specs::Commands::size_at))]
fn size_at(bytes: &[u8], at: usize) -> usize
    requires { at ≤ length bytes.now }
    ensures { result ≡ commands.size_at bytes.now at }
{
    field(&bytes[at..], 4) as usize
}

/// The bytes of the command at a place, as far as the file has them.
#[tactic(auto, using(crate::proofs::WalkLemmas::cuts), unfolding(crate::specs::Commands::command_at))]
pub fn command_at(bytes: &[u8], at: usize) -> &[u8]
    ensures { result.now ≡ commands.command_at bytes.now at }
{
    if at > bytes.len() {
        return &[];
    }
    let size = size_at(bytes, at);
    let rest = &bytes[at..];
    &rest[..size.min(rest.len())]
}

// Whether the command at a place passes the end, or its size is below 8 or no multiple of 8.
fn is_broken(bytes: &[u8], end: usize, at: usize) -> bool
    requires end { end ≤ length bytes.now }
    requires at { at ≤ end }
    ensures exact { result ≡ commands.is_broken bytes.now end at }
    ensures within { result ≡ false → at + commands.size_at bytes.now at ≤ end }
{
    if end - at < 8 {
        return true;
    }
    let size = size_at(bytes, at);
    size < 8 || size % 8 != 0 || size > end - at
}

/// The places of the load commands, in their order.
#[tactic(auto, using(crate::proofs::WalkLemmas::walks), unfolding(crate::specs::Commands::commands_of))]
pub fn commands_of(alloc: Global, bytes: &[u8], header: &MachHeader) -> Result<Places, DylibFault>
    requires { 32 ≤ length bytes.now }
    ensures { Gives IsDylibFault result (commands.commands_of bytes.now header.now) }
{
    let end = bytes.len().min(32 + header.sizeofcmds as usize);
    let mut places = Vec::new(alloc);
    let mut at = 32;
    for _number in 0..header.ncmds {
        if is_broken(bytes, end, at) {
            return Err(DylibFault::Malformed {
                place: at as u64,
                rule: DylibRule::Commands,
            });
        }
        places.push(at)?;
        at += size_at(bytes, at);
    }
    Ok(Places::from_vec(places))
}
