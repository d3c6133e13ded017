//! The load commands of an object (`loader.h`: `load_command`).

ghost use Rattle.std.specs.Prelude.{◌≡◌, ◌+◌, ◌*◌, ◌≤◌, None, true, false, length, IfOk};
ghost use Rattle.mo_types.specs.Gives.{Gives};
ghost use Rattle.mo_obj.specs.Commands as commands;
ghost use Rattle.mo_obj.specs.Commands.{IsFrame};
ghost use Rattle.mo_obj.specs.Faults.{IsObjFault};

use mo_bytes::read_u32;
use mo_format::loader::{LC_SEGMENT_64, LC_SYMTAB};
use mo_format::{MachHeader, SegmentCommand};
use mo_types::{Items, ObjFault, OutOfMemory, Rule};
use std::alloc::Global;

/// The places of commands in a file.
pub type Places = Items<usize>;

/// What is read of the commands. An object without a segment has no headers.
#[derive(Clone, Copy, Debug, PartialEq, Eq)]
pub struct Frame {
    /// The offset of the first section's header in the file.
    pub headers: usize,
    /// How many sections there are.
    pub count: usize,
    /// The offset of the symbol table's command.
    pub symtab: Option<usize>,
}

#[tactic(auto, unfolding(crate::specs::Commands::size_at))]
fn size_at(bytes: &[u8], at: usize) -> usize
    requires { at + 8 ≤ length bytes.now }
    ensures { result ≡ commands.size_at bytes.now at }
{
    read_u32(bytes, at + 4).unwrap_or(0) as usize
}

// Whether the command at a place passes the end, or its size is below 8 or no multiple of 8.
fn is_broken(bytes: &[u8], end: usize, at: usize) -> bool
    requires end { end ≤ length bytes.now }
    requires at { at ≤ end }
    ensures exact { result ≡ commands.is_broken bytes.now end at }
    ensures within { result ≡ false → at + commands.size_at bytes.now at ≤ end }
{
    if end - at < 8 {
        return true;
    }
    let size = size_at(bytes, at);
    size < 8 || size % 8 != 0 || size > end - at
}

/// The places of the load commands, in their order.
#[tactic(auto, using(crate::proofs::WalkLemmas::walks), unfolding(crate::specs::Commands::commands_of))]
pub fn commands_of(alloc: Global, bytes: &[u8], header: &MachHeader) -> Result<Places, ObjFault>
    requires { 32 ≤ length bytes.now }
    ensures { Gives IsObjFault result (commands.commands_of bytes.now header.now) }
{
    let end = bytes.len().min(32 + header.sizeofcmds as usize);
    let mut places = Vec::new(alloc);
    let mut at = 32;
    for _number in 0..header.ncmds {
        if is_broken(bytes, end, at) {
            return Err(ObjFault::Malformed {
                place: at as u64,
                rule: Rule::Commands,
            });
        }
        places.push(at)?;
        at += size_at(bytes, at);
    }
    Ok(Places::from_vec(places))
}

fn is_command(bytes: &[u8], kind: u32, at: usize) -> bool
    ensures { result ≡ commands.is_command bytes.now kind at }
{
    match read_u32(bytes, at) {
        Some(cmd) => cmd == kind,
        None => false,
    }
}

#[tactic(auto, unfolding(crate::specs::Commands::commands_of_kind))]
fn commands_of_kind(
    alloc: Global,
    bytes: &[u8],
    kind: u32,
    places: &[usize],
) -> Result<Vec<usize>, OutOfMemory>
    ensures { IfOk result (λ found. found.items ≡ commands.commands_of_kind bytes.now kind places.now) }
{
    let found = places
        .iter()
        .copied()
        .filter(|at| is_command(bytes, kind, *at))
        .collect(alloc)?;
    Ok(found)
}

fn segment_at(bytes: &[u8], at: usize) -> Option<SegmentCommand>
    ensures { result ≡ commands.segment_at bytes.now at }
{
    if at > bytes.len() || bytes.len() - at < SegmentCommand::SIZE {
        return None;
    }
    Some(SegmentCommand::read(bytes, at))
}

fn is_whole_segment(bytes: &[u8], at: usize) -> bool
    ensures exact { result ≡ commands.is_whole_segment bytes.now at }
    ensures within { result ≡ true → at + 72 + 80 * (commands.count_at bytes.now at) ≤ length bytes.now }
{
    match segment_at(bytes, at) {
        Some(segment) => {
            segment.nsects <= 255
                && segment.cmdsize == 72 + 80 * segment.nsects
                && segment.cmdsize as usize <= bytes.len() - at
        }
        None => false,
    }
}

// The first segment where it isn't whole, or the second one.
fn bad_segment(bytes: &[u8], segments: &[usize]) -> Option<usize>
    ensures { result ≡ commands.bad_segment bytes.now segments.now }
{
    match segments {
        [] => None,
        [at, others @ ..] => {
            if is_whole_segment(bytes, *at) {
                others.first().copied()
            } else {
                Some(*at)
            }
        }
    }
}

fn lesser(a: Option<usize>, b: Option<usize>) -> Option<usize>
    ensures { result ≡ commands.lesser a b }
{
    match (a, b) {
        (Some(a), Some(b)) => Some(a.min(b)),
        (Some(a), None) => Some(a),
        (None, b) => b,
    }
}

fn frame_at(bytes: &[u8], segments: &[usize], symtab: Option<usize>) -> Frame
    requires { commands.bad_segment bytes.now segments.now ≡ None }
    ensures exact { result ≡ commands.frame_with bytes.now segments.now symtab }
    ensures within { IsFrame bytes.now result }
{
    match segments {
        [] => Frame {
            headers: 0,
            count: 0,
            symtab,
        },
        [at, ..] => Frame {
            headers: *at + SegmentCommand::SIZE,
            count: SegmentCommand::read(bytes, *at).nsects as usize,
            symtab,
        },
    }
}

/// What is read of the commands, where there are no two segments and no two symbol tables.
#[tactic(auto, unfolding(crate::specs::Commands::frame_of))]
pub fn frame_of(alloc: Global, bytes: &[u8], places: &[usize]) -> Result<Frame, ObjFault>
    ensures exact { Gives IsObjFault result (commands.frame_of bytes.now places.now) }
    ensures within { IfOk result (IsFrame bytes.now) }
{
    let segments = commands_of_kind(alloc, bytes, LC_SEGMENT_64, places)?;
    let symtabs = commands_of_kind(alloc, bytes, LC_SYMTAB, places)?;
    let second = symtabs.get(1).copied();
    if let Some(place) = lesser(bad_segment(bytes, segments.as_slice()), second) {
        return Err(ObjFault::Malformed {
            place: place as u64,
            rule: Rule::Segment,
        });
    }
    let symtab = symtabs.first().copied();
    Ok(frame_at(bytes, segments.as_slice(), symtab))
}
