//! What the load commands of a library say of it (`loader.h`: `dylib_command`, `linkedit_data_command`).

ghost use Rattle.std.specs.Prelude.{◌≡◌, ◌+◌, ◌<◌, length, take, drop, IfOk, IfSome};
ghost use Rattle.std.specs.Option.{option_map};
ghost use Rattle.std.specs.Str as strings;
ghost use Rattle.mo_strings.specs.Strings.{string_at};
ghost use Rattle.mo_types.specs.Gives.{Gives};
ghost use Rattle.dylib_read.specs.Commands as commands;
ghost use Rattle.dylib_read.specs.Faults.{IsDylibFault};
ghost use Rattle.dylib_read.specs.Head as head;

use crate::commands::{command_at, commands_of, field, header_of};
use crate::fault::{DylibFault, DylibRule};
use crate::roles::{Roles, TrieCommand, is_reexport, roles_of};
use mo_strings::first_nul;
use mo_types::{Bytes, NameList, OutOfMemory};
use std::alloc::Global;

/// Where the trie of the exports is, which may lie outside the file.
#[derive(Clone, Copy, Debug, PartialEq, Eq)]
pub struct TrieRange {
    /// Its offset in the file.
    pub offset: u32,
    /// How many bytes it has.
    pub size: u32,
}

// Where a name is in its command.
#[derive(Clone, Copy)]
struct NameRange {
    at: usize,
    size: usize,
}

/// What a library's load commands say of it.
#[derive(Debug, Drop)]
pub struct DylibHead {
    /// The install name, by which others name the library.
    pub install: Bytes,
    /// The version: X.Y.Z as the hexadecimal digits `xxxxyyzz`.
    pub current: u32,
    /// The least version that users of the library may ask for, in that form.
    pub compatible: u32,
    /// The install names of the libraries whose exports are this one's, too, in the order of their commands.
    pub reexports: NameList,
    /// The trie of the exports, where a command speaks of one.
    pub trie: Option<TrieRange>,
}

#[tactic(auto, using(crate::proofs::HeadLemmas::utf8))]
fn is_utf8(text: &[u8]) -> bool
    ensures { result ≡ strings.is_utf8 text.now }
{
    match std::str::from_utf8(text) {
        Ok(_) => true,
        Err(_) => false,
    }
}

// How many bytes there are from a place up to the NUL that follows.
#[tactic(auto, using(crate::proofs::HeadLemmas::texts), unfolding(mo_strings::specs::Strings::string_at))]
fn text_size(command: &[u8], at: usize) -> Option<usize>
    ensures value { option_map (λ size. take size (drop at command.now)) result ≡ string_at command.now at }
    ensures within { IfSome result (λ size. at + size < length command.now) }
{
    if at > command.len() {
        return None;
    }
    first_nul(&command[at..])
}

// Where the name is that a command has, which is UTF-8 and ends within it.
#[tactic(auto, unfolding(crate::specs::Head::name_of))]
fn name_range(command: &[u8]) -> Option<NameRange>
    ensures value { option_map (λ range. take range.size (drop range.at command.now)) result ≡ head.name_of command.now }
    ensures within { IfSome result (λ range. range.at + range.size < length command.now) }
{
    let at = field(command, 8) as usize;
    let size = text_size(command, at)?;
    if is_utf8(&command[at..at + size]) {
        Some(NameRange { at, size })
    } else {
        None
    }
}

fn is_nameless(command: &[u8]) -> bool
    ensures { result ≡ head.is_nameless command.now }
{
    command.len() < 24 || name_range(command).is_none()
}

fn is_cut_short(trie: Option<TrieCommand>, at: usize, size: usize) -> bool
    ensures { result ≡ head.is_any_cut_short trie at size }
{
    match trie {
        Some(trie) => trie.at == at && size < if trie.info { 48 } else { 16 },
        None => false,
    }
}

#[tactic(auto, unfolding(crate::specs::Head::is_bad))]
fn is_bad(bytes: &[u8], roles: &Roles, at: usize) -> bool
    ensures { result ≡ head.is_bad bytes.now roles.now at }
{
    let command = command_at(bytes, at);
    if (roles.id == at || is_reexport(bytes, at)) && is_nameless(command) {
        return true;
    }
    is_cut_short(roles.trie, at, command.len())
}

fn first_bad(bytes: &[u8], roles: &Roles, places: &[usize]) -> Option<usize>
    ensures { result ≡ head.first_bad bytes.now roles.now places.now }
{
    places.iter().copied().find(|at| is_bad(bytes, roles, *at))
}

// The bytes of the command at a place, which are those of the file.
#[tactic(auto, using(crate::proofs::WalkLemmas::parts))]
fn command_of(file: &Bytes, at: usize) -> Result<Bytes, OutOfMemory>
    ensures { IfOk result (λ command. command ≡ commands.command_at file.now at) }
{
    let size = command_at(file.as_slice(), at).len();
    if at > file.len() {
        return Ok(Bytes::new());
    }
    file.part(at, size)
}

// The name in the command at a place, where it has one.
#[tactic(auto, unfolding(crate::specs::Head::name_at))]
fn name_at(file: &Bytes, at: usize) -> Result<Bytes, OutOfMemory>
    ensures { IfOk result (λ name. name ≡ head.name_at file.now at) }
{
    let command = command_of(file, at)?;
    match name_range(command.as_slice()) {
        Some(range) => command.part(range.at, range.size),
        None => Ok(Bytes::new()),
    }
}

#[tactic(auto, using(crate::proofs::HeadLemmas::collects))]
fn reexports_of(alloc: Global, file: &Bytes, places: &[usize]) -> Result<NameList, OutOfMemory>
    ensures { IfOk result (λ names. names ≡ head.reexports_of file.now places.now) }
{
    let mut names = NameList::new(alloc);
    for at in places {
        if is_reexport(file.as_slice(), *at) {
            names.push(name_at(file, *at)?)?;
        }
    }
    Ok(names)
}

#[tactic(auto, unfolding(crate::specs::Head::range_at))]
fn range_at(bytes: &[u8], trie: TrieCommand) -> TrieRange
    ensures { result ≡ head.range_at bytes.now trie }
{
    let command = command_at(bytes, trie.at);
    let place = if trie.info { 40 } else { 8 };
    TrieRange {
        offset: field(command, place),
        size: field(command, place + 4),
    }
}

#[tactic(auto, unfolding(crate::specs::Head::head_with))]
fn head_with(
    alloc: Global,
    file: &Bytes,
    places: &[usize],
    roles: &Roles,
) -> Result<DylibHead, OutOfMemory>
    ensures { IfOk result (λ read. read ≡ head.head_with file.now places.now roles.now) }
{
    let install = name_at(file, roles.id)?;
    let bytes = file.as_slice();
    let id = command_at(bytes, roles.id);
    let current = field(id, 16);
    let compatible = field(id, 20);
    let trie = match roles.trie {
        Some(trie) => Some(range_at(bytes, trie)),
        None => None,
    };
    let reexports = reexports_of(alloc, file, places)?;
    Ok(DylibHead {
        install,
        current,
        compatible,
        reexports,
        trie,
    })
}

fn named(roles: Option<Roles>) -> Result<Roles, DylibFault>
    ensures { Gives IsDylibFault result (head.named roles) }
{
    match roles {
        Some(roles) => Ok(roles),
        None => Err(DylibFault::Malformed {
            place: 0,
            rule: DylibRule::Dylib,
        }),
    }
}

/// What the load commands of a library say of it; or the first of these that stands: the header is cut short, the file
/// is for another machine, it is of another type, a command passes the others' end, none names the library, a command
/// that is read is too small or has no name, at the least such one (`loader.h`). Names are parts of the file.
#[tactic(auto, unfolding(crate::specs::Head::head_of))]
pub fn read_head(alloc: Global, file: &Bytes) -> Result<DylibHead, DylibFault>
    ensures { Gives IsDylibFault result (head.head_of file.now) }
{
    let bytes = file.as_slice();
    let header = header_of(bytes)?;
    let commands = commands_of(alloc, bytes, &header)?;
    let places = commands.as_slice();
    let roles = named(roles_of(bytes, places))?;
    if let Some(at) = first_bad(bytes, &roles, places) {
        return Err(DylibFault::Malformed {
            place: at as u64,
            rule: DylibRule::Dylib,
        });
    }
    Ok(head_with(alloc, file, places, &roles)?)
}
