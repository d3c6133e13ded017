//! Which of a library's commands are read (`loader.h`).

ghost use Rattle.std.specs.Prelude.{◌≡◌};
ghost use Rattle.dylib_read.specs.Head as head;

use crate::commands::{command_at, field};
use mo_format::loader::{LC_DYLD_EXPORTS_TRIE, LC_ID_DYLIB, LC_REEXPORT_DYLIB};

/// `dyld_info_command`: fixups as opcodes, and the trie of the exports.
pub const LC_DYLD_INFO: u32 = 0x22;

/// `dyld_info_command`, which a loader may not pass over.
pub const LC_DYLD_INFO_ONLY: u32 = 0x8000_0022;

/// The command that says where the trie of the exports is.
#[derive(Clone, Copy, Debug, PartialEq, Eq)]
pub struct TrieCommand {
    /// Its offset in the file.
    pub at: usize,
    /// Whether it's a `dyld_info_command`.
    pub info: bool,
}

/// Where the commands stand that are there once.
#[derive(Clone, Copy, Debug, PartialEq, Eq)]
pub struct Roles {
    /// The offset of the command that names the library.
    pub id: usize,
    pub trie: Option<TrieCommand>,
}

#[tactic(auto, unfolding(crate::specs::Commands::kind_at))]
fn is_kind(bytes: &[u8], kind: u32, at: usize) -> bool
    ensures { result ≡ head.is_kind bytes.now kind at }
{
    field(command_at(bytes, at), 0) == kind
}

/// Whether a command names a library whose exports are this one's, too.
pub fn is_reexport(bytes: &[u8], at: usize) -> bool
    ensures { result ≡ head.is_reexport bytes.now at }
{
    is_kind(bytes, LC_REEXPORT_DYLIB, at)
}

fn is_info(bytes: &[u8], at: usize) -> bool
    ensures { result ≡ head.is_info bytes.now at }
{
    is_kind(bytes, LC_DYLD_INFO_ONLY, at) || is_kind(bytes, LC_DYLD_INFO, at)
}

fn first_of_kind(bytes: &[u8], kind: u32, places: &[usize]) -> Option<usize>
    ensures { result ≡ head.first_of_kind bytes.now kind places.now }
{
    places.iter().copied().find(|at| is_kind(bytes, kind, *at))
}

fn first_info(bytes: &[u8], places: &[usize]) -> Option<usize>
    ensures { result ≡ head.first_info bytes.now places.now }
{
    places.iter().copied().find(|at| is_info(bytes, *at))
}

fn trie_command(bytes: &[u8], places: &[usize]) -> Option<TrieCommand>
    ensures { result ≡ head.trie_command bytes.now places.now }
{
    if let Some(at) = first_of_kind(bytes, LC_DYLD_EXPORTS_TRIE, places) {
        return Some(TrieCommand { at, info: false });
    }
    let at = first_info(bytes, places)?;
    Some(TrieCommand { at, info: true })
}

/// The commands that are read once, where the file names itself.
#[tactic(auto, unfolding(crate::specs::Head::roles_of))]
pub fn roles_of(bytes: &[u8], places: &[usize]) -> Option<Roles>
    ensures { result ≡ head.roles_of bytes.now places.now }
{
    let id = first_of_kind(bytes, LC_ID_DYLIB, places)?;
    Some(Roles {
        id,
        trie: trie_command(bytes, places),
    })
}
