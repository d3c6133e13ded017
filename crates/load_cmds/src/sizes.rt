//! How many load commands there are beside those of segments, and how many bytes they have.

ghost use Rattle.std.specs.Prelude.{◌≡◌, ◌+◌, ◌<◌, ◌≤◌, ◌*◌, ◌^◌, All, length};
ghost use Rattle.load_cmds.specs.Sizes as sizes;

use crate::libraries::document_of;
use crate::parts::PartKinds;
use crate::strings::string_command_size;
use command_line::Command;
use lib_bind::{Libraries, Library, LibraryGraph};
use mo_types::Bytes;

fn counted(there: bool, number: u128) -> u128
    ensures { result ≡ sizes.counted there number }
{
    if there { number } else { 0 }
}

/// How many commands an image has beside those of its segments.
#[tactic(auto, unfolding(crate::specs::Sizes::other_count))]
pub fn other_count(there: PartKinds, command: &Command, libs: &LibraryGraph) -> u128
    ensures count { result ≡ sizes.other_count there command.now libs.now }
    ensures small { result < 2 ^ 66 }
{
    let form = if command.dylib { 1 } else { 2 };
    let tables = counted(there.fixups, 1)
        + counted(there.trie, 1)
        + counted(there.symbols, 2)
        + counted(there.uuid, 1)
        + counted(there.signature, 1)
        + 1;
    form + tables + libs.libraries.len() as u128 + command.rpaths.len() as u128
}

fn form_size(command: &Command) -> u128
    ensures size { result ≡ sizes.form_size command.now }
    ensures small { result < 2 ^ 64 }
{
    if command.dylib {
        u128::from(string_command_size(24, command.install.as_slice()))
    } else {
        32 + 24
    }
}

fn table_size(there: PartKinds) -> u128
    ensures size { result ≡ sizes.table_size there }
    ensures small { result < 2 ^ 64 }
{
    counted(there.fixups, 16)
        + counted(there.trie, 16)
        + counted(there.symbols, 24 + 80)
        + counted(there.uuid, 24)
        + counted(there.signature, 16)
        + 24
}

#[tactic(auto, using(crate::proofs::Sums::summing))]
fn libraries_size(libs: &LibraryGraph, libraries: &[Library]) -> u128
    requires { All (λ library. library.document < length libs.now.documents) libraries.now }
    ensures size { result ≡ sizes.total_by (sizes.library_size libs.now) libraries.now }
    ensures small { result ≤ length libraries.now * (2 ^ 63 + 2 ^ 33) }
{
    let mut total = 0;
    for library in libraries {
        total += u128::from(string_command_size(24, document_of(libs, library).install.as_slice()));
    }
    total
}

#[tactic(auto, using(crate::proofs::Sums::summing))]
fn rpaths_size(rpaths: &[Bytes]) -> u128
    ensures size { result ≡ sizes.total_by sizes.rpath_size rpaths.now }
    ensures small { result ≤ length rpaths.now * (2 ^ 63 + 2 ^ 33) }
{
    let mut total = 0;
    for path in rpaths {
        total += u128::from(string_command_size(12, path.as_slice()));
    }
    total
}

/// The bytes of all load commands but those of segments.
#[tactic(auto, unfolding(crate::specs::Sizes::other_size))]
pub fn size_of_others(there: PartKinds, command: &Command, libs: &LibraryGraph) -> u128
    requires { All (λ library. library.document < length libs.now.documents) libs.now.libraries }
    ensures size { result ≡ sizes.other_size there command.now libs.now }
    ensures small { result < 2 ^ 123 }
{
    form_size(command)
        + table_size(there)
        + libraries_size(libs, libs.libraries.as_slice())
        + rpaths_size(command.rpaths.as_slice())
}

/// The bytes of all load commands of an image other than those of its segments. It takes no memory.
#[tactic(auto, using(crate::proofs::Documents::have_documents))]
pub fn other_size(there: PartKinds, command: &Command, libs: &Libraries) -> u128
    ensures size { result ≡ sizes.other_size there command.now libs.now }
    ensures small { result < 2 ^ 123 }
{
    size_of_others(there, command, libs.graph())
}
