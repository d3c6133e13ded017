//! The commands of libraries.

ghost use Rattle.std.specs.Prelude.{◌≡◌, ◌<◌, ◌++◌, All, length, OnOk};
ghost use Rattle.std.specs.List.{flat_map};
ghost use Rattle.load_cmds.specs.Documents as documents;
ghost use Rattle.load_cmds.specs.Others as others;

use crate::fields::u32_of;
use crate::strings::{put_string, string_command_size};
use command_line::Command;
use lib_bind::{Library, LibraryGraph};
use mo_format::DylibCommand;
use mo_format::loader::{LC_ID_DYLIB, LC_LOAD_DYLIB, LC_LOAD_WEAK_DYLIB, LC_REEXPORT_DYLIB};
use std::alloc::AllocError;
use tbd_doc::Stub;

// Appends a command that names a library.
#[tactic(auto, using(crate::proofs::Appends::appends), unfolding(crate::specs::Others::dylib_bytes))]
fn put_dylib(
    out: &mut Vec<u8>,
    cmd: u32,
    name: &[u8],
    timestamp: u32,
    current_version: u32,
    compatibility_version: u32,
) -> Result<(), AllocError>
    ensures bytes { OnOk result (out.new.items ≡ out.old.items ++ others.dylib_bytes cmd name.now timestamp current_version compatibility_version) }
{
    let command = DylibCommand {
        cmd,
        cmdsize: u32_of(string_command_size(24, name)),
        name: 24,
        timestamp,
        current_version,
        compatibility_version,
    };
    command.write(out)?;
    put_string(out, 24, name)
}

/// Appends what a dynamic library is.
pub fn put_id(out: &mut Vec<u8>, command: &Command) -> Result<(), AllocError>
    ensures bytes { OnOk result (out.new.items ≡ out.old.items ++ others.id_bytes command.now) }
{
    let name = command.install.as_slice();
    put_dylib(
        out,
        LC_ID_DYLIB,
        name,
        1,
        command.current,
        command.compatible,
    )
}

fn library_cmd(library: &Library) -> u32
    ensures { result ≡ others.library_cmd library.now }
{
    if library.weak {
        LC_LOAD_WEAK_DYLIB
    } else if library.reexport {
        LC_REEXPORT_DYLIB
    } else {
        LC_LOAD_DYLIB
    }
}

/// The document of a library.
#[tactic(auto, using(std::proofs::lemmas::List::get_or_default))]
pub fn document_of<'a>(libs: &'a LibraryGraph, library: &Library) -> &'a Stub
    requires { library.now.document < length libs.now.documents }
    ensures { result.now ≡ documents.document_of libs.now library.now }
{
    &libs.documents.as_slice()[library.document]
}

// Appends a library that the image is bound to.
fn put_library(out: &mut Vec<u8>, libs: &LibraryGraph, library: &Library) -> Result<(), AllocError>
    requires { library.now.document < length libs.now.documents }
    ensures bytes { OnOk result (out.new.items ≡ out.old.items ++ others.library_bytes libs.now library.now) }
{
    let document = document_of(libs, library);
    let name = document.install.as_slice();
    put_dylib(
        out,
        library_cmd(library),
        name,
        2,
        document.current,
        document.compatible,
    )
}

/// Appends libraries that the image is bound to.
#[tactic(auto, using(crate::proofs::Appends::putting))]
pub fn put_libraries(
    out: &mut Vec<u8>,
    libs: &LibraryGraph,
    libraries: &[Library],
) -> Result<(), AllocError>
    requires { All (λ library. library.document < length libs.now.documents) libraries.now }
    ensures bytes { OnOk result (out.new.items ≡ out.old.items ++ flat_map (others.library_bytes libs.now) libraries.now) }
{
    for library in libraries {
        put_library(out, libs, library)?;
    }
    Ok(())
}
