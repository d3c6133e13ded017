//! The header with all load commands.

ghost use Rattle.std.specs.Prelude.{◌≡◌, ◌+◌, ◌*◌, ◌<◌, ◌^◌, ◌++◌, All, IfOk, length};
ghost use Rattle.load_cmds.specs.Commands as cmds;
ghost use Rattle.load_cmds.specs.Names.{u32_of};
ghost use Rattle.load_cmds.specs.inner.Counted.{AreCounted};
ghost use Rattle.sect_place.specs.Whole.{IsWholeLayout};

use crate::others::put_others;
use crate::parts::{PartKinds, PartSizes};
use crate::segments::put_segments;
use crate::sizes::{other_count, size_of_others};
use command_line::Command;
use lib_bind::{Libraries, LibraryGraph};
use mo_format::MachHeader;
use mo_format::loader::{CPU_SUBTYPE_ARM64_ALL, CPU_TYPE_ARM64, MH_DYLIB, MH_EXECUTE, MH_MAGIC_64};
use mo_types::{Bytes, OutOfMemory};
use sect_place::Layout;
use std::alloc::Global;

// The bytes of all load commands, modulo 2^32.
#[tactic(auto, using(crate::proofs::Sums::sum_modulo))]
fn size_field(layout: &Layout, there: PartKinds, command: &Command, libs: &LibraryGraph) -> u32
    requires { All (λ library. library.document < length libs.now.documents) libs.now.libraries }
    ensures { result ≡ u32_of (cmds.commands_size layout.now there command.now libs.now) }
{
    let segments = 72 * layout.segments.len() as u128 + 80 * layout.sections.len() as u128;
    let others = size_of_others(there, command, libs);
    ((segments % (1 << 32) + others % (1 << 32)) % (1 << 32)) as u32
}

// The header of an image, with the count and the bytes of its commands.
fn header_of(
    layout: &Layout,
    parts: PartSizes,
    command: &Command,
    libs: &LibraryGraph,
) -> MachHeader
    requires { All (λ library. library.document < length libs.now.documents) libs.now.libraries }
    ensures { result ≡ cmds.header layout.now parts command.now libs.now }
{
    let count = layout.segments.len() as u128 + other_count(parts.there, command, libs);
    MachHeader {
        magic: MH_MAGIC_64,
        cputype: CPU_TYPE_ARM64,
        cpusubtype: CPU_SUBTYPE_ARM64_ALL,
        filetype: if command.dylib { MH_DYLIB } else { MH_EXECUTE },
        ncmds: (count % (1 << 32)) as u32,
        sizeofcmds: size_field(layout, parts.there, command, libs),
        flags: parts.flags,
        reserved: 0,
    }
}

/// Makes the header and the load commands.
#[tactic(auto, using(crate::proofs::Appends::appends))]
pub fn front_of(
    alloc: Global,
    layout: &Layout,
    parts: PartSizes,
    command: &Command,
    libs: &LibraryGraph,
) -> Result<Vec<u8>, OutOfMemory>
    requires sections { AreCounted layout.now.segments layout.now.sections }
    requires documents { All (λ library. library.document < length libs.now.documents) libs.now.libraries }
    ensures bytes { IfOk result (λ out. out.items ≡ cmds.commands_of layout.now parts command.now libs.now) }
{
    let mut out = Vec::new(alloc);
    header_of(layout, parts, command, libs).write(&mut out)?;
    put_segments(
        &mut out,
        parts,
        layout.segments.as_slice(),
        layout.sections.as_slice(),
    )?;
    put_others(&mut out, parts, command, libs)?;
    Ok(out)
}

/// The header of an image and its load commands, in this order: the segments, what the image is, where its parts stand,
/// how it starts, its libraries, search paths and signature.
///
/// A field of 32 bits whose number is larger holds it modulo 2^32, and a name of more than 16 bytes stands there as
/// its first 16. `__LINKEDIT`, the last segment, ends where the last part ends that is there.
#[tactic(auto, using(crate::proofs::Documents::have_documents, crate::proofs::Lengths::whole_is_counted, crate::proofs::Lengths::commands_length))]
pub fn commands(
    alloc: Global,
    layout: &Layout,
    parts: &PartSizes,
    command: &Command,
    libs: &Libraries,
) -> Result<Bytes, OutOfMemory>
    requires whole { IsWholeLayout layout.now }
    ensures bytes { IfOk result (λ bytes. bytes ≡ cmds.commands_of layout.now parts.now command.now libs.now) }
    ensures size { IfOk result (λ bytes. length bytes ≡ 32 + cmds.commands_size layout.now parts.now.there command.now libs.now) }
{
    Bytes::from_vec(front_of(alloc, layout, *parts, command, libs.graph())?)
}
