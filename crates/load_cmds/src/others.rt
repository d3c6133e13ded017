//! The commands other than those of segments.

ghost use Rattle.std.specs.Prelude.{◌≡◌, ◌<◌, ◌++◌, All, OnOk, length};
ghost use Rattle.std.specs.List.{flat_map};
ghost use Rattle.load_cmds.specs.Others as others;

use crate::fields::u32_of;
use crate::libraries::{put_id, put_libraries};
use crate::parts::{PartPlace, PartSizes};
use crate::strings::{put_string, string_command_size};
use command_line::Command;
use lib_bind::LibraryGraph;
use mo_format::loader::{
    LC_BUILD_VERSION, LC_CODE_SIGNATURE, LC_DYLD_CHAINED_FIXUPS, LC_DYLD_EXPORTS_TRIE, LC_DYSYMTAB,
    LC_LOAD_DYLINKER, LC_MAIN, LC_RPATH, LC_SYMTAB, LC_UUID, PLATFORM_MACOS,
};
use mo_format::{
    BuildVersionCommand, DylinkerCommand, DysymtabCommand, EntryPointCommand, LinkeditDataCommand,
    RpathCommand, SymtabCommand, UuidCommand,
};
use mo_types::Bytes;
use std::alloc::AllocError;

// Appends a part of `__LINKEDIT`, where it is there.
#[tactic(auto, unfolding(crate::specs::Others::part_bytes), using(crate::proofs::Appends::appends))]
fn put_part(out: &mut Vec<u8>, there: bool, cmd: u32, part: PartPlace) -> Result<(), AllocError>
    ensures bytes { OnOk result (out.new.items ≡ out.old.items ++ others.given there (others.part_bytes cmd part)) }
{
    if !there {
        return Ok(());
    }
    let command = LinkeditDataCommand {
        cmd,
        cmdsize: 16,
        dataoff: u32_of(part.offset),
        datasize: u32_of(part.size),
    };
    command.write(out)
}

#[tactic(auto, unfolding(crate::specs::Others::symtab_bytes))]
fn put_symtab(out: &mut Vec<u8>, parts: PartSizes) -> Result<(), AllocError>
    ensures bytes { OnOk result (out.new.items ≡ out.old.items ++ others.symtab_bytes parts) }
{
    let count = u64::from(parts.locals) + u64::from(parts.exported) + u64::from(parts.undefined);
    let command = SymtabCommand {
        cmd: LC_SYMTAB,
        cmdsize: 24,
        symoff: u32_of(parts.symbols.offset),
        nsyms: u32_of(count),
        stroff: u32_of(parts.strings.offset),
        strsize: u32_of(parts.strings.size),
    };
    command.write(out)
}

fn dysymtab_of(parts: PartSizes) -> DysymtabCommand
    ensures { result ≡ others.dysymtab_command parts }
{
    DysymtabCommand {
        cmd: LC_DYSYMTAB,
        cmdsize: 80,
        ilocalsym: 0,
        nlocalsym: parts.locals,
        iextdefsym: parts.locals,
        nextdefsym: parts.exported,
        iundefsym: u32_of(u64::from(parts.locals) + u64::from(parts.exported)),
        nundefsym: parts.undefined,
        tocoff: 0,
        ntoc: 0,
        modtaboff: 0,
        nmodtab: 0,
        extrefsymoff: 0,
        nextrefsyms: 0,
        indirectsymoff: u32_of(parts.indirect.offset),
        nindirectsyms: u32_of(parts.indirect.size / 4),
        extreloff: 0,
        nextrel: 0,
        locreloff: 0,
        nlocrel: 0,
    }
}

// Appends where the symbols stand and how they are ordered, where they are there.
#[tactic(auto, unfolding(crate::specs::Others::dysymtab_bytes), using(crate::proofs::Appends::appends))]
fn put_symbols(out: &mut Vec<u8>, parts: PartSizes) -> Result<(), AllocError>
    ensures bytes { OnOk result (out.new.items ≡ out.old.items ++ others.given parts.there.symbols (others.symtab_bytes parts ++ others.dysymtab_bytes parts)) }
{
    if !parts.there.symbols {
        return Ok(());
    }
    put_symtab(out, parts)?;
    dysymtab_of(parts).write(out)
}

// Appends which loader starts a program.
#[tactic(auto, unfolding(crate::specs::Others::dylinker_bytes), using(crate::proofs::Appends::appends))]
fn put_dylinker(out: &mut Vec<u8>) -> Result<(), AllocError>
    ensures bytes { OnOk result (out.new.items ≡ out.old.items ++ others.dylinker_bytes) }
{
    let command = DylinkerCommand {
        cmd: LC_LOAD_DYLINKER,
        cmdsize: 32,
        name: 12,
    };
    command.write(out)?;
    put_string(out, 12, b"/usr/lib/dyld")
}

// Appends the room of the uuid, where there is one.
#[tactic(auto, unfolding(crate::specs::Others::uuid_bytes))]
fn put_uuid(out: &mut Vec<u8>, there: bool) -> Result<(), AllocError>
    ensures bytes { OnOk result (out.new.items ≡ out.old.items ++ others.given there others.uuid_bytes) }
{
    if !there {
        return Ok(());
    }
    let command = UuidCommand {
        cmd: LC_UUID,
        cmdsize: 24,
        uuid: [0; 16],
    };
    command.write(out)
}

#[tactic(auto, unfolding(crate::specs::Others::version_bytes))]
fn put_version(out: &mut Vec<u8>, command: &Command) -> Result<(), AllocError>
    ensures bytes { OnOk result (out.new.items ≡ out.old.items ++ others.version_bytes command.now) }
{
    let command = BuildVersionCommand {
        cmd: LC_BUILD_VERSION,
        cmdsize: 24,
        platform: PLATFORM_MACOS,
        minos: command.min,
        sdk: command.sdk,
        ntools: 0,
    };
    command.write(out)
}

#[tactic(auto, unfolding(crate::specs::Others::entry_bytes))]
fn put_entry(out: &mut Vec<u8>, parts: PartSizes) -> Result<(), AllocError>
    ensures bytes { OnOk result (out.new.items ≡ out.old.items ++ others.entry_bytes parts) }
{
    let command = EntryPointCommand {
        cmd: LC_MAIN,
        cmdsize: 24,
        entryoff: parts.entryoff,
        stacksize: 0,
    };
    command.write(out)
}

#[tactic(auto, unfolding(crate::specs::Others::rpath_bytes), using(crate::proofs::Appends::appends))]
fn put_rpath(out: &mut Vec<u8>, path: &[u8]) -> Result<(), AllocError>
    ensures bytes { OnOk result (out.new.items ≡ out.old.items ++ others.rpath_bytes path.now) }
{
    let command = RpathCommand {
        cmd: LC_RPATH,
        cmdsize: u32_of(string_command_size(12, path)),
        path: 12,
    };
    command.write(out)?;
    put_string(out, 12, path)
}

#[tactic(auto, using(crate::proofs::Appends::putting))]
fn put_rpaths(out: &mut Vec<u8>, rpaths: &[Bytes]) -> Result<(), AllocError>
    ensures bytes { OnOk result (out.new.items ≡ out.old.items ++ flat_map others.rpath_bytes rpaths.now) }
{
    for path in rpaths {
        put_rpath(out, path.as_slice())?;
    }
    Ok(())
}

// Appends what comes before the uuid.
#[tactic(auto, unfolding(crate::specs::Others::front_bytes), using(crate::proofs::Appends::appends))]
fn put_front(out: &mut Vec<u8>, parts: PartSizes, command: &Command) -> Result<(), AllocError>
    ensures bytes { OnOk result (out.new.items ≡ out.old.items ++ others.front_bytes parts command.now) }
{
    if command.dylib {
        put_id(out, command)?;
    }
    put_part(
        out,
        parts.there.fixups,
        LC_DYLD_CHAINED_FIXUPS,
        parts.fixups,
    )?;
    put_part(out, parts.there.trie, LC_DYLD_EXPORTS_TRIE, parts.trie)?;
    put_symbols(out, parts)?;
    if !command.dylib {
        put_dylinker(out)?;
    }
    Ok(())
}

// Appends the uuid, the versions and the entry.
#[tactic(auto, unfolding(crate::specs::Others::middle_bytes), using(crate::proofs::Appends::appends))]
fn put_middle(out: &mut Vec<u8>, parts: PartSizes, command: &Command) -> Result<(), AllocError>
    ensures bytes { OnOk result (out.new.items ≡ out.old.items ++ others.middle_bytes parts command.now) }
{
    put_uuid(out, parts.there.uuid)?;
    put_version(out, command)?;
    if !command.dylib {
        put_entry(out, parts)?;
    }
    Ok(())
}

/// Appends all commands but those of segments.
#[tactic(auto, unfolding(crate::specs::Others::others_bytes), using(crate::proofs::Appends::appends))]
pub fn put_others(
    out: &mut Vec<u8>,
    parts: PartSizes,
    command: &Command,
    libs: &LibraryGraph,
) -> Result<(), AllocError>
    requires { All (λ library. library.document < length libs.now.documents) libs.now.libraries }
    ensures bytes { OnOk result (out.new.items ≡ out.old.items ++ others.others_bytes parts command.now libs.now) }
{
    put_front(out, parts, command)?;
    put_middle(out, parts, command)?;
    put_libraries(out, libs, libs.libraries.as_slice())?;
    put_rpaths(out, command.rpaths.as_slice())?;
    put_part(
        out,
        parts.there.signature,
        LC_CODE_SIGNATURE,
        parts.signature,
    )
}
