//! The imports of an image's chained fixups (`mach-o/fixup-chains.h`).

ghost use Rattle.std.specs.Prelude.{◌≡◌, ◌+◌, ◌≤◌, ◌<◌, ◌^◌, true, length, IfSome};
ghost use Rattle.std.specs.Option.{option_map};
ghost use Rattle.image_read.specs.Commands.{IsFitting};
ghost use Rattle.image_read.specs.Imports as imports;

use crate::commands::{cmd, cmdsize, fits, ncmds, number};
use image_format::fixup_chains::{DYLD_CHAINED_IMPORT, DYLD_CHAINED_IMPORT_ADDEND64};
use mo_bytes::{read_u32, read_u64};
use mo_format::loader::LC_DYLD_CHAINED_FIXUPS;
use mo_strings::string_at;

// The bytes of `dyld_chained_fixups_header`.
const HEADER_SIZE: usize = 28;

/// What is read of `dyld_chained_fixups_header`, with the place where it stands in the file. Offsets count from there.
#[derive(Clone, Copy, Debug, PartialEq, Eq)]
pub struct FixupsHeader {
    pub at: usize,
    pub starts_offset: u32,
    pub imports_offset: u32,
    pub symbols_offset: u32,
    pub imports_count: u32,
    pub imports_format: u32,
}

#[tactic(auto, unfolding(crate::specs::Imports::fixups_at))]
fn fixups_at(image: &[u8], at: usize) -> Option<usize>
    requires { at + 8 ≤ length image.now }
    ensures value { result ≡ imports.fixups_at image.now at }
    ensures within { IfSome result (λ found. found + 8 ≤ length image.now) }
{
    if cmd(image, at) != LC_DYLD_CHAINED_FIXUPS {
        return None;
    }
    Some(at)
}

/// The place of the first command of fixups.
#[tactic(auto, using(crate::proofs::CommandLemmas::walks, crate::proofs::CommandLemmas::searches), unfolding(crate::specs::Imports::fixups_command))]
pub fn fixups_command(image: &[u8]) -> Option<usize>
    requires { IsFitting image.now }
    ensures value { result ≡ imports.fixups_command image.now }
    ensures within { IfSome result (λ found. found + 8 ≤ length image.now) }
{
    let mut at = 32;
    for _number in 0..ncmds(image) {
        if let Some(found) = fixups_at(image, at) {
            return Some(found);
        }
        at += cmdsize(image, at);
    }
    None
}

/// The header that a command tells of, or `None` where it lies outside the file.
pub fn header_by(image: &[u8], command: usize) -> Option<FixupsHeader>
    requires { command + 8 ≤ length image.now }
    ensures value { result ≡ imports.header_by image.now command }
    ensures few { IfSome result (λ header. header.at < 2 ^ 32) }
{
    let at = read_u32(image, command + 8)? as usize;
    if image.len() < HEADER_SIZE || image.len() - HEADER_SIZE < at {
        return None;
    }
    Some(FixupsHeader {
        at,
        starts_offset: number(image, at + 4),
        imports_offset: number(image, at + 8),
        symbols_offset: number(image, at + 12),
        imports_count: number(image, at + 16),
        imports_format: number(image, at + 20),
    })
}

/// The header of an image's fixups, or `None` where the image has none or it lies outside the file.
#[tactic(auto, unfolding(crate::specs::Imports::header_of))]
fn header_of(image: &[u8]) -> Option<FixupsHeader>
    ensures value { result ≡ imports.header_of image.now }
    ensures few { IfSome result (λ header. header.at < 2 ^ 32) }
{
    if !fits(image) {
        return None;
    }
    header_by(image, fixups_command(image)?)
}

fn name_offset(image: &[u8], header: FixupsHeader, import: u32) -> Option<u64>
    requires { header.at < 2 ^ 32 }
    ensures value { result ≡ imports.name_offset image.now header import }
    ensures few { IfSome result (λ offset. offset < 2 ^ 32) }
{
    let table = header.at + header.imports_offset as usize;
    match header.imports_format {
        DYLD_CHAINED_IMPORT => {
            let word = read_u32(image, table + 4 * import as usize)?;
            Some(u64::from(word / 0x200))
        }
        DYLD_CHAINED_IMPORT_ADDEND64 => {
            let at = table + 16 * import as usize;
            let word = read_u64(image, at)?;
            let _addend = read_u64(image, at + 8)?;
            Some(word / 0x1_0000_0000)
        }
        _ => None,
    }
}

fn name_place(image: &[u8], import: u32, header: FixupsHeader) -> Option<usize>
    requires { header.at < 2 ^ 32 }
    ensures { result ≡ imports.name_place image.now import header }
{
    if import >= header.imports_count {
        return None;
    }
    let offset = name_offset(image, header, import)?;
    Some(header.at + header.symbols_offset as usize + offset as usize)
}

/// The name of an import, by its number from 0: the bytes before the NUL. `None` where the image has no fixups or no such
/// import, where the imports have another format than 1 or 3, and where the import or its name isn't within the file.
#[tactic(auto, unfolding(crate::specs::Imports::import_name))]
pub fn import_name(image: &[u8], import: u32) -> Option<&[u8]>
    ensures { option_map (λ name. name.now) result ≡ imports.import_name image.now import }
{
    let header = header_of(image)?;
    let place = name_place(image, import, header)?;
    string_at(image, place)
}
