//! The fixups of an image on the chains of its pages (`mach-o/fixup-chains.h`).

ghost use Rattle.std.specs.Prelude.{◌≡◌, ◌+◌, ◌≤◌, ◌<◌, ◌^◌, ◌%◌, IfOk, IfSome, length};
ghost use Rattle.image_read.specs.Commands.{IsFitting};
ghost use Rattle.image_read.specs.Fixups as fixups;
ghost use Rattle.image_read.specs.inner.Window.{IsWindow};

use crate::commands::{cmdsize, fits, ncmds};
use crate::imports::{FixupsHeader, fixups_command, header_by};
use crate::memory::{holds, is_segment};
use crate::window::{Window, long_by, window_in};
use image_format::fixup_chains::{
    DYLD_CHAINED_IMPORT, DYLD_CHAINED_IMPORT_ADDEND64, DYLD_CHAINED_PTR_START_NONE,
};
use mo_bytes::{read_u16, read_u32, read_u64};
use mo_format::SegmentCommand;

/// What the loader does with the pointer at an address.
#[derive(Clone, Copy, Debug, PartialEq, Eq)]
pub enum FixupRead {
    /// Nothing.
    Plain,
    /// It writes the address at an offset from the image's start.
    Rebase {
        offset: u64,
    },
    /// It writes the address of an import, plus an addend.
    Bind {
        /// The import's number from 0.
        import: u32,
        /// The library's number, or a special number below 0.
        ordinal: i32,
        addend: i64,
        /// Whether the name may be missing.
        optional: bool,
    },
    /// It can't tell.
    Broken,
}

/// What is read of an import.
#[derive(Clone, Copy, Debug, PartialEq, Eq)]
pub struct Import {
    pub ordinal: i32,
    pub optional: bool,
    pub addend: u64,
}

/// The segment that holds an address, by its index among the segments.
#[derive(Clone, Copy, Debug, PartialEq, Eq)]
pub struct Holding {
    pub index: usize,
    pub vmaddr: u64,
}

const PAGE: u64 = 0x4000;

#[tactic(auto, unfolding(crate::specs::Fixups::header_read))]
fn header_read(image: &[u8]) -> Result<FixupsHeader, FixupRead>
    ensures exact { result ≡ fixups.header_read image.now }
    ensures few { IfOk result (λ header. header.at < 2 ^ 32) }
    ensures fitting { IfOk result (λ _. IsFitting image.now) }
{
    if !fits(image) {
        return Err(FixupRead::Plain);
    }
    let Some(command) = fixups_command(image) else {
        return Err(FixupRead::Plain);
    };
    let Some(header) = header_by(image, command) else {
        return Err(FixupRead::Broken);
    };
    if header.imports_format != DYLD_CHAINED_IMPORT
        && header.imports_format != DYLD_CHAINED_IMPORT_ADDEND64
    {
        return Err(FixupRead::Broken);
    }
    Ok(header)
}

#[tactic(auto, using(crate::proofs::CommandLemmas::walks, crate::proofs::FixupLemmas::counts), unfolding(crate::specs::Fixups::holding_of))]
fn holding_of(image: &[u8], address: u64) -> Option<Holding>
    requires { IsFitting image.now }
    ensures value { result ≡ fixups.holding_of image.now address }
    ensures above { IfSome result (λ holding. holding.vmaddr ≤ address) }
    ensures few { IfSome result (λ holding. holding.index < 2 ^ 32) }
{
    let mut index = 0;
    let mut at = 32;
    for _number in 0..ncmds(image) {
        if is_segment(image, at) {
            let segment = SegmentCommand::read(image, at);
            if holds(address, &segment) {
                return Some(Holding {
                    index,
                    vmaddr: segment.vmaddr,
                });
            }
            index += 1;
        }
        at += cmdsize(image, at);
    }
    None
}

// Where the starts of a segment stand.
#[tactic(auto, unfolding(crate::specs::Fixups::starts_of))]
fn starts_of(image: &[u8], header: FixupsHeader, index: usize) -> Result<usize, FixupRead>
    requires header { header.at < 2 ^ 32 }
    requires index { index < 2 ^ 32 }
    ensures exact { result ≡ fixups.starts_of image.now header index }
    ensures few { IfOk result (λ starts. starts < 2 ^ 62) }
{
    let table = header.at + header.starts_offset as usize;
    let Some(count) = read_u32(image, table) else {
        return Err(FixupRead::Broken);
    };
    if index >= count as usize {
        return Err(FixupRead::Plain);
    }
    let Some(offset) = read_u32(image, table + 4 + 4 * index) else {
        return Err(FixupRead::Broken);
    };
    if offset == 0 {
        return Err(FixupRead::Plain);
    }
    Ok(table + offset as usize)
}

// Where the chain of a page begins in the page.
#[tactic(auto, unfolding(crate::specs::Fixups::page_start))]
fn page_start(image: &[u8], starts: usize, page: u64) -> Result<u16, FixupRead>
    requires { starts < 2 ^ 62 }
    ensures { result ≡ fixups.page_start image.now starts page }
{
    let Some(format) = read_u16(image, starts + 6) else {
        return Err(FixupRead::Broken);
    };
    if format != 6 {
        return Err(FixupRead::Broken);
    }
    let Some(count) = read_u16(image, starts + 20) else {
        return Err(FixupRead::Broken);
    };
    if page >= u64::from(count) {
        return Err(FixupRead::Plain);
    }
    let Some(start) = read_u16(image, starts + 22 + 2 * page as usize) else {
        return Err(FixupRead::Broken);
    };
    if start == DYLD_CHAINED_PTR_START_NONE {
        return Err(FixupRead::Plain);
    }
    Ok(start)
}

// The pointer at a place of a page, which has room for it. A window may have it.
fn pointer_at(image: &[u8], window: Option<Window>, base: u64, at: u64) -> Option<u64>
    requires { IfSome window (IsWindow image.now) }
    ensures { result ≡ fixups.pointer_at image.now base at }
{
    if at > PAGE - 8 {
        return None;
    }
    let address = base.checked_add(at)?;
    if address > u64::MAX - 7 {
        return None;
    }
    long_by(image, window, address)
}

fn next_of(word: u64) -> u64
    ensures value { result ≡ fixups.next_of word }
    ensures few { result < 2 ^ 12 }
{
    word / 0x8_0000_0000_0000 % 0x1000
}

fn taken(place: u64, at: u64, word: u64, held: Option<u64>) -> Option<u64>
    ensures { result ≡ fixups.taken place at word held }
{
    match held {
        Some(other) => Some(other),
        None if at == place => Some(word),
        None => None,
    }
}

// What the chain of a page holds at a place of the page.
#[tactic(auto, using(crate::proofs::FixupLemmas::chases), unfolding(crate::specs::Fixups::held_on))]
fn held_on(image: &[u8], base: u64, start: u16, place: u64) -> Result<Option<u64>, FixupRead>
    requires { IsFitting image.now }
    ensures { result ≡ fixups.held_on image.now base start place }
{
    let window = window_in(image, base, PAGE);
    let mut at = u64::from(start);
    let mut held = None;
    for _step in 0..0x1001_u32 {
        let Some(word) = pointer_at(image, window, base, at) else {
            return Err(FixupRead::Broken);
        };
        held = taken(place, at, word, held);
        let next = next_of(word);
        if next == 0 {
            return Ok(held);
        }
        at += 4 * next;
    }
    Err(FixupRead::Broken)
}

fn ordinal_of(low: u16, high: u16, number: u16) -> i32
    requires high { number ≤ high }
    ensures { result ≡ fixups.ordinal_of low high number }
{
    if number > low {
        -i32::from(high - number) - 1
    } else {
        i32::from(number)
    }
}

fn narrow_import(word: u32) -> Import
    ensures { result ≡ fixups.narrow_import word }
{
    Import {
        ordinal: ordinal_of(0xf0, 0xff, (word % 0x100) as u16),
        optional: word / 0x100 % 2 == 1,
        addend: 0,
    }
}

fn wide_import(word: u64, addend: u64) -> Import
    ensures { result ≡ fixups.wide_import word addend }
{
    Import {
        ordinal: ordinal_of(0xfff0, 0xffff, (word % 0x1_0000) as u16),
        optional: word / 0x1_0000 % 2 == 1,
        addend,
    }
}

fn narrow_at(image: &[u8], at: usize) -> Result<Import, FixupRead>
    ensures { result ≡ fixups.narrow_at image.now at }
{
    match read_u32(image, at) {
        Some(word) => Ok(narrow_import(word)),
        None => Err(FixupRead::Broken),
    }
}

fn wide_at(image: &[u8], at: usize) -> Result<Import, FixupRead>
    requires { at < 2 ^ 62 }
    ensures { result ≡ fixups.wide_at image.now at }
{
    let Some(word) = read_u64(image, at) else {
        return Err(FixupRead::Broken);
    };
    let Some(addend) = read_u64(image, at + 8) else {
        return Err(FixupRead::Broken);
    };
    Ok(wide_import(word, addend))
}

#[tactic(auto, unfolding(crate::specs::Fixups::import_at))]
fn import_at(image: &[u8], header: FixupsHeader, import: u32) -> Result<Import, FixupRead>
    requires { header.at < 2 ^ 32 }
    ensures { result ≡ fixups.import_at image.now header import }
{
    if import >= header.imports_count {
        return Err(FixupRead::Broken);
    }
    let table = header.at + header.imports_offset as usize;
    if header.imports_format == DYLD_CHAINED_IMPORT {
        narrow_at(image, table + 4 * import as usize)
    } else {
        wide_at(image, table + 16 * import as usize)
    }
}

#[tactic(auto, unfolding(crate::specs::Fixups::fixup_of))]
fn fixup_of(image: &[u8], header: FixupsHeader, word: u64) -> Result<FixupRead, FixupRead>
    requires { header.at < 2 ^ 32 }
    ensures { result ≡ fixups.fixup_of image.now header word }
{
    if word < 0x8000_0000_0000_0000 {
        return Ok(FixupRead::Rebase {
            offset: word % 0x10_0000_0000,
        });
    }
    let number = (word % 0x100_0000) as u32;
    let import = import_at(image, header, number)?;
    let addend = (word / 0x100_0000 % 0x100).wrapping_add(import.addend);
    Ok(FixupRead::Bind {
        import: number,
        ordinal: import.ordinal,
        addend: addend.cast_signed(),
        optional: import.optional,
    })
}

#[tactic(auto, using(crate::proofs::FixupLemmas::pages), unfolding(crate::specs::Fixups::fixup_read, crate::specs::Fixups::header_read))]
fn fixup_read(image: &[u8], address: u64) -> Result<FixupRead, FixupRead>
    ensures { result ≡ fixups.fixup_read image.now address }
{
    let header = header_read(image)?;
    let Some(holding) = holding_of(image, address) else {
        return Err(FixupRead::Plain);
    };
    let starts = starts_of(image, header, holding.index)?;
    let distance = address - holding.vmaddr;
    let start = page_start(image, starts, distance / PAGE)?;
    let Some(word) = held_on(image, address - distance % PAGE, start, distance % PAGE)? else {
        return Err(FixupRead::Plain);
    };
    fixup_of(image, header, word)
}

/// The fixup at an address: the rebase or bind that stands there, where the address is one that the chain of its page
/// goes through, and `Plain` elsewhere and where the image has no chains. `Broken` where a number that this needs
/// lies outside the file or isn't in memory, where pointers have another format than 6 or imports than 1 and 3, where the
/// chain leaves its page, and where there is no such import. Pages have 0x4000 bytes.
#[tactic(auto, unfolding(crate::specs::Fixups::fixup_at))]
pub fn fixup_at(image: &[u8], address: u64) -> FixupRead
    ensures { result ≡ fixups.fixup_at image.now address }
{
    match fixup_read(image, address) {
        Ok(fixup) => fixup,
        Err(fixup) => fixup,
    }
}
