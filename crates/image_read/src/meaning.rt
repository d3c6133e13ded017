//! What the fields of an image tell.

ghost use Rattle.std.specs.Prelude.{◌≡◌, ◌+◌, ◌/◌, ◌≤◌, length};
ghost use Rattle.std.specs.Option.{option_and_then};
ghost use Rattle.mo_format.specs.declared.segment.SegmentCommand.{SegmentCommand};
ghost use Rattle.image_read.specs.Commands as commands;
ghost use Rattle.image_read.specs.Commands.{IsFitting};
ghost use Rattle.arm64_insn.specs.Page as page;
ghost use Rattle.image_read.specs.Meaning as meanings;

use crate::commands::{cmdsize, fits, ncmds};
use crate::fixups::{FixupRead, fixup_at};
use crate::memory::is_segment;
use crate::window::{long_at, word_at};
use arm64_insn::{branch_of, low12_of, page_of};
use mo_format::SegmentCommand;
use mo_types::RefKind;

/// What a field tells when the image is loaded.
#[derive(Clone, Copy, Debug, PartialEq, Eq)]
pub enum Meaning {
    /// An address of the image.
    Address(u64),
    /// The address of an import, by its number from 0, plus an addend.
    Imported { import: u32, addend: i64 },
    /// A number that the loader leaves as it is.
    Difference(i64),
    /// The offset of an address in its page of 4,096 bytes.
    Low12(u64),
    /// It can't be told.
    Broken,
}

const SEG_TEXT: &[u8] = b"__TEXT\0";

#[tactic(auto, unfolding(crate::specs::Meaning::text_at))]
fn text_at(image: &[u8], at: usize) -> Option<SegmentCommand>
    requires header { at + 8 ≤ length image.now }
    requires whole { at + commands.cmdsize image.now at ≤ length image.now }
    ensures { result ≡ meanings.text_at image.now at }
{
    if !is_segment(image, at) {
        return None;
    }
    let segment = SegmentCommand::read(image, at);
    if !segment.segname.starts_with(SEG_TEXT) {
        return None;
    }
    Some(segment)
}

#[tactic(auto, using(crate::proofs::CommandLemmas::walks, crate::proofs::CommandLemmas::searches), unfolding(crate::specs::Meaning::text_of))]
fn text_of(image: &[u8]) -> Option<SegmentCommand>
    requires { IsFitting image.now }
    ensures { result ≡ meanings.text_of image.now }
{
    let mut at = 32;
    for _number in 0..ncmds(image) {
        if let Some(segment) = text_at(image, at) {
            return Some(segment);
        }
        at += cmdsize(image, at);
    }
    None
}

#[tactic(auto, unfolding(crate::specs::Meaning::base_of))]
fn base_of(image: &[u8]) -> Option<u64>
    ensures { result ≡ meanings.base_of image.now }
{
    if !fits(image) {
        return None;
    }
    let segment = text_of(image)?;
    Some(segment.vmaddr)
}

#[tactic(auto, using(crate::proofs::MeaningLemmas::ranges))]
fn moved(address: u64, distance: i64) -> Option<u64>
    ensures { result ≡ meanings.moved address distance }
{
    address.checked_add_signed(distance)
}

fn page_address(page: u64) -> Option<u64>
    ensures { result ≡ meanings.page_address page }
{
    if page > u64::MAX / 0x1000 {
        return None;
    }
    Some(page * 0x1000)
}

fn rebased(image: &[u8], offset: u64) -> Option<u64>
    ensures { result ≡ meanings.rebased image.now offset }
{
    base_of(image)?.checked_add(offset)
}

fn word_in(image: &[u8], address: u64) -> Option<u32>
    ensures { result ≡ meanings.word_in image.now address }
{
    if address > u64::MAX - 3 {
        return None;
    }
    word_at(image, address)
}

fn long_in(image: &[u8], address: u64) -> Option<u64>
    ensures { result ≡ meanings.long_in image.now address }
{
    if address > u64::MAX - 7 {
        return None;
    }
    long_at(image, address)
}

fn address_or_broken(address: Option<u64>) -> Meaning
    ensures { result ≡ meanings.address_or_broken address }
{
    match address {
        Some(address) => Meaning::Address(address),
        None => Meaning::Broken,
    }
}

fn pointer_with(image: &[u8], number: u64, fixup: FixupRead) -> Meaning
    ensures { result ≡ meanings.pointer_with image.now number fixup }
{
    match fixup {
        FixupRead::Plain => Meaning::Difference(number.cast_signed()),
        FixupRead::Rebase { offset } => address_or_broken(rebased(image, offset)),
        FixupRead::Bind { import, addend, .. } => Meaning::Imported { import, addend },
        FixupRead::Broken => Meaning::Broken,
    }
}

fn pointer_at(image: &[u8], address: u64) -> Meaning
    ensures { result ≡ meanings.pointer_or_broken image.now address (meanings.long_in image.now address) }
{
    match long_in(image, address) {
        Some(number) => pointer_with(image, number, fixup_at(image, address)),
        None => Meaning::Broken,
    }
}

fn difference_at(image: &[u8], address: u64) -> Meaning
    ensures { result ≡ meanings.difference_or_broken (meanings.long_in image.now address) }
{
    match long_in(image, address) {
        Some(number) => Meaning::Difference(number.cast_signed()),
        None => Meaning::Broken,
    }
}

fn page_of_page(address: u64, word: u32) -> Option<u64>
    ensures { result ≡ option_and_then meanings.page_address (meanings.moved (address / 0x1000) (page.page_of word)) }
{
    page_address(moved(address / 0x1000, page_of(word))?)
}

fn word_with(address: u64, kind: RefKind, word: u32) -> Meaning
    ensures { result ≡ meanings.word_with address kind word }
{
    match kind {
        RefKind::Diff32 => Meaning::Difference(i64::from(word.cast_signed())),
        RefKind::GotDelta => address_or_broken(moved(address, i64::from(word.cast_signed()))),
        RefKind::Branch => address_or_broken(moved(address, branch_of(word))),
        RefKind::Page | RefKind::GotPage | RefKind::TlvPage => {
            address_or_broken(page_of_page(address, word))
        }
        _ => Meaning::Low12(low12_of(word)),
    }
}

fn word_field_at(image: &[u8], address: u64, kind: RefKind) -> Meaning
    ensures { result ≡ meanings.word_or_broken address kind (meanings.word_in image.now address) }
{
    match word_in(image, address) {
        Some(word) => word_with(address, kind, word),
        None => Meaning::Broken,
    }
}

/// What the field at an address tells, by its kind: a pointer by its fixup; the target of a branch; the page, or the
/// offset in its page, that an instruction tells; a difference as it stands. `Broken` where a byte of it isn't in
/// memory, its fixup is broken, or an address isn't one of 64 bits.
#[tactic(auto, unfolding(crate::specs::Meaning::denote))]
pub fn denote(image: &[u8], address: u64, kind: RefKind) -> Meaning
    ensures { result ≡ meanings.denote image.now address kind }
{
    match kind {
        RefKind::Pointer | RefKind::GotPointer => pointer_at(image, address),
        RefKind::Diff64 => difference_at(image, address),
        _ => word_field_at(image, address, kind),
    }
}
