//! What a file is, by its first bytes.

ghost use Rattle.std.specs.Prelude.{◌≡◌, not};
ghost use Rattle.std.specs.List.{find};
ghost use Rattle.std.specs.Option.{option_map};
ghost use Rattle.mo_types.specs.Kind as kinds;

use crate::cause::Feature;

/// What an input is.
#[derive(Clone, Copy, Debug, PartialEq, Eq)]
pub enum Kind {
    /// A Mach-O file for 64 bits (`loader.h`: `MH_MAGIC_64`).
    MachO,
    /// A static library (`ar.h`: `ARMAG`).
    Archive,
    /// A universal file (`fat.h`: `FAT_MAGIC`).
    Universal,
    /// The text of stub libraries (TBD).
    Stub,
    /// Nothing that the linker knows.
    NotAnInput,
    /// Something that the linker knows and doesn't read.
    Refused(Feature),
}

fn first_other(line: &[u8]) -> Option<u8>
    ensures { result ≡ find (λ byte. kinds.is_other byte) line.now }
{
    line.iter()
        .copied()
        .find(|byte| *byte != b' ' && *byte != b'\t' && *byte != b'\r')
}

// Whether a line has only blanks, or a `#` after its blanks.
fn is_passed_over(line: &[u8]) -> bool
    ensures { result ≡ kinds.is_passed_over line.now }
{
    match first_other(line) {
        Some(byte) => byte == b'#',
        None => true,
    }
}

// The first line that is neither blank nor a comment.
fn first_line(bytes: &[u8]) -> Option<&[u8]>
    ensures { option_map (λ line. line.now) result ≡ find (λ line. not (kinds.is_passed_over line)) (kinds.lines bytes.now) }
{
    bytes
        .split(|byte| *byte == b'\n')
        .find(|line| !is_passed_over(line))
}

#[tactic(auto, unfolding(crate::specs::Kind::is_stub_text))]
fn is_stub_text(bytes: &[u8]) -> bool
    ensures { result ≡ kinds.is_stub_text bytes.now }
{
    match first_line(bytes) {
        Some(line) => line.starts_with(b"---"),
        None => false,
    }
}

/// What a file of these bytes is. It reads no more than the first bytes, and of a text the lines up to the
/// first one that is neither blank nor a comment.
#[tactic(auto, unfolding(crate::specs::Kind::kind_of))]
pub fn kind_of(bytes: &[u8]) -> Kind
    ensures { result ≡ kinds.kind_of bytes.now }
{
    if bytes.starts_with(b"\xcf\xfa\xed\xfe") {
        Kind::MachO
    } else if bytes.starts_with(b"!<arch>\n") {
        Kind::Archive
    } else if bytes.starts_with(b"\xca\xfe\xba\xbe") {
        Kind::Universal
    } else if bytes.starts_with(b"\xca\xfe\xba\xbf") {
        Kind::Refused(Feature::Fat64)
    } else if bytes.starts_with(b"!<thin>\n") {
        Kind::Refused(Feature::ThinArchive)
    } else if bytes.starts_with(b"BC\xc0\xde") || bytes.starts_with(b"\xde\xc0\x17\x0b") {
        Kind::Refused(Feature::Bitcode)
    } else if bytes.starts_with(b"{") {
        Kind::Refused(Feature::Tbd)
    } else if is_stub_text(bytes) {
        Kind::Stub
    } else {
        Kind::NotAnInput
    }
}
