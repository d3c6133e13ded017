//! A table of strings.

ghost use Rattle.std.specs.Prelude.{◌≡◌, ◌+◌, ◌*◌, ◌<◌, ◌≤◌, List, ℕ, length, drop, min, IfNone, IfOk, IfSome};
ghost use Rattle.mo_strings.specs.Strings as strings;
ghost use Rattle.mo_strings.specs.inner.End.{AreEnds, IsEnd, IsNear, IsPassed};

use memchr::memchr;
use mo_types::{Bytes, OutOfMemory};
use std::alloc::Global;
use std::marker::Model;

// The first NUL is noted each so many bytes: 8 bytes of memory for 256 of the strings, and a look-up reads at most 256.
const BLOCK: usize = 256;

/// Strings that end in NUL, whose NULs are looked for once. Contracts see their bytes.
#[derive(Drop)]
pub struct Strings {
    bytes: Bytes,
    // Of each block, the first NUL that isn't before it, or the number of bytes where there is none.
    ends: Vec<usize>,
}

impl Model for Strings {
    ghost use Rattle.std.specs.Prelude.{List, ℕ};
    ghost use Rattle.mo_strings.specs.inner.End.{AreEnds};

    ghost Value = { List ℕ };

    ghost view = { λ strings. strings.bytes };

    ghost invariant = { λ strings. AreEnds strings.bytes strings.ends.items };
}

// The first NUL between two places, by its distance from the first of them.
#[tactic(auto, using(crate::proofs::TableLemmas::near))]
fn near(bytes: &[u8], at: usize, to: usize) -> Option<usize>
    requires order { at ≤ to }
    requires within { to ≤ length bytes.now }
    ensures found { IfSome result (IsNear bytes.now at) }
    ensures none { IfNone result (IsPassed bytes.now at to) }
{
    memchr(0, &bytes[at..to])
}

// The first NUL that isn't before a place, by the one that isn't before a later place.
#[tactic(auto, using(crate::proofs::TableLemmas::ends))]
fn end_at(bytes: &[u8], at: usize, to: usize, end: usize) -> usize
    requires order { at ≤ to }
    requires within { to ≤ length bytes.now }
    requires later { IsEnd bytes.now to end }
    ensures { IsEnd bytes.now at result }
{
    match near(bytes, at, to) {
        Some(size) => at + size,
        None => end,
    }
}

// The first NUL that isn't before a block, for each block: from the last one to the first.
#[tactic(auto, using(crate::proofs::TableLemmas::blocks))]
fn ends_of(alloc: Global, bytes: &[u8]) -> Result<Vec<usize>, OutOfMemory>
    ensures { IfOk result (λ ends. AreEnds bytes.now ends.items) }
{
    let mut ends = vec![in alloc; bytes.len(); bytes.len() / BLOCK + 1]?;
    let mut to = bytes.len();
    let mut end = bytes.len();
    let mut block = ends.len();
    while block > 0 {
        block -= 1;
        let at = BLOCK * block;
        end = end_at(bytes, at, to, end);
        ends[block] = end;
        to = at;
    }
    Ok(ends)
}

// The first NUL that isn't before a block, or before the end of the bytes if that comes first.
#[tactic(auto, using(crate::proofs::TableLemmas::entries))]
fn end_from(bytes: &[u8], ends: &[usize], block: usize) -> usize
    requires { AreEnds bytes.now ends.now }
    ensures { IsEnd bytes.now (min (256 * block) (length bytes.now)) result }
{
    if block < ends.len() {
        ends[block]
    } else {
        bytes.len()
    }
}

// How many bytes there are from a place to an end.
#[tactic(auto, using(crate::proofs::TableLemmas::sizes))]
fn size_to(bytes: &[u8], at: usize, end: usize) -> Option<usize>
    requires { IsEnd bytes.now at end }
    ensures value { result ≡ strings.first_nul (drop at bytes.now) }
    ensures within { IfSome result (λ size. at + size < length bytes.now) }
{
    if end < bytes.len() {
        Some(end - at)
    } else {
        None
    }
}

// How many bytes there are from a place to the first NUL: in its block, or else as the next block tells.
#[tactic(auto, using(crate::proofs::TableLemmas::sizes))]
fn size_with(bytes: &[u8], ends: &[usize], at: usize) -> Option<usize>
    requires { AreEnds bytes.now ends.now }
    ensures value { result ≡ strings.first_nul (drop at bytes.now) }
    ensures within { IfSome result (λ size. at + size < length bytes.now) }
{
    if bytes.len() < at {
        return None;
    }
    let next = at / BLOCK + 1;
    match near(bytes, at, (BLOCK * next).min(bytes.len())) {
        Some(size) => Some(size),
        None => size_to(bytes, at, end_from(bytes, ends, next)),
    }
}

// The part of some bytes that begins at a place and has a size.
#[tactic(auto, unfolding(crate::specs::Strings::string_at))]
fn part_of(bytes: &Bytes, at: usize, size: Option<usize>) -> Result<Option<Bytes>, OutOfMemory>
    requires value { size ≡ strings.first_nul (drop at bytes.now) }
    requires within { IfSome size (λ size. at + size < length bytes.now) }
    ensures { IfOk result (λ name. name ≡ strings.string_at bytes.now at) }
{
    match size {
        Some(size) => Ok(Some(bytes.part(at, size)?)),
        None => Ok(None),
    }
}

impl Strings {
    /// The strings that some bytes hold, in time n of n bytes, with n / 32 bytes of memory.
    pub fn new(alloc: Global, bytes: Bytes) -> Result<Strings, OutOfMemory>
        ensures { IfOk result (λ strings. strings ≡ bytes) }
    {
        let ends = ends_of(alloc, bytes.as_slice())?;
        Ok(Strings { bytes, ends })
    }

    /// All bytes of the table.
    pub fn as_slice(&self) -> &[u8]
        ensures { result.now ≡ self.now }
    {
        self.bytes.as_slice()
    }

    /// How many bytes the string has that begins at a place and ends before a NUL, or `None` where no NUL follows. It is
    /// found in constant time, however long it is. Takes no memory.
    pub fn size_at(&self, at: usize) -> Option<usize>
        ensures value { result ≡ strings.first_nul (drop at self.now) }
        ensures within { IfSome result (λ size. at + size < length self.now) }
    {
        size_with(self.bytes.as_slice(), self.ends.as_slice(), at)
    }

    /// The string that begins at a place and ends before a NUL, where there is one: found as `size_at` does. It
    /// shares its bytes with the table.
    pub fn get(&self, at: usize) -> Result<Option<Bytes>, OutOfMemory>
        ensures { IfOk result (λ name. name ≡ strings.string_at self.now at) }
    {
        part_of(&self.bytes, at, self.size_at(at))
    }
}
