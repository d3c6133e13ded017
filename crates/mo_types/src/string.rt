ghost use Rattle.std.specs.Prelude.{◌≡◌, ◌↔◌, ◌+◌, ◌≤◌, ◌++◌, [], IsTrue, IfOk, drop, length, nat_eq, refl, Some, string_bytes, take};
ghost use Rattle.std.specs.Ordering.{nat_cmp};
ghost use Rattle.std.specs.Hash as fed;
ghost use Rattle.std.specs.Cmp.Lexicographic.{pointwise, slice_cmp, nat_list_eq_equiv, nat_list_cmp_total, texts_ties, texts_po};
ghost use Rattle.std.specs.Cmp.{partial_equiv_from_equiv};
ghost use Rattle.std.specs.Cmp.Rules.{hashing};
ghost use Rattle.std.proofs.Common.{rules};

use crate::items::Items;
use crate::memory::OutOfMemory;
use std::alloc::{AllocError, Global};
use std::cmp::Ordering;
use std::hash::{Hash, Hasher};
use std::marker::Model;

/// A string of bytes: a path, a name, a file, or the contents of a section. Strings are ordered byte by byte.
///
/// It is a range of a block that may have several owners, so that a file's names and contents are parts of
/// the file and no copies.
#[derive(Debug, Drop)]
pub struct Bytes(bytes::Bytes);

impl Model for Bytes {
    ghost use Rattle.std.specs.Prelude.{List, ℕ};

    ghost Value = { List ℕ };

    ghost view = { λ bytes. bytes.0 };
}

impl Bytes {
    /// The empty string, which takes no memory.
    pub fn new() -> Bytes
        ensures { result ≡ [] }
    {
        Bytes(bytes::Bytes::new())
    }

    /// The bytes of a constant, without taking memory.
    pub fn from_static(bytes: &'static [u8]) -> Bytes
        ensures { result ≡ bytes.now }
    {
        Bytes(bytes::Bytes::from_static(bytes))
    }

    /// The bytes of a vector, none of which is copied. The count of their owners takes memory.
    pub fn from_vec(bytes: Vec<u8>) -> Result<Bytes, OutOfMemory>
        ensures { IfOk result (λ whole. whole ≡ bytes.items) }
    {
        Ok(Bytes(bytes::Bytes::from_vec(bytes)?))
    }

    /// A copy of a slice.
    pub fn from_slice(alloc: Global, bytes: &[u8]) -> Result<Bytes, OutOfMemory>
        ensures { IfOk result (λ copy. copy ≡ bytes.now) }
    {
        Ok(Bytes(bytes::Bytes::copy_from_slice(alloc, bytes)?))
    }

    /// The part of `size` bytes from the byte `at` on, which shares them with the whole.
    pub fn part(&self, at: usize, size: usize) -> Result<Bytes, OutOfMemory>
        requires { at + size ≤ length self.now }
        ensures { IfOk result (λ part. part ≡ take size (drop at self.now)) }
    {
        let mut part = self.0.slice(at..)?;
        part.truncate(size);
        Ok(Bytes(part))
    }

    /// All of its bytes.
    pub fn as_slice(&self) -> &[u8]
        ensures { result.now ≡ self.now }
    {
        self.0.as_slice()
    }

    /// How many bytes it has.
    pub fn len(&self) -> usize
        ensures { result ≡ length self.now }
    {
        self.0.len()
    }

    /// Whether it has no byte.
    pub fn is_empty(&self) -> bool
        ensures { IsTrue result ↔ (self.now ≡ []) }
    {
        self.0.is_empty()
    }
}

impl Clone for Bytes {
    ghost is_clone = { λ bytes copy. copy ≡ bytes };

    fn clone(&self) -> Result<Bytes, AllocError> {
        Ok(Bytes(self.0.clone()?))
    }
}

impl PartialEq for Bytes {
    ghost eq = { pointwise nat_eq };

    ghost laws = { partial_equiv_from_equiv nat_list_eq_equiv };

    fn eq(&self, other: &Self) -> bool {
        self.as_slice() == other.as_slice()
    }
}

impl Eq for Bytes {
    ghost laws = { nat_list_eq_equiv };
}

impl PartialOrd for Bytes {
    ghost partial_cmp = { λ x y. Some (slice_cmp nat_cmp x y) };

    ghost laws = { texts_po };

    fn partial_cmp(&self, other: &Self) -> Option<Ordering> {
        Some(self.cmp(other))
    }
}

impl Ord for Bytes {
    ghost cmp = { slice_cmp nat_cmp };

    ghost total = { nat_list_cmp_total };

    ghost matches_partial_cmp = { λ x y. refl };

    ghost matches_eq = { texts_ties };

    fn cmp(&self, other: &Self) -> Ordering {
        self.as_slice().cmp(other.as_slice())
    }
}

/// The part of a string that a hash takes: its first 1,024 bytes, or all where it has no more. Strings of a file that are
/// parts of each other have other lengths, so that a hash of length and front tells them apart, and one of all bytes would
/// be quadratic in the file.
#[tactic(auto, using(crate::proofs::Fronts::fronts))]
pub fn hashed_front(bytes: &[u8]) -> &[u8]
    ensures { result.now ≡ take 1024 bytes.now }
{
    let count = bytes.len().min(1024);
    &bytes[..count]
}

impl Hash for Bytes {
    ghost hash_input = { λ bytes. fed.usize (length bytes) ++ fed.slice fed.u8 (take 1024 bytes) };

    ghost respects_eq = { Prim.search (hashing, rules) };

    fn hash<H: Hasher>(&self, state: &mut H) {
        self.len().hash(state);
        hashed_front(self.as_slice()).hash(state);
    }
}

/// One word of the command line, which contracts see as its bytes.
#[derive(Debug, Drop)]
pub struct Arg(String);

/// The words of a command line after the program's name.
pub type ArgList = Items<Arg>;

/// Names or paths, in order.
pub type NameList = Items<Bytes>;

impl Model for Arg {
    ghost use Rattle.std.specs.Prelude.{List, ℕ, string_bytes};

    ghost Value = { List ℕ };

    ghost view = { λ arg. string_bytes arg.0 };
}

impl Arg {
    /// The word of a text, without taking memory.
    pub fn new(word: String) -> Arg
        ensures { result ≡ string_bytes word }
    {
        Arg(word)
    }

    /// The word's bytes, which are UTF-8.
    pub fn as_bytes(&self) -> &[u8]
        ensures { result.now ≡ self.now }
    {
        self.0.as_bytes()
    }
}
