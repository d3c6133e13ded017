//! A hash of names, which for long ones reads a bounded part of the strings.

ghost use Rattle.std.specs.Prelude.{◌≡◌, ◌+◌, ◌/◌, ◌≤◌, ◌<◌, length, drop, IfOk, Some};
ghost use Rattle.mo_ar.specs.Text.{part};
ghost use Rattle.mo_ar.specs.inner.Hash as hashes;
ghost use Rattle.mo_ar.specs.inner.Hash.{AreMarks};
ghost use Rattle.mo_bytes.specs.Number as numbers;
ghost use Rattle.mo_strings.specs.Strings.{first_nul};

use byteorder::{ByteOrder, LittleEndian};
use mo_types::OutOfMemory;
use std::alloc::Global;

// FNV-1a of 64 bits.
const BASIS: u64 = 0xcbf2_9ce4_8422_2325;

const PRIME: u64 = 0x100_0000_01b3;

// Of words: 2^64 by the golden ratio.
const MULTIPLIER: u64 = 0x9e37_79b9_7f4a_7c15;

/// Names of at most so many bytes are hashed by words, and longer ones from their last byte on.
pub const LONG: usize = 128;

// So many bytes apart are the places from which the hashes are known.
const STEP: usize = 64;

#[tactic(auto, unfolding(crate::specs::inner::Hash::mixed))]
#[inline(always)]
fn mixed(hash: u64, byte: u8) -> u64
    ensures { result ≡ hashes.mixed hash byte }
{
    (hash ^ u64::from(byte)).wrapping_mul(PRIME)
}

// A hash with some bytes more in front.
#[tactic(auto, using(crate::proofs::HashLemmas::mixes))]
fn more(before: u64, bytes: &[u8]) -> u64
    ensures { result ≡ hashes.hash_on before bytes.now }
{
    let mut hash = before;
    let mut at = bytes.len();
    while at > 0 {
        at -= 1;
        hash = mixed(hash, bytes[at]);
    }
    hash
}

// The hash of a long name: FNV-1a, from the last byte to the first.
fn long_hash(name: &[u8]) -> u64
    ensures { result ≡ hashes.long_hash name.now }
{
    more(BASIS, name)
}

// The hash of what stands before the next NUL.
#[inline(always)]
fn tail(hash: u64, byte: u8) -> u64
    ensures { result ≡ hashes.tail_with hash byte }
{
    if byte == 0 { BASIS } else { mixed(hash, byte) }
}

/// The hashes of what stands before the next NUL, at each place that is a multiple of 64: in one pass over the bytes.
#[tactic(auto, using(crate::proofs::HashLemmas::marks))]
pub fn marks_of(alloc: Global, strings: &[u8]) -> Result<Vec<u64>, OutOfMemory>
    ensures { IfOk result (λ marks. AreMarks strings.now marks.items) }
{
    let mut marks = vec![in alloc; BASIS; strings.len() / STEP + 1]?;
    let mut hash = BASIS;
    let mut at = strings.len();
    while at > 0 {
        at -= 1;
        hash = tail(hash, strings[at]);
        if at % STEP == 0 {
            marks[at / STEP] = hash;
        }
    }
    Ok(marks)
}

// The hash of a long name that stands among the strings and ends before a NUL: it reads the bytes up to the next mark,
// where there are marks, and the name's own where not.
#[tactic(auto, using(crate::proofs::HashLemmas::joins))]
fn long_hash_at(strings: &[u8], marks: &[u64], at: usize, size: usize) -> u64
    requires within { at + size < length strings.now }
    requires ends { first_nul (drop at strings.now) ≡ Some size }
    requires marks { AreMarks strings.now marks.now }
    ensures { result ≡ hashes.long_hash (part strings.now at size) }
{
    let mark = at / STEP + 1;
    let near = STEP * mark - at;
    if size < near || mark >= marks.len() {
        return long_hash(&strings[at..at + size]);
    }
    more(marks[mark], &strings[at..at + near])
}

#[tactic(auto, unfolding(mo_bytes::specs::Number::number))]
#[inline(always)]
fn word(name: &[u8], at: usize) -> u64
    requires { at + 8 ≤ length name.now }
    ensures { result ≡ numbers.number 8 name.now at }
{
    LittleEndian::read_u64(&name[at..])
}

#[inline(always)]
fn folded(product: u64) -> u64
    ensures { result ≡ hashes.folded product }
{
    product ^ product >> 32
}

#[tactic(auto, unfolding(crate::specs::inner::Hash::stepped))]
#[inline(always)]
fn stepped(hash: u64, word: u64) -> u64
    ensures { result ≡ hashes.stepped hash word }
{
    folded((hash ^ word).wrapping_mul(MULTIPLIER))
}

#[tactic(auto, using(crate::proofs::HashLemmas::words))]
#[inline(always)]
fn words_hash(name: &[u8]) -> u64
    ensures { result ≡ hashes.words_hash (length name.now / 8) name.now }
{
    let mut hash = name.len() as u64;
    for i in 0..name.len() / 8 {
        hash = stepped(hash, word(name, 8 * i));
    }
    hash
}

#[tactic(auto, unfolding(crate::specs::inner::Hash::short_hash))]
#[inline(always)]
fn short_hash(name: &[u8]) -> u64
    ensures { result ≡ hashes.short_hash name.now }
{
    if name.len() < 8 {
        return more(BASIS, name);
    }
    stepped(words_hash(name), word(name, name.len() - 8))
}

/// The hash of a name.
#[tactic(auto, unfolding(crate::specs::inner::Hash::hash))]
#[inline(always)]
pub fn hash(name: &[u8]) -> u64
    ensures { result ≡ hashes.hash name.now }
{
    if name.len() <= LONG {
        short_hash(name)
    } else {
        long_hash(name)
    }
}

/// The hash of a name that stands among the strings and ends before a NUL: it reads at most some 128 bytes of it, where
/// there are marks.
#[tactic(auto, unfolding(crate::specs::inner::Hash::hash))]
#[inline(always)]
pub fn hash_at(strings: &[u8], marks: &[u64], at: usize, size: usize) -> u64
    requires within { at + size < length strings.now }
    requires ends { first_nul (drop at strings.now) ≡ Some size }
    requires marks { AreMarks strings.now marks.now }
    ensures { result ≡ hashes.hash (part strings.now at size) }
{
    let name = &strings[at..at + size];
    if name.len() <= LONG {
        return short_hash(name);
    }
    long_hash_at(strings, marks, at, size)
}
