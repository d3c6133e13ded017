//! The chains of an image whole.
ghost use Rattle.std.specs.Prelude.{◌≡◌, ◌<◌, ◌^◌, IfErr, IfOk, length};
ghost use Rattle.fixup_chain.specs.Chained.{AreChains, IsCause};
ghost use Rattle.fixup_chain.specs.Encoded as encoded;
ghost use Rattle.fixup_chain.specs.Encoded.{AreApart};
ghost use Rattle.fixup_chain.specs.Faults as faults;
ghost use Rattle.fixup_chain.specs.Imports.{pool_of};
ghost use Rattle.fixup_chain.specs.Places.{addresses_of};
ghost use Rattle.fixup_chain.specs.Words as words;
ghost use Rattle.fixup_chain.specs.inner.Held.{AreNumbers, HaveOffsets, imports_in, numbers_by};
ghost use Rattle.fixup_chain.specs.inner.Rows.{rows_at};
ghost use Rattle.fixup_chain.specs.inner.Turn.{IsFirst};
ghost use Rattle.sect_place.specs.Addresses.{AreOnce};

use crate::blob::joined;
use crate::chains::{ChainFault, ChainWord, Chains, Fixup, FixupList, WordList};
use crate::faults::{are_open, first_fault, first_with};
use crate::imports::{Formed, imports_of};
use crate::many::IMPORTS;
use crate::numbers::number_at;
use crate::places::steps_to_next;
use crate::rows::row_bytes;
use crate::starts::starts_of;
use crate::targets::base_of;
use crate::words::word_by;
use mo_types::{Bytes, Items, OutOfMemory, Which};
use sect_place::Layout;
use std::alloc::Global;

// The words of pointers, and the index of the first pointer with a fault.
#[derive(Drop)]
struct Walked {
    words: WordList,
    first: Option<usize>,
}

// The walk through all pointers of an image that begins at `base`, by what is held for each and by imports' numbers.
#[tactic(auto, using(crate::proofs::WalkLemmas::walking))]
fn walk(
    alloc: Global,
    layout: &Layout,
    base: u64,
    wide: bool,
    ranks: &[usize],
    held: &[usize],
    fixups: &[Fixup],
) -> Result<Walked, OutOfMemory>
    requires apart { AreApart fixups.now }
    requires once { AreOnce layout.now.placed }
    requires base { base ≡ faults.base_of layout.now.segments }
    requires few { length (imports_in wide fixups.now) < encoded.IMPORTS }
    requires numbers { AreNumbers wide fixups.now (imports_in wide fixups.now) (numbers_by ranks.now held.now) }
    requires offsets { HaveOffsets layout.now fixups.now held.now }
    ensures words { IfOk result (λ walked. walked.words ≡ words.words_of (faults.target_of layout.now) wide (imports_in wide fixups.now) fixups.now) }
    ensures first { IfOk result (λ walked. IsFirst layout.now fixups.now (length fixups.now) walked.first) }
{
    let free = are_open(layout.segments.as_slice(), fixups);
    let mut words = Vec::with_capacity(alloc, fixups.len())?;
    let mut first = None;
    for (at, fixup) in fixups.iter().enumerate() {
        let one = held[at];
        first = first_with(layout, base, free, fixups, first, at, one);
        let next = steps_to_next(fixups, at, fixup.address);
        let number = number_at(ranks, one) as u32;
        words.push(ChainWord {
            address: fixup.address,
            word: word_by(wide, number, one, next, fixup),
        })?;
    }
    Ok(Walked {
        words: Items::from_vec(words),
        first,
    })
}

// The part that tells the loader of the chains of an image that begins at `base`.
#[tactic(auto, using(crate::proofs::BlobLemmas::blobs))]
fn blob_of(
    alloc: Global,
    layout: &Layout,
    base: u64,
    formed: &Formed,
    fixups: &[Fixup],
) -> Result<Bytes, OutOfMemory>
    requires apart { AreApart fixups.now }
    requires few { length formed.now.rows.items < encoded.IMPORTS }
    requires rows { formed.now.rows.items ≡ rows_at 1 (imports_in formed.now.wide fixups.now) }
    requires pool { formed.now.pool.items ≡ pool_of (imports_in formed.now.wide fixups.now) }
    ensures { IfOk result (λ blob. blob ≡ encoded.blob_of (addresses_of fixups.now) base layout.now.segments formed.now.wide (imports_in formed.now.wide fixups.now)) }
{
    let starts = starts_of(alloc, fixups, base, layout.segments.as_slice())?;
    let rows = row_bytes(alloc, formed.wide, formed.rows.as_slice())?;
    let count = formed.rows.len() as u32;
    let pool = formed.pool.as_slice();
    let blob = joined(
        alloc,
        formed.wide,
        count,
        starts.as_slice(),
        rows.as_slice(),
        pool,
    )?;
    Bytes::from_vec(blob)
}

/// The chains of the pointers of an image, whose addresses rise by 8 at least: a word for each, and the part of
/// `__LINKEDIT` that tells the loader of them (`fixup-chains.h`).
///
/// `Limit(Imports)` where there are 2^24 imports or more. Else `Range` where a pointer is in `__TEXT`, not at a
/// multiple of 4 bytes, on two pages of 0x4000 bytes, or on page 0xffff of its segment or a later one (`FixupPlace`); or
/// where it is rebased to an offset that isn't from 0 to 2^36 - 1 (`RebaseTarget`, before the other). That of the slot
/// with the least address comes first, then that of the least atom and place.
#[tactic(auto, using(crate::proofs::EncodeLemmas::encoding))]
pub fn encode(alloc: Global, fixups: &FixupList, layout: &Layout) -> Result<Chains, ChainFault>
    requires apart { AreApart fixups.now }
    requires once { AreOnce layout.now.placed }
    ensures chains { IfOk result (AreChains layout.now fixups.now) }
    ensures fault { IfErr result (IsCause layout.now fixups.now) }
{
    let fixups = fixups.as_slice();
    let base = base_of(layout.segments.as_slice());
    let formed = imports_of(alloc, layout, base, fixups)?;
    if formed.rows.len() >= IMPORTS {
        return Err(ChainFault::Limit(Which::Imports));
    }
    let (ranks, held) = (formed.ranks.as_slice(), formed.held.as_slice());
    let walked = walk(alloc, layout, base, formed.wide, ranks, held, fixups)?;
    if let Some(fault) = first_fault(layout, base, fixups, walked.first) {
        return Err(fault);
    }
    let blob = blob_of(alloc, layout, base, &formed, fixups)?;
    Ok(Chains {
        words: walked.words,
        blob,
    })
}
