//! What an archive offers, with an index by name.

ghost use Rattle.std.specs.Prelude.{◌≡◌, ◌<◌, ◌^◌, [], length, All, IfOk, IfSome, IfNone};
ghost use Rattle.mo_ar.specs.inner.Index.{offers_of};
ghost use Rattle.mo_ar.specs.Offers.{IsLeastOffer, IsUnoffered, first_offer};
ghost use Rattle.mo_ar.specs.inner.Index.{IsEntry};
ghost use Rattle.mo_ar.specs.OfferAt.{IsOfferAt};

use crate::index::{Index, index_of, look_up};
use crate::offers::Entry;
use crate::order::name_of;
use mo_types::{Bytes, OutOfMemory};
use std::alloc::Global;
use std::marker::Model;

/// The offers of an archive in the order of its table of contents, which contracts see as a list of `Offer`. Their
/// names are not copied: each is a part of the table's strings.
#[derive(Debug, Drop)]
pub struct OfferList {
    strings: Bytes,
    entries: Vec<Entry>,
    index: Index,
}

impl Model for OfferList {
    ghost use Rattle.std.specs.Prelude.{List};
    ghost use Rattle.mo_ar.specs.declared.offers.Offer.{Offer};
    ghost use Rattle.mo_ar.specs.inner.Index.{IsIndexed, offers_of};

    ghost Value = { List Offer };

    ghost view = { λ list. offers_of list.strings list.entries.items };

    ghost invariant = { λ list. IsIndexed list.strings list.entries.items list.index };
}

impl OfferList {
    /// No offers.
    pub(crate) fn empty(alloc: Global) -> Result<OfferList, OutOfMemory>
        ensures { IfOk result (λ list. list ≡ []) }
    {
        OfferList::from_entries(alloc, Bytes::new(), Vec::new(alloc))
    }

    /// The offers whose names are these parts of the strings.
    pub(crate) fn from_entries(
        alloc: Global,
        strings: Bytes,
        entries: Vec<Entry>,
    ) -> Result<OfferList, OutOfMemory>
        requires entries { All (IsEntry strings) entries.items }
        requires few { length entries.items < 2 ^ 32 }
        ensures { IfOk result (λ list. list ≡ offers_of strings entries.items) }
    {
        let index = index_of(alloc, strings.as_slice(), entries.as_slice())?;
        Ok(OfferList {
            strings,
            entries,
            index,
        })
    }

    /// How many offers there are.
    pub fn len(&self) -> usize
        ensures { result ≡ length self.now }
    {
        self.entries.len()
    }

    /// The name and the member's number of the offer at an index, or `None` exactly where there are no more.
    pub fn get(&self, at: usize) -> Option<(&[u8], u32)>
        ensures { IsOfferAt (λ name. name.now) self.now at result }
    {
        let entries = self.entries.as_slice();
        if entries.len() <= at {
            return None;
        }
        let entry = entries[at];
        Some((name_of(self.strings.as_slice(), entry), entry.member))
    }

    /// The least number of a member that the table gives to a name, or `None` exactly where it gives it to none. It takes the time of one look-up by
    /// hash, or by halving where many names have one hash, however many offers there are.
    #[tactic(auto, using(crate::proofs::LeastLemmas::least))]
    pub fn first_offer(&self, name: &[u8]) -> Option<u32>
        ensures exact { result ≡ first_offer name.now self.now }
        ensures least { IfSome result (IsLeastOffer name.now self.now) }
        ensures none { IfNone result (IsUnoffered name.now self.now) }
    {
        look_up(self.strings.as_slice(), &self.index, name)
    }
}
