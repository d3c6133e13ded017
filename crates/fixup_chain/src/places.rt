//! Where pointers stand: on which pages, and how far behind one another.
ghost use Rattle.std.specs.Prelude.{◌≡◌, ◌<◌, ◌≤◌, ◌^◌, nat_lt, true, false, length, slice_get, IfSome};
ghost use Rattle.std.specs.List.Sorted.{IsPartitionPoint};
ghost use Rattle.fixup_chain.specs.Encoded.{AreApart};
ghost use Rattle.fixup_chain.specs.Places as places;
ghost use Rattle.fixup_chain.specs.inner.Near as near;

use crate::chains::Fixup;
use image_format::fixup_chains::DYLD_CHAINED_PTR_START_NONE;
use sect_place::Segment;

/// The bytes of a page.
pub(crate) const PAGE: u64 = 0x4000;

// The address of the pointer at an index, if there is one.
fn address_at(fixups: &[Fixup], at: usize) -> Option<u64>
    ensures { result ≡ near.address_at fixups.now at }
{
    match fixups.get(at) {
        Some(fixup) => Some(fixup.address),
        None => None,
    }
}

// The distance to the next address, if that is on the same page, in steps of 4 bytes.
fn steps_by(from: u64, next: Option<u64>) -> u16
    ensures value { result ≡ near.steps_by from next }
    ensures few { result < 2 ^ 12 }
{
    match next {
        Some(to) if to / PAGE == from / PAGE => {
            ((to % PAGE).saturating_sub(from % PAGE) / 4) as u16
        }
        _ => 0,
    }
}

/// The distance from the pointer at an index, which has this address, to the next one of its page, in steps of 4
/// bytes, or 0.
#[tactic(auto, using(crate::proofs::NearLemmas::stepping))]
pub(crate) fn steps_to_next(fixups: &[Fixup], at: usize, address: u64) -> u16
    requires apart { AreApart fixups.now }
    requires there { near.IsThere fixups.now at address }
    ensures value { result ≡ places.steps_to_next (places.addresses_of fixups.now) address }
    ensures few { result < 2 ^ 12 }
{
    let next = address_at(fixups, at + 1);
    steps_by(address, next)
}

// How many pointers stand on pages before one.
fn before_page(fixups: &[Fixup], page: u64) -> usize
    requires { AreApart fixups.now }
    ensures { IsPartitionPoint (λ fixup. nat_lt (places.page_of fixup.address) page ≡ true)
        (λ fixup. nat_lt (places.page_of fixup.address) page ≡ false) fixups.now result }
{
    fixups.partition_point(|fixup| fixup.address / PAGE < page)
}

// Where an address is in its page, if the page is this one.
fn start_by(page: u64, first: Option<u64>) -> u16
    ensures { result ≡ near.start_by page first }
{
    match first {
        Some(address) if address / PAGE == page => (address % PAGE) as u16,
        _ => DYLD_CHAINED_PTR_START_NONE,
    }
}

/// Where the chain of a page begins in the page, or `DYLD_CHAINED_PTR_START_NONE`.
#[tactic(auto, using(crate::proofs::NearLemmas::starting))]
pub(crate) fn page_start(fixups: &[Fixup], page: u64) -> u16
    requires { AreApart fixups.now }
    ensures { result ≡ places.page_start (places.addresses_of fixups.now) page }
{
    let before = before_page(fixups, page);
    let first = address_at(fixups, before);
    start_by(page, first)
}

// How many pointers stand below an address.
fn below(fixups: &[Fixup], end: u128) -> usize
    requires { AreApart fixups.now }
    ensures point { IsPartitionPoint (λ fixup. nat_lt fixup.address end ≡ true) (λ fixup. nat_lt fixup.address end ≡ false) fixups.now result }
    ensures bound { result ≤ length fixups.now }
{
    fixups.partition_point(|fixup| u128::from(fixup.address) < end)
}

// The address of the last of so many pointers.
fn last_address(fixups: &[Fixup], count: usize) -> Option<u64>
    ensures { result ≡ near.last_address fixups.now count }
{
    if count == 0 {
        None
    } else {
        address_at(fixups, count - 1)
    }
}

// How many pages there are from one that begins at an address up to that of the last pointer.
fn pages_by(start: u64, last: Option<u64>) -> u64
    ensures value { result ≡ near.pages_by start last }
    ensures few { result < 2 ^ 51 }
{
    match last {
        Some(last) if start <= last => (last - start) / PAGE + 1,
        _ => 0,
    }
}

/// How many pages a segment has up to the last one with a pointer.
#[tactic(auto, using(crate::proofs::NearLemmas::counting))]
pub(crate) fn pages_of(fixups: &[Fixup], segment: &Segment) -> u64
    requires { AreApart fixups.now }
    ensures value { result ≡ places.pages_of (places.addresses_of fixups.now) segment.now }
    ensures few { result < 2 ^ 51 }
{
    let end = u128::from(segment.address) + u128::from(segment.vmsize);
    let count = below(fixups, end);
    let last = last_address(fixups, count);
    pages_by(segment.address, last)
}
