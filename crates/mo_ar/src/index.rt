//! The index of offers by name.

ghost use Rattle.std.specs.Prelude.{◌≡◌, ℕ, ◌+◌, ◌^◌, ◌<◌, ◌≤◌, true, IfNone, IfOk, IfSome, OnOk};
ghost use Rattle.std.specs.Prelude.{List, length, All, slice_set, slice_index, slice_index_or};
ghost use Rattle.std.specs.Str.{bytes_eq};
ghost use Rattle.mo_ar.specs.inner.Index as index;
ghost use Rattle.mo_ar.specs.inner.Hash.{AreMarks};
ghost use Rattle.mo_ar.specs.inner.Index.{AreChained, AreNexts, AreNodes, BeginsAt, IsEntry, IsIndexOf, IsNodeOf};
ghost use Rattle.mo_ar.specs.inner.Index.{IsOther, StandsAt, offers_of};
ghost use Rattle.mo_ar.specs.inner.Offered.{AreBucketsFrom, IsBucketAt, IsIndexFrom};
ghost use Rattle.mo_ar.specs.Offers.{first_offer};
ghost use Rattle.mo_ar.specs.Text.{part};
ghost use Rattle.mo_ar.specs.declared.index.Node.{Node};
ghost use Rattle.mo_ar.specs.declared.offers.Entry.{Entry};
ghost use Rattle.mo_ar.specs.declared.offers.Offer.{Offer};

use crate::hash::{LONG, hash, hash_at, marks_of};
use crate::offered::Offered;
use crate::offers::Entry;
use crate::order::{in_order, name_of, rank};
use mo_types::OutOfMemory;
use std::alloc::Global;

/// A name that is offered, with the least number of a member for it.
#[derive(Clone, Copy, Debug, PartialEq, Eq)]
pub struct Node {
    entry: Entry,
    // The node before it in its bucket, counted from 1, or 0.
    next: u32,
}

/// The names that are offered, each once, and of each bucket of names the last one, counted from 1. Buckets go by the
/// hash of a name, or by its place among those in order, if there are such.
#[derive(Debug, Drop)]
pub struct Index {
    order: Vec<Entry>,
    heads: Vec<u32>,
    nodes: Vec<Node>,
}

// A bucket with more names than so many is long: as good as none is, unless the names were chosen to have one hash.
const LONG_BUCKET: usize = 64;

// The buckets of so many entries are listed, and their heads read, at once.
const PIECE: usize = 512;

// The bucket of a name, of some buckets.
#[tactic(auto, unfolding(crate::specs::inner::Index::bucket))]
fn bucket(strings: &[u8], order: &[Entry], name: &[u8], count: usize) -> usize
    requires some { 0 < count }
    requires order { All (IsEntry strings.now) order.now }
    ensures exact { result ≡ index.bucket strings.now order.now count name.now }
    ensures within { result < count }
{
    if order.is_empty() {
        (hash(name) >> 32) as usize % count
    } else {
        rank(strings, order, name) % count
    }
}

// The bucket of an entry's name, of some buckets.
#[tactic(auto, unfolding(crate::specs::inner::Index::bucket))]
#[inline(always)]
fn bucket_at(strings: &[u8], order: &[Entry], marks: &[u64], entry: Entry, count: usize) -> usize
    requires some { 0 < count }
    requires order { All (IsEntry strings.now) order.now }
    requires entry { IsEntry strings.now entry }
    requires marks { AreMarks strings.now marks.now }
    ensures exact { result ≡ index.bucket strings.now order.now count (part strings.now entry.at entry.size) }
    ensures within { result < count }
{
    if order.is_empty() {
        (hash_at(strings, marks, entry.at as usize, entry.size as usize) >> 32) as usize % count
    } else {
        rank(strings, order, name_of(strings, entry)) % count
    }
}

// Whether an entry has a name, which is known to stand at a place or isn't. At its own place nothing is compared.
#[tactic(auto, using(crate::proofs::IndexLemmas::places))]
#[inline(always)]
fn is_named(strings: &[u8], entry: Entry, name: &[u8], place: Option<u32>) -> bool
    requires entry { IsEntry strings.now entry }
    requires place { IfSome place (StandsAt strings.now name.now) }
    ensures { result ≡ bytes_eq (part strings.now entry.at entry.size) name.now }
{
    if place == Some(entry.at) {
        return true;
    }
    name_of(strings, entry) == name
}

// The index of the node of a name, which is in the bucket that begins at `from`, counted from 1.
#[tactic(auto, using(crate::proofs::IndexLemmas::finds))]
#[inline(always)]
fn find(
    strings: &[u8],
    order: &[Entry],
    nodes: &[Node],
    name: &[u8],
    place: Option<u32>,
    count: usize,
    from: usize,
) -> Option<usize>
    requires entries { All (λ node. IsEntry strings.now node.entry) nodes.now }
    requires nexts { AreNexts strings.now order.now count nodes.now }
    requires place { IfSome place (StandsAt strings.now name.now) }
    requires begins { BeginsAt strings.now order.now count nodes.now (index.bucket strings.now order.now count name.now) (length nodes.now) from }
    ensures found { IfSome result (IsNodeOf strings.now nodes.now name.now) }
    ensures none { IfNone result (All (IsOther strings.now name.now) nodes.now) }
{
    let mut at = from;
    while at > 0 {
        let node = nodes[at - 1];
        if is_named(strings, node.entry, name, place) {
            return Some(at - 1);
        }
        at = node.next as usize;
    }
    None
}

// Notes one member more for the name of a node.
#[inline(always)]
fn lower(nodes: &mut Vec<Node>, at: usize, member: u32)
    requires { at < length nodes.old.items }
    ensures len { length nodes.new.items ≡ length nodes.old.items }
    ensures lowered { (d : Node) → nodes.new.items ≡ slice_set nodes.old.items at (index.lowered member (slice_index_or nodes.old.items at d)) }
{
    let node = nodes[at];
    nodes[at] = Node {
        entry: Entry {
            at: node.entry.at,
            size: node.entry.size,
            member: member.min(node.entry.member),
        },
        next: node.next,
    };
}

// Whether a bucket that begins at `from`, counted from 1, is long.
fn is_long(nodes: &[Node], from: usize) -> bool {
    let mut at = from;
    for _ in 0..LONG_BUCKET {
        if at == 0 || nodes.len() < at {
            return false;
        }
        at = nodes[at - 1].next as usize;
    }
    true
}

// How many buckets there are for so many names.
fn bucket_count(names: usize) -> usize
    requires { names < 2 ^ 32 }
    ensures some { 0 < result }
    ensures few { result ≤ 2 ^ 32 }
{
    (3 * names + 1).min(1 << 32)
}

// The buckets of the names of some of the entries, of some buckets: before any is looked up, since each look-up waits for
// memory. Hashes of long names need marks, which are made at the first such name.
fn buckets_of(
    alloc: Global,
    offered: &Offered,
    marks: &mut Vec<u64>,
    count: usize,
    from: usize,
    to: usize,
) -> Result<Vec<u32>, OutOfMemory>
    requires some { 0 < count }
    requires few { count ≤ 2 ^ 32 }
    requires places { from ≤ to }
    requires within { to ≤ length offered.now.entries.now }
    requires marks { AreMarks offered.now.strings.now marks.old.items }
    ensures buckets { IfOk result (λ buckets. AreBucketsFrom offered.now count from buckets.items) }
    ensures len { IfOk result (λ buckets. from + length buckets.items ≡ to) }
    ensures marks { OnOk result (AreMarks offered.now.strings.now marks.new.items) }
{
    let mut buckets = Vec::with_capacity(alloc, to - from)?;
    for i in from..to {
        let entry = offered.entries[i];
        if entry.size as usize > LONG && marks.is_empty() {
            *marks = marks_of(alloc, offered.strings)?;
        }
        let b = bucket_at(
            offered.strings,
            offered.order,
            marks.as_slice(),
            entry,
            count,
        );
        buckets.push_reserved(b as u32);
    }
    Ok(buckets)
}

// The greatest head of some buckets, whose turn comes next: they are read at once, so that the waits for memory overlap.
fn ahead(heads: &[u32], buckets: &[u32]) -> u32
    requires { (k : ℕ) → k < length buckets.now → slice_index buckets.now k < length heads.now }
    ensures { (bound : ℕ) → ((b : ℕ) → b < length heads.now → slice_index heads.now b ≤ bound) → result ≤ bound }
{
    let mut greatest = 0;
    for i in 0..buckets.len() {
        let head = heads[buckets[i] as usize];
        if greatest < head {
            greatest = head;
        }
    }
    greatest
}

// Puts the offer at an index, whose name has a known bucket, into the index of those behind it, and says whether that bucket
// is long. The greatest of the heads that were read ahead is no greater than a new one; it is used here, so that they are
// read at all.
fn put(
    offered: &Offered,
    heads: &mut [u32],
    nodes: &mut Vec<Node>,
    b: usize,
    greatest: u32,
    at: usize,
) -> Result<bool, OutOfMemory>
    requires place { at < length offered.now.entries.now }
    requires bucket { IsBucketAt offered.now (length heads.old) at b }
    requires inside { b < length heads.old }
    requires few { length nodes.old.items + 1 < 2 ^ 32 }
    requires greatest { greatest ≤ length nodes.old.items }
    requires index { IsIndexFrom offered.now (at + 1) heads.old nodes.old.items }
    ensures index { OnOk result (IsIndexFrom offered.now at heads.new nodes.new.items) }
    ensures more { OnOk result (length nodes.old.items ≤ length nodes.new.items) }
    ensures few { OnOk result (length nodes.new.items ≤ length nodes.old.items + 1) }
    ensures len { length heads.new ≡ length heads.old }
{
    let entry = offered.entries[at];
    let name = name_of(offered.strings, entry);
    let count = heads.len();
    let head = heads[b];
    match find(
        offered.strings,
        offered.order,
        nodes.as_slice(),
        name,
        Some(entry.at),
        count,
        head as usize,
    ) {
        Some(known) => {
            lower(nodes, known, entry.member);
            Ok(false)
        }
        None => {
            let long = is_long(nodes.as_slice(), head as usize);
            nodes.push(Node { entry, next: head })?;
            heads[b] = (nodes.len() as u32).max(greatest);
            Ok(long)
        }
    }
}

// Puts the offers from one index up to another, from the last to the first, and says whether a bucket of theirs is long.
fn put_each(
    offered: &Offered,
    buckets: &[u32],
    heads: &mut [u32],
    nodes: &mut Vec<Node>,
    from: usize,
    to: usize,
) -> Result<bool, OutOfMemory>
    requires buckets { AreBucketsFrom offered.now (length heads.old) from buckets.now }
    requires many { from + length buckets.now ≡ to }
    requires within { to ≤ length offered.now.entries.now }
    requires offers { length offered.now.entries.now < 2 ^ 32 }
    requires few { length nodes.old.items + to ≤ length offered.now.entries.now }
    requires index { IsIndexFrom offered.now to heads.old nodes.old.items }
    ensures index { OnOk result (IsIndexFrom offered.now from heads.new nodes.new.items) }
    ensures few { OnOk result (length nodes.new.items + from ≤ length offered.now.entries.now) }
    ensures len { length heads.new ≡ length heads.old }
{
    let greatest = ahead(heads, buckets);
    let mut long = false;
    let mut at = to;
    while at > from {
        at -= 1;
        let b = buckets[at - from] as usize;
        if put(offered, heads, nodes, b, greatest, at)? {
            long = true;
        }
    }
    Ok(long)
}

// The same, with their buckets.
fn put_piece(
    alloc: Global,
    offered: &Offered,
    marks: &mut Vec<u64>,
    heads: &mut [u32],
    nodes: &mut Vec<Node>,
    from: usize,
    to: usize,
) -> Result<bool, OutOfMemory>
    requires marks { AreMarks offered.now.strings.now marks.old.items }
    requires buckets { length heads.old ≤ 2 ^ 32 }
    requires places { from ≤ to }
    requires within { to ≤ length offered.now.entries.now }
    requires offers { length offered.now.entries.now < 2 ^ 32 }
    requires few { length nodes.old.items + to ≤ length offered.now.entries.now }
    requires index { IsIndexFrom offered.now to heads.old nodes.old.items }
    ensures index { OnOk result (IsIndexFrom offered.now from heads.new nodes.new.items) }
    ensures few { OnOk result (length nodes.new.items + from ≤ length offered.now.entries.now) }
    ensures len { length heads.new ≡ length heads.old }
    ensures marks { OnOk result (AreMarks offered.now.strings.now marks.new.items) }
{
    let buckets = buckets_of(alloc, offered, marks, heads.len(), from, to)?;
    put_each(offered, buckets.as_slice(), heads, nodes, from, to)
}

// The index of some offers by buckets, or `None` if it is to have no long bucket, and would have one.
#[tactic(auto, using(crate::proofs::IndexLemmas::builds))]
fn built(
    alloc: Global,
    strings: &[u8],
    order: Vec<Entry>,
    entries: &[Entry],
    short: bool,
) -> Result<Option<Index>, OutOfMemory>
    requires entries { All (IsEntry strings.now) entries.now }
    requires order { All (IsEntry strings.now) order.items }
    requires few { length entries.now < 2 ^ 32 }
    ensures index { IfOk result (λ index. IfSome index (IsIndexOf strings.now (offers_of strings.now entries.now))) }
    ensures some { IfOk result (λ index. IfNone index (short ≡ true)) }
{
    let mut marks = Vec::new(alloc);
    let mut heads = vec![in alloc; 0; bucket_count(entries.len())]?;
    let mut nodes = Vec::with_capacity(alloc, entries.len())?;
    let mut to = entries.len();
    while to > 0 {
        let from = to.saturating_sub(PIECE);
        let offered = Offered {
            strings,
            order: order.as_slice(),
            entries,
        };
        let long = put_piece(
            alloc,
            &offered,
            &mut marks,
            heads.as_mut_slice(),
            &mut nodes,
            from,
            to,
        )?;
        if short && long {
            return Ok(None);
        }
        to = from;
    }
    Ok(Some(Index {
        order,
        heads,
        nodes,
    }))
}

/// The index of some offers.
pub fn index_of(alloc: Global, strings: &[u8], entries: &[Entry]) -> Result<Index, OutOfMemory>
    requires entries { All (IsEntry strings.now) entries.now }
    requires few { length entries.now < 2 ^ 32 }
    ensures { IfOk result (IsIndexOf strings.now (offers_of strings.now entries.now)) }
{
    if let Some(index) = built(alloc, strings, Vec::new(alloc), entries, true)? {
        return Ok(index);
    }
    let order = in_order(alloc, strings, entries)?;
    match built(alloc, strings, order, entries, false)? {
        Some(index) => Ok(index),
        None => unreachable!(),
    }
}

/// The least number of a member that is offered for a name.
#[tactic(auto, using(crate::proofs::IndexLemmas::looks))]
pub fn look_up(strings: &[u8], index: &Index, name: &[u8]) -> Option<u32>
    requires { AreChained strings.now index.now.order.items index.now.heads.items index.now.nodes.items }
    ensures { (offers : List Offer) → AreNodes strings.now offers index.now.nodes.items → result ≡ first_offer name.now offers }
{
    let order = index.order.as_slice();
    let heads = index.heads.as_slice();
    let nodes = index.nodes.as_slice();
    let b = bucket(strings, order, name, heads.len());
    match find(
        strings,
        order,
        nodes,
        name,
        None,
        heads.len(),
        heads[b] as usize,
    ) {
        Some(at) => Some(nodes[at].entry.member),
        None => None,
    }
}
