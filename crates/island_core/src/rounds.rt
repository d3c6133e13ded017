//! The least closed set of pairs, round by round from below.
ghost use Rattle.std.specs.Prelude.{◌≡◌, ◌+◌, ◌*◌, ◌<◌, ◌≤◌, ◌^◌, ◌++◌, All, IfOk, length, not, slice_index};
ghost use Rattle.std.specs.List.Sorted.{IsStrictlySortedBy};
ghost use Rattle.island_core.specs.Far as spec;
ghost use Rattle.island_core.specs.inner.Rounds.{AreCounts, IsMoves, new_pairs_of};
ghost use Rattle.island_core.specs.declared.row.Pair.{Pair};
ghost use Rattle.sect_place.specs.Places.{islands_bytes};
ghost use Rattle.tlv_plan.specs.Template.{aligned};

use crate::pairs::{has, in_order};
use crate::row::{Case, Pair, Row, Scale};
use mo_types::OutOfMemory;
use std::alloc::Global;

/// The pairs of a group and a target that have islands, by group and then by target: no more than it takes for each
/// branch that needs an island to have one, where areas have the islands of these pairs.
pub fn far_pairs(alloc: Global, rows: &[Row], scale: &Scale) -> Result<Vec<Pair>, OutOfMemory>
    requires scale { spec.IsScale scale.now }
    requires rows { All (spec.IsRow scale.now) rows.now }
    requires in_turn { All spec.IsInTurn rows.now }
    ensures { IfOk result (λ far. spec.IsFar scale.now rows.now far.items) }
{
    let mut far = Vec::new(alloc);
    'rounds: loop {
        let moves = moves(alloc, far.as_slice(), scale)?;
        let more = new_pairs(alloc, rows, scale, moves.as_slice(), far.as_slice())?;
        let found = more.as_slice();
        if found.is_empty() {
            return Ok(far);
        }
        far = joined(far, found)?;
    }
}

// Of pairs, fewer than 2^60 lie in memory.
fn pairs_are_few(pairs: &[Pair])
    ensures { length pairs.now < 2 ^ 60 }
{
    let _ = pairs;
}

// Counts the pairs of each group.
fn count_all(counts: &mut [usize], set: &[Pair])
    requires none { AreCounts set.now 0 counts.old }
    ensures all { length counts.new ≡ length counts.old }
    ensures each { AreCounts set.now (length set.now) counts.new }
{
    pairs_are_few(set);
    for pair in set {
        if pair.group < counts.len() {
            counts[pair.group] += 1;
        }
    }
}

// How many islands each group has.
fn counts(alloc: Global, set: &[Pair], groups: usize) -> Result<Vec<usize>, OutOfMemory>
    ensures all { IfOk result (λ counts. length counts.items ≡ groups) }
    ensures each { IfOk result (λ counts. AreCounts set.now (length set.now) counts.items) }
{
    let mut counts = vec![in alloc; 0usize; groups]?;
    count_all(counts.as_mut_slice(), set);
    Ok(counts)
}

// Two to a power.
fn unit_of(power: u8) -> u128
    requires { power ≤ 14 }
    ensures exact { result ≡ 2 ^ power }
    ensures small { result ≤ 0x4000 }
{
    1u128 << power
}

// The least multiple of two to a power that isn't below some bytes.
fn up(bytes: u128, power: u8) -> u128
    requires low { power ≤ 14 }
    requires few { bytes < 2 ^ 127 }
    ensures exact { result ≡ aligned power bytes }
    ensures small { result < bytes + 0x4000 }
{
    let unit = unit_of(power);
    bytes + (unit - 1) >> power << power
}

// How many bytes an area of so many islands has.
fn area_bytes(power: u8, count: usize) -> u128
    requires { power ≤ 14 }
    ensures exact { result ≡ islands_bytes power count }
    ensures small { result < 13 * 2 ^ 64 }
{
    if count == 0 {
        return 0;
    }
    up(3 + 12 * count as u128, power)
}

// Of bytes, fewer than 2^59 numbers of 128 bits lie in memory.
fn moves_are_few(moves: &[u128])
    ensures { length moves.now < 2 ^ 59 }
{
    let _ = moves;
}

// Whether a branch reaches from a place to another.
fn in_reach(reach: u128, from: u128, to: u128) -> bool
    requires reach { reach < 2 ^ 64 }
    requires from { from < 2 ^ 127 + 2 ^ 126 }
    requires to { to < 2 ^ 127 + 2 ^ 126 }
    ensures { result ≡ spec.in_reach reach from to }
{
    from <= to + reach && to + 4 <= from + reach && from % 4 == to % 4
}

// The same where either place may be moved by so many bytes.
fn in_reach_by(reach: u128, slack: u128, from: u128, to: u128) -> bool
    requires reach { reach < 2 ^ 64 }
    requires slack { slack < 2 ^ 127 }
    requires from { from < 2 ^ 66 }
    requires to { to < 2 ^ 66 }
    ensures { result ≡ spec.in_reach_by reach slack from to }
{
    from + slack + 4 <= to + reach && to + slack + 4 <= from + reach && from % 4 == to % 4
}

// How far what stands behind some groups is moved.
fn moved(moves: &[u128], group: usize) -> u128
    requires there { group < length moves.now }
    requires small { All (λ bytes. bytes < 2 ^ 127) moves.now }
    ensures exact { result ≡ slice_index moves.now group }
    ensures small { result < 2 ^ 127 }
{
    moves[group]
}

// Whether a branch needs an island.
fn needs(row: &Row, scale: &Scale, moves: &[u128]) -> bool
    requires groups { (row.now.pair.group < length moves.now) × (row.now.zone < length moves.now) }
    requires small { All (λ bytes. bytes < 2 ^ 127) moves.now }
    requires scale { (scale.now.reach < 2 ^ 64) × (scale.now.slack < 2 ^ 127) }
    requires near { (row.now.from < 2 ^ 66) × (row.now.to < 2 ^ 66) }
    ensures { result ≡ spec.takes row.now.case
        (not (spec.in_reach scale.now.reach
        (row.now.from + slice_index moves.now row.now.pair.group) (row.now.to + slice_index moves.now row.now.zone)))
        (not (spec.in_reach_by scale.now.reach scale.now.slack row.now.from row.now.to)) }
{
    match row.case {
        Case::Outside => false,
        Case::Away => true,
        Case::Plain => {
            let from = row.from + moved(moves, row.pair.group);
            !in_reach(scale.reach, from, row.to + moved(moves, row.zone))
        }
        Case::Added => !in_reach_by(scale.reach, scale.slack, row.from, row.to),
    }
}

// The pairs of branches that need islands and have none.
fn new_pairs(
    alloc: Global,
    rows: &[Row],
    scale: &Scale,
    moves: &[u128],
    set: &[Pair],
) -> Result<Vec<Pair>, OutOfMemory>
    requires rises { IsStrictlySortedBy spec.compare_pairs set.now }
    requires moves { IsMoves scale.now set.now moves.now }
    requires scale { spec.IsScale scale.now }
    requires rows { All (spec.IsRow scale.now) rows.now }
    ensures { IfOk result (λ pairs. pairs.items ≡ new_pairs_of scale.now set.now rows.now) }
{
    let mut pairs = Vec::new(alloc);
    for row in rows {
        if needs(row, scale, moves) && !has(set, &row.pair) {
            pairs.push(row.pair)?;
        }
    }
    Ok(pairs)
}

// A set with some pairs more.
fn joined(set: Vec<Pair>, pairs: &[Pair]) -> Result<Vec<Pair>, OutOfMemory>
    ensures same { IfOk result (λ all. (pair : Pair) → spec.has all.items pair ≡ spec.has (set.items ++ pairs.now) pair) }
    ensures rises { IfOk result (λ all. IsStrictlySortedBy spec.compare_pairs all.items) }
{
    let mut all = set;
    all.extend_from_slice(pairs)?;
    in_order(all)
}

// How far the areas of a set move what stands behind none, one, and more of the groups.
fn moves(alloc: Global, set: &[Pair], scale: &Scale) -> Result<Vec<u128>, OutOfMemory>
    requires { scale.now.unit ≤ 14 }
    ensures { IfOk result (λ moves. IsMoves scale.now set.now moves.items) }
{
    let counts = counts(alloc, set, scale.groups)?;
    let mut moves = Vec::new(alloc);
    let mut bytes = 0;
    for count in counts.as_slice() {
        moves.push(bytes)?;
        moves_are_few(moves.as_slice());
        bytes += area_bytes(scale.unit, *count);
    }
    moves.push(bytes)?;
    Ok(moves)
}

/// How far the islands of some pairs move what is behind all groups, in bytes.
pub fn moved_by(alloc: Global, pairs: &[Pair], scale: &Scale) -> Result<u128, OutOfMemory>
    requires { scale.now.unit ≤ 14 }
    ensures exact { IfOk result (λ bytes. bytes ≡ spec.bytes_before scale.now.unit pairs.now scale.now.groups) }
    ensures small { IfOk result (λ bytes. bytes < 2 ^ 127) }
{
    let moves = moves(alloc, pairs, scale)?;
    Ok(moved(moves.as_slice(), scale.groups))
}
