//! Which branches take islands.
ghost use Rattle.std.specs.Prelude.{◌≡◌, true, All};
ghost use Rattle.island_core.specs.Far.{IsInTurn, IsRow, IsScale};

use crate::first_wrong;
use island_core::{Case, Pair, Row, Scale, far_pairs, moved_by, pairs_of, place_of};
use mo_types::OutOfMemory;
use std::alloc::Global;
use std::test::Fail;

// Whether a branch is one of an image.
fn row_fits(scale: &Scale, row: &Row) -> bool
    ensures row { result ≡ true → IsRow scale.now row.now }
    ensures turn { result ≡ true → IsInTurn row.now }
{
    row.pair.group <= scale.groups
        && row.zone <= scale.groups
        && row.from < 1 << 66
        && row.to < 1 << 66
        && (row.zone <= row.pair.group || row.from <= row.to)
        && (row.pair.group <= row.zone || row.to <= row.from)
}

fn scale_fits(scale: &Scale) -> bool
    ensures { result ≡ true → IsScale scale.now }
{
    scale.unit >= 2
        && scale.unit <= 14
        && scale.reach >= 4
        && scale.reach < 1 << 64
        && scale.slack < 1 << 127
}

// Whether all are.
fn rows_fit(scale: &Scale, rows: &[Row]) -> bool
    ensures rows { result ≡ true → All (IsRow scale.now) rows.now }
    ensures turns { result ≡ true → All IsInTurn rows.now }
{
    for row in rows {
        if !row_fits(scale, row) {
            return false;
        }
    }
    true
}

// Whether these pairs have islands.
fn are_far(
    alloc: Global,
    scale: &Scale,
    rows: &[Row],
    far: &[(usize, usize)],
) -> Result<bool, OutOfMemory> {
    if !scale_fits(scale) || !rows_fit(scale, rows) {
        return Ok(false);
    }
    let found = far_pairs(alloc, rows, scale)?;
    let mut pairs = Vec::new(alloc);
    for pair in found.as_slice() {
        pairs.push((pair.group, pair.target))?;
    }
    Ok(pairs.as_slice() == far)
}

// A reach of 4,096 bytes, three groups, and areas at multiples of 4.
fn small() -> Scale {
    Scale {
        unit: 2,
        groups: 3,
        reach: 4096,
        slack: 100,
    }
}

// A branch of the first group.
fn first(case: Case, target: usize, from: u128, to: u128, zone: usize) -> Row {
    Row {
        case,
        pair: Pair { group: 0, target },
        from,
        to,
        zone,
    }
}

// Whether a branch alone takes an island exactly where it is told so.
fn is_judged(alloc: Global, row: &Row, takes: bool) -> Result<bool, OutOfMemory> {
    let pair = [(row.pair.group, row.pair.target)];
    let far = if takes { pair.as_slice() } else { &[] };
    are_far(alloc, &small(), &[*row], far)
}

// The name of the first branch that isn't judged so, or nothing.
fn first_misjudged(
    alloc: Global,
    rows: &[(&'static str, Row, bool)],
) -> Result<&'static str, OutOfMemory> {
    for (name, row, takes) in rows {
        if !is_judged(alloc, row, *takes)? {
            return Ok(*name);
        }
    }
    Ok("")
}

// Branches that need no island, and those that need one whatever others do.
#[test]
fn branches_alone(rt: HostRuntime) -> Result<(), Fail> {
    let alloc = rt.alloc();
    let rows = [
        ("last word", first(Case::Plain, 0, 0, 4092, 1), false),
        ("behind it", first(Case::Plain, 7, 0, 4096, 1), true),
        ("first word", first(Case::Plain, 0, 4096, 0, 0), false),
        ("before it", first(Case::Plain, 0, 4100, 0, 0), true),
        ("between words", first(Case::Plain, 0, 0, 6, 1), true),
        ("away", first(Case::Away, 0, 0, 0, 0), true),
        ("in no group", first(Case::Outside, 0, 0, 8192, 3), false),
        (
            "addend, by the slack",
            first(Case::Added, 0, 0, 3992, 1),
            false,
        ),
        (
            "addend, a word more",
            first(Case::Added, 0, 0, 3996, 1),
            true,
        ),
        ("addend, back", first(Case::Added, 0, 3996, 0, 0), true),
    ];
    assert_eq!(rt; first_misjudged(alloc, &rows)?, "");
    assert!(rt; are_far(alloc, &small(), &[], &[])?);
    Ok(())
}

// Whether branches have two pairs, whose islands take so many bytes; the second is that of the first group and target 1.
fn pairs_hold(
    alloc: Global,
    scale: &Scale,
    rows: &[Row],
    bytes: u128,
) -> Result<bool, OutOfMemory> {
    if !scale_fits(scale) {
        return Ok(false);
    }
    let pairs = pairs_of(alloc, rows)?;
    let moved = moved_by(alloc, pairs.as_slice(), scale)?;
    let there = place_of(
        pairs.as_slice(),
        &Pair {
            group: 0,
            target: 1,
        },
    );
    let away = place_of(
        pairs.as_slice(),
        &Pair {
            group: 0,
            target: 2,
        },
    );
    Ok(pairs.len() == 2 && moved == bytes && there == Some(1) && away.is_none())
}

// Branches that others push out of reach.
#[test]
fn branches_together(rt: HostRuntime) -> Result<(), Fail> {
    let alloc = rt.alloc();
    let scale = small();
    // from the first of three functions of 2,048 bytes to the third, and to a stub behind them
    let two = [
        first(Case::Plain, 1, 0, 4096, 2),
        first(Case::Plain, 0, 4, 6144, 3),
    ];
    let fits = [first(Case::Plain, 0, 0, 4080, 2)];
    // the island of 16 bytes for the first pushes the second out of reach
    let pushed = [
        first(Case::Plain, 1, 0, 4096, 1),
        first(Case::Plain, 0, 4, 4092, 1),
    ];
    // areas of 16, 28 and 40 bytes: the third is pushed out by two islands, the fourth isn't by three
    let chain = [
        first(Case::Plain, 0, 0, 4096, 1),
        first(Case::Plain, 1, 4, 4092, 1),
        first(Case::Plain, 2, 8, 4076, 1),
        first(Case::Plain, 3, 12, 4060, 1),
    ];
    // twice to one place
    let twice = [
        first(Case::Plain, 5, 0, 4096, 1),
        first(Case::Plain, 5, 4, 4100, 1),
    ];
    // a branch back over the first group's area
    let back = Row {
        case: Case::Plain,
        pair: Pair {
            group: 1,
            target: 9,
        },
        from: 4096,
        to: 0,
        zone: 0,
    };
    let rows = [
        (
            "two out of reach",
            are_far(alloc, &scale, &two, &[(0, 0), (0, 1)])?,
        ),
        (
            "pairs of two and of one in no group",
            pairs_hold(
                alloc,
                &scale,
                &[two[0], two[1], two[0], first(Case::Outside, 2, 0, 0, 0)],
                28,
            )?,
        ),
        ("one that fits", are_far(alloc, &scale, &fits, &[])?),
        (
            "one pushes another",
            are_far(alloc, &scale, &pushed, &[(0, 0), (0, 1)])?,
        ),
        (
            "three rounds",
            are_far(alloc, &scale, &chain, &[(0, 0), (0, 1), (0, 2)])?,
        ),
        (
            "one island for two branches",
            are_far(alloc, &scale, &twice, &[(0, 5)])?,
        ),
        ("back alone", are_far(alloc, &scale, &[back], &[])?),
        (
            "back over an area",
            are_far(alloc, &scale, &[back, two[0]], &[(0, 1), (1, 9)])?,
        ),
    ];
    assert_eq!(rt; first_wrong(&rows), "");
    Ok(())
}

// Each of 10,000 branches to places of their own out of the segment.
#[test]
fn many_branches(rt: HostRuntime) -> Result<(), Fail> {
    let alloc = rt.alloc();
    let mut rows = Vec::new(alloc);
    let mut far = Vec::new(alloc);
    for target in 0..10_000usize {
        rows.push(first(Case::Away, 9_999 - target, 0, 0, 0))?;
        far.push((0, target))?;
    }
    assert!(rt; are_far(alloc, &small(), rows.as_slice(), far.as_slice())?);
    Ok(())
}
