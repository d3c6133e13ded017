//! Which islands images have.
use crate::given::{CODE, CONSTANT, DATA, are_low, are_within, atom, imported, is_rising, laid};
use islands::{Branch, BranchList, hop, plan};
use mo_types::{AtomKey, AtomList, Goal, OutOfMemory};
use sect_place::{BranchTarget, IslandPlan, PlaceFault};
use std::alloc::Global;
use std::test::Fail;
use test_objects::key;

// Where a branch goes.
#[derive(Clone, Copy)]
enum To {
    // The start of a function, by its number.
    Start(usize),
    // A place in it.
    Inside(usize, u64),
    // The start of it with an addend.
    Plus(usize, i64),
    // So many bytes before it.
    Before(usize, i64),
    // A stub by its number.
    Stub(u32),
    Header,
    // The constants beside the functions, and the data.
    Constant,
    Data,
    DataPlus(i64),
}

// A branch: the number of its function, its place there, and where it goes. A number of no function is that of the
// constants.
type Way = (usize, u64, To);

// Functions by their sizes, one behind the other from a multiple of 4 on; branches; the islands in order, each by the
// number of the function before its area and where it goes; and the number of each branch's island.
#[derive(Clone, Copy)]
struct Case<'a> {
    reach: u32,
    sizes: &'a [u64],
    branches: &'a [Way],
    islands: &'a [(usize, To)],
    ways: &'a [Option<usize>],
}

fn offset_of(sizes: &[u64], at: usize) -> u64 {
    let mut offset: u64 = 0;
    for size in sizes.iter().take(at) {
        offset = offset.wrapping_add(*size);
    }
    offset
}

fn function(sizes: &[u64], at: usize) -> AtomKey {
    if at < sizes.len() {
        key(0, CODE, offset_of(sizes, at))
    } else {
        key(0, CONSTANT, 0)
    }
}

fn target(sizes: &[u64], to: To) -> BranchTarget {
    let (goal, addend, stub) = match to {
        To::Start(at) => (Goal::Def(function(sizes, at), 0), 0, None),
        To::Inside(at, offset) => (Goal::Def(function(sizes, at), offset), 0, None),
        To::Plus(at, addend) => (Goal::Def(function(sizes, at), 0), addend, None),
        To::Before(at, bytes) => {
            let goal = Goal::Def(function(sizes, at), 0);
            (goal, bytes.wrapping_neg(), None)
        }
        To::Stub(number) => (imported(number), 0, Some(number)),
        To::Header => (Goal::Header, 0, None),
        To::Constant => (Goal::Def(key(0, CONSTANT, 0), 0), 0, None),
        To::Data => (Goal::Def(key(0, DATA, 0), 0), 0, None),
        To::DataPlus(addend) => (Goal::Def(key(0, DATA, 0), 0), addend, None),
    };
    BranchTarget { goal, addend, stub }
}

fn is_same(a: &BranchTarget, b: &BranchTarget) -> bool {
    a.goal.is_same(&b.goal) && a.addend == b.addend && a.stub == b.stub
}

// The functions, and 64 bytes of constants and of data.
fn kept(alloc: Global, sizes: &[u64]) -> Result<AtomList, OutOfMemory> {
    let mut kept = AtomList::new(alloc);
    for (at, size) in sizes.iter().enumerate() {
        kept.push(atom(CODE, offset_of(sizes, at), *size))?;
    }
    kept.push(atom(CONSTANT, 0, 64))?;
    kept.push(atom(DATA, 0, 64))?;
    Ok(kept)
}

fn branches(alloc: Global, case: &Case) -> Result<BranchList, OutOfMemory> {
    let mut list = BranchList::new(alloc);
    for (from, place, to) in case.branches {
        list.push(Branch {
            atom: function(case.sizes, *from),
            place: *place,
            target: target(case.sizes, *to),
        })?;
    }
    Ok(list)
}

fn planned(alloc: Global, case: &Case) -> Result<Option<IslandPlan>, PlaceFault> {
    let kept = kept(alloc, case.sizes)?;
    let branches = branches(alloc, case)?;
    if !is_rising(kept.as_slice())
        || !are_low(kept.as_slice())
        || !are_within(kept.as_slice(), branches.as_slice())
        || case.reach < 4
    {
        return Ok(None);
    }
    let layout = laid(alloc, &kept, 2)?;
    Ok(Some(plan(alloc, &kept, &layout, &branches, case.reach)?))
}

// Whether the islands are those of the case.
fn has_islands(plan: &IslandPlan, case: &Case) -> bool {
    let mut left = case.islands;
    for area in plan.areas.as_slice() {
        if area.targets.is_empty() {
            return false;
        }
        for one in area.targets.as_slice() {
            match left {
                [(last, to), rest @ ..] => {
                    if area.last != function(case.sizes, *last)
                        || !is_same(one, &target(case.sizes, *to))
                    {
                        return false;
                    }
                    left = rest;
                }
                [] => return false,
            }
        }
    }
    left.is_empty()
}

// Whether each branch goes where it should.
fn has_ways(plan: &IslandPlan, case: &Case) -> bool {
    if plan.ways.len() != case.ways.len() {
        return false;
    }
    for (at, way) in case.ways.iter().enumerate() {
        if at >= plan.ways.len() || hop(plan, at) != *way {
            return false;
        }
    }
    true
}

fn holds(alloc: Global, case: &Case) -> bool {
    match planned(alloc, case) {
        Ok(Some(plan)) => has_islands(&plan, case) && has_ways(&plan, case),
        Ok(None) => false,
        Err(_) => false,
    }
}

// The name of the first case that doesn't hold, or nothing.
fn first_wrong(alloc: Global, cases: &[(&'static str, Case)]) -> &'static str {
    for (name, case) in cases {
        if !holds(alloc, case) {
            return name;
        }
    }
    ""
}

// Functions of 2,048 bytes are groups of their own where branches reach 4,096 bytes.
const OUT_OF_REACH: &[(&str, Case<'static>)] = &[
    (
        "two islands",
        Case {
            reach: 4096,
            sizes: &[2048, 2048, 2048],
            branches: &[(0, 0, To::Start(2)), (0, 4, To::Stub(0))],
            islands: &[(0, To::Stub(0)), (0, To::Start(2))],
            ways: &[Some(1), Some(0)],
        },
    ),
    (
        "a function larger than the reach",
        Case {
            reach: 4096,
            sizes: &[8192, 2048, 2048],
            branches: &[(0, 0, To::Start(2))],
            islands: &[(0, To::Start(2))],
            ways: &[Some(0)],
        },
    ),
    (
        "just in reach",
        Case {
            reach: 4096,
            sizes: &[2048, 2032, 4],
            branches: &[(0, 0, To::Start(2))],
            islands: &[],
            ways: &[None],
        },
    ),
    (
        "one pushes another",
        Case {
            reach: 4096,
            sizes: &[2048, 2044, 4, 4],
            branches: &[(0, 0, To::Start(3)), (0, 4, To::Start(2))],
            islands: &[(0, To::Start(2)), (0, To::Start(3))],
            ways: &[Some(1), Some(0)],
        },
    ),
    (
        "three rounds",
        Case {
            reach: 4096,
            sizes: &[2048, 2012, 16, 16, 4, 4],
            branches: &[
                (0, 0, To::Start(5)),
                (0, 4, To::Start(4)),
                (0, 8, To::Start(3)),
                (0, 12, To::Start(2)),
            ],
            islands: &[(0, To::Start(3)), (0, To::Start(4)), (0, To::Start(5))],
            ways: &[Some(2), Some(1), Some(0), None],
        },
    ),
    (
        "two of a group to one target, and one of another group",
        Case {
            reach: 4096,
            sizes: &[1024, 1024, 2048, 2048, 4],
            branches: &[
                (0, 0, To::Start(4)),
                (1, 4, To::Start(4)),
                (2, 0, To::Start(4)),
                (3, 0, To::Start(4)),
            ],
            islands: &[(1, To::Start(4)), (2, To::Start(4))],
            ways: &[Some(0), Some(0), Some(1), None],
        },
    ),
    (
        "the default reach",
        Case {
            reach: 134_217_728,
            sizes: &[0x400_0000, 0x400_0000, 4],
            branches: &[(0, 0, To::Start(2)), (0, 4, To::Start(2))],
            islands: &[(0, To::Start(2))],
            ways: &[Some(0), Some(0)],
        },
    ),
];

#[test]
fn branches_out_of_reach(rt: HostRuntime) -> Result<(), Fail> {
    assert_eq!(rt; first_wrong(rt.alloc(), OUT_OF_REACH), "");
    Ok(())
}

// Targets that aren't functions, or lie between their words, and branches that aren't in `__text`.
const OTHER_TARGETS: &[(&str, Case<'static>)] = &[
    (
        "data, near as it is",
        Case {
            reach: 134_217_728,
            sizes: &[64, 64],
            branches: &[
                (0, 0, To::Data),
                (1, 0, To::DataPlus(4)),
                (1, 4, To::Constant),
            ],
            islands: &[(1, To::Data), (1, To::DataPlus(4))],
            ways: &[Some(0), Some(1), None],
        },
    ),
    (
        "the header, and stubs by name",
        Case {
            reach: 4096,
            sizes: &[2048, 2048, 2048],
            branches: &[
                (2, 0, To::Header),
                (0, 0, To::Header),
                (0, 4, To::Stub(1)),
                (0, 8, To::Stub(0)),
                (2, 4, To::Stub(1)),
            ],
            islands: &[(0, To::Stub(0)), (0, To::Stub(1)), (2, To::Header)],
            ways: &[Some(2), None, Some(1), Some(0), None],
        },
    ),
    (
        "between words",
        Case {
            reach: 4096,
            sizes: &[64, 64],
            branches: &[(0, 0, To::Inside(1, 2)), (0, 4, To::Inside(1, 4))],
            islands: &[(1, To::Inside(1, 2))],
            ways: &[Some(0), None],
        },
    ),
    (
        "from constants",
        Case {
            reach: 4096,
            sizes: &[8192],
            branches: &[(9, 0, To::Start(0)), (9, 4, To::Data)],
            islands: &[],
            ways: &[None, None],
        },
    ),
    (
        "addends, by the bytes of an island",
        Case {
            reach: 4096,
            sizes: &[2048, 2016, 32],
            branches: &[(0, 0, To::Plus(2, 12))],
            islands: &[],
            ways: &[None],
        },
    ),
    (
        "addends, a word more",
        Case {
            reach: 4096,
            sizes: &[2048, 2016, 32],
            branches: &[(0, 0, To::Plus(2, 16))],
            islands: &[(0, To::Plus(2, 16))],
            ways: &[Some(0)],
        },
    ),
    (
        "no addend at the same place",
        Case {
            reach: 4096,
            sizes: &[2048, 2016, 32],
            branches: &[(0, 0, To::Inside(2, 16))],
            islands: &[],
            ways: &[None],
        },
    ),
    (
        "back by an addend, and below the first address",
        Case {
            reach: 4096,
            sizes: &[64, 64],
            branches: &[
                (1, 0, To::Before(0, 32)),
                (1, 4, To::Before(0, 0x2_0000_0000)),
            ],
            islands: &[(1, To::Before(0, 0x2_0000_0000))],
            ways: &[None, Some(0)],
        },
    ),
    (
        "no branches",
        Case {
            reach: 4096,
            sizes: &[64],
            branches: &[],
            islands: &[],
            ways: &[],
        },
    ),
];

#[test]
fn other_targets(rt: HostRuntime) -> Result<(), Fail> {
    assert_eq!(rt; first_wrong(rt.alloc(), OTHER_TARGETS), "");
    Ok(())
}
