//! Functions that call each other.
use crate::given::{key, stand_for};
use fold_code::{FoldGoal, FoldNode, FoldNodes, FoldUnwind, FoldUnwinds, Link, LinkList};
use mo_types::{Bytes, Goal, OutOfMemory, RefKind};
use std::alloc::Global;
use std::test::Fail;

// What calls nothing of these.
const AWAY: u32 = u32::MAX;

const CALL: &[u8] = b"\0\0\0\x94\xc0\x03\x5f\xd6";

const TWO_CALLS: &[u8] = b"\0\0\0\x94\0\0\0\x94\xc0\x03\x5f\xd6";

// The functions that each calls, by their numbers; the function that has an unwind entry; and what stands for each.
type Case = (
    &'static str,
    &'static [&'static [u32]],
    Option<usize>,
    &'static [usize],
);

const CASES: &[Case] = &[
    ("nothing", &[], None, &[]),
    (
        "two that call each other",
        &[&[1, 2], &[2], &[1]],
        None,
        &[0, 1, 1],
    ),
    (
        "one of them has an unwind entry",
        &[&[1, 2], &[2], &[1]],
        Some(2),
        &[0, 1, 2],
    ),
    ("one that calls itself", &[&[0]], None, &[0]),
    ("three in a ring", &[&[1], &[2], &[0]], None, &[0, 0, 0]),
    (
        "rings of two and of three",
        &[&[1], &[0], &[3], &[4], &[2]],
        None,
        &[0, 0, 0, 0, 0],
    ),
    (
        "what leads into a ring",
        &[&[0], &[0], &[1]],
        None,
        &[0, 0, 0],
    ),
    ("a chain", &[&[1], &[2], &[AWAY]], None, &[0, 1, 2]),
    (
        "two chains",
        &[&[1], &[AWAY], &[3], &[AWAY]],
        None,
        &[0, 1, 0, 1],
    ),
    (
        "chains of two lengths",
        &[&[1], &[AWAY], &[3], &[4], &[AWAY]],
        None,
        &[0, 1, 2, 0, 1],
    ),
    (
        "a ring beside a chain",
        &[&[1], &[0], &[3], &[AWAY]],
        None,
        &[0, 0, 2, 3],
    ),
];

fn goal_of(call: u32) -> FoldGoal {
    if call == AWAY {
        FoldGoal::Other(Goal::Header)
    } else {
        FoldGoal::Node(call, 0)
    }
}

// The calls of a function, one behind the other.
fn links_of(alloc: Global, calls: &[u32]) -> Result<LinkList, OutOfMemory> {
    let mut links = LinkList::new(alloc);
    let mut place: u64 = 0;
    for call in calls {
        links.push(Link {
            place,
            kind: RefKind::Branch,
            addend: 0,
            goal: goal_of(*call),
            minus: None,
        })?;
        place = place.wrapping_add(4);
    }
    Ok(links)
}

fn unwinds_of(alloc: Global, is_unwound: bool) -> Result<FoldUnwinds, OutOfMemory> {
    let mut unwinds = FoldUnwinds::new(alloc);
    if is_unwound {
        unwinds.push(FoldUnwind {
            offset: 0,
            length: 8,
            encoding: 0x0200_0000,
            personality: None,
            lsda: None,
        })?;
    }
    Ok(unwinds)
}

fn caller(
    alloc: Global,
    number: usize,
    calls: &[u32],
    is_unwound: bool,
) -> Result<FoldNode, OutOfMemory> {
    let links = links_of(alloc, calls)?;
    let unwinds = unwinds_of(alloc, is_unwound)?;
    let bytes = if calls.len() < 2 { CALL } else { TWO_CALLS };
    Ok(FoldNode {
        key: key(number),
        bytes: Bytes::from_static(bytes),
        links,
        unwinds,
    })
}

fn holds(alloc: Global, case: &Case) -> Result<bool, OutOfMemory> {
    let (_, functions, unwound, firsts) = case;
    let mut nodes = FoldNodes::new(alloc);
    for (number, calls) in functions.iter().enumerate() {
        nodes.push(caller(alloc, number, calls, *unwound == Some(number))?)?;
    }
    stand_for(alloc, &nodes, firsts)
}

// The name of the first case that doesn't hold, or nothing.
fn first_wrong(alloc: Global, cases: &[Case]) -> &'static str {
    for case in cases {
        match holds(alloc, case) {
            Ok(true) => {}
            _ => return case.0,
        }
    }
    ""
}

// Functions each of which calls the next one, and the last one what is given.
fn chain(alloc: Global, count: u32, last: u32) -> Result<FoldNodes, OutOfMemory> {
    let mut nodes = FoldNodes::new(alloc);
    for number in 1..count {
        nodes.push(caller(alloc, number as usize, &[number], false)?)?;
    }
    nodes.push(caller(alloc, count as usize, &[last], false)?)?;
    Ok(nodes)
}

// Whether such functions become one, or each stands for itself.
fn chain_holds(alloc: Global, count: u32, last: u32, is_one: bool) -> Result<bool, OutOfMemory> {
    let nodes = chain(alloc, count, last)?;
    let mut firsts = Vec::new(alloc);
    for number in 0..count as usize {
        firsts.push(if is_one { 0 } else { number })?;
    }
    stand_for(alloc, &nodes, firsts.as_slice())
}

#[test]
fn calls_in_cycles(rt: HostRuntime) -> Result<(), Fail> {
    let alloc = rt.alloc();
    assert_eq!(rt; first_wrong(alloc, CASES), "");
    assert!(rt; chain_holds(alloc, 600, 0, true)?, "a ring of 600");
    assert!(rt; chain_holds(alloc, 60, AWAY, false)?, "a chain of 60");
    Ok(())
}
