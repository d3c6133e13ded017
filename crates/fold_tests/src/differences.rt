//! Functions that differ in one thing.
use crate::given::{key, stand_for};
use fold_code::{FoldGoal, FoldNode, FoldNodes, FoldUnwind, FoldUnwinds, Link, LinkList};
use mo_types::{AtomKey, Bytes, Goal, OutOfMemory, RefKind};
use std::alloc::Global;
use std::test::Fail;

const CODE: &[u8] = b"\0\0\0\0\0\0\0\0\xc0\x03\x5f\xd6";

const OTHER: &[u8] = b"\0\0\0\0\0\0\0\0\xc0\x03\x5f\xd7";

// Where something leads: a place in a function or in an atom that is none, by its number and the offset there, or a name.
#[derive(Clone, Copy)]
enum To {
    Function(u32, u64),
    Atom(usize, u64),
    Library,
    AnyImage,
}

// A function with one reference and one unwind entry, of which these are the fields.
#[derive(Clone, Copy)]
struct Given {
    bytes: &'static [u8],
    place: u64,
    kind: RefKind,
    addend: i64,
    goal: To,
    minus: Option<To>,
    offset: u64,
    length: u32,
    encoding: u32,
    personality: Option<To>,
    // The offset in an atom.
    lsda: Option<u64>,
}

const PLAIN: Given = Given {
    bytes: CODE,
    place: 0,
    kind: RefKind::Diff64,
    addend: 0,
    goal: To::Atom(9, 0),
    minus: None,
    offset: 0,
    length: 12,
    encoding: 0x5400_0000,
    personality: None,
    lsda: None,
};

// The one field in which a function is other than the plain one.
#[derive(Clone, Copy)]
enum But {
    Nothing,
    Bytes(&'static [u8]),
    Place(u64),
    Kind(RefKind),
    Addend(i64),
    Goal(To),
    Minus(To),
    Offset(u64),
    Length(u32),
    Encoding(u32),
    Handler(To),
    Data(u64),
}

// Two functions, and what stands for two of other bytes before them and for them.
type Case = (&'static str, But, But, [usize; 4]);

const CASES: &[Case] = &[
    ("the same", But::Nothing, But::Nothing, [0, 0, 2, 2]),
    ("bytes", But::Nothing, But::Bytes(OTHER), [0, 0, 2, 0]),
    ("place", But::Nothing, But::Place(4), [0, 0, 2, 3]),
    (
        "kind",
        But::Kind(RefKind::Page),
        But::Kind(RefKind::PageOff),
        [0, 0, 2, 3],
    ),
    ("addend", But::Nothing, But::Addend(-4), [0, 0, 2, 3]),
    (
        "atom",
        But::Nothing,
        But::Goal(To::Atom(8, 0)),
        [0, 0, 2, 3],
    ),
    (
        "offset in an atom",
        But::Nothing,
        But::Goal(To::Atom(9, 4)),
        [0, 0, 2, 3],
    ),
    (
        "a library or any image",
        But::Goal(To::Library),
        But::Goal(To::AnyImage),
        [0, 0, 2, 3],
    ),
    (
        "functions of one class",
        But::Goal(To::Function(0, 4)),
        But::Goal(To::Function(1, 4)),
        [0, 0, 2, 2],
    ),
    (
        "offset in a function",
        But::Goal(To::Function(0, 4)),
        But::Goal(To::Function(1, 0)),
        [0, 0, 2, 3],
    ),
    (
        "a function or none",
        But::Goal(To::Function(0, 4)),
        But::Goal(To::Atom(9, 4)),
        [0, 0, 2, 3],
    ),
    (
        "nothing is subtracted",
        But::Nothing,
        But::Minus(To::Atom(9, 0)),
        [0, 0, 2, 3],
    ),
    (
        "one class is subtracted",
        But::Minus(To::Function(0, 4)),
        But::Minus(To::Function(1, 4)),
        [0, 0, 2, 2],
    ),
    (
        "two classes are subtracted",
        But::Minus(To::Function(0, 4)),
        But::Minus(To::Function(2, 4)),
        [0, 0, 2, 3],
    ),
    (
        "offset of the entry",
        But::Nothing,
        But::Offset(4),
        [0, 0, 2, 3],
    ),
    ("length", But::Nothing, But::Length(8), [0, 0, 2, 3]),
    (
        "encoding",
        But::Nothing,
        But::Encoding(0x5400_0001),
        [0, 0, 2, 3],
    ),
    (
        "no handler",
        But::Nothing,
        But::Handler(To::Atom(9, 0)),
        [0, 0, 2, 3],
    ),
    (
        "handlers of one class",
        But::Handler(To::Function(0, 0)),
        But::Handler(To::Function(1, 0)),
        [0, 0, 2, 2],
    ),
    (
        "handlers of two classes",
        But::Handler(To::Function(0, 0)),
        But::Handler(To::Function(2, 0)),
        [0, 0, 2, 3],
    ),
    ("no data", But::Nothing, But::Data(4), [0, 0, 2, 3]),
    (
        "offset in the data",
        But::Data(4),
        But::Data(8),
        [0, 0, 2, 3],
    ),
];

fn fields_of(but: But) -> Given {
    let mut fields = PLAIN;
    match but {
        But::Nothing => {}
        But::Bytes(bytes) => fields.bytes = bytes,
        But::Place(place) => fields.place = place,
        But::Kind(kind) => fields.kind = kind,
        But::Addend(addend) => fields.addend = addend,
        But::Goal(goal) => fields.goal = goal,
        But::Minus(minus) => fields.minus = Some(minus),
        But::Offset(offset) => fields.offset = offset,
        But::Length(length) => fields.length = length,
        But::Encoding(encoding) => fields.encoding = encoding,
        But::Handler(handler) => fields.personality = Some(handler),
        But::Data(offset) => fields.lsda = Some(offset),
    }
    fields
}

fn goal_of(to: To) -> FoldGoal {
    match to {
        To::Function(number, offset) => FoldGoal::Node(number, offset),
        To::Atom(number, offset) => FoldGoal::Other(Goal::Def(key(number), offset)),
        To::Library => FoldGoal::Other(Goal::Import {
            name: Bytes::from_static(b"_puts"),
            ordinal: 1,
            by_weak: false,
            optional: false,
        }),
        To::AnyImage => FoldGoal::Other(Goal::Flat(Bytes::from_static(b"_puts"))),
    }
}

fn goal_if(to: Option<To>) -> Option<FoldGoal> {
    match to {
        Some(to) => Some(goal_of(to)),
        None => None,
    }
}

fn data_if(offset: Option<u64>) -> Option<(AtomKey, u64)> {
    match offset {
        Some(offset) => Some((key(8), offset)),
        None => None,
    }
}

fn links_of(alloc: Global, given: &Given) -> Result<LinkList, OutOfMemory> {
    let mut links = LinkList::new(alloc);
    links.push(Link {
        place: given.place,
        kind: given.kind,
        addend: given.addend,
        goal: goal_of(given.goal),
        minus: goal_if(given.minus),
    })?;
    Ok(links)
}

fn unwinds_of(alloc: Global, given: &Given) -> Result<FoldUnwinds, OutOfMemory> {
    let mut unwinds = FoldUnwinds::new(alloc);
    unwinds.push(FoldUnwind {
        offset: given.offset,
        length: given.length,
        encoding: given.encoding,
        personality: goal_if(given.personality),
        lsda: data_if(given.lsda),
    })?;
    Ok(unwinds)
}

fn function(alloc: Global, number: usize, but: But) -> Result<FoldNode, OutOfMemory> {
    let given = fields_of(but);
    let links = links_of(alloc, &given)?;
    let unwinds = unwinds_of(alloc, &given)?;
    Ok(FoldNode {
        key: key(number),
        bytes: Bytes::from_static(given.bytes),
        links,
        unwinds,
    })
}

fn holds(alloc: Global, case: &Case) -> Result<bool, OutOfMemory> {
    let (_, third, fourth, firsts) = case;
    let front = But::Bytes(OTHER);
    let mut nodes = FoldNodes::new(alloc);
    for (number, but) in [front, front, *third, *fourth].iter().enumerate() {
        nodes.push(function(alloc, number, *but)?)?;
    }
    stand_for(alloc, &nodes, firsts)
}

// The name of the first case that doesn't hold, or nothing.
fn first_wrong(alloc: Global, cases: &[Case]) -> &'static str {
    for case in cases {
        match holds(alloc, case) {
            Ok(true) => {}
            _ => return case.0,
        }
    }
    ""
}

#[test]
fn functions_that_differ(rt: HostRuntime) {
    assert_eq!(rt; first_wrong(rt.alloc(), CASES), "");
}
