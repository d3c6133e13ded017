//! Sections of compact unwind, against those of a writer of its own and of another reader.

use mo_types::{Bytes, Items};
use std::alloc::Global;
use std::test::Fail;
use unwind_out::{
    UnwindHit, UnwindLimit, UnwindRow, are_apart, find_pc, unwind_size, write_unwind,
};

// The section of the rows, or `None` where they have too many personalities. Its size is that which is told before.
fn written(alloc: Global, rows: Vec<UnwindRow>) -> Result<Option<Bytes>, Fail> {
    if rows.is_empty() || !are_apart(rows.as_slice()) {
        return Err(Fail::from("the rows are none, or not apart"));
    }
    let rows = Items::from_vec(rows);
    let size = unwind_size(alloc, &rows);
    match write_unwind(alloc, &rows) {
        Ok(section) if size == Ok(section.len() as u64) => Ok(Some(section)),
        Err(UnwindLimit::Personalities) if size == Err(UnwindLimit::Personalities) => Ok(None),
        _ => Err(Fail::from("out of memory, or another size")),
    }
}

// So many functions of `size` bytes, each `step` bytes after the one before, and the last one `far` bytes after the
// first where that isn't 0; with some encodings and personalities in turn, and data for each function whose number
// `lsdas` divides.
#[derive(Clone, Copy)]
struct Shape {
    count: u32,
    step: u32,
    size: u32,
    far: u32,
    encodings: u32,
    personalities: u32,
    lsdas: u32,
}

// The number modulo another one, and 0 for none.
fn turn(number: u32, of: u32) -> u32 {
    if of == 0 { 0 } else { number % of }
}

fn distance(shape: Shape, number: u32) -> u32 {
    if shape.far != 0 && number.wrapping_add(1) == shape.count {
        shape.far
    } else {
        number.wrapping_mul(shape.step)
    }
}

fn row_of(shape: Shape, number: u32) -> UnwindRow {
    let function = 0x1000u32.wrapping_add(distance(shape, number));
    let slot = turn(number, shape.personalities);
    let has_lsda = shape.lsdas != 0 && turn(number, shape.lsdas) == 0;
    UnwindRow {
        function,
        end: function.wrapping_add(shape.size),
        encoding: 0x0400_0000u32.wrapping_add(turn(number, shape.encodings)),
        personality: if slot == 0 {
            0
        } else {
            0x7ff8u32.wrapping_add(slot.wrapping_mul(8))
        },
        lsda: if has_lsda {
            number.wrapping_add(0x100)
        } else {
            0
        },
    }
}

fn rows_of(alloc: Global, shape: Shape) -> Result<Vec<UnwindRow>, Fail> {
    let mut rows = Vec::new(alloc);
    for number in 0..shape.count {
        rows.push(row_of(shape, number))?;
    }
    Ok(rows)
}

// A number that depends on each byte (FNV-1a of 32 bits), and how it begins.
fn digest(sum: u32, bytes: &[u8]) -> u32 {
    let mut sum = sum;
    for byte in bytes {
        sum = (sum ^ u32::from(*byte)).wrapping_mul(0x0100_0193);
    }
    sum
}

const FIRST: u32 = 0x811c_9dc5;

fn hit(row: UnwindRow, encoding: u32) -> Option<UnwindHit> {
    Some(UnwindHit {
        function: row.function,
        encoding,
        lsda: row.lsda,
    })
}

// The encoding of a function with the number of its personality, and whether it has data.
fn encoding_of(shape: Shape, number: u32) -> u32 {
    let row = row_of(shape, number);
    let numbered = row.encoding | turn(number, shape.personalities).wrapping_mul(0x1000_0000);
    if row.lsda == 0 {
        numbered
    } else {
        numbered | 0x4000_0000
    }
}

// Whether a look-up finds a function, in the first and the last byte of its range.
fn finds(section: &[u8], shape: Shape, number: u32) -> bool {
    let row = row_of(shape, number);
    let found = hit(row, encoding_of(shape, number));
    find_pc(section, row.function) == found && find_pc(section, row.end.wrapping_sub(1)) == found
}

// Whether look-ups find each seventh function, as one after 511 is, and the last one, and nothing around them all.
fn finds_all(section: &[u8], shape: Shape) -> bool {
    for k in 0..shape.count / 7 {
        if !finds(section, shape, 7 * k) {
            return false;
        }
    }
    let last = shape.count.wrapping_sub(1);
    let end = row_of(shape, last).end;
    finds(section, shape, last)
        && find_pc(section, 0xfff).is_none()
        && find_pc(section, end).is_none()
}

fn shape_of(sizes: [u32; 4], turns: [u32; 3]) -> Shape {
    let [count, step, size, far] = sizes;
    let [encodings, personalities, lsdas] = turns;
    Shape {
        count,
        step,
        size,
        far,
        encodings,
        personalities,
        lsdas,
    }
}

// Of each shape the bytes of its section and their digest, from a writer in Python that was made apart from this one: at
// the bounds of a page's rows (511 and 512), of its rows and encodings (1,021 and 1,022), of its encodings (256 and 257)
// and of its reach (2^24 - 1 and 2^24), with data where pages begin and with personalities.
const SHAPES: [([u32; 4], [u32; 3], usize, u32); 15] = [
    ([600, 16, 16, 0], [1, 0, 0], 2468, 0x39b6_a616),
    ([511, 16, 16, 0], [1, 0, 0], 4148, 0x066c_311c),
    ([512, 16, 16, 0], [1, 0, 0], 2116, 0x740d_df62),
    ([1020, 16, 16, 0], [1, 0, 0], 4148, 0x7ccb_a479),
    ([1021, 16, 16, 0], [1, 0, 0], 4176, 0x23ca_449b),
    ([765, 16, 16, 0], [256, 0, 0], 4148, 0xdc51_00d9),
    ([766, 16, 16, 0], [256, 0, 0], 4176, 0x6075_224e),
    ([600, 16, 16, 0], [257, 0, 0], 4880, 0xee8f_4ed9),
    ([512, 16, 16, 0xff_ffff], [1, 0, 0], 2124, 0x926b_f8c6),
    ([512, 16, 16, 0x100_0000], [1, 0, 0], 2148, 0x8238_08bb),
    ([513, 0x8000, 0x8000, 0], [1, 0, 0], 2144, 0xf456_eebf),
    ([1600, 16, 16, 0], [300, 0, 511], 12952, 0xab1e_d651),
    ([1600, 16, 16, 0], [300, 0, 510], 12952, 0xced3_4025),
    ([2000, 16, 12, 0], [3, 4, 7], 18912, 0x0d53_5663),
    ([1400, 16, 16, 0], [300, 3, 5], 13548, 0x3d4f_01e0),
];

fn is_written(alloc: Global, shape: Shape, len: usize, sum: u32) -> Result<bool, Fail> {
    let section = written(alloc, rows_of(alloc, shape)?)?.ok_or("too many personalities")?;
    let bytes = section.as_slice();
    Ok(bytes.len() == len && digest(FIRST, bytes) == sum && finds_all(bytes, shape))
}

#[test]
fn sections_are_those_of_another_writer(rt: HostRuntime) -> Result<(), Fail> {
    for (sizes, turns, len, sum) in SHAPES {
        let same = is_written(rt.alloc(), shape_of(sizes, turns), len, sum)?;
        assert!(rt; same);
    }
    // Three personalities are numbered, and four are too many.
    for (personalities, few) in [(4, true), (5, false)] {
        let shape = shape_of([9, 16, 16, 0], [1, personalities, 0]);
        let section = written(rt.alloc(), rows_of(rt.alloc(), shape)?)?;
        assert_eq!(rt; section.is_some(), few);
    }
    Ok(())
}

// Two functions with a gap between them: the header, the index, and the page with its rows, a line each.
#[rattlefmt::skip]
const GAP: [u8; 84] = [
    1, 0, 0, 0, 28, 0, 0, 0, 0, 0, 0, 0, 28, 0, 0, 0, 0, 0, 0, 0, 28, 0, 0, 0, 2, 0, 0, 0,
    0x00, 0x10, 0, 0, 52, 0, 0, 0, 52, 0, 0, 0,
    0x30, 0x10, 0, 0, 0, 0, 0, 0, 52, 0, 0, 0,
    2, 0, 0, 0, 8, 0, 3, 0,
    0x00, 0x10, 0, 0, 0, 0, 0, 4,
    0x10, 0x10, 0, 0, 0, 0, 0, 0,
    0x20, 0x10, 0, 0, 0, 0, 0, 4,
];

fn function_at(function: u32) -> UnwindRow {
    UnwindRow {
        function,
        end: function.wrapping_add(16),
        encoding: 0x0400_0000,
        personality: 0,
        lsda: 0,
    }
}

// The section of the two functions.
fn gap(alloc: Global) -> Result<Bytes, Fail> {
    let mut rows = Vec::new(alloc);
    rows.push(function_at(0x1000))?;
    rows.push(function_at(0x1020))?;
    Ok(written(alloc, rows)?.ok_or("too many personalities")?)
}

// A section that no writer makes: two common encodings and two personalities; the index of a regular, a compressed and
// a regular page; four rows on data, two of them of one function; and the pages, with two rows of one function, rows
// that aren't in order, and an encoding that the page doesn't have.
#[rattlefmt::skip]
const ODD: [u8; 228] = [
    1, 0, 0, 0, 0x1c, 0, 0, 0, 2, 0, 0, 0, 0x24, 0, 0, 0, 2, 0, 0, 0, 0x2c, 0, 0, 0, 4, 0, 0, 0,
    0, 0, 0, 2, 0, 0, 0, 0x44,
    0, 0x80, 0, 0, 8, 0x80, 0, 0,
    0, 0x10, 0, 0, 0x7c, 0, 0, 0, 0x5c, 0, 0, 0,
    0, 0x20, 0, 0, 0xa4, 0, 0, 0, 0x74, 0, 0, 0,
    0, 0x30, 0, 0, 0xcc, 0, 0, 0, 0x7c, 0, 0, 0,
    0x20, 0x30, 0, 0, 0, 0, 0, 0, 0x7c, 0, 0, 0,
    0, 0x10, 0, 0, 0, 1, 0, 0,
    0x10, 0x10, 0, 0, 0x10, 1, 0, 0,
    0x10, 0x10, 0, 0, 0x18, 1, 0, 0,
    0x30, 0x20, 0, 0, 0x20, 1, 0, 0,
    2, 0, 0, 0, 8, 0, 4, 0,
    0, 0x10, 0, 0, 0, 0, 0, 0x54,
    0x10, 0x10, 0, 0, 0, 0, 0, 0x64,
    0x10, 0x10, 0, 0, 1, 0, 0, 0x74,
    0x20, 0x10, 0, 0, 0, 0, 0, 0,
    3, 0, 0, 0, 12, 0, 5, 0, 0x20, 0, 2, 0,
    0, 0, 0, 0, 0x10, 0, 0, 2, 0x30, 0, 0, 1, 0x20, 0, 0, 3, 0x40, 0, 0, 4,
    2, 0, 0, 4, 3, 0, 0, 4,
    2, 0, 0, 0, 8, 0, 2, 0,
    0, 0x30, 0, 0, 4, 0, 0, 4,
    0x10, 0x30, 0, 0, 0, 0, 0, 0,
];

// Where it is looked up: at the functions' bounds, and elsewhere.
const PLACES: [u32; 19] = [
    0,
    0xfff,
    0x1000,
    0x100f,
    0x1010,
    0x1020,
    0x1fff,
    0x2000,
    0x2010,
    0x2025,
    0x2030,
    0x2045,
    0x2fff,
    0x3000,
    0x300f,
    0x3010,
    0x301f,
    0x3020,
    0xffff_ffff,
];

// The digest of what is found in a section at each place.
fn told(sum: u32, section: &[u8]) -> u32 {
    let mut sum = sum;
    for place in PLACES {
        let words = match find_pc(section, place) {
            Some(hit) => [1, hit.function, hit.encoding, hit.lsda],
            None => [0; 4],
        };
        for word in words {
            sum = digest(sum, &word.to_le_bytes());
        }
    }
    sum
}

// What stands in place of a number.
#[derive(Clone, Copy)]
enum Damage {
    Zero,
    Ones,
    OneMore,
}

fn damaged(word: u32, damage: Damage) -> u32 {
    match damage {
        Damage::Zero => 0,
        Damage::Ones => u32::MAX,
        Damage::OneMore => word.wrapping_add(1),
    }
}

// The digest of what is found where each number of the section in turn is damaged.
fn told_of(damage: Damage) -> u32 {
    let mut sum = FIRST;
    for k in 0..ODD.len() / 4 {
        let mut section = ODD;
        let at = 4 * k;
        let bytes = [ODD[at], ODD[at + 1], ODD[at + 2], ODD[at + 3]];
        let [a, b, c, d] = damaged(u32::from_le_bytes(bytes), damage).to_le_bytes();
        section[at] = a;
        section[at + 1] = b;
        section[at + 2] = c;
        section[at + 3] = d;
        sum = told(sum, &section);
    }
    sum
}

#[test]
fn look_ups_are_those_of_another_reader(rt: HostRuntime) -> Result<(), Fail> {
    let section = gap(rt.alloc())?;
    assert_eq!(rt; section.as_slice(), GAP.as_slice());
    let found = [
        (0xfff, None),
        (0x100f, hit(function_at(0x1000), 0x0400_0000)),
        (0x1010, hit(function_at(0x1010), 0)),
        (0x101f, hit(function_at(0x1010), 0)),
        (0x102f, hit(function_at(0x1020), 0x0400_0000)),
        (0x1030, None),
    ];
    for (offset, found) in found {
        assert_eq!(rt; find_pc(section.as_slice(), offset), found);
    }
    // Each prefix of an odd section, and the section with each of its numbers damaged.
    let mut sum = FIRST;
    for len in 0..=ODD.len() {
        sum = told(sum, &ODD[..len]);
    }
    assert_eq!(rt; sum, 0x6b00_a6d6);
    for (damage, sum) in [
        (Damage::Zero, 0x242d_0f69),
        (Damage::Ones, 0x9b36_b999),
        (Damage::OneMore, 0x80c4_fda2),
    ] {
        assert_eq!(rt; told_of(damage), sum);
    }
    Ok(())
}
