//! Archives with some bytes changed, and archives that end too early.
use super::described::is_read_as;
use crate::edits::edit;
use mo_types::OutOfMemory;
use std::alloc::Global;

// An archive of three members and a table of contents:
//
//       8  the table's header, of 44 bytes; 68 the bytes of its pairs; 72 two pairs; 88 the bytes of its strings; 92
//          20 bytes of strings
//     112  the header of `a.o`, of 5 bytes, and a byte that fills up
//     178  the header of a member with its name of 8 bytes before its data: 12 bytes together
//     250  the header of `c.o/`, of 3 bytes, where the file ends
fn sample() -> &'static [u8] {
    b"!<arch>\n\
__.SYMDEF       0           0     0     644     44        `\n\
\x10\0\0\0\x00\0\0\0\x70\0\0\0\x03\0\0\0\xb2\0\0\0\x14\0\0\0_a\0_b\0\0\0\0\0\0\0\0\0\0\0\0\0\0\0\
a.o             0           0     0     644     5         `\n\
alpha\n\
#1/8            0           0     0     644     12        `\n\
b c.o\0\0\0beta\
c.o/            0           0     0     644     3         `\n\
end"
}

const SIZE: usize = 313;

const WHOLE: &str = "a.o@172+5 b c.o@246+4 c.o/@310+3 | _a=1/1 _b=2/2";

// Bytes of the sample, and what is told. Of two faults in one line the first in the order of the rules is told.
fn cases() -> &'static str {
    "\
# what ends a header
66=61: malformed at 8: member
67=61: malformed at 8: member
170=61: malformed at 112: member
237=61 309=61: malformed at 178: member
# sizes: blank, with another byte, with a blank inside, with a blank before, too large
56=2020: malformed at 8: member
57=78: malformed at 8: member
57=2034: malformed at 8: member
56=2034: malformed at 8: member
56=39393939393939393939: malformed at 8: member
161=393939: malformed at 112: member
298=34: malformed at 250: member
298=32: malformed at 312: member
# the first member's name
8=2f2020202020202020: unsupported: gnuarchive
8=2f2f20202020202020: //@68+44 a.o@172+5 b c.o@246+4 c.o/@310+3 |
17=5f3634: unsupported: archive64
17=5f36345f5346: unsupported: archive64
17=20534f52544544: a.o@172+5 b c.o@246+4 c.o/@310+3 | _a=1/1 _b=2/2
17=58: __.SYMDEFX@68+44 a.o@172+5 b c.o@246+4 c.o/@310+3 |
112=5f5f2e53594d444546: __.SYMDEF@172+5 b c.o@246+4 c.o/@310+3 | _a=1/1 _b=2/2
8=2f2020202020202020 66=61: malformed at 8: member
8=2f2020202020202020 170=61: unsupported: gnuarchive
17=5f3634 68=11: unsupported: archive64
# names before the data: longer than the member, as long, shorter, and names that only look so
181=3133: malformed at 178: member
181=35: a.o@172+5 b c.o@243+7 c.o/@310+3 | _a=1/1 _b=2/2
181=30: a.o@172+5 @238+12 c.o/@310+3 | _a=1/1 _b=2/2
181=20: a.o@172+5 #1/@238+12 c.o/@310+3 | _a=1/1 _b=2/2
182=78: a.o@172+5 #1/8x@238+12 c.o/@310+3 | _a=1/1 _b=2/2
181=2d38: a.o@172+5 #1/-8@238+12 c.o/@310+3 | _a=1/1 _b=2/2
# pairs: not whole, none, too many
68=11: malformed at 8: contents
68=00 72=00: a.o@172+5 b c.o@246+4 c.o/@310+3 |
68=20: malformed at 8: contents
68=28: malformed at 8: contents
68=f8ffffff: malformed at 8: contents
# strings: one byte more than there are, none
88=15: malformed at 8: contents
88=00: malformed at 8: contents
88=ffffffff: malformed at 8: contents
# names: after the strings, far after them, without NUL, empty, within another one
72=14: malformed at 8: contents
72=ffffffff: malformed at 8: contents
80=13 111=61: malformed at 8: contents
80=13: a.o@172+5 b c.o@246+4 c.o/@310+3 | _a=1/1 =2/2
80=01: a.o@172+5 b c.o@246+4 c.o/@310+3 | _a=1/1 a=2/2
# members of pairs: by index, by the place of the data, the table itself, no header, one that ends the file
76=01: malformed at 8: contents
76=00: malformed at 8: contents
76=ac: malformed at 8: contents
76=08: malformed at 8: contents
84=39010000: malformed at 8: contents
84=ffffffff: malformed at 8: contents
76=fa: a.o@172+5 b c.o@246+4 c.o/@310+3 | _a=3/3 _b=2/2
# a name twice
72=03: a.o@172+5 b c.o@246+4 c.o/@310+3 | _b=1/1 _b=2/1
72=03 76=b2 84=70: a.o@172+5 b c.o@246+4 c.o/@310+3 | _b=2/1 _b=1/1
# a member at fault before the table, and a table without room
68=11 309=61: malformed at 250: member
56=3420 12=20: malformed at 72: member
"
}

// What the first bytes of the sample are read as.
fn cut(size: usize) -> &'static str {
    match size {
        0..8 => "malformed at 0: notaninput",
        8 => "|",
        9..112 => "malformed at 8: member",
        112 | 177 | 178 => "malformed at 8: contents",
        113..177 => "malformed at 112: member",
        179..250 => "malformed at 178: member",
        250 => "a.o@172+5 b c.o@246+4 | _a=1/1 _b=2/2",
        SIZE => WHOLE,
        _ => "malformed at 250: member",
    }
}

// The line's bytes and what is told; a line that begins with `#` has neither.
fn case(line: &str) -> Option<(&str, &str)> {
    if line.starts_with('#') {
        return None;
    }
    line.split_once(": ")
}

fn is_changed(alloc: Global, edits: &str, text: &str) -> Result<bool, OutOfMemory> {
    let mut bytes = Vec::from_slice(alloc, sample())?;
    edit(&mut bytes, edits);
    is_read_as(alloc, &bytes, text)
}

/// The first changes to the sample after which something else is told.
pub fn changed(alloc: Global) -> Result<Option<&'static str>, OutOfMemory> {
    for (edits, text) in cases().lines().filter_map(case) {
        if !is_changed(alloc, edits, text)? {
            return Ok(Some(edits));
        }
    }
    Ok(None)
}

/// What is to be told of the first part of the sample of which something else is told.
pub fn cut_short(alloc: Global) -> Result<Option<&'static str>, OutOfMemory> {
    if sample().len() != SIZE {
        return Ok(Some("all bytes"));
    }
    for size in 0..=SIZE {
        let part = sample().get(..size).unwrap_or(b"");
        if !is_read_as(alloc, part, cut(size))? {
            return Ok(Some(cut(size)));
        }
    }
    Ok(None)
}
