//! A small image, and copies of it with other bytes at some places. What they have to be read as was told by another
//! reader, which is written from the same headers.
mod tables;

use image_read::{FixupRead, Meaning, denote, fixup_at, import_name, mapped};
use mo_types::RefKind;
use std::alloc::{AllocError, Global};
use std::test::Fail;
use tables::{header, images, numbers_of_format_1, numbers_of_format_3};

// An image of 620 bytes:
//
//       0  the header: 4 commands of 232 bytes
//      32  __PAGEZERO: 0x1000 bytes at 0, which may not be looked at
//     104  __TEXT: 0x400 bytes at 0x1000, of which the file has the first 0x180, from 0 on
//     176  __DATA: 0x1000 bytes at 0x13f0, of which the file has the first 0x40, from 384 on
//     248  LC_DYLD_CHAINED_FIXUPS: 172 bytes at 448
//     384  8 pointers, of which those at 0x1400, 0x1408, 0x1418 and 0x1420 are on a chain
//     448  dyld_chained_fixups_header: starts at 128, imports at 32, names at 40, 2 imports of format 1
//     480  the imports, with names at 1 and 4
//     488  the names: none, `_a` and `_bc`
//     512  two imports of format 3, with names at 4 and 1
//     576  the starts of 3 segments, of which the third one has some at 20
//     596  the starts of __DATA: 24 bytes, pages of 0x4000 bytes, pointers of format 6, 1 page, which begins at 0x10
fn sample() -> &'static [u8] {
    b"\
\xcf\xfa\xed\xfe\x0c\x00\x00\x01\x00\x00\x00\x00\x02\x00\x00\x00\x04\x00\x00\x00\xe8\x00\x00\x00\
\x00\x00\x00\x00\x00\x00\x00\x00\x19\x00\x00\x00\x48\x00\x00\x00\x5f\x5f\x50\x41\x47\x45\x5a\x45\
\x52\x4f\x00\x00\x00\x00\x00\x00\x00\x00\x00\x00\x00\x00\x00\x00\x00\x10\x00\x00\x00\x00\x00\x00\
\x00\x00\x00\x00\x00\x00\x00\x00\x00\x00\x00\x00\x00\x00\x00\x00\x00\x00\x00\x00\x00\x00\x00\x00\
\x00\x00\x00\x00\x00\x00\x00\x00\x19\x00\x00\x00\x48\x00\x00\x00\x5f\x5f\x54\x45\x58\x54\x00\x00\
\x00\x00\x00\x00\x00\x00\x00\x00\x00\x10\x00\x00\x00\x00\x00\x00\x00\x04\x00\x00\x00\x00\x00\x00\
\x00\x00\x00\x00\x00\x00\x00\x00\x80\x01\x00\x00\x00\x00\x00\x00\x05\x00\x00\x00\x05\x00\x00\x00\
\x00\x00\x00\x00\x00\x00\x00\x00\x19\x00\x00\x00\x48\x00\x00\x00\x5f\x5f\x44\x41\x54\x41\x00\x00\
\x00\x00\x00\x00\x00\x00\x00\x00\xf0\x13\x00\x00\x00\x00\x00\x00\x00\x10\x00\x00\x00\x00\x00\x00\
\x80\x01\x00\x00\x00\x00\x00\x00\x40\x00\x00\x00\x00\x00\x00\x00\x03\x00\x00\x00\x03\x00\x00\x00\
\x00\x00\x00\x00\x00\x00\x00\x00\x34\x00\x00\x80\x10\x00\x00\x00\xc0\x01\x00\x00\xac\x00\x00\x00\
\xa5\xa5\xa5\xa5\xa5\xa5\xa5\xa5\xa5\xa5\xa5\xa5\xa5\xa5\xa5\xa5\xa5\xa5\xa5\xa5\xa5\xa5\xa5\xa5\
\xa5\xa5\xa5\xa5\xa5\xa5\xa5\xa5\xa5\xa5\xa5\xa5\xa5\xa5\xa5\xa5\xa5\xa5\xa5\xa5\xa5\xa5\xa5\xa5\
\xa5\xa5\xa5\xa5\xa5\xa5\xa5\xa5\xa5\xa5\xa5\xa5\xa5\xa5\xa5\xa5\xa5\xa5\xa5\xa5\xa5\xa5\xa5\xa5\
\xa5\xa5\xa5\xa5\xa5\xa5\xa5\xa5\xa5\xa5\xa5\xa5\xa5\xa5\xa5\xa5\xa5\xa5\xa5\xa5\xa5\xa5\xa5\xa5\
\xa5\xa5\xa5\xa5\xa5\xa5\xa5\xa5\xa5\xa5\xa5\xa5\xa5\xa5\xa5\xa5\xa5\xa5\xa5\xa5\xa5\xa5\xa5\xa5\
\x11\x11\x00\x00\x00\x00\x00\x00\x22\x22\x00\x00\x00\x00\x00\x00\x34\x12\x00\x00\x00\x00\x10\x00\
\x00\x00\x00\x05\x00\x00\x20\x80\xf0\xff\xff\xff\xff\xff\xff\xff\x01\x00\x00\xff\x00\x00\x10\x80\
\xff\xff\xff\xff\x0f\x00\x00\x00\x33\x33\x00\x00\x00\x00\x00\x00\x00\x00\x00\x00\x80\x00\x00\x00\
\x20\x00\x00\x00\x28\x00\x00\x00\x02\x00\x00\x00\x01\x00\x00\x00\x00\x00\x00\x00\x00\x00\x00\x00\
\x01\x02\x00\x00\xfe\x09\x00\x00\x00\x5f\x61\x00\x5f\x62\x63\x00\x00\x00\x00\x00\x00\x00\x00\x00\
\x00\x00\x00\x00\x00\x00\x00\x00\x01\x00\x00\x00\x04\x00\x00\x00\x07\x00\x00\x00\x00\x00\x00\x00\
\xfe\xff\x01\x00\x01\x00\x00\x00\x00\x00\x00\x00\x00\x00\x00\x80\x00\x00\x00\x00\x00\x00\x00\x00\
\x00\x00\x00\x00\x00\x00\x00\x00\x00\x00\x00\x00\x00\x00\x00\x00\x00\x00\x00\x00\x00\x00\x00\x00\
\x03\x00\x00\x00\x00\x00\x00\x00\x00\x00\x00\x00\x14\x00\x00\x00\x00\x00\x00\x00\x18\x00\x00\x00\
\x00\x40\x06\x00\xf0\x03\x00\x00\x00\x00\x00\x00\x00\x00\x00\x00\x01\x00\x10\x00"
}

// Addresses at the ends of segments and of what the file has of them.
const ADDRESSES: [u64; 15] = [
    0,
    0xfff,
    0x1000,
    0x1001,
    0x117f,
    0x1180,
    0x13ef,
    0x13f0,
    0x13ff,
    0x1400,
    0x142f,
    0x1430,
    0x23ef,
    0x23f0,
    u64::MAX,
];

// Addresses on the chain, between its pointers, on other pages and nowhere.
const POINTERS: [u64; 12] = [
    0x13f0, 0x13f8, 0x1400, 0x1404, 0x1408, 0x1410, 0x1418, 0x1420, 0x1428, 0x2000, 0x1000, 0x5000,
];

// Bytes of the sample, and the bytes at those addresses.
fn memory() -> &'static str {
    "\
: -- -- cf fa a5 00 00 00 00 34 00 00 00 -- --
16=05: -- -- -- -- -- -- -- -- -- -- -- -- -- -- --
16=03: -- -- cf fa a5 00 00 00 00 34 00 00 00 -- --
20=e7: -- -- -- -- -- -- -- -- -- -- -- -- -- -- --
20=ffff: -- -- cf fa a5 00 00 00 00 34 00 00 00 -- --
36=07: -- -- -- -- -- -- -- -- -- -- -- -- -- -- --
108=40: -- -- -- -- -- -- -- -- -- -- -- -- -- -- --
108=47: -- -- -- -- -- -- -- -- -- -- -- -- -- -- --
164=00: -- -- -- -- -- -- -- -- -- 34 00 00 00 -- --
104=1a: -- -- -- -- -- -- -- 11 00 34 00 00 00 -- --
108=50: -- -- -- -- -- -- -- -- -- -- -- -- -- -- --
145=02: -- -- 01 00 -- 00 00 00 00 34 00 00 00 -- --
200=01: -- -- cf fa a5 00 00 00 00 00 00 00 -- -- --
192=0011: -- -- cf fa a5 00 00 00 00 34 00 00 00 -- --
216=ffffffffffffffff: -- -- cf fa a5 00 00 00 00 -- -- 00 00 -- --
144=f0ffffffffffffff: -- -- -- -- -- 00 00 00 00 34 00 00 00 -- --
208=ffffffffffffffff: -- -- cf fa a5 00 00 00 00 34 00 00 00 00 00
200=00: -- -- cf fa a5 00 00 00 00 00 00 00 -- -- --
208=41: -- -- cf fa a5 00 00 00 00 34 00 00 00 00 --
136=00ffffffffffffff 128=00ffffffffffffff: -- -- -- -- -- -- -- 11 00 34 00 00 00 -- 00
144=ffffffffffffffff 152=ffffffffffffffff: -- -- -- -- -- -- -- -- -- 34 00 00 00 -- --
"
}

// Bytes of the sample, and the names of the imports 0, 1 and 2.
fn names() -> &'static str {
    "\
: _a _bc --
464=01: _a -- --
464=00: -- -- --
464=ffffffff: _a _bc --
468=02: -- -- --
468=00: -- -- --
468=03 456=40: _bc _a --
468=03 456=41: -- '' --
468=03 456=50: _a '' --
468=03 456=50 464=01: _a -- --
456=ffffffff: -- -- --
460=ffffffff: -- -- --
460=2b: _bc '' --
256=ffffffff: -- -- --
256=04: -- -- --
256=05: -- -- --
248=35: -- -- --
20=d8: -- -- --
481=ff: '' _bc --
485=ff: _a '' --
543=ff: _a _bc --
"
}

// Bytes of the sample, and the fixups at those addresses: none, the offset of a rebase, import, ordinal, addend and
// mark of a bind, or a broken chain.
fn fixups() -> &'static str {
    "\
: - - r4660 - b0,1,5,0 - b1,-2,255,1 r68719476735 - - - -
248=35: - - - - - - - - - - - -
256=ffffffff: x x x x x x x x x x x x
256=08: x x x x x x x x x x x x
464=01: - - r4660 - b0,1,5,0 - x r68719476735 - - - -
468=02: x x x x x x x x x x x x
468=03 456=40: - - r4660 - b0,1,12,0 - b1,-2,-9223372036854775553,1 r68719476735 - - - -
468=03 456=50: - - r4660 - b0,-2,-9223372036854775803,1 - b1,0,255,0 r68719476735 - - - -
468=03 456=70: - - r4660 - b0,0,5,0 - b1,3,85899346175,0 r68719476735 - - - -
456=ffffffff: - - r4660 - x - x r68719476735 - - - -
452=ffffffff: x x x x x x x x x x x -
576=02: - - - - - - - - - - - -
576=ffffffff: - - r4660 - b0,1,5,0 - b1,-2,255,1 r68719476735 - - - -
588=00: - - - - - - - - - - - -
588=ffffffff: - - x x x x x x x x - -
602=02: - - x x x x x x x x - -
616=00: - - - - - - - - - - - -
616=02: - - r4660 - b0,1,5,0 - b1,-2,255,1 r68719476735 - - - -
618=ffff: - - - - - - - - - - - -
618=18: - - - - b0,1,5,0 - b1,-2,255,1 r68719476735 - - - -
618=20: - - x x x x x x x x - -
618=14: - - - r1048576 - - - - - - - -
618=f83f: - - x x x x x x x x - -
618=fa3f: - - x x x x x x x x - -
618=0040: - - x x x x x x x x - -
406=ff7f: - - x x x x x x x x - -
406=00: - - r4660 - - - - - - - - -
480=f1: - - r4660 - b0,-15,5,0 - b1,-2,255,1 r68719476735 - - - -
480=f0: - - r4660 - b0,240,5,0 - b1,-2,255,1 r68719476735 - - - -
480=fd: - - r4660 - b0,-3,5,0 - b1,-2,255,1 r68719476735 - - - -
484=ff: - - r4660 - b0,1,5,0 - b1,-1,255,1 r68719476735 - - - -
415=80: - - r4660 - b0,1,5,0 - b1,-2,255,1 r68719476735 - - - -
184=31: - - r4660 - b0,1,5,0 - b1,-2,255,1 r68719476735 - - - -
"
}

const KINDS: [RefKind; 12] = [
    RefKind::Pointer,
    RefKind::Diff32,
    RefKind::Diff64,
    RefKind::Branch,
    RefKind::Page,
    RefKind::PageOff,
    RefKind::GotPage,
    RefKind::GotPageOff,
    RefKind::GotDelta,
    RefKind::GotPointer,
    RefKind::TlvPage,
    RefKind::TlvPageOff,
];

// Bytes of the sample and an address, and what the field there tells by each of those kinds: an address, import and
// addend, a difference, an offset in a page, or nothing.
fn meanings() -> &'static str {
    "\
@5120: a8756 d4660 d4503599627375156 a23760 a2379776 l4 a2379776 l4 a9780 a8756 a2379776 l4
@5128: i0,5 d83886080 d-9214364837516148736 a67113992 a4096 l0 a4096 l0 a83891208 i0,5 a4096 l0
@5136: d-16 d-16 d-16 a5072 a0 l4095 a0 l4095 a5120 d-16 a0 l4095
@5144: i1,255 d-16777215 d-9218868432949215231 x a16384 l0 a16384 l0 x i1,255 a16384 l0
@5152: a68719480831 d-1 d68719476735 a5148 a0 l4095 a0 l4095 a5151 a68719480831 a0 l4095
@5160: d13107 d13107 d13107 a57588 a6705152 l12 a6705152 l12 a18267 d13107 a6705152 l12
@5164: d0 d0 d0 a5164 a4096 l0 a4096 l0 a5164 d0 a4096 l0
@5166: d0 d0 d0 a5166 a4096 l0 a4096 l0 a5166 d0 a4096 l0
@5100: d0 d0 d0 a5100 a4096 l0 a4096 l0 a5100 d0 a4096 l0
@9196: x d0 x a9196 a8192 l0 a8192 l0 a9196 x a8192 l0
@20480: x x x x x x x x x x x x
416=ffffff97@5136: d-1744830465 d-1744830465 d-1744830465 a5132 x l4095 x l4095 x d-1744830465 x l4095
416=00000096@5136: d-1778384896 d-1778384896 d-1778384896 x a4096 l0 a4096 l0 x d-1778384896 a4096 l0
416=ffffff95@5136: d-1778384897 d-1778384897 d-1778384897 a134222860 x l4095 x l4095 x d-1778384897 x l4095
416=100000b0@5136: d-1342177264 d-1342177264 d-1342177264 a5200 a8192 l0 a8192 l0 x d-1342177264 a8192 l0
416=10ffff90@5136: d-1862271216 d-1862271216 d-1862271216 a67113040 x l4095 x l4095 x d-1862271216 x l4095
416=e0ffff90@5136: d-1862271008 d-1862271008 d-1862271008 a67113872 x l4095 x l4095 x d-1862271008 x l4095
416=00048091@5136: d-1853881344 d-1853881344 d-1853881344 a100672528 x l1 x l1 x d-1853881344 x l1
416=00fc7ff9@5136: d-109052928 d-109052928 d-109052928 a100664336 a4294459392 l32760 a4294459392 l32760 x d-109052928 a4294459392 l32760
416=00fcbf3d@5136: d-3258975232 d1035992064 d-3258975232 a117441552 x l65520 x l65520 a1035997200 d-3258975232 x l65520
416=0004c03d@5136: d-3258973184 d1035994112 d-3258973184 a117449744 x l16 x l16 a1035999248 d-3258973184 x l16
416=00fc7f39@5136: d-3330278400 d964688896 d-3330278400 a100664336 a4294451200 l4095 a4294451200 l4095 a964694032 d-3330278400 a4294451200 l4095
416=f0ebffff@5136: d-5136 d-5136 d-5136 x x l4090 x l4090 a0 d-5136 x l4090
416=efebffff@5136: d-5137 d-5137 d-5137 x x l4090 x l4090 x d-5137 x l4090
128=00f0ffffffffffff@5120: x d4660 d4503599627375156 a23760 a2379776 l4 a2379776 l4 a9780 x a2379776 l4
602=02@5120: x d4660 d4503599627375156 a23760 a2379776 l4 a2379776 l4 a9780 x a2379776 l4
618=20@5128: x d83886080 d-9214364837516148736 a67113992 a4096 l0 a4096 l0 a83891208 x a4096 l0
256=ffffffff@5160: x d13107 d13107 a57588 a6705152 l12 a6705152 l12 a18267 x a6705152 l12
164=00@4096: x x x x x x x x x x x x
"
}

fn digit(number: u8) -> u8 {
    if number < 10 {
        b'0' + number
    } else if number < 16 {
        b'a' + (number - 10)
    } else {
        b'?'
    }
}

fn bytes_of(alloc: Global, image: &[u8]) -> Result<Vec<u8>, AllocError> {
    let mut out = Vec::new(alloc);
    for address in &ADDRESSES {
        match mapped(image, *address) {
            Some(byte) => out.extend_from_slice(&[digit(byte / 16), digit(byte % 16), b' '])?,
            None => out.extend_from_slice(b"-- ")?,
        }
    }
    Ok(out)
}

fn names_of(alloc: Global, image: &[u8]) -> Result<Vec<u8>, AllocError> {
    let mut out = Vec::new(alloc);
    for import in 0..3 {
        match import_name(image, import) {
            Some(name) if name.is_empty() => out.extend_from_slice(b"''")?,
            Some(name) => out.extend_from_slice(name)?,
            None => out.extend_from_slice(b"--")?,
        }
        out.extend_from_slice(b" ")?;
    }
    Ok(out)
}

fn told(alloc: Global, fixup: FixupRead) -> Result<String, AllocError> {
    match fixup {
        FixupRead::Plain => format!(in alloc; "- "),
        FixupRead::Rebase { offset } => format!(in alloc; "r{offset} "),
        FixupRead::Bind {
            import,
            ordinal,
            addend,
            optional,
        } => {
            let mark = u8::from(optional);
            format!(in alloc; "b{import},{ordinal},{addend},{mark} ")
        }
        FixupRead::Broken => format!(in alloc; "x "),
    }
}

fn fixups_of(alloc: Global, image: &[u8]) -> Result<Vec<u8>, AllocError> {
    let mut out = Vec::new(alloc);
    for address in &POINTERS {
        let text = told(alloc, fixup_at(image, *address))?;
        out.extend_from_slice(text.as_bytes())?;
    }
    Ok(out)
}

// The names of the imports 0, 1 and 2 in hexadecimal digits, and the fixups at those addresses.
fn names_and_fixups_of(alloc: Global, image: &[u8]) -> Result<Vec<u8>, AllocError> {
    let mut out = Vec::new(alloc);
    for import in 0..3 {
        match import_name(image, import) {
            Some(name) if name.is_empty() => out.extend_from_slice(b"''")?,
            Some(name) => {
                for byte in name {
                    out.extend_from_slice(&[digit(byte / 16), digit(byte % 16)])?;
                }
            }
            None => out.extend_from_slice(b"--")?,
        }
        out.extend_from_slice(b" ")?;
    }
    out.extend_from_slice(b"/ ")?;
    let fixups = fixups_of(alloc, image)?;
    out.extend_from_slice(&fixups)?;
    Ok(out)
}

fn meaning_told(alloc: Global, meaning: Meaning) -> Result<String, AllocError> {
    match meaning {
        Meaning::Address(address) => format!(in alloc; "a{address} "),
        Meaning::Imported { import, addend } => format!(in alloc; "i{import},{addend} "),
        Meaning::Difference(difference) => format!(in alloc; "d{difference} "),
        Meaning::Low12(offset) => format!(in alloc; "l{offset} "),
        Meaning::Broken => format!(in alloc; "x "),
    }
}

fn meanings_of(alloc: Global, image: &[u8], address: u64) -> Result<Vec<u8>, AllocError> {
    let mut out = Vec::new(alloc);
    for kind in &KINDS {
        let text = meaning_told(alloc, denote(image, address, *kind))?;
        out.extend_from_slice(text.as_bytes())?;
    }
    Ok(out)
}

// Writes bytes at their places, as `36=0c00 508=1c` says: two hexadecimal digits a byte.
fn edit(bytes: &mut [u8], edits: &str) {
    for text in edits.split_whitespace() {
        if let Some((place, digits)) = text.split_once('=') {
            write_digits(bytes, place.parse().unwrap_or(usize::MAX), digits);
        }
    }
}

fn write_digits(bytes: &mut [u8], place: usize, digits: &str) {
    for (i, digit) in digits.chars().enumerate() {
        if let Some(byte) = bytes.get_mut(place.saturating_add(i / 2)) {
            *byte = *byte << 4 | digit.to_digit(16).unwrap_or(0) as u8;
        }
    }
}

fn edited(alloc: Global, edits: &str) -> Result<Vec<u8>, AllocError> {
    let mut bytes = Vec::from_slice(alloc, sample())?;
    edit(&mut bytes, edits);
    Ok(bytes)
}

// An image of zeros but for its header and some bytes, as `branch 16384 440=02` says.
fn small_image(alloc: Global, text: &str) -> Result<Vec<u8>, AllocError> {
    let (_name, rest) = text.split_once(' ').unwrap_or((text, ""));
    let (size, edits) = rest.split_once(' ').unwrap_or((rest, ""));
    let mut image = Vec::new(alloc);
    image.resize(size.parse().unwrap_or(0), 0)?;
    edit(&mut image, header());
    edit(&mut image, edits);
    Ok(image)
}

// The two parts of a line.
fn row(line: &str) -> Option<(&str, &str)> {
    line.split_once(": ")
}

// Whether a text is what was found, but for blanks at its end.
fn is_text(found: &[u8], text: &str) -> bool {
    found.trim_ascii_end() == text.as_bytes()
}

fn has_bytes(alloc: Global, edits: &str, text: &str) -> Result<bool, AllocError> {
    let image = edited(alloc, edits)?;
    Ok(is_text(&bytes_of(alloc, &image)?, text))
}

fn has_fixups(alloc: Global, edits: &str, text: &str) -> Result<bool, AllocError> {
    let image = edited(alloc, edits)?;
    Ok(is_text(&fixups_of(alloc, &image)?, text))
}

fn has_names(alloc: Global, edits: &str, text: &str) -> Result<bool, AllocError> {
    let image = edited(alloc, edits)?;
    Ok(is_text(&names_of(alloc, &image)?, text))
}

// As `416=00@5120` says, the edits and the address.
fn has_meanings(alloc: Global, place: &str, text: &str) -> Result<bool, AllocError> {
    let (edits, address) = place.split_once('@').unwrap_or(("", ""));
    let image = edited(alloc, edits)?;
    let found = meanings_of(alloc, &image, address.parse().unwrap_or(0))?;
    Ok(is_text(&found, text))
}

fn has_numbers(alloc: Global, first: &str, edits: &str, text: &str) -> Result<bool, AllocError> {
    let mut image = edited(alloc, first)?;
    edit(&mut image, edits);
    Ok(is_text(&names_and_fixups_of(alloc, &image)?, text))
}

// Of what the lines of a table tell.
#[derive(Clone, Copy)]
enum Subject {
    Memory,
    Names,
    Fixups,
    Meanings,
}

fn tells(alloc: Global, subject: Subject, edits: &str, text: &str) -> Result<bool, AllocError> {
    match subject {
        Subject::Memory => has_bytes(alloc, edits, text),
        Subject::Names => has_names(alloc, edits, text),
        Subject::Fixups => has_fixups(alloc, edits, text),
        Subject::Meanings => has_meanings(alloc, edits, text),
    }
}

// The edits of the first line of a table that tells something else.
fn wrong_line(
    alloc: Global,
    subject: Subject,
    table: &'static str,
) -> Result<Option<&'static str>, AllocError> {
    for (edits, text) in table.lines().filter_map(row) {
        if !tells(alloc, subject, edits, text)? {
            return Ok(Some(edits));
        }
    }
    Ok(None)
}

fn all_have_numbers(
    alloc: Global,
    first: &str,
    lines: &str,
    text: &str,
) -> Result<bool, AllocError> {
    for edits in lines.split(", ") {
        if !has_numbers(alloc, first, edits, text)? {
            return Ok(false);
        }
    }
    Ok(true)
}

// The first line of a table of which some edits, after those that come first, give something else than it tells.
fn wrong_numbers(
    alloc: Global,
    first: &str,
    table: &'static str,
) -> Result<Option<&'static str>, AllocError> {
    for (text, lines) in table.lines().filter_map(row) {
        if !all_have_numbers(alloc, first, lines, text)? {
            return Ok(Some(text));
        }
    }
    Ok(None)
}

// Whether no byte is there of a file that ends in its header or in its commands.
fn has_no_bytes_of_a_part() -> bool {
    for size in 0..264 {
        if mapped(sample().get(..size).unwrap_or(b""), 0x1000).is_some() {
            return false;
        }
    }
    true
}

// Whether a chain is broken in the first bytes of a file, and the second import's name is there from a size on.
fn is_broken(image: &[u8], size: usize, address: u64, from: usize) -> bool {
    let image = image.get(..size).unwrap_or(b"");
    fixup_at(image, address) == FixupRead::Broken
        && import_name(image, 1).is_none() == (size < from)
}

// Whether fixups are broken wherever the file ends within what is read of them. The name is there once its NUL is; with
// imports of format 3, which stand behind the names, once the import is whole too.
fn parts_are_broken(wide: &[u8]) -> bool {
    for size in 268..620 {
        if !is_broken(sample(), size, 0x1400, 496) || !is_broken(wide, size, 0x1408, 544) {
            return false;
        }
    }
    import_name(sample().get(..496).unwrap_or(b""), 1) == Some(b"_bc".as_slice())
}

fn fixups_end_early(alloc: Global) -> Result<bool, AllocError> {
    let wide = edited(alloc, "468=03 456=40")?;
    Ok(parts_are_broken(&wide))
}

// Whether a branch or a byte of an address is as `64>72` says of a branch and `64:192` of a byte.
fn has_field(image: &[u8], text: &str) -> bool {
    if let Some((address, target)) = text.split_once('>') {
        let found = denote(image, address.parse().unwrap_or(0), RefKind::Branch);
        return found == Meaning::Address(target.parse().unwrap_or(0));
    }
    match text.split_once(':') {
        Some((address, byte)) => {
            let found = mapped(image, address.parse().unwrap_or(0));
            found == Some(byte.parse().unwrap_or(0))
        }
        None => false,
    }
}

fn has_fields(image: &[u8], fields: &str) -> bool {
    for field in fields.split_whitespace() {
        if !has_field(image, field) {
            return false;
        }
    }
    true
}

fn has_no_fixup(image: &[u8]) -> bool {
    for word in 0..0x1000 {
        if fixup_at(image, 0x1_0000_0000 + 4 * word) != FixupRead::Plain {
            return false;
        }
    }
    true
}

fn is_small_image(alloc: Global, text: &str, fields: &str) -> Result<bool, AllocError> {
    let image = small_image(alloc, text)?;
    Ok(has_fields(&image, fields) && has_no_fixup(&image))
}

// The first of the images of small objects whose fields are others, or that has a fixup.
fn wrong_image(alloc: Global) -> Result<Option<&'static str>, AllocError> {
    for (text, fields) in images().lines().filter_map(row) {
        if !is_small_image(alloc, text, fields)? {
            return Ok(Some(text));
        }
    }
    Ok(None)
}

// Bytes in memory, fixups and names, fields by their kinds, and images of small objects.
#[test]
fn fixups_and_names(rt: HostRuntime) -> Result<(), Fail> {
    let alloc = rt.alloc();
    for wrong in [
        wrong_line(alloc, Subject::Memory, memory())?,
        wrong_line(alloc, Subject::Names, names())?,
        wrong_line(alloc, Subject::Fixups, fixups())?,
        wrong_line(alloc, Subject::Meanings, meanings())?,
        wrong_numbers(alloc, "", numbers_of_format_1())?,
        wrong_numbers(alloc, "468=03 456=40", numbers_of_format_3())?,
        wrong_image(alloc)?,
    ] {
        let row = wrong.unwrap_or("");
        assert!(rt; wrong.is_none(), "in {row}");
    }
    assert!(rt; has_no_bytes_of_a_part());
    assert!(rt; fixups_end_early(alloc)?);
    Ok(())
}
