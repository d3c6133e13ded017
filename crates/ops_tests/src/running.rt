//! A small image, with tables of its own and other bytes at some places. What they fix was told by another reader, which is
//! written from the same header. Of ordinals from 2^31 on it says nothing.

use dyld_ops::{OpAct, OpFixup, OpsFault, run_ops};
use std::alloc::{AllocError, Global};
use std::test::Fail;

// The tables of rebases and binds, in hexadecimal digits, bytes at places of the file, and what is fixed, or where the
// fault is.
type Row = (&'static str, &'static str, &'static str, &'static str);

// The first 576 bytes of an image, behind which 64 bytes for each table follow:
//
//       0  the header: 4 commands of 264 bytes
//      32  __PAGEZERO: 0x100000000 bytes at 0, which may not be looked at
//     104  __TEXT: 0x4000 bytes at 0x100000000, of which the file has the first 0x200, from 0 on
//     176  __DATA: 0x80 bytes at 0x100004000, of which the file has the first 0x40, from 0x200 on
//     248  LC_DYLD_INFO_ONLY: rebases at 576, binds at 640
//     512  8 pointers
const HEAD: &[u8] = b"\
\xcf\xfa\xed\xfe\x0c\x00\x00\x01\x00\x00\x00\x00\x02\x00\x00\x00\x04\x00\x00\x00\x08\x01\x00\x00\
\x00\x00\x00\x00\x00\x00\x00\x00\x19\x00\x00\x00\x48\x00\x00\x00\x5f\x5f\x50\x41\x47\x45\x5a\x45\
\x52\x4f\x00\x00\x00\x00\x00\x00\x00\x00\x00\x00\x00\x00\x00\x00\x00\x00\x00\x00\x01\x00\x00\x00\
\x00\x00\x00\x00\x00\x00\x00\x00\x00\x00\x00\x00\x00\x00\x00\x00\x00\x00\x00\x00\x00\x00\x00\x00\
\x00\x00\x00\x00\x00\x00\x00\x00\x19\x00\x00\x00\x48\x00\x00\x00\x5f\x5f\x54\x45\x58\x54\x00\x00\
\x00\x00\x00\x00\x00\x00\x00\x00\x00\x00\x00\x00\x01\x00\x00\x00\x00\x40\x00\x00\x00\x00\x00\x00\
\x00\x00\x00\x00\x00\x00\x00\x00\x00\x02\x00\x00\x00\x00\x00\x00\x05\x00\x00\x00\x05\x00\x00\x00\
\x00\x00\x00\x00\x00\x00\x00\x00\x19\x00\x00\x00\x48\x00\x00\x00\x5f\x5f\x44\x41\x54\x41\x00\x00\
\x00\x00\x00\x00\x00\x00\x00\x00\x00\x40\x00\x00\x01\x00\x00\x00\x80\x00\x00\x00\x00\x00\x00\x00\
\x00\x02\x00\x00\x00\x00\x00\x00\x40\x00\x00\x00\x00\x00\x00\x00\x03\x00\x00\x00\x03\x00\x00\x00\
\x00\x00\x00\x00\x00\x00\x00\x00\x22\x00\x00\x80\x30\x00\x00\x00\x40\x02\x00\x00\x00\x00\x00\x00\
\x80\x02\x00\x00\x00\x00\x00\x00\x00\x00\x00\x00\x00\x00\x00\x00\x00\x00\x00\x00\x00\x00\x00\x00\
\x00\x00\x00\x00\x00\x00\x00\x00\x00\x00\x00\x00\x00\x00\x00\x00\x00\x00\x00\x00\x00\x00\x00\x00\
\x00\x00\x00\x00\x00\x00\x00\x00\x00\x00\x00\x00\x00\x00\x00\x00\x00\x00\x00\x00\x00\x00\x00\x00\
\x00\x00\x00\x00\x00\x00\x00\x00\x00\x00\x00\x00\x00\x00\x00\x00\x00\x00\x00\x00\x00\x00\x00\x00\
\x00\x00\x00\x00\x00\x00\x00\x00\x00\x00\x00\x00\x00\x00\x00\x00\x00\x00\x00\x00\x00\x00\x00\x00\
\x00\x00\x00\x00\x00\x00\x00\x00\x00\x00\x00\x00\x00\x00\x00\x00\x00\x00\x00\x00\x00\x00\x00\x00\
\x00\x00\x00\x00\x00\x00\x00\x00\x00\x00\x00\x00\x00\x00\x00\x00\x00\x00\x00\x00\x00\x00\x00\x00\
\x00\x00\x00\x00\x00\x00\x00\x00\x00\x00\x00\x00\x00\x00\x00\x00\x00\x00\x00\x00\x00\x00\x00\x00\
\x00\x00\x00\x00\x00\x00\x00\x00\x00\x00\x00\x00\x00\x00\x00\x00\x00\x00\x00\x00\x00\x00\x00\x00\
\x00\x00\x00\x00\x00\x00\x00\x00\x00\x00\x00\x00\x00\x00\x00\x00\x00\x00\x00\x00\x00\x00\x00\x00\
\x00\x00\x00\x00\x00\x00\x00\x00\x10\x00\x00\x00\x01\x00\x00\x00\x08\x40\x00\x00\x01\x00\x00\x00\
\x05\x00\x00\x00\x00\x00\x00\x00\x00\x00\x00\x00\x00\x00\x00\x00\xf8\xff\xff\xff\x00\x00\x00\x00\
\xff\xff\xff\xff\xff\xff\xff\xff\x00\x00\x00\x00\x00\x00\x00\x80\x00\x00\x00\x00\x01\x00\x00\x00";

const IMAGE_SIZE: usize = 704;

const REBASES_AT: usize = 576;

const BINDS_AT: usize = 640;

// Where the sizes of the tables stand in the command.
const REBASE_SIZE_AT: usize = 260;

const BIND_SIZE_AT: usize = 268;

fn rows() -> &'static [Row] {
    &[
        (
            "1122005200000000",
            "",
            "",
            "4294983680 r16 4294983688 r16392",
        ),
        (
            "",
            "5111405f707574730060800272009000",
            "",
            "4294983680 b_puts,1,256,0",
        ),
        ("12", "", "", "x576"),
        (
            "1122005200000000",
            "5111405f70757473006080027220909000",
            "",
            "4294983680 r16 4294983688 r16392 4294983712 b_puts,1,256,0 4294983720 b_puts,1,256,0",
        ),
        ("", "", "", ""),
        ("1122003008412151", "", "", ""),
        ("11220041510030104151", "", "", "4294983688 r16392"),
        ("1122005f5251", "", "", "x580"),
        ("11220051220051", "", "", "x582"),
        (
            "1122005122f8ffffffffffffffff0130084151",
            "",
            "",
            "4294983680 r16 4294983688 r16392",
        ),
        (
            "1122f8ffffffffffffffff015151",
            "",
            "",
            "4294983672 r18446744069414584320 4294983680 r16",
        ),
        ("11200051", "", "", "x579"),
        ("11230051", "", "", "x577"),
        ("1151", "", "", "x577"),
        ("1150", "", "", ""),
        ("11227951", "", "", "x579"),
        ("11227851", "", "", "4294983800 r18446744069414584320"),
        ("11227852", "", "", "x579"),
        ("11212051", "", "", "4294967328 r304942678041"),
        ("1122", "", "", "x577"),
        ("112280", "", "", "x577"),
        ("1122ffffffffffffffffff7f51", "", "", "x577"),
        ("1122808080808080808080800051", "", "", "x577"),
        ("01", "", "", "x576"),
        ("60", "", "", "x576"),
        ("f0", "", "", "x576"),
        ("1000", "", "", "x576"),
        ("", "5113405f61002200", "", ""),
        ("", "51405f6100720090", "", "x647"),
        ("", "5111720090", "", "x644"),
        ("", "5111405f61", "", "x642"),
        (
            "",
            "51114000720090404100720890",
            "",
            "4294983680 b,1,0,0 4294983688 bA,1,0,0",
        ),
        (
            "",
            "51203d415f62007200903d7208903e72109010721890",
            "",
            "4294983680 b_b,61,0,1 4294983688 b_b,-3,0,1 4294983696 b_b,-2,0,1 4294983704 b_b,0,0,1",
        ),
        (
            "",
            "5120ffffffff07415f620072009000",
            "",
            "4294983680 b_b,2147483647,0,1",
        ),
        ("", "51208080808008415f620072009000", "", "x641"),
        ("", "513f", "", "x641"),
        ("", "5130", "", "x641"),
        ("", "52", "", "x640"),
        ("", "50", "", "x640"),
        ("", "a0", "", "x640"),
        ("", "02", "", "x640"),
        (
            "",
            "511f4f5f62006041720090607f72089060c00072109060bf7f721890",
            "",
            "4294983680 b_b,15,-63,1 4294983688 b_b,15,-1,1 4294983696 b_b,15,64,1 4294983704 b_b,15,-65,1",
        ),
        (
            "",
            "5111405f620060ffffffffffffffffff00720090608080808080808080807f720890",
            "",
            "4294983680 b_b,1,9223372036854775807,0 4294983688 b_b,1,-9223372036854775808,0",
        ),
        ("", "5111405f62006080808080808080808001720090", "", "x646"),
        (
            "",
            "5111405f62006080808080808080808000720090",
            "",
            "4294983680 b_b,1,0,0",
        ),
        ("", "5111405f620060ff", "", "x646"),
        ("", "5111405f6200720080900000000000000000000190", "", ""),
        (
            "",
            "5111405f6200720080f8ffffffffffffffff0190",
            "",
            "4294983672 b_b,1,0,0",
        ),
        (
            "",
            "5111405f620072089080f0ffffffffffffffff01909090",
            "",
            "x661",
        ),
        ("112200510000", "5111405f620072009000", "", "x648"),
        (
            "112200510000",
            "5111405f620072089000",
            "",
            "4294983680 r16 4294983688 b_b,1,0,0",
        ),
        ("1122005100", "", "252=2f000000", "x0"),
        ("1122005100", "", "248=21000080", ""),
        ("1122005100", "", "20=ffff0000", "4294983680 r16"),
        ("1122005100", "", "20=07010000", "x0"),
        ("1122005100", "", "256=00030000", "x0"),
        ("1122005100", "", "260=c1000000", "x0"),
        ("1122005100", "", "260=c0000000", "x0"),
        ("1122005100", "", "264=01030000", "x0"),
        ("1122005100", "", "264=00030000", "x0"),
        ("1122005100", "", "256=ffffffffffffffff", "x0"),
        ("12", "", "264=01030000", "x576"),
        ("1122005100", "", "180=08000000", "x0"),
        ("1122005151", "", "208=0c", "x580"),
        ("1122005100", "", "236=00", "x579"),
    ]
}

fn write_digits(bytes: &mut [u8], place: usize, digits: &str) {
    for (i, digit) in digits.chars().enumerate() {
        if let Some(byte) = bytes.get_mut(place.saturating_add(i / 2)) {
            *byte = *byte << 4 | digit.to_digit(16).unwrap_or(0) as u8;
        }
    }
}

// Writes bytes at their places, as `36=0c00 508=1c` says: two hexadecimal digits a byte.
fn edit(bytes: &mut [u8], edits: &str) {
    for text in edits.split_whitespace() {
        if let Some((place, digits)) = text.split_once('=') {
            write_digits(bytes, place.parse().unwrap_or(usize::MAX), digits);
        }
    }
}

fn put(image: &mut [u8], at: usize, size_at: usize, table: &str) {
    write_digits(image, at, table);
    if let Some(size) = image.get_mut(size_at) {
        *size = u8::try_from(table.len() / 2).unwrap_or(0);
    }
}

fn image_of(alloc: Global, row: Row) -> Result<Vec<u8>, AllocError> {
    let (rebases, binds, edits, _) = row;
    let mut image = Vec::from_slice(alloc, HEAD)?;
    image.resize(IMAGE_SIZE, 0)?;
    put(&mut image, REBASES_AT, REBASE_SIZE_AT, rebases);
    put(&mut image, BINDS_AT, BIND_SIZE_AT, binds);
    edit(&mut image, edits);
    Ok(image)
}

fn told(alloc: Global, fixup: &OpFixup) -> Result<Vec<u8>, AllocError> {
    let address = fixup.address;
    let mut out = Vec::new(alloc);
    match &fixup.act {
        OpAct::Rebase { offset } => {
            let offset = *offset;
            let text = format!(in alloc; "{address} r{offset}")?;
            out.extend_from_slice(text.as_bytes())?;
        }
        OpAct::Bind {
            name,
            ordinal,
            addend,
            optional,
        } => {
            let (ordinal, addend) = (*ordinal, *addend);
            let mark = u8::from(*optional);
            let before = format!(in alloc; "{address} b")?;
            let after = format!(in alloc; ",{ordinal},{addend},{mark}")?;
            out.extend_from_slice(before.as_bytes())?;
            out.extend_from_slice(name.as_slice())?;
            out.extend_from_slice(after.as_bytes())?;
        }
    }
    Ok(out)
}

fn list_told(alloc: Global, fixups: &[OpFixup]) -> Result<Vec<u8>, AllocError> {
    let mut out = Vec::new(alloc);
    for fixup in fixups {
        if !out.is_empty() {
            out.push(b' ')?;
        }
        let text = told(alloc, fixup)?;
        out.extend_from_slice(&text)?;
    }
    Ok(out)
}

fn fixed(alloc: Global, image: &[u8]) -> Result<Vec<u8>, Fail> {
    match run_ops(alloc, image) {
        Ok(fixups) => Ok(list_told(alloc, fixups.as_slice())?),
        Err(OpsFault::Broken { place }) => {
            let text = format!(in alloc; "x{place}")?;
            Ok(Vec::from_slice(alloc, text.as_bytes())?)
        }
        Err(OpsFault::OutOfMemory) => Err(Fail::from("out of memory")),
    }
}

// The first row that isn't told so.
fn wrong_row(alloc: Global) -> Result<Option<&'static Row>, Fail> {
    for row in rows() {
        let image = image_of(alloc, *row)?;
        let text = fixed(alloc, &image)?;
        if text.as_slice() != row.3.as_bytes() {
            return Ok(Some(row));
        }
    }
    Ok(None)
}

#[test]
fn tables_are_run(rt: HostRuntime) -> Result<(), Fail> {
    let alloc = rt.alloc();
    if let Some(row) = wrong_row(alloc)? {
        let (rebases, binds, edits, want) = *row;
        assert!(rt; false, "{rebases} {binds} {edits}: not {want}");
    }
    Ok(())
}
