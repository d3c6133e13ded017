//! Fields against the words of an assembler, and atoms against images that were put together by hand.

use crate::listed::{Listed, one_each};
use mo_types::{
    AtomKey, Bytes, Loaded, LoadedList, Object, OutOfMemory, RangeKind, RefKind, SymbolList,
};
use patch::{Met, PatchFault, PlacedWork, RangeFault, patch_atom, patch_range};
use std::alloc::Global;
use std::test::Fail;
use test_objects::{atom, file, file_id, key, object_of, section};
use test_work::{are_work, fields_are_in_order};

// ---- one field

const ADDRESS: u64 = 0x1_0000_4000;

// A kind, what the field held, the value, what is subtracted, the addend, and what the field holds then.
type Row = (RefKind, u64, u64, u64, i64, Result<u64, (RangeKind, i128)>);

// The field of 8 bytes at an address, after it was patched.
fn patched(row: &Row) -> Option<Result<u64, RangeFault>> {
    let mets = [Met {
        place: 0,
        file_place: 0x1d8,
        kind: row.0,
        value: row.2,
        minus: row.3,
        addend: row.4,
    }];
    let mut bytes = row.1.to_le_bytes();
    if !fields_are_in_order(ADDRESS, 8, &mets) {
        return None;
    }
    Some(match patch_atom(&mut bytes, ADDRESS, &mets) {
        Ok(()) => Ok(u64::from_le_bytes(bytes)),
        Err(fault) => Err(fault),
    })
}

fn is_as_wanted(row: &Row) -> bool {
    let want = match row.5 {
        Ok(field) => Ok(field),
        Err((kind, value)) => Err(RangeFault {
            file_place: 0x1d8,
            kind,
            value,
        }),
    };
    patched(row) == Some(want)
}

// Each kind at both ends of its range and one past. Words are what llvm-mc makes of `bl`, `b` and `adrp`.
static FIELDS: [Row; 46] = [
    (
        RefKind::Branch,
        0x94000000,
        ADDRESS + 0x7fffffc,
        0,
        0,
        Ok(0x95ffffff),
    ),
    (
        RefKind::Branch,
        0x94000000,
        ADDRESS + 0x8000000,
        0,
        0,
        Err((RangeKind::Branch, 134217728)),
    ),
    (
        RefKind::Branch,
        0x94000000,
        ADDRESS - 0x8000000,
        0,
        0,
        Ok(0x96000000),
    ),
    (
        RefKind::Branch,
        0x94000000,
        ADDRESS - 0x8000004,
        0,
        0,
        Err((RangeKind::Branch, -134217732)),
    ),
    (
        RefKind::Branch,
        0x94000000,
        ADDRESS + 2,
        0,
        0,
        Err((RangeKind::Branch, 2)),
    ),
    (
        RefKind::Branch,
        0x94000000,
        ADDRESS - 4,
        0,
        8,
        Ok(0x94000001),
    ),
    (
        RefKind::Branch,
        0xaaaa_aaaa_95ff_ffff,
        ADDRESS,
        0,
        0,
        Ok(0xaaaa_aaaa_9400_0000),
    ),
    (
        RefKind::Branch,
        0x14000000,
        ADDRESS + 0x7fffffc,
        0,
        0,
        Ok(0x15ffffff),
    ),
    (
        RefKind::Branch,
        0x94000000,
        u64::MAX,
        0,
        1,
        Err((RangeKind::Branch, 1 << 64)),
    ),
    (
        RefKind::Branch,
        0x94000000,
        0,
        0,
        -1,
        Err((RangeKind::Branch, -1)),
    ),
    (
        RefKind::Branch,
        0x94000000,
        u64::MAX,
        0,
        0,
        Err((RangeKind::Branch, 0xffff_fffe_ffff_bfff)),
    ),
    (
        RefKind::Page,
        0x90000000,
        0x1_0000_5fff,
        0,
        0,
        Ok(0xb0000000),
    ),
    (
        RefKind::Page,
        0x90000000,
        0x1_0000_4ff8,
        0,
        8,
        Ok(0xb0000000),
    ),
    (
        RefKind::Page,
        0x90000000,
        0x1_0000_4ff8,
        0,
        7,
        Ok(0x90000000),
    ),
    (
        RefKind::Page,
        0x90000000,
        0x2_0000_3fff,
        0,
        0,
        Ok(0xf07fffe0),
    ),
    (
        RefKind::Page,
        0x90000000,
        0x2_0000_4000,
        0,
        0,
        Err((RangeKind::Page, 1048576)),
    ),
    (RefKind::Page, 0x90000000, 0x4000, 0, 0, Ok(0x90800000)),
    (
        RefKind::Page,
        0x90000000,
        0x3fff,
        0,
        0,
        Err((RangeKind::Page, -1048577)),
    ),
    (
        RefKind::Page,
        0x90000000,
        u64::MAX,
        0,
        1,
        Err((RangeKind::Page, 1 << 64)),
    ),
    (
        RefKind::Page,
        0x90000000,
        8,
        0,
        -9,
        Err((RangeKind::Page, -1)),
    ),
    (
        RefKind::GotPage,
        0xf07fffe0,
        0x1_0000_5000,
        0,
        0,
        Ok(0xb0000000),
    ),
    (
        RefKind::GotPage,
        0x90000000,
        0x2_0000_4000,
        0,
        0,
        Err((RangeKind::Page, 1048576)),
    ),
    (
        RefKind::TlvPage,
        0x90000000,
        0x1_0000_7000,
        0,
        0,
        Ok(0xf0000000),
    ),
    (
        RefKind::TlvPage,
        0x90000000,
        0x2_0000_4000,
        0,
        0,
        Err((RangeKind::Page, 1048576)),
    ),
    // addend_before_page_offset
    (
        RefKind::PageOff,
        0x3dc00000,
        0x1_0000_4030,
        0,
        16,
        Ok(0x3dc01000),
    ),
    (
        RefKind::PageOff,
        0x3dc00000,
        0x1_0000_4038,
        0,
        16,
        Err((RangeKind::LowBits, 0x48)),
    ),
    (RefKind::PageOff, 0x91000020, 0, 0, -16, Ok(0x913fc020)),
    (
        RefKind::GotPageOff,
        0xf9400020,
        0x1_0000_4028,
        0,
        0,
        Ok(0xf9401420),
    ),
    (
        RefKind::GotPageOff,
        0xf9400020,
        0x1_0000_402c,
        0,
        0,
        Err((RangeKind::LowBits, 0x2c)),
    ),
    (
        RefKind::TlvPageOff,
        0x91000020,
        0x1_0000_4030,
        0,
        0,
        Ok(0x9100c020),
    ),
    (
        RefKind::TlvPageOff,
        0xf9400020,
        0x1_0000_4001,
        0,
        0,
        Err((RangeKind::LowBits, 1)),
    ),
    (
        RefKind::Pointer,
        0xffff,
        ADDRESS,
        0,
        -0x4000,
        Ok(0x1_0000_0000),
    ),
    (RefKind::Pointer, 0, u64::MAX, 0, 2, Ok(1)),
    (RefKind::Pointer, 0, 0, 0, -1, Ok(u64::MAX)),
    (
        RefKind::GotPointer,
        0,
        0x8000_0000_0000_0001,
        0,
        i64::MIN,
        Ok(1),
    ),
    (RefKind::Diff64, 0, 8, 16, 4, Ok(0xffff_ffff_ffff_fffc)),
    (
        RefKind::Diff64,
        7,
        u64::MAX,
        0,
        i64::MAX,
        Ok(0x7fff_ffff_ffff_fffe),
    ),
    (
        RefKind::Diff32,
        0,
        0x1_7fff_ffff,
        0x1_0000_0000,
        0,
        Ok(0x7fff_ffff),
    ),
    (
        RefKind::Diff32,
        0,
        0x1_7fff_ffff,
        0x1_0000_0000,
        1,
        Err((RangeKind::Diff32, 0x8000_0000)),
    ),
    (
        RefKind::Diff32,
        0,
        0x8000_0000,
        0x1_0000_0000,
        0,
        Ok(0x8000_0000),
    ),
    (
        RefKind::Diff32,
        0,
        0x8000_0000,
        0x1_0000_0000,
        -1,
        Err((RangeKind::Diff32, -0x8000_0001)),
    ),
    (
        RefKind::Diff32,
        0,
        u64::MAX,
        0,
        i64::MAX,
        Err((RangeKind::Diff32, 0x1_7fff_ffff_ffff_fffe)),
    ),
    (
        RefKind::GotDelta,
        0,
        ADDRESS + 0x7fff_ffff,
        0,
        0,
        Ok(0x7fff_ffff),
    ),
    (
        RefKind::GotDelta,
        0,
        ADDRESS + 0x8000_0000,
        0,
        0,
        Err((RangeKind::GotDelta, 0x8000_0000)),
    ),
    (
        RefKind::GotDelta,
        0,
        ADDRESS - 0x8000_0000,
        0,
        0,
        Ok(0x8000_0000),
    ),
    (
        RefKind::GotDelta,
        0,
        ADDRESS - 0x8000_0001,
        0,
        0,
        Err((RangeKind::GotDelta, -0x8000_0001)),
    ),
];

// A word, the bytes that it loads or stores at once, and the same word with the greatest offset in a page, as
// llvm-mc makes both.
const ACCESSES: [(u64, u64, u64); 26] = [
    // add x, add w
    (0x91000020, 1, 0x913ffc20),
    (0x11000020, 1, 0x113ffc20),
    // ldrb, strb, ldrsb x, ldrsb w, ldr b, str b
    (0x39400020, 1, 0x397ffc20),
    (0x39000020, 1, 0x393ffc20),
    (0x39800020, 1, 0x39bffc20),
    (0x39c00020, 1, 0x39fffc20),
    (0x3d400020, 1, 0x3d7ffc20),
    (0x3d000020, 1, 0x3d3ffc20),
    // ldrh, strh, ldrsh x, ldrsh w, ldr h, str h
    (0x79400020, 2, 0x795ffc20),
    (0x79000020, 2, 0x791ffc20),
    (0x79800020, 2, 0x799ffc20),
    (0x79c00020, 2, 0x79dffc20),
    (0x7d400020, 2, 0x7d5ffc20),
    (0x7d000020, 2, 0x7d1ffc20),
    // ldr w, str w, ldrsw, ldr s, str s
    (0xb9400020, 4, 0xb94ffc20),
    (0xb9000020, 4, 0xb90ffc20),
    (0xb9800020, 4, 0xb98ffc20),
    (0xbd400020, 4, 0xbd4ffc20),
    (0xbd000020, 4, 0xbd0ffc20),
    // ldr x, str x, ldr d, str d, prfm
    (0xf9400020, 8, 0xf947fc20),
    (0xf9000020, 8, 0xf907fc20),
    (0xfd400020, 8, 0xfd47fc20),
    (0xfd000020, 8, 0xfd07fc20),
    (0xf9800020, 8, 0xf987fc20),
    // ldr q, str q
    (0x3dc00020, 16, 0x3dc3fc20),
    (0x3d800020, 16, 0x3d83fc20),
];

fn is_scaled(word: u64, step: u64, want: u64) -> bool {
    if step == 0 || step > 16 {
        return false;
    }
    let low = 0x1000 - step;
    let past = Err((RangeKind::LowBits, i128::from(low) + 1));
    is_as_wanted(&(RefKind::PageOff, word, ADDRESS + low, 0, 0, Ok(want)))
        && (step == 1 || is_as_wanted(&(RefKind::PageOff, word, ADDRESS + low, 0, 1, past)))
}

// ---- several fields

fn met(place: u64, kind: RefKind, value: u64) -> Met {
    Met {
        place,
        file_place: place.wrapping_add(0x200),
        kind,
        value,
        minus: 0,
        addend: 0,
    }
}

// Of several faults that at the least place is told, and nothing is written.
fn least_is_told(mets: &[Met]) -> bool {
    let mut bytes = [0x94; 32];
    if !fields_are_in_order(ADDRESS, 32, mets) {
        return false;
    }
    let fault = RangeFault {
        file_place: 0x208,
        kind: RangeKind::Branch,
        value: 0x800_0000,
    };
    patch_atom(&mut bytes, ADDRESS, mets) == Err(fault) && bytes == [0x94; 32]
}

// The same references by rising and by falling place.
fn least_place_is_told() -> bool {
    let fits = met(4, RefKind::Branch, ADDRESS + 8);
    let first = met(8, RefKind::Branch, ADDRESS + 0x800_0008);
    let second = met(12, RefKind::Diff32, 0x8000_0001);
    let pointer = met(20, RefKind::Pointer, 1);
    let third = met(28, RefKind::Diff32, 0x8000_0000);
    least_is_told(&[fits, first, second, pointer, third])
        && least_is_told(&[third, pointer, second, first, fits])
}

// A few thousand fields, the last one first.
fn many_fields(alloc: Global) -> Result<Vec<Met>, OutOfMemory> {
    let mut mets = Vec::new(alloc);
    for i in 0..3000u64 {
        mets.push(met(4 * (2999 - i), RefKind::Diff32, i))?;
    }
    Ok(mets)
}

fn are_written(bytes: &mut [u8], mets: &[Met]) -> bool {
    if !fields_are_in_order(ADDRESS, bytes.len(), mets) {
        return false;
    }
    let is_done = patch_atom(bytes, ADDRESS, mets) == Ok(());
    is_done
        && bytes.get(0..4) == Some([0xb7, 0x0b, 0, 0].as_slice())
        && bytes.get(11996..12000) == Some([0, 0, 0, 0].as_slice())
}

fn thousands_are_written(alloc: Global) -> Result<bool, OutOfMemory> {
    let mets = many_fields(alloc)?;
    let mut bytes = vec![in alloc; 0xff; 12_000]?;
    Ok(are_written(bytes.as_mut_slice(), mets.as_slice()))
}

// ---- atoms in a piece of an image

// An object of one section of code.
pub(crate) fn object(alloc: Global, bytes: Bytes) -> Result<Object, OutOfMemory> {
    let section = section(alloc, b"__TEXT", b"__text", 0, 2, bytes);
    object_of(alloc, section, SymbolList::new(alloc))
}

// Two files, of which the second has these contents.
fn loaded(alloc: Global, contents: &[u8]) -> Result<Loaded, OutOfMemory> {
    let mut files = LoadedList::new(alloc);
    for position in 0..2 {
        let bytes = if position == 0 {
            Bytes::from_static(b"\x1f\x20\x03\xd5")
        } else {
            Bytes::from_slice(alloc, contents)?
        };
        files.push(file(alloc, file_id(position), object(alloc, bytes)?))?;
    }
    Ok(Loaded { files })
}

// An atom of 4 bytes, which stands at a place of an image from 2^32 on.
pub(crate) fn work(position: u16, offset: u64, at: u64) -> PlacedWork {
    PlacedWork {
        atom: atom(key(position, 1, offset), 4, 2),
        file: usize::from(position),
        at,
        address: 0x1_0000_0000 + at % 0x1_0000_0000,
    }
}

// Three atoms in a piece of 20 bytes: nop of the first file, and the second file's two words the other way round, each
// with its references.
fn filled(
    alloc: Global,
    mets: [&[Met]; 3],
) -> Result<(Result<(), PatchFault>, [u8; 20]), OutOfMemory> {
    let loaded = loaded(alloc, b"\0\0\0\x94\x01\x02\x03\x14")?;
    let items = [work(0, 0, 0x4004), work(1, 4, 0x4008), work(1, 0, 0x4010)];
    let mut piece = [0xee; 20];
    let listed = Listed {
        from: 0x4000,
        apart: 4,
        rows: &[&[], mets[0], mets[1], &[], mets[2]],
    };
    if !are_work(alloc, &items, loaded.files.as_slice(), &listed, 0x4000, 20)? {
        return Ok((Ok(()), [0; 20]));
    }
    let answer = patch_range(alloc, &mut piece, 0x4000, &items, &loaded, &listed);
    Ok((answer, piece))
}

fn fault(place: u64, value: i128) -> RangeFault {
    RangeFault {
        file_place: place.wrapping_add(0x200),
        kind: RangeKind::Branch,
        value,
    }
}

// The bytes beside the atoms stay.
fn beside_are_kept(piece: &[u8; 20]) -> bool {
    piece[0..4] == [0xee; 4] && piece[12..16] == [0xee; 4]
}

fn atoms_are_filled(alloc: Global) -> Result<bool, OutOfMemory> {
    let number = met(0, RefKind::Diff32, 0x1122_3344);
    let ahead = met(0, RefKind::Branch, 0x1_0000_4010);
    let back = met(0, RefKind::Branch, 0x1_0000_4000);
    let (answer, piece) = filled(alloc, [&[number], &[ahead], &[back]])?;
    let want = b"\xee\xee\xee\xee\x44\x33\x22\x11\x02\0\0\x14\xee\xee\xee\xee\xfc\xff\xff\x97";
    Ok(answer == Ok(()) && piece == *want)
}

// A branch whose target lies 2^27 above it, with the values of the others.
fn fault_with(
    alloc: Global,
    first: u64,
    second: u64,
    key: AtomKey,
    fault: RangeFault,
) -> Result<bool, OutOfMemory> {
    let first = met(0, RefKind::Branch, first);
    let second = met(0, RefKind::Branch, second);
    let far = met(0, RefKind::Branch, 0x1_0800_4010);
    let (answer, piece) = filled(alloc, [&[first], &[second], &[far]])?;
    Ok(answer == Err(PatchFault::Range { atom: key, fault }) && beside_are_kept(&piece))
}

// Of several atoms at fault that of the least key is told, wherever it stands in the image.
fn least_key_is_told(alloc: Global) -> Result<bool, OutOfMemory> {
    let near = 0x1_0000_4000;
    let far = fault(0, 134217728);
    Ok(
        fault_with(alloc, near, near, key(1, 1, 0), far)?
            && fault_with(alloc, near, near + 1, key(1, 1, 0), far)?
            && fault_with(alloc, near + 2, near, key(0, 1, 0), fault(0, -2))?,
    )
}

// Some thousands of atoms, which stand in the image the other way round than in their section.
fn many_words(alloc: Global) -> Result<Vec<u8>, OutOfMemory> {
    let mut contents = Vec::new(alloc);
    for i in 0..3000u64 {
        contents.extend_from_slice(&[(i % 256) as u8, 0, 0, 0x94])?;
    }
    Ok(contents)
}

fn many_branches(alloc: Global) -> Result<Vec<Met>, OutOfMemory> {
    let mut mets = Vec::new(alloc);
    for i in 0..3000u64 {
        mets.push(met(0, RefKind::Branch, 0x1_0000_0000 + 8 * i + 4))?;
    }
    Ok(mets)
}

fn many_works(alloc: Global) -> Result<Vec<PlacedWork>, OutOfMemory> {
    let mut items = Vec::new(alloc);
    for i in 0..3000u64 {
        items.push(work(1, 4 * (2999 - i), 8 * i))?;
    }
    Ok(items)
}

fn are_filled(
    alloc: Global,
    piece: &mut [u8],
    items: &[PlacedWork],
    loaded: &Loaded,
    rows: &[&[Met]],
) -> Result<bool, OutOfMemory> {
    let listed = Listed {
        from: 0,
        apart: 8,
        rows,
    };
    let files = loaded.files.as_slice();
    if !are_work(alloc, items, files, &listed, 0, piece.len())? {
        return Ok(false);
    }
    let is_done = patch_range(alloc, piece, 0, items, loaded, &listed) == Ok(());
    let want = b"\x01\0\0\x94\xee\xee\xee\xee".as_slice();
    Ok(is_done && piece.chunks(8).all(|part| part == want))
}

fn thousands_are_filled(alloc: Global) -> Result<bool, OutOfMemory> {
    let mets = many_branches(alloc)?;
    let rows = one_each(alloc, mets.as_slice())?;
    let items = many_works(alloc)?;
    let loaded = loaded(alloc, many_words(alloc)?.as_slice())?;
    let mut piece = vec![in alloc; 0xee; 24_000]?;
    are_filled(
        alloc,
        piece.as_mut_slice(),
        items.as_slice(),
        &loaded,
        rows.as_slice(),
    )
}

// One field, several fields, and atoms with theirs.
#[test]
fn fields_hold_their_values(rt: HostRuntime) -> Result<(), Fail> {
    let alloc = rt.alloc();
    for (at, row) in FIELDS.iter().enumerate() {
        assert!(rt; is_as_wanted(row), "in row {at}");
    }
    for (word, step, want) in ACCESSES {
        assert!(rt; is_scaled(word, step, want), "{word}");
    }
    assert!(rt; least_place_is_told());
    assert!(rt; thousands_are_written(alloc)?);
    assert!(rt; atoms_are_filled(alloc)?);
    assert!(rt; least_key_is_told(alloc)?);
    assert!(rt; thousands_are_filled(alloc)?);
    Ok(())
}
