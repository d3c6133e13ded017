//! Archives of many members and many offers.
use super::read;
use mo_ar::{Archive, OfferList};
use mo_types::{ObjFault, OutOfMemory, Which};
use std::alloc::Global;

const MEMBERS: u32 = 50_000;

const OFFERS: u32 = 500_000;

// A number in ten decimal digits.
fn put_decimal(out: &mut Vec<u8>, number: u32) -> Result<(), OutOfMemory> {
    let mut digits = [b'0'; 10];
    let mut rest = number;
    for i in 0..10 {
        digits[9 - i] = b'0' + (rest % 10) as u8;
        rest /= 10;
    }
    Ok(out.extend_from_slice(&digits)?)
}

// A header of 60 bytes.
fn put_header(out: &mut Vec<u8>, name: &[u8; 16], size: u32) -> Result<(), OutOfMemory> {
    out.extend_from_slice(name)?;
    out.extend_from_slice(b"0           0     0     644     ")?;
    put_decimal(out, size)?;
    Ok(out.extend_from_slice(b"`\n")?)
}

// Members of 4 bytes each.
fn put_members(out: &mut Vec<u8>, count: u32) -> Result<(), OutOfMemory> {
    for _i in 0..count {
        put_header(out, b"member.o        ", 4)?;
        out.extend_from_slice(b"data")?;
    }
    Ok(())
}

// A table that gives each name to the member of the next number, and begins again after the last one.
fn put_table(out: &mut Vec<u8>) -> Result<(), OutOfMemory> {
    let first = 8 + 60 + 4 + 8 * OFFERS + 4 + 12 * OFFERS;
    put_header(out, b"__.SYMDEF SORTED", 8 + 20 * OFFERS)?;
    out.extend_from_slice(&(8 * OFFERS).to_le_bytes())?;
    for i in 0..OFFERS {
        out.extend_from_slice(&(12 * i).to_le_bytes())?;
        out.extend_from_slice(&(first + 64 * (i % MEMBERS)).to_le_bytes())?;
    }
    out.extend_from_slice(&(12 * OFFERS).to_le_bytes())?;
    for i in 0..OFFERS {
        out.push(b'_')?;
        put_decimal(out, i)?;
        out.push(0)?;
    }
    Ok(())
}

fn large(alloc: Global) -> Result<Vec<u8>, OutOfMemory> {
    let mut out = Vec::from_slice(alloc, b"!<arch>\n")?;
    put_table(&mut out)?;
    put_members(&mut out, MEMBERS)?;
    Ok(out)
}

fn of_members(alloc: Global, count: u32) -> Result<Vec<u8>, OutOfMemory> {
    let mut out = Vec::from_slice(alloc, b"!<arch>\n")?;
    put_members(&mut out, count)?;
    Ok(out)
}

// Whether each name is found again, as that of the member that the table gives it to.
fn finds_each(offers: &OfferList) -> bool {
    for i in 0..offers.len() {
        let Some((name, member)) = offers.get(i) else {
            return false;
        };
        if member as usize != i % MEMBERS as usize + 1 {
            return false;
        }
        if offers.first_offer(name) != Some(member) {
            return false;
        }
    }
    true
}

fn is_large(archive: &Archive) -> bool {
    archive.members.len() == MEMBERS as usize
        && archive.offers.len() == OFFERS as usize
        && finds_each(&archive.offers)
        && archive.offers.first_offer(b"_0000500000").is_none()
}

/// Whether an archive of many members and offers is read.
pub fn many_members(alloc: Global) -> Result<bool, ObjFault> {
    let archive = read(alloc, large(alloc)?)?;
    Ok(is_large(&archive))
}

/// Whether as many members are read as there may be, and not one more.
pub fn members_are_limited(alloc: Global) -> Result<bool, ObjFault> {
    let most = read(alloc, of_members(alloc, 0xf_ffff)?)?.members.len();
    let fault = read(alloc, of_members(alloc, 0x10_0000)?).err();
    Ok(most == 0xf_ffff && fault == Some(ObjFault::Limit(Which::Members)))
}

// A table whose pairs name these strings, each of one member.
fn with_names(alloc: Global, names: &[u32], strings: &[u8]) -> Result<Vec<u8>, OutOfMemory> {
    let (Ok(count), Ok(size)) = (u32::try_from(names.len()), u32::try_from(strings.len())) else {
        return Err(OutOfMemory);
    };
    let pad = size % 2;
    let (pairs, size) = (count.wrapping_mul(8), size.wrapping_add(pad));
    let contents = pairs.wrapping_add(size).wrapping_add(8);
    let first = contents.wrapping_add(68);
    let mut out = Vec::from_slice(alloc, b"!<arch>\n")?;
    put_header(&mut out, b"__.SYMDEF       ", contents)?;
    out.extend_from_slice(&pairs.to_le_bytes())?;
    for name in names {
        out.extend_from_slice(&name.to_le_bytes())?;
        out.extend_from_slice(&first.to_le_bytes())?;
    }
    out.extend_from_slice(&size.to_le_bytes())?;
    out.extend_from_slice(strings)?;
    out.extend_from_slice(&b"\0"[..pad as usize])?;
    put_members(&mut out, 1)?;
    Ok(out)
}

// The offers of so many names, which stand so many bytes apart.
fn offers_of(alloc: Global, count: u32, apart: u32, strings: &[u8]) -> Result<OfferList, ObjFault> {
    let mut names = Vec::with_capacity(alloc, count as usize)?;
    for i in 0..count {
        names.push(apart.wrapping_mul(i))?;
    }
    Ok(read(alloc, with_names(alloc, names.as_slice(), strings)?)?.offers)
}

// Names of 1,042 bytes, which differ in the last 10 bytes alone.
fn long_names(alloc: Global, count: u32) -> Result<Vec<u8>, OutOfMemory> {
    let mut out = Vec::new(alloc);
    for i in 0..count {
        for _j in 0..129 {
            out.extend_from_slice(b"in front")?;
        }
        put_decimal(&mut out, i)?;
        out.extend_from_slice(b"\0")?;
    }
    Ok(out)
}

const ENDS: u32 = 400_000;

// Whether a name and some of its ends are offered.
fn finds_ends(offers: &OfferList, name: &[u8]) -> bool {
    for i in 0..100usize {
        let Some(end) = name.get(3_999 * i..) else {
            return false;
        };
        if offers.first_offer(end) != Some(1) {
            return false;
        }
    }
    true
}

// Whether each of the names is offered, and no other that ends so.
fn finds_all(offers: &OfferList, names: &[u8]) -> bool {
    for chunk in names.chunks(1_043) {
        let Some((_, name)) = chunk.split_last() else {
            return false;
        };
        let Some((_, end)) = name.split_first() else {
            return false;
        };
        if offers.first_offer(name) != Some(1) || offers.first_offer(end).is_some() {
            return false;
        }
    }
    true
}

// One long name for all pairs.
fn one_name_is_offered(alloc: Global, name: &[u8], strings: &[u8]) -> Result<bool, ObjFault> {
    let same = offers_of(alloc, ENDS, 0, strings)?;
    Ok(
        same.len() == ENDS as usize
            && same.first_offer(name) == Some(1)
            && same.first_offer(b"aa").is_none(),
    )
}

// All ends of it.
fn ends_are_offered(alloc: Global, name: &[u8], strings: &[u8]) -> Result<bool, ObjFault> {
    let ends = offers_of(alloc, ENDS, 1, strings)?;
    Ok(
        finds_ends(&ends, name)
            && ends.first_offer(b"").is_none()
            && ends.first_offer(b"b").is_none(),
    )
}

/// Whether one long name for all pairs, and all ends of it, are found.
pub fn one_long_name(alloc: Global) -> Result<bool, ObjFault> {
    let mut long = vec![in alloc; b'a'; ENDS as usize]?;
    long.push(0)?;
    let strings = long.as_slice();
    let name = strings.get(..ENDS as usize).unwrap_or(b"");
    Ok(one_name_is_offered(alloc, name, strings)? && ends_are_offered(alloc, name, strings)?)
}

/// Whether equally long names that begin with the same 1,032 bytes are told apart.
pub fn long_names_are_told_apart(alloc: Global) -> Result<bool, ObjFault> {
    let names = long_names(alloc, 20_000)?;
    let offers = offers_of(alloc, 20_000, 1_043, names.as_slice())?;
    Ok(finds_all(&offers, names.as_slice()))
}
