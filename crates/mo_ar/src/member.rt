//! The members of an archive and their headers (`ar.h`: `ar_hdr`).

ghost use Rattle.std.specs.Prelude.{◌≡◌, ◌+◌, ◌^◌, ◌≤◌, ◌<◌, true, length, IfOk, IfSome};
ghost use Rattle.mo_ar.specs.Member as members;
ghost use Rattle.mo_ar.specs.inner.Tables.{IsWithin};
ghost use Rattle.mo_ar.specs.Text as texts;

use crate::text::{decimal, trimmed_len};
use mo_types::{Bytes, Items, OutOfMemory};

/// A member of an archive: its name, and where its data begin in the archive and their size, both in bytes.
#[derive(Debug, Drop, PartialEq, Eq)]
pub struct Member {
    pub name: Bytes,
    pub from: u64,
    pub size: u64,
}

/// Members in the order of their headers.
pub type MemberList = Items<Member>;

// The bytes of `ar_hdr`, and where its fields stand.
const HEADER_SIZE: usize = 60;

const AR_NAME_SIZE: usize = 16;

const AR_SIZE_AT: usize = 48;

const AR_SIZE_SIZE: usize = 10;

const AR_FMAG_AT: usize = 58;

// `ar.h`.
const ARFMAG: &[u8] = b"`\n";

const AR_EFMT1: &[u8] = b"#1/";

fn is_header(bytes: &[u8], at: usize) -> bool
    ensures exact { result ≡ members.is_header bytes.now at }
    ensures within { result ≡ true → at + 60 ≤ length bytes.now }
{
    at <= bytes.len()
        && bytes.len() - at >= HEADER_SIZE
        && &bytes[at + AR_FMAG_AT..at + HEADER_SIZE] == ARFMAG
}

#[tactic(auto, unfolding(crate::specs::Member::size_at))]
fn size_at(bytes: &[u8], at: usize) -> Option<u64>
    requires { at + 60 ≤ length bytes.now }
    ensures exact { result ≡ members.size_at bytes.now at }
    ensures few { IfSome result (λ n. n < 10 ^ 16) }
{
    let field = &bytes[at + AR_SIZE_AT..at + AR_SIZE_AT + AR_SIZE_SIZE];
    decimal(&field[..trimmed_len(field, b' ')])
}

#[tactic(auto, unfolding(crate::specs::Member::long_name))]
fn long_name(name: &[u8]) -> Option<u64>
    requires { length name.now ≤ 16 }
    ensures exact { result ≡ members.long_name name.now }
    ensures few { IfSome result (λ n. n < 10 ^ 16) }
{
    match name {
        [b'#', b'1', b'/', digits @ ..] => decimal(digits),
        _ => None,
    }
}

// A text without its padding, as a part of the file.
#[tactic(auto, using(crate::proofs::TextLemmas::parts))]
fn name_of(bytes: &Bytes, at: usize, size: usize, padding: u8) -> Result<Bytes, OutOfMemory>
    requires { at + size ≤ length bytes.now }
    ensures { IfOk result (λ name. name ≡ texts.trimmed padding (texts.part bytes.now at size)) }
{
    let text = &bytes.as_slice()[at..at + size];
    let name = bytes.part(at, trimmed_len(text, padding))?;
    Ok(name)
}

#[tactic(auto, unfolding(crate::specs::Member::name_at))]
fn long_name_at(bytes: &[u8], at: usize) -> Option<u64>
    requires { at + 60 ≤ length bytes.now }
    ensures exact { result ≡ members.long_name (members.name_at bytes.now at) }
    ensures few { IfSome result (λ n. n < 10 ^ 16) }
{
    let field = &bytes[at..at + AR_NAME_SIZE];
    long_name(&field[..trimmed_len(field, b' ')])
}

#[tactic(auto, unfolding(crate::specs::Member::name_at))]
fn named(
    bytes: &Bytes,
    at: usize,
    size: usize,
    long: Option<u64>,
) -> Result<Option<Member>, OutOfMemory>
    requires within { at + 60 + size ≤ length bytes.now }
    requires small { at + 60 + size < 2 ^ 63 }
    ensures exact { IfOk result (λ member. member ≡ members.named bytes.now at size long) }
    ensures within { IfOk result (λ member. IfSome member (IsWithin (length bytes.now) at)) }
    ensures few { IfOk result (λ member. IfSome member (λ found. found.from + found.size < 2 ^ 63)) }
{
    let Some(long) = long else {
        return Ok(Some(Member {
            name: name_of(bytes, at, AR_NAME_SIZE, b' ')?,
            from: (at + HEADER_SIZE) as u64,
            size: size as u64,
        }));
    };
    if long > size as u64 {
        return Ok(None);
    }
    let long = long as usize;
    Ok(Some(Member {
        name: name_of(bytes, at + HEADER_SIZE, long, 0)?,
        from: (at + HEADER_SIZE + long) as u64,
        size: (size - long) as u64,
    }))
}

/// The member whose header stands at a place, or `None` where no header stands there or its data aren't within
/// the file.
#[tactic(auto, unfolding(crate::specs::Member::member_at))]
pub fn member_at(bytes: &Bytes, at: usize) -> Result<Option<Member>, OutOfMemory>
    ensures exact { IfOk result (λ member. member ≡ members.member_at bytes.now at) }
    ensures within { IfOk result (λ member. IfSome member (IsWithin (length bytes.now) at)) }
    ensures small { IfOk result (λ member. IfSome member (λ found. found.from + found.size < 2 ^ 63)) }
{
    let data = bytes.as_slice();
    if !is_header(data, at) {
        return Ok(None);
    }
    let Some(size) = size_at(data, at) else {
        return Ok(None);
    };
    if ((data.len() - at - HEADER_SIZE) as u64) < size {
        return Ok(None);
    }
    named(bytes, at, size as usize, long_name_at(data, at))
}

/// Where the header after a member's stands.
pub fn next_of(member: &Member) -> usize
    requires { member.now.from + member.now.size < 2 ^ 63 }
    ensures { result ≡ members.next_of member.now }
{
    let end = (member.from + member.size) as usize;
    end + end % 2
}
