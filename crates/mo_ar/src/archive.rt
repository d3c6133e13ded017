//! Archives (ar(5), `ar.h`).

ghost use Rattle.std.specs.Prelude.{◌≡◌, ◌+◌, ◌^◌, ◌≤◌, ◌<◌, length, IfOk, IfSome};
ghost use Rattle.mo_types.specs.Gives.{Gives};
ghost use Rattle.mo_types.specs.Kind as kinds;
ghost use Rattle.mo_types.specs.declared.kind.Kind.TheVariants as kind;
ghost use Rattle.mo_ar.specs.Archive as archives;
ghost use Rattle.mo_ar.specs.Contents as contents;
ghost use Rattle.mo_ar.specs.inner.Tables.{IsRising};
ghost use Rattle.mo_ar.specs.Faults.{IsObjFault};
ghost use Rattle.mo_ar.specs.inner.Tables.{IsSpan};

use crate::chain::walk;
use crate::contents::{FAULT, entries_of, is_contents, is_whole, strings_part};
use crate::member::{Member, MemberList, member_at, next_of};
use crate::offer_list::OfferList;
use crate::places::numbered;
use mo_strings::Strings;
use mo_types::{Bytes, Feature, ObjFault, Rule, Which};
use std::alloc::Global;

/// The members of an archive, numbered from 1 on without its table of contents, and what the table offers.
#[derive(Debug, Drop)]
pub struct Archive {
    pub members: MemberList,
    pub offers: OfferList,
}

/// Some bytes of a file, by the place of the first one and their number.
#[derive(Clone, Copy, Debug, PartialEq, Eq)]
pub struct Span {
    pub from: usize,
    pub size: usize,
}

/// Where members are read from, and the table of contents if there is one.
#[derive(Clone, Copy, Debug, PartialEq, Eq)]
pub struct Opening {
    pub start: usize,
    pub table: Option<Span>,
}

// Where the first header stands (`ar.h`).
const SARMAG: usize = 8;

// Names of tables that aren't read.
const GNU_CONTENTS: &[u8] = b"/";

const SYMDEF_64: &[u8] = b"__.SYMDEF_64";

// Archives of as many members are refused.
const LIMIT: usize = 1 << 20;

fn opened(first: &Member, size: usize) -> Opening
    requires within { first.now.from + first.now.size ≤ size }
    requires small { first.now.from + first.now.size < 2 ^ 63 }
    ensures value { result ≡ archives.opened first.now }
    ensures within { IfSome result.table (IsSpan size) }
{
    if is_contents(first.name.as_slice()) {
        Opening {
            start: next_of(first),
            table: Some(Span {
                from: first.from as usize,
                size: first.size as usize,
            }),
        }
    } else {
        Opening {
            start: SARMAG,
            table: None,
        }
    }
}

#[tactic(auto, unfolding(crate::specs::Archive::opening_of))]
fn opening_of(bytes: &Bytes) -> Result<Opening, ObjFault>
    ensures exact { Gives IsObjFault result (archives.opening_of bytes.now) }
    ensures within { IfOk result (λ opening. IfSome opening.table (IsSpan (length bytes.now))) }
{
    let Some(first) = member_at(bytes, SARMAG)? else {
        return Ok(Opening {
            start: SARMAG,
            table: None,
        });
    };
    let name = first.name.as_slice();
    if name == GNU_CONTENTS {
        return Err(ObjFault::Unsupported(Feature::GnuArchive));
    }
    if name.starts_with(SYMDEF_64) {
        return Err(ObjFault::Unsupported(Feature::Archive64));
    }
    Ok(opened(&first, bytes.len()))
}

#[tactic(auto, unfolding(crate::specs::Contents::offers_in))]
fn offers_in(
    alloc: Global,
    table: &Bytes,
    places: &[usize],
    size: usize,
) -> Result<OfferList, ObjFault>
    requires { IsRising size places.now }
    ensures { Gives IsObjFault result (contents.offers_in table.now places.now) }
{
    if !is_whole(table.as_slice()) {
        return Err(FAULT);
    }
    let cells = numbered(alloc, places, size)?;
    let names = strings_part(table)?;
    let strings = Strings::new(alloc, strings_part(table)?)?;
    let entries = entries_of(alloc, table.as_slice(), &strings, cells.as_slice(), places)?;
    Ok(OfferList::from_entries(alloc, names, entries)?)
}

fn offered(
    alloc: Global,
    bytes: &Bytes,
    table: Option<Span>,
    places: &[usize],
) -> Result<OfferList, ObjFault>
    requires places { IsRising (length bytes.now) places.now }
    requires table { IfSome table (IsSpan (length bytes.now)) }
    ensures { Gives IsObjFault result (archives.offered bytes.now table places.now) }
{
    match table {
        Some(span) => {
            let table = bytes.part(span.from, span.size)?;
            offers_in(alloc, &table, places, bytes.len())
        }
        None => Ok(OfferList::empty(alloc)?),
    }
}

/// Reads an archive: its members by name, place and size, and what its table of contents offers; or tells the
/// first of these that stands: rule `Member` at the first header; a table that isn't read, `GnuArchive` or
/// `Archive64`; rule `Member` at the least header that is at fault; rule `Contents` at the table's header;
/// 2^20 members. The data of members are not read.
#[tactic(auto, unfolding(crate::specs::Archive::archive_of))]
pub fn read_archive(alloc: Global, bytes: &Bytes) -> Result<Archive, ObjFault>
    requires { kinds.kind_of bytes.now ≡ kind.Archive }
    ensures exact { Gives IsObjFault result (archives.archive_of bytes.now) }
{
    let opening = opening_of(bytes)?;
    let walked = walk(alloc, bytes, opening.start)?;
    let data = bytes.as_slice();
    if walked.end < data.len() {
        return Err(ObjFault::Malformed {
            place: walked.end as u64,
            rule: Rule::Member,
        });
    }
    let offers = offered(alloc, bytes, opening.table, walked.places.as_slice())?;
    if walked.members.len() >= LIMIT {
        return Err(ObjFault::Limit(Which::Members));
    }
    Ok(Archive {
        members: MemberList::from_vec(walked.members),
        offers,
    })
}
