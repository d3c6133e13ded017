//! The chain of an archive's headers (ar(5)).

ghost use Rattle.std.specs.Prelude.{IfOk};
ghost use Rattle.mo_ar.specs.inner.Tables.{IsWalked};

use crate::member::{Member, member_at, next_of};
use mo_types::{Bytes, OutOfMemory};
use std::alloc::Global;

/// The members that headers lead to, each with the place of its header, and where the last one leads.
#[derive(Debug, Drop)]
pub struct Walked {
    pub places: Vec<usize>,
    pub members: Vec<Member>,
    pub end: usize,
}

/// The members of the chain from a place on.
#[tactic(auto, using(crate::proofs::ChainLemmas::walks))]
pub fn walk(alloc: Global, bytes: &Bytes, from: usize) -> Result<Walked, OutOfMemory>
    ensures { IfOk result (IsWalked bytes.now from) }
{
    let mut places = Vec::new(alloc);
    let mut members = Vec::new(alloc);
    let mut at = from;
    while let Some(member) = member_at(bytes, at)? {
        let next = next_of(&member);
        places.push(at)?;
        members.push(member)?;
        at = next;
    }
    Ok(Walked {
        places,
        members,
        end: at,
    })
}
