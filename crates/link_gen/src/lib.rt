//! Makes a large input from a number: objects that measure how fast inputs are linked.
//!
//! `generate` gives one of the objects that an input of so many functions has (`object_count`). Its bytes are
//! `generated` of `specs/Generated.antt` (`exact`): a header, a segment with the section `__text`, the section's
//! instructions, relocations, symbols and strings, each a record of `mo_format`, which is read again at its place
//! (`placed`). Each function of the section makes three calls (`specs/Calls.antt`): two of them go to functions that
//! are drawn by a linear congruential generator (`specs/Draws.antt`), whose steps before an object are made at once,
//! and the third one to a weak function.
//!
//! The relocation of each call leads to a symbol of the name that is called (`calls_lead_to_their_names`). What the
//! bytes mean to the reader of objects is stated in `gen_laws`, since this crate doesn't stand on the reader. A body
//! that draws anew in each object, takes the third call's number without its remainder, makes an object more than
//! those that are full, or leaves weak definitions unmarked isn't proved.
#![tactic(auto)]

ghost use Rattle.std.specs.Prelude.{◌≡◌, ◌≤◌, ◌<◌, IfOk};
ghost use Rattle.link_gen.specs.Calls as made;
ghost use Rattle.link_gen.specs.Generated.{generated};
ghost use Rattle.link_gen.specs.Placed.{ArePlaced};
ghost use Rattle.link_gen.specs.Tables.{AreTables};

mod calls;
mod draws;
mod front;
mod laws;
mod names;
mod numbers;
mod symbols;
mod tables;
mod text;

pub use calls::{MadeObject, object_count};
pub use laws::calls_lead_to_their_names;
use mo_types::{Bytes, OutOfMemory};
use std::alloc::{AllocError, Global};
use symbols::{put_entries, strings_of};
use tables::{Tables, places_of, tables_of};
use text::{put_instructions, put_relocations};

#[tactic(auto, using(crate::proofs::BytesLemmas::written))]
fn write(alloc: Global, object: MadeObject, tables: &Tables) -> Result<Vec<u8>, AllocError>
    requires object { made.IsMade object }
    requires tables { AreTables object tables.now }
    ensures { IfOk result (λ out. out.items ≡ generated object) }
{
    let strings = strings_of(alloc, tables.symbols.as_slice())?;
    let places = places_of(object, tables, strings.as_slice());
    let mut out = Vec::with_capacity(alloc, places.size())?;
    places.put_front(&mut out)?;
    put_instructions(&mut out, object, tables.weaks)?;
    places.put_padding(&mut out)?;
    put_relocations(&mut out, object, tables)?;
    put_entries(&mut out, tables.symbols.as_slice())?;
    out.extend_from_slice(strings.as_slice())?;
    Ok(out)
}

/// The object of a number from 0 among those of an input of so many functions, from 1 to 20,000.
pub fn generate(alloc: Global, count: u32, object: u32) -> Result<Bytes, OutOfMemory>
    requires some { 0 < count }
    requires few { count ≤ 20000 }
    requires object { object < made.object_count count }
    ensures exact { IfOk result (λ bytes. bytes ≡ generated (record { count = count; object = object })) }
    ensures placed { IfOk result (ArePlaced (record { count = count; object = object })) }
{
    let made = MadeObject { count, object };
    let tables = tables_of(alloc, made)?;
    let out = write(alloc, made, &tables)?;
    Bytes::from_vec(out)
}
