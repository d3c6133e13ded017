//! The members' numbers, by the places of their headers.

ghost use Rattle.std.specs.Prelude.{◌≡◌, ◌+◌, ◌/◌, ◌^◌, ◌<◌, ◌≤◌, length, IfOk, IfSome};
ghost use Rattle.mo_ar.specs.inner.Tables.{IsRising};
ghost use Rattle.mo_ar.specs.inner.Tables as tables;
ghost use Rattle.mo_ar.specs.Places as numbers;
ghost use Rattle.mo_ar.specs.inner.Tables.{IsNumbered};

use mo_types::OutOfMemory;
use std::alloc::Global;

// No two headers begin in as many bytes.
const HEADER_SIZE: usize = 60;

// A pair's place has 32 bits (`mach-o/ranlib.h`: ran_off).
const PLACE_LIMIT: usize = 1 << 32;

/// A table from the places that a pair may have to numbers, for headers that stand apart in a file of this size.
#[tactic(auto, using(crate::proofs::PlaceLemmas::fills))]
pub fn numbered(alloc: Global, places: &[usize], size: usize) -> Result<Vec<u32>, OutOfMemory>
    requires { IsRising size places.now }
    ensures { IfOk result (λ cells. IsNumbered cells.items places.now) }
{
    let mut cells = vec![in alloc; 0; size / HEADER_SIZE + 1]?;
    for (i, place) in places.iter().enumerate() {
        if *place >= PLACE_LIMIT {
            return Ok(cells);
        }
        let number = (i + 1) as u32;
        cells[*place / HEADER_SIZE] = number;
    }
    Ok(cells)
}

// Whether the place with a number is this one.
#[inline(always)]
fn stands(places: &[usize], number: u32, at: usize) -> bool
    ensures { result ≡ tables.stands places.now number at }
{
    let index = number as usize;
    0 < index && index <= places.len() && places[index - 1] == at
}

/// The number of the member whose header stands at a place.
#[tactic(auto, using(crate::proofs::PlaceLemmas::finds))]
#[inline(always)]
pub fn number_of(cells: &[u32], places: &[usize], at: usize) -> Option<u32>
    requires numbered { IsNumbered cells.now places.now }
    requires near { at < 2 ^ 32 }
    ensures { result ≡ numbers.number_of places.now at }
{
    let cell = at / HEADER_SIZE;
    if cell >= cells.len() {
        return None;
    }
    if !stands(places, cells[cell], at) {
        return None;
    }
    Some(cells[cell])
}
