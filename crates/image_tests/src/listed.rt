//! References of atoms, listed by the places of these.
ghost use Rattle.std.specs.Prelude.{◌≡◌, [], slice_get};
ghost use Rattle.std.specs.Option.{option_map_or};

use mo_types::OutOfMemory;
use patch::{Meeting, Met, PlacedWork};
use std::alloc::Global;

// A row, or none of its references where there is none.
fn row_at<'a>(rows: &'a [&'a [Met]], at: usize) -> &'a [Met]
    ensures { result.now ≡ option_map_or (λ row. row.now) (slice_get rows.now at) [] }
{
    match rows.get(at) {
        Some(row) => row,
        None => &[],
    }
}

/// The references of atoms in an image, a row for every so many bytes of it from a place on: the atom that begins there has
/// those of the row.
#[derive(Drop)]
pub(crate) struct Listed<'a> {
    pub(crate) from: u64,
    pub(crate) apart: u64,
    pub(crate) rows: &'a [&'a [Met]],
}

impl<'a> Meeting for Listed<'a> {
    ghost use Rattle.std.specs.Prelude.{◌-◌, ◌/◌, ◌<◌, [], slice_get};
    ghost use Rattle.std.specs.Option.{option_map_or};

    ghost ready = { λ listed. 0 < listed.apart };

    ghost mets_of = { λ listed item. option_map_or (λ row. row.now) (slice_get listed.rows.now ((item.at - listed.from) / listed.apart)) [] };

    fn meet(
        &self,
        item: &PlacedWork,
        _next: &mut usize,
        mets: &mut Vec<Met>,
    ) -> Result<(), OutOfMemory> {
        let row = item.at.saturating_sub(self.from) / self.apart;
        mets.extend_from_slice(row_at(self.rows, row as usize))?;
        Ok(())
    }
}

/// A row for each of some references.
pub(crate) fn one_each(alloc: Global, mets: &[Met]) -> Result<Vec<&[Met]>, OutOfMemory> {
    let mut rows = Vec::with_capacity(alloc, mets.len())?;
    for row in mets.chunks(1) {
        rows.push(row)?;
    }
    Ok(rows)
}
