//! A table of places by tags, which grows with what is noted. Nothing rests on what it holds: a place that is lost or
//! wrong costs its user a look, or a repeat.

use mo_types::OutOfMemory;
use std::alloc::Global;

// How many cells a new table has.
const FIRST: usize = 1 << 10;

/// Cells, each empty or with a tag and a place.
#[derive(Debug, Drop)]
pub(crate) struct Seen {
    alloc: Global,
    // 0, or the tag in the upper half and the place plus 1 in the lower.
    cells: Vec<u64>,
    count: usize,
}

/// The tag of a cell.
pub(crate) fn cell_tag(cell: u64) -> u32 {
    (cell >> 32) as u32
}

/// The place in a cell.
pub(crate) fn cell_place(cell: u64) -> usize {
    (cell & 0xffff_ffff).wrapping_sub(1) as usize
}

// Puts a cell into the first free one of eight.
fn put(cells: &mut [u64], cell: u64) {
    for step in 0..8usize {
        let at = cell_in(cells.len(), cell_tag(cell), step);
        match cells.get_mut(at) {
            Some(there) => {
                if *there == 0 {
                    *there = cell;
                    return;
                }
            }
            None => {}
        }
    }
}

// The cell so many steps from a tag's own, of so many.
fn cell_in(count: usize, tag: u32, step: usize) -> usize {
    (tag as usize).wrapping_add(step) & count.wrapping_sub(1)
}

impl Seen {
    pub(crate) fn new(alloc: Global) -> Result<Seen, OutOfMemory> {
        let cells = vec![in alloc; 0; FIRST]?;
        Ok(Seen {
            alloc,
            cells,
            count: 0,
        })
    }

    /// The index of the cell so many steps from a tag's own.
    pub(crate) fn cell_of(&self, tag: u32, step: usize) -> usize {
        cell_in(self.cells.len(), tag, step)
    }

    /// The cell at an index, if it isn't empty.
    pub(crate) fn at(&self, at: usize) -> Option<u64> {
        match self.cells.get(at) {
            Some(cell) if *cell != 0 => Some(*cell),
            _ => None,
        }
    }

    /// Puts a tag and a place into a cell. Where half of the cells are taken there are twice as many then.
    pub(crate) fn note(&mut self, at: usize, tag: u32, place: usize) -> Result<(), OutOfMemory> {
        match self.cells.get_mut(at) {
            Some(cell) => *cell = u64::from(tag) << 32
                | (place as u64).wrapping_add(1) & 0xffff_ffff,
            None => {}
        }
        self.count = self.count.wrapping_add(1);
        if self.count > self.cells.len() / 2 {
            self.grow()?;
        }
        Ok(())
    }

    fn grow(&mut self) -> Result<(), OutOfMemory> {
        let mut cells = vec![in self.alloc; 0; self.cells.len().saturating_mul(2)]?;
        for cell in self.cells.as_slice() {
            if *cell != 0 {
                put(cells.as_mut_slice(), *cell);
            }
        }
        self.cells = cells;
        Ok(())
    }
}
