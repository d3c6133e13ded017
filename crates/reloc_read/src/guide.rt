//! Where the search for the atom of an offset begins. No promise rests on it: what is found is tested.

use mo_types::{Atom, OutOfMemory, Section};
use std::alloc::Global;

/// For a section that is cut into stretches of 2 to the power `shift` bytes, the index of the first atom that
/// begins in a stretch or after it. There are about as many stretches as atoms.
#[derive(Debug, Drop)]
pub struct Guide {
    shift: u32,
    starts: Vec<usize>,
    end: usize,
}

// The power of 2 that cuts `size` bytes into at most `count` and 1 stretches.
fn shift_of(size: u64, count: usize) -> u32 {
    let stretch = size / (count as u64).max(1);
    64 - stretch.leading_zeros().min(63)
}

// The stretch in which an offset lies.
fn stretch_of(shift: u32, offset: u64) -> usize {
    offset.checked_shr(shift).unwrap_or(0) as usize
}

// The atoms of the section of a number.
fn range_of(atoms: &[Atom], number: usize) -> (usize, usize) {
    (
        atoms.partition_point(|atom| usize::from(atom.key.section) < number),
        atoms.partition_point(|atom| usize::from(atom.key.section) <= number),
    )
}

impl Guide {
    /// The guide of a section of which nothing is looked for.
    pub fn none(alloc: Global) -> Guide {
        Guide {
            shift: 0,
            starts: Vec::new(alloc),
            end: 0,
        }
    }

    /// The guide of the section of a number, of an object's atoms.
    pub fn of(
        alloc: Global,
        atoms: &[Atom],
        number: usize,
        section: &Section,
    ) -> Result<Guide, OutOfMemory> {
        let (first, end) = range_of(atoms, number);
        let shift = shift_of(section.size, end.saturating_sub(first));
        let mut starts = Vec::new(alloc);
        for index in first..end {
            if let Some(atom) = atoms.get(index) {
                let stretch = stretch_of(shift, atom.key.offset);
                if starts.len() <= stretch {
                    starts.resize(stretch.saturating_add(1), index)?;
                }
            }
        }
        Ok(Guide { shift, starts, end })
    }

    /// Which atom to begin with, in the search for that of an offset.
    pub fn first_for(&self, offset: u64) -> usize {
        match self.starts.get(stretch_of(self.shift, offset)) {
            Some(index) => *index,
            None => self.end,
        }
    }
}

/// The guides of the sections that have relocations.
pub fn guides_of(
    alloc: Global,
    atoms: &[Atom],
    sections: &[Section],
) -> Result<Vec<Guide>, OutOfMemory> {
    let mut guides = Vec::new(alloc);
    for (index, section) in sections.iter().enumerate() {
        if section.relocs.is_empty() {
            guides.push(Guide::none(alloc))?;
        } else {
            guides.push(Guide::of(alloc, atoms, index + 1, section)?)?;
        }
    }
    Ok(guides)
}
