//! Where the search for the atom of an offset begins. No promise rests on it: what is found is tested.

use mo_types::{Atom, OutOfMemory};
use std::alloc::Global;

// So often an atom is far from the one that was found last before a guide is made: some times, and once for each so many
// atoms, by which a guide costs no more than the searches that were far.
const FEW_MISSED: usize = 256;

const ATOMS_A_MISS: usize = 64;

// About so many atoms begin in a stretch.
const EACH: usize = 4;

/// For a section that is cut into stretches of 2 to the power `shift` bytes, the index of the first atom that begins in
/// a stretch or after it.
#[derive(Debug, Drop)]
struct Guide {
    section: u16,
    shift: u32,
    starts: Vec<u32>,
}

/// Where the search for an atom begins: behind the one that was found last, or, once many weren't near that, where a
/// guide says.
#[derive(Debug, Drop)]
pub struct Hint {
    behind: usize,
    missed: usize,
    section: u16,
    guide: Guide,
}

/// The hints of the fields of entries.
#[derive(Debug, Drop)]
pub struct Hints {
    pub function: Hint,
    pub personality: Hint,
    pub lsda: Hint,
}

// The power of 2 that cuts `size` bytes into at most `count` and 1 stretches.
fn shift_of(size: u64, count: usize) -> u32 {
    let stretch = size / (count as u64).max(1);
    64 - stretch.leading_zeros().min(63)
}

// The stretch in which an offset lies.
fn stretch_of(shift: u32, offset: u64) -> usize {
    offset.checked_shr(shift).unwrap_or(0) as usize
}

// The offset behind the last of some atoms.
fn size_of(atoms: &[Atom]) -> u64 {
    match atoms.last() {
        Some(atom) => atom.key.offset.saturating_add(atom.size),
        None => 0,
    }
}

// The atoms of the section of a number.
fn range_of(atoms: &[Atom], section: u16) -> (usize, usize) {
    (
        atoms.partition_point(|atom| atom.key.section < section),
        atoms.partition_point(|atom| atom.key.section <= section),
    )
}

impl Guide {
    // The guide of no section.
    fn none(alloc: Global) -> Guide {
        Guide {
            section: 0,
            shift: 0,
            starts: Vec::new(alloc),
        }
    }

    // The guide of the section of a number.
    fn of(alloc: Global, atoms: &[Atom], section: u16) -> Result<Guide, OutOfMemory> {
        let (first, end) = range_of(atoms, section);
        let size = size_of(atoms.get(first..end).unwrap_or(&[]));
        let shift = shift_of(size, end.saturating_sub(first) / EACH);
        let mut starts = Vec::new(alloc);
        for index in first..end {
            if let Some(atom) = atoms.get(index) {
                let stretch = stretch_of(shift, atom.key.offset);
                if starts.len() <= stretch {
                    starts.resize(
                        stretch.saturating_add(1),
                        index.min(u32::MAX as usize) as u32,
                    )?;
                }
            }
        }
        Ok(Guide {
            section,
            shift,
            starts,
        })
    }

    // Which atom to begin with, in the search for that of an offset.
    fn first_for(&self, offset: u64) -> Option<usize> {
        let start = self.starts.get(stretch_of(self.shift, offset))?;
        Some(*start as usize)
    }
}

impl Hint {
    /// A hint for the first search.
    pub fn new(alloc: Global) -> Hint {
        Hint {
            behind: 0,
            missed: 0,
            section: 0,
            guide: Guide::none(alloc),
        }
    }

    /// Which atom to begin with, in the search for that of an offset of the section of a number.
    pub fn first_for(&self, section: u16, offset: u64) -> usize {
        if self.guide.section != section {
            return self.behind;
        }
        self.guide.first_for(offset).unwrap_or(self.behind)
    }

    /// Notes which atom stands behind the one that was found.
    pub fn found(&mut self, behind: usize) {
        self.behind = behind;
    }

    /// Notes that the atom of an offset of the section of a number was far.
    pub fn missed(&mut self, section: u16) {
        self.section = section;
        self.missed = self.missed.saturating_add(1);
    }

    // Makes a guide, where many atoms were far.
    fn renew(&mut self, alloc: Global, atoms: &[Atom]) -> Result<(), OutOfMemory> {
        let many = FEW_MISSED.saturating_add(atoms.len() / ATOMS_A_MISS);
        if self.missed < many || self.guide.section == self.section {
            return Ok(());
        }
        self.guide = Guide::of(alloc, atoms, self.section)?;
        self.missed = 0;
        Ok(())
    }
}

impl Hints {
    /// The hints for the first entry.
    pub fn new(alloc: Global) -> Hints {
        Hints {
            function: Hint::new(alloc),
            personality: Hint::new(alloc),
            lsda: Hint::new(alloc),
        }
    }

    /// Makes guides, where many atoms were far from the last.
    pub fn renew(&mut self, alloc: Global, atoms: &[Atom]) -> Result<(), OutOfMemory> {
        self.function.renew(alloc, atoms)?;
        self.personality.renew(alloc, atoms)?;
        self.lsda.renew(alloc, atoms)
    }
}
