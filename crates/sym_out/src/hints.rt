//! Where the atoms of symbols mostly stand among those that are placed.
use crate::cursor::Cursor;
use mo_types::{FileId, LoadedFile, OutOfMemory};
use std::alloc::Global;
use symbol_winners::Winner;

// Where the symbols of a file begin.
#[derive(Drop)]
struct First {
    file: FileId,
    at: usize,
}

/// For each symbol of some files, by rising id, a place at which its atom mostly stands. Nothing is proved of these: what
/// isn't there is searched for.
#[derive(Drop)]
pub(crate) struct Hints {
    firsts: Vec<First>,
    places: Vec<u32>,
}

impl Hints {
    /// Those of no file yet, with room for so many and their symbols.
    pub fn new(alloc: Global, files: usize, symbols: usize) -> Result<Hints, OutOfMemory> {
        Ok(Hints {
            firsts: Vec::with_capacity(alloc, files)?,
            places: Vec::with_capacity(alloc, symbols)?,
        })
    }

    /// The symbols of the next file follow.
    pub fn begin(&mut self, file: FileId) -> Result<(), OutOfMemory> {
        let at = self.places.len();
        self.firsts.push(First { file, at })?;
        Ok(())
    }

    /// Notes where the atom of the next symbol stands.
    pub fn note(&mut self, cursor: &Cursor) -> Result<(), OutOfMemory> {
        self.places
            .push(u32::try_from(cursor.last()).unwrap_or(u32::MAX))?;
        Ok(())
    }

    // Where the atom of a file's symbol mostly stands.
    fn of_symbol(&self, file: FileId, index: usize) -> u32 {
        match self.firsts.binary_search_by(|first| first.file.cmp(&file)) {
            Ok(found) => {
                let at = self.firsts[found].at.wrapping_add(index);
                self.places.get(at).copied().unwrap_or(u32::MAX)
            }
            Err(_) => u32::MAX,
        }
    }

    /// Appends for each winner a place at which its atom mostly stands.
    pub fn note_winners(
        &self,
        nears: &mut Vec<u32>,
        winners: &[Winner],
    ) -> Result<(), OutOfMemory> {
        nears.reserve(winners.len())?;
        for winner in winners {
            nears.push(self.of_symbol(winner.file, (winner.word % (1 << 24)) as usize))?;
        }
        Ok(())
    }
}

/// The place that is noted for the winner of an index.
pub(crate) fn near_at(nears: &[u32], index: usize) -> usize {
    match nears.get(index) {
        Some(near) => *near as usize,
        None => 0,
    }
}
