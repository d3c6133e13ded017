//! The pieces of a section.

ghost use Rattle.std.specs.Prelude.{◌≡◌, ◌++◌, ◌≤◌, OnOk};
ghost use Rattle.mo_types.specs.Atoms as cutting;
ghost use Rattle.atom_cut.specs.Cutting.{RiseTo};

use mo_types::{Atom, AtomKey, FileId, OutOfMemory, Section};

// The alignment at an offset of a section.
#[tactic(auto, unfolding(mo_types::specs::Atoms::align_at))]
fn align_at(align: u8, offset: u64) -> u8
    ensures { result ≡ cutting.align_at align offset }
{
    if offset == 0 {
        return align;
    }
    u32::from(align).min(offset.trailing_zeros()) as u8
}

#[tactic(auto, unfolding(mo_types::specs::Atoms::piece))]
fn piece(file: FileId, number: u16, section: &Section, from: u64, to: u64) -> Atom
    requires { from ≤ to }
    ensures { result ≡ cutting.piece file number section.now from to }
{
    Atom {
        key: AtomKey {
            file,
            section: number,
            offset: from,
        },
        size: to - from,
        align: align_at(section.align, from),
    }
}

/// Puts the pieces that begin at a section's cuts at the end of the atoms.
#[tactic(auto, using(crate::proofs::PieceLemmas::pieces_loop))]
pub fn add_pieces(
    atoms: &mut Vec<Atom>,
    file: FileId,
    number: u16,
    section: &Section,
    cuts: &[u64],
) -> Result<(), OutOfMemory>
    requires { RiseTo section.now.size cuts.now }
    ensures { OnOk result (atoms.new.items ≡ atoms.old.items ++ cutting.pieces file number section.now cuts.now) }
{
    atoms.reserve(cuts.len())?;
    for (i, from) in cuts.iter().enumerate() {
        let to = cuts.get(i + 1).copied().unwrap_or(section.size);
        atoms.push(piece(file, number, section, *from, to))?;
    }
    Ok(())
}
