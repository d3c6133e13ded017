ghost use Rattle.std.specs.Prelude.{◌≡◌, ◌++◌, List, OnOk};
ghost use Rattle.patch.specs.declared.met.Met.{Met as Reference};
ghost use Rattle.patch.specs.declared.range.PlacedWork.{PlacedWork as Work};

use crate::met::Met;
use crate::range::PlacedWork;
use mo_types::OutOfMemory;

/// What the references of placed atoms mean in the image.
pub trait Meeting {
    // whether it may be asked
    ghost ready: { Self → Type 0 };

    // the references of an atom
    ghost mets_of: { Self → Work → List Reference };

    /// Puts the references of an atom behind others. Atoms are mostly asked for in the order of the image: `next` tells
    /// where the last one's ended, which is 0 at first, and no answer depends on it.
    fn meet(
        &self,
        item: &PlacedWork,
        next: &mut usize,
        mets: &mut Vec<Met>,
    ) -> Result<(), OutOfMemory>
        requires ready { ready self.now }
        ensures { OnOk result (mets.new.items ≡ mets.old.items ++ mets_of self.now item.now) };
}
