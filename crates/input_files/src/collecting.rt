//! What pieces hold that workers made, in order.
ghost use Rattle.std.specs.Prelude.{◌≡◌};
ghost use Rattle.mo_types.specs.Gives.{Gives};
ghost use Rattle.input_files.specs.Collected.{all_of, behind};
ghost use Rattle.input_files.specs.Files.{IsLoadFault};

use crate::fault::LoadFault;
use mo_types::Items;

/// What is there, and behind it what pieces hold, or the fault of the first that has one.
#[tactic(auto, using(crate::proofs::CollectedLemmas::collects))]
pub fn collect<T: Drop>(
    before: Items<T>,
    pieces: Vec<Result<T, LoadFault>>,
) -> Result<Items<T>, LoadFault>
    ensures { Gives IsLoadFault result (behind before (all_of pieces.items)) }
{
    let mut all = before;
    for piece in pieces {
        let item = piece?;
        all.push(item)?;
    }
    Ok(all)
}
