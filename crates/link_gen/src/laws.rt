//! What the definition of an object says, in words of its own.

ghost use Rattle.std.specs.Prelude.{◌+◌, ◌*◌, ◌/◌, ◌%◌, ◌<◌, ℕ};
ghost use Rattle.link_gen.specs.Calls as calls;
ghost use Rattle.link_gen.specs.Laws.{LeadsTo};
ghost use Rattle.link_gen.specs.Parts.{relocation};
ghost use Rattle.link_gen.specs.Symbols.{symbols_of};

use crate::calls::MadeObject;

/// The relocation of each call has the number of a symbol, and that symbol the name that is called.
#[tactic(auto, using(crate::proofs::LawLemmas::laws))]
pub fn calls_lead_to_their_names(made: MadeObject)
    requires { calls.IsMade made }
    ensures { (r : ℕ) → r < 3 * calls.function_count made
        → LeadsTo (symbols_of made) (relocation made r).r_symbolnum (calls.called made.count (calls.first_function made + r / 3) (r % 3)) }
{}
