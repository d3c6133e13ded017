//! What holds of objects that were made. Each function is a law, which its contract states, and does nothing.

ghost use Rattle.std.specs.Prelude.{◌≡◌, ◌+◌, ◌*◌, ◌/◌, ◌%◌, ◌<◌, ℕ, Ok};
ghost use Rattle.link_gen.specs.Calls as calls;
ghost use Rattle.link_gen.specs.Generated.{generated};
ghost use Rattle.link_gen.specs.Names.{name_of};
ghost use Rattle.link_gen.specs.declared.names.SymbolName.TheVariants.{Function};
ghost use Rattle.mo_obj.specs.Facts.{IsObject};
ghost use Rattle.mo_obj.specs.Object.{object_of};
ghost use Rattle.gen_laws.specs.Input.{Defines, IsDefinedIn};
ghost use Rattle.gen_laws.specs.Object.{NamesAt, made_object};

use link_gen::MadeObject;

/// The bytes that are made are those of the stated object: no rule fails and no feature is missing, and so they are read. The
/// relocation of each call names the symbol that is called.
pub fn made_bytes_are_an_object(made: MadeObject)
    requires { calls.IsMade made }
    ensures object { IsObject (generated made) (made_object made) }
    ensures read { object_of (generated made) ≡ Ok (made_object made) }
    ensures names { (r : ℕ) → r < 3 * calls.function_count made
        → NamesAt (made_object made) r (16 * (r / 3) + 4 * (r % 3)) (name_of (calls.called made.count (calls.first_function made + r / 3) (r % 3))) }
{}

/// Each name that is called is defined by an object of the same input.
#[tactic(auto, using(crate::proofs::Whole::calls_met))]
pub fn calls_are_met(made: MadeObject)
    requires { calls.IsMade made }
    ensures { (i call : ℕ) → IsDefinedIn made.count (calls.called made.count i call) }
{}

/// A function is defined once: in the object of a 64th of its number, and there 16 bytes behind the one before it.
pub fn functions_are_defined_once(made: MadeObject)
    requires { calls.IsMade made }
    ensures object { (i place : ℕ) → Defines made (Function i) place → made.object ≡ i / 64 }
    ensures place { (i place : ℕ) → Defines made (Function i) place → place ≡ 16 * (i % 64) }
{}
