//! What the definitions mean, on a call that does nothing.
ghost use Rattle.std.specs.Prelude.{◌≡◌, List};
ghost use Rattle.fixup_chain.specs.declared.chains.Fixup.{Fixup};
ghost use Rattle.patch.specs.declared.range.PlacedWork.{PlacedWork};
ghost use Rattle.ref_meet.specs.Pointers.{AreFixups, AreSpread};
ghost use Rattle.ref_meet.specs.Scene.{Scene};

/// The pointers of an image, no two of which have a byte in common, have an order by their addresses, and just one. A law,
/// which does nothing.
pub fn pointers_have_one_order()
    ensures some { (scene : Scene) (items : List PlacedWork) → AreSpread scene items → (fixups : List Fixup) × AreFixups scene items fixups }
    ensures one { (scene : Scene) (items : List PlacedWork) (a b : List Fixup) → AreFixups scene items a → AreFixups scene items b → a ≡ b }
{}
