//! What the definitions mean, each on a call that does nothing.
ghost use Rattle.std.specs.Prelude.{◌≡◌, ◌≢◌, ◌≤◌, ◌^◌, ◌⊎◌, List, length};
ghost use Rattle.sect_place.specs.declared.layout.Layout.{Layout};
ghost use Rattle.fixup_chain.specs.Chained.{AreAmong, AreChains, AreMany, IsCause};
ghost use Rattle.fixup_chain.specs.Encoded.{AreApart};
ghost use Rattle.fixup_chain.specs.Imports.{bound};
ghost use Rattle.fixup_chain.specs.declared.chains.ChainFault.{ChainFault};
ghost use Rattle.fixup_chain.specs.declared.chains.Chains.{Chains};
ghost use Rattle.fixup_chain.specs.declared.chains.Fixup.{Fixup};

/// Pointers have one answer, but for want of memory: one thing are their chains, and one thing is their fault; where they
/// have chains they have no fault. A law, which does nothing.
pub fn an_answer_is_one()
    ensures chains { (layout : Layout) (fixups : List Fixup) (a b : Chains) → AreChains layout fixups a → AreChains layout fixups b → a ≡ b }
    ensures fault { (layout : Layout) (fixups : List Fixup) (a b : ChainFault) → AreApart fixups → IsCause layout fixups a → IsCause layout fixups b
        → a ≢ ChainFault.OutOfMemory → b ≢ ChainFault.OutOfMemory → a ≡ b }
    ensures apart { (layout : Layout) (fixups : List Fixup) (chains : Chains) (why : ChainFault) → AreChains layout fixups chains
        → IsCause layout fixups why → why ≡ ChainFault.OutOfMemory }
{}

/// Pointers have chains, or a fault that isn't want of memory, wherever they stand. A law, which does nothing.
pub fn chains_or_a_fault_exist()
    ensures { (layout : Layout) (fixups : List Fixup) → ((chains : Chains) × AreChains layout fixups chains)
        ⊎ ((why : ChainFault) × (why ≢ ChainFault.OutOfMemory) × IsCause layout fixups why) }
{}

/// Where pointers have too many imports, others that are bound to all that they are bound to have too many as well. A law,
/// which does nothing.
pub fn more_pointers_have_no_fewer_imports()
    ensures { (few more : List Fixup) → AreAmong few more → AreMany few → AreMany more }
{}

/// Pointers have too many imports only where as many of them are bound. A law, which does nothing.
pub fn few_pointers_have_few_imports()
    ensures { (fixups : List Fixup) → AreMany fixups → 2 ^ 24 ≤ length (bound fixups) }
{}
