//! What the loader finds, on a call that does nothing.
ghost use Rattle.std.specs.Prelude.{◌≡◌, ◌≢◌, ℕ, List, Contains};
ghost use Rattle.sect_place.specs.Whole.{IsWholeLayout};
ghost use Rattle.sect_place.specs.declared.layout.Layout.{Layout};
ghost use Rattle.fixup_chain.specs.Chained.{AreChains};
ghost use Rattle.fixup_chain.specs.declared.chains.Chains.{Chains};
ghost use Rattle.fixup_chain.specs.declared.chains.Fixup.{Fixup};
ghost use Rattle.image_read.specs.Fixups.{fixup_at};
ghost use Rattle.image_read.specs.declared.fixups.FixupRead.TheVariants.{Plain};
ghost use Rattle.chain_laws.specs.Carried.{ArePointers, IsCarried, IsFound};

/// In an image that carries the chains of pointers the loader finds each of them, and no others. A law, which does nothing.
pub fn the_loader_finds_each_pointer()
    ensures pointers { (image : List ℕ) (layout : Layout) (fixups : List Fixup) (chains : Chains) (fixup : Fixup) → IsWholeLayout layout
        → ArePointers layout fixups → AreChains layout fixups chains → IsCarried image layout chains → Contains fixups fixup
        → IsFound image layout fixup }
    ensures others { (image : List ℕ) (layout : Layout) (fixups : List Fixup) (chains : Chains) (address : ℕ) → IsWholeLayout layout
        → ArePointers layout fixups → AreChains layout fixups chains → IsCarried image layout chains
        → ((fixup : Fixup) → Contains fixups fixup → fixup.address ≢ address) → fixup_at image address ≡ Plain }
{}
