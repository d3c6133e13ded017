//! Fixups as they come, kept by address.

ghost use Rattle.std.specs.Prelude.{◌≡◌, ◌==◌, [], IfOk, OnOk, OnErr, true, false};
ghost use Rattle.std.specs.List.{list_any};
ghost use Rattle.dyld_ops.specs.Machine as machines;

use crate::fixup::{OpAct, OpFixup, OpMap};
use mo_types::{Items, OutOfMemory};
use std::alloc::Global;
use std::collections::BTreeMap;
use std::marker::Model;

/// Fixups that contracts see as their list by address.
#[derive(Drop)]
pub struct Fixups {
    acts: BTreeMap<u64, OpAct>,
}

impl Model for Fixups {
    ghost use Rattle.std.specs.Prelude.{List, map};
    ghost use Rattle.dyld_ops.specs.declared.fixup.OpFixup.{OpFixup};
    ghost use Rattle.dyld_ops.specs.inner.Entries.{fixup_of};

    ghost Value = { List OpFixup };

    ghost view = { λ fixups. map fixup_of fixups.acts.entries };
}

impl Fixups {
    /// No fixups, without taking memory.
    pub fn new(alloc: Global) -> Fixups
        ensures { result ≡ [] }
    {
        Fixups {
            acts: BTreeMap::new(alloc),
        }
    }

    /// Whether an address is fixed. Takes no memory.
    pub fn holds(&self, address: u64) -> bool
        ensures { result ≡ list_any (λ fixup. fixup.address == address) self.now }
    {
        self.acts.contains_key(&address)
    }

    /// With one more, at an address that isn't fixed; as it was where memory is refused.
    pub fn add(&mut self, address: u64, act: OpAct) -> Result<(), OutOfMemory>
        requires { list_any (λ fixup. fixup.address == address) self.old ≡ false }
        ensures ok { OnOk result (self.new ≡ machines.with_fixup (record { address = address; act = act }) self.old) }
        ensures err { OnErr result (self.new ≡ self.old) }
    {
        self.acts.insert(address, act)?;
        Ok(())
    }

    /// Their list.
    #[tactic(auto, using(crate::proofs::FixupLemmas::listed_more))]
    pub fn into_map(self, alloc: Global) -> Result<OpMap, OutOfMemory>
        ensures { IfOk result (λ fixups. fixups ≡ self) }
    {
        let mut fixups = Vec::with_capacity(alloc, self.acts.len())?;
        let Fixups { acts } = self;
        for (address, act) in acts {
            fixups.push(OpFixup { address, act })?;
        }
        Ok(Items::from_vec(fixups))
    }
}
