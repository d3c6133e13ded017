//! Open blocks.

ghost use Rattle.std.specs.Prelude.{◌≡◌, [], ◌∷◌, drop, OnOk, MatchOption};
ghost use Rattle.tbd_yaml.specs.Blocks.{is_map};

use crate::key_set::KeySet;
use mo_types::OutOfMemory;
use std::alloc::Global;
use std::marker::Model;

/// What kind of block is open.
#[derive(Clone, Copy, Debug, PartialEq, Eq)]
pub enum Form {
    Map,
    List,
    /// A list at the indentation of its key.
    KeyList,
}

/// An open block: its indentation in spaces, and the keys that it has so far, if it is a map.
#[derive(Drop)]
pub struct Block {
    pub column: usize,
    pub form: Form,
    pub keys: KeySet,
}

/// The open blocks, which contracts see with the innermost one first.
#[derive(Drop)]
pub struct BlockStack {
    blocks: Vec<Block>,
}

impl Model for BlockStack {
    ghost use Rattle.std.specs.Prelude.{List, reverse};
    ghost use Rattle.tbd_yaml.specs.declared.block.Block.{Block as OpenBlock};

    ghost Value = { List OpenBlock };

    ghost view = { λ stack. reverse stack.blocks.items };
}

impl BlockStack {
    /// No open block.
    pub fn new(alloc: Global) -> BlockStack
        ensures { result ≡ [] }
    {
        BlockStack {
            blocks: Vec::new(alloc),
        }
    }

    /// Opens a block within the innermost one.
    #[tactic(auto, using(crate::proofs::BlockLemmas::stack))]
    pub fn push(&mut self, block: Block) -> Result<(), OutOfMemory>
        ensures { OnOk result (self.new ≡ block ∷ self.old) }
    {
        self.blocks.push(block)?;
        Ok(())
    }

    /// Takes the innermost block.
    #[tactic(auto, using(crate::proofs::BlockLemmas::stack))]
    pub fn pop(&mut self) -> Option<Block>
        ensures { MatchOption result ((self.old ≡ []) × (self.new ≡ [])) (λ block. self.old ≡ block ∷ self.new) }
    {
        self.blocks.pop()
    }

    /// The innermost block.
    #[tactic(auto, using(crate::proofs::BlockLemmas::stack))]
    pub fn last(&self) -> Option<&Block>
        ensures { MatchOption result (self.now ≡ []) (λ block. self.now ≡ block.now ∷ drop 1 self.now) }
    {
        self.blocks.last()
    }
}
