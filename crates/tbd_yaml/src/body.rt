//! The body of a document that is read, line by line.

ghost use Rattle.std.specs.Prelude.{◌≡◌};
ghost use Rattle.tbd_yaml.specs.Blocks as blocks;

use crate::block::BlockStack;
use mo_types::Items;
use std::alloc::Global;
use yaml_text::EventList;

/// A flow list that the last line left open: the number of the line that opened it, and whether it wants a scalar.
#[derive(Clone, Copy, Debug)]
pub struct FlowList {
    pub opened: u32,
    pub wants: bool,
}

/// The body of a document up to some line: its tree, the open blocks, whether the last key or the document waits for
/// its value, and the open flow list.
#[derive(Drop)]
pub struct Body {
    pub events: EventList,
    pub blocks: BlockStack,
    pub awaits: bool,
    pub flow: Option<FlowList>,
}

/// The body of a document that has just begun.
pub fn new_body(alloc: Global) -> Body
    ensures { result ≡ blocks.new_body }
{
    Body {
        events: Items::new(alloc),
        blocks: BlockStack::new(alloc),
        awaits: true,
        flow: None,
    }
}
