//! The end of a document.

ghost use Rattle.std.specs.Prelude.{◌≡◌, ◌++◌, map, Ok};
ghost use Rattle.mo_types.specs.Gives.{Gives};
ghost use Rattle.yaml_text.specs.FaultText.{IsYamlFault};
ghost use Rattle.tbd_yaml.specs.Blocks as spec;
ghost use Rattle.tbd_yaml.specs.File as files;

use crate::block::BlockStack;
use crate::body::Body;
use crate::places::answered;
use crate::reading::OpenDoc;
use yaml_text::{DocList, EventList, YamlDoc, YamlEvent, YamlFault};

/// Ends all open blocks.
#[tactic(auto, using(crate::proofs::BlockLemmas::endings))]
fn all_closed(blocks: BlockStack, events: EventList) -> Result<EventList, YamlFault>
    ensures { Gives IsYamlFault result (Ok (events ++ map (λ _. YamlEvent.End) blocks)) }
{
    let mut blocks = blocks;
    let mut events = events;
    while let Some(_block) = blocks.pop() {
        events.push(YamlEvent::End)?;
    }
    Ok(events)
}

/// The whole tree of a body that ends.
#[tactic(auto, unfolding(crate::specs::Blocks::whole_events))]
fn whole_events(body: Body) -> Result<EventList, YamlFault>
    ensures { Gives IsYamlFault result (Ok (spec.whole_events body)) }
{
    let body = answered(body)?;
    all_closed(body.blocks, body.events)
}

/// The documents with the open one at their end.
pub fn docs_with(docs: DocList, last: Option<OpenDoc>) -> Result<DocList, YamlFault>
    ensures { Gives IsYamlFault result (Ok (files.docs_with docs last)) }
{
    let mut docs = docs;
    match last {
        None => {}
        Some(open) => {
            let OpenDoc { tag, body } = open;
            let events = whole_events(body)?;
            docs.push(YamlDoc { tag, events })?;
        }
    }
    Ok(docs)
}
