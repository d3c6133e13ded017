//! The lines of YAML 1.2, what a scalar is on a line, and the lists between brackets.
//!
//! The lower half of the reader of stub libraries: `lines` and `marks` tell what a line begins with, `scalars`,
//! `quoted` and `units` read a plain or quoted scalar and a key, and `flow_of` goes on in a list between brackets by
//! one line. The events of a tree and the faults of a text stand here too. `tbd_yaml` makes documents of the lines.
//!
//! The definitions stand in `specs/Lines.antt` (blanks, marks and what a line begins with), `specs/Scalars.antt`
//! (scalars and keys) and `specs/Flow.antt` (lists between brackets). A `YamlFault` is a line with its rule, or want
//! of memory.
//!
//! Their contracts refuse a body that closes a single-quoted scalar at two quotes, which stand for one.
#![tactic(auto)]

mod characters;
mod fault;
mod file;
mod flow;
mod lines;
mod marks;
mod quoted;
mod scalars;
mod token;
mod units;

pub use fault::YamlFault;
pub use file::{DocList, EventList, YamlDoc, YamlEvent, YamlFile};
pub use flow::{FlowPlace, FlowStart, FlowState, flow_of};
pub use lines::{begins_with, behind, behind_mark, blanks, is_bare, spaces};
pub use marks::{is_end, is_item, tag_of};
pub use scalars::{KeyText, key_of, scalar_of};
