//! What a text is: documents, each a tag and a tree.

use mo_types::{Bytes, Items};

/// A step of a walk through a tree from its root (YAML 1.2, 3.1: the events of a serialization). A node is a scalar;
/// or `BeginList`, its items, `End`; or `BeginMap`, for each pair its key and the value's node, `End`. So a tree is a
/// list, however deep it is.
#[derive(Debug, Drop, PartialEq, Eq)]
pub enum YamlEvent {
    Scalar(Bytes),
    Key(Bytes),
    BeginList,
    BeginMap,
    End,
}

/// The tree of a document, node by node.
pub type EventList = Items<YamlEvent>;

/// A document. Its tag is empty where the text gives none; its body is one node.
#[derive(Debug, Drop)]
pub struct YamlDoc {
    pub tag: Bytes,
    pub events: EventList,
}

/// The documents of a text, in order.
pub type DocList = Items<YamlDoc>;

/// The text of a stub library.
#[derive(Debug, Drop)]
pub struct YamlFile {
    pub docs: DocList,
}
