//! The text of stub libraries: the part of YAML 1.2 in which TBD files are written.
//!
//! `read_yaml` answers exactly the documents of the definition, or the first fault (`file_of`, in `specs/File.antt`):
//! that of the first line that has one, and on it of the first rule. It wants fewer than 2^32 bytes. A `YamlDoc` has
//! the events of a walk through its tree; scalars are parts of the file where they stand there as they are. A
//! `YamlFault` is a line with its rule, or want of memory.
//!
//! The text is read line by line (`reading`). What a line begins with, and what its scalars are, is told by
//! `yaml_text`; `places` finds the open block to which a line belongs, `entries` what the line adds to it, and `docs`
//! ends a document. `block` has the stack of open blocks, and `key_set` the keys of a map, each of which stands there
//! once.
//!
//! The grammar stands beside this reading, as a relation between lines and trees (`specs/Grammar.antt`). What is read
//! is in the grammar and what is in the grammar is read, so what is refused isn't
//! (`what_is_refused_is_not_in_the_grammar`); and a text has at most one list of trees
//! (`a_text_has_one_list_of_trees`).
//!
//! Refused are a body that lets a key stand twice in one map, one that tells a list that stays open at the text's last
//! line, and one that reads on behind the line that ends the text.
#![tactic(auto)]

mod block;
mod body;
mod docs;
mod entries;
mod key_set;
mod laws;
mod places;
mod read;
mod reading;

pub use laws::{
    a_text_has_one_list_of_trees, a_walk_is_through_one_tree, each_document_is_a_tree,
    what_is_in_the_grammar_is_read, what_is_read_is_in_the_grammar,
    what_is_refused_is_not_in_the_grammar,
};
pub use read::read_yaml;
pub use yaml_text::{DocList, EventList, YamlDoc, YamlEvent, YamlFault, YamlFile};
