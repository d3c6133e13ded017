//! What the definitions say of trees.

ghost use Rattle.std.specs.Prelude.{◌≡◌, ℕ, List, Ok, Err};
ghost use Rattle.std.specs.List.{AllByRecursion};
ghost use Rattle.tbd_yaml.specs.File.{file_of};
ghost use Rattle.tbd_yaml.specs.Grammar.{AreDocumentsOf, Document, HasDocuments};
ghost use Rattle.yaml_text.specs.Lines.{lines_of};
ghost use Rattle.tbd_yaml.specs.Tree.{HasTree, Tree, events_of};
ghost use Rattle.yaml_text.specs.declared.fault.YamlFault.{YamlFault};
ghost use Rattle.yaml_text.specs.declared.file.YamlDoc.{YamlDoc};
ghost use Rattle.yaml_text.specs.declared.file.YamlFile.{YamlFile};

/// What is read stands in the grammar: the lines of the text are those of documents, with the trees whose walks were
/// read.
pub fn what_is_read_is_in_the_grammar()
    ensures { (text : List ℕ) (file : YamlFile) → file_of text ≡ Ok file → AreDocumentsOf (lines_of text) file.docs }
{}

/// What stands in the grammar is read: where the lines of a text are those of documents, the text is read as them.
pub fn what_is_in_the_grammar_is_read()
    ensures { (text : List ℕ) (docs : List YamlDoc) → AreDocumentsOf (lines_of text) docs → file_of text ≡ Ok (record { docs = docs }) }
{}

/// What is refused stands nowhere in the grammar: the lines of the text are those of no documents.
pub fn what_is_refused_is_not_in_the_grammar()
    ensures { (text : List ℕ) (fault : YamlFault) → file_of text ≡ Err fault → (docs : List YamlDoc) → AreDocumentsOf (lines_of text) docs → ⊥ }
{}

/// At most one list of trees belongs to a text.
pub fn a_text_has_one_list_of_trees()
    ensures { (text : List ℕ) (one other : List Document) → HasDocuments (lines_of text) one → HasDocuments (lines_of text) other → one ≡ other }
{}

/// What is read of each document is the walk through a tree.
pub fn each_document_is_a_tree()
    ensures { (text : List ℕ) (file : YamlFile) → file_of text ≡ Ok file → AllByRecursion HasTree file.docs }
{}

/// No two trees have one walk: at most one tree belongs to a document.
pub fn a_walk_is_through_one_tree()
    ensures { (one other : Tree) → events_of one ≡ events_of other → one ≡ other }
{}
