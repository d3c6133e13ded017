//! What the definitions say of stub libraries.

ghost use Rattle.std.specs.Prelude.{◌≡◌, ℕ, List, Ok};
ghost use Rattle.tbd_yaml.specs.Tree.{Tree, events_of};
ghost use Rattle.yaml_text.specs.declared.file.YamlFile.{YamlFile};
ghost use Rattle.tbd_doc.specs.Exports.{AreExports, exports_of};
ghost use Rattle.tbd_doc.specs.Nodes.{tree_of};
ghost use Rattle.tbd_doc.specs.Stubs.{IsWhole, stub_file_of};
ghost use Rattle.tbd_doc.specs.declared.stub.StubFile.{StubFile};

/// The tree that is read of the walk through a tree is that tree.
pub fn a_walk_is_read_as_its_tree()
    ensures { (tree : Tree) → tree_of (events_of tree) ≡ tree }
{}

/// The exports of some names stand in order, each once; each name is exported, and nothing else; and an export is weak
/// just where its name is among the weak ones.
pub fn exports_are_those_of_names()
    ensures { (names weak : List (List ℕ)) → AreExports names weak (exports_of names weak) }
{}

/// What is read is whole: the exports of each document stand in order.
pub fn what_is_read_is_whole()
    ensures { (file : YamlFile) (stubs : StubFile) → stub_file_of file ≡ Ok stubs → IsWhole stubs }
{}
