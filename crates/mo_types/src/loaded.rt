use crate::atom::AtomList;
use crate::items::Items;
use crate::key::FileId;
use crate::object::Object;
use crate::ref_list::RefList;
use crate::string::Bytes;
use crate::unwind::UnwindList;

/// An object that takes part in the link, with its pieces and what leads from one to another.
#[derive(Debug, Drop)]
pub struct LoadedFile {
    pub id: FileId,
    /// What messages call it: the file's path, and of a member of an archive its name too.
    pub label: Bytes,
    pub object: Object,
    /// The pieces into which the object is cut.
    pub atoms: AtomList,
    /// The references of its pieces.
    pub refs: RefList,
    /// The unwind entries of its pieces.
    pub unwinds: UnwindList,
}

/// Loaded files in a stated order.
pub type LoadedList = Items<LoadedFile>;

/// The objects that take part in the link, by rising id.
#[derive(Debug, Drop)]
pub struct Loaded {
    pub files: LoadedList,
}
