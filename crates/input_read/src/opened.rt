use input_files::SourceList;
use lib_bind::StubFileList;
use mo_types::LoadedList;

/// What the inputs of a command line are, in its order.
#[derive(Debug, Drop)]
pub struct Opened {
    /// The objects and archives.
    pub sources: SourceList,
    /// The files that are loaded of the objects.
    pub objects: LoadedList,
    /// The stub libraries.
    pub stubs: StubFileList,
}
