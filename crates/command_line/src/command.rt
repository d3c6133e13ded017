//! What a command line asks for.
use mo_types::{Bytes, Items, NameList};

/// Where an input is looked for.
#[derive(Clone, Copy, Debug, PartialEq, Eq)]
pub enum InputForm {
    /// At the path that its value is.
    Path,
    /// In the directories of libraries, by the name that its value is.
    Library,
    /// In the directories of frameworks, by the name that its value is.
    Framework,
}

/// An input of a command line.
#[derive(Debug, Drop)]
pub struct CommandInput {
    pub form: InputForm,
    pub value: Bytes,
    /// It may be absent at run time.
    pub weak: bool,
    /// The image has its names too.
    pub reexport: bool,
    /// All of its members are loaded.
    pub forced: bool,
}

/// The inputs of a command line, in order.
pub type CommandInputList = Items<CommandInput>;

/// What a command line asks for (ld(1)).
#[derive(Debug, Drop)]
pub struct Command {
    /// The image is a dynamic library.
    pub dylib: bool,
    /// All archives are loaded whole.
    pub all_load: bool,
    /// What isn't reached from the roots is left out.
    pub dead_strip: bool,
    /// Names without a definition are looked up when the image is loaded.
    pub dynamic: bool,
    /// Fixups are written as opcodes.
    pub opcodes: bool,
    /// Identical code is folded.
    pub fold: bool,
    /// One of the options that name exported symbols is there.
    pub export_given: bool,
    /// The path of the image.
    pub output: Bytes,
    /// The name of the entry.
    pub entry: Bytes,
    /// The name of the dynamic library.
    pub install: Bytes,
    /// The least version of macOS, and that of the SDK, in 16, 8 and 8 bits.
    pub min: u32,
    pub sdk: u32,
    /// The versions of the dynamic library, in 16, 8 and 8 bits.
    pub current: u32,
    pub compatible: u32,
    /// How many bytes are kept free after the load commands.
    pub headerpad: u32,
    /// How far a branch reaches, in bytes.
    pub reach: u32,
    /// How many functions are made as inputs, or 0.
    pub generate: u32,
    /// Names that are wanted.
    pub roots: NameList,
    /// Names that are looked up in all images.
    pub flats: NameList,
    pub rpaths: NameList,
    pub library_dirs: NameList,
    pub framework_dirs: NameList,
    /// The paths of the lists of exported names, and exported names.
    pub export_files: NameList,
    pub exports: NameList,
    /// The paths of the lists of names that aren't exported, and names that aren't.
    pub unexport_files: NameList,
    pub unexports: NameList,
    /// The directory before absolute ones.
    pub syslibroot: Option<Bytes>,
    /// The path of the map file.
    pub map: Option<Bytes>,
    pub inputs: CommandInputList,
}
