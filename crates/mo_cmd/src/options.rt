ghost use Rattle.std.specs.Prelude.{◌≡◌, ◌<◌, length, slice_index_or};
ghost use Rattle.mo_cmd.specs.Options as options;
ghost use Rattle.mo_cmd.specs.declared.options.CommandOption.TheVariants.{Unknown};

/// What a word of the command line stands for: an option of ld(1), a path, or nothing that is known.
#[derive(Clone, Copy, Debug, PartialEq, Eq)]
pub enum CommandOption {
    /// An executable is made.
    Execute,
    /// A dynamic library is made.
    Dylib,
    /// The path of the image.
    Output,
    /// The machine, `arm64`.
    Arch,
    /// The platform, its least version and that of the SDK.
    PlatformVersion,
    /// The name of the entry.
    Entry,
    /// A name that is wanted.
    Root,
    /// A name that is looked up when the image is loaded.
    Flat,
    /// What becomes of names without a definition.
    Undefined,
    /// The directory that stands before absolute ones.
    Syslibroot,
    /// A framework by its name.
    Framework,
    /// A framework that may be absent at run time.
    WeakFramework,
    /// A framework whose names the image has too.
    ReexportFramework,
    /// The path of a library that may be absent at run time.
    WeakLibrary,
    /// The path of a library whose names the image has too.
    ReexportLibrary,
    /// The path of an archive that is loaded whole.
    ForceLoad,
    /// All archives are loaded whole.
    AllLoad,
    /// What isn't reached is left out.
    DeadStrip,
    /// The name of the dynamic library.
    InstallName,
    /// The same.
    DylibInstallName,
    /// The version of the dynamic library.
    CurrentVersion,
    /// The same.
    DylibCurrentVersion,
    /// The version that the dynamic library is compatible with.
    CompatibilityVersion,
    /// The same.
    DylibCompatibilityVersion,
    /// A directory in which libraries are looked for at run time.
    Rpath,
    /// The path of a list of exported names.
    ExportedSymbolsList,
    /// An exported name.
    ExportedSymbol,
    /// The path of a list of names that aren't exported.
    UnexportedSymbolsList,
    /// A name that isn't exported.
    UnexportedSymbol,
    /// The path of the map file.
    Map,
    /// How many bytes are kept free after the load commands.
    Headerpad,
    /// How many workers there are.
    Threads,
    /// How far a branch reaches.
    BranchReach,
    /// How many functions are made as inputs.
    Generate,
    /// Whether identical code is folded.
    Icf,
    /// Without effect.
    Demangle,
    /// Without effect.
    Dynamic,
    /// Without effect.
    NoDeduplicate,
    /// Without effect.
    AdhocCodesign,
    /// Fixups are chains.
    FixupChains,
    /// Fixups are opcodes.
    NoFixupChains,
    /// Without effect.
    Pie,
    /// Without effect.
    SearchPathsFirst,
    /// Without effect.
    HeaderpadMaxInstallNames,
    /// Without effect.
    LtoLibrary,
    /// Without effect.
    Mllvm,
    /// A directory in which libraries are looked for; its value is attached.
    LibraryDir,
    /// A directory in which frameworks are looked for; its value is attached.
    FrameworkDir,
    /// A library by its name; its value is attached.
    Library,
    /// A library that may be absent at run time; its value is attached.
    WeakLibraryNamed,
    /// A library whose names the image has too; its value is attached.
    ReexportLibraryNamed,
    /// A path, an input.
    Path,
    /// A word that no row has.
    Unknown,
}

/// How many fields there are.
pub const FIELDS: usize = 29;

/// A field of the command, which one or more options give.
#[derive(Clone, Copy, Debug, PartialEq, Eq)]
pub enum CommandField {
    /// Whether the image is an executable or a dynamic library.
    Kind,
    /// The path of the image.
    Output,
    /// The versions of macOS.
    Platform,
    /// The entry.
    Entry,
    /// The names that are wanted.
    Roots,
    /// The names that are looked up when the image is loaded.
    Flats,
    /// What becomes of names without a definition.
    Undefined,
    /// The directory before absolute ones.
    Syslibroot,
    /// The directories of libraries.
    LibraryDirs,
    /// The directories of frameworks.
    FrameworkDirs,
    /// The inputs.
    Inputs,
    /// That all archives are loaded whole.
    AllLoad,
    /// That what isn't reached is left out.
    DeadStrip,
    /// The name of the dynamic library.
    Install,
    /// Its version.
    Current,
    /// The version that it is compatible with.
    Compatible,
    /// Directories for run time.
    Rpaths,
    /// Lists of exported names.
    ExportFiles,
    /// Exported names.
    Exports,
    /// Lists of names that aren't exported.
    UnexportFiles,
    /// Names that aren't exported.
    Unexports,
    /// The path of the map file.
    Map,
    /// The room after the load commands.
    Headerpad,
    /// The workers.
    Threads,
    /// The reach of a branch.
    Reach,
    /// The functions that are made.
    Generate,
    /// Whether identical code is folded.
    Folding,
    /// How fixups are written.
    Fixups,
    /// No field.
    Nothing,
}

impl CommandOption {
    /// The option's word, or for one with an attached value what stands before it.
    pub fn name(self) -> &'static [u8]
        ensures { result.now ≡ options.name_of self }
    {
        match self {
            CommandOption::Execute => b"-execute",
            CommandOption::Dylib => b"-dylib",
            CommandOption::Output => b"-o",
            CommandOption::Arch => b"-arch",
            CommandOption::PlatformVersion => b"-platform_version",
            CommandOption::Entry => b"-e",
            CommandOption::Root => b"-u",
            CommandOption::Flat => b"-U",
            CommandOption::Undefined => b"-undefined",
            CommandOption::Syslibroot => b"-syslibroot",
            CommandOption::Framework => b"-framework",
            CommandOption::WeakFramework => b"-weak_framework",
            CommandOption::ReexportFramework => b"-reexport_framework",
            CommandOption::WeakLibrary => b"-weak_library",
            CommandOption::ReexportLibrary => b"-reexport_library",
            CommandOption::ForceLoad => b"-force_load",
            CommandOption::AllLoad => b"-all_load",
            CommandOption::DeadStrip => b"-dead_strip",
            CommandOption::InstallName => b"-install_name",
            CommandOption::DylibInstallName => b"-dylib_install_name",
            CommandOption::CurrentVersion => b"-current_version",
            CommandOption::DylibCurrentVersion => b"-dylib_current_version",
            CommandOption::CompatibilityVersion => b"-compatibility_version",
            CommandOption::DylibCompatibilityVersion => b"-dylib_compatibility_version",
            CommandOption::Rpath => b"-rpath",
            CommandOption::ExportedSymbolsList => b"-exported_symbols_list",
            CommandOption::ExportedSymbol => b"-exported_symbol",
            CommandOption::UnexportedSymbolsList => b"-unexported_symbols_list",
            CommandOption::UnexportedSymbol => b"-unexported_symbol",
            CommandOption::Map => b"-map",
            CommandOption::Headerpad => b"-headerpad",
            CommandOption::Threads => b"-threads",
            CommandOption::BranchReach => b"-branch_reach",
            CommandOption::Generate => b"-generate",
            CommandOption::Icf => b"-icf",
            CommandOption::Demangle => b"-demangle",
            CommandOption::Dynamic => b"-dynamic",
            CommandOption::NoDeduplicate => b"-no_deduplicate",
            CommandOption::AdhocCodesign => b"-adhoc_codesign",
            CommandOption::FixupChains => b"-fixup_chains",
            CommandOption::NoFixupChains => b"-no_fixup_chains",
            CommandOption::Pie => b"-pie",
            CommandOption::SearchPathsFirst => b"-search_paths_first",
            CommandOption::HeaderpadMaxInstallNames => b"-headerpad_max_install_names",
            CommandOption::LtoLibrary => b"-lto_library",
            CommandOption::Mllvm => b"-mllvm",
            CommandOption::LibraryDir => b"-L",
            CommandOption::FrameworkDir => b"-F",
            CommandOption::Library => b"-l",
            CommandOption::WeakLibraryNamed => b"-weak-l",
            CommandOption::ReexportLibraryNamed => b"-reexport-l",
            CommandOption::Path | CommandOption::Unknown => b"",
        }
    }

    /// How many words after the option's are its values.
    pub fn values(self) -> usize
        ensures { result ≡ options.values_of self }
    {
        match self {
            CommandOption::PlatformVersion => 3,
            CommandOption::Execute
            | CommandOption::Dylib
            | CommandOption::AllLoad
            | CommandOption::DeadStrip
            | CommandOption::Demangle
            | CommandOption::Dynamic
            | CommandOption::NoDeduplicate
            | CommandOption::AdhocCodesign
            | CommandOption::FixupChains
            | CommandOption::NoFixupChains
            | CommandOption::Pie
            | CommandOption::SearchPathsFirst
            | CommandOption::HeaderpadMaxInstallNames
            | CommandOption::LibraryDir
            | CommandOption::FrameworkDir
            | CommandOption::Library
            | CommandOption::WeakLibraryNamed
            | CommandOption::ReexportLibraryNamed
            | CommandOption::Path
            | CommandOption::Unknown => 0,
            _ => 1,
        }
    }

    /// The field that the option gives.
    pub fn field(self) -> CommandField
        ensures { result ≡ options.field_of self }
    {
        match self {
            CommandOption::Execute | CommandOption::Dylib => CommandField::Kind,
            CommandOption::Output => CommandField::Output,
            CommandOption::PlatformVersion => CommandField::Platform,
            CommandOption::Entry => CommandField::Entry,
            CommandOption::Root => CommandField::Roots,
            CommandOption::Flat => CommandField::Flats,
            CommandOption::Undefined => CommandField::Undefined,
            CommandOption::Syslibroot => CommandField::Syslibroot,
            CommandOption::LibraryDir => CommandField::LibraryDirs,
            CommandOption::FrameworkDir => CommandField::FrameworkDirs,
            CommandOption::Framework
            | CommandOption::WeakFramework
            | CommandOption::ReexportFramework
            | CommandOption::WeakLibrary
            | CommandOption::ReexportLibrary
            | CommandOption::ForceLoad
            | CommandOption::Library
            | CommandOption::WeakLibraryNamed
            | CommandOption::ReexportLibraryNamed
            | CommandOption::Path => CommandField::Inputs,
            CommandOption::AllLoad => CommandField::AllLoad,
            CommandOption::DeadStrip => CommandField::DeadStrip,
            CommandOption::InstallName | CommandOption::DylibInstallName => CommandField::Install,
            CommandOption::CurrentVersion | CommandOption::DylibCurrentVersion =>
                CommandField::Current,
            CommandOption::CompatibilityVersion | CommandOption::DylibCompatibilityVersion =>
                CommandField::Compatible,
            CommandOption::Rpath => CommandField::Rpaths,
            CommandOption::ExportedSymbolsList => CommandField::ExportFiles,
            CommandOption::ExportedSymbol => CommandField::Exports,
            CommandOption::UnexportedSymbolsList => CommandField::UnexportFiles,
            CommandOption::UnexportedSymbol => CommandField::Unexports,
            CommandOption::Map => CommandField::Map,
            CommandOption::Headerpad => CommandField::Headerpad,
            CommandOption::Threads => CommandField::Threads,
            CommandOption::BranchReach => CommandField::Reach,
            CommandOption::Generate => CommandField::Generate,
            CommandOption::Icf => CommandField::Folding,
            CommandOption::FixupChains | CommandOption::NoFixupChains => CommandField::Fixups,
            _ => CommandField::Nothing,
        }
    }
}

impl CommandField {
    /// The field's place among the fields.
    pub fn number(self) -> usize
        ensures value { result ≡ options.number_of self }
        ensures within { result < FIELDS }
    {
        match self {
            CommandField::Kind => 0,
            CommandField::Output => 1,
            CommandField::Platform => 2,
            CommandField::Entry => 3,
            CommandField::Roots => 4,
            CommandField::Flats => 5,
            CommandField::Undefined => 6,
            CommandField::Syslibroot => 7,
            CommandField::LibraryDirs => 8,
            CommandField::FrameworkDirs => 9,
            CommandField::Inputs => 10,
            CommandField::AllLoad => 11,
            CommandField::DeadStrip => 12,
            CommandField::Install => 13,
            CommandField::Current => 14,
            CommandField::Compatible => 15,
            CommandField::Rpaths => 16,
            CommandField::ExportFiles => 17,
            CommandField::Exports => 18,
            CommandField::UnexportFiles => 19,
            CommandField::Unexports => 20,
            CommandField::Map => 21,
            CommandField::Headerpad => 22,
            CommandField::Threads => 23,
            CommandField::Reach => 24,
            CommandField::Generate => 25,
            CommandField::Folding => 26,
            CommandField::Fixups => 27,
            CommandField::Nothing => 28,
        }
    }
}

// The options by the keys of their words. No two words have one key.
static BY_KEY: [CommandOption; 112] = [
    CommandOption::Unknown,
    CommandOption::ReexportLibrary,
    CommandOption::Unknown,
    CommandOption::UnexportedSymbolsList,
    CommandOption::Arch,
    CommandOption::AdhocCodesign,
    CommandOption::Unknown,
    CommandOption::Unknown,
    CommandOption::Demangle,
    CommandOption::Syslibroot,
    CommandOption::Root,
    CommandOption::Unknown,
    CommandOption::ReexportFramework,
    CommandOption::PlatformVersion,
    CommandOption::Output,
    CommandOption::Unknown,
    CommandOption::Unknown,
    CommandOption::Unknown,
    CommandOption::Unknown,
    CommandOption::Unknown,
    CommandOption::Execute,
    CommandOption::Unknown,
    CommandOption::Unknown,
    CommandOption::NoFixupChains,
    CommandOption::Unknown,
    CommandOption::Unknown,
    CommandOption::Unknown,
    CommandOption::Unknown,
    CommandOption::BranchReach,
    CommandOption::DeadStrip,
    CommandOption::DylibInstallName,
    CommandOption::Mllvm,
    CommandOption::Unknown,
    CommandOption::Unknown,
    CommandOption::Threads,
    CommandOption::Unknown,
    CommandOption::Unknown,
    CommandOption::Unknown,
    CommandOption::Unknown,
    CommandOption::Unknown,
    CommandOption::Unknown,
    CommandOption::Unknown,
    CommandOption::Unknown,
    CommandOption::Unknown,
    CommandOption::Unknown,
    CommandOption::DylibCurrentVersion,
    CommandOption::Unknown,
    CommandOption::Rpath,
    CommandOption::NoDeduplicate,
    CommandOption::SearchPathsFirst,
    CommandOption::Unknown,
    CommandOption::Unknown,
    CommandOption::Unknown,
    CommandOption::ExportedSymbolsList,
    CommandOption::ExportedSymbol,
    CommandOption::Unknown,
    CommandOption::Unknown,
    CommandOption::Unknown,
    CommandOption::Entry,
    CommandOption::Unknown,
    CommandOption::Unknown,
    CommandOption::Unknown,
    CommandOption::Unknown,
    CommandOption::Unknown,
    CommandOption::Unknown,
    CommandOption::Unknown,
    CommandOption::Unknown,
    CommandOption::Unknown,
    CommandOption::Undefined,
    CommandOption::Unknown,
    CommandOption::Generate,
    CommandOption::Unknown,
    CommandOption::Unknown,
    CommandOption::Unknown,
    CommandOption::Unknown,
    CommandOption::WeakFramework,
    CommandOption::FixupChains,
    CommandOption::Unknown,
    CommandOption::Dylib,
    CommandOption::AllLoad,
    CommandOption::Unknown,
    CommandOption::UnexportedSymbol,
    CommandOption::Unknown,
    CommandOption::CompatibilityVersion,
    CommandOption::Unknown,
    CommandOption::Unknown,
    CommandOption::Framework,
    CommandOption::Unknown,
    CommandOption::Pie,
    CommandOption::Unknown,
    CommandOption::Unknown,
    CommandOption::Headerpad,
    CommandOption::Unknown,
    CommandOption::Icf,
    CommandOption::Unknown,
    CommandOption::ForceLoad,
    CommandOption::Unknown,
    CommandOption::Unknown,
    CommandOption::Unknown,
    CommandOption::Unknown,
    CommandOption::LtoLibrary,
    CommandOption::CurrentVersion,
    CommandOption::Dynamic,
    CommandOption::WeakLibrary,
    CommandOption::HeaderpadMaxInstallNames,
    CommandOption::Map,
    CommandOption::Flat,
    CommandOption::Unknown,
    CommandOption::DylibCompatibilityVersion,
    CommandOption::Unknown,
    CommandOption::Unknown,
    CommandOption::InstallName,
];

// A number that tells the words of options apart.
#[tactic(auto, unfolding(crate::specs::Options::key_of))]
fn key(word: &[u8]) -> usize
    requires { 1 < length word.now }
    ensures value { result ≡ options.key_of word.now }
    ensures within { result < 112 }
{
    let len = word.len();
    let second = usize::from(word[1]);
    let middle = usize::from(word[len / 2]);
    let last = usize::from(word[len - 1]);
    (16 * (len % 7) + 6 * second + 11 * middle + last) % 112
}

fn at_key(table: &[CommandOption], key: usize) -> CommandOption
    requires { key < length table.now }
    ensures { result ≡ slice_index_or table.now key Unknown }
{
    table[key]
}

/// The option of which a word is the whole word.
#[tactic(auto, using(crate::proofs::KeyLemmas::keys))]
pub fn option_named(word: &[u8]) -> Option<CommandOption>
    ensures { result ≡ options.option_named word.now }
{
    if word.len() < 2 {
        return None;
    }
    let option = at_key(&BY_KEY, key(word));
    if option.name() == word {
        Some(option)
    } else {
        None
    }
}
