ghost use Rattle.std.specs.Prelude.{◌≡◌};
ghost use Rattle.mo_types.specs.Cause.{rule_text, feature_text, which_text, range_kind_text, usage_rule_text};

/// A rule that every input keeps (for the formats see `loader.h`, `nlist.h`, `reloc.h`, TBD version 4).
#[derive(Clone, Copy, Debug, PartialEq, Eq)]
pub enum Rule {
    /// The first bytes are those of no kind of input.
    NotAnInput,
    /// The file ends before its header does.
    Header,
    /// A load command passes the commands or the file, or its size isn't a multiple of 8 from 8 on.
    Commands,
    /// A segment command's size isn't that of its sections, a second one of its kind, or too many sections.
    Segment,
    /// A section's bytes lie outside the file, or its addresses are too high.
    Section,
    /// A section's relocations lie outside the file.
    Relocations,
    /// The symbol table's command has another size, or its tables lie outside the file.
    Symbols,
    /// A symbol's name, section number or value is out of its range.
    Symbol,
    /// A literal section isn't whole literals.
    Literals,
    /// The first relocation of a pair isn't followed by its second.
    Pair,
    /// No relocation has these flags.
    Shape,
    /// A relocation's field lies where none may lie.
    Place,
    /// A relocation names nothing that it may name.
    Target,
    /// An entry of compact unwind is at fault.
    Unwind,
    /// An archive's member is at fault.
    Member,
    /// An archive's table of contents is at fault.
    Contents,
    /// A universal file has no slice for arm64.
    NoSlice,
    /// A slice lies outside its universal file.
    Slice,
    /// A text isn't UTF-8.
    Utf8,
    /// A text has no document, or stands before it.
    Open,
    /// A tab stands in an indentation.
    Tab,
    /// An indentation belongs to no open block.
    Indent,
    /// A line is no key, or a key stands twice.
    Key,
    /// A flow list isn't closed.
    Flow,
    /// A quoted scalar isn't closed.
    Quote,
    /// A quoted scalar has an unknown escape.
    Escape,
    /// A plain scalar begins with a forbidden character.
    Scalar,
    /// A stub library isn't for arm64.
    NoTarget,
    /// A key of a stub library has a value of another form.
    BadKey,
}

impl Rule {
    /// The variant's name in lower case, as messages show it.
    pub fn as_str(self) -> &'static str
        ensures { result.now ≡ rule_text self }
    {
        match self {
            Rule::NotAnInput => "notaninput",
            Rule::Header => "header",
            Rule::Commands => "commands",
            Rule::Segment => "segment",
            Rule::Section => "section",
            Rule::Relocations => "relocations",
            Rule::Symbols => "symbols",
            Rule::Symbol => "symbol",
            Rule::Literals => "literals",
            Rule::Pair => "pair",
            Rule::Shape => "shape",
            Rule::Place => "place",
            Rule::Target => "target",
            Rule::Unwind => "unwind",
            Rule::Member => "member",
            Rule::Contents => "contents",
            Rule::NoSlice => "noslice",
            Rule::Slice => "slice",
            Rule::Utf8 => "utf8",
            Rule::Open => "open",
            Rule::Tab => "tab",
            Rule::Indent => "indent",
            Rule::Key => "key",
            Rule::Flow => "flow",
            Rule::Quote => "quote",
            Rule::Escape => "escape",
            Rule::Scalar => "scalar",
            Rule::NoTarget => "notarget",
            Rule::BadKey => "badkey",
        }
    }
}

/// A feature of an input that the linker doesn't have.
#[derive(Clone, Copy, Debug, PartialEq, Eq)]
pub enum Feature {
    /// A section's type.
    SectionType,
    /// An Objective-C section.
    ObjcSection,
    /// An alignment above 2^14.
    Alignment,
    /// Code outside `__TEXT`.
    CodeSegment,
    /// A section in a segment of the linker's own.
    SegmentName,
    /// A zerofill section in `__TEXT`.
    TextZerofill,
    /// An alias, a resolver, or a prebound symbol.
    SymbolKind,
    /// An absolute symbol that other files see, or that a relocation names.
    Absolute,
    /// An authenticated pointer.
    PointerAuth,
    /// Another machine than arm64.
    Machine,
    /// Another kind of Mach-O file.
    FileType,
    /// A 64-bit universal file.
    Fat64,
    /// A thin archive.
    ThinArchive,
    /// A GNU archive.
    GnuArchive,
    /// A 64-bit archive.
    Archive64,
    /// LLVM bitcode.
    Bitcode,
    /// A stub library of another version.
    Tbd,
    /// A wildcard in a list of names.
    Wildcard,
    /// A frame that only DWARF describes.
    EhFrame,
    /// A form that comes with a later version.
    Later,
}

impl Feature {
    /// The variant's name in lower case, as messages show it.
    pub fn as_str(self) -> &'static str
        ensures { result.now ≡ feature_text self }
    {
        match self {
            Feature::SectionType => "sectiontype",
            Feature::ObjcSection => "objcsection",
            Feature::Alignment => "alignment",
            Feature::CodeSegment => "codesegment",
            Feature::SegmentName => "segmentname",
            Feature::TextZerofill => "textzerofill",
            Feature::SymbolKind => "symbolkind",
            Feature::Absolute => "absolute",
            Feature::PointerAuth => "pointerauth",
            Feature::Machine => "machine",
            Feature::FileType => "filetype",
            Feature::Fat64 => "fat64",
            Feature::ThinArchive => "thinarchive",
            Feature::GnuArchive => "gnuarchive",
            Feature::Archive64 => "archive64",
            Feature::Bitcode => "bitcode",
            Feature::Tbd => "tbd",
            Feature::Wildcard => "wildcard",
            Feature::EhFrame => "ehframe",
            Feature::Later => "later",
        }
    }
}

/// A quantity that has a limit, which is reached at the number given here.
#[derive(Clone, Copy, Debug, PartialEq, Eq)]
pub enum Which {
    /// 65,536 inputs.
    Inputs,
    /// 2^30 bytes in one file.
    FileBytes,
    /// 2^20 members in one archive.
    Members,
    /// 2^24 symbols in one object.
    Symbols,
    /// 2^24 names.
    Names,
    /// 2^24 atoms.
    Atoms,
    /// 241 libraries.
    Libraries,
    /// Four personality functions.
    Personalities,
    /// 2^24 imports of the image.
    Imports,
    /// 256 sections in the image.
    Sections,
}

impl Which {
    /// The variant's name in lower case, as messages show it.
    pub fn as_str(self) -> &'static str
        ensures { result.now ≡ which_text self }
    {
        match self {
            Which::Inputs => "inputs",
            Which::FileBytes => "filebytes",
            Which::Members => "members",
            Which::Symbols => "symbols",
            Which::Names => "names",
            Which::Atoms => "atoms",
            Which::Libraries => "libraries",
            Which::Personalities => "personalities",
            Which::Imports => "imports",
            Which::Sections => "sections",
        }
    }
}

/// A value that doesn't fit its field.
#[derive(Clone, Copy, Debug, PartialEq, Eq)]
pub enum RangeKind {
    /// The image has 2^32 bytes or more; the value is its size.
    ImageSize,
    /// A branch's distance in bytes.
    Branch,
    /// A distance in pages.
    Page,
    /// Low 12 bits that the access size doesn't divide.
    LowBits,
    /// A difference that has no 32 bits.
    Diff32,
    /// A distance to a slot that has no 32 bits.
    GotDelta,
    /// The image offset of a pointer's target.
    RebaseTarget,
    /// The image offset of a pointer where no fixup may be.
    FixupPlace,
}

impl RangeKind {
    /// The variant's name in lower case, as messages show it.
    pub fn as_str(self) -> &'static str
        ensures { result.now ≡ range_kind_text self }
    {
        match self {
            RangeKind::ImageSize => "imagesize",
            RangeKind::Branch => "branch",
            RangeKind::Page => "page",
            RangeKind::LowBits => "lowbits",
            RangeKind::Diff32 => "diff32",
            RangeKind::GotDelta => "gotdelta",
            RangeKind::RebaseTarget => "rebasetarget",
            RangeKind::FixupPlace => "fixupplace",
        }
    }
}

/// A rule that every command line keeps.
#[derive(Clone, Copy, Debug, PartialEq, Eq)]
pub enum UsageRule {
    /// No option is written so, or the word holds a NUL.
    Unknown,
    /// The option is followed by too few words.
    NoValue,
    /// The option's value is out of its form.
    BadValue,
    /// The word is for a dynamic library alone.
    DylibOnly,
    /// No word names an input.
    NoInput,
}

impl UsageRule {
    /// The variant's name in lower case, as messages show it.
    pub fn as_str(self) -> &'static str
        ensures { result.now ≡ usage_rule_text self }
    {
        match self {
            UsageRule::Unknown => "unknown",
            UsageRule::NoValue => "novalue",
            UsageRule::BadValue => "badvalue",
            UsageRule::DylibOnly => "dylibonly",
            UsageRule::NoInput => "noinput",
        }
    }
}
