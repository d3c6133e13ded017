//! The types that crates share: what no clause says, that calls succeed with ample memory, and that the words are the
//! meant ones.
use crate::first_wrong;
use crate::messages::{answers_have_lines, messages_are_cut_off};
use mo_types::*;
use std::alloc::{AllocError, Global};
use std::fmt::Debug;
use std::test::Fail;
use test_objects::{defined, file, file_id, object_of, section, symbol};

fn is_named(alloc: Global, variant: &impl Debug, name: &str) -> Result<bool, AllocError> {
    let mut lower_case = format!(in alloc; "{variant:?}")?;
    lower_case.make_ascii_lowercase();
    Ok(lower_case.as_str() == name)
}

fn rules_are_named(alloc: Global) -> Result<bool, AllocError> {
    for cause in [
        Rule::NotAnInput,
        Rule::Header,
        Rule::Commands,
        Rule::Segment,
        Rule::Section,
        Rule::Relocations,
        Rule::Symbols,
        Rule::Symbol,
        Rule::Literals,
        Rule::Pair,
        Rule::Shape,
        Rule::Place,
        Rule::Target,
        Rule::Unwind,
        Rule::Member,
        Rule::Contents,
        Rule::NoSlice,
        Rule::Slice,
        Rule::Utf8,
        Rule::Open,
        Rule::Tab,
        Rule::Indent,
        Rule::Key,
        Rule::Flow,
        Rule::Quote,
        Rule::Escape,
        Rule::Scalar,
        Rule::NoTarget,
        Rule::BadKey,
    ] {
        if !is_named(alloc, &cause, cause.as_str())? {
            return Ok(false);
        }
    }
    Ok(true)
}

fn features_are_named(alloc: Global) -> Result<bool, AllocError> {
    for cause in [
        Feature::SectionType,
        Feature::ObjcSection,
        Feature::Alignment,
        Feature::CodeSegment,
        Feature::SegmentName,
        Feature::TextZerofill,
        Feature::SymbolKind,
        Feature::Absolute,
        Feature::PointerAuth,
        Feature::Machine,
        Feature::FileType,
        Feature::Fat64,
        Feature::ThinArchive,
        Feature::GnuArchive,
        Feature::Archive64,
        Feature::Bitcode,
        Feature::Tbd,
        Feature::Wildcard,
        Feature::EhFrame,
        Feature::Later,
    ] {
        if !is_named(alloc, &cause, cause.as_str())? {
            return Ok(false);
        }
    }
    Ok(true)
}

fn limits_are_named(alloc: Global) -> Result<bool, AllocError> {
    for cause in [
        Which::Inputs,
        Which::FileBytes,
        Which::Members,
        Which::Symbols,
        Which::Names,
        Which::Atoms,
        Which::Libraries,
        Which::Personalities,
        Which::Imports,
        Which::Sections,
    ] {
        if !is_named(alloc, &cause, cause.as_str())? {
            return Ok(false);
        }
    }
    Ok(true)
}

fn ranges_are_named(alloc: Global) -> Result<bool, AllocError> {
    for cause in [
        RangeKind::ImageSize,
        RangeKind::Branch,
        RangeKind::Page,
        RangeKind::LowBits,
        RangeKind::Diff32,
        RangeKind::GotDelta,
        RangeKind::RebaseTarget,
        RangeKind::FixupPlace,
    ] {
        if !is_named(alloc, &cause, cause.as_str())? {
            return Ok(false);
        }
    }
    Ok(true)
}

fn usage_rules_are_named(alloc: Global) -> Result<bool, AllocError> {
    for cause in [
        UsageRule::Unknown,
        UsageRule::NoValue,
        UsageRule::BadValue,
        UsageRule::DylibOnly,
        UsageRule::NoInput,
    ] {
        if !is_named(alloc, &cause, cause.as_str())? {
            return Ok(false);
        }
    }
    Ok(true)
}

fn read_fault() -> Status {
    Status::ReadFault {
        path: Bytes::from_static(b"main.o"),
    }
}

fn refused() -> Status {
    Status::Refused(Refusal::Limit {
        which: Which::Atoms,
    })
}

fn usage() -> Status {
    Status::Usage {
        word: 1,
        rule: UsageRule::Unknown,
    }
}

// Each answer with the exit status of the program.
fn codes_are_the_programs() -> bool {
    let answers = [
        (Status::Done, 0),
        (refused(), 1),
        (usage(), 2),
        (read_fault(), 3),
        (Status::WriteFault, 3),
        (Status::OutOfMemory, 4),
        (Status::from(OutOfMemory), 4),
        (Status::from(AllocError), 4),
    ];
    for (answer, code) in &answers {
        if answer.code() != *code {
            return false;
        }
    }
    true
}

// A message shows each cause by its variant's name in lower case, which `Debug` prints.
fn causes_are_named(alloc: Global) -> Result<bool, AllocError> {
    Ok(
        rules_are_named(alloc)?
            && features_are_named(alloc)?
            && limits_are_named(alloc)?
            && ranges_are_named(alloc)?
            && usage_rules_are_named(alloc)?,
    )
}

fn want_of_memory_is_told(alloc: Global) -> Result<bool, AllocError> {
    Ok(OutOfMemory.to_string(alloc)?.as_str() == "out of memory")
}

// Parts of a shared string are its bytes, and outlive it.
fn parts_are_shared(alloc: Global) -> Result<bool, OutOfMemory> {
    let whole = Bytes::from_vec(vec![in alloc; 7; 5000]?)?;
    if whole.len() != 5000 {
        return Ok(false);
    }
    let part = whole.part(4000, 1000)?;
    drop(whole);
    let copy = part.clone()?;
    drop(part);
    Ok(copy.len() == 1000 && copy.as_slice().iter().all(|byte| *byte == 7))
}

fn copies_are_alike(alloc: Global) -> Result<bool, OutOfMemory> {
    let name = Bytes::from_slice(alloc, b"_ab")?;
    let copy = name.clone()?;
    Ok(copy == name)
}

fn parts_end_with_their_string(alloc: Global) -> Result<bool, OutOfMemory> {
    let name = Bytes::from_slice(alloc, b"_ab")?;
    for (at, size, expected) in [(1, 2, b"ab".as_slice()), (3, 0, b"")] {
        if name.part(at, size)?.as_slice() != expected {
            return Ok(false);
        }
    }
    Ok(true)
}

fn parts_of_parts_are_told(alloc: Global) -> Result<bool, OutOfMemory> {
    let part = Bytes::from_slice(alloc, b"abcdef")?.part(1, 4)?;
    let inner = part.part(1, 2)?;
    let constant = Bytes::from_static(b"abc").part(1, 1)?;
    Ok(
        part.as_slice() == b"bcde".as_slice()
            && inner.as_slice() == b"cd".as_slice()
            && inner.len() == 2
            && constant.as_slice() == b"b".as_slice(),
    )
}

fn strings_are_ordered_byte_by_byte() -> bool {
    let name = Bytes::from_static(b"_a");
    let longer = Bytes::from_static(b"_a\0");
    let later = Bytes::from_static(b"\xff");
    Bytes::new() < name && name < longer && longer < later
}

fn words_are_their_bytes(alloc: Global) -> Result<bool, AllocError> {
    let word = Arg::new(String::from_str(alloc, "-o")?);
    Ok(word.as_bytes() == b"-o".as_slice())
}

fn lists_keep_their_elements(alloc: Global) -> Result<bool, OutOfMemory> {
    let mut list = Items::new(alloc);
    for number in [3u32, 1, 2] {
        list.push(number)?;
    }
    let same = list.as_slice() == [3, 1, 2].as_slice() && list.get(3).is_none();
    let mut again = Items::from_vec(list.into_vec());
    for number in 3..5000 {
        again.push(number)?;
    }
    Ok(same && again.len() == 5000 && again.get(4999).copied() == Some(4999))
}

// Files and atoms are ordered by their fields in turn.
fn keys_rise() -> bool {
    let mut last = None;
    for (position, member, section, offset) in [
        (0, 0, 1, 0),
        (0, 0, 1, 8),
        (0, 0, 2, 0),
        (0, 1, 1, 0),
        (1, 0, 1, 0),
    ] {
        let key = AtomKey {
            file: FileId { position, member },
            section,
            offset,
        };
        if last >= Some(key) {
            return false;
        }
        last = Some(key);
    }
    true
}

// Workers in threads of their own may read it.
fn is_shared<T: Send + Sync>(_read: &T) -> bool {
    true
}

// A thousand files, by rising id.
fn files_are_loaded(alloc: Global) -> Result<bool, OutOfMemory> {
    let mut files = LoadedList::new(alloc);
    for member in 1..1001 {
        let id = FileId {
            position: 0,
            member,
        };
        let object = defining(alloc, 2, b"a\0", 1, 0x100)?;
        files.push(LoadedFile {
            label: Bytes::from_static(b"lib.a(a.o)"),
            ..file(alloc, id, object)
        })?;
    }
    let loaded = Loaded { files };
    let last = loaded.files.get(999).map(|file| file.id.member);
    Ok(is_shared(&loaded) && last == Some(1000))
}

// References of every sort: to a symbol, to a difference of two, and those that are kept whole.
fn reference(sort: u32, number: u32) -> Ref {
    let far = u64::from(number) << 32;
    let atom = AtomKey {
        file: FileId {
            position: 3,
            member: u32::from(sort == 2),
        },
        section: 1,
        offset: if sort == 3 {
            far
        } else {
            8 * u64::from(number)
        },
    };
    Ref {
        atom,
        place: if sort == 4 { far } else { 4 },
        file_place: if sort == 5 { far } else { 12 },
        kind: RefKind::Pointer,
        target: match sort {
            6 => Target::Local(atom, 2),
            _ => Target::Name(number),
        },
        minus: match sort {
            1 => Some(Target::Name(number ^ 1)),
            7 => Some(Target::Local(atom, 2)),
            _ => None,
        },
        addend: if sort == 8 { i64::MIN } else { -1 },
    }
}

fn many_references(alloc: Global) -> Result<RefList, OutOfMemory> {
    let mut refs = RefList::new(alloc, file_id(3));
    refs.reserve(9000)?;
    for number in 0..9000 {
        refs.push(reference(number % 9, number))?;
    }
    Ok(refs)
}

fn are_references(refs: &RefList) -> bool {
    for number in 0..9000 {
        if refs.get(number as usize) != Some(reference(number % 9, number)) {
            return false;
        }
    }
    refs.len() == 9000 && refs.get(9000).is_none()
}

// Whether a list of one reference of a sort has one that leads straight to an atom.
fn has_local(alloc: Global, sort: u32) -> Result<bool, OutOfMemory> {
    let mut refs = RefList::new(alloc, file_id(3));
    refs.push(reference(sort, 1))?;
    Ok(refs.has_local())
}

fn references_to_atoms_are_told(alloc: Global) -> Result<bool, OutOfMemory> {
    for sort in 0..9 {
        if has_local(alloc, sort)? != (sort == 6 || sort == 7) {
            return Ok(false);
        }
    }
    Ok(many_references(alloc)?.has_local())
}

fn lists_of_references_lose_nothing(alloc: Global) -> Result<bool, OutOfMemory> {
    let refs = many_references(alloc)?;
    Ok(RefList::new(alloc, file_id(3)).is_empty() && are_references(&refs))
}

// Each file's first bytes with what it is.
const KINDS: [(&[u8], Kind); 26] = [
    (b"\xcf\xfa\xed\xfe", Kind::MachO),
    (b"\xcf\xfa\xed\xfe\x07\x00\x00\x01", Kind::MachO),
    (b"\xcf\xfa\xed", Kind::NotAnInput),
    (b"\xce\xfa\xed\xfe", Kind::NotAnInput),
    (b"\xfe\xed\xfa\xcf", Kind::NotAnInput),
    (b"!<arch>\n#1/12", Kind::Archive),
    (b"!<arch>\r\n", Kind::NotAnInput),
    (b"\xca\xfe\xba\xbe", Kind::Universal),
    (b"\xca\xfe\xba\xbf", Kind::Refused(Feature::Fat64)),
    (b"!<thin>\n", Kind::Refused(Feature::ThinArchive)),
    (b"BC\xc0\xde5\x14", Kind::Refused(Feature::Bitcode)),
    (b"\xde\xc0\x17\x0b", Kind::Refused(Feature::Bitcode)),
    (b"{\"tapi_tbd_version\": 5}", Kind::Refused(Feature::Tbd)),
    (b"--- !tapi-tbd\ntbd-version: 4\n", Kind::Stub),
    (b"---x", Kind::Stub),
    (b"\n \t\n# a comment\n\t # another\n---", Kind::Stub),
    (b"#---\n--- !tapi-tbd", Kind::Stub),
    (b" ---\n---\n", Kind::NotAnInput),
    (b"--\n---\n", Kind::NotAnInput),
    (b"\r\n---\n", Kind::Stub),
    (b" \t\r\n# a comment\r\n---\r\n", Kind::Stub),
    (b"x\r\n---\n", Kind::NotAnInput),
    (b"# only a comment", Kind::NotAnInput),
    (b"\n\n\n", Kind::NotAnInput),
    (b"int main(void) {}", Kind::NotAnInput),
    (b"", Kind::NotAnInput),
];

// An object of one section, and a definition in it.
fn defining(
    alloc: Global,
    kind: u8,
    bytes: &'static [u8],
    number: u8,
    value: u64,
) -> Result<Object, OutOfMemory> {
    let mut symbols = SymbolList::new(alloc);
    symbols.push(Symbol {
        external: true,
        ..symbol(b"_s", defined(number, value))
    })?;
    let bytes = Bytes::from_static(bytes);
    let strings = Section {
        address: 0x100,
        ..section(alloc, b"__TEXT", b"__cstring", kind, 0, bytes)
    };
    object_of(alloc, strings, symbols)
}

fn is_whole(
    alloc: Global,
    kind: u8,
    bytes: &'static [u8],
    section: u8,
    value: u64,
) -> Result<bool, OutOfMemory> {
    Ok(defining(alloc, kind, bytes, section, value)?.is_whole())
}

// Strings end in NUL, literals are whole, and a definition lies in its section or at its end.
const OBJECTS: [(u8, &'static [u8], u8, u64, bool); 9] = [
    (2, b"a\0bc\0", 1, 0x100, true),
    (2, b"a\0bc\0", 1, 0x105, true),
    (2, b"a\0bc\0", 1, 0x106, false),
    (2, b"a\0bc\0", 1, 0xff, false),
    (2, b"a\0bc\0", 0, 0x100, false),
    (2, b"a\0bc\0", 2, 0x100, false),
    (2, b"a\0bc", 1, 0x100, false),
    (2, b"", 1, 0x100, true),
    (4, b"a\0bc", 1, 0x100, false),
];

fn kinds_are_told() -> bool {
    for (bytes, kind) in &KINDS {
        if kind_of(bytes) != *kind {
            return false;
        }
    }
    true
}

fn objects_are_whole(alloc: Global) -> Result<bool, OutOfMemory> {
    for (kind, bytes, section, value, whole) in &OBJECTS {
        if is_whole(alloc, *kind, bytes, *section, *value)? != *whole {
            return Ok(false);
        }
    }
    Ok(true)
}

// The types, and the lines of answers.
#[test]
fn causes_and_answers_are_as_messages_show_them(rt: HostRuntime) -> Result<(), Fail> {
    let alloc = rt.alloc();
    let wrong = first_wrong(&[
        ("causes", causes_are_named(alloc)?),
        ("codes", codes_are_the_programs()),
        ("memory", want_of_memory_is_told(alloc)?),
        ("parts", parts_are_shared(alloc)?),
        ("copies", copies_are_alike(alloc)?),
        ("ends", parts_end_with_their_string(alloc)?),
        ("parts of parts", parts_of_parts_are_told(alloc)?),
        ("strings", strings_are_ordered_byte_by_byte()),
        ("words", words_are_their_bytes(alloc)?),
        ("lists", lists_keep_their_elements(alloc)?),
        ("keys", keys_rise()),
        ("files", files_are_loaded(alloc)?),
        ("references", lists_of_references_lose_nothing(alloc)?),
        ("references to atoms", references_to_atoms_are_told(alloc)?),
        ("kinds", kinds_are_told()),
        ("objects", objects_are_whole(alloc)?),
        ("lines", answers_have_lines(alloc)),
        ("ends of lines", messages_are_cut_off(alloc)),
    ]);
    assert!(rt; wrong.is_empty(), "{wrong}");
    Ok(())
}
