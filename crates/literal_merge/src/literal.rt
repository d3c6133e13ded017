//! The literals of files.
ghost use Rattle.std.specs.Prelude.{◌≡◌, ◌++◌, IfOk};
ghost use Rattle.std.specs.List.{filter_map};
ghost use Rattle.std.specs.Option.{option_map};
ghost use Rattle.literal_merge.specs.Representatives as spec;
ghost use Rattle.literal_merge.specs.inner.Groups.{held_literals, literal_of};

use atom_cut::bytes_of;
use mo_types::{Atom, AtomKey, LoadedFile, Object, OutOfMemory, Section};
use std::alloc::Global;
use std::hash::{Hash, Hasher};

/// What literals that are the same have in common.
#[derive(Clone, Copy)]
pub(crate) struct Content<'a> {
    pub bytes: &'a [u8],
    pub name: &'a [u8],
    pub segment: &'a [u8],
    pub kind: u8,
}

impl<'a> PartialEq for Content<'a> {
    ghost use Rattle.std.specs.Cmp.{partial_equiv_from_equiv};
    ghost use Rattle.literal_merge.specs.inner.Groups.{same_content};
    ghost use Rattle.literal_merge.specs.inner.Contents.{contents_equal};

    ghost eq = { same_content };

    ghost laws = { partial_equiv_from_equiv contents_equal };

    fn eq(&self, other: &Self) -> bool {
        self.bytes == other.bytes
            && self.name == other.name
            && self.segment == other.segment
            && self.kind == other.kind
    }
}

impl<'a> Eq for Content<'a> {
    ghost use Rattle.literal_merge.specs.inner.Contents.{contents_equal};

    ghost laws = { contents_equal };
}

// Few literals with the same bytes go to different sections.
impl<'a> Hash for Content<'a> {
    ghost use Rattle.std.specs.Hash as fed;
    ghost use Rattle.literal_merge.specs.inner.Contents.{contents_feed};

    ghost hash_input = { λ content. fed.slice fed.u8 content.bytes.now };

    ghost respects_eq = { contents_feed };

    fn hash<H: Hasher>(&self, state: &mut H) {
        self.bytes.hash(state);
    }
}

/// A literal of a file.
#[derive(Clone, Copy)]
pub(crate) struct LiteralIn<'a> {
    pub key: AtomKey,
    pub align: u8,
    pub content: Content<'a>,
}

fn is_literal(section: &Section) -> bool
    ensures { result ≡ spec.is_literal section.now.kind }
{
    section.is_strings() || section.literal_size().is_some()
}

#[tactic(auto, unfolding(crate::specs::Representatives::literal_at))]
fn literal_at<'a>(object: &'a Object, atom: &Atom) -> Option<LiteralIn<'a>>
    ensures { option_map literal_of result ≡ spec.literal_at object.now atom.now }
{
    let section = object.section(u32::from(atom.key.section))?;
    if !is_literal(section) {
        return None;
    }
    Some(LiteralIn {
        key: atom.key,
        align: atom.align,
        content: Content {
            bytes: bytes_of(object, atom),
            name: section.destination_name(),
            segment: section.destination_segment(),
            kind: section.destination_kind(),
        },
    })
}

// Literals, and those of a file.
#[tactic(auto, using(crate::proofs::LiteralLemmas::files_literals))]
fn add_file<'a>(
    before: Vec<LiteralIn<'a>>,
    object: &'a Object,
    atoms: &[Atom],
) -> Result<Vec<LiteralIn<'a>>, OutOfMemory>
    ensures { IfOk result (λ new. held_literals new.items ≡ held_literals before.entry.items ++ filter_map (spec.literal_at object.now) atoms.now) }
{
    let mut literals = before;
    for atom in atoms {
        if let Some(literal) = literal_at(object, atom) {
            literals.push(literal)?;
        }
    }
    Ok(literals)
}

/// The literals of files, file by file in the order of their atoms.
#[tactic(auto, using(crate::proofs::LiteralLemmas::all_literals))]
pub(crate) fn literals<'a>(
    alloc: Global,
    files: &'a [LoadedFile],
) -> Result<Vec<LiteralIn<'a>>, OutOfMemory>
    ensures { IfOk result (λ all. held_literals all.items ≡ spec.literals files.now) }
{
    let mut literals = Vec::new(alloc);
    for file in files {
        literals = add_file(literals, &file.object, file.atoms.as_slice())?;
    }
    Ok(literals)
}
