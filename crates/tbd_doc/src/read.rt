//! Documents, read.

ghost use Rattle.std.specs.Prelude.{◌≡◌, ◌++◌, ◌<◌, ◌^◌, [], All, IfOk, length, map};
ghost use Rattle.std.specs.List.{flat_map};
ghost use Rattle.std.specs.Option.{option_map};
ghost use Rattle.mo_types.specs.Gives.{Gives};
ghost use Rattle.tbd_yaml.specs.Tree.{HasTree};
ghost use Rattle.tbd_doc.specs.Exports as exported;
ghost use Rattle.tbd_doc.specs.Nodes.{fields_of, tree_of};
ghost use Rattle.tbd_doc.specs.Stubs as spec;
ghost use Rattle.tbd_doc.specs.Stubs.{HaveTrees, IsStubFault, IsWhole};
ghost use Rattle.tbd_doc.specs.inner.Places.{IsNode, field_at};
ghost use Rattle.tbd_doc.specs.inner.Texts.{names_of};

use crate::exports::exports_of;
use crate::fault::StubFault;
use crate::forms::is_well_formed;
use crate::names::{NameKind, with_names_under};
use crate::nodes::fields;
use crate::stub::{ExportList, Stub, StubFile, StubList};
use crate::texts::{has_text, text_under};
use mo_cmd::version;
use mo_types::{Bytes, Items, NameList, OutOfMemory};
use std::alloc::Global;
use tbd_yaml::{YamlDoc, YamlEvent, YamlFile};

fn is_text(found: Option<&Bytes>, text: &[u8]) -> bool
    ensures { result ≡ spec.is_text (option_map (λ text. text.now) found.entry) text.now }
{
    match found {
        Some(found) => found.as_slice() == text,
        None => false,
    }
}

#[tactic(auto, unfolding(crate::specs::Stubs::is_tbd4))]
fn is_tbd4(tag: &Bytes, events: &[YamlEvent], fields: &[usize]) -> bool
    requires { All (IsNode events.now) fields.now }
    ensures { result ≡ spec.is_tbd4 tag.now (map (field_at events.now) fields.now) }
{
    tag.as_slice() == b"!tapi-tbd".as_slice()
        && is_text(text_under(events, fields, b"tbd-version"), b"4")
}

fn holds_target(
    alloc: Global,
    events: &[YamlEvent],
    fields: &[usize],
    target: &[u8],
) -> Result<bool, OutOfMemory>
    requires { All (IsNode events.now) fields.now }
    ensures { IfOk result (λ test. test ≡ spec.holds_target target.now (map (field_at events.now) fields.now)) }
{
    has_text(alloc, events, fields, b"targets", target)
}

#[tactic(auto, unfolding(crate::specs::Stubs::target_of))]
fn target_of(
    alloc: Global,
    events: &[YamlEvent],
    fields: &[usize],
) -> Result<Option<&'static [u8]>, OutOfMemory>
    requires { All (IsNode events.now) fields.now }
    ensures { IfOk result (λ target. option_map (λ target. target.now) target ≡ spec.target_of (map (field_at events.now) fields.now)) }
{
    if holds_target(alloc, events, fields, b"arm64-macos")? {
        return Ok(Some(b"arm64-macos"));
    }
    if holds_target(alloc, events, fields, b"arm64e-macos")? {
        return Ok(Some(b"arm64e-macos"));
    }
    Ok(None)
}

fn text_or_empty(text: Option<&Bytes>) -> Result<Bytes, OutOfMemory>
    ensures { IfOk result (λ copy. copy ≡ spec.text_or_empty (option_map (λ text. text.now) text.entry)) }
{
    match text {
        Some(text) => Ok(text.clone()?),
        None => Ok(Bytes::new()),
    }
}

fn version_or_one(text: Option<&Bytes>) -> u32
    ensures { result ≡ spec.version_or_one (option_map (λ text. text.now) text.entry) }
{
    match text {
        Some(text) => version(text.as_slice()).unwrap_or(0),
        None => 65536,
    }
}

#[tactic(auto, unfolding(crate::specs::Stubs::libraries_of))]
fn libraries_of(
    alloc: Global,
    events: &[YamlEvent],
    fields: &[usize],
    target: &[u8],
) -> Result<NameList, OutOfMemory>
    requires { All (IsNode events.now) fields.now }
    ensures { IfOk result (λ names. names ≡ spec.libraries_of target.now (map (field_at events.now) fields.now)) }
{
    let names = Vec::new(alloc);
    let key = b"reexported-libraries";
    let names = with_names_under(alloc, events, fields, key, target, NameKind::Library, names)?;
    Ok(Items::from_vec(names))
}

// The names of a kind that the items of exports give.
#[tactic(auto, using(crate::proofs::StubLemmas::two_keys))]
fn names_for(
    alloc: Global,
    events: &[YamlEvent],
    fields: &[usize],
    target: &[u8],
    kind: NameKind,
) -> Result<Vec<Bytes>, OutOfMemory>
    requires { All (IsNode events.now) fields.now }
    ensures { IfOk result (λ names. names.items ≡ flat_map (names_of kind) (exported.exporting target.now (map (field_at events.now) fields.now))) }
{
    let names = Vec::new(alloc);
    let names = with_names_under(alloc, events, fields, b"exports", target, kind, names)?;
    let names = with_names_under(alloc, events, fields, b"reexports", target, kind, names)?;
    Ok(names)
}

#[tactic(auto, unfolding(crate::specs::Stubs::exports_for))]
fn exports_for(
    alloc: Global,
    events: &[YamlEvent],
    fields: &[usize],
    target: &[u8],
) -> Result<ExportList, OutOfMemory>
    requires { All (IsNode events.now) fields.now }
    ensures { IfOk result (λ exports. exports ≡ spec.exports_for target.now (map (field_at events.now) fields.now)) }
{
    let names = names_for(alloc, events, fields, target, NameKind::Exported)?;
    let weak = names_for(alloc, events, fields, target, NameKind::Weak)?;
    exports_of(alloc, names, weak)
}

fn stub_of(
    alloc: Global,
    events: &[YamlEvent],
    fields: &[usize],
    target: &[u8],
) -> Result<Stub, OutOfMemory>
    requires { All (IsNode events.now) fields.now }
    ensures { IfOk result (λ stub. stub ≡ spec.stub_of target.now (map (field_at events.now) fields.now)) }
{
    Ok(Stub {
        install: text_or_empty(text_under(events, fields, b"install-name"))?,
        current: version_or_one(text_under(events, fields, b"current-version")),
        compatible: version_or_one(text_under(events, fields, b"compatibility-version")),
        reexports: libraries_of(alloc, events, fields, target)?,
        exports: exports_for(alloc, events, fields, target)?,
    })
}

fn stub_for(
    alloc: Global,
    number: u32,
    events: &[YamlEvent],
    fields: &[usize],
    target: Option<&'static [u8]>,
) -> Result<Option<Stub>, StubFault>
    requires { All (IsNode events.now) fields.now }
    ensures { Gives IsStubFault result (spec.stub_for number (map (field_at events.now) fields.now) (option_map (λ target. target.now) target.entry)) }
{
    let Some(target) = target else {
        return if number == 0 {
            Err(StubFault::NoTarget)
        } else {
            Ok(None)
        };
    };
    if !is_well_formed(alloc, events, fields)? {
        return Err(StubFault::BadKey { doc: number });
    }
    Ok(Some(stub_of(alloc, events, fields, target)?))
}

#[tactic(auto, unfolding(crate::specs::Stubs::stub_at))]
fn stub_in(
    alloc: Global,
    number: u32,
    tag: &Bytes,
    events: &[YamlEvent],
    fields: &[usize],
) -> Result<Option<Stub>, StubFault>
    requires { All (IsNode events.now) fields.now }
    ensures { Gives IsStubFault result (spec.stub_at number tag.now (map (field_at events.now) fields.now)) }
{
    if !is_tbd4(tag, events, fields) {
        return Err(StubFault::NotTbd4);
    }
    let target = target_of(alloc, events, fields)?;
    stub_for(alloc, number, events, fields, target)
}

fn stub_at(alloc: Global, number: u32, doc: &YamlDoc) -> Result<Option<Stub>, StubFault>
    requires { HasTree doc.now }
    ensures { Gives IsStubFault result (spec.stub_at number doc.now.tag (fields_of (tree_of doc.now.events))) }
{
    let events = doc.events.as_slice();
    let fields = fields(alloc, events, 0)?;
    stub_in(alloc, number, &doc.tag, events, fields.as_slice())
}

fn with_stub(stubs: Vec<Stub>, stub: Option<Stub>) -> Result<Vec<Stub>, OutOfMemory>
    ensures { IfOk result (λ more. more.items ≡ stubs.items ++ spec.with_stub stub []) }
{
    match stub {
        Some(stub) => {
            let mut stubs = stubs;
            stubs.push(stub)?;
            Ok(stubs)
        }
        None => Ok(stubs),
    }
}

#[tactic(auto, using(crate::proofs::StubLemmas::reading))]
fn stubs_of(alloc: Global, docs: &[YamlDoc]) -> Result<StubList, StubFault>
    requires few { length docs.now < 2 ^ 32 }
    requires trees { All HasTree docs.now }
    ensures { Gives IsStubFault result (spec.stubs_from 0 docs.now) }
{
    let mut stubs = Vec::new(alloc);
    for (number, doc) in docs.iter().enumerate() {
        let stub = stub_at(alloc, number as u32, doc)?;
        stubs = with_stub(stubs, stub)?;
    }
    Ok(Items::from_vec(stubs))
}

/// Reads the documents of a text as a stub library (TBD version 4) for arm64 on macOS. A document other than the first
/// that isn't for this target is passed over.
///
/// The first document at fault decides: it isn't of version 4 (`NotTbd4`); it is the first one and not for this target
/// (`NoTarget`); or it has no install name or a key whose value is of another form (`BadKey`). Exports stand in the
/// order of their names, each once. Names share the text's bytes.
pub fn read_stubs(alloc: Global, file: &YamlFile) -> Result<StubFile, StubFault>
    requires few { length file.now.docs < 2 ^ 32 }
    requires trees { HaveTrees file.now }
    ensures exact { Gives IsStubFault result (spec.stub_file_of file.now) }
    ensures whole { IfOk result IsWhole }
{
    let docs = stubs_of(alloc, file.docs.as_slice())?;
    Ok(StubFile { docs })
}
