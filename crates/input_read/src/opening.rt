//! What one input is.
ghost use Rattle.std.specs.Prelude.{◌≡◌, ◌+◌, ◌<◌, ◌≤◌, ◌^◌, length, IfOk};
ghost use Rattle.mo_types.specs.Gives.{Gives};
ghost use Rattle.mo_types.specs.Kind as kinds;
ghost use Rattle.mo_types.specs.declared.kind.Kind.TheVariants as kind;
ghost use Rattle.mo_ar.specs.Slice as slices;
ghost use Rattle.lib_bind.specs.Reexported.{stub_text};
ghost use Rattle.input_files.specs.Files as files;
ghost use Rattle.input_files.specs.Files.{IsLoadFault};
ghost use Rattle.input_read.specs.Opening as spec;
ghost use Rattle.input_read.specs.Sound.{IsSound};

use input_files::{Input, LoadFault, read_file};
use lib_bind::{NamedStub, read_stub_text};
use mo_ar::{Archive, SliceFault, read_archive, slice_of};
use mo_types::{
    Bytes, Feature, FileId, Kind, LoadedFile, ObjFault, OutOfMemory, Refusal, Rule, Which, kind_of,
};
use std::alloc::Global;

/// What an input is.
#[derive(Debug, Drop)]
pub enum Opening {
    /// An object, and the file that is loaded of it.
    Object { input: Input, file: LoadedFile },
    /// An archive, with its members and what its table of contents offers.
    Archive { input: Input, archive: Archive },
    /// The text of stub libraries.
    Stubs(NamedStub),
}

// The most bytes that a file may have, and one.
const TOO_MANY_BYTES: usize = 1 << 30;

fn malformed(input: Input, place: u64, rule: Rule) -> Result<Opening, LoadFault>
    ensures exact { result ≡ spec.malformed input place rule }
    ensures sound { IfOk result IsSound }
{
    let Input { label, .. } = input;
    Err(LoadFault::Refused(Refusal::Malformed {
        file: label,
        place,
        rule,
    }))
}

fn unsupported(input: Input, feature: Feature) -> Result<Opening, LoadFault>
    ensures exact { result ≡ spec.unsupported input feature }
    ensures sound { IfOk result IsSound }
{
    let Input { label, .. } = input;
    Err(LoadFault::Refused(Refusal::Unsupported {
        file: label,
        feature,
    }))
}

// The answer for an input that has a fault.
fn fault_of(input: Input, fault: ObjFault) -> LoadFault
    ensures { result ≡ files.fault_of input.label fault }
{
    let Input { label, .. } = input;
    match fault {
        ObjFault::Malformed { place, rule } => LoadFault::Refused(Refusal::Malformed {
            file: label,
            place,
            rule,
        }),
        ObjFault::Unsupported(feature) => LoadFault::Refused(Refusal::Unsupported {
            file: label,
            feature,
        }),
        ObjFault::Limit(which) => LoadFault::Refused(Refusal::Limit { which }),
        ObjFault::OutOfMemory => LoadFault::OutOfMemory,
    }
}

// What messages call an input.
fn label_of(input: &Input) -> Result<Bytes, OutOfMemory>
    ensures { IfOk result (λ label. label ≡ input.now.label) }
{
    Ok(input.label.clone()?)
}

// Reads an input that is an object.
#[tactic(auto, using(crate::proofs::SoundLemmas::objects), unfolding(crate::specs::Opening::opened_object))]
fn open_object(alloc: Global, input: Input) -> Result<Opening, LoadFault>
    requires kind { kinds.kind_of input.bytes ≡ kind.MachO }
    ensures exact { Gives IsLoadFault result (spec.opened_object input) }
    ensures sound { IfOk result IsSound }
{
    let id = FileId {
        position: input.position,
        member: 0,
    };
    let label = label_of(&input)?;
    let file = read_file(alloc, id, label, &input.bytes)?;
    Ok(Opening::Object { input, file })
}

// Reads an input that is an archive.
#[tactic(auto, using(crate::proofs::SoundLemmas::archives), unfolding(crate::specs::Opening::opened_archive))]
fn open_archive(alloc: Global, input: Input) -> Result<Opening, LoadFault>
    requires kind { kinds.kind_of input.bytes ≡ kind.Archive }
    ensures exact { Gives IsLoadFault result (spec.opened_archive input) }
    ensures sound { IfOk result IsSound }
{
    match read_archive(alloc, &input.bytes) {
        Ok(archive) => Ok(Opening::Archive { input, archive }),
        Err(fault) => Err(fault_of(input, fault)),
    }
}

// An input that has some bytes of another one, which they share.
fn slice_in(input: Input, from: usize, size: usize) -> Result<Input, OutOfMemory>
    requires within { from + size ≤ length input.bytes }
    ensures { IfOk result (λ slice. slice ≡ spec.slice_in input from size) }
{
    let Input {
        position,
        label,
        bytes,
        forced,
    } = input;
    let bytes = bytes.part(from, size)?;
    Ok(Input {
        position,
        label,
        bytes,
        forced,
    })
}

// Reads a slice of a universal file.
fn open_slice(alloc: Global, input: Input) -> Result<Opening, LoadFault>
    ensures exact { Gives IsLoadFault result (spec.opened_slice input) }
    ensures sound { IfOk result IsSound }
{
    match kind_of(input.bytes.as_slice()) {
        Kind::MachO => open_object(alloc, input),
        Kind::Archive => open_archive(alloc, input),
        Kind::Refused(Feature::Bitcode) => unsupported(input, Feature::Bitcode),
        _ => malformed(input, 0, Rule::NotAnInput),
    }
}

// Reads the slice for arm64 of an input that is a universal file.
#[tactic(auto, using(crate::proofs::ArchiveLemmas::slices))]
fn open_universal(alloc: Global, input: Input) -> Result<Opening, LoadFault>
    requires kind { kinds.kind_of input.bytes ≡ kind.Universal }
    ensures exact { Gives IsLoadFault result (spec.universal_in input (slices.slice_of input.bytes)) }
    ensures sound { IfOk result IsSound }
{
    match slice_of(input.bytes.as_slice()) {
        Ok((from, size)) => {
            let slice = slice_in(input, from, size)?;
            open_slice(alloc, slice)
        }
        Err(SliceFault::Malformed { place, rule }) => malformed(input, place, rule),
    }
}

// Reads an input that is the text of stub libraries.
#[tactic(auto, using(crate::proofs::SoundLemmas::stubs))]
fn open_stubs(alloc: Global, input: Input) -> Result<Opening, LoadFault>
    requires kind { kinds.kind_of input.bytes ≡ kind.Stub }
    requires few { length input.bytes < 2 ^ 30 }
    ensures exact { Gives IsLoadFault result (spec.stubs_in input (stub_text input.bytes)) }
    ensures sound { IfOk result IsSound }
{
    match read_stub_text(alloc, &input.bytes) {
        Ok(file) => {
            let Input {
                position,
                label,
                ..
            } = input;
            Ok(Opening::Stubs(NamedStub {
                position,
                label,
                file,
            }))
        }
        Err(fault) => Err(fault_of(input, fault)),
    }
}

// Reads an input as what its first bytes tell.
fn open_kind(alloc: Global, input: Input) -> Result<Opening, LoadFault>
    requires few { length input.bytes < 2 ^ 30 }
    ensures exact { Gives IsLoadFault result (spec.opened_by (kinds.kind_of input.bytes) input) }
    ensures sound { IfOk result IsSound }
{
    match kind_of(input.bytes.as_slice()) {
        Kind::MachO => open_object(alloc, input),
        Kind::Archive => open_archive(alloc, input),
        Kind::Universal => open_universal(alloc, input),
        Kind::Stub => open_stubs(alloc, input),
        Kind::NotAnInput => malformed(input, 0, Rule::NotAnInput),
        Kind::Refused(feature) => unsupported(input, feature),
    }
}

// The same input, whose text and bytes are shared.
fn shared(input: &Input) -> Result<Input, OutOfMemory>
    ensures { IfOk result (λ copy. copy ≡ input.now) }
{
    Ok(Input {
        position: input.position,
        label: input.label.clone()?,
        bytes: input.bytes.clone()?,
        forced: input.forced,
    })
}

/// Reads an input: an object as the link loads it, an archive with its members and its table of contents, or the text of
/// stub libraries; of a universal file the slice for arm64, which is an object or an archive. Or it tells the first of these
/// that stands: 2^30 bytes or more; bytes of no kind that is linked; a fault of what the input is, whose place is one in the
/// slice of a universal file. No bytes are copied.
#[tactic(auto, unfolding(crate::specs::Opening::opening_of))]
pub fn open_input(alloc: Global, input: &Input) -> Result<Opening, LoadFault>
    ensures exact { Gives IsLoadFault result (spec.opening_of input.now) }
    ensures sound { IfOk result IsSound }
{
    if input.bytes.len() >= TOO_MANY_BYTES {
        return Err(LoadFault::Refused(Refusal::Limit {
            which: Which::FileBytes,
        }));
    }
    let input = shared(input)?;
    open_kind(alloc, input)
}
