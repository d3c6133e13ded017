//! What is read of files.
ghost use Rattle.std.specs.Prelude.{◌≡◌, ◌<◌, ◌^◌, length, Ok, IfOk};
ghost use Rattle.mo_types.specs.Gives.{Gives};
ghost use Rattle.tbd_yaml.specs.File.{file_of};
ghost use Rattle.lib_bind.specs.Reexported as spec;
ghost use Rattle.lib_bind.specs.Reexported.{IsFileFault};

use mo_types::{Bytes, Feature, Kind, ObjFault, Rule, Which, kind_of};
use std::alloc::Global;
use tbd_doc::{StubFault, StubFile, read_stubs};
use tbd_yaml::{YamlFault, YamlFile, read_yaml};

// The most bytes that a file may have, and one.
const FILE_LIMIT: usize = 1 << 30;

fn of_text(fault: YamlFault) -> ObjFault
    ensures { result ≡ spec.of_text fault }
{
    match fault {
        YamlFault::At { line, rule } => ObjFault::Malformed {
            place: u64::from(line),
            rule,
        },
        YamlFault::OutOfMemory => ObjFault::OutOfMemory,
    }
}

fn of_stub(fault: StubFault) -> ObjFault
    ensures { result ≡ spec.of_stub fault }
{
    match fault {
        StubFault::NotTbd4 => ObjFault::Unsupported(Feature::Tbd),
        StubFault::NoTarget => ObjFault::Malformed {
            place: 0,
            rule: Rule::NoTarget,
        },
        StubFault::BadKey { doc } => ObjFault::Malformed {
            place: u64::from(doc),
            rule: Rule::BadKey,
        },
        StubFault::OutOfMemory => ObjFault::OutOfMemory,
    }
}

fn text_of(alloc: Global, bytes: &Bytes) -> Result<YamlFile, ObjFault>
    requires { length bytes.now < 2 ^ 30 }
    ensures exact { Gives IsFileFault result (spec.text_of bytes.now) }
    ensures read { IfOk result (λ file. file_of bytes.now ≡ Ok file) }
{
    match read_yaml(alloc, bytes) {
        Ok(file) => Ok(file),
        Err(fault) => Err(of_text(fault)),
    }
}

fn stubs_of(alloc: Global, file: &YamlFile) -> Result<StubFile, ObjFault>
    requires few { length file.now.docs < 2 ^ 32 }
    requires trees { spec.HaveTrees file.now }
    ensures exact { Gives IsFileFault result (spec.stubs_of file.now) }
{
    match read_stubs(alloc, file) {
        Ok(stubs) => Ok(stubs),
        Err(fault) => Err(of_stub(fault)),
    }
}

/// Reads the text of a stub library. A fault's place is a line, counted from 1, for a rule of the text, and a document,
/// counted from 0, for one of what it says.
#[tactic(auto, unfolding(crate::specs::Reexported::stub_text))]
pub fn read_stub_text(alloc: Global, bytes: &Bytes) -> Result<StubFile, ObjFault>
    requires { length bytes.now < 2 ^ 30 }
    ensures exact { Gives IsFileFault result (spec.stub_text bytes.now) }
{
    let file = text_of(alloc, bytes)?;
    stubs_of(alloc, &file)
}

/// Reads a re-exported file, which is the text of a stub library.
#[tactic(auto, unfolding(crate::specs::Reexported::reexported))]
pub fn read_reexported(alloc: Global, bytes: &Bytes) -> Result<StubFile, ObjFault>
    ensures exact { Gives IsFileFault result (spec.reexported bytes.now) }
{
    if bytes.len() >= FILE_LIMIT {
        return Err(ObjFault::Limit(Which::FileBytes));
    }
    match kind_of(bytes.as_slice()) {
        Kind::Stub => read_stub_text(alloc, bytes),
        Kind::MachO => Err(ObjFault::Unsupported(Feature::FileType)),
        Kind::Archive | Kind::Universal | Kind::NotAnInput => Err(ObjFault::Malformed {
            place: 0,
            rule: Rule::NotAnInput,
        }),
        Kind::Refused(feature) => Err(ObjFault::Unsupported(feature)),
    }
}
