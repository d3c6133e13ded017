//! Why a link ends before anything is written, and what the faults of the layers below tell of that.

ghost use Rattle.std.specs.Prelude.{◌≡◌};
ghost use Rattle.link_engine.specs.Stop.{bind_fault_for, fetch_fault_for, refused_for, load_fault_for, status_for};

use input_fetch::FetchStop;
use input_files::LoadFault;
use lib_bind::BindFault;
use link_steps::StepFault;
use mo_types::{Bytes, Refusal, Status, UsageRule};

/// Why the words and the files have no image.
#[derive(Debug, Drop)]
pub enum Stop {
    /// The command line isn't well written: the least word at fault, counted from 1, or 0 for a rule on all words.
    Usage { word: u64, rule: UsageRule },
    /// A file couldn't be read.
    ReadFault { path: Bytes },
    /// The inputs have no image.
    Refused(Refusal),
}

/// The answer that tells a step's fault.
pub fn status_of(fault: StepFault<Stop>) -> Status
    ensures { result ≡ status_for fault }
{
    match fault {
        StepFault::Stop(Stop::Usage { word, rule }) => Status::Usage { word, rule },
        StepFault::Stop(Stop::ReadFault { path }) => Status::ReadFault { path },
        StepFault::Stop(Stop::Refused(refusal)) => Status::Refused(refusal),
        StepFault::OutOfMemory => Status::OutOfMemory,
    }
}

/// The fault of inputs that aren't fetched.
pub fn fetch_fault(fault: FetchStop) -> StepFault<Stop>
    ensures { result ≡ fetch_fault_for fault }
{
    match fault {
        FetchStop::ReadFault { path } => StepFault::Stop(Stop::ReadFault { path }),
        FetchStop::Missing { path } => StepFault::Stop(Stop::Refused(Refusal::Missing { path })),
        FetchStop::OutOfMemory => StepFault::OutOfMemory,
    }
}

/// The fault of inputs that aren't read, and of files that aren't loaded.
pub fn load_fault(fault: LoadFault) -> StepFault<Stop>
    ensures { result ≡ load_fault_for fault }
{
    match fault {
        LoadFault::Refused(refusal) => StepFault::Stop(Stop::Refused(refusal)),
        LoadFault::OutOfMemory => StepFault::OutOfMemory,
    }
}

/// The fault of libraries.
pub fn bind_fault(fault: BindFault) -> StepFault<Stop>
    ensures { result ≡ bind_fault_for fault }
{
    match fault {
        BindFault::ReadFault { path } => StepFault::Stop(Stop::ReadFault { path }),
        BindFault::Refused(refusal) => StepFault::Stop(Stop::Refused(refusal)),
        BindFault::OutOfMemory => StepFault::OutOfMemory,
    }
}

/// The fault of files that don't link.
pub fn refused(fault: StepFault<Refusal>) -> StepFault<Stop>
    ensures { result ≡ refused_for fault }
{
    match fault {
        StepFault::Stop(refusal) => StepFault::Stop(Stop::Refused(refusal)),
        StepFault::OutOfMemory => StepFault::OutOfMemory,
    }
}
