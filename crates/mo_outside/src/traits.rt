ghost use Rattle.std.specs.Prelude.{◌≡◌, ◌≤◌, ◌<◌, ◌^◌, ℕ, List, [], length, Option, OnOk, OnErr, IfOk, IsErrOf, false};
ghost use Rattle.mo_outside.specs.Answers.{Answer, answer_of};
ghost use Rattle.mo_outside.specs.Log.{Logs, OutCall, Begin, Write, Cut, Finish};
ghost use Rattle.mo_outside.specs.Faults.{Rises};
ghost use Rattle.mo_outside.specs.Files.{FileMap, Fetches};
ghost use Rattle.mo_outside.specs.Written.{Written, Begins, Takes, TakesSome, Finishes};
ghost use Rattle.mo_outside.specs.Tells.{Tells, Stays, Appends, AppendsSome};

use std::alloc::Global;

/// A call on the outside failed. Its cause is counted where it happened.
#[derive(Clone, Copy, Debug, PartialEq, Eq)]
pub struct Failed;

/// Why a file wasn't fetched.
#[derive(Clone, Copy, Debug, PartialEq, Eq)]
pub enum FetchFault {
    /// It couldn't be read, which was counted.
    Failed,
    /// Memory was asked for and refused.
    Memory,
}

/// Files that can be read, by their paths.
pub trait Files {
    // the files, where the object tells them
    ghost holds: { Self → Option FileMap };

    // the paths that were asked for, in order, where the object tells them
    ghost asked: { Self → Option (List (List ℕ)) };

    // A fetch of the path from the first object was answered so, and left the second one. Of files that tell nothing
    // else only a fetch shows it.
    ghost answers: { Self → List ℕ → Answer → Self → Type 0 };

    // how many faults there were
    ghost faults: { Self → ℕ };

    /// Appends the file's bytes to `into`, or its first 2^30 bytes where it has more, and answers true;
    /// or answers false where no file has the path.
    fn fetch(&mut self, alloc: Global, path: &[u8], into: &mut Vec<u8>) -> Result<bool, FetchFault>
        requires { into.old.items ≡ [] }
        ensures holds { holds self.new ≡ holds self.old }
        ensures asked { Tells (Logs path.now) (asked self.old) (asked self.new) }
        ensures faults { faults self.old ≤ faults self.new }
        ensures still { OnOk result (faults self.new ≡ faults self.old) }
        ensures refused { IsErrOf result FetchFault.Memory → faults self.new ≡ faults self.old }
        ensures answers { answers self.old path.now (answer_of result into.new.items) self.new }
        ensures answer { IfOk result (λ there. Fetches (holds self.old) path.now there into.new.items) }
        ensures size { length into.new.items ≤ 2 ^ 30 }
        ensures failed { IsErrOf result FetchFault.Failed → Rises (faults self.old) (faults self.new) }
        ensures absent { result ≡ Ok false → into.new.items ≡ [] }
        ensures err { OnErr result (into.new.items ≡ []) };
}

/// Where the linker's files are written, one after the other.
pub trait Out {
    // the files begun so far, where the object tells them
    ghost files: { Self → Option (List Written) };

    // the calls that were made on it, in order, where the object tells them
    ghost calls: { Self → Option (List OutCall) };

    // how many faults there were
    ghost faults: { Self → ℕ };

    /// Begins a file with no bytes.
    fn begin(&mut self, path: &[u8]) -> Result<(), Failed>
        ensures calls { Tells (Logs (Begin path.now)) (calls self.old) (calls self.new) }
        ensures faults { faults self.old ≤ faults self.new }
        ensures still { OnOk result (faults self.new ≡ faults self.old) }
        ensures ok { OnOk result (Tells (Begins path.now) (files self.old) (files self.new)) }
        ensures err { OnErr result (Tells Stays (files self.old) (files self.new)) }
        ensures failed { OnErr result (Rises (faults self.old) (faults self.new)) };

    /// Appends the first bytes of the piece, which isn't empty, to the last file begun, and answers how
    /// many: at least one.
    fn write(&mut self, bytes: &[u8]) -> Result<usize, Failed>
        requires { 0 < length bytes.now }
        ensures calls { IfOk result (λ count. Tells (Logs (Write bytes.now count)) (calls self.old) (calls self.new)) }
        ensures cut { OnErr result (Tells (Logs (Cut bytes.now)) (calls self.old) (calls self.new)) }
        ensures faults { faults self.old ≤ faults self.new }
        ensures still { OnOk result (faults self.new ≡ faults self.old) }
        ensures within { IfOk result (λ count. count ≤ length bytes.now) }
        ensures some { IfOk result (λ count. 0 < count) }
        ensures ok { IfOk result (λ count. Tells (Takes bytes.now count) (files self.old) (files self.new)) }
        ensures err { OnErr result (Tells (TakesSome bytes.now) (files self.old) (files self.new)) }
        ensures failed { OnErr result (Rises (faults self.old) (faults self.new)) };

    /// Marks the last file begun as done.
    fn done(&mut self) -> Result<(), Failed>
        ensures calls { Tells (Logs Finish) (calls self.old) (calls self.new) }
        ensures faults { faults self.old ≤ faults self.new }
        ensures still { OnOk result (faults self.new ≡ faults self.old) }
        ensures ok { OnOk result (Tells Finishes (files self.old) (files self.new)) }
        ensures err { OnErr result (Tells Stays (files self.old) (files self.new)) }
        ensures failed { OnErr result (Rises (faults self.old) (faults self.new)) };
}

/// Where messages go.
pub trait Diag {
    // the bytes put so far, where the object tells them
    ghost lines: { Self → Option (List ℕ) };

    // how many faults there were
    ghost faults: { Self → ℕ };

    /// Appends the bytes.
    fn put(&mut self, bytes: &[u8]) -> Result<(), Failed>
        ensures faults { faults self.old ≤ faults self.new }
        ensures still { OnOk result (faults self.new ≡ faults self.old) }
        ensures ok { OnOk result (Tells (Appends bytes.now) (lines self.old) (lines self.new)) }
        ensures err { OnErr result (Tells (AppendsSome bytes.now) (lines self.old) (lines self.new)) }
        ensures failed { OnErr result (Rises (faults self.old) (faults self.new)) };
}

/// What each worker passes before each of its jobs.
pub trait Gate {
    /// Returns when worker `worker`, counted from 0, may go on.
    fn pass(&self, worker: u32);
}
