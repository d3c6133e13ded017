//! What the verdict means, each on a call that does nothing.
ghost use Rattle.std.specs.Prelude.{◌≡◌, ◌↔◌, ℕ, List, Result, Err};
ghost use Rattle.file_cache.specs.Program.{File};
ghost use Rattle.file_cache.specs.Runs.{AreOfBytes, file_told};
ghost use Rattle.mo_outside.specs.Answers.{Exchange};
ghost use Rattle.mo_types.specs.declared.answer.Status.{Status};
ghost use Rattle.link_engine.specs.Causes.{StopCause};
ghost use Rattle.link_engine.specs.Command.{commanded};
ghost use Rattle.link_engine.specs.Settles.{IsComplete, OutputSeen, Settles};
ghost use Rattle.link_engine.specs.Verdict.{IsVerdict, IsVerdictAfter};
ghost use Rattle.link_engine.specs.declared.plan.Plan.{Plan};
ghost use Rattle.link_engine.specs.Unread.{EndsUnread};
ghost use Rattle.link_engine.specs.declared.stop.Stop.{Stop};
ghost use Rattle.link_engine.specs.declared.stop.Stop.TheVariants.{ReadFault};

/// Words have one verdict at most, by what stands under each path.
pub fn a_verdict_is_one()
    ensures { (words : List (List ℕ)) (look : List ℕ → File) (a b : Result Plan Stop) → IsVerdict words look a → IsVerdict words look b → a ≡ b }
{}

/// Words have a verdict, whatever files told: by each finite map from paths to answers of which those on a file are bytes.
pub fn a_verdict_exists()
    ensures { (words : List (List ℕ)) (told : List Exchange) → AreOfBytes told → (given : Result Plan Stop) × IsVerdict words (file_told told) given }
{}

/// The verdict is a stop exactly where that stop's cause stands, after the same paths were tried. So each refusal has its
/// cause.
pub fn every_refusal_has_its_cause()
    ensures { (words : List (List ℕ)) (look : List ℕ → File) (stop : Stop) (tried : List (List ℕ))
        → IsVerdictAfter words look (Err stop) tried ↔ StopCause words look stop tried }
{}

/// An answer that is the verdict's leaves nothing open but want of memory: where there is a plan and no fault of the output
/// was counted, all of it was written; where there is a stop, that is the answer, nothing was begun, and its line was put.
pub fn an_answer_is_complete()
    ensures { (words : List (List ℕ)) (look : List ℕ → File) (status : Status) (old new : OutputSeen)
        → Settles (IsVerdict words look) status old new → IsComplete (IsVerdict words look) status old new }
{}

/// A path that an answer tells as one that couldn't be read is the last one that was tried, and the first that can't be read.
pub fn a_read_fault_names_its_path()
    ensures { (words : List (List ℕ)) (look : List ℕ → File) (path : List ℕ) (tried : List (List ℕ))
        → IsVerdictAfter words look (Err (ReadFault path)) tried → EndsUnread look tried path }
{}

/// Words that have one command have one verdict, whatever number of workers they name.
pub fn workers_change_nothing()
    ensures { (words others : List (List ℕ)) (look : List ℕ → File) (given : Result Plan Stop) (tried : List (List ℕ))
        → commanded words ≡ commanded others → IsVerdictAfter words look given tried → IsVerdictAfter others look given tried }
{}
