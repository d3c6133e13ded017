//! What the definitions mean, each on a call that does nothing.
ghost use Rattle.std.specs.Prelude.{◌≡◌, ◌↔◌, ◌<◌, ℕ, List, length, Ok, Err};
ghost use Rattle.command_line.specs.Paths.{paths_of};
ghost use Rattle.command_line.specs.declared.command.Command.{Command};
ghost use Rattle.command_line.specs.declared.command.CommandInput.{CommandInput};
ghost use Rattle.file_cache.specs.Runs.{file_in};
ghost use Rattle.mo_outside.specs.Files.{FileMap};
ghost use Rattle.input_fetch.specs.Contents.{contents_of};
ghost use Rattle.input_fetch.specs.There.{AreFirstThere, IsFirstMissing};
ghost use Rattle.input_fetch.specs.declared.content.Content.{Content};
ghost use Rattle.input_fetch.specs.declared.stop.FetchStop.TheVariants.{Missing, ReadFault};

/// An input always has a path that is tried.
#[tactic(auto, using(crate::proofs::PlaceLemmas::places))]
pub fn an_input_has_a_path()
    ensures { (command : Command) (input : CommandInput) → 0 < length (paths_of command input) }
{}

/// Files that can be read give contents just where each is that of the first of its input's paths that is there.
pub fn contents_are_the_first_that_are_there()
    ensures { (files : FileMap) (places : List (List (List ℕ))) (contents : List Content)
        → ((contents_of places (file_in files)).end ≡ Ok contents) ↔ AreFirstThere files places contents }
{}

/// They give that a path is missing just where it is the first one of the first input that has none of its paths there.
pub fn the_first_missing_input_ends_all()
    ensures { (files : FileMap) (places : List (List (List ℕ))) (path : List ℕ)
        → ((contents_of places (file_in files)).end ≡ Err (Missing path)) ↔ IsFirstMissing files places path }
{}

/// They give no path that couldn't be read.
#[tactic(auto, using(crate::proofs::ToldLemmas::told))]
pub fn files_that_are_told_can_be_read()
    ensures { (files : FileMap) (places : List (List (List ℕ))) (path : List ℕ)
        → ¬ ((contents_of places (file_in files)).end ≡ Err (ReadFault path)) }
{}
