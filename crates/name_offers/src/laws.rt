//! What the words of names say, on a call that does nothing.
ghost use Rattle.std.specs.Prelude.{ℕ, ◌++◌, List, length, replicate};
ghost use Rattle.std.specs.List.{IsDistinct};
ghost use Rattle.std.specs.Str.{bytes_eq};
ghost use Rattle.mo_types.specs.Candidates.{no_word};
ghost use Rattle.mo_types.specs.declared.loaded.LoadedFile.{LoadedFile};
ghost use Rattle.race_core.specs.Run.{run};
ghost use Rattle.symbol_winners.specs.Winners.{AreLeast};
ghost use Rattle.name_offers.specs.Offers.{bids_of};

/// Words that are for each name the least of its candidates in some files are, after the offers of further files, the least
/// of its candidates in all of them. Where no name has a word at the start, a race leaves the least words.
pub fn words_are_the_least()
    ensures after { (before files : List LoadedFile) (names : List (List ℕ)) (start : List ℕ) → IsDistinct bytes_eq names
        → AreLeast before names start → AreLeast (before ++ files) names (run start (bids_of names files)) }
    ensures first { (files : List LoadedFile) (names : List (List ℕ)) → IsDistinct bytes_eq names
        → AreLeast files names (run (replicate (length names) no_word) (bids_of names files)) }
{}
