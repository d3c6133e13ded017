//! What holds of files that come round by round, each on a call that does nothing.
ghost use Rattle.std.specs.Prelude.{◌≡◌, ℕ, ◌+◌, ◌<◌, ◌≤◌, ◌⊎◌, Bool, List, length, None, Ok, Some, Contains, true};
ghost use Rattle.std.specs.List.{AllPairs};
ghost use Rattle.mo_types.specs.Loaded.{IsBefore};
ghost use Rattle.mo_types.specs.declared.key.FileId.{FileId};
ghost use Rattle.mo_types.specs.declared.loaded.Loaded.{Loaded};
ghost use Rattle.mo_types.specs.declared.loaded.LoadedFile.{LoadedFile};
ghost use Rattle.member_rounds.specs.Growth.{after, union};
ghost use Rattle.input_files.specs.Files.{all_ids, file_of, is_first};
ghost use Rattle.member_rounds.specs.Rounds.{WasAskedFor, asked_by, files_of, is_header_name, loaded_ids, loaded_of, missing_names, round};
ghost use Rattle.input_files.specs.Sources.{AreInOrder};
ghost use Rattle.input_files.specs.declared.input.Input.{Input};
ghost use Rattle.lib_bind.specs.Provides.{offer_of};
ghost use Rattle.lib_bind.specs.declared.library.LibraryGraph.{LibraryGraph};
ghost use Rattle.lib_bind.specs.declared.provider.Offer.{Offer};

/// A round keeps the files of the one before, and has none that isn't in the list.
#[tactic(auto, using(crate::proofs::GrowthLemmas::rounds))]
pub fn rounds_grow()
    ensures keeps { (all : List FileId) (first : FileId → Bool) (asks : List FileId → FileId → Bool) (k : ℕ) (file : FileId)
        → Contains (after all first asks k) file → Contains (after all first asks (k + 1)) file }
    ensures within { (all : List FileId) (first : FileId → Bool) (asks : List FileId → FileId → Bool) (k : ℕ) (file : FileId)
        → Contains (after all first asks k) file → Contains all file }
{}

/// After as many rounds as there are files no round adds any.
#[tactic(auto, using(crate::proofs::GrowthLemmas::rounds))]
pub fn rounds_end()
    ensures { (all : List FileId) (first : FileId → Bool) (asks : List FileId → FileId → Bool) (k : ℕ)
        → length all ≤ k → after all first asks k ≡ union all first asks }
{}

/// The files of all rounds ask for none of the list that isn't among them.
#[tactic(auto, using(crate::proofs::GrowthLemmas::rounds))]
pub fn nothing_more_is_asked_for()
    ensures { (all : List FileId) (first : FileId → Bool) (asks : List FileId → FileId → Bool) (file : FileId)
        → Contains all file → asks (union all first asks) file ≡ true → Contains (union all first asks) file }
{}

/// A file is there from the first on, or a round before asked for it.
#[tactic(auto, using(crate::proofs::GrowthLemmas::rounds))]
pub fn each_file_was_asked_for()
    ensures { (all : List FileId) (first : FileId → Bool) (asks : List FileId → FileId → Bool) (k : ℕ) (file : FileId)
        → Contains (after all first asks k) file → (first file ≡ true) ⊎ ((j : ℕ) × (j < k) × (asks (after all first asks j) file ≡ true)) }
{}

/// Where a name that a loaded file or the command line wants has no candidate in the files of all rounds, and asks for a
/// file, that file is loaded.
#[tactic(auto, using(crate::proofs::RoundLemmas::loads))]
pub fn what_is_loaded_asks_for_nothing_more()
    ensures { (inputs : List Input) (libs : LibraryGraph) (wanted : List (List ℕ)) (name : List ℕ) (id : FileId)
        → Contains (missing_names (files_of inputs (loaded_ids inputs libs wanted)) wanted) name → asked_by inputs libs name ≡ Some id
        → Contains (all_ids inputs) id → Contains (loaded_ids inputs libs wanted) id }
{}

/// A file of a round is an object or of an archive whose members are all loaded, or a name asked for it that was wanted
/// after a round before, without a candidate there.
#[tactic(auto, using(crate::proofs::RoundLemmas::loads))]
pub fn what_is_loaded_was_asked_for()
    ensures { (inputs : List Input) (libs : LibraryGraph) (wanted : List (List ℕ)) (k : ℕ) (id : FileId)
        → Contains (round inputs libs wanted k) id
        → (is_first inputs id ≡ true) ⊎ WasAskedFor inputs libs wanted k id }
{}

/// A name that a library provides asks for no member of an archive that stands after it.
#[tactic(auto, using(crate::proofs::RoundLemmas::loads))]
pub fn a_library_before_takes_the_name()
    ensures { (inputs : List Input) (libs : LibraryGraph) (name : List ℕ) (id : FileId) (offer : Offer)
        → asked_by inputs libs name ≡ Some id → offer_of libs name ≡ Some offer → id.position ≤ offer.library.position }
{}

/// The names of the image's header ask for nothing.
#[tactic(auto, using(crate::proofs::RoundLemmas::loads))]
pub fn headers_ask_nobody()
    ensures { (inputs : List Input) (libs : LibraryGraph) (name : List ℕ) → is_header_name name ≡ true → asked_by inputs libs name ≡ None }
{}

/// Where a link has an answer, each file of all rounds could be read and is in it, and nothing else is.
pub fn what_is_loaded_could_be_read()
    ensures all { (inputs : List Input) (libs : LibraryGraph) (wanted : List (List ℕ)) (loaded : Loaded) (id : FileId)
        → loaded_of inputs libs wanted ≡ Ok loaded → Contains (loaded_ids inputs libs wanted) id
        → (file : LoadedFile) × (file_of inputs id ≡ Ok file) × Contains loaded.files file }
    ensures only { (inputs : List Input) (libs : LibraryGraph) (wanted : List (List ℕ)) (loaded : Loaded) (file : LoadedFile)
        → loaded_of inputs libs wanted ≡ Ok loaded → Contains loaded.files file
        → (id : FileId) × Contains (loaded_ids inputs libs wanted) id × (file_of inputs id ≡ Ok file) }
{}

/// The ids of what is loaded rise.
pub fn what_is_loaded_rises()
    ensures { (inputs : List Input) (libs : LibraryGraph) (wanted : List (List ℕ)) (loaded : Loaded)
        → AreInOrder inputs → loaded_of inputs libs wanted ≡ Ok loaded → AllPairs (λ a b. IsBefore a.id b.id) loaded.files }
{}
