//! What the words of candidates, winners and duplicates mean, each on a call that does nothing.
ghost use Rattle.std.specs.Prelude.{◌≡◌, ◌<◌, ◌^◌, ℕ, List, Option, Some, All, Contains, Ok};
ghost use Rattle.std.specs.declared.cmp.Ordering.TheVariants.{Less};
ghost use Rattle.command_line.specs.declared.command.Command.{Command};
ghost use Rattle.mo_types.specs.Candidates.{Candidate, candidate_word, least, strength};
ghost use Rattle.mo_types.specs.Keys.{compare_files};
ghost use Rattle.mo_types.specs.Loaded.{IsWholeLoaded};
ghost use Rattle.mo_types.specs.declared.key.FileId.{FileId};
ghost use Rattle.mo_types.specs.declared.loaded.Loaded.{Loaded};
ghost use Rattle.mo_types.specs.declared.loaded.LoadedFile.{LoadedFile};
ghost use Rattle.name_ids.specs.Names.{AreNames, IsNumbering, gathered};
ghost use Rattle.symbol_winners.specs.Duplicates.{IsDuplicate, duplicate_of, strong_for};
ghost use Rattle.symbol_winners.specs.Found.{AreNamed};
ghost use Rattle.symbol_winners.specs.Laws.{AreSameFiles, AreTwoLeast, HasRoom};
ghost use Rattle.symbol_winners.specs.SymbolTable.{IsSymbolTable, SymbolTable};
ghost use Rattle.symbol_winners.specs.Winners.{AreWinners};
ghost use Rattle.symbol_winners.specs.declared.winner.Winner.{Winner};

/// Of two candidates the one with the lesser strength has the lesser word, wherever it stands.
#[tactic(auto, using(crate::proofs::WordLemmas::words))]
pub fn the_stronger_wins()
    ensures { (a b : Candidate) → HasRoom a → HasRoom b → strength a.symbol < strength b.symbol → candidate_word a < candidate_word b }
{}

/// Of two candidates of one strength the earlier one has the lesser word: the one of the earlier file, and in a file the
/// earlier symbol.
#[tactic(auto, using(crate::proofs::WordLemmas::words))]
pub fn the_earlier_wins()
    ensures file { (a b : Candidate) → HasRoom a → HasRoom b → strength a.symbol ≡ strength b.symbol
        → compare_files a.file b.file ≡ Less → candidate_word a < candidate_word b }
    ensures symbol { (a b : Candidate) → strength a.symbol ≡ strength b.symbol → a.file ≡ b.file → a.index < b.index → candidate_word a < candidate_word b }
{}

/// Each candidate's name is among the names of its files, in whatever order they are numbered, and so among those that are
/// gathered of them.
#[tactic(auto, using(crate::proofs::NamedLemmas::names))]
pub fn candidates_have_numbers()
    ensures names { (files : List LoadedFile) (extra names : List (List ℕ)) → AreNames files extra names → AreNamed names files }
    ensures gathered { (files : List LoadedFile) (extra names : List (List ℕ)) → gathered files extra ≡ Ok names → AreNamed names files }
{}

/// All files have a symbol table, whatever the command.
pub fn a_symbol_table_exists()
    ensures { (command : Command) (files : List LoadedFile) → (symbols : SymbolTable) × IsSymbolTable command files symbols }
{}

/// Of names that have those of all candidates one is the least that two strong definitions have, or no name has two.
pub fn a_least_duplicate_exists()
    ensures { (files : List LoadedFile) (names : List (List ℕ)) → AreNamed names files
        → (found : Option (ℕ × FileId × FileId)) × IsDuplicate files names found }
{}

/// The files with which a duplicate is told are those of the two strong definitions of the name that have the least words,
/// and the first of them has the word in which a race of the name ends.
pub fn duplicates_have_the_least_words()
    ensures files { (loaded : Loaded) (name : List ℕ) (pair : FileId × FileId) → IsWholeLoaded loaded → duplicate_of loaded.files name ≡ Some pair
        → (first second : Candidate) × AreTwoLeast (strong_for loaded.files name) first second × (pair ≡ (first.file, second.file)) }
    ensures race { (loaded : Loaded) (name : List ℕ) (first second : Candidate) → IsWholeLoaded loaded → All (λ file. file.id.position < 2 ^ 16) loaded.files
        → AreTwoLeast (strong_for loaded.files name) first second → candidate_word first ≡ least loaded.files name }
{}

/// No two winners have one name.
pub fn a_name_has_one_winner()
    ensures { (command : Command) (files : List LoadedFile) (winners : List Winner) → AreWinners command files winners
        → (a b : Winner) → Contains winners a → Contains winners b → a.name ≡ b.name → a ≡ b }
{}

/// The same files and command have one list of winners.
pub fn winners_are_one_list()
    ensures { (command : Command) (files : List LoadedFile) (a b : List Winner) → AreWinners command files a → AreWinners command files b → a ≡ b }
{}

/// The same files have one answer as to which least name two strong definitions have, by the numbers of distinct names.
pub fn duplicates_are_one()
    ensures { (files : List LoadedFile) (names : List (List ℕ)) (a b : Option (ℕ × FileId × FileId))
        → IsNumbering names → IsDuplicate files names a → IsDuplicate files names b → a ≡ b }
{}

/// The order in which files were read is nothing: whole ones of the same files are one, and so is all that they mean.
pub fn the_order_of_reading_is_nothing()
    ensures { (a b : Loaded) → IsWholeLoaded a → IsWholeLoaded b → AreSameFiles a b → a ≡ b }
{}
