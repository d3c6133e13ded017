//! What the definitions mean, each on a call that does nothing.
ghost use Rattle.std.specs.Prelude.{◌≡◌, ◌≢◌, ℕ, ◌<◌, Contains, List, Some, length, slice_index_or};
ghost use Rattle.std.specs.List.{AllPairs, filter_map};
ghost use Rattle.std.specs.Cmp.Lexicographic.{slice_cmp};
ghost use Rattle.std.specs.Ordering.{nat_cmp};
ghost use Rattle.std.specs.declared.cmp.Ordering.TheVariants.{Less};
ghost use Rattle.command_line.specs.declared.command.Command.{Command};
ghost use Rattle.mo_types.specs.Goals.{name_of};
ghost use Rattle.mo_types.specs.Loaded.{IsWholeLoaded};
ghost use Rattle.mo_types.specs.declared.atom.Atom.{Atom};
ghost use Rattle.mo_types.specs.declared.loaded.Loaded.{Loaded};
ghost use Rattle.mo_types.specs.declared.loaded.LoadedFile.{LoadedFile};
ghost use Rattle.mo_types.specs.declared.goal.Goal.{Goal};
ghost use Rattle.sect_place.specs.declared.layout.Layout.{Layout};
ghost use Rattle.sect_place.specs.declared.layout.Placed.{Placed};
ghost use Rattle.slot_plan.specs.declared.list.Slots.{Slots};
ghost use Rattle.symbol_winners.specs.SymbolTable.{IsSymbolTable, SymbolTable};
ghost use Rattle.symbol_winners.specs.declared.winner.Winner.{Winner};
ghost use Rattle.sym_out.specs.Entries.{Entry};
ghost use Rattle.sym_out.specs.Laws.{HasMap, HaveSizes, IsItsSymbol, IsNamed, IsOne, LeadsToSymbol};
ghost use Rattle.sym_out.specs.Map.{IsMap};
ghost use Rattle.sym_out.specs.Symbols.{AreSymbolParts, Ranges, exported_entry, undefined_entry};
ghost use Rattle.sym_out.specs.declared.parts.SymbolParts.{SymbolParts};

/// The sizes of an image's symbols and of its indirect table are known by the counts of both.
pub fn sizes_are_counts()
    ensures { (slots : Slots) (ranges : Ranges) → HaveSizes slots ranges }
{}

/// Each symbol tells where its name stands among the strings.
pub fn symbols_lead_to_their_names()
    ensures { (entries : List Entry) (i : ℕ) (d : Entry) → i < length entries → IsNamed entries i (slice_index_or entries i d) }
{}

/// A stub or slot has the number of a symbol of its goal's name, or is told to have none.
pub fn slots_lead_to_symbols()
    ensures { (ranges : Ranges) (goal : Goal) → LeadsToSymbol ranges goal }
{}

/// A winner's word tells the symbol that won.
pub fn winners_lead_to_their_symbols()
    ensures { (command : Command) (loaded : Loaded) (symbols : SymbolTable) (i : ℕ) (d : Winner) → IsWholeLoaded loaded
        → IsSymbolTable command loaded.files symbols → i < length symbols.winners → IsItsSymbol loaded.files (slice_index_or symbols.winners i d) }
{}

/// A bound goal that another image has has one symbol of its name.
pub fn bound_goals_have_one_symbol()
    ensures { (bound : List Goal) (goal : Goal) (entry : Entry) → AllPairs (λ (a : Goal) (b : Goal). slice_cmp nat_cmp (name_of a) (name_of b) ≡ Less) bound
        → Contains bound goal → undefined_entry goal ≡ Some entry → IsOne (filter_map undefined_entry bound) entry }
{}

/// A winner that other images see and whose atom is placed has one symbol of its name.
pub fn exported_winners_have_one_symbol()
    ensures { (layout : Layout) (symbols : SymbolTable) (winner : Winner) (entry : Entry)
        → AllPairs (λ (a : Winner) (b : Winner). slice_cmp nat_cmp a.name b.name ≡ Less) symbols.winners
        → Contains symbols.winners winner → exported_entry layout symbols winner ≡ Some entry
        → IsOne (filter_map (exported_entry layout symbols) symbols.winners) entry }
{}

/// There is a map, and where no atom is kept twice there is one.
pub fn maps_are_one()
    ensures there { (placed : List Placed) (atoms : List Atom) (files : List LoadedFile) → HasMap placed atoms files }
    ensures one { (placed : List Placed) (atoms : List Atom) (files : List LoadedFile) (lines : List ℕ) (others : List ℕ)
        → AllPairs (λ (a : Atom) (b : Atom). a.key ≢ b.key) atoms → IsMap placed atoms files lines → IsMap placed atoms files others
        → lines ≡ others }
{}

/// The parts that have an image's symbols are one: of whole files and their symbol table no others meet what
/// `write_symbols` answers.
pub fn parts_are_one()
    ensures { (command : Command) (loaded : Loaded) (layout : Layout) (slots : Slots) (bound : List Goal) (symbols : SymbolTable)
        (parts : SymbolParts) (other : SymbolParts) → IsWholeLoaded loaded → IsSymbolTable command loaded.files symbols
        → AreSymbolParts layout slots bound symbols loaded.files parts → AreSymbolParts layout slots bound symbols loaded.files other
        → parts ≡ other }
{}
