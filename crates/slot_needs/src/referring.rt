use mo_types::{Goal, KeyList, Loaded};
use resolve::GoalTable;
use symbol_winners::SymbolTable;

/// What refers to something in an image, and to what.
#[derive(Clone, Copy)]
pub struct Referring<'a> {
    pub loaded: &'a Loaded,
    /// Where the symbols of each file lead.
    pub goals: &'a GoalTable,
    /// With what stands for each literal.
    pub symbols: &'a SymbolTable<'a>,
    /// The atoms that are kept, by rising key.
    pub keys: &'a KeyList,
    /// Where an executable begins.
    pub entry: Option<&'a Goal>,
}
