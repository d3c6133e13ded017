use mo_types::Loaded;
use resolve::GoalTable;
use sect_place::Layout;
use slot_plan::Slots;
use symbol_winners::SymbolTable;

/// What the references of an image's atoms are met in.
#[derive(Clone, Copy)]
pub struct Scene<'a> {
    pub loaded: &'a Loaded,
    /// The goals of each file's symbols.
    pub goals: &'a GoalTable,
    /// With what stands for each literal.
    pub symbols: &'a SymbolTable<'a>,
    pub layout: &'a Layout,
    pub slots: &'a Slots,
    /// The image's first address, where its header stands.
    pub base: u64,
}
