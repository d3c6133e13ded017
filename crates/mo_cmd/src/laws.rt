//! What holds of every command line.

ghost use Rattle.std.specs.Prelude.{List, ℕ};
ghost use Rattle.mo_cmd.specs.Laws.{AreConsumed, AreReadBack, IsOfItems, HasDefaults};

use crate::parts::Rows;

/// The words of a command line are the spellings of its items, one after the other.
#[tactic(auto, using(crate::proofs::SpellingLemmas::consumed))]
pub fn words_are_consumed(rows: Rows)
    ensures { AreConsumed rows }
{
    let _rows = rows;
}

/// Items that are well spelled are read back from their words.
#[tactic(auto, using(crate::proofs::SpellingLemmas::read_back))]
pub fn items_are_read_back(rows: Rows)
    ensures { AreReadBack rows }
{
    let _rows = rows;
}

/// A command is that of the items of its words.
#[tactic(auto, using(crate::proofs::SpellingLemmas::of_items))]
pub fn a_command_is_that_of_its_items(rows: Rows)
    ensures { IsOfItems rows }
{
    let _rows = rows;
}

/// Every field has its default where the words are one path.
#[tactic(auto, using(crate::proofs::SpellingLemmas::defaults))]
pub fn a_path_alone_has_the_defaults()
    ensures { (path : List ℕ) → HasDefaults path }
{}
