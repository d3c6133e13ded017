//! What the definitions say, in words of their own.

ghost use Rattle.std.specs.Prelude.{◌≡◌, ℕ, List, length, map};
ghost use Rattle.image_format.specs.declared.unwind.RegularPageEntry.{RegularPageEntry};
ghost use Rattle.unwind_out.specs.declared.row.UnwindRow.{UnwindRow};
ghost use Rattle.unwind_out.specs.Table.{personalities};
ghost use Rattle.unwind_out.specs.Pages.{encodings, IsSection};
ghost use Rattle.unwind_out.specs.Law.{AreAlike, ArePersonalities, AreFirstUses, KeepsOrder};

/// Functions have one section, and no other.
pub fn one_section()
    ensures is { (rows : List UnwindRow) → (bytes : List ℕ) × IsSection rows bytes }
    ensures alone { (rows : List UnwindRow) (a b : List ℕ) → IsSection rows a → IsSection rows b → a ≡ b }
{}

/// Personalities are the slots that functions name, each once, by rising offset.
pub fn personalities_rise()
    ensures is { (rows : List UnwindRow) → ArePersonalities rows (personalities rows) }
    ensures alone { (rows : List UnwindRow) (slots : List ℕ) → ArePersonalities rows slots → slots ≡ personalities rows }
{}

/// The encodings of a page's rows are those that they have, each once, in the order of their first use.
pub fn encodings_by_first_use()
    ensures is { (rows : List RegularPageEntry) → AreFirstUses (map (λ row. row.encoding) rows) (encodings rows) }
    ensures alone { (rows : List RegularPageEntry) (numbers : List ℕ) → AreFirstUses (map (λ row. row.encoding) rows) numbers → numbers ≡ encodings rows }
{}

/// Functions that differ in where their slots and language-specific data stand, and in nothing else, have sections of one
/// size, where their slots are in one order.
pub fn one_size()
    ensures { (by : ℕ → ℕ) (rows others : List UnwindRow) (a b : List ℕ) → KeepsOrder by (personalities rows) → AreAlike by rows others
        → IsSection rows a → IsSection others b → length a ≡ length b }
{}
