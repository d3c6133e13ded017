ghost use Rattle.std.specs.Prelude.{◌≡◌, [], ◌∷◌, drop, length, slice_index_or};
ghost use Rattle.mo_cmd.specs.Options.{name_of};
ghost use Rattle.mo_cmd.specs.Items as items;

use crate::options::CommandOption;
use crate::parts::Part;
use mo_types::Arg;

/// How an option and its values are spelled.
#[derive(Clone, Copy, Debug, PartialEq, Eq)]
pub enum Form {
    /// The option's word, and then its values.
    Separate,
    /// One word, the option's with its value.
    Attached,
    /// One word, the value.
    Whole,
}

fn form_of(option: CommandOption) -> Form
    ensures { result ≡ items.form_of option }
{
    match option {
        CommandOption::LibraryDir
        | CommandOption::FrameworkDir
        | CommandOption::Library
        | CommandOption::WeakLibraryNamed
        | CommandOption::ReexportLibraryNamed => Form::Attached,
        CommandOption::Path | CommandOption::Unknown => Form::Whole,
        _ => Form::Separate,
    }
}

/// A word by its index, or the empty one.
pub fn nth(words: &[Arg], index: usize) -> &[u8]
    ensures { result.now ≡ slice_index_or words.now index [] }
{
    match words.get(index) {
        Some(word) => word.as_bytes(),
        None => b"",
    }
}

/// The words that follow an option's as its values.
#[tactic(auto, using(crate::proofs::ValueLemmas::values))]
pub fn following(words: &[Arg], part: Part) -> &[Arg]
    ensures { result.now ≡ items.following words.now part }
{
    if part.at >= words.len() {
        return &[];
    }
    let rest = &words[part.at + 1..];
    let count = part.option.values();
    if count < rest.len() {
        &rest[..count]
    } else {
        rest
    }
}

#[tactic(auto, using(crate::proofs::ValueLemmas::values))]
fn after_name(option: CommandOption, word: &[u8]) -> &[u8]
    ensures { result.now ≡ drop (length (name_of option)) word.now }
{
    let name = option.name();
    if name.len() < word.len() {
        &word[name.len()..]
    } else {
        b""
    }
}

fn nth_alone(number: usize, word: &[u8]) -> &[u8]
    ensures { result.now ≡ slice_index_or (word.now ∷ []) number [] }
{
    if number == 0 { word } else { b"" }
}

/// A value of an option by its number, from 0 on, or nothing.
#[tactic(auto, using(crate::proofs::ValueLemmas::values))]
pub fn nth_value(words: &[Arg], part: Part, number: usize) -> &[u8]
    ensures { result.now ≡ slice_index_or (items.values_at words.now part) number [] }
{
    match form_of(part.option) {
        Form::Separate => nth(following(words, part), number),
        Form::Attached => nth_alone(number, after_name(part.option, nth(words, part.at))),
        Form::Whole => nth_alone(number, nth(words, part.at)),
    }
}
