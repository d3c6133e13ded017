ghost use Rattle.std.specs.Prelude.{◌≡◌, ◌+◌, ◌<◌, ◌^◌, All, IfSome, length};
ghost use Rattle.mo_cmd.specs.Faults as faults;
ghost use Rattle.std.specs.List.{position};
ghost use Rattle.mo_cmd.specs.Parts.{has_nul};

use crate::numbers::{functions, pad, reach, threads, version};
use crate::options::CommandOption;
use crate::parts::{Part, has_nul};
use crate::usage_fault::UsageFault;
use crate::values::{following, nth};
use mo_types::{Arg, UsageRule};

/// What a rule on one part needs to know of the whole command line.
#[derive(Clone, Copy, Debug)]
pub struct Whole {
    /// The image is a dynamic library.
    pub dylib: bool,
    /// The index of the last pad, where it has no room for opcodes.
    pub narrow: Option<usize>,
}

/// Whether a name holds `*`, `?` or `[`.
pub fn has_wildcard(name: &[u8]) -> bool
    ensures { result ≡ faults.has_wildcard name.now }
{
    name.iter()
        .any(|byte| *byte == b'*' || *byte == b'?' || *byte == b'[')
}

fn is_platform(values: &[Arg]) -> bool
    ensures { result ≡ faults.is_platform values.now }
{
    let platform = nth(values, 0);
    (platform == b"macos".as_slice() || platform == b"1".as_slice())
        && version(nth(values, 1)).is_some()
        && version(nth(values, 2)).is_some()
}

// Whether the values of an option are in its form.
fn are_good(option: CommandOption, values: &[Arg]) -> bool
    ensures { result ≡ faults.are_good option values.now }
{
    let value = nth(values, 0);
    match option {
        CommandOption::Arch => value == b"arm64".as_slice(),
        CommandOption::PlatformVersion => is_platform(values),
        CommandOption::Undefined => {
            value == b"error".as_slice() || value == b"dynamic_lookup".as_slice()
        }
        CommandOption::CurrentVersion
        | CommandOption::DylibCurrentVersion
        | CommandOption::CompatibilityVersion
        | CommandOption::DylibCompatibilityVersion => version(value).is_some(),
        CommandOption::ExportedSymbol | CommandOption::UnexportedSymbol => !has_wildcard(value),
        CommandOption::Headerpad => pad(value).is_some(),
        CommandOption::Threads => threads(value).is_some(),
        CommandOption::BranchReach => reach(value).is_some(),
        CommandOption::Generate => functions(value).is_some(),
        CommandOption::Icf => value == b"all".as_slice() || value == b"none".as_slice(),
        _ => true,
    }
}

/// Whether an option is for a dynamic library alone.
pub fn is_reexport(option: CommandOption) -> bool
    ensures { result ≡ faults.is_reexport option }
{
    matches!(
        option,
        CommandOption::ReexportFramework
            | CommandOption::ReexportLibrary
            | CommandOption::ReexportLibraryNamed
    )
}

fn is_unknown(option: CommandOption) -> bool
    ensures { result ≡ faults.is_unknown option }
{
    matches!(option, CommandOption::Unknown)
}

fn is_at(index: Option<usize>, part: Part) -> bool
    ensures { result ≡ faults.is_at index part }
{
    match index {
        Some(index) => part.at == index,
        None => false,
    }
}

// The first rule that a part breaks at its word.
fn rule_of(whole: Whole, part: Part, values: &[Arg]) -> Option<UsageRule>
    ensures { result ≡ faults.rule_of whole part values.now }
{
    if is_unknown(part.option) {
        return Some(UsageRule::Unknown);
    }
    if values.len() < part.option.values() {
        return Some(UsageRule::NoValue);
    }
    if !are_good(part.option, values) || is_at(whole.narrow, part) {
        return Some(UsageRule::BadValue);
    }
    if is_reexport(part.option) && !whole.dylib {
        return Some(UsageRule::DylibOnly);
    }
    None
}

fn first_nul(values: &[Arg]) -> Option<usize>
    ensures exact { result ≡ position has_nul values.now }
    ensures within { IfSome result (λ at. at < length values.now) }
{
    values.iter().position(|value| has_nul(value.as_bytes()))
}

fn fault_of(whole: Whole, words: &[Arg], part: Part) -> Option<UsageFault>
    requires { part.at < length words.now }
    ensures { result ≡ faults.fault_of whole words.now part }
{
    let values = following(words, part);
    let word = part.at as u64 + 1;
    if let Some(rule) = rule_of(whole, part, values) {
        return Some(UsageFault::At { word, rule });
    }
    let before = first_nul(values)?;
    Some(UsageFault::At {
        word: word + 1 + before as u64,
        rule: UsageRule::Unknown,
    })
}

/// The fault of the first part that has one.
#[tactic(auto, using(mo_types::proofs::Scanning::scans))]
pub fn first_fault(whole: Whole, words: &[Arg], parts: &[Part]) -> Option<UsageFault>
    requires { All (λ part. part.at < length words.now) parts.now }
    ensures { result ≡ faults.first_fault whole words.now parts.now }
{
    for part in parts {
        if let Some(fault) = fault_of(whole, words, *part) {
            return Some(fault);
        }
    }
    None
}
