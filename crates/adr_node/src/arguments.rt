//! The program's arguments.
ghost use Rattle.std.specs.Prelude.{◌≡◌, map, option_map, string_bytes};
ghost use Rattle.adr_node.specs.Arguments.{number_at, limit_set, limits_after, limits_of, is_option, named_after};

use adr_machine::{MOST_NUMBER, number_within};
use adr_state::Limits;

/// The number that 1 to 16 digits write, where it is one that a limit may have: the largest is that of
/// the serial.
fn number_at(digits: &[u8]) -> Option<u64>
    ensures { result ≡ number_at digits.now }
{
    if digits.len() > 16 {
        return None;
    }
    number_within(MOST_NUMBER, digits)
}

/// The limits with that of one argument, `NAME=NUMBER`, set.
#[tactic(auto, unfolding(crate::specs::Arguments::limit_set, adr_wire::specs::Cuts::cut))]
fn limit_set(mut limits: Limits, argument: &str) -> Option<Limits>
    ensures { result ≡ limit_set limits argument.now }
{
    let (name, digits) = argument.split_once('=')?;
    let number = number_at(digits.as_bytes())?;
    if limits.set(name, number) {
        Some(limits)
    } else {
        None
    }
}

/// The limits with each argument set in turn.
fn limits_after(limits: Limits, arguments: &[String]) -> Option<Limits>
    ensures { result ≡ limits_after limits (map string_bytes arguments.now) }
{
    let mut limits = limits;
    for argument in arguments {
        limits = limit_set(limits, argument.as_str())?;
    }
    Some(limits)
}

/// The limits that the words behind the program's name set: `script`, and then limits.
pub fn limits_of(words: &[String]) -> Option<Limits>
    ensures { result ≡ limits_of (map string_bytes words.now) }
{
    let (word, arguments) = words.split_first()?;
    if word.as_str() != "script" {
        return None;
    }
    limits_after(Limits::largest(), arguments)
}

/// Whether a word is an option, as `--help`: there is none that the program knows.
fn is_option(word: &str) -> bool
    ensures { result ≡ is_option word.now }
{
    match word.as_bytes() {
        [first, ..] => *first == b'-',
        [] => false,
    }
}

/// The name of the file behind a word, where the words behind the program's name are these two, and it is no option:
/// `init` makes a file for a node, `serve` serves by a configuration. A file whose name begins so goes by `./` before
/// it.
pub fn named_after<'a>(word: &str, words: &'a [String]) -> Option<&'a str>
    ensures { option_map (λ name. name.now) result ≡ named_after word.now (map string_bytes words.now) }
{
    match words {
        [first, name] if first.as_str() == word && !is_option(name.as_str()) => Some(name.as_str()),
        _ => None,
    }
}
