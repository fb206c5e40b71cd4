//! What stands behind the name of a command.

ghost use Rattle.std.specs.Prelude.{◌≡◌, MatchOption, IfSome, None, Some, map, string_bytes};
ghost use Rattle.pld_words.specs.Words.{value_behind, option_first, number_first, workers_first, argument_first, with_more, arguments_of, IsArgument, AreArguments};

use super::number::number_up_to;

const MOST_ROUNDS: u64 = 1_000_000;

const MOST_NUMBER: u64 = 60;

const MOST_WORKERS: u64 = 8;

/// An argument of a command.
#[derive(Clone, Copy, PartialEq, Eq)]
pub enum Argument {
    Number(u8),
    Rounds(u64),
    Workers(u8),
}

/// The arguments of a command, in order. No command has more than two.
#[derive(Clone, Copy, PartialEq, Eq)]
pub enum Arguments {
    Nothing,
    One(Argument),
    Two(Argument, Argument),
}

/// The value of an option, by what stands behind its name in the same word, and the words behind it.
fn value<'a>(tail: &'a [u8], words: &'a [String]) -> Option<(&'a [u8], &'a [String])>
    ensures { MatchOption result (value_behind tail.now (map string_bytes words.now) ≡ None)
        (λ found. value_behind tail.now (map string_bytes words.now) ≡ Some (found.0.now, map string_bytes found.1.now)) }
{
    match tail.split_first() {
        None => {
            let (value, rest) = words.split_first()?;
            Some((value.as_bytes(), rest))
        }
        Some((b'=', value)) => Some((value, words)),
        Some(_) => None,
    }
}

/// The value of the option of this name, if it stands in front, and the words behind it.
fn option<'a>(name: &[u8], words: &'a [String]) -> Option<(&'a [u8], &'a [String])>
    ensures { MatchOption result (option_first name.now (map string_bytes words.now) ≡ None)
        (λ found. option_first name.now (map string_bytes words.now) ≡ Some (found.0.now, map string_bytes found.1.now)) }
{
    let (word, rest) = words.split_first()?;
    let tail = word.as_bytes().strip_prefix(name)?;
    value(tail, rest)
}

/// The number that stands in front, and the words behind it.
fn number(words: &[String]) -> Option<(Argument, &[String])>
    ensures value { MatchOption result (number_first (map string_bytes words.now) ≡ None)
        (λ found. number_first (map string_bytes words.now) ≡ Some (found.0, map string_bytes found.1.now)) }
    ensures range { IfSome result (λ found. IsArgument found.0) }
{
    let (word, rest) = words.split_first()?;
    let number = number_up_to(MOST_NUMBER, word.as_bytes())?;
    Some((Argument::Number(number as u8), rest))
}

/// The option on workers, or the number, that stands in front, and the words behind it.
fn workers_or_number(words: &[String]) -> Option<(Argument, &[String])>
    ensures value { MatchOption result (workers_first (map string_bytes words.now) ≡ None)
        (λ found. workers_first (map string_bytes words.now) ≡ Some (found.0, map string_bytes found.1.now)) }
    ensures range { IfSome result (λ found. IsArgument found.0) }
{
    match option(b"--workers", words) {
        Some((value, rest)) => {
            let workers = number_up_to(MOST_WORKERS, value)?;
            Some((Argument::Workers(workers as u8), rest))
        }
        None => number(words),
    }
}

/// The argument that stands in front, and the words behind it.
fn read_argument(words: &[String]) -> Option<(Argument, &[String])>
    ensures value { MatchOption result (argument_first (map string_bytes words.now) ≡ None)
        (λ found. argument_first (map string_bytes words.now) ≡ Some (found.0, map string_bytes found.1.now)) }
    ensures range { IfSome result (λ found. IsArgument found.0) }
{
    match option(b"--rounds", words) {
        Some((value, rest)) => {
            let rounds = number_up_to(MOST_ROUNDS, value)?;
            Some((Argument::Rounds(rounds), rest))
        }
        None => workers_or_number(words),
    }
}

/// The arguments from the first one on, with these words behind it.
fn more(first: Argument, words: &[String]) -> Option<Arguments>
    requires { IsArgument first }
    ensures value { result ≡ with_more first (map string_bytes words.now) }
    ensures range { IfSome result AreArguments }
{
    if words.is_empty() {
        return Some(Arguments::One(first));
    }
    let (second, rest) = read_argument(words)?;
    if rest.is_empty() {
        Some(Arguments::Two(first, second))
    } else {
        None
    }
}

/// The arguments that these words are. None where they are none, or more than two.
pub fn read_arguments(words: &[String]) -> Option<Arguments>
    ensures value { result ≡ arguments_of (map string_bytes words.now) }
    ensures range { IfSome result AreArguments }
{
    if words.is_empty() {
        return Some(Arguments::Nothing);
    }
    let (first, rest) = read_argument(words)?;
    more(first, rest)
}
