//! The words of the command line, and the command that they are.
#![tactic(auto)]

mod arguments;
mod number;
#[cfg(test)]
mod tests;

ghost use Rattle.std.specs.Prelude.{◌≡◌, IfSome, map, string_bytes};
ghost use Rattle.pld_words.specs.Words.{plain_of, work_of, big_of, command_of, AreArguments, IsInRange};

use arguments::{Argument, Arguments, read_arguments};

/// The rounds of a run, where no option says another number.
const DEFAULT_ROUNDS: u64 = 100_000;

/// What the words ask for.
#[derive(Clone, Copy, Debug, PartialEq, Eq)]
pub enum Command {
    /// A session on one thread, with this many rounds a run: 1 to 1,000,000.
    Plain { rounds: u64 },
    /// A session whose runs are made by this many workers, 1 to 8, with this many rounds a run: 1 to 1,000,000.
    Work { workers: u8, rounds: u64 },
    /// The big session of this number, 1 to 60, with this many rounds a run: 1 to 1,000,000.
    Big { number: u8, rounds: u64 },
}

/// `plain`, with at most the rounds.
fn plain(arguments: Option<Arguments>) -> Option<Command>
    requires { IfSome arguments AreArguments }
    ensures value { result ≡ plain_of arguments }
    ensures range { IfSome result IsInRange }
{
    match arguments? {
        Arguments::Nothing => Some(Command::Plain {
            rounds: DEFAULT_ROUNDS,
        }),
        Arguments::One(Argument::Rounds(rounds)) => Some(Command::Plain { rounds }),
        _ => None,
    }
}

/// `work` with the workers, and at most the rounds behind or before them.
fn work(arguments: Option<Arguments>) -> Option<Command>
    requires { IfSome arguments AreArguments }
    ensures value { result ≡ work_of arguments }
    ensures range { IfSome result IsInRange }
{
    match arguments? {
        Arguments::One(Argument::Workers(workers)) => Some(Command::Work {
            workers,
            rounds: DEFAULT_ROUNDS,
        }),
        Arguments::Two(Argument::Workers(workers), Argument::Rounds(rounds)) => {
            Some(Command::Work { workers, rounds })
        }
        Arguments::Two(Argument::Rounds(rounds), Argument::Workers(workers)) => {
            Some(Command::Work { workers, rounds })
        }
        _ => None,
    }
}

/// `big` with its number, and at most the rounds behind or before it.
fn big(arguments: Option<Arguments>) -> Option<Command>
    requires { IfSome arguments AreArguments }
    ensures value { result ≡ big_of arguments }
    ensures range { IfSome result IsInRange }
{
    match arguments? {
        Arguments::One(Argument::Number(number)) => Some(Command::Big {
            number,
            rounds: DEFAULT_ROUNDS,
        }),
        Arguments::Two(Argument::Number(number), Argument::Rounds(rounds)) => {
            Some(Command::Big { number, rounds })
        }
        Arguments::Two(Argument::Rounds(rounds), Argument::Number(number)) => {
            Some(Command::Big { number, rounds })
        }
        _ => None,
    }
}

/// The command that these words are, None where they are none.
pub fn read_words(words: &[String]) -> Option<Command>
    ensures command { result ≡ command_of (map string_bytes words.now) }
    ensures range { IfSome result IsInRange }
{
    let (name, rest) = words.split_first()?;
    if name.as_bytes() == b"plain".as_slice() {
        plain(read_arguments(rest))
    } else if name.as_bytes() == b"work".as_slice() {
        work(read_arguments(rest))
    } else if name.as_bytes() == b"big".as_slice() {
        big(read_arguments(rest))
    } else {
        None
    }
}
