//! The line that stands for a session of one run.

ghost use Rattle.std.specs.Prelude.{◌≡◌, ◌++◌, ◌<◌, OnOk, decimal, codes, length};
ghost use Rattle.fabric_core.specs.Runs.{setup_for, state_of};
ghost use Rattle.fabric_run.specs.Shown.{shown};
ghost use Rattle.pld_reply.specs.Summary.{outcome_word, word_sum, summary};

use crate::put::{put_number, put_text};
use fabric_core::Fabric;
use fabric_run::Outcome;
use pld_base::NoMemory;

/// The sum of some words, modulo 2^32.
#[tactic(auto, using(crate::proofs::Summing::one_more))]
fn sum_words(words: &[u32]) -> u64
    ensures { result ≡ word_sum words.now }
{
    let mut total = 0u32;
    for word in words {
        total = total.wrapping_add(*word);
    }
    u64::from(total)
}

/// Writes how a run ended, in a word.
fn put_outcome_word(reply: &mut Vec<u8>, end: Option<Outcome>) -> Result<(), NoMemory>
    ensures { OnOk result (reply.new.items ≡ reply.old.items ++ outcome_word end) }
{
    match end {
        None => Ok(()),
        Some(Outcome::Done) => put_text(reply, b"done"),
        Some(Outcome::Stalled) => put_text(reply, b"stalled"),
        Some(Outcome::Spent) => put_text(reply, b"spent"),
    }
}

/// Writes how many words there are, and their sum.
fn put_words_summed(reply: &mut Vec<u8>, words: &[u32]) -> Result<(), NoMemory>
    ensures { OnOk result (reply.new.items ≡ reply.old.items ++ (codes " words " ++ decimal (length words.now) ++ codes " sum " ++ decimal (word_sum words.now) ++ codes "\n")) }
{
    put_text(reply, b" words ")?;
    put_number(reply, words.len() as u64)?;
    put_text(reply, b" sum ")?;
    put_number(reply, sum_words(words))?;
    put_text(reply, b"\n")
}

/// Writes `big N compiled C OUTCOME words M sum S`: of the session with number N, how many permits it spent, how its one run
/// ended, how many words its first output has, and their sum modulo 2^32.
pub fn put_summary(
    reply: &mut Vec<u8>,
    number: u64,
    permits: u64,
    fabric: &Fabric,
) -> Result<(), NoMemory>
    requires { 0 < fabric.now.plan.outs }
    ensures { OnOk result (reply.new.items ≡ reply.old.items ++ summary number permits (shown (setup_for fabric.now) (state_of fabric.now))) }
{
    put_text(reply, b"big ")?;
    put_number(reply, number)?;
    put_text(reply, b" compiled ")?;
    put_number(reply, permits)?;
    put_text(reply, b" ")?;
    put_outcome_word(reply, fabric.over())?;
    put_words_summed(reply, fabric.out(0))
}
