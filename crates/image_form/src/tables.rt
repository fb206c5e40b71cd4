//! The tables of hardware pages.

ghost use Rattle.std.specs.Prelude.{◌≡◌, []};
ghost use Rattle.fsm_core.specs.Table.{plan_in};
ghost use Rattle.image_form.specs.Reading.{Gives, many};
ghost use Rattle.image_form.specs.Tables.{length_at, table_at};

use crate::fields::word_in;
use crate::micros::Limits;
use crate::states::states;
use crate::stop::Stop;
use fsm_core::Table;
use std::alloc::Global;

// The most arrays of a table.
const MOST_ARRAYS: u32 = 16;

// The most words of all arrays of a table.
const MOST_ARRAY_WORDS: u32 = 8192;

// The least count of registers: those of the scalars.
const SCALARS: u32 = 64;

// The most registers, and the most states.
const MOST: u32 = 65_535;

// The lengths of so many arrays.
fn lengths(alloc: Global, count: u32, bytes: &[u8]) -> Result<(Vec<u32>, &[u8]), Stop>
    ensures { Gives (λ x. (x.0.items, x.1.now)) result (many length_at count [] bytes.now) }
{
    let mut lengths = Vec::new(alloc);
    let mut room = MOST_ARRAY_WORDS;
    let mut rest = bytes;
    for _ in 0..count {
        let (length, after) = word_in(1, room, rest)?;
        lengths.push(length)?;
        room -= length;
        rest = after;
    }
    Ok((lengths, rest))
}

/// The table of a page with these counts of ports.
#[tactic(auto, unfolding(crate::specs::Tables::table_at))]
pub fn table(alloc: Global, ins: u8, outs: u8, bytes: &[u8]) -> Result<(Table, &[u8]), Stop>
    ensures { Gives (λ x. (plan_in x.0, x.1.now)) result (table_at ins outs bytes.now) }
{
    let (count, rest) = word_in(0, MOST_ARRAYS, bytes)?;
    let (arrays, rest) = lengths(alloc, count, rest)?;
    let (registers, rest) = word_in(SCALARS, MOST, rest)?;
    let (count, rest) = word_in(1, MOST, rest)?;
    let limits = Limits {
        ins,
        outs,
        arrays: arrays.len(),
        registers,
        states: count,
    };
    let (states, rest) = states(alloc, limits, count, rest)?;
    let table = Table {
        ins,
        outs,
        arrays,
        registers,
        states,
    };
    Ok((table, rest))
}
