//! Jumps, whose lengths are told once the code that they pass is there.

ghost use Rattle.std.specs.Prelude.{◌≡◌, ◌+◌, ◌-◌, ◌*◌, [], ◌∷◌, ◌++◌, ◌<◌, ◌^◌, OnOk, length, slice_set};
ghost use Rattle.rv_back.specs.Form.{open_test, jump_on, jump_back};

use crate::templates::{put, put_both};
use pld_base::NoMemory;
use rv_isa::{Far, Instr, Near, Reg};

// The most instructions of an operator's code.
const MOST: usize = 12_005;

/// A jump over so many words of the code, itself included, at most 12,005.
pub fn jump_forward(words: usize) -> Instr
    ensures { result ≡ jump_on words }
{
    let rd = Reg::new(0);
    let bytes = 4 * words.min(MOST) as i32;
    Instr::Jal {
        rd,
        imm: Far::new(bytes),
    }
}

// A jump back by so many words of the code, at most 12,005.
fn jump_backward(words: usize) -> Instr
    ensures { result ≡ jump_back words }
{
    let rd = Reg::new(0);
    let bytes = 4 * words.min(MOST) as i32;
    Instr::Jal {
        rd,
        imm: Far::new(-bytes),
    }
}

/// Past the next jump where x10 isn't 0, and that jump, whose length isn't told yet.
pub fn put_open(code: &mut Vec<Instr>) -> Result<(), NoMemory>
    ensures { OnOk result (code.new.items ≡ code.old.items ++ open_test) }
{
    let rs1 = Reg::new(10);
    let rs2 = Reg::new(0);
    let imm = Near::new(8);
    put_both(code, Instr::Bne { rs1, rs2, imm }, jump_forward(0))
}

// Another instruction at a place of the code, if there is one.
fn patch(code: &mut Vec<Instr>, at: usize, instr: Instr)
    ensures { code.new.items ≡ slice_set code.old.items at instr }
{
    if let Some(place) = code.get_mut(at) {
        *place = instr;
    }
}

/// The lengths of the jumps of a choice, whose test ends at `tested` and whose first block at `first`.
pub fn close_choice(code: &mut Vec<Instr>, tested: usize, first: usize)
    requires { tested + 1 < 2 ^ 64 }
    ensures { code.new.items ≡ slice_set (slice_set code.old.items (tested + 1) (jump_on (first - tested))) first (jump_on (length code.old.items - first)) }
{
    let end = code.len();
    patch(code, tested + 1, jump_forward(first.saturating_sub(tested)));
    patch(code, first, jump_forward(end.saturating_sub(first)));
}

/// The jump of a loop back to its start, and the length of the one past it, where the test ends at
/// `tested`.
pub fn close_loop(code: &mut Vec<Instr>, start: usize, tested: usize) -> Result<(), NoMemory>
    requires { tested + 1 < 2 ^ 64 }
    ensures { OnOk result (code.new.items ≡ slice_set (code.old.items ++ jump_back (length code.old.items - start) ∷ []) (tested + 1) (jump_on (length code.old.items - tested))) }
{
    let end = code.len();
    put(code, jump_backward(end.saturating_sub(start)))?;
    patch(code, tested + 1, jump_forward(end.saturating_sub(tested)));
    Ok(())
}
