//! Operators, compiled for softcores.

ghost use Rattle.std.specs.Prelude.{◌≡◌, IfOk, map};
ghost use Rattle.pld_base.specs.Process.{WritesWords};
ghost use Rattle.pld_kahn.specs.Realises.{Realises};
ghost use Rattle.pld_ast.specs.Meaning.{trace};
ghost use Rattle.pld_ast.specs.Resolve.{program_of};
ghost use Rattle.pld_ast.specs.Sound.{IsSound};
ghost use Rattle.rv_isa.specs.Spelling.{spelling};
ghost use Rattle.image_form.specs.Spelling.{Soft, form_in};
ghost use Rattle.pld_image.specs.Processes.{process_of};
ghost use Rattle.pld_image.specs.Traps.{NeverTraps};
ghost use Rattle.rv_back.specs.Code.{soft_code};
ghost use Rattle.rv_back.specs.Form.{soft_form, IsShort};

use crate::emit::put_block;
use crate::laws::words_keep_the_meaning;
use crate::templates::{put_end, put_prologue};
use pld_ast::Operator;
use pld_base::{NoMemory, Permit};
use pld_check::Checked;
use pld_image::{Image, ImageForm};
use rv_isa::{Instr, encode};
use std::alloc::Global;

// The words of instructions.
fn words_of(alloc: Global, code: &[Instr]) -> Result<Vec<u32>, NoMemory>
    ensures { IfOk result (λ words. words.items ≡ map spelling code.now) }
{
    let mut words = Vec::new(alloc);
    for instr in code {
        words.push(encode(*instr))?;
    }
    Ok(words)
}

// The instructions of an operator.
fn code_of(alloc: Global, op: &Operator) -> Result<Vec<Instr>, NoMemory>
    requires { IsSound (program_of op.now) }
    ensures { IfOk result (λ code. code.items ≡ soft_code (program_of op.now)) }
{
    let mut code = Vec::new(alloc);
    put_prologue(&mut code)?;
    put_block(&mut code, op, op.body.as_slice())?;
    put_end(&mut code)?;
    Ok(code)
}

// The image of an operator with these words.
fn image_of(checked: &Checked, code: Vec<u32>) -> ImageForm
    ensures { form_in result ≡ Soft (program_of checked.now).ins (program_of checked.now).outs code.items }
{
    ImageForm::Soft {
        ins: checked.ins(),
        outs: checked.outs(),
        code,
    }
}

/// Compiles an operator for a softcore. The permit is spent. The image has the words of the operator's
/// code, at most 12,005 of them. It does what the operator means: no more, no less, it returns where that
/// returns and starves where that starves. It never traps, and it writes words.
pub fn compile_soft(alloc: Global, permit: Permit, checked: &Checked) -> Result<Image, NoMemory>
    ensures form { IfOk result (λ image. image ≡ soft_form checked.now) }
    ensures short { IfOk result (λ image. IsShort image) }
    ensures realises { IfOk result (λ image. Realises (process_of image) (trace (program_of checked.now))) }
    ensures never_traps { IfOk result (λ image. NeverTraps image) }
    ensures writes_words { IfOk result (λ image. WritesWords (process_of image)) }
{
    words_keep_the_meaning();
    let instructions = code_of(alloc, checked.operator())?;
    let words = words_of(alloc, instructions.as_slice())?;
    Ok(Image::of(permit, image_of(checked, words)))
}
