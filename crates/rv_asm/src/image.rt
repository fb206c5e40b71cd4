//! The image of an operator.

ghost use Rattle.std.specs.Prelude.{◌≡◌, IfOk};
ghost use Rattle.image_form.specs.Spelling.{Soft, IsForm};

use crate::assembling::AsmOp;
use image_form::ImageForm;
use pld_base::{NoMemory, Permit};
use pld_image::Image;
use std::alloc::Global;

/// The soft image of this code with these ports, which is in range, as it is for each operator that `assemble` gives: 1 to 32,767
/// words that `decode` takes, and at most 8 ports of each side. The permit is spent.
pub fn asm_image(alloc: Global, permit: Permit, op: &AsmOp) -> Result<Image, NoMemory>
    requires { IsForm (Soft op.now.ins op.now.outs op.now.code.items) }
    ensures { IfOk result (λ image. image ≡ Soft op.now.ins op.now.outs op.now.code.items) }
{
    let code = Vec::from_slice(alloc, op.code.as_slice())?;
    let (ins, outs) = (op.ins, op.outs);
    Ok(Image::of(permit, ImageForm::Soft { ins, outs, code }))
}
