//! A job of compiling.

ghost use Rattle.std.specs.Prelude.{◌≡◌, IfOk};
ghost use Rattle.par_build.specs.Jobs.{image_made};

use fsm_back::compile_hard;
use pld_base::{Kind, NoMemory, Permit};
use pld_check::Checked;
use pld_image::Image;
use rv_back::compile_soft;
use std::alloc::Global;

/// An operator that is to be compiled for a kind of page, with the permit for it.
#[derive(Drop)]
pub struct Job {
    pub permit: Permit,
    pub kind: Kind,
    pub op: Checked,
}

/// The image of a job, which spends its permit. An error means that memory ran out.
#[tactic(auto, unfolding(crate::specs::Jobs::image_made))]
pub(crate) fn compile(alloc: Global, job: Job) -> Result<Image, NoMemory>
    ensures { IfOk result (λ image. image ≡ image_made job) }
{
    let Job { permit, kind, op } = job;
    match kind {
        Kind::Soft => compile_soft(alloc, permit, &op),
        Kind::Hard => compile_hard(alloc, permit, &op),
    }
}
