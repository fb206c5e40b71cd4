//! What is asked of the cache, and what is to be compiled.

ghost use Rattle.std.specs.Prelude.{◌≡◌, ◌<◌, All, map, length, vec_len, IfOk};
ghost use Rattle.build_cache.specs.Keys.{asked};
ghost use Rattle.par_build.specs.Jobs.{image_made};
ghost use Rattle.pld_build.specs.Images.{image_of, pair_of, images_at};

use build_cache::Key;
use par_build::Job;
use pld_base::{NoMemory, Permit};
use pld_draft::Source;
use std::alloc::Global;

// The pair of each source.
pub(crate) fn keys<'a>(alloc: Global, sources: &'a [Source]) -> Result<Vec<Key<'a>>, NoMemory>
    ensures { IfOk result (λ keys. map asked keys.items ≡ map pair_of sources.now) }
{
    let mut keys = Vec::with_capacity(alloc, sources.len())?;
    for source in sources {
        let kind = source.kind;
        let text = source.text.as_slice();
        keys.push(Key { kind, text })?;
    }
    Ok(keys)
}

// The job of compiling a source.
#[tactic(auto, unfolding(crate::specs::Images::image_of, par_build::specs::Jobs::image_made))]
fn job(alloc: Global, permit: Permit, source: &Source) -> Result<Job, NoMemory>
    ensures { IfOk result (λ job. image_made job ≡ image_of source.now) }
{
    let op = source.operator.copy(alloc)?;
    Ok(Job {
        permit,
        kind: source.kind,
        op,
    })
}

// A job for each source at these places, with a permit each.
pub(crate) fn jobs(
    alloc: Global,
    permits: Vec<Permit>,
    sources: &[Source],
    places: &[usize],
) -> Result<Vec<Job>, NoMemory>
    requires enough { vec_len permits ≡ length places.now }
    requires within { All (λ k. k < length sources.now) places.now }
    ensures { IfOk result (λ jobs. map image_made jobs.items ≡ images_at sources.now places.now) }
{
    let mut jobs = Vec::with_capacity(alloc, places.len())?;
    for permit in permits {
        let source = &sources[places[jobs.len()]];
        jobs.push(job(alloc, permit, source)?)?;
    }
    Ok(jobs)
}
