//! The images of a design's operators, of which a session keeps those that it compiled.

ghost use Rattle.std.specs.Prelude.{◌≡◌, ◌+◌, ◌<◌, ◌≤◌, ◌^◌, ◌++◌, ◌∷◌, [], true, false, All, map, length, IfOk, OnOk, OnErr};
ghost use Rattle.build_cache.specs.Pairs.{is_among, misses as misses_of, missed};
ghost use Rattle.pld_draft.specs.Draft.{IsRead};
ghost use Rattle.pld_build.specs.Images.{image_of, pair_of, compiles, images_at};

use crate::jobs::{jobs, keys};
use build_cache::{Cache, misses_are_few, misses_are_first_places};
use par_build::Compile;
use pld_base::{NoMemory, Permits};
use pld_draft::Source;
use pld_image::Image;
use pld_script::Text;
use std::alloc::Global;
use std::marker::Model;

/// The images of some operators, in their order, and how many of them were compiled.
#[derive(Drop)]
pub struct Built {
    pub images: Vec<Image>,
    pub compiled: u64,
}

/// Images of operators, each distinct pair of kind and text compiled once. Contracts see the pairs compiled so far, in order.
#[derive(Drop)]
pub struct Compiler {
    cache: Cache,
}

impl Model for Compiler {
    ghost use Rattle.std.specs.Prelude.{List};
    ghost use Rattle.build_cache.specs.Pairs.{Pair, kept_pairs};
    ghost use Rattle.pld_build.specs.Images.{KeepsImages};

    ghost Value = { List Pair };

    ghost view = { λ c. kept_pairs c.cache };

    ghost invariant = { λ c. KeepsImages c.cache };
}

impl Compiler {
    /// A compiler that has compiled nothing yet.
    pub fn new(alloc: Global) -> Compiler
        ensures { result ≡ [] }
    {
        Compiler {
            cache: Cache::new(alloc),
        }
    }

    /// The images of these sources, each read from its text. Each pair of kind and text that wasn't compiled before is compiled
    /// once, by `maker`, with one permit; all images are copies of those that are kept. `compiled` is how many pairs were compiled. An error
    /// means that memory ran out: permits that were given out stay counted, and the images made so far may be kept.
    pub fn build<M: Compile>(
        &mut self,
        alloc: Global,
        maker: &M,
        permits: &mut Permits,
        sources: &[Source],
    ) -> Result<Built, NoMemory>
        requires ready { M.ready }
        requires read { All IsRead sources.now }
        requires room { permits.old + length sources.now < 2 ^ 64 }
        ensures images { IfOk result (λ built. built.images.items ≡ map image_of sources.now) }
        ensures compiled { IfOk result (λ built. built.compiled ≡ compiles self.old sources.now) }
        ensures pairs { OnOk result (self.new ≡ self.old ++ missed self.old (map pair_of sources.now)) }
        ensures ok { OnOk result (permits.new ≡ permits.old + compiles self.old sources.now) }
        ensures err { OnErr result ((permits.old ≤ permits.new) × (permits.new ≤ permits.old + compiles self.old sources.now)) }
    {
        misses_are_first_places();
        let places = self.misses(alloc, sources)?;
        self.compile(alloc, maker, permits, sources, places.as_slice())?;
        let images = self.images_for(alloc, sources)?;
        Ok(Built {
            images,
            compiled: places.len() as u64,
        })
    }

    // The places of the sources that are to be compiled: the first of each pair that wasn't compiled before.
    fn misses(&self, alloc: Global, sources: &[Source]) -> Result<Vec<usize>, NoMemory>
        ensures places { IfOk result (λ places. places.items ≡ misses_of self.now (map pair_of sources.now)) }
        ensures within { IfOk result (λ places. All (λ k. k < length sources.now) places.items) }
        ensures few { IfOk result (λ places. length places.items ≤ length sources.now) }
    {
        misses_are_first_places();
        misses_are_few();
        let keys = keys(alloc, sources)?;
        self.cache.misses(alloc, keys.as_slice())
    }

    // Compiles the sources at these places, a permit each, and keeps their images.
    fn compile<M: Compile>(
        &mut self,
        alloc: Global,
        maker: &M,
        permits: &mut Permits,
        sources: &[Source],
        places: &[usize],
    ) -> Result<(), NoMemory>
        requires ready { M.ready }
        requires misses { places.now ≡ misses_of self.old (map pair_of sources.now) }
        requires within { All (λ k. k < length sources.now) places.now }
        requires read { All IsRead sources.now }
        requires room { permits.old + length places.now < 2 ^ 64 }
        ensures pairs { OnOk result (self.new ≡ self.old ++ missed self.old (map pair_of sources.now)) }
        ensures ok { OnOk result (permits.new ≡ permits.old + length places.now) }
        ensures err { OnErr result ((permits.old ≤ permits.new) × (permits.new ≤ permits.old + length places.now)) }
    {
        let issued = permits.issue(alloc, places.len())?;
        let jobs = jobs(alloc, issued, sources, places)?;
        let images = maker.compile(alloc, jobs)?;
        self.keep_all(alloc, sources, places, images)
    }

    // Keeps the images of the sources at these places.
    fn keep_all(
        &mut self,
        alloc: Global,
        sources: &[Source],
        places: &[usize],
        images: Vec<Image>,
    ) -> Result<(), NoMemory>
        requires images { images.items ≡ images_at sources.now places.now }
        requires misses { places.now ≡ misses_of self.old (map pair_of sources.now) }
        requires within { All (λ k. k < length sources.now) places.now }
        requires read { All IsRead sources.now }
        ensures { OnOk result (self.new ≡ self.old ++ missed self.old (map pair_of sources.now)) }
    {
        let mut k = 0;
        for image in images {
            self.keep(alloc, &sources[places[k]], image)?;
            k += 1;
        }
        Ok(())
    }

    // Keeps the image of a source whose pair wasn't compiled before.
    fn keep(&mut self, alloc: Global, source: &Source, image: Image) -> Result<(), NoMemory>
        requires new { is_among (pair_of source.now) self.old ≡ false }
        requires image { image ≡ image_of source.now }
        requires read { IsRead source.now }
        ensures { OnOk result (self.new ≡ self.old ++ pair_of source.now ∷ []) }
    {
        let text = Vec::from_slice(alloc, source.text.as_slice())?;
        self.cache.put(source.kind, Text::of(text), image)
    }

    // The images of sources whose pairs were all compiled.
    fn images_for(&self, alloc: Global, sources: &[Source]) -> Result<Vec<Image>, NoMemory>
        requires kept { All (λ s. is_among (pair_of s) self.now ≡ true) sources.now }
        requires read { All IsRead sources.now }
        ensures { IfOk result (λ images. images.items ≡ map image_of sources.now) }
    {
        let mut images = Vec::with_capacity(alloc, sources.len())?;
        for source in sources {
            images.push(self.image_for(alloc, source)?)?;
        }
        Ok(images)
    }

    // The image of a source whose pair was compiled.
    fn image_for(&self, alloc: Global, source: &Source) -> Result<Image, NoMemory>
        requires kept { is_among (pair_of source.now) self.now ≡ true }
        requires read { IsRead source.now }
        ensures { IfOk result (λ image. image ≡ image_of source.now) }
    {
        let image = self.cache.find(source.kind, source.text.as_slice());
        image.unwrap().copy(alloc)
    }
}
