//! Sources of which some repeat, at once and later: how many are compiled, and which images are equal.

ghost use Rattle.std.specs.Prelude.{◌≡◌, IfOk};
ghost use Rattle.pld_draft.specs.Draft.{IsRead};

use crate::{Built, Compiler};
use par_build::OneThread;
use pld_base::{Kind, NoMemory, Permits};
use pld_draft::Source;
use pld_image::{Image, image_bytes};
use pld_script::Text;
use pld_source::read_operator;
use std::alloc::Global;
use std::test::Fail;

const ONE: &[u8] = b"void f(out b) { write(b, 1); }\n";

const TWO: &[u8] = b"void f(out b) { write(b, 2); }\n";

fn source(alloc: Global, kind: Kind, text: &[u8]) -> Result<Source, Fail>
    ensures { IfOk result IsRead }
{
    let text = Text::of(Vec::from_slice(alloc, text)?);
    match read_operator(alloc, text.as_slice()) {
        Ok(operator) => Ok(Source {
            kind,
            text,
            operator,
        }),
        Err(_) => Err("no operator".into()),
    }
}

fn same_bytes(alloc: Global, a: &Image, b: &Image) -> Result<bool, NoMemory> {
    Ok(image_bytes(alloc, a)?.as_slice() == image_bytes(alloc, b)?.as_slice())
}

// The images of five sources, of which two are as an earlier one.
fn five_images(alloc: Global, permits: &mut Permits) -> Result<Built, Fail>
    requires { permits.old ≡ 0 }
{
    let sources = [
        source(alloc, Kind::Soft, ONE)?,
        source(alloc, Kind::Hard, ONE)?,
        source(alloc, Kind::Soft, ONE)?,
        source(alloc, Kind::Soft, TWO)?,
        source(alloc, Kind::Hard, ONE)?,
    ];
    let built = Compiler::new(alloc).build(alloc, &OneThread, permits, &sources)?;
    Ok(built)
}

// The pair of each image: 1 is the first text in a softcore, 2 the same in hardware, 3 the second text in a softcore.
const PAIRS: [u8; 5] = [1, 2, 1, 3, 2];

#[test]
fn each_pair_is_compiled_once(rt: HostRuntime) -> Result<(), Fail> {
    let alloc = rt.alloc();
    let mut permits = Permits::new();
    let built = five_images(alloc, &mut permits)?;
    assert_eq!(rt; permits.count(), 3);
    assert_eq!(rt; built.compiled, 3);
    assert_eq!(rt; built.images.len(), 5);
    for (image, pair) in built.images.iter().zip(PAIRS) {
        for (other, its) in built.images.iter().zip(PAIRS) {
            let same = same_bytes(alloc, image, other)?;
            assert_eq!(rt; same, pair == its, "{pair}, {its}");
        }
    }
    Ok(())
}

// How many pairs a build of one source compiles.
fn compiled(
    alloc: Global,
    compiler: &mut Compiler,
    permits: &mut Permits,
    kind: Kind,
    text: &[u8],
) -> Result<u64, Fail> {
    if permits.count() > 10 {
        return Err("too many permits".into());
    }
    let sources = [source(alloc, kind, text)?];
    let built = compiler.build(alloc, &OneThread, permits, &sources)?;
    Ok(built.compiled)
}

#[test]
fn a_pair_that_comes_back_costs_no_permit(rt: HostRuntime) -> Result<(), Fail> {
    let alloc = rt.alloc();
    let mut permits = Permits::new();
    let mut compiler = Compiler::new(alloc);
    for (kind, text, count, issued) in [
        (Kind::Soft, ONE, 1, 1),
        (Kind::Soft, TWO, 1, 2),
        (Kind::Soft, ONE, 0, 2),
        (Kind::Hard, ONE, 1, 3),
        (Kind::Hard, ONE, 0, 3),
    ] {
        let made = compiled(alloc, &mut compiler, &mut permits, kind, text)?;
        assert_eq!(rt; made, count);
        assert_eq!(rt; permits.count(), issued);
    }
    Ok(())
}
