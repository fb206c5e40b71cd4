//! Three jobs, one after another and on threads: the bytes of each image are those of its compiler, called by itself.

use crate::{Job, compile_all, compile_each};
use fsm_back::compile_hard;
use pld_base::{Kind, NoMemory, Permits};
use pld_check::Checked;
use pld_image::{Image, image_bytes};
use pld_source::read_operator;
use rv_back::compile_soft;
use std::alloc::Global;
use std::test::Fail;

const ONE: &[u8] = b"void f(out b) { write(b, 1); }\n";

const TWO: &[u8] = b"void f(out b) { write(b, 2); }\n";

const WANTED: [(Kind, &[u8]); 3] = [(Kind::Soft, ONE), (Kind::Hard, ONE), (Kind::Soft, TWO)];

fn operator(alloc: Global, text: &[u8]) -> Result<Checked, Fail> {
    match read_operator(alloc, text) {
        Ok(operator) => Ok(operator),
        Err(_) => Err("no operator".into()),
    }
}

// The jobs that are wanted.
fn jobs(alloc: Global) -> Result<Vec<Job>, Fail> {
    let mut jobs: Vec<Job> = Vec::new(alloc);
    let permits = Permits::new().issue(alloc, WANTED.len())?;
    for (permit, (kind, text)) in permits.into_iter().zip(WANTED) {
        let op = operator(alloc, text)?;
        jobs.push(Job { permit, kind, op })?;
    }
    Ok(jobs)
}

// The bytes of one image that is wanted, from its compiler.
fn bytes_by(alloc: Global, kind: Kind, text: &[u8]) -> Result<Vec<u8>, Fail> {
    let op = operator(alloc, text)?;
    let Some(permit) = Permits::new().issue(alloc, 1)?.pop() else {
        return Err("no permit".into());
    };
    let image = match kind {
        Kind::Soft => compile_soft(alloc, permit, &op)?,
        Kind::Hard => compile_hard(alloc, permit, &op)?,
    };
    let bytes = image_bytes(alloc, &image)?;
    Ok(bytes)
}

// Whether these are the images that are wanted.
fn are_wanted(alloc: Global, images: &[Image]) -> Result<bool, Fail> {
    if images.len() != WANTED.len() {
        return Ok(false);
    }
    for (image, (kind, text)) in images.iter().zip(WANTED) {
        let bytes = image_bytes(alloc, image)?;
        if bytes.as_slice() != bytes_by(alloc, kind, text)?.as_slice() {
            return Ok(false);
        }
    }
    Ok(true)
}

#[test]
fn one_thread_makes_each_image(rt: HostRuntime) -> Result<(), Fail> {
    let alloc = rt.alloc();
    let images = compile_each(alloc, jobs(alloc)?)?;
    assert!(rt; are_wanted(alloc, images.as_slice())?);
    Ok(())
}

#[test]
fn threads_make_each_image(rt: HostRuntime) -> Result<(), Fail> {
    let alloc = rt.alloc();
    let images = compile_all(&rt, jobs(alloc)?)?;
    assert!(rt; are_wanted(alloc, images.as_slice())?);
    Ok(())
}
