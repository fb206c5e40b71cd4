//! Two pages without ports: one on leaf 1 that goes on for ever, one on leaf 2 that ends at once.

ghost use Rattle.std.specs.Prelude.{◌≡◌, ◌<◌, ◌≤◌, IfOk, [], true};
ghost use Rattle.pld_image.specs.Ports.{ins_of, outs_of};
ghost use Rattle.image_form.specs.Spelling.{form_in};

use fabric_core::{Fabric, Plan, PlanPage};
use fabric_run::Entry;
use image_form::{ImageForm, read_image};
use net_switch::Pattern;
use pld_base::Permits;
use pld_image::Image;
use std::alloc::Global;
use std::test::Fail;

// `jal x0, 0`, and `ebreak`.
const FOR_EVER: [u8; 4] = [0x6f, 0, 0, 0];

const ENDS: [u8; 4] = [0x73, 0, 0x10, 0];

// Whether an image has no ports.
fn has_no_ports(form: &ImageForm) -> bool
    ensures { result ≡ true → (ins_of (form_in form.now) ≡ 0) × (outs_of (form_in form.now) ≡ 0) }
{
    match form {
        ImageForm::Soft { ins, outs, .. } => *ins == 0 && *outs == 0,
        ImageForm::Hard { .. } => false,
    }
}

// The image of one instruction, without ports.
fn image(alloc: Global, code: &[u8; 4]) -> Result<Image, Fail>
    ensures { IfOk result (λ image. (ins_of image ≡ 0) × (outs_of image ≡ 0)) }
{
    let mut bytes = Vec::from_slice(alloc, b"PLDIS\0\0\0\x01\0\0\0")?;
    bytes.extend_from_slice(code)?;
    let permit = Permits::new().issue(alloc, 1)?.pop().ok_or("no permit")?;
    let Ok(form) = read_image(alloc, &bytes) else {
        return Err("no image".into());
    };
    if !has_no_ports(&form) {
        return Err("an image with ports".into());
    }
    Ok(Image::of(permit, form))
}

// A tree of four leaves, on two of which these pages stand.
fn plan_of(alloc: Global, first: Image, second: Image, rounds: u64) -> Result<Plan, Fail>
    requires first { (ins_of first ≡ 0) × (outs_of first ≡ 0) }
    requires second { (ins_of second ≡ 0) × (outs_of second ≡ 0) }
    requires some { 1 ≤ rounds }
    requires most { rounds ≤ 1000000 }
    ensures { IfOk result (λ plan. plan.rounds ≡ rounds) }
{
    first.form();
    second.form();
    let mut pages = Vec::with_capacity(alloc, 2)?;
    pages.push(PlanPage::new(1, first))?;
    pages.push(PlanPage::new(2, second))?;
    let none = Vec::new(alloc);
    Ok(Plan::new(
        2,
        Pattern::plain(),
        16,
        pages,
        none,
        Vec::new(alloc),
        Vec::new(alloc),
        0,
        rounds,
    ))
}

/// The run of both pages, with so many allowed rounds, which has not begun.
pub(crate) fn prepared(alloc: Global, rounds: u64) -> Result<Fabric, Fail>
    requires some { 1 ≤ rounds }
    requires most { rounds ≤ 1000000 }
    ensures { IfOk result (λ fabric. fabric.journal ≡ []) }
{
    let plan = plan_of(
        alloc,
        image(alloc, &FOR_EVER)?,
        image(alloc, &ENDS)?,
        rounds,
    )?;
    Ok(Fabric::prepare(alloc, plan)?)
}

/// What is tried in a run.
#[derive(Clone, Copy, Debug)]
pub(crate) enum Try {
    /// A seat takes the page on a leaf, and gives it back after its turn.
    Turn(u8, u8),
    /// The same; while the page is out, seat 0 tries to take it too, and to make a round, which must not be.
    Out(u8, u8),
    /// A seat makes a round.
    Round(u8),
}

// Whether a seat may take the page on a leaf. It gives it back after its turn.
fn turns(fabric: &mut Fabric, seat: u8, leaf: u8) -> bool
    requires { seat < 16 }
{
    let Some(page) = fabric.take(seat, leaf) else {
        return false;
    };
    let mut page = page;
    page.turn();
    fabric.give(seat, page);
    true
}

// Whether a page that is out can't be taken by another seat, and no round can be made before it has come home.
fn is_out(fabric: &mut Fabric, seat: u8, leaf: u8) -> bool
    requires { seat < 16 }
{
    let Some(page) = fabric.take(seat, leaf) else {
        return false;
    };
    if fabric.take(0, leaf).is_some() {
        return false;
    }
    if fabric.net(0) {
        return false;
    }
    let mut page = page;
    page.turn();
    fabric.give(seat, page);
    true
}

// Whether what is tried is done.
fn is_done(fabric: &mut Fabric, tried: Try) -> bool {
    match tried {
        Try::Turn(seat, leaf) => seat < 16 && turns(fabric, seat, leaf),
        Try::Out(seat, leaf) => seat < 16 && is_out(fabric, seat, leaf),
        Try::Round(seat) => seat < 16 && fabric.net(seat),
    }
}

/// The place of the first of these tries that comes out otherwise.
pub(crate) fn first_other(fabric: &mut Fabric, tries: &[(Try, bool)]) -> Option<usize> {
    for k in 0..tries.len() {
        let (tried, wanted) = tries[k];
        if is_done(fabric, tried) != wanted {
            return Some(k);
        }
    }
    None
}

/// The place of the first entry of a run's journal that isn't the one that is wanted, or where one is missing or too many.
pub(crate) fn first_entry_other(fabric: Fabric, wanted: &[Entry]) -> Option<usize> {
    let journal = fabric.finish().journal;
    for k in 0..wanted.len() {
        if journal.get(k) != Some(wanted[k]) {
            return Some(k);
        }
    }
    if journal.len() == wanted.len() {
        None
    } else {
        Some(wanted.len())
    }
}
