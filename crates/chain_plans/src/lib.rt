//! Plans of chains of pages, each with the same image, over a tree of 64 leaves.
#![tactic(auto)]

ghost use Rattle.std.specs.Prelude.{◌≡◌, ◌+◌, ◌*◌, ◌^◌, ◌<◌, ◌≤◌, IfOk, IfSome, true, length};
ghost use Rattle.std.specs.List.{All};
ghost use Rattle.image_form.specs.Spelling.{form_in};
ghost use Rattle.chain_plans.specs.Chains.{chain_row, chain_rows, chain_pages, HasPorts, chain_plan};

use fabric_core::{Feed, Plan, PlanPage};
use image_form::{ImageForm, read_image};
use net_switch::{Pattern, Row};
use pld_base::{NoMemory, PageId, Permits, PortNo};
use pld_image::Image;
use std::alloc::Global;

// Whether an image has one port of either kind.
fn has_ports(form: &ImageForm) -> bool
    ensures { result ≡ true → HasPorts (form_in form.now) }
{
    match form {
        ImageForm::Soft { ins, outs, .. } => *ins == 1 && *outs == 1,
        ImageForm::Hard { .. } => false,
    }
}

/// The image that these bytes are. None where they are none of a softcore with one in-port and one out-port.
pub fn image(alloc: Global, bytes: &[u8]) -> Result<Option<Image>, NoMemory>
    ensures { IfOk result (λ image. IfSome image (λ image. HasPorts image)) }
{
    let Some(permit) = Permits::new().issue(alloc, 1)?.pop() else {
        return Ok(None);
    };
    let Ok(form) = read_image(alloc, bytes) else {
        return Ok(None);
    };
    if !has_ports(&form) {
        return Ok(None);
    }
    Ok(Some(Image::of(permit, form)))
}

// The row of a slot of a leaf in a chain of n pages.
fn row(n: u8, leaf: u8, slot: u8) -> Option<Row>
    requires leaf { leaf < 64 }
    requires most { n < 64 }
    ensures { result ≡ chain_row n leaf slot }
{
    if leaf > n {
        return None;
    }
    let other = if slot == 0 {
        if leaf == n { 0 } else { leaf + 1 }
    } else if slot == 8 {
        if leaf == 0 { n } else { leaf - 1 }
    } else {
        return None;
    };
    Some(Row {
        leaf: PageId(other),
        port: PortNo(0),
    })
}

// The rows of a chain of n pages.
fn rows(alloc: Global, n: u8) -> Result<Vec<Option<Row>>, NoMemory>
    requires { n < 64 }
    ensures { IfOk result (λ rows. rows.items ≡ chain_rows n) }
{
    let mut rows = Vec::with_capacity(alloc, 1024)?;
    for i in 0..1024u16 {
        rows.push(row(n, (i / 16) as u8, (i % 16) as u8))?;
    }
    Ok(rows)
}

// Pages on the leaves from 1 to n.
fn pages(alloc: Global, n: u8, image: &Image) -> Result<Vec<PlanPage>, NoMemory>
    requires { n < 64 }
    ensures { IfOk result (λ pages. pages.items ≡ chain_pages n image.now) }
{
    let mut pages = Vec::with_capacity(alloc, n as usize)?;
    for k in 0..n {
        pages.push(PlanPage::new(k + 1, image.copy(alloc)?))?;
    }
    Ok(pages)
}

/// The plan of a chain of n pages with this image, whose input has these words, in a tree of 64 leaves.
pub fn plan(
    alloc: Global,
    n: u8,
    image: &Image,
    words: Vec<u32>,
    rounds: u64,
) -> Result<Plan, NoMemory>
    requires some { 1 ≤ n }
    requires most { n < 64 }
    requires ports { HasPorts image.now }
    requires few { length words.items ≤ 65536 }
    requires words { All (λ word. word < 2 ^ 32) words.items }
    requires some_rounds { 1 ≤ rounds }
    requires few_rounds { rounds * (8 * n + 1) ≤ 40000000 }
    ensures { IfOk result (λ plan. plan ≡ chain_plan n image.now words.items rounds) }
{
    let _form = image.form();
    let mut feeds = Vec::with_capacity(alloc, 1)?;
    feeds.push(Feed::of(words))?;
    let pages = pages(alloc, n, image)?;
    let rows = rows(alloc, n)?;
    Ok(Plan::new(
        6,
        Pattern::plain(),
        16,
        pages,
        Vec::new(alloc),
        rows,
        feeds,
        1,
        rounds,
    ))
}
