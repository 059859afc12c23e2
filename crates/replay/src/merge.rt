//! The pages of a game merged.
ghost use Rattle.std.specs.Prelude.{◌≡◌, ◌+◌, ◌<◌, ◌≤◌, ◌++◌, IfOk, IfSome, OnOk, length};
ghost use Rattle.markup.specs.Part.{part_text};
ghost use Rattle.replay.specs.Classes.{LeavesEach};
ghost use Rattle.replay.specs.Shown.{AddsNew, AddsOld, AddsPage, IsBefore, IsPlace, LivesBefore};
ghost use Rattle.replay.specs.Shown.{ShowsEach, texts};

use crate::lasting::{Lasting, Layers, is_same, push_part};
use markup::Part;
use std::alloc::{AllocError, Global};
use std::collections::VecDeque;

/// Returns the parts of a layer of some pages, each with the pages that have it. For each page,
/// those that live in it are the parts of its layer, in order, and its rule of style leaves them.
/// Fails only if allocation fails.
#[tactic(auto, using(crate::proofs::ClassLemmas::rules_leave))]
pub fn replay_of(
    alloc: Global,
    pages: &[Layers],
    layer: usize,
) -> Result<VecDeque<Lasting>, AllocError>
    ensures lives { IfOk result (λ parts. ShowsEach parts.items layer pages.now) }
    ensures left { IfOk result (λ parts. LeavesEach parts.items layer pages.now) }
{
    merged(alloc, pages, layer)
}

/// Returns the parts of a layer of some pages, each with the pages that have it.
#[tactic(auto, using(crate::proofs::ShownLemmas::page_step))]
fn merged(alloc: Global, pages: &[Layers], layer: usize) -> Result<VecDeque<Lasting>, AllocError>
    ensures { IfOk result (λ parts. ShowsEach parts.items layer pages.now) }
{
    let mut parts = VecDeque::new(alloc);
    for (number, page) in pages.iter().enumerate() {
        parts = with_page(alloc, parts, page.layer(layer), number)?;
    }
    Ok(parts)
}

/// Returns the parts of the pages before one and of that page.
#[tactic(auto, using(crate::proofs::ShownLemmas::begin_merging, crate::proofs::ShownLemmas::first_before, crate::proofs::ShownLemmas::merge_step, crate::proofs::ShownLemmas::end_merging))]
fn with_page(
    alloc: Global,
    before: VecDeque<Lasting>,
    page: &[Part],
    number: usize,
) -> Result<VecDeque<Lasting>, AllocError>
    requires { IsBefore number before.items }
    ensures { IfOk result (λ parts. AddsPage before.items parts.items (texts page.now) number) }
{
    let mut rest = before;
    let mut parts = VecDeque::new(alloc);
    let mut taken = 0;
    while let Some(old) = rest.pop_front() {
        taken = add_old(alloc, &mut parts, old, page, taken, number)?;
    }
    add_new(alloc, &mut parts, &page[taken..], number)?;
    Ok(parts)
}

/// Adds a part of the pages before one. If that page has it too, the parts of the page before it
/// are added first. Returns how many parts of the page have been taken.
#[tactic(auto, using(crate::proofs::ShownLemmas::kept_step, crate::proofs::ShownLemmas::left_step))]
fn add_old(
    alloc: Global,
    parts: &mut VecDeque<Lasting>,
    old: Lasting,
    page: &[Part],
    taken: usize,
    number: usize,
) -> Result<usize, AllocError>
    requires within { taken ≤ length page.now }
    requires before { LivesBefore number old }
    ensures within { IfOk result (λ next. next ≤ length page.now) }
    ensures added { IfOk result (λ next. AddsOld parts.old.items parts.new.items old
        (texts page.now) taken next number) }
{
    match place_of(&old, page, taken, number) {
        Some(place) => {
            add_new(alloc, parts, &page[taken..place], number)?;
            let Lasting { part, from, .. } = old;
            push_part(
                parts,
                Lasting {
                    part,
                    from,
                    to: number,
                },
            )?;
            Ok(place + 1)
        }
        None => {
            push_part(parts, old)?;
            Ok(taken)
        }
    }
}

/// Returns the place of a part among those of a page, from this one on, if it lives in the page
/// before.
#[tactic(auto, using(crate::proofs::ShownLemmas::place_found))]
fn place_of(old: &Lasting, page: &[Part], taken: usize, number: usize) -> Option<usize>
    requires { LivesBefore number old.now }
    ensures { IfSome result (λ place. IsPlace old.now (texts page.now) taken place number) }
{
    if old.to + 1 != number {
        return None;
    }
    for place in taken..page.len() {
        if is_same(page[place].bytes(), old.part.bytes()) {
            return Some(place);
        }
    }
    None
}

/// Adds parts that no earlier page has.
fn add_new(
    alloc: Global,
    parts: &mut VecDeque<Lasting>,
    page: &[Part],
    number: usize,
) -> Result<(), AllocError>
    ensures { OnOk result (AddsNew parts.old.items parts.new.items (texts page.now) number) }
{
    for part in page {
        let part = part.copy(alloc)?;
        push_part(
            parts,
            Lasting {
                part,
                from: number,
                to: number,
            },
        )?;
    }
    Ok(())
}
