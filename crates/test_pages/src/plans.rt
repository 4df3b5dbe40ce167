//! Plans of stores with known splits: a second pair is stored next to a first pair, each with a value of 600 zeros.
ghost use Rattle.std.specs.Prelude.{◌≤◌, length};

use crate::pages::show_pairs_of;
use sdbm_addr::{KeyBytes, Mode, PageSize};
use sdbm_dir::Place;
use sdbm_page::Page;
use sdbm_split::{Plan, PlanFault, plan_store};
use std::alloc::{AllocError, Allocator, Global};
use std::fmt::Write;
use test_support::{bytes_of, cut, read_size};

// The plan for storing a second key next to a first key.
fn plan_of_two<A: Allocator + Copy>(
    alloc: A,
    size: PageSize,
    first: &[u8],
    second: &[u8],
    mode: Mode,
) -> Result<Result<Plan<A>, PlanFault>, AllocError>
    requires first { length first.now ≤ 8 }
    requires second { length second.now ≤ 8 }
{
    let mut page = Page::empty(alloc, size)?;
    page.add(first, &[0; 600]);
    let place = Place {
        page: 0,
        depth: 0,
        bit: 0,
    };
    Ok(plan_store(
        alloc,
        &page,
        place,
        KeyBytes::Signed,
        second,
        &[0; 600],
        mode,
    ))
}

fn plan_of<A: Allocator + Copy>(
    alloc: A,
    size: PageSize,
    first: &[u8],
    second: &[u8],
    mode: Mode,
) -> Option<Result<Plan<A>, PlanFault>> {
    if first.len() > 8 {
        return None;
    }
    if second.len() > 8 {
        return None;
    }
    plan_of_two(alloc, size, first, second, mode).ok()
}

fn show_plan(out: &mut String, plan: &Plan<Global>) -> Result<(), AllocError> {
    out.push_str("leaf")?;
    show_pairs_of(out, plan.leaf.page())?;
    for (number, twin) in plan.twins.iter() {
        write!(out, " / {number}")?;
        show_pairs_of(out, twin.page())?;
    }
    out.push_str(" / bits")?;
    for bit in plan.bits.iter() {
        write!(out, " {bit}")?;
    }
    Ok(())
}

fn read_mode(word: &str) -> Option<Mode> {
    match word {
        "insert" => Some(Mode::Insert),
        "replace" => Some(Mode::Replace),
        _ => None,
    }
}

fn plan_told(global: Global, plan: &Plan<Global>) -> Result<String, AllocError> {
    let mut out = String::new(global);
    show_plan(&mut out, plan)?;
    Ok(out)
}

/// Answers a line `SIZE MODE FIRST SECOND` with the plan that stores the second key, or with its refusal.
pub fn plan_text(global: Global, rest: &str) -> Option<String> {
    let (size, rest) = cut(rest);
    let (mode, rest) = cut(rest);
    let (first, second) = cut(rest);
    let size = read_size(size)?;
    let mode = read_mode(mode)?;
    let first = bytes_of(global, first);
    let second = bytes_of(global, second);
    match plan_of(global, size, first.as_slice(), second.as_slice(), mode)? {
        Ok(plan) => plan_told(global, &plan).ok(),
        Err(fault) => format!(in global; "refused {fault:?}").ok(),
    }
}
