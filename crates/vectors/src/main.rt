//! Runs the 24 worked rows, and prints of each `row K ok` or `row K failed`. A row is a few calls and
//! what each has to return, which was worked out by hand. The status is 0 if all rows are ok, else 1.
#![tactic(auto)]

mod cells;
mod codec;
mod graphs;
mod links;
mod paths;
mod registries;
mod texts;

use crate::links::{HashedLinks, HashedPager, WeighedLinks, WeighedPager};
use crate::texts::{TextPager, new_pager, renew};
use pagable::{Error, InMemoryBlobs, Pager};
use std::alloc::Global;
use std::process::ExitCode;

/// Says of each row whether all its calls return what they have to.
fn run(
    alloc: Global,
    texts: &mut TextPager,
    weighed: &mut WeighedPager,
    hashed: &mut HashedPager,
) -> [Result<bool, Error>; 24] {
    [
        Ok(codec::numbers(alloc)),
        Ok(codec::varints(alloc)),
        codec::flags(alloc),
        codec::lists(alloc),
        codec::maps(alloc),
        codec::json(alloc),
        codec::key_over_child(alloc),
        Ok(codec::key_of_nothing(alloc)),
        cells::is_read_again(alloc, renew(alloc, texts)),
        graphs::item_over_text(alloc, renew(alloc, texts)),
        graphs::list_over_one_text(alloc, renew(alloc, texts)),
        cells::is_listed_again(alloc, renew(alloc, texts)),
        cells::is_loaded_twice(alloc, renew(alloc, texts)),
        cells::is_stored_once(alloc, renew(alloc, texts)),
        graphs::item_over_one_cell(alloc, renew(alloc, texts)),
        paths::is_refused(alloc, weighed),
        cells::is_key_taken(alloc, renew(alloc, texts)),
        paths::paths(alloc, hashed),
        paths::ring(alloc, weighed),
        graphs::cells_over_one_text(alloc, renew(alloc, texts)),
        Ok(codec::texts(alloc)),
        registries::static_values(alloc),
        registries::tagged_values(alloc),
        cells::is_released_once(alloc, renew(alloc, texts)),
    ]
}

fn main(rt: HostRuntime) -> ExitCode {
    let alloc = rt.alloc();
    let mut texts = new_pager(alloc);
    let mut weighed = Pager::new(alloc, InMemoryBlobs::new(alloc), WeighedLinks);
    let mut hashed = Pager::new(alloc, InMemoryBlobs::new(alloc), HashedLinks);
    let rows = run(alloc, &mut texts, &mut weighed, &mut hashed);
    let mut failed = false;
    for (row, outcome) in (1u32..).zip(&rows) {
        let word = if *outcome == Ok(true) { "ok" } else { "failed" };
        failed |= println!(rt; "row {row} {word}").is_err() || *outcome != Ok(true);
    }
    ExitCode::from(u8::from(failed))
}
