//! A graph of declared types that lasts in a file. Each part leads to a choice, and to the part that
//! was added before it. `graph FILE add LABEL NUMBER` adds a part, and `graph FILE list` prints the
//! parts, the last one first.
#![tactic(auto)]

use anyhow::Result;
use declared_types::{Choice, Part, PartRef, Store};
use pagable::{Error, PagableArc, Pager, PinnedPagableArc};
use pagable_file::{FileBlobs, FileOfBlobs};
use pagable_typed::TypedPager;
use std::alloc::Global;
use std::env;
use std::process::ExitCode;

/// A pager of declared types over a file.
type Graph = TypedPager<Store, FileOfBlobs<Store>>;

/// The name in the file that stands for the key of the last part.
const ROOT: &str = "last part";

/// Opens the file of this path, and makes it if there is none.
fn open(rt: &HostRuntime, path: &str) -> Result<Graph> {
    let blobs = FileBlobs::open(rt, path)?;
    Ok(TypedPager::new(Pager::new(rt.alloc(), blobs, Store)))
}

/// Returns a reference to the last part, if there is a part. It reads no blob.
fn last_part(alloc: Global, graph: &mut Graph) -> Result<Option<PagableArc<Part>>, Error> {
    match graph.pager.root(ROOT)? {
        Some(key) => Ok(Some(graph.cell_of(alloc, key)?)),
        None => Ok(None),
    }
}

/// Makes a reference to the last part, for the next one to hold.
fn reference_to_last(alloc: Global, graph: &mut Graph) -> Result<Option<PartRef>, Error> {
    let Some(last) = last_part(alloc, graph)? else {
        return Ok(None);
    };
    let reference = graph.reference(&last)?;
    graph.release(last)?;
    Ok(Some(reference))
}

/// Adds a part, which owns its references from then on, and stores it with all that it refers to.
fn add(alloc: Global, graph: &mut Graph, label: &str, number: u64) -> Result<(), Error> {
    let next = reference_to_last(alloc, graph)?;
    let choice = graph.insert(alloc, Choice::Count(number))?;
    let part = Part {
        number,
        label: String::from_str(alloc, label)?,
        next,
        choice: graph.reference(&choice)?,
    };
    let part = graph.insert(alloc, part)?;
    graph.release(choice)?;
    let key = graph.page_out(alloc, &part)?;
    graph.pager.set_root(alloc, ROOT, Some(key))?;
    graph.pager.flush()?;
    Ok(graph.release(part)?)
}

/// Pins the last part, if there is a part.
fn pin_last(alloc: Global, graph: &mut Graph) -> Result<Option<PinnedPagableArc<Part>>, Error> {
    let Some(last) = last_part(alloc, graph)? else {
        return Ok(None);
    };
    let pinned = graph.pin(alloc, &last)?;
    graph.release(last)?;
    Ok(Some(pinned))
}

/// Pins the part to which a part leads, if there is one, and ends the part's own pin.
fn pin_next(
    alloc: Global,
    graph: &mut Graph,
    part: PinnedPagableArc<Part>,
) -> Result<Option<PinnedPagableArc<Part>>, Error> {
    let next = match &part.next {
        Some(next) => Some(graph.follow(alloc, next)?),
        None => None,
    };
    graph.unpin(part)?;
    Ok(next)
}

/// Prints the parts, each while it is pinned.
fn list(rt: &HostRuntime, graph: &mut Graph) -> Result<()> {
    let mut shown = pin_last(rt.alloc(), graph)?;
    for _ in 0..u64::MAX {
        let Some(part) = shown else {
            break;
        };
        println!(rt; "{} {}", part.label.as_str(), part.number)?;
        shown = pin_next(rt.alloc(), graph, part)?;
    }
    Ok(())
}

/// Prints how the program is called, and returns the status for a wrong call.
fn tell_usage(rt: &HostRuntime) -> Result<ExitCode> {
    eprintln!(rt; "usage: graph FILE add LABEL NUMBER | graph FILE list")?;
    Ok(ExitCode::from(2))
}

fn main(rt: HostRuntime) -> Result<ExitCode> {
    let words: Vec<String> = env::args(&rt)?.skip(1).collect(rt.alloc())?;
    match words.as_slice() {
        [path, command] if command.as_str() == "list" => {
            list(&rt, &mut open(&rt, path.as_str())?)?;
        }
        [path, command, label, number] if command.as_str() == "add" => {
            let Ok(number) = number.as_str().parse::<u64>() else {
                return tell_usage(&rt);
            };
            let mut graph = open(&rt, path.as_str())?;
            add(rt.alloc(), &mut graph, label.as_str(), number)?;
        }
        _ => return tell_usage(&rt),
    }
    Ok(ExitCode::SUCCESS)
}
