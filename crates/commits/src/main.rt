//! Inserts two commits, the second of which refers to the first, pages them out, reads both back,
//! the second one first, and prints them.
#![tactic(auto)]

use history::{Commit, CommitRef, History};
use pagable::{Error, InMemoryBlobs, PagableArc, Pager, PinnedPagableArc};
use pagable_typed::TypedPager;
use std::alloc::Global;

/// A pager of commits over blobs in memory.
type CommitPager = TypedPager<History, InMemoryBlobs<History>>;

/// Inserts a commit, which owns the reference to its parent from then on.
fn insert_commit(
    alloc: Global,
    pager: &mut CommitPager,
    message: &str,
    parent: Option<CommitRef>,
) -> Result<PagableArc<Commit>, Error> {
    let message = String::from_str(alloc, message)?;
    let commit = Commit {
        time: 0,
        message,
        parent,
        merged: None,
    };
    Ok(pager.insert(alloc, commit)?)
}

/// Inserts two commits and pages them out. Returns a reference to the second.
fn insert_commits(alloc: Global, pager: &mut CommitPager) -> Result<PagableArc<Commit>, Error> {
    let first = insert_commit(alloc, pager, "first", None)?;
    let parent = pager.reference(&first)?;
    let second = insert_commit(alloc, pager, "second", Some(parent))?;
    pager.release(first)?;
    pager.page_out(alloc, &second)?;
    Ok(second)
}

/// Prints a commit's message.
fn print(rt: &HostRuntime, commit: &Commit) {
    let _ = println!(rt; "{}", commit.message.as_str());
}

/// Prints a commit, which it pins meanwhile, and the commit's parent, if there is one.
fn show(
    rt: &HostRuntime,
    pager: &mut CommitPager,
    commit: &PagableArc<Commit>,
) -> Result<(), Error> {
    let commit = pager.pin(rt.alloc(), commit)?;
    print(rt, &commit);
    if let Some(parent) = &commit.parent {
        let parent: PinnedPagableArc<Commit> = pager.follow(rt.alloc(), parent)?;
        print(rt, &parent);
        pager.unpin(parent)?;
    }
    Ok(pager.unpin(commit)?)
}

/// Inserts two commits, pages them out, reads both back and prints them.
fn run(rt: &HostRuntime, pager: &mut CommitPager) -> Result<(), Error> {
    let second = insert_commits(rt.alloc(), pager)?;
    show(rt, pager, &second)?;
    Ok(pager.release(second)?)
}

fn main(rt: HostRuntime) -> anyhow::Result<()> {
    let pager = Pager::new(rt.alloc(), InMemoryBlobs::new(rt.alloc()), History);
    Ok(run(&rt, &mut TypedPager::new(pager))?)
}
