#![tactic(auto)]

use pagable::cell_page_out::page_out;
use pagable::cells::insert;
use pagable::paging::pin;
use pagable::{Error, InMemoryBlobs, Pager, Record, Records};

/// A pager of records over blobs in memory.
type RecordPager = Pager<Records, InMemoryBlobs<Records>>;

/// Keeps a text in a pager, and prints each step.
fn keep_text(rt: &HostRuntime, pager: &mut RecordPager, text: &str) -> Result<(), Error> {
    let alloc = rt.alloc();

    // A value becomes a cell. Nothing pins it, so it waits for page-out.
    let node = Record::node(alloc, 0, text, Vec::new(alloc))?;
    let cell = insert(alloc, pager, node)?;
    let _ = println!(rt; "insert    {} waits for page-out", pager.pending());

    // It is stored under its key, the hash of its content, and leaves memory.
    let key = page_out(alloc, pager, cell)?;
    let _ = println!(rt; "page out  {key}");
    let _ = println!(rt; "is out    {}", pager.is_paged_out(cell)?);

    // A pin reads it back, and keeps it in memory.
    let (pinned, node) = pin(alloc, pager, cell)?;
    let _ = println!(rt; "pin       {}", node.value.text.as_str());
    pager.release(pinned)?;
    pager.release(cell)
}

fn main(rt: HostRuntime) -> anyhow::Result<()> {
    let mut pager = Pager::new(rt.alloc(), InMemoryBlobs::new(rt.alloc()), Records);
    Ok(keep_text(&rt, &mut pager, "hello world")?)
}
