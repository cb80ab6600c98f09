//! The tree that a blob reaches, as lines.

ghost use Rattle.blobctl.specs.Shown.{Stays};

use crate::blobs::Blobs;
use crate::refusal::Refusal;
use pagable_core::PagableData;
use pagable_flavors::{DataKey, Error};
use std::alloc::{AllocError, Global};
use std::collections::HashMap;

/// Up to which level a line is indented.
const DEEPEST: u64 = 32;

/// A blob that a line shows next, at a level below the first one's.
#[derive(Clone, Copy)]
struct Step {
    key: DataKey,
    level: u64,
}

/// The lines of a tree so far, the keys that they show, and what they show next, the first last.
#[derive(Drop)]
struct TreeWalk {
    text: String,
    shown: HashMap<DataKey, ()>,
    to_show: Vec<Step>,
}

impl TreeWalk {
    /// Begins a tree at a key.
    fn new(alloc: Global, key: DataKey) -> Result<TreeWalk, AllocError> {
        let mut to_show = Vec::new(alloc);
        to_show.push(Step { key, level: 0 })?;
        Ok(TreeWalk {
            text: String::new(alloc),
            shown: HashMap::new(alloc),
            to_show,
        })
    }

    /// Writes two spaces for each level; from the deepest one on the level's number stands behind them.
    fn indent(&mut self, level: u64) -> Result<(), AllocError> {
        for _ in 0..level.min(DEEPEST) {
            self.text.push_str("  ")?;
        }
        if level > DEEPEST {
            write!(self.text, "({level}) ")?;
        }
        Ok(())
    }

    /// Ends the line of a child that is missing, or returns why a blob isn't fetched.
    fn add_missing(&mut self, step: Step, error: Error) -> Result<(), Refusal> {
        match error {
            Error::NoData(key) if step.level > 0 => Ok(writeln!(self.text, "{key} missing")?),
            other => Err(Refusal::Blobs(other)),
        }
    }

    /// Writes the line of a blob, and plans its children's.
    fn add(&mut self, step: Step, blob: &PagableData) -> Result<(), AllocError> {
        let (bytes, children) = (blob.bytes.len(), blob.arcs.len());
        writeln!(self.text, "{} {bytes} bytes, {children} children", step.key)?;
        for child in blob.arcs.iter().rev() {
            self.to_show.push(Step {
                key: *child,
                level: step.level.saturating_add(1),
            })?;
        }
        Ok(())
    }
}

/// Shows a blob on a line: its sizes the first time, that it is shared if it is shown already, or that it
/// is missing.
fn show_step<B: Blobs>(
    alloc: Global,
    blobs: &mut B,
    walk: &mut TreeWalk,
    step: Step,
) -> Result<(), Refusal>
    ensures stays { Stays (B.view blobs.old) (B.view blobs.new) }
{
    walk.indent(step.level)?;
    if walk.shown.insert(step.key, ())?.is_some() {
        writeln!(walk.text, "{} shared, shown above", step.key)?;
        return Ok(());
    }
    match blobs.fetch(alloc, step.key) {
        Ok(blob) => Ok(walk.add(step, &blob)?),
        Err(error) => walk.add_missing(step, error),
    }
}

/// Shows the blobs that a key reaches, below each blob its children. A blob that was shown already is
/// marked, and its children aren't shown again.
///
/// # Errors
///
/// - `Blobs` as a fetch fails, but for a child that is missing, or for want of memory.
pub fn show_tree<B: Blobs>(alloc: Global, blobs: &mut B, key: DataKey) -> Result<String, Refusal>
    ensures stays { Stays (B.view blobs.old) (B.view blobs.new) }
{
    let mut walk = TreeWalk::new(alloc, key)?;
    'steps: for _ in 0..u64::MAX {
        let Some(step) = walk.to_show.pop() else {
            break;
        };
        show_step(alloc, blobs, &mut walk, step)?;
    }
    Ok(walk.text)
}
