//! The copy of what roots reach into another file.

ghost use Rattle.blobctl.specs.Shown.{Stays};
ghost use Rattle.pagable_file.specs.Copies.{IsCopiedRoot};
ghost use Rattle.pagable_value_spec.specs.Stored.{Keeps};
ghost use Rattle.std.specs.{List.AllByRecursion, Prelude.{IsTrue, OnOk}, String.string_bytes};

use crate::blobs::{Blobs, BlobsInFile};
use crate::progress::ProgressPrinter;
use crate::refusal::Refusal;
use pagable_flavors::Error;
use std::alloc::Global;

/// Copies into one file what the roots of these names reach in another, and returns how many blobs these
/// are.
///
/// # Errors
///
/// - as the calls on either file: some blobs may have been copied.
pub fn copy_roots<B: Blobs>(
    rt: &HostRuntime,
    from: &mut B,
    to: &mut B,
    names: &[String],
) -> Result<usize, Error>
    ensures stays { Stays (B.view from.old) (B.view from.new) }
    ensures copied { IsTrue (B.view from.new).is_honest → IsTrue (B.view to.new).is_honest
        → OnOk result (AllByRecursion (λ name. IsCopiedRoot (B.view from.old).blob (B.view to.new).blob
        (B.view from.old).key (B.view to.new).key (string_bytes name)) names.now) }
    ensures keeps { IsTrue (B.view to.new).is_honest → Keeps (B.view to.old).blob (B.view to.new).blob }
    ensures honest { IsTrue (B.view to.new).is_honest → IsTrue (B.view to.old).is_honest }
{
    let mut progress = ProgressPrinter::new(rt);
    let count = from.copy(rt.alloc(), to, names, &mut progress)?;
    to.flush()?;
    Ok(count)
}

/// Returns these names of roots. Fails with `NoRoot` if one stands for no key.
fn wanted_names<B: Blobs>(
    alloc: Global,
    from: &mut B,
    roots: &[&str],
) -> Result<Vec<String>, Refusal>
    ensures stays { Stays (B.view from.old) (B.view from.new) }
{
    let mut names = Vec::new(alloc);
    for root in roots {
        let name = String::from_str(alloc, root)?;
        if from.root(root)?.is_none() {
            return Err(Refusal::NoRoot(name));
        }
        names.push(name)?;
    }
    Ok(names)
}

/// Copies into the file of a path what these roots reach, or all if there is none of them, and says how
/// many blobs these are.
///
/// # Errors
///
/// - `NoRoot` if a name stands for no key: no file is made.
/// - `OtherFile` if the file can't be opened.
/// - `Blobs` as a call on either file fails: some blobs may have been copied.
pub fn copy_into<B: BlobsInFile>(
    rt: &HostRuntime,
    from: &mut B,
    path: &str,
    roots: &[&str],
) -> Result<String, Refusal>
    ensures stays { Stays (B.Blobs.view from.old) (B.Blobs.view from.new) }
{
    let names = match roots {
        [] => from.root_names(rt.alloc())?,
        _ => wanted_names(rt.alloc(), from, roots)?,
    };
    let mut to = match B::open(rt, path) {
        Ok(to) => to,
        Err(error) => {
            return Err(Refusal::OtherFile(String::from_str(rt.alloc(), path)?, error));
        }
    };
    let count = copy_roots(rt, from, &mut to, names.as_slice())?;
    Ok(format!(in rt.alloc(); "{count} blobs copied\n")?)
}
