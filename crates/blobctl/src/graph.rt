//! The graph that a blob reaches, in the language of Graphviz.

ghost use Rattle.blobctl.specs.Shown.{Stays};

use crate::blobs::Blobs;
use crate::listing::{Root, list_roots};
use crate::reach::{ReachedBlob, walk_from};
use crate::refusal::Refusal;
use pagable_flavors::DataKey;
use std::alloc::{AllocError, Global};
use std::collections::HashMap;

/// Adds a blob as a point of a graph, with an edge to each child.
fn write_point(text: &mut String, reached: &ReachedBlob) -> Result<(), AllocError> {
    let key = reached.blob.key;
    writeln!(text, "  \"{key}\";")?;
    for child in &reached.children {
        writeln!(text, "  \"{key}\" -> \"{child}\";")?;
    }
    Ok(())
}

/// Writes a name within quotes: what isn't printable is escaped, and then each backslash and each quote
/// has a backslash before it.
fn write_quoted(text: &mut String, name: &str) -> Result<(), AllocError> {
    for letter in name.escape_debug() {
        if letter == '\\' || letter == '"' {
            text.push('\\')?;
        }
        text.push(letter)?;
    }
    Ok(())
}

/// Adds a root as a box of a graph, with an edge to its blob.
fn write_root(text: &mut String, root: &Root) -> Result<(), AllocError> {
    text.push_str("  \"root ")?;
    write_quoted(text, root.name.as_str())?;
    text.push_str("\" [shape=box];\n  \"root ")?;
    write_quoted(text, root.name.as_str())?;
    writeln!(text, "\" -> \"{}\";", root.key)
}

/// Shows as a graph what a key reaches, and the roots that stand for any of these blobs.
///
/// # Errors
///
/// - `Blobs` as a fetch fails, also where a child is missing, or for want of memory.
pub fn show_graph<B: Blobs>(alloc: Global, blobs: &mut B, key: DataKey) -> Result<String, Refusal>
    ensures stays { Stays (B.view blobs.old) (B.view blobs.new) }
{
    let mut text = String::from_str(alloc, "digraph blobs {\n")?;
    let mut keys: HashMap<DataKey, ()> = HashMap::new(alloc);
    for reached in &walk_from(alloc, blobs, key)? {
        write_point(&mut text, reached)?;
        keys.insert(reached.blob.key, ())?;
    }
    add_roots(alloc, blobs, &keys, &mut text)?;
    text.push_str("}\n")?;
    Ok(text)
}

/// Adds the roots that stand for any of these keys.
fn add_roots<B: Blobs>(
    alloc: Global,
    blobs: &mut B,
    keys: &HashMap<DataKey, ()>,
    text: &mut String,
) -> Result<(), Refusal>
    ensures stays { Stays (B.view blobs.old) (B.view blobs.new) }
{
    for root in &list_roots(alloc, blobs)? {
        if keys.contains_key(&root.key) {
            write_root(text, root)?;
        }
    }
    Ok(())
}
