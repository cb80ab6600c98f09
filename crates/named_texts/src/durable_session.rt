//! Named handles over a storage that keeps texts under names of roots.

ghost use Rattle.named_texts.specs.{Durable.ServesDurable, Named.GivesName};

use crate::cell_page_out::page_out;
use crate::counts::count_roots;
use crate::durable_command::DurableCommand;
use crate::names::{Names, Refusal};
use crate::session::{Answer, Session};
use crate::text::{TextEnv, TextNode};
use crate::text_storage::TextStorage;
use pagable::storage::handle::Storage;
use pagable::{Env, Error, HandleNumber, KeyHash, Roots};
use std::alloc::Global;
use std::collections::BTreeSet;
use std::sync::Wait;

/// The type number of texts.
const TEXT: u32 = 0;

/// A session over a storage with names of roots.
#[derive(Drop)]
pub struct DurableSession<'a, R: Wait, H: KeyHash, S: Roots<TextEnv<H>>>
where
    TextEnv<H>: Env<Node = TextNode, Hash = H, CtxKey = (), CtxValue = ()>,
{
    pub(crate) session: Session<'a, R, H, S>,
    // All names that may stand for keys.
    roots: BTreeSet<String>,
}

impl<'a, R: Wait, H: KeyHash, S: Roots<TextEnv<H>>> DurableSession<'a, R, H, S> {
    /// Makes a session without cells and names of handles, over a storage whose names of roots it
    /// reads.
    ///
    /// # Errors
    ///
    /// Each drops the storage.
    ///
    /// - `OutOfMemory`.
    /// - `Storage` if the storage fails.
    pub fn open(
        rt: &'a R,
        alloc: Global,
        mut storage: S,
    ) -> Result<DurableSession<'a, R, H, S>, Error>
    where
        S: Drop,
    {
        let roots = make_set(alloc, storage.root_names(alloc)?)?;
        let session = Session::over(rt, alloc, storage)?;
        Ok(DurableSession { session, roots })
    }

    /// Runs a command.
    ///
    /// # Errors
    ///
    /// - `NoName` if no handle has the name or the root's name stands for no key; `BadName` if the
    ///   command gives a name that another handle has already.
    /// - the errors of the calls on the storage that the command makes.
    pub fn run(&mut self, alloc: Global, command: DurableCommand<'_>) -> Result<Answer, Refusal> {
        self.session.run_durable(alloc, &mut self.roots, command)
    }
}

impl<'a, R: Wait, H: KeyHash, S: Roots<TextEnv<H>>> Session<'a, R, H, S> {
    // Runs a command over these names of roots.
    fn run_durable(
        &mut self,
        alloc: Global,
        roots: &mut BTreeSet<String>,
        command: DurableCommand<'_>,
    ) -> Result<Answer, Refusal> {
        let storage = &self.storage;
        run(self.rt, alloc, &mut self.names, roots, storage, command)
    }
}

/// Runs a command on these names of handles and of roots, and the storage of their cells.
fn run<R: Wait, H: KeyHash, S: Roots<TextEnv<H>>>(
    rt: &R,
    alloc: Global,
    names: &mut Names,
    roots: &mut BTreeSet<String>,
    storage: &TextStorage<H, S>,
    command: DurableCommand<'_>,
) -> Result<Answer, Refusal>
    ensures { ServesDurable command.entry result names.old names.new }
{
    match command {
        DurableCommand::Save(name, root) => {
            let handle = names.find(name)?;
            save(rt, alloc, roots, storage, handle, root)?;
            Ok(Answer::Word("ok"))
        }
        DurableCommand::Open(root, new) => open_root(rt, alloc, names, storage, root, new),
        DurableCommand::Flush => {
            storage.flush(rt)?;
            Ok(Answer::Word("ok"))
        }
        DurableCommand::Stat => {
            let counts = count_roots(rt, alloc, storage, roots)?;
            Ok(Answer::Counts(counts))
        }
    }
}

/// Makes a set of names.
fn make_set(alloc: Global, names: Vec<String>) -> Result<BTreeSet<String>, Error> {
    let mut set = BTreeSet::new(alloc);
    for name in names {
        set.insert(name)?;
    }
    Ok(set)
}

/// Adds a name to those that may stand for keys, unless it is among them.
fn note_root(alloc: Global, roots: &mut BTreeSet<String>, root: &str) -> Result<(), Error> {
    if !roots.contains(root) {
        roots.insert(String::from_str(alloc, root)?)?;
    }
    Ok(())
}

/// Pages out a handle's cell, and makes a root's name stand for its key.
fn save<R: Wait, H: KeyHash, S: Roots<TextEnv<H>>>(
    rt: &R,
    alloc: Global,
    roots: &mut BTreeSet<String>,
    storage: &TextStorage<H, S>,
    handle: HandleNumber,
    root: &str,
) -> Result<(), Error> {
    note_root(alloc, roots, root)?;
    let key = page_out(rt, alloc, storage, handle)?;
    storage.set_root(rt, alloc, root, Some(key))
}

/// Makes a cell of the key that a root's name stands for, and gives its loose handle the new name. It
/// doesn't read the blob.
fn open_root<R: Wait, H: KeyHash, S: Roots<TextEnv<H>>>(
    rt: &R,
    alloc: Global,
    names: &mut Names,
    storage: &TextStorage<H, S>,
    root: &str,
    new: &str,
) -> Result<Answer, Refusal>
    ensures { GivesName new.now result names.old names.new }
{
    let Some(key) = storage.root(rt, root)? else {
        return Err(Refusal::NoName);
    };
    let room = names.make_room(alloc, new)?;
    let (_node, handle) = storage.new_paged_out(rt, alloc, TEXT, key)?;
    names.give_name(room, handle);
    Ok(Answer::Word("ok"))
}
