//! Named handles over a storage of texts.

ghost use Rattle.named_texts.specs.Named.{GivesName, HasLaterHandle, IsFree, KeepsOtherNames, Serves};
ghost use Rattle.std.specs.Prelude.{OnOk};

use crate::command::{Command, Verb};
use crate::counts::Counts;
use crate::names::{Names, Refusal};
use crate::text::{TextEnv, TextNode};
use crate::text_storage::TextStorage;
use pagable::storage::handle::Storage;
use pagable::{
    Env, Error, FirstHandle, HandleNumber, InMemoryBlobs, InMemoryPagableStorage, KeyHash,
    OptionalDataKey, PagableStorage, PagableStorageHandle, PageOutError,
};
use std::alloc::Global;
use std::sync::{Arc, Wait};

/// What a command answers, in one line.
#[derive(Drop)]
pub enum Answer {
    /// A word, such as `ok`, `yes` or `none`.
    Word(&'static str),
    /// A count, or a key's number.
    Number(u128),
    /// The text of a value that was pinned.
    Value(Arc<TextNode>),
    /// The counts of the storage's roots, and of their blobs and bytes.
    Counts(Counts),
}

/// The handles that have names, and the storage of their cells.
#[derive(Drop)]
pub struct Session<'a, R: Wait, H: KeyHash, S: PagableStorage<TextEnv<H>>>
where
    TextEnv<H>: Env<Node = TextNode, Hash = H, CtxKey = (), CtxValue = ()>,
{
    pub(crate) rt: &'a R,
    pub(crate) names: Names,
    pub(crate) storage: TextStorage<H, S>,
}

impl<'a, R: Wait, H: KeyHash> Session<'a, R, H, InMemoryBlobs<TextEnv<H>>> {
    /// Makes a session without names and cells, over blobs in memory.
    ///
    /// # Errors
    ///
    /// - `OutOfMemory`.
    pub fn in_memory(
        rt: &'a R,
        alloc: Global,
    ) -> Result<Session<'a, R, H, InMemoryBlobs<TextEnv<H>>>, Error> {
        let storage = InMemoryPagableStorage::new(alloc, TextEnv::new())?;
        Ok(Session {
            rt,
            names: Names::new(alloc),
            storage: storage.handle()?,
        })
    }
}

impl<'a, R: Wait, H: KeyHash, S: PagableStorage<TextEnv<H>>> Session<'a, R, H, S> {
    /// Makes a session without names and cells, over a storage.
    ///
    /// # Errors
    ///
    /// - `OutOfMemory`: the storage is dropped.
    pub fn over(rt: &'a R, alloc: Global, storage: S) -> Result<Session<'a, R, H, S>, Error>
    where
        S: Drop,
    {
        Ok(Session {
            rt,
            names: Names::new(alloc),
            storage: PagableStorageHandle::new(alloc, storage, TextEnv::new())?,
        })
    }

    /// Runs a command.
    ///
    /// # Errors
    ///
    /// - `BadName` if the command gives a name that another handle has already; `NoName` if no
    ///   handle has the name that it asks for.
    /// - the errors of the call on the storage that the command makes.
    pub fn run(&mut self, alloc: Global, command: Command<'_>) -> Result<Answer, Refusal> {
        run(self.rt, alloc, &mut self.names, &self.storage, command)
    }
}

/// Runs a command on these names and the storage of their cells.
fn run<R: Wait, H: KeyHash, S: PagableStorage<TextEnv<H>>>(
    rt: &R,
    alloc: Global,
    names: &mut Names,
    storage: &TextStorage<H, S>,
    command: Command<'_>,
) -> Result<Answer, Refusal>
    ensures { Serves command.entry result names.old names.new }
{
    match command {
        Command::New(name, text) => insert_text(rt, alloc, names, storage, name, text),
        Command::Pin(name, new) => pin(rt, alloc, names, storage, name, new),
        Command::Clone(name, new) => clone(rt, alloc, names, storage, name, new),
        Command::Release(name) => release(rt, names, storage, name),
        Command::RunVerb(verb, name) => {
            let handle = names.find(name)?;
            Ok(run_verb(rt, storage, verb, handle)?)
        }
        Command::Pending => Ok(Answer::Number(storage.pending_paging_count(rt) as u128)),
        Command::PageOut => match storage.page_out_pending(rt, alloc) {
            Ok(()) => Ok(Answer::Word("ok")),
            Err(PageOutError::Failed(e)) => Err(Refusal::Error(e)),
            Err(PageOutError::AlreadyFailed) => Ok(Answer::Word("already failed")),
        },
    }
}

/// Inserts a cell with a text, and gives its loose handle a new name.
fn insert_text<R: Wait, H: KeyHash, S: PagableStorage<TextEnv<H>>>(
    rt: &R,
    alloc: Global,
    names: &mut Names,
    storage: &TextStorage<H, S>,
    name: &str,
    text: &str,
) -> Result<Answer, Refusal>
    ensures { GivesName name.now result names.old names.new }
{
    let room = names.make_room(alloc, name)?;
    let node = TextNode::new(alloc, text)?;
    let (_node, handle) = storage.insert(rt, alloc, node, FirstHandle::Loose)?;
    names.give_name(room, handle);
    Ok(Answer::Word("ok"))
}

/// Pins the cell of a name, and returns its text. The pin gets the new name.
fn pin<R: Wait, H: KeyHash, S: PagableStorage<TextEnv<H>>>(
    rt: &R,
    alloc: Global,
    names: &mut Names,
    storage: &TextStorage<H, S>,
    name: &str,
    new: &str,
) -> Result<Answer, Refusal>
    ensures { GivesName new.now result names.old names.new }
{
    let handle = names.find(name)?;
    let room = names.make_room(alloc, new)?;
    let pinned = storage.pin(rt, alloc, handle)?;
    names.give_name(room, pinned.handle);
    Ok(Answer::Value(pinned.value))
}

/// Clones the handle of a name. The clone gets the new name.
fn clone<R: Wait, H: KeyHash, S: PagableStorage<TextEnv<H>>>(
    rt: &R,
    alloc: Global,
    names: &mut Names,
    storage: &TextStorage<H, S>,
    name: &str,
    new: &str,
) -> Result<Answer, Refusal>
    ensures given { GivesName new.now result names.old names.new }
    ensures later { OnOk result (HasLaterHandle name.now new.now names.old names.new) }
{
    let handle = names.find(name)?;
    let room = names.make_room(alloc, new)?;
    let cloned = storage.clone_handle(rt, handle)?;
    names.give_name(room, cloned);
    Ok(Answer::Word("ok"))
}

/// Releases the handle of a name, and frees the name. The caller owns each handle that has a name, so
/// an error but `NoName` says that the cell couldn't be listed, and the handle is released anyway.
fn release<R: Wait, H: KeyHash, S: PagableStorage<TextEnv<H>>>(
    rt: &R,
    names: &mut Names,
    storage: &TextStorage<H, S>,
    name: &str,
) -> Result<Answer, Refusal>
    ensures is_free { IsFree name.now names.new }
    ensures others { KeepsOtherNames name.now names.old names.new }
{
    let handle = names.find(name)?;
    names.free_name(name);
    storage.release(rt, handle)?;
    Ok(Answer::Word("ok"))
}

/// Does with a handle what the verb asks, and returns the answer.
fn run_verb<R: Wait, H: KeyHash, S: PagableStorage<TextEnv<H>>>(
    rt: &R,
    storage: &TextStorage<H, S>,
    verb: Verb,
    handle: HandleNumber,
) -> Result<Answer, Error> {
    match verb {
        Verb::Unpin => storage.unpin(rt, handle).map(|_| Answer::Word("ok")),
        Verb::Loose => storage.into_pagable(rt, handle).map(|_| Answer::Word("ok")),
        Verb::Count => Ok(Answer::Number(u128::from(storage.count(rt, handle)?))),
        Verb::Key => match storage.key(rt, handle)? {
            OptionalDataKey::None => Ok(Answer::Word("none")),
            OptionalDataKey::Some(key) => Ok(Answer::Number(key.get())),
        },
        Verb::IsPagedOut => match storage.is_paged_out(rt, handle)? {
            true => Ok(Answer::Word("yes")),
            false => Ok(Answer::Word("no")),
        },
    }
}
