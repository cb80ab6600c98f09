//! Inserts values, makes nodes of what loads have read, and ends loads of cells with a value.

ghost use Rattle.pagable_load.specs.PinStart.{ended_of};
ghost use Rattle.pagable_pager.specs.{
  View.{BringsAtNewNode, BringsToCell, Calls, ChangesOnlyTables, may_call, pager_core, pager_state, value_in, with_value},
};
ghost use Rattle.pagable_pager_spec.specs.{
  Basics.Error,
  Calls.{InsertCall, InsertPagedOutCall},
  Kinds.is_pinning,
  LoadCalls.{AdoptCall, EndCall},
  Pager.ValueCall,
  Refusals.{Refused, closed_fault, earlier, load_fault},
  World.usable,
};
ghost use Rattle.pagable_tables.specs.{Core.{StorageView, core_alone, core_of}, EndingLoads.adopt_check_fault};
ghost use Rattle.std.specs.{Arc.arc_value, Prelude.{IfErr, IfOk, None, Ok, OnErr, OnOk, Option, Some, true, ℕ, ◌≡◌}};

use crate::pager::Pager;
use pagable_codec::{Env, NodeSet};
use pagable_core::PagableStorage;
use pagable_load::EndedLoad;
use pagable_pager_spec::Mode;
use pagable_pager_spec::handle_row::Owner;
use pagable_tables::load_end::EndFailure;
use pagable_tables::number_table::NumberTable;
use pagable_tables::{create, load, load_end, load_table};
use pagable_value_spec::{ArcRef, DataKey, Error, HandleNumber, Kind, LoadNumber};
use std::alloc::Global;
use std::sync::Arc;

/// Puts a value into memory at this node if `comes` is true, and drops the value otherwise. Fails
/// with OutOfMemory only, and hands the value back.
pub(crate) fn put_value<N: Drop>(
    values: &mut NumberTable<Arc<N>>,
    alloc: Global,
    node: u64,
    comes: bool,
    value: N,
) -> Result<(), (Error, N)>
    ensures placed { OnOk result ((n : ℕ) → value_in values.new n
        ≡ with_value comes node value (value_in values.old) n) }
    ensures only { IfErr result (λ e. e.0 ≡ Error.OutOfMemory) }
    ensures back { IfErr result (λ e. e.1 ≡ value) }
    ensures kept { OnErr result ((n : ℕ) → value_in values.new n ≡ value_in values.old n) }
{
    if !comes {
        return Ok(());
    }
    if let Err(e) = values.reserve(node) {
        return Err((Error::from(e), value));
    }
    let shared = match Arc::new(alloc, value) {
        Ok(shared) => shared,
        Err(refused) => return Err(Error::split_failed_allocation(refused)),
    };
    values.put(node, shared);
    Ok(())
}

/// Puts a shared value into memory at this node if `comes` is true, and drops the share otherwise.
/// Fails with OutOfMemory only, and hands the share back.
fn put_shared<N: Drop>(
    values: &mut NumberTable<Arc<N>>,
    node: u64,
    comes: bool,
    value: Arc<N>,
) -> Result<(), (Error, Arc<N>)>
    ensures placed { OnOk result ((n : ℕ) → value_in values.new n
        ≡ with_value comes node (arc_value value) (value_in values.old) n) }
    ensures only { IfErr result (λ e. e.0 ≡ Error.OutOfMemory) }
    ensures back { IfErr result (λ e. arc_value e.1 ≡ arc_value value) }
    ensures kept { OnErr result ((n : ℕ) → value_in values.new n ≡ value_in values.old n) }
{
    if !comes {
        return Ok(());
    }
    if let Err(e) = values.reserve(node) {
        return Err((Error::from(e), value));
    }
    values.put(node, value);
    Ok(())
}

/// Puts a value into memory at this node, and returns a share of it. Fails with OutOfMemory only.
pub(crate) fn put_and_share<N: Drop>(
    values: &mut NumberTable<Arc<N>>,
    alloc: Global,
    node: u64,
    value: N,
) -> Result<Arc<N>, Error>
    ensures placed { OnOk result ((n : ℕ) → value_in values.new n ≡ with_value true node value (value_in values.old) n) }
    ensures same { IfOk result (λ kept. arc_value kept ≡ value) }
    ensures only { IfErr result (λ e. e ≡ Error.OutOfMemory) }
    ensures kept { OnErr result ((n : ℕ) → value_in values.new n ≡ value_in values.old n) }
{
    let shared = Arc::new(alloc, value)?;
    let kept = shared.clone()?;
    match put_shared(values, node, true, shared) {
        Ok(()) => Ok(kept),
        Err((e, _shared)) => Err(e),
    }
}

impl<E: Env<Node: NodeSet<E>>, S: PagableStorage<E>> Pager<E, S> {
    /// Inserts a value with a handle of this mode, which has to be a pinning one.
    fn new_node(
        &mut self,
        alloc: Global,
        node: E::Node,
        mode: Mode,
    ) -> Result<HandleNumber, (Error, E::Node)>
        requires { is_pinning mode ≡ true }
        ensures step { InsertCall (pager_core S.PagableStorage self.old) Owner.Caller node (E.Node.type_of node)
            (E.Node.refs_of node) mode result (pager_core S.PagableStorage self.new) }
        ensures moves { BringsAtNewNode S.PagableStorage node self.old self.new }
        ensures storage { self.new.storage ≡ self.old.storage }
    {
        let references = match node.refs(alloc) {
            Ok(references) => references,
            Err(e) => return Err((e, node)),
        };
        if let Err(e) = create::prepare_insert(&mut self.tables, Owner::Caller, &references) {
            return Err((e, node));
        }
        let node_type = node.node_type();
        let number = self.tables.last_node + 1;
        if let Err((e, node)) = put_value(&mut self.values, alloc, number, true, node) {
            return Err((e, node));
        }
        let tables = &mut self.tables;
        Ok(create::insert_node(tables, Owner::Caller, node_type, 0, references, mode))
    }

    /// Inserts a value without a key, and returns a Pinned handle, which the caller owns. The value
    /// owns the handles of its references from then on.
    ///
    /// # Errors
    ///
    /// Each error hands the value back.
    ///
    /// - `NoSuchHandle`, `NotYours`, `WrongMode` or `WrongKind` for the first reference that has a
    ///   fault: its handle isn't live or isn't of its node; isn't the caller's or is named twice;
    ///   or its mode, or its node's type, doesn't fit its kind.
    /// - `NumbersSpent` if no number is left for a node or a handle.
    /// - `OutOfMemory` if an allocation fails.
    pub fn new_pinned(
        &mut self,
        alloc: Global,
        node: E::Node,
    ) -> Result<HandleNumber, (Error, E::Node)>
        ensures step { InsertCall (pager_core S.PagableStorage self.old) Owner.Caller node (E.Node.type_of node)
            (E.Node.refs_of node) Mode.Pinned result (pager_core S.PagableStorage self.new) }
        ensures moves { BringsAtNewNode S.PagableStorage node self.old self.new }
        ensures storage { self.new.storage ≡ self.old.storage }
    {
        self.new_node(alloc, node, Mode::Pinned)
    }

    /// Does what `new_pinned` does, with a loose pinned handle.
    ///
    /// # Errors
    ///
    /// - those of `new_pinned`.
    pub fn new_loose(
        &mut self,
        alloc: Global,
        node: E::Node,
    ) -> Result<HandleNumber, (Error, E::Node)>
        ensures step { InsertCall (pager_core S.PagableStorage self.old) Owner.Caller node (E.Node.type_of node)
            (E.Node.refs_of node) Mode.LoosePinned result (pager_core S.PagableStorage self.new) }
        ensures moves { BringsAtNewNode S.PagableStorage node self.old self.new }
        ensures storage { self.new.storage ≡ self.old.storage }
    {
        self.new_node(alloc, node, Mode::LoosePinned)
    }

    /// Does what `new_pinned` does, with a Shared handle: the node never has a key and is never
    /// paged out.
    ///
    /// # Errors
    ///
    /// - those of `new_pinned`.
    pub fn new_shared(
        &mut self,
        alloc: Global,
        node: E::Node,
    ) -> Result<HandleNumber, (Error, E::Node)>
        ensures step { InsertCall (pager_core S.PagableStorage self.old) Owner.Caller node (E.Node.type_of node)
            (E.Node.refs_of node) Mode.Shared result (pager_core S.PagableStorage self.new) }
        ensures moves { BringsAtNewNode S.PagableStorage node self.old self.new }
        ensures storage { self.new.storage ≡ self.old.storage }
    {
        self.new_node(alloc, node, Mode::Shared)
    }

    /// Makes a cell with a key and no value, and returns a loose unpinned handle, which the caller
    /// owns. The key has to read as a value of this type.
    ///
    /// # Errors
    ///
    /// - `NumbersSpent` if no number is left for a node or a handle.
    /// - `OutOfMemory` if an allocation fails.
    pub fn new_paged_out(
        &mut self,
        alloc: Global,
        node_type: u32,
        key: DataKey,
    ) -> Result<HandleNumber, Error>
        ensures { Calls ChangesOnlyTables S.PagableStorage self.old
            (λ w w'. InsertPagedOutCall w Owner.Caller node_type key result w') self.new }
    {
        create::insert_paged_out(&mut self.tables, alloc, Owner::Caller, node_type, key)
    }

    /// Makes a node of a value that a load has read. The caller has found that the cache has no
    /// usable node for it, and that the load and the references have no fault. Fails with
    /// NumbersSpent or OutOfMemory, and hands the value back.
    fn adopt_as_new(
        &mut self,
        me: Owner,
        alloc: Global,
        load: LoadNumber,
        kind: Kind,
        key: DataKey,
        references: Vec<ArcRef>,
        node: E::Node,
    ) -> Result<HandleNumber, (Error, E::Node)>
        requires listed { references.items ≡ E.Node.refs_of node }
        requires fresh { (storage : StorageView) → adopt_check_fault (core_of self.old.tables storage) me load kind
            (E.Node.type_of node) references.items ≡ None }
        requires unknown { usable (core_alone self.old.tables) kind.0 key ≡ None }
        ensures step { AdoptCall (pager_core S.PagableStorage self.old) me load kind key node (E.Node.type_of node)
            (E.Node.refs_of node) result (pager_core S.PagableStorage self.new) }
        ensures moves { BringsAtNewNode S.PagableStorage node self.old self.new }
        ensures storage { self.new.storage ≡ self.old.storage }
    {
        if let Err(e) = create::make_room_for_node(&mut self.tables) {
            return Err((e, node));
        }
        let number = self.tables.last_node + 1;
        if let Err((e, node)) = put_value(&mut self.values, alloc, number, true, node) {
            return Err((e, node));
        }
        let lists = !self.storage.has_closed();
        let tables = &mut self.tables;
        Ok(load::adopt(tables, load, kind, key, references, lists))
    }

    /// Returns the error of a load's call that ran out of memory when it listed the references of
    /// a value: NoSuchHandle if the load isn't open, and otherwise `e`.
    fn references_error(&self, me: Owner, load: LoadNumber, e: Error) -> Error
        ensures { e ≡ Error.OutOfMemory → (later : Option Error) → Refused
            (earlier (load_fault (pager_core S.PagableStorage self.now) me load) later)
            (closed_fault (pager_core S.PagableStorage self.now) load) (Unit {0}) (pager_core S.PagableStorage self.now)
            result (pager_core S.PagableStorage self.now) }
    {
        match load_table::load_of(&self.tables.loads, load.0) {
            Some(_) => e,
            None => Error::NoSuchHandle,
        }
    }

    /// Makes a node of a value that a load has read. The load owns the node's handle, the value
    /// owns the handles of its references, and the node is cached. If the cache has a node already,
    /// drops the value, releases the handles of its references, and makes a handle of the cached
    /// node. The value has to be what the key reads as.
    ///
    /// # Errors
    ///
    /// Each error hands the value back.
    ///
    /// - `NoSuchHandle` if the load isn't open, or a reference's handle isn't live.
    /// - `NotYours` if another than the caller began the load, or the load doesn't own a
    ///   reference's handle.
    /// - `WrongMode` if the kind is a loose one, or a reference's mode doesn't fit its kind.
    /// - `WrongKind` if the value's type isn't the kind's, or a reference's type isn't its kind's.
    /// - `NumbersSpent` or `OutOfMemory` if the handle or the node can't be made.
    pub fn load_adopt(
        &mut self,
        alloc: Global,
        load: LoadNumber,
        kind: Kind,
        key: DataKey,
        node: E::Node,
    ) -> Result<HandleNumber, (Error, E::Node)>
        ensures step { AdoptCall (pager_core S.PagableStorage self.old) Owner.Caller load kind key node
            (E.Node.type_of node) (E.Node.refs_of node) result (pager_core S.PagableStorage self.new) }
        ensures moves { BringsAtNewNode S.PagableStorage node self.old self.new }
        ensures storage { self.new.storage ≡ self.old.storage }
    {
        self.load_adopt_for(Owner::Caller, alloc, load, kind, key, node)
    }

    pub(crate) fn load_adopt_for(
        &mut self,
        me: Owner,
        alloc: Global,
        load: LoadNumber,
        kind: Kind,
        key: DataKey,
        node: E::Node,
    ) -> Result<HandleNumber, (Error, E::Node)>
        ensures step { AdoptCall (pager_core S.PagableStorage self.old) me load kind key node (E.Node.type_of node)
            (E.Node.refs_of node) result (pager_core S.PagableStorage self.new) }
        ensures moves { BringsAtNewNode S.PagableStorage node self.old self.new }
        ensures storage { self.new.storage ≡ self.old.storage }
    {
        let references = match node.refs(alloc) {
            Ok(references) => references,
            Err(e) => return Err((self.references_error(me, load, e), node)),
        };
        let node_type = node.node_type();
        let lists = !self.storage.has_closed();
        let (t, values) = (&mut self.tables, &mut self.values);
        let read = &references;
        match load::adopt_if_cached(t, values, me, load, kind, key, node_type, read, lists) {
            Ok(Some(known)) => Ok(known),
            Ok(None) => self.adopt_as_new(me, alloc, load, kind, key, references, node),
            Err(e) => Err((e, node)),
        }
    }

    /// Ends a load of a cell with the value that it has read: pins the handle that began it,
    /// returns a new Pinned handle, and releases what the load still owns. The cell gets the value
    /// with the handles of its references; if it has its value already, the value is dropped. The
    /// value has to be what the cell's key reads as.
    ///
    /// # Errors
    ///
    /// An error that leaves the load open hands the value back. If the handle that began the load
    /// is gone or has another owner, the call closes the load, releases all that it owns, drops the
    /// value and fails with `NoSuchHandle` or `NotYours`.
    ///
    /// - `NoSuchHandle` if the load isn't open, or a reference's handle isn't live.
    /// - `NotYours` if another than the caller began the load, or the load doesn't own a
    ///   reference's handle.
    /// - `WrongMode` if it is a load of a key, or a reference's mode doesn't fit its kind.
    /// - `WrongKind` if the value's type isn't the cell's, or a reference's type isn't its kind's.
    /// - `NumbersSpent` or `OutOfMemory` if the pin can't be made.
    pub fn load_end(
        &mut self,
        alloc: Global,
        load: LoadNumber,
        value: E::Node,
    ) -> Result<HandleNumber, (Error, Option<E::Node>)>
        ensures step { EndCall (pager_core S.PagableStorage self.old) Owner.Caller load value (E.Node.type_of value)
            (E.Node.refs_of value) result (pager_core S.PagableStorage self.new) }
        ensures moves { BringsToCell S.PagableStorage load value self.old self.new }
        ensures storage { self.new.storage ≡ self.old.storage }
    {
        let references = match value.refs(alloc) {
            Ok(references) => references,
            Err(e) => return Err((self.references_error(Owner::Caller, load, e), Some(value))),
        };
        let node_type = value.node_type();
        let tables = &mut self.tables;
        let ready = match load_end::prepare_end(
            tables,
            Owner::Caller,
            load,
            node_type,
            &references,
        ) {
            Ok(ready) => ready,
            Err(EndFailure::Refused(e)) => return Err((e, Some(value))),
            Err(EndFailure::HandleLost(e)) => {
                let _ = self.load_drop_for(Owner::Caller, load);
                return Err((e, None));
            }
        };
        let node = ready.row.node.0;
        if let Err((e, value)) = put_value(
            &mut self.values,
            alloc,
            node,
            ready.lacks_value,
            value,
        ) {
            return Err((e, Some(value)));
        }
        let lists = !self.storage.has_closed();
        let (tables, values) = (&mut self.tables, &mut self.values);
        Ok(load_end::install(
            tables,
            values,
            Owner::Caller,
            load,
            node_type,
            references,
            ready,
            lists,
        ))
    }

    /// Ends a load of `me`, as `load_end` does for the caller, with a value that is shared already.
    /// Returns also whether the cell has got the value. An error hands the share back where
    /// `load_end` hands the value back.
    pub(crate) fn load_end_for(
        &mut self,
        me: Owner,
        alloc: Global,
        load: LoadNumber,
        value: Arc<E::Node>,
    ) -> Result<EndedLoad, (Error, Option<Arc<E::Node>>)>
        requires at_work { may_call (pager_core S.PagableStorage self.old) me ≡ true }
        ensures step { EndCall (pager_core S.PagableStorage self.old) me load (arc_value value)
            (E.Node.type_of (arc_value value)) (E.Node.refs_of (arc_value value)) (ended_of result)
            (pager_core S.PagableStorage self.new) }
        ensures moves { BringsToCell S.PagableStorage load (arc_value value) self.old self.new }
        ensures given { IfOk result (λ ended. ended.came ≡ true
            → ValueCall (pager_state S.PagableStorage self.new) ended.handle (Ok (Some (arc_value value)))) }
        ensures storage { self.new.storage ≡ self.old.storage }
    {
        let references = match value.refs(alloc) {
            Ok(references) => references,
            Err(e) => return Err((self.references_error(me, load, e), Some(value))),
        };
        let node_type = value.node_type();
        let tables = &mut self.tables;
        let ready = match load_end::prepare_end(tables, me, load, node_type, &references) {
            Ok(ready) => ready,
            Err(EndFailure::Refused(e)) => return Err((e, Some(value))),
            Err(EndFailure::HandleLost(e)) => {
                let _ = self.load_drop_for(me, load);
                return Err((e, None));
            }
        };
        let node = ready.row.node.0;
        let came = ready.lacks_value;
        if let Err((e, value)) = put_shared(&mut self.values, node, came, value) {
            return Err((e, Some(value)));
        }
        let lists = !self.storage.has_closed();
        let (tables, values) = (&mut self.tables, &mut self.values);
        let handle = load_end::install(
            tables, values, me, load, node_type, references, ready, lists,
        );
        Ok(EndedLoad { handle, came })
    }
}
