//! Access to a pager behind a lock, for a caller or a page-out worker. Between any two of its calls
//! other threads may make theirs, so contracts tell nothing of the pager's state.

ghost use Rattle.pagable_core.specs.Data.{blob_of};
ghost use Rattle.pagable_load.specs.{
  AccessView.{Acts, IfKnown, IsReadBy, MakesCallBringing, values_at},
  PinStart.ended_of,
};
ghost use Rattle.pagable_pager.specs.LeafPins.{IsNamedFetch};
ghost use Rattle.pagable_pager_spec.specs.{LoadCalls.EndCall, Pager.{IsCellOf, PagerState, ValueCall}};
ghost use Rattle.pagable_value_spec.specs.Blob.{key_of};
ghost use Rattle.std.specs.{Arc.arc_value, Prelude.{IfOk, IfSome, None, Ok, Some, length, map, true, vec_len, [], ◌<◌, ◌≡◌, ◌≤◌}};

use crate::lock::lock_briefly;
use either::Either;
use pagable_codec::{Env, NodeSet};
use pagable_core::{PagableData, PagableStorage, SessionOf, Setting};
use pagable_load::{
    Access, EndedLoad, PinnedOrLoading, StartedPin, TakenValue, WorkerAccess, WorkerNode,
};
use pagable_pager::{BegunFetch, Lent, Pager, TakenLeaf, WrittenLeaves, write_leaves};
use pagable_pager_spec::handle_row::Owner;
use pagable_tables::leaf::Leaf;
use pagable_value_spec::{
    ArcRef, DataKey, Error, HandleNumber, Kind, LoadNumber, NodeNumber, OptionalDataKey,
    WorkerNumber,
};
use std::alloc::Global;
use std::sync::{Arc, Mutex, Wait};

/// The access of one thread to a pager behind a lock, for the caller or for a worker of this
/// thread. Each call takes the lock, makes one call of the pager for `me`, and releases the
/// lock; environment and session are outside the lock. A call for a worker that isn't running fails
/// with NotYours; `take_pending` and `release_if_keyed` return None then. `share`, `store`,
/// `store_keyed`, `pending`, `entry_key`, `worker_begin`, `worker_listed`, `worker_end` and
/// `release_worker_node` don't check the owner.
#[derive(Drop)]
pub struct Locked<'a, R: Wait, E: Env<Node: NodeSet<E>>, S: PagableStorage<E>> {
    rt: &'a R,
    pager: &'a Mutex<Pager<E, S>>,
    setting: &'a Setting<E>,
    me: Owner,
}

impl<'a, R: Wait, E: Env<Node: NodeSet<E>>, S: PagableStorage<E>> Locked<'a, R, E, S> {
    ghost use Rattle.std.specs.Prelude.{◌≡◌};
    ghost use Rattle.pagable_pager_spec.specs.declared.handle_row.Owner.{Owner};

    /// Makes the caller's access to a pager that has this setting.
    pub fn new(
        rt: &'a R,
        pager: &'a Mutex<Pager<E, S>>,
        setting: &'a Setting<E>,
    ) -> Locked<'a, R, E, S>
        ensures caller { result.me ≡ Owner.Caller }
        ensures setting { result.setting.now ≡ setting.now }
    {
        Locked {
            rt,
            pager,
            setting,
            me: Owner::Caller,
        }
    }
}

impl<'a, R: Wait, E: Env<Node: NodeSet<E>>, S: PagableStorage<E>> Access<E>
    for Locked<'a, R, E, S> {
    ghost use Rattle.std.specs.Prelude.{None};

    ghost known_state = { λ l. None };

    ghost acting = { λ l. record { me = l.me; environment = l.setting.now.env; lender = 0 } };

    fn env(&self) -> &E {
        &self.setting.env
    }

    fn session_context(&self) -> &SessionOf<E> {
        &self.setting.session
    }

    fn begin_pin(&mut self, handle: HandleNumber) -> Result<StartedPin<E::Node>, Error> {
        let mut pager = lock_briefly(self.pager, self.rt);
        Lent::for_owner(&mut *pager, self.me)?.begin_pin(handle)
    }

    fn share(&self, handle: HandleNumber) -> Result<Option<Arc<E::Node>>, Error> {
        lock_briefly(self.pager, self.rt).share(handle)
    }

    fn store(&mut self, alloc: Global, blob: PagableData) -> Result<DataKey, Error> {
        let key = blob.compute_key::<E::Hash>();
        self.store_keyed(alloc, key, blob)
    }

    fn store_keyed(
        &mut self,
        alloc: Global,
        key: DataKey,
        blob: PagableData,
    ) -> Result<DataKey, Error> {
        lock_briefly(self.pager, self.rt).store_keyed(alloc, key, blob)
    }

    fn set_data_key(&mut self, handle: HandleNumber, key: DataKey) -> Result<(), Error> {
        let mut pager = lock_briefly(self.pager, self.rt);
        Lent::for_owner(&mut *pager, self.me)?.set_data_key(handle, key)
    }

    fn unpin(&mut self, handle: HandleNumber) -> Result<(), Error> {
        let mut pager = lock_briefly(self.pager, self.rt);
        Lent::for_owner(&mut *pager, self.me)?.unpin(handle)
    }

    fn release(&mut self, handle: HandleNumber) -> Result<(), Error> {
        let mut pager = lock_briefly(self.pager, self.rt);
        Lent::for_owner(&mut *pager, self.me)?.release(handle)
    }

    fn load_key(&mut self, key: DataKey) -> Result<LoadNumber, Error> {
        let mut pager = lock_briefly(self.pager, self.rt);
        Lent::for_owner(&mut *pager, self.me)?.load_key(key)
    }

    fn load_root(
        &mut self,
        alloc: Global,
        load: LoadNumber,
        key: DataKey,
    ) -> Result<Arc<PagableData>, Error> {
        let mut pager = lock_briefly(self.pager, self.rt);
        Lent::for_owner(&mut *pager, self.me)?.load_root(alloc, load, key)
    }

    fn load_nested(
        &mut self,
        alloc: Global,
        load: LoadNumber,
        kind: Kind,
        key: DataKey,
    ) -> Result<Either<ArcRef, Arc<PagableData>>, Error> {
        let mut pager = lock_briefly(self.pager, self.rt);
        Lent::for_owner(&mut *pager, self.me)?.load_nested(alloc, load, kind, key)
    }

    fn load_lazy(
        &mut self,
        alloc: Global,
        load: LoadNumber,
        kind: Kind,
        key: DataKey,
    ) -> Result<ArcRef, Error> {
        let mut pager = lock_briefly(self.pager, self.rt);
        Lent::for_owner(&mut *pager, self.me)?.load_lazy(alloc, load, kind, key)
    }

    fn load_adopt(
        &mut self,
        alloc: Global,
        load: LoadNumber,
        kind: Kind,
        key: DataKey,
        node: E::Node,
    ) -> Result<ArcRef, (Error, E::Node)> {
        let mut pager = lock_briefly(self.pager, self.rt);
        match Lent::for_owner(&mut *pager, self.me) {
            Ok(mut lent) => lent.load_adopt(alloc, load, kind, key, node),
            Err(e) => Err((e, node)),
        }
    }

    fn load_end(
        &mut self,
        alloc: Global,
        load: LoadNumber,
        value: Arc<E::Node>,
    ) -> Result<EndedLoad, (Error, Option<Arc<E::Node>>)>
        requires { IsReadBy (values_at E.Node.NodeSet E.Env E.Hash.KeyHash self.old.setting.now.env) load
            (arc_value value) }
        ensures acts { Acts {S = PagerState E.Node E} (λ l. None) (λ l. record { me = l.me; environment = l.setting.now.env; lender = 0 })
            self.old self.new (λ a s t. MakesCallBringing
            (values_at E.Node.NodeSet E.Env E.Hash.KeyHash a.environment)
            (λ w'. EndCall s.core a.me load (arc_value value) (E.Node.type_of (arc_value value))
            (E.Node.refs_of (arc_value value)) (ended_of result) w')
            (λ n x. (x ≡ arc_value value) × IsCellOf s.core load n) s t) }
        ensures given { IfOk result (λ ended. ended.came ≡ true → IfKnown {S = PagerState E.Node E} None
            (λ s. ValueCall s ended.handle (Ok (Some (arc_value value))))) }
    {
        let mut pager = lock_briefly(self.pager, self.rt);
        match Lent::for_owner(&mut *pager, self.me) {
            Ok(mut lent) => lent.end_load(alloc, load, value),
            Err(e) => Err((e, Some(value))),
        }
    }

    fn load_take(&mut self, load: LoadNumber, named: &[HandleNumber]) -> Result<(), Error> {
        let mut pager = lock_briefly(self.pager, self.rt);
        Lent::for_owner(&mut *pager, self.me)?.load_take(load, named)
    }

    fn load_drop(&mut self, load: LoadNumber) -> Result<(), Error> {
        let mut pager = lock_briefly(self.pager, self.rt);
        Lent::for_owner(&mut *pager, self.me)?.load_drop(load)
    }
}

impl<'a, R: Wait, E: Env<Node: NodeSet<E>>, S: PagableStorage<E>> Locked<'a, R, E, S> {
    // Begins a pin by the caller, or fetches the cell's blob, as `Lent::begin_pin_or_fetch` does.
    #[inline(always)]
    pub(crate) fn begin_pin_or_fetch(
        &self,
        alloc: Global,
        handle: HandleNumber,
    ) -> Result<BegunFetch<E::Node>, Error>
        ensures named { IfOk result (IsNamedFetch E.Hash.digest) }
    {
        let mut pager = lock_briefly(self.pager, self.rt);
        Lent::new(&mut *pager).begin_pin_or_fetch(alloc, handle)
    }

    // Pins the cell of a leaf with a value that was read of the leaf's blob, for the caller, as
    // `Lent::pin_read_leaf` does.
    pub(crate) fn pin_read_leaf(
        &self,
        alloc: Global,
        leaf: Leaf,
        value: E::Node,
    ) -> Result<Option<(HandleNumber, Arc<E::Node>)>, Error>
        requires typed { E.Node.type_of value ≡ leaf.node_type }
        requires bare { E.Node.refs_of value ≡ [] }
        ensures value { IfOk result (λ found. IfSome found (λ pin. arc_value pin.1 ≡ value)) }
    {
        let mut pager = lock_briefly(self.pager, self.rt);
        Lent::new(&mut *pager).pin_read_leaf(alloc, leaf, value)
    }

    // Takes leaves off the page-out list, as `Lent::take_leaves` does.
    fn take_leaves(&self, alloc: Global, left: usize) -> Result<Vec<TakenLeaf<E::Node>>, Error>
        ensures { IfOk result (λ taken. vec_len taken ≤ left) }
    {
        let mut pager = lock_briefly(self.pager, self.rt);
        Ok(Lent::for_owner(&mut *pager, self.me)?.take_leaves(alloc, left))
    }

    // Stores what taken leaves were written as, as `Lent::finish_leaves` does.
    fn finish_leaves(
        &self,
        alloc: Global,
        taken: &[TakenLeaf<E::Node>],
        written: WrittenLeaves,
    ) -> Result<(), Error>
        requires { written.keys.items ≡ map (λ blob. key_of E.Hash.digest (blob_of blob)) written.blobs.items }
    {
        let mut pager = lock_briefly(self.pager, self.rt);
        Lent::for_owner(&mut *pager, self.me)?.finish_leaves(alloc, taken, written)
    }
}

// Returns whether one of the nodes before this place is the one there; false if none is known there.
fn is_listed_before(nodes: &[NodeNumber], place: usize) -> bool {
    let Some(node) = nodes.get(place) else {
        return false;
    };
    for other in &nodes[..place] {
        if other == node {
            return true;
        }
    }
    false
}

// Returns the first place behind this one, and below `end`, whose node stands before it; `end` if there is none.
fn end_of_cells(nodes: &[NodeNumber], place: usize, end: usize) -> usize
    requires { place < end }
    ensures later { place < result }
    ensures within { result ≤ end }
{
    for at in place + 1..end {
        if is_listed_before(nodes, at) {
            return at;
        }
    }
    end
}

// Returns whether two of these leaves may be of one cell: then its value is shared by both, and by the cell.
fn may_repeat<N>(taken: &[TakenLeaf<N>]) -> bool {
    for leaf in taken {
        if Arc::strong_count(&leaf.value) > 2 {
            return true;
        }
    }
    false
}

impl<'a, R: Wait, E: Env<Node: NodeSet<E>>, S: PagableStorage<E>> Locked<'a, R, E, S> {
    // Writes and hashes leaves of different cells, and stores them. Fails as the first that can't be written or
    // stored does: it and those after it go back to the list.
    fn page_out_cells(&self, alloc: Global, taken: &[TakenLeaf<E::Node>]) -> Result<(), Error> {
        let written = write_leaves(&self.setting.env, &self.setting.session, alloc, taken);
        let refused = written.refused;
        self.finish_leaves(alloc, taken, written)?;
        match refused {
            Some(e) => Err(e),
            None => Ok(()),
        }
    }

    // Puts taken leaves back to the list, as `Lent::finish_leaves` does with leaves that aren't written.
    fn give_back(&self, alloc: Global, taken: &[TakenLeaf<E::Node>]) {
        let none = WrittenLeaves {
            blobs: Vec::new(alloc),
            keys: Vec::new(alloc),
            refused: None,
        };
        let _told = self.finish_leaves(alloc, taken, none);
    }

    // Releases the handle of a taken leaf.
    fn release_taken(&self, handle: HandleNumber) -> Result<(), Error> {
        let mut pager = lock_briefly(self.pager, self.rt);
        Lent::for_owner(&mut *pager, self.me)?.release(handle)
    }

    // Returns the node of a handle.
    fn node_of(&self, handle: HandleNumber) -> Result<NodeNumber, Error> {
        lock_briefly(self.pager, self.rt).node_of(handle)
    }

    // Returns the nodes of taken leaves, if two of them may be of one cell.
    fn nodes_of(
        &self,
        alloc: Global,
        taken: &[TakenLeaf<E::Node>],
    ) -> Result<Vec<NodeNumber>, Error> {
        let mut nodes = Vec::new(alloc);
        if !may_repeat(taken) {
            return Ok(nodes);
        }
        for leaf in taken {
            let node = self.node_of(leaf.handle)?;
            nodes.push(node)?;
        }
        Ok(nodes)
    }

    // Pages out the leaves of these nodes from this place on, of which those before it are done: an entry whose
    // cell has been paged out only gives up its handle. Fails as the first that can't be written or stored
    // does: it and those after it go back to the list.
    fn page_out_taken(
        &self,
        alloc: Global,
        taken: &[TakenLeaf<E::Node>],
        nodes: &[NodeNumber],
        place: usize,
    ) -> Result<(), Error> {
        let Some(leaf) = taken.get(place) else {
            return Ok(());
        };
        if is_listed_before(nodes, place) {
            let _released = self.release_taken(leaf.handle);
            return self.page_out_taken(alloc, taken, nodes, place + 1);
        }
        let end = end_of_cells(nodes, place, taken.len());
        if let Err(e) = self.page_out_cells(alloc, &taken[place..end]) {
            self.give_back(alloc, &taken[end..]);
            return Err(e);
        }
        self.page_out_taken(alloc, taken, nodes, end)
    }
}

impl<'a, R: Wait, E: Env<Node: NodeSet<E>>, S: PagableStorage<E>> WorkerAccess<E>
    for Locked<'a, R, E, S> {
    fn check_reference(&self, reference: ArcRef) -> Result<(), Error> {
        let mut pager = lock_briefly(self.pager, self.rt);
        Lent::for_owner(&mut *pager, self.me)?.check_reference(reference)
    }

    // (a value's own references stay valid as long as the value is pinned)
    fn check_own_reference(&self, _reference: ArcRef) -> Result<(), Error> {
        Ok(())
    }

    fn pin_or_load_reference(&mut self, reference: ArcRef) -> Result<PinnedOrLoading, Error> {
        let mut pager = lock_briefly(self.pager, self.rt);
        Lent::for_owner(&mut *pager, self.me)?.pin_or_load_reference(reference)
    }

    fn pin_or_load_value(&mut self, reference: ArcRef) -> Result<TakenValue<E::Node>, Error> {
        let mut pager = lock_briefly(self.pager, self.rt);
        Lent::for_owner(&mut *pager, self.me)?.pin_or_load_value(reference)
    }

    fn set_key_and_release(&mut self, at: WorkerNode, key: DataKey) -> Result<(), Error> {
        let mut pager = lock_briefly(self.pager, self.rt);
        Lent::for_owner(&mut *pager, self.me)?.set_key_and_release(at, key)
    }

    fn store_node(
        &mut self,
        alloc: Global,
        blob: PagableData,
        at: WorkerNode,
    ) -> Result<DataKey, Error> {
        let key = blob.compute_key::<E::Hash>();
        self.store_node_keyed(alloc, key, blob, at)
    }

    fn store_node_keyed(
        &mut self,
        alloc: Global,
        key: DataKey,
        blob: PagableData,
        at: WorkerNode,
    ) -> Result<DataKey, Error> {
        let mut pager = lock_briefly(self.pager, self.rt);
        Lent::for_owner(&mut *pager, self.me)?.store_node_keyed(alloc, key, blob, at)
    }

    fn release_worker_node(&mut self, worker: WorkerNumber, node: NodeNumber) {
        let mut pager = lock_briefly(self.pager, self.rt);
        Lent::new(&mut *pager).release_worker_node(worker, node);
    }

    fn schedule_for_paging(&mut self, handle: HandleNumber) -> Result<(), Error> {
        let mut pager = lock_briefly(self.pager, self.rt);
        Lent::for_owner(&mut *pager, self.me)?.schedule_for_paging(handle)
    }

    fn worker_begin(&mut self) -> Result<WorkerNumber, Error> {
        let mut pager = lock_briefly(self.pager, self.rt);
        let worker = Lent::new(&mut *pager).worker_begin()?;
        self.me = Owner::Worker(worker);
        Ok(worker)
    }

    fn worker_listed(&mut self, place: usize) -> Result<(WorkerNumber, ArcRef), Error> {
        let mut pager = lock_briefly(self.pager, self.rt);
        let (worker, reference) = Lent::new(&mut *pager).worker_listed(place)?;
        self.me = Owner::Worker(worker);
        Ok((worker, reference))
    }

    fn worker_end(&mut self, worker: WorkerNumber) {
        let mut pager = lock_briefly(self.pager, self.rt);
        Lent::new(&mut *pager).worker_end(worker);
        self.me = Owner::Caller;
    }

    fn pending(&self) -> usize {
        lock_briefly(self.pager, self.rt).pending()
    }

    fn entry_key(&self, place: usize) -> Option<OptionalDataKey> {
        let mut pager = lock_briefly(self.pager, self.rt);
        Lent::new(&mut *pager).entry_key(place)
    }

    fn take_pending(&mut self, place: usize) -> Option<HandleNumber> {
        let mut pager = lock_briefly(self.pager, self.rt);
        match Lent::for_owner(&mut *pager, self.me) {
            Ok(mut lent) => lent.take_pending(place),
            Err(_) => None,
        }
    }

    fn release_if_keyed(&mut self, place: usize) -> Option<bool> {
        let mut pager = lock_briefly(self.pager, self.rt);
        match Lent::for_owner(&mut *pager, self.me) {
            Ok(mut lent) => lent.release_if_keyed(place),
            Err(_) => None,
        }
    }

    // Holds the lock twice for up to sixteen leaves, and writes and hashes them between the two.
    fn page_out_leaves(&mut self, alloc: Global, left: usize) -> Result<usize, Error> {
        let taken = self.take_leaves(alloc, left)?;
        match self.nodes_of(alloc, taken.as_slice()) {
            Ok(nodes) => {
                self.page_out_taken(alloc, taken.as_slice(), nodes.as_slice(), 0)?;
                Ok(left - taken.len())
            }
            Err(e) => {
                self.give_back(alloc, taken.as_slice());
                Err(e)
            }
        }
    }
}
