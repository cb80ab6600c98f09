//! The trait of the three sorts of references, `Arc`, `PagableArc` and `PinnedPagableArc`: what can
//! be done with a reference of any sort to a value of any type.

ghost use Rattle.pagable_traits.specs.{
  Clauses.{Reads, Wrote},
  Erased.{IsValueOfHandle, NeedsPagingOut, SetsKey, any_cause_if, any_error_allowed, form_of_referred},
  References.{holding_kind, holding_name, holding_reference, loose_kind, loose_reference},
};
ghost use Rattle.pagable_value_spec.specs.{
  Cursor.HoldsLentValues,
  Outcomes.IsOutOfMemory,
  Reading.{read, read_typed},
  References.references_in,
  declared.numbers.ArcRef.ArcRef as Reference,
};
ghost use Rattle.std.specs.{
  Arc.arc_value,
  Prelude.{Bool, IfErr, IfOk, List, Option, Some, codes, false, option_map, refl, true, ℕ, ◌≡◌},
};

use crate::arc::{HoldingArc, holding_kind_of};
use crate::pagable_arc::{PagableArc, loose_kind_of};
use crate::{PagableDeserialize, PagableSerialize, Refers, Storage, references_of};
use pagable_codec::{
    ArcRef, Env, Identity, Kind, NodeSet, OfNode, PagableDeserializer, PagableSerializer,
};
use pagable_flavors::Error;
use pagable_value_spec::{DataKey, OptionalDataKey};
use std::alloc::Global;
use std::marker::PhantomData;
use std::sync::{Arc as Shared, Wait};

/// A sort of references, `Arc`, `PagableArc` or `PinnedPagableArc`, with the type of its values.
pub trait ArcErase<E: Env>: Sized {
    /// The type of the values that these references refer to.
    type Value: OfNode<E>;

    ghost KIND: { ℕ };

    ghost own_reference: { Self → Reference };

    // Says whether these references are loose.
    ghost is_paged: { Bool };

    // Says that the reference refers to this value. For a loose one it says nothing if the nodes of
    // handles aren't known.
    ghost refers_to: { Self → Option (ℕ → Option E.Node) → Self.Value → Type 0 };

    /// Returns the kind of these references.
    fn kind() -> Kind
        ensures { result.0 ≡ KIND };

    /// Returns the reference with its kind.
    fn as_reference(&self) -> ArcRef
        ensures { result ≡ own_reference self.now };

    ghost of_kind: { (a : Self) → (own_reference a).kind.0 ≡ KIND };

    /// Returns the identity by which page-out knows what the reference refers to: the kind and the
    /// node.
    fn identity(&self) -> Identity
        ensures { result ≡ record { kind = record { 0 = KIND }; node = (own_reference self.now).node } }
    {
        Identity {
            kind: Self::kind(),
            node: self.as_reference().node,
        }
    }

    /// Returns the sort of references without the type of their values.
    fn erase_type() -> StdArcEraseType<Self> {
        StdArcEraseType::new()
    }

    /// Makes the node that holds the value.
    fn into_node(value: Shared<Self::Value>) -> E::Node
        ensures { Self.Value.held result ≡ Some (arc_value value) };

    /// Returns the value that the node holds, or None if the node is of another type.
    ///
    /// # Errors
    ///
    /// - `OutOfMemory` only, if the value can't be shared once more.
    fn from_node(alloc: Global, node: &E::Node) -> Result<Option<Shared<Self::Value>>, Error>
        ensures value { IfOk result (λ found. option_map arc_value found ≡ Self.Value.held node.now) }
        ensures only { IfErr result IsOutOfMemory };

    /// Returns the references in the value that this one refers to, in the order in which each form
    /// lists them. A loose reference is followed to get the value; handles and counts are then as
    /// before.
    ///
    /// # Errors
    ///
    /// - as `PagableArc::follow`, for a loose reference.
    /// - `OutOfMemory`.
    fn refs<R: Wait, S: Storage<E>>(
        &self,
        rt: &R,
        alloc: Global,
        storage: &S,
    ) -> Result<Vec<ArcRef>, Error>
    where
        Self::Value: Refers<E> + Drop,
        ensures ok { IfOk result (λ list. (x : Self.Value) × refers_to self.now (S.nodes_by_handle storage.now) x
            × (list.items ≡ references_in (Self.Value.Carried.means.meaning x))) }
        ensures only { IfErr result (any_cause_if is_paged IsOutOfMemory) };

    /// Sets the key of a loose reference's cell, as `Storage::set_data_key` does. For a reference
    /// that isn't loose the call does nothing.
    ///
    /// # Errors
    ///
    /// - as `Storage::set_data_key`, for a loose reference.
    fn set_data_key<R: Wait, S: Storage<E>>(
        &self,
        rt: &R,
        key: DataKey,
        storage: &S,
    ) -> Result<(), Error>
        ensures { SetsKey is_paged (S.set_key_answers storage.now (own_reference self.now).handle key) result };

    /// Returns whether this is a loose reference whose cell has no key, so that the value has still
    /// to be written to the storage.
    ///
    /// # Errors
    ///
    /// - as `Storage::key`, for a loose reference.
    fn needs_paging_out<R: Wait, S: Storage<E>>(&self, rt: &R, storage: &S) -> Result<bool, Error>
        ensures { NeedsPagingOut is_paged (S.key_answers storage.now (own_reference self.now).handle) result };

    /// Writes the value that this reference refers to, as the value's type does. A loose reference
    /// is followed to get the value; handles and counts are then as before.
    ///
    /// # Errors
    ///
    /// - as `PagableArc::follow`, for a loose reference: nothing is written.
    /// - as the value's `pagable_serialize`: what was written before stays in place.
    fn serialize_inner<R: Wait, S: Storage<E>, W: PagableSerializer<E>>(
        &self,
        rt: &R,
        alloc: Global,
        storage: &S,
        serializer: &mut W,
    ) -> Result<(), Error>
    where
        Self::Value: PagableSerialize<E> + Drop,
        ensures { Wrote E.Env W.PagableSerializer
            (form_of_referred is_paged (refers_to self.now (S.nodes_by_handle storage.now)) Self.Value.Carried.means.of
            (Self.Value.Carried.shape (W.environment serializer.old)))
            (any_cause_if is_paged Self.Value.PagableSerialize.write_causes.are) serializer.old serializer.new result };
}

/// A sort of references, without the type of their values.
pub trait ArcEraseType {
    ghost name: { List ℕ };

    /// Returns `Arc`, `PagableArc` or `PinnedPagableArc`.
    fn type_name(&self) -> &'static str
        ensures { result.now ≡ name };
}

/// The sort of the reference type `A`: `Arc`, `PagableArc` or `PinnedPagableArc`.
#[derive(Drop)]
pub struct StdArcEraseType<A> {
    sort: PhantomData<A>,
}

impl<A> StdArcEraseType<A> {
    /// Creates the sort. It holds no data.
    pub fn new() -> StdArcEraseType<A> {
        StdArcEraseType { sort: PhantomData }
    }

    /// Creates the sort, as `new` does.
    pub fn default() -> StdArcEraseType<A> {
        StdArcEraseType::new()
    }
}

impl<T> ArcEraseType for StdArcEraseType<PagableArc<T>> {
    ghost name = { codes "PagableArc" };

    fn type_name(&self) -> &'static str {
        "PagableArc"
    }
}

impl<T, const PINS: bool> ArcEraseType for StdArcEraseType<HoldingArc<T, PINS>> {
    ghost name = { holding_name PINS };

    fn type_name(&self) -> &'static str {
        if PINS { "PinnedPagableArc" } else { "Arc" }
    }
}

impl<E: Env, T: OfNode<E>> ArcErase<E> for PagableArc<T> {
    type Value = T;

    ghost KIND = { loose_kind T.TYPE };

    ghost own_reference = { loose_reference T.TYPE };

    ghost is_paged = { true };

    ghost refers_to = { λ a nodes x. IsValueOfHandle T.held nodes a.handle.0 x };

    ghost of_kind = { λ a. refl };

    fn kind() -> Kind {
        loose_kind_of::<E, T>()
    }

    fn as_reference(&self) -> ArcRef {
        self.reference::<E>()
    }

    fn into_node(value: Shared<T>) -> E::Node
        ensures { T.held result ≡ Some (arc_value value) }
    {
        T::into_node(value)
    }

    fn from_node(alloc: Global, node: &E::Node) -> Result<Option<Shared<T>>, Error>
        ensures value { IfOk result (λ found. option_map arc_value found ≡ T.held node.now) }
        ensures only { IfErr result IsOutOfMemory }
    {
        T::from_node(alloc, node)
    }

    fn refs<R: Wait, S: Storage<E>>(
        &self,
        rt: &R,
        alloc: Global,
        storage: &S,
    ) -> Result<Vec<ArcRef>, Error>
    where
        T: Refers<E> + Drop,
        ensures ok { IfOk result (λ list. (x : T) × IsValueOfHandle T.held (S.nodes_by_handle storage.now)
            self.now.handle.0 x × (list.items ≡ references_in (T.Carried.means.meaning x))) }
        ensures only { IfErr result (any_cause_if true IsOutOfMemory) }
    {
        match self.follow(rt, alloc, storage) {
            Ok(pin) => {
                let references = references_of(alloc, pin.get());
                let _told = pin.release(rt, storage);
                references
            }
            Err(e) => Err(e),
        }
    }

    fn set_data_key<R: Wait, S: Storage<E>>(
        &self,
        rt: &R,
        key: DataKey,
        storage: &S,
    ) -> Result<(), Error> {
        self.set_key(rt, key, storage)
    }

    fn needs_paging_out<R: Wait, S: Storage<E>>(&self, rt: &R, storage: &S) -> Result<bool, Error> {
        match self.key(rt, storage) {
            Ok(OptionalDataKey::None) => Ok(true),
            Ok(OptionalDataKey::Some(_)) => Ok(false),
            Err(e) => Err(e),
        }
    }

    fn serialize_inner<R: Wait, S: Storage<E>, W: PagableSerializer<E>>(
        &self,
        rt: &R,
        alloc: Global,
        storage: &S,
        serializer: &mut W,
    ) -> Result<(), Error>
    where
        T: PagableSerialize<E> + Drop,
        ensures { Wrote E.Env W.PagableSerializer
            (form_of_referred true (λ x. IsValueOfHandle T.held (S.nodes_by_handle storage.now) self.now.handle.0 x)
            T.Carried.means.of (T.Carried.shape (W.environment serializer.old)))
            (any_cause_if true T.PagableSerialize.write_causes.are) serializer.old serializer.new result }
    {
        match self.follow(rt, alloc, storage) {
            Ok(pin) => {
                let written = pin.get().pagable_serialize(serializer);
                let _told = pin.release(rt, storage);
                written
            }
            Err(e) => Err(e),
        }
    }
}

impl<E: Env, T: OfNode<E>, const PINS: bool> ArcErase<E> for HoldingArc<T, PINS> {
    type Value = T;

    ghost KIND = { holding_kind T.TYPE PINS };

    ghost own_reference = { holding_reference T.TYPE PINS };

    ghost is_paged = { false };

    ghost refers_to = { λ a nodes x. x ≡ arc_value a.value };

    ghost of_kind = { λ a. refl };

    fn kind() -> Kind {
        holding_kind_of::<E, T>(PINS)
    }

    fn as_reference(&self) -> ArcRef {
        self.reference::<E>()
    }

    fn into_node(value: Shared<T>) -> E::Node
        ensures { T.held result ≡ Some (arc_value value) }
    {
        T::into_node(value)
    }

    fn from_node(alloc: Global, node: &E::Node) -> Result<Option<Shared<T>>, Error>
        ensures value { IfOk result (λ found. option_map arc_value found ≡ T.held node.now) }
        ensures only { IfErr result IsOutOfMemory }
    {
        T::from_node(alloc, node)
    }

    fn refs<R: Wait, S: Storage<E>>(
        &self,
        _rt: &R,
        alloc: Global,
        _storage: &S,
    ) -> Result<Vec<ArcRef>, Error>
    where
        T: Refers<E> + Drop,
        ensures ok { IfOk result (λ list. (x : T) × (x ≡ arc_value self.now.value)
            × (list.items ≡ references_in (T.Carried.means.meaning x))) }
        ensures only { IfErr result (any_cause_if false IsOutOfMemory) }
    {
        references_of(alloc, self.get())
    }

    fn set_data_key<R: Wait, S: Storage<E>>(
        &self,
        _rt: &R,
        _key: DataKey,
        _storage: &S,
    ) -> Result<(), Error> {
        Ok(())
    }

    fn needs_paging_out<R: Wait, S: Storage<E>>(
        &self,
        _rt: &R,
        _storage: &S,
    ) -> Result<bool, Error> {
        Ok(false)
    }

    fn serialize_inner<R: Wait, S: Storage<E>, W: PagableSerializer<E>>(
        &self,
        _rt: &R,
        _alloc: Global,
        _storage: &S,
        serializer: &mut W,
    ) -> Result<(), Error>
    where
        T: PagableSerialize<E> + Drop,
        ensures { Wrote E.Env W.PagableSerializer
            (form_of_referred false (λ x. x ≡ arc_value self.now.value) T.Carried.means.of
            (T.Carried.shape (W.environment serializer.old)))
            (any_cause_if false T.PagableSerialize.write_causes.are) serializer.old serializer.new result }
    {
        self.get().pagable_serialize(serializer)
    }
}

// Reads a node of the type, and returns its value.
fn read_node_value<E: Env<Node: NodeSet<E>>, T: OfNode<E> + Drop, D: PagableDeserializer<E>>(
    alloc: Global,
    deserializer: &mut D,
) -> Result<Shared<T>, Error>
    ensures { Reads E.Env D.PagableDeserializer any_error_allowed
        (λ v m. (n : E.Node) × (T.held n ≡ Some (arc_value v)) × E.Node.means n m)
        (λ c. read_typed c (E.Node.shape_of (D.environment deserializer.old) T.TYPE))
        deserializer.old deserializer.new result }
{
    let node = match E::Node::read(T::TYPE, alloc, deserializer) {
        Ok(node) => node,
        Err(e) => return Err(e),
    };
    match T::from_node(alloc, &node) {
        Ok(Some(value)) => Ok(value),
        Ok(None) => Err(Error::WrongKind),
        Err(e) => Err(e),
    }
}

// A method of a trait can't have a bound on the environment's nodes, so each sort of references has
// `deserialize_inner` outside the trait `ArcErase`.

impl<T> PagableArc<T> {
    /// Reads a value as a node of its type is read, inserts it into the storage as a new node, and
    /// returns the first reference to it.
    ///
    /// # Errors
    ///
    /// - as `NodeSet::read`.
    /// - `OutOfMemory` if the value can't be shared.
    /// - as `Storage::insert`: the value is dropped; the handles in it are the caller's.
    pub fn deserialize_inner<
        E: Env<Node: NodeSet<E>>,
        R: Wait,
        S: Storage<E>,
        D: PagableDeserializer<E>,
    >(rt: &R, alloc: Global, storage: &S, deserializer: &mut D) -> Result<PagableArc<T>, Error>
    where
        T: OfNode<E> + Drop,
        ensures { Reads E.Env D.PagableDeserializer any_error_allowed
            (λ a m. (x : T) × IsValueOfHandle T.held (S.nodes_by_handle storage.now) a.handle.0 x
            × ((n : E.Node) × (T.held n ≡ Some x) × E.Node.means n m))
            (λ c. read_typed c (E.Node.shape_of (D.environment deserializer.old) T.TYPE))
            deserializer.old deserializer.new result }
    {
        let value = match read_node_value::<E, T, D>(alloc, deserializer) {
            Ok(value) => value,
            Err(e) => return Err(e),
        };
        match PagableArc::new(rt, alloc, value, storage) {
            Ok(reference) => Ok(reference),
            Err((e, _value)) => Err(e),
        }
    }
}

impl<T, const PINS: bool> HoldingArc<T, PINS> {
    /// Reads a value as a node of its type is read, inserts it into the storage as a new node, and
    /// returns the first reference to it.
    ///
    /// # Errors
    ///
    /// - as `NodeSet::read`.
    /// - `OutOfMemory` if the value can't be shared.
    /// - as `Storage::insert`: the value is dropped; the handles in it are the caller's.
    pub fn deserialize_inner<
        E: Env<Node: NodeSet<E>>,
        R: Wait,
        S: Storage<E>,
        D: PagableDeserializer<E>,
    >(
        rt: &R,
        alloc: Global,
        storage: &S,
        deserializer: &mut D,
    ) -> Result<HoldingArc<T, PINS>, Error>
    where
        T: OfNode<E> + Drop,
        ensures { Reads E.Env D.PagableDeserializer any_error_allowed
            (λ a m. (x : T) × (x ≡ arc_value a.value) × ((n : E.Node) × (T.held n ≡ Some x) × E.Node.means n m))
            (λ c. read_typed c (E.Node.shape_of (D.environment deserializer.old) T.TYPE))
            deserializer.old deserializer.new result }
    {
        let value = match read_node_value::<E, T, D>(alloc, deserializer) {
            Ok(value) => value,
            Err(e) => return Err(e),
        };
        match HoldingArc::new(rt, alloc, value, storage) {
            Ok(reference) => Ok(reference),
            Err((e, _value)) => Err(e),
        }
    }
}

/// Reads the next reference as one of this sort.
///
/// # Errors
///
/// - as the sort's `pagable_deserialize`.
pub fn deserialize_arc<
    'de,
    E: Env,
    A: ArcErase<E> + PagableDeserialize<'de, E>,
    D: PagableDeserializer<E>,
>(alloc: Global, deserializer: &mut D) -> Result<A, Error>
    ensures reads { Reads E.Env D.PagableDeserializer A.read_causes.are A.means.of
        (λ c. read c (A.shape (D.environment deserializer.old))) deserializer.old deserializer.new result }
    ensures holds { IfOk result (HoldsLentValues (D.input_state deserializer.old) A.beside) }
{
    A::pagable_deserialize(alloc, deserializer)
}
