//! An environment for programs that need no types of their own. A record has a tag, a text and
//! references to other records.

ghost use Rattle.pagable_nodes.specs.{Nodes.{holds_one, one_held, zero_is_small}, Records.{IsRecord, record_encoding}};
ghost use Rattle.pagable_traits.specs.{
  HeldValues.only_references,
  ReadBack.IsReadableThroughout,
  References.{loose_reference, raw_reference},
};
ghost use Rattle.std.specs.{Arc.arc_value, Prelude.{IfOk, Some, refl, ◌≡◌}};

use crate::node_value::NodeValue;
use crate::one_node::{OneNode, write_with_refs};
use pagable_core::Sha256Key;
use pagable_flavors::Error;
use pagable_traits::{
    ArcRef, Canonical, Carried, Env, InNode, OfNode, OneMeaning, PagableArc, PagableDeserialize,
    PagableDeserializer, PagableSerialize, PagableSerializer, RawRef, Refers, references_of,
};
use std::alloc::Global;
use std::sync::Arc;

/// The environment of records, which have the type number 0. Keys are computed by SHA-256.
#[derive(Drop)]
pub struct Records;

impl Default for Records {
    fn default() -> Records {
        Records
    }
}

impl Env for Records {
    type Node = RecordNode;

    type Hash = Sha256Key;

    type CtxKey = ();

    type CtxValue = ();

    ghost use Rattle.pagable_value_spec.specs.Shape.{nothing};

    ghost parts = { λ e number. nothing };
}

/// A node that holds a record.
pub type RecordNode = OneNode<Record>;

/// A reference to a record, as a record holds it. A record is read without the values of its
/// references.
pub type RecordRef = RawRef<1>;

/// A record: a tag, a text, and references to other records in their order.
#[derive(Drop)]
pub struct Record {
    /// The record's sort, a number that the program chooses.
    pub tag: u32,
    /// The record's content.
    pub text: String,
    /// The records that it refers to.
    pub refs: Vec<RecordRef>,
}

impl Record {
    /// Makes a record with a copy of this text.
    ///
    /// # Errors
    ///
    /// - `OutOfMemory`: the references are dropped.
    pub fn new(alloc: Global, tag: u32, text: &str, refs: Vec<RecordRef>) -> Result<Record, Error>
        ensures { IfOk result (λ r. IsRecord tag text.now refs r) }
    {
        let text = String::from_str(alloc, text)?;
        Ok(Record { tag, text, refs })
    }

    /// Makes the node of a record with a copy of this text, as `insert` takes it.
    ///
    /// # Errors
    ///
    /// - `OutOfMemory`: the references are dropped.
    pub fn node(
        alloc: Global,
        tag: u32,
        text: &str,
        refs: Vec<RecordRef>,
    ) -> Result<RecordNode, Error>
        ensures { IfOk result (λ n. IsRecord tag text.now refs (arc_value n.value)) }
    {
        let made = Record::new(alloc, tag, text, refs)?;
        Ok(OneNode::new(Arc::new(alloc, made)?))
    }

    /// Turns a loose reference to a record into a `RecordRef`, which a record can hold.
    pub fn reference(of: PagableArc<Record>) -> RecordRef
        ensures { raw_reference 1 result ≡ loose_reference 0 of }
    {
        match RawRef::from_reference(of.reference::<Records>()) {
            Some(reference) => reference,
            None => unreachable!(),
        }
    }
}

impl<E: Env> Carried<E> for Record {
    ghost shape = { λ e. record_encoding.shape };

    ghost means = { record_encoding.means };
}

impl<E: Env> OneMeaning<E> for Record {
    ghost single = { record_encoding.single };
}

/// Equal records are written alike, so they have equal keys.
impl<E: Env> Canonical<E> for Record {
    ghost one_form = { λ e. record_encoding.one_form (E.parts e) };
}

impl<E: Env> Refers<E> for Record {
    fn list_references(&self, list: &mut Vec<ArcRef>) -> Result<(), Error> {
        let fields = (&self.tag, (&self.text, &self.refs));
        Refers::<E>::list_references(&fields, list)
    }

    ghost in_order = { λ e. record_encoding.in_order (E.parts e) };
}

impl<E: Env> PagableSerialize<E> for Record {
    ghost write_causes = { record_encoding.writes };

    fn pagable_serialize<S: PagableSerializer<E>>(&self, serializer: &mut S) -> Result<(), Error> {
        let fields = (&self.tag, (&self.text, &self.refs));
        fields.pagable_serialize(serializer)
    }
}

impl<'de, E: Env> PagableDeserialize<'de, E> for Record {
    ghost read_causes = { record_encoding.reads };

    fn pagable_deserialize<D: PagableDeserializer<E>>(
        alloc: Global,
        deserializer: &mut D,
    ) -> Result<Self, Error> {
        let fields = PagableDeserialize::pagable_deserialize(alloc, deserializer)?;
        let (tag, (text, refs)) = fields;
        Ok(Record { tag, text, refs })
    }
}

impl<E: Env> NodeValue<E> for Record {
    ghost encoding = { record_encoding };

    ghost beside = { only_references };

    fn list_refs(&self, alloc: Global) -> Result<Vec<ArcRef>, Error> {
        references_of::<E, Record>(alloc, self)
    }

    fn write<S: PagableSerializer<E>>(&self, serializer: &mut S) -> Result<(), Error> {
        write_with_refs(self, serializer)
    }

    fn read<D: PagableDeserializer<E>>(
        alloc: Global,
        deserializer: &mut D,
    ) -> Result<Record, Error> {
        Record::pagable_deserialize(alloc, deserializer)
    }
}

impl OfNode<Records> for Record {
    ghost TYPE = { 0 };

    ghost held = { one_held };

    const TYPE: u32 = 0;

    fn into_node(value: Arc<Record>) -> RecordNode
        ensures { one_held result ≡ Some (arc_value value) }
    {
        OneNode::new(value)
    }

    fn from_node(alloc: Global, node: &RecordNode) -> Result<Option<Arc<Record>>, Error> {
        Ok(Some(node.value.clone()?))
    }

    ghost small = { zero_is_small };
}

impl InNode<Records> for Record {
    ghost holds = { holds_one record_encoding.means };

    ghost shape_is = { λ e. refl };

    ghost writes_as = { λ e h. h };

    ghost reads_as = { λ e h. h };
}

/// Proves that a reader reads back each form of a record.
#[tactic(auto, using(crate::specs::Records::record_is_read))]
pub fn records_are_read<E: Env>()
    ensures { (e : E) → IsReadableThroughout (E.parts e) (⟦<Record as Carried<E>>⟧.shape e) }
{}
