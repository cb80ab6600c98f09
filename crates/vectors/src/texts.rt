//! An environment of texts and of references to texts, and a storage for it that counts how often it
//! is asked to store.

ghost use Rattle.pagable_nodes.specs.Encoding.{many, one, text as text_encoding};
ghost use Rattle.pagable_traits.specs.HeldValues.{lists_beside, only_references};

use futures::task::{Context, Poll};
use pagable::{
    ArcRef, DataKey, EitherNode, Env, Error, HandleNumber, InMemoryBlobs, OneNode, OptionalDataKey,
    PagableData, PagableDeserialize, PagableDeserializer, PagableSerializer, PagableStorage, Pager,
    RawRef, WeighHash, references_of, write_with_refs,
};
use pagable_nodes::NodeValue;
use std::alloc::Global;
use std::sync::Arc;

/// The environment: texts (type number 0), lists of shared references to texts (1), and one such
/// reference (2). Keys are sums of each byte times its place.
#[derive(Drop)]
pub struct Texts;

/// A node of the environment.
pub type TextNode = EitherNode<String, Vec<RawRef<0>>, RawRef<0>>;

/// A pager of texts.
pub type TextPager = Pager<Texts, CountingBlobs>;

impl Env for Texts {
    type Node = TextNode;

    type Hash = WeighHash;

    type CtxKey = ();

    type CtxValue = ();

    ghost use Rattle.pagable_value_spec.specs.Shape.{nothing};

    ghost parts = { λ e number. nothing };
}

impl NodeValue<Texts> for String {
    ghost encoding = { text_encoding };

    ghost beside = { only_references };

    fn list_refs(&self, alloc: Global) -> Result<Vec<ArcRef>, Error> {
        references_of::<Texts, String>(alloc, self)
    }

    fn write<S: PagableSerializer<Texts>>(&self, serializer: &mut S) -> Result<(), Error> {
        write_with_refs(self, serializer)
    }

    fn read<D: PagableDeserializer<Texts>>(
        alloc: Global,
        deserializer: &mut D,
    ) -> Result<String, Error> {
        String::pagable_deserialize(alloc, deserializer)
    }
}

impl NodeValue<Texts> for Vec<RawRef<0>> {
    ghost encoding = { many (one 0) };

    ghost beside = { λ v. lists_beside only_references v.items };

    fn list_refs(&self, alloc: Global) -> Result<Vec<ArcRef>, Error> {
        references_of::<Texts, Vec<RawRef<0>>>(alloc, self)
    }

    fn write<S: PagableSerializer<Texts>>(&self, serializer: &mut S) -> Result<(), Error> {
        write_with_refs(self, serializer)
    }

    fn read<D: PagableDeserializer<Texts>>(
        alloc: Global,
        deserializer: &mut D,
    ) -> Result<Vec<RawRef<0>>, Error> {
        PagableDeserialize::pagable_deserialize(alloc, deserializer)
    }
}

impl NodeValue<Texts> for RawRef<0> {
    ghost encoding = { one 0 };

    ghost beside = { only_references };

    fn list_refs(&self, alloc: Global) -> Result<Vec<ArcRef>, Error> {
        references_of::<Texts, RawRef<0>>(alloc, self)
    }

    fn write<S: PagableSerializer<Texts>>(&self, serializer: &mut S) -> Result<(), Error> {
        write_with_refs(self, serializer)
    }

    fn read<D: PagableDeserializer<Texts>>(
        alloc: Global,
        deserializer: &mut D,
    ) -> Result<RawRef<0>, Error> {
        PagableDeserialize::pagable_deserialize(alloc, deserializer)
    }
}

/// A storage in memory that counts the calls of `store_data`, up to 2^32 - 1.
#[derive(Drop)]
pub struct CountingBlobs {
    pub blobs: InMemoryBlobs<Texts>,
    pub stores: u32,
}

impl PagableStorage<Texts> for CountingBlobs {
    ghost stored = { λ s. ⟦<InMemoryBlobs<Texts> as PagableStorage<Texts>>⟧.stored s.blobs };

    ghost flushed = { λ s. ⟦<InMemoryBlobs<Texts> as PagableStorage<Texts>>⟧.flushed s.blobs };

    ghost is_closed = { λ s. ⟦<InMemoryBlobs<Texts> as PagableStorage<Texts>>⟧.is_closed s.blobs };

    ghost failed = { λ s. ⟦<InMemoryBlobs<Texts> as PagableStorage<Texts>>⟧.failed s.blobs };

    fn fetch_data_blocking(
        &mut self,
        alloc: Global,
        key: DataKey,
    ) -> Result<Arc<PagableData>, Error> {
        self.blobs.fetch_data_blocking(alloc, key)
    }

    fn fetch_data(
        &mut self,
        cx: &mut Context<'_>,
        alloc: Global,
        key: DataKey,
    ) -> Poll<Result<Arc<PagableData>, Error>> {
        self.blobs.fetch_data(cx, alloc, key)
    }

    fn store_data(&mut self, alloc: Global, blob: PagableData) -> Result<DataKey, Error> {
        self.stores = self.stores.saturating_add(1);
        self.blobs.store_data(alloc, blob)
    }

    fn flush(&mut self) -> Result<(), Error> {
        self.blobs.flush()
    }

    fn close(&mut self) {
        self.blobs.close();
    }

    fn has_closed(&self) -> bool {
        self.blobs.has_closed()
    }

    fn failures(&self) -> u64 {
        self.blobs.failures()
    }
}

/// Makes a pager without cells, over a storage without blobs.
pub fn new_pager(alloc: Global) -> TextPager {
    let blobs = InMemoryBlobs::new(alloc);
    Pager::new(alloc, CountingBlobs { blobs, stores: 0 }, Texts)
}

/// Replaces the pager by a new one, and lends it.
pub fn renew(alloc: Global, pager: &mut TextPager) -> &mut TextPager {
    *pager = new_pager(alloc);
    pager
}

/// Makes the node of a text.
pub fn text(alloc: Global, text: &str) -> Result<TextNode, Error> {
    let text = String::from_str(alloc, text)?;
    Ok(EitherNode::First(OneNode::new(Arc::new(alloc, text)?)))
}

/// Says whether a node holds this text.
pub fn is_text(node: &TextNode, wanted: &str) -> bool {
    match node {
        EitherNode::First(text) => text.value.as_str() == wanted,
        _ => false,
    }
}

/// How a cell stands: how many handles pin it, the number of its key or 0, and whether it is paged
/// out.
pub fn state(pager: &TextPager, handle: HandleNumber) -> Result<(u64, u128, bool), Error> {
    let key = match pager.key(handle)? {
        OptionalDataKey::Some(key) => key.get(),
        OptionalDataKey::None => 0,
    };
    Ok((pager.count(handle)?, key, pager.is_paged_out(handle)?))
}
