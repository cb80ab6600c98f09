//! An environment whose values are texts.

use pagable_flavors::Error;
use pagable_traits::{
    Env, KeyHash, NodeSet, OfNode, PagableDeserialize, PagableDeserializer, PagableSerialize,
    PagableSerializer,
};
use pagable_value_spec::ArcRef;
use std::alloc::Global;
use std::marker::PhantomData;
use std::sync::Arc;

/// The environment of texts, which have the type number 0. The hash `H` computes its keys.
#[derive(Drop)]
pub struct TextEnv<H> {
    hash: PhantomData<H>,
}

impl<H: KeyHash> TextEnv<H> {
    pub fn new() -> TextEnv<H> {
        TextEnv { hash: PhantomData }
    }
}

impl<H: KeyHash> Default for TextEnv<H> {
    fn default() -> TextEnv<H> {
        TextEnv::new()
    }
}

impl<H: KeyHash> Env for TextEnv<H> {
    type Node = TextNode;

    type Hash = H;

    type CtxKey = ();

    type CtxValue = ();

    ghost use Rattle.pagable_value_spec.specs.Shape.{nothing};

    ghost parts = { λ e number. nothing };
}

/// A node that holds a text.
#[derive(Drop)]
pub struct TextNode(pub Arc<String>);

impl TextNode {
    /// Makes a node that holds a copy of the text. Fails with `OutOfMemory` only.
    pub fn new(alloc: Global, text: &str) -> Result<TextNode, Error> {
        let text = String::from_str(alloc, text)?;
        Ok(TextNode(Arc::new(alloc, text)?))
    }

    /// Returns the text.
    pub fn as_str(&self) -> &str {
        self.0.as_ref().as_str()
    }
}

impl<H: KeyHash> NodeSet<TextEnv<H>> for TextNode {
    ghost use Rattle.std.specs.Prelude.{◌≡◌, [], refl};
    ghost use Rattle.pagable_traits.specs.HeldValues.{only_references};
    ghost use Rattle.pagable_value_spec.specs.{Causes.{memory_is_own_reading, text_may_refuse_writing}, Outcomes.{long_or, IsOutOfMemory}, Shape.text as text_shape};
    ghost use Rattle.named_texts.specs.Texts.{shape_of, text_of, texts_refer};

    ghost type_of = { λ n. 0 };

    ghost shape_of = { λ e t. shape_of t };

    ghost own_shape = { λ e n. text_shape };

    ghost means = { λ n m. m ≡ text_of n };

    ghost refs_of = { λ n. [] };

    ghost beside = { only_references };

    ghost write_causes = { λ t. long_or IsOutOfMemory };

    ghost read_causes = { λ t. IsOutOfMemory };

    ghost write_causes_may_refuse = { λ t. text_may_refuse_writing };

    ghost read_causes_are_own = { λ t. memory_is_own_reading };

    ghost has_meaning = { λ n. (text_of n, refl) };

    ghost refers = { texts_refer };

    ghost has_shape = { λ e n. refl };

    fn node_type(&self) -> u32 {
        0
    }

    fn refs(&self, alloc: Global) -> Result<Vec<ArcRef>, Error> {
        Ok(Vec::new(alloc))
    }

    fn write<S: PagableSerializer<TextEnv<H>>>(&self, serializer: &mut S) -> Result<(), Error> {
        self.0.as_ref().pagable_serialize(serializer)
    }

    fn read<D: PagableDeserializer<TextEnv<H>>>(
        node_type: u32,
        alloc: Global,
        deserializer: &mut D,
    ) -> Result<TextNode, Error> {
        if node_type != 0 {
            return Err(Error::WrongKind);
        }
        let text = String::pagable_deserialize(alloc, deserializer)?;
        Ok(TextNode(Arc::new(alloc, text)?))
    }
}

impl<H: KeyHash> OfNode<TextEnv<H>> for String {
    ghost use Rattle.std.specs.{Arc.arc_value, Prelude.{Some, ◌≡◌}};
    ghost use Rattle.named_texts.specs.Texts.{number_is_small, text_in};

    ghost TYPE = { 0 };

    ghost held = { text_in };

    const TYPE: u32 = 0;

    fn into_node(value: Arc<String>) -> TextNode
        ensures { text_in result ≡ Some (arc_value value) }
    {
        TextNode(value)
    }

    fn from_node(_alloc: Global, node: &TextNode) -> Result<Option<Arc<String>>, Error> {
        Ok(Some(node.0.clone()?))
    }

    ghost small = { number_is_small };
}
