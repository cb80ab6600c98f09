//! An environment for programs that work with blobs alone.

use pagable_codec::{Env, KeyHash};
use std::marker::PhantomData;

/// An environment without values. The hash `H` computes its keys.
#[derive(Drop)]
pub struct BlobEnv<H> {
    hash: PhantomData<H>,
}

impl<H: KeyHash> Env for BlobEnv<H> {
    type Node = ();

    type Hash = H;

    type CtxKey = ();

    type CtxValue = ();

    ghost use Rattle.pagable_value_spec.specs.Shape.{nothing};

    ghost parts = { λ e number. nothing };
}
