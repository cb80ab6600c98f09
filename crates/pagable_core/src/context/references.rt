//! The trait by which a deserializer gets a blob's references.

ghost use Rattle.pagable_value_spec.specs.{
  Refusals.may_refuse_reference,
  declared.{error.Error.{Error as Refusal, TheVariants.WrongKind}, numbers.ArcRef.ArcRef as Reference},
};
ghost use Rattle.std.specs.Prelude.{Err, IfOk, None, Option, Result, Some, option_map, true, ℕ, ◌≡◌};

use pagable_codec::{ArcRef, Env, Kind, SessionContext};
use pagable_flavors::{DataKey, Error};

/// The context of an environment's sessions.
pub type SessionOf<E> = SessionContext<<E as Env>::CtxKey, <E as Env>::CtxValue>;

/// A source of a blob's references. It also lends the deserializer the environment and the
/// session's context. A result depends on the reference's place in the blob, its key and its kind
/// alone, so a blob may be read again from its start.
pub trait References<E: Env> {
    ghost environment: { Self → E };

    // What `reference` returns for the key at a place (counted from 0), read as a kind.
    ghost answer: { Self → ℕ → ℕ → ℕ → Result Reference Refusal };

    // The node that `shared` lends for each reference that `reference` has returned.
    ghost lends: { Self → Reference → Option E.Node };

    // The reference that `reference` returns at a place, with the node that is lent for it there;
    // or None if no node is lent there.
    ghost lends_at: { Self → ℕ → Option (Reference × E.Node) };

    fn env(&self) -> &E
        ensures { result.now ≡ environment self.now };

    fn session_context(&self) -> &SessionContext<E::CtxKey, E::CtxValue>;

    /// Returns the reference at this place of the blob's list, for this key, read as this kind.
    fn reference(&mut self, place: usize, key: DataKey, kind: Kind) -> Result<ArcRef, Error>
        ensures of_kind { IfOk result (λ r. r.kind ≡ kind) }
        ensures answer { result ≡ answer self.old place key kind.0 }
        ensures lent { IfOk result (λ r. (y : E.Node) → lends self.new r ≡ Some y → lends_at self.old place
            ≡ Some (r, y)) }
        ensures same_env { environment self.new ≡ environment self.old }
        ensures same_answers { answer self.new ≡ answer self.old }
        ensures same_lent { lends_at self.new ≡ lends_at self.old };

    /// Returns the node of a reference, if the node's value was read together with the reference.
    /// Returns None if no node is lent for this reference.
    fn shared(&self, reference: ArcRef) -> Option<&E::Node>
        ensures { option_map (λ x. x.now) result ≡ lends self.now reference };

    // Each error that `reference` returns is one with which a reference may be refused.
    ghost refusals: { (s : Self) (place key kind : ℕ) (e : Refusal) → answer s place key kind ≡ Err e
        → may_refuse_reference e ≡ true };
}

/// The `References` of an environment whose values hold no references: `reference` always fails
/// with `WrongKind`.
#[derive(Drop)]
pub struct NoReferences<'e, E: Env> {
    env: &'e E,
    session: &'e SessionOf<E>,
}

impl<'e, E: Env> NoReferences<'e, E> {
    /// Makes `References` that borrow this environment and this context of the session.
    pub fn new(env: &'e E, session: &'e SessionOf<E>) -> NoReferences<'e, E>
        ensures { ⟦<NoReferences<'e, E> as References<E>>⟧.environment result ≡ env.now }
    {
        NoReferences { env, session }
    }
}

impl<'e, E: Env> References<E> for NoReferences<'e, E> {
    ghost use Rattle.std.proofs.Common.{arith};

    ghost environment = { λ s. s.env.now };

    ghost answer = { λ s place key kind. Err WrongKind };

    ghost lends = { λ s reference. None };

    ghost lends_at = { λ s place. None };

    ghost refusals = { λ s place key kind e is. Prim.grind arith };

    fn env(&self) -> &E {
        self.env
    }

    fn session_context(&self) -> &SessionContext<E::CtxKey, E::CtxValue> {
        self.session
    }

    fn reference(&mut self, _place: usize, _key: DataKey, _kind: Kind) -> Result<ArcRef, Error> {
        Err(Error::WrongKind)
    }

    fn shared(&self, _reference: ArcRef) -> Option<&E::Node> {
        None
    }
}
