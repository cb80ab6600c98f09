//! Tagged values: a value of one of several types is written as its type's tag and its body, and
//! read by the reader that is registered for the tag. Callers pass registries in; there are no
//! globals.

ghost use Rattle.pagable_traits.specs.{
  Clauses.{Reads, Wrote, value as form},
  Meanings.Meanings,
  OwnCauses.{ReadCauses, WriteCauses},
  ReadBack.IsReadableThroughout,
};
ghost use Rattle.pagable_value_spec.specs.{
  BasicValues.{longest, text_at, text_form},
  CarriedTypes.tagged_by,
  Cursor.{HoldsLentValues, MovesOn},
  Lengths.long_or_memory,
  Outcomes.{IsOutOfMemory, MatchesReading, long_or, memory_or},
  Reading.{bytes_of, read},
  Shape.{Shape, tagged},
  Tagged.{HasDistinctTags, IsLastFor, MeansTagged, NoneFor, ReadsWhatIsWritten, grammars},
  Writing.{Grows, added},
  declared.numbers.ArcRef.ArcRef as Reference,
};
ghost use Rattle.std.specs.{
  Prelude.{Bool, IfErr, IfNone, IfOk, IfSome, List, None, OnOk, Option, Some, length, map, ℕ, [], ◌≡◌, ◌≤◌},
  Str.IsUtf8,
  String.string_bytes,
};

use pagable_codec::{Env, PagableDeserializer, PagableSerializer, Reader};
use pagable_flavors::Error;
use std::alloc::Global;
use std::marker::{Model, PhantomData};

/// A type whose values are written as a tag and a body, such as an enum with one case for each tag.
pub trait PagableTagged<E: Env>: Sized {
    // The tag of a value.
    ghost tag: { Self → List ℕ };

    // The shape of the bodies under each tag.
    ghost bodies: { E → List ℕ → Shape };

    // What the body of a value may mean.
    ghost body_means: { Meanings Self };

    // Says that what the body holds beside this reference, wherever it holds the reference, is the
    // value of this node. By default it says nothing, which fits values that hold only references.
    ghost body_holds_target: { Self → Reference → E.Node → Type 0 } = { λ x r y. Unit {0} };

    // All errors of writing a body, those included that say that the body has no form.
    ghost body_causes: { WriteCauses };

    /// Returns the value's tag.
    fn pagable_type_tag(&self) -> &'static str
        ensures { result.now ≡ tag self.now };

    /// Writes the body without the tag, as `PagableSerialize` writes a value.
    fn pagable_serialize_body<S: PagableSerializer<E>>(
        &self,
        serializer: &mut S,
    ) -> Result<(), Error>
        ensures { Wrote E.Env S.PagableSerializer (form (body_means.of self.now)
            (bodies (S.environment serializer.old) (tag self.now))) body_causes.are serializer.old
            serializer.new result };

    /// Writes the tag and then the body, even if the tag isn't registered.
    ///
    /// # Errors
    ///
    /// - `TooLong` for a tag above 4,294,967,295 bytes.
    /// - `OutOfMemory`.
    /// - as `pagable_serialize_body`.
    #[tactic(auto, using(crate::proofs::Items::writes, crate::proofs::Parts::only_parts, pagable_codec::proofs::Writing::grows_trans, crate::proofs::Registered::writes))]
    final fn serialize_tagged<S: PagableSerializer<E>>(
        &self,
        serializer: &mut S,
    ) -> Result<(), Error>
        ensures { (known : List ℕ → Bool) (read : List ℕ → Shape) → Wrote E.Env S.PagableSerializer
            (form (MeansTagged (tag self.now) (body_means.of self.now))
            (tagged (bodies (S.environment serializer.old)) known read)) (long_or (memory_or body_causes.are))
            serializer.old serializer.new result }
    {
        write_tag(self.pagable_type_tag(), serializer)?;
        self.pagable_serialize_body(serializer)
    }
}

/// Writes a tag. Fails with `TooLong` above 4,294,967,295 bytes, else only with `OutOfMemory`.
#[tactic(auto, using(pagable_codec::proofs::Writing::parts, pagable_codec::proofs::Writing::steps))]
fn write_tag<E: Env, S: PagableSerializer<E>>(tag: &str, serializer: &mut S) -> Result<(), Error>
    ensures ok { OnOk result (S.out serializer.new ≡ added (S.out serializer.old) (text_form tag.now) []) }
    ensures within { OnOk result (length tag.now ≤ longest) }
    ensures text { IsUtf8 tag.now }
    ensures only { IfErr result (long_or_memory (length tag.now)) }
    ensures grows { Grows (S.out serializer.old) (S.out serializer.new) }
    ensures same_env { S.environment serializer.new ≡ S.environment serializer.old }
    ensures same_levels { S.levels serializer.new ≡ S.levels serializer.old }
{
    serializer.serde().write_str(tag)
}

/// Marks a type as registered for `T`.
pub trait PagableRegisteredFor<T> {}

/// A reader that knows the tag of the values that it returns.
pub trait HasOwnTag {
    ghost own_tag: { Self → List ℕ };
}

/// The readers of the bodies of `T`: one type for all tags, such as an enum with one case for each
/// tag.
pub trait TagReader<E: Env, T: PagableTagged<E>>: HasOwnTag {
    // The shape of the bodies that the reader reads, in an environment.
    ghost grammar: { Self → E → Shape };

    // The errors of reading other than faults of the input and errors of references.
    ghost read_causes: { ReadCauses };

    /// Reads a body, as `PagableDeserialize` reads a value. The returned value has the reader's
    /// tag. If the value holds what its references refer to, it holds what the deserializer lent
    /// for them.
    fn read<D: PagableDeserializer<E>>(
        &self,
        alloc: Global,
        deserializer: &mut D,
    ) -> Result<T, Error>
        ensures reads { Reads E.Env D.PagableDeserializer read_causes.are T.body_means.of
            (λ c. read c (grammar self.now (D.environment deserializer.old))) deserializer.old deserializer.new result }
        ensures of_tag { IfOk result (λ x. T.tag x ≡ Self.own_tag self.now) }
        ensures holds { IfOk result (HoldsLentValues (D.input_state deserializer.old) T.body_holds_target) };
}

/// A tag, and the reader of the bodies under it, which returns values with this tag.
#[derive(Drop)]
pub struct TypetagRegistration<T, F: HasOwnTag> {
    pub tag: String,
    pub deserialize: F,
    pub value_type: PhantomData<T>,
    ghost own: { F.own_tag deserialize ≡ string_bytes tag },
}

impl<T, F: HasOwnTag> TypetagRegistration<T, F> {
    /// Makes the registration of a reader under this tag, which must be the reader's own. It isn't
    /// in a registry yet.
    pub fn new(tag: String, deserialize: F) -> Self
        requires { F.own_tag deserialize ≡ string_bytes tag }
        ensures tag { result.tag ≡ tag }
        ensures reader { result.deserialize ≡ deserialize }
    {
        TypetagRegistration {
            tag,
            deserialize,
            value_type: PhantomData,
        }
    }
}

/// The registrations for `T`, in the order in which they were made.
#[derive(Drop)]
pub struct TypetagRegistry<T, F: HasOwnTag> {
    registrations: Vec<TypetagRegistration<T, F>>,
}

impl<T, F: HasOwnTag> Model for TypetagRegistry<T, F> {
    ghost Value = { List (List ℕ × F) };

    ghost view = { λ r. map (λ x. (string_bytes x.tag, x.deserialize)) r.registrations.items };
}

impl<T, F: HasOwnTag> TypetagRegistry<T, F> {
    /// Makes the registry of these registrations. If a tag is registered twice, the last
    /// registration counts.
    pub fn from_registrations(registrations: Vec<TypetagRegistration<T, F>>) -> Self
        ensures { result ≡ map (λ x. (string_bytes x.tag, x.deserialize)) registrations.items }
    {
        TypetagRegistry { registrations }
    }

    /// Returns the reader that was registered last for this tag, or None if the tag has none.
    pub fn reader_of(&self, tag: &str) -> Option<&F>
        ensures found { IfSome result (λ f. IsLastFor tag.now self.now f.now) }
        ensures own { IfSome result (λ f. F.own_tag f.now ≡ tag.now) }
        ensures missing { IfNone result (NoneFor tag.now self.now) }
    {
        last_reader(&self.registrations, tag)
    }

    /// Reads a tag, and then the body by the reader that this registry has for the tag (the last
    /// one registered). The returned value has the tag that was read. If the value holds what its
    /// references refer to, it holds what the deserializer lent for them. The function
    /// `deserialize_tagged` uses the environment's registry instead.
    ///
    /// # Errors
    ///
    /// - `UnknownTag` if no reader is registered for the tag.
    /// - `OutOfMemory`, a fault of the input, or an error of the reader.
    #[tactic(auto, unfolding(pagable_value_spec::specs::Reading::read, pagable_value_spec::specs::Reading::read_with), using(pagable_codec::proofs::Reading::parts, crate::proofs::Lent::held_so))]
    pub fn deserialize_tagged<E: Env, D: PagableDeserializer<E>>(
        &self,
        alloc: Global,
        deserializer: &mut D,
    ) -> Result<T, Error>
    where
        T: PagableTagged<E>,
        F: TagReader<E, T>,
        ensures reads { (written : List ℕ → Shape) → Reads E.Env D.PagableDeserializer (memory_or F.read_causes.are)
            (λ x. MeansTagged (T.tag x) (T.body_means.of x))
            (λ c. read c (tagged_by written (grammars F.grammar (D.environment deserializer.old) self.now)))
            deserializer.old deserializer.new result }
        ensures holds { IfOk result (HoldsLentValues (D.input_state deserializer.old) T.body_holds_target) }
    {
        let tag = read_tag(alloc, deserializer)?;
        let found = self.reader_of(tag.as_str());
        let Some(reader) = found else {
            return Err(Error::UnknownTag);
        };
        reader.read(alloc, deserializer)
    }
}

/// Returns the reader of the last registration for this tag, or None if there is none.
#[tactic(auto, using(crate::proofs::Registered::none_past))]
fn last_reader<'r, T, F: HasOwnTag>(
    registrations: &'r [TypetagRegistration<T, F>],
    tag: &str,
) -> Option<&'r F>
    ensures found { IfSome result (λ f. IsLastFor tag.now
        (map (λ x. (string_bytes x.tag, x.deserialize)) registrations.now) f.now) }
    ensures own { IfSome result (λ f. F.own_tag f.now ≡ tag.now) }
    ensures missing { IfNone result (NoneFor tag.now (map (λ x. (string_bytes x.tag, x.deserialize))
        registrations.now)) }
{
    let count = registrations.len();
    for passed in 0..count {
        let registration = &registrations[count - 1 - passed];
        if tag == registration.tag.as_str() {
            return Some(&registration.deserialize);
        }
    }
    None
}

// Reads a tag, which is written as a text.
fn read_tag<E: Env, D: PagableDeserializer<E>>(
    alloc: Global,
    deserializer: &mut D,
) -> Result<String, Error>
    ensures gives { MatchesReading IsOutOfMemory (λ t. (string_bytes t, D.rest deserializer.new)) result
        (bytes_of text_at (λ t. t) (D.rest deserializer.old)) }
    ensures moves { MovesOn (D.input_state deserializer.old) (D.input_state deserializer.new) }
    ensures same_env { D.environment deserializer.new ≡ D.environment deserializer.old }
    ensures same_levels { D.levels deserializer.new ≡ D.levels deserializer.old }
{
    deserializer.serde().read_string(alloc)
}

/// A type whose readers are in a registry of the environment.
pub trait HasTypetagRegistry<E: Env>: PagableTagged<E> {
    type Reader: TagReader<E, Self> + Copy;

    // The readers with their tags, in the order of registration.
    ghost readers: { E → List (List ℕ × Self.Reader) };

    /// Returns the registry of this type in the environment.
    fn typetag_registry(env: &E) -> &TypetagRegistry<Self, Self::Reader>
        ensures { result.now ≡ readers env.now };
}

/// Returns the reader that was registered last for this tag in the environment, or None if the tag
/// has none.
fn registered_reader<E: Env, T: HasTypetagRegistry<E>>(tag: &str, env: &E) -> Option<T::Reader>
    ensures found { IfSome result (IsLastFor tag.now (T.readers env.now)) }
    ensures own { IfSome result (λ f. T.Reader.own_tag f ≡ tag.now) }
    ensures missing { IfNone result (NoneFor tag.now (T.readers env.now)) }
{
    T::typetag_registry(env).reader_of(tag).copied()
}

/// Reads a tag, and then the body by the reader that the environment's registry has for the tag
/// (the last one registered). The returned value has the tag that was read. If the value holds what
/// its references refer to, it holds what the deserializer lent for them.
///
/// # Errors
///
/// - `UnknownTag` if no reader is registered for the tag.
/// - `OutOfMemory`, a fault of the input, or an error of the reader.
#[tactic(auto, unfolding(pagable_value_spec::specs::Reading::read, pagable_value_spec::specs::Reading::read_with), using(pagable_codec::proofs::Reading::parts, crate::proofs::Lent::held_so))]
pub fn deserialize_tagged<E: Env, T: HasTypetagRegistry<E>, D: PagableDeserializer<E>>(
    alloc: Global,
    deserializer: &mut D,
) -> Result<T, Error>
    ensures reads { (written : List ℕ → Shape) → Reads E.Env D.PagableDeserializer (memory_or T.Reader.read_causes.are)
        (λ x. MeansTagged (T.tag x) (T.body_means.of x))
        (λ c. read c (tagged_by written (grammars T.Reader.grammar (D.environment deserializer.old)
        (T.readers (D.environment deserializer.old))))) deserializer.old deserializer.new result }
    ensures holds { IfOk result (HoldsLentValues (D.input_state deserializer.old) T.body_holds_target) }
{
    let tag = read_tag(alloc, deserializer)?;
    let found = registered_reader::<E, T>(tag.as_str(), deserializer.env());
    let Some(reader) = found else {
        return Err(Error::UnknownTag);
    };
    reader.read(alloc, deserializer)
}

/// Proves that a reader reads back each form of a tagged value (`forms_are_read_again` of
/// `pagable`) if no tag is registered twice, each tag under which a body has a form is registered,
/// and each reader reads the shape, a readable one, that is written under its tag.
#[tactic(auto, using(crate::proofs::Registered::distinct_is_read))]
pub fn distinct_tags_are_read_again()
    ensures { (parts : ℕ → Shape) (written : List ℕ → Shape) (registrations : List (List ℕ × Shape))
        → HasDistinctTags registrations → ReadsWhatIsWritten parts written registrations
        → IsReadableThroughout parts (tagged_by written registrations) }
{}
