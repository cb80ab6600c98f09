//! Bundles: values that hold references of each sort to links.

ghost use Rattle.pagable_examples.specs.{
  Linked.{bundle_beside, bundle_has_one_form, bundle_in_order, bundle_means, bundle_reads, bundle_shape, bundle_single},
  Linked.{bundle_writes, no_parts},
};
ghost use Rattle.pagable_traits.specs.ReadBack.{IsReadableThroughout};

use crate::linked::Linked;
use crate::linked::chain::{ArcLink, Link};
use pagable_flavors::Error;
use pagable_traits::{
    Arc, ArcRef, Canonical, Carried, OneMeaning, PagableArc, PagableDeserialize,
    PagableDeserializer, PagableSerialize, PagableSerializer, PinnedPagableArc, Refers,
};
use std::alloc::Global;

/// References to links: shared ones, loose ones and pins.
#[derive(Drop)]
pub struct Bundle {
    pub shared: Vec<Arc<ArcLink>>,
    pub loose: Vec<PagableArc<Link>>,
    pub pinned: Vec<PinnedPagableArc<Link>>,
}

impl Carried<Linked> for Bundle {
    ghost shape = { λ e. bundle_shape };

    ghost means = { bundle_means };

    ghost beside = { bundle_beside };
}

impl OneMeaning<Linked> for Bundle {
    ghost single = { bundle_single };
}

impl Canonical<Linked> for Bundle {
    ghost one_form = { λ e. bundle_has_one_form };
}

impl Refers<Linked> for Bundle {
    fn list_references(&self, list: &mut Vec<ArcRef>) -> Result<(), Error> {
        let fields = (&self.shared, (&self.loose, &self.pinned));
        Refers::<Linked>::list_references(&fields, list)
    }

    ghost in_order = { λ e. bundle_in_order };
}

impl PagableSerialize<Linked> for Bundle {
    ghost write_causes = { bundle_writes };

    fn pagable_serialize<S: PagableSerializer<Linked>>(
        &self,
        serializer: &mut S,
    ) -> Result<(), Error> {
        let fields = (&self.shared, (&self.loose, &self.pinned));
        fields.pagable_serialize(serializer)
    }
}

impl<'de> PagableDeserialize<'de, Linked> for Bundle {
    ghost read_causes = { bundle_reads };

    #[tactic(auto, using(std::proofs::lemmas::Result::err_from_is_err_and, crate::proofs::Listed::bundle_holds))]
    fn pagable_deserialize<D: PagableDeserializer<Linked>>(
        alloc: Global,
        deserializer: &mut D,
    ) -> Result<Self, Error> {
        let fields = PagableDeserialize::pagable_deserialize(alloc, deserializer)?;
        let (shared, (loose, pinned)) = fields;
        Ok(Bundle {
            shared,
            loose,
            pinned,
        })
    }
}

/// Proves that a reader reads back each encoding of a bundle.
#[tactic(auto, using(crate::specs::Linked::bundle_is_read))]
pub fn bundles_are_read()
    ensures { (e : Linked) → IsReadableThroughout no_parts (⟦<Bundle as Carried<Linked>>⟧.shape e) }
{}
