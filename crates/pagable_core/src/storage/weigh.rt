//! A hash for tests.

ghost use Rattle.pagable_core.specs.Data.{IsWeighed};
ghost use Rattle.pagable_value_spec.specs.Blob.{weigh_hash};

use pagable_codec::KeyHash;

/// A hash for tests, which anyone can compute by hand and which has collisions: the sum of each
/// byte times its place, from 1 on, modulo 2^128.
#[derive(Clone, Copy, Debug)]
pub struct WeighHash {
    place: u128,
    sum: u128,
}

impl KeyHash for WeighHash {
    ghost has_input = { IsWeighed };

    ghost digest = { weigh_hash };

    #[tactic(auto, unfolding(pagable_value_spec::specs::Blob::weight))]
    fn new() -> WeighHash {
        WeighHash { place: 1, sum: 0 }
    }

    fn update(&mut self, bytes: &[u8]) {
        for byte in bytes {
            let weight = self.place.wrapping_mul(u128::from(*byte));
            self.sum = self.sum.wrapping_add(weight);
            self.place = self.place.wrapping_add(1);
        }
    }

    fn finish(self) -> [u8; 16] {
        self.sum.to_le_bytes()
    }
}
