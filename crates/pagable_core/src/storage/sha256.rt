//! The hash by which keys are computed.

ghost use Rattle.sha2.specs.{Hashers.Holds256, Sha256.sha256};
ghost use Rattle.std.specs.Prelude.{take};

use pagable_codec::KeyHash;
use sha2::{Digest, Sha256};

/// The first 16 bytes of the SHA-256 of FIPS 180-4, computed without the processor's own
/// instructions for it.
#[derive(Drop)]
pub struct Sha256Key {
    hasher: Sha256,
}

impl KeyHash for Sha256Key {
    ghost has_input = { λ h came. Holds256 h.hasher came };

    ghost digest = { λ bytes. take 16 (sha256 bytes) };

    fn new() -> Sha256Key {
        let hasher = Sha256::new();
        Sha256Key { hasher }
    }

    fn update(&mut self, bytes: &[u8]) {
        self.hasher.update(bytes);
    }

    fn finish(self) -> [u8; 16] {
        let digest = self.hasher.finalize();
        let mut half = [0; 16];
        half.copy_from_slice(&digest[..16]);
        half
    }

    fn digest_many(messages: &[&[u8]], digests: &mut [[u8; 16]]) {
        sha256_lanes::digest_many(messages, digests);
    }
}
