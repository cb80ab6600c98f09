//! The digests of four messages.

ghost use Rattle.sha256_lanes.specs.{Blocks.block_count, Lanes.{four, in_lanes}};
ghost use Rattle.sha2.specs.Sha256.{digest_bytes, final_hash, initial_hash_256, sha256};
ghost use Rattle.std.specs.Prelude.{List, length, ℕ, [], ◌<◌, ◌∷◌, ◌≡◌};

use crate::compress::compress;
use crate::constants::INITIAL_HASH;
use crate::padding::{count_blocks, find_block, make_tail};
use std::simd::prelude::*;

/// Returns the state of four messages of which no block was taken.
fn make_state() -> [u32x4; 8]
    ensures { result ≡ in_lanes (λ i. initial_hash_256) }
{
    [
        u32x4::splat(INITIAL_HASH[0]),
        u32x4::splat(INITIAL_HASH[1]),
        u32x4::splat(INITIAL_HASH[2]),
        u32x4::splat(INITIAL_HASH[3]),
        u32x4::splat(INITIAL_HASH[4]),
        u32x4::splat(INITIAL_HASH[5]),
        u32x4::splat(INITIAL_HASH[6]),
        u32x4::splat(INITIAL_HASH[7]),
    ]
}

/// Returns the states of four messages after all their blocks.
fn hash_four(first: &[u8], second: &[u8], third: &[u8], fourth: &[u8]) -> [u32x4; 8]
    requires second { block_count (length second.now) ≡ block_count (length first.now) }
    requires third { block_count (length third.now) ≡ block_count (length first.now) }
    requires fourth { block_count (length fourth.now) ≡ block_count (length first.now) }
    ensures { result ≡ in_lanes
        (λ i. final_hash initial_hash_256 (four first.now second.now third.now fourth.now i)) }
{
    let first_tail = make_tail(first);
    let second_tail = make_tail(second);
    let third_tail = make_tail(third);
    let fourth_tail = make_tail(fourth);
    let mut state = make_state();
    for number in 0..count_blocks(first) {
        // (the prover takes no call whose result goes straight into `state`)
        let next = compress(
            state,
            find_block(first, &first_tail, number),
            find_block(second, &second_tail, number),
            find_block(third, &third_tail, number),
            find_block(fourth, &fourth_tail, number),
        );
        state = next;
    }
    state
}

/// Returns the digest of one lane: the words of its state, high bytes first.
fn read_digest(state: &[u32x4; 8], lane: usize) -> [u8; 32]
    requires { lane < 4 }
    ensures { (s : ℕ → List ℕ) → state.now ≡ in_lanes s → result ≡ digest_bytes (s lane) 8 }
{
    let mut digest = [0u8; 32];
    for place in 0..8 {
        let word = state[place].to_array()[lane];
        digest[4 * place..4 * place + 4].copy_from_slice(&word.to_be_bytes());
    }
    digest
}

/// Returns the SHA-256 digests of four messages that have equally many blocks with their padding
/// (see `count_blocks`), in the order of the messages.
pub fn digest_four(first: &[u8], second: &[u8], third: &[u8], fourth: &[u8]) -> [[u8; 32]; 4]
    requires second { block_count (length second.now) ≡ block_count (length first.now) }
    requires third { block_count (length third.now) ≡ block_count (length first.now) }
    requires fourth { block_count (length fourth.now) ≡ block_count (length first.now) }
    ensures { result ≡ sha256 first.now ∷ sha256 second.now ∷ sha256 third.now ∷ sha256 fourth.now ∷ [] }
{
    let state = hash_four(first, second, third, fourth);
    [
        read_digest(&state, 0),
        read_digest(&state, 1),
        read_digest(&state, 2),
        read_digest(&state, 3),
    ]
}
