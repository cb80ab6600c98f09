//! One block of each of four messages.

ghost use Rattle.sha256_lanes.specs.Lanes.{HasWords, four, in_lanes};
ghost use Rattle.sha2.specs.Sha256.{add_state, compress, rounds, schedule};
ghost use Rattle.std.specs.Prelude.{List, length, ℕ, ◌+◌, ◌<◌, ◌≡◌, ◌≤◌};

use crate::constants::ROUND_CONSTANTS;
use crate::functions::round;
use crate::schedule::fill_schedule;
use std::simd::prelude::*;

/// Runs round `t` on the working variables of four messages.
#[inline(always)]
fn run_round(words: &[u32x4; 64], v: [u32x4; 8], t: usize) -> [u32x4; 8]
    requires { t < 64 }
    ensures { (b s : ℕ → List ℕ) → HasWords words.now b 64
        → v ≡ in_lanes (λ i. rounds (s i) (schedule (b i) 48) t)
        → result ≡ in_lanes (λ i. rounds (s i) (schedule (b i) 48) (t + 1)) }
{
    round(v, ROUND_CONSTANTS[t], words[t])
}

#[inline(always)]
fn run_four_rounds(words: &[u32x4; 64], v: [u32x4; 8], t: usize) -> [u32x4; 8]
    requires { t + 4 ≤ 64 }
    ensures { (b s : ℕ → List ℕ) → HasWords words.now b 64
        → v ≡ in_lanes (λ i. rounds (s i) (schedule (b i) 48) t)
        → result ≡ in_lanes (λ i. rounds (s i) (schedule (b i) 48) (t + 4)) }
{
    let v = run_round(words, v, t);
    let v = run_round(words, v, t + 1);
    let v = run_round(words, v, t + 2);
    run_round(words, v, t + 3)
}

// The prover takes no call whose result goes straight into `v`, an array of vectors.
#[inline(always)]
fn run_rounds(words: &[u32x4; 64], state: [u32x4; 8]) -> [u32x4; 8]
    ensures { (b s : ℕ → List ℕ) → HasWords words.now b 64 → state ≡ in_lanes s
        → result ≡ in_lanes (λ i. rounds (s i) (schedule (b i) 48) 64) }
{
    let mut v = state;
    for turn in 0..8 {
        let half = run_four_rounds(words, v, 8 * turn);
        let after = run_four_rounds(words, half, 8 * turn + 4);
        v = after;
    }
    v
}

/// Adds the working variables of four messages to their states.
#[inline(always)]
fn add(h: [u32x4; 8], v: [u32x4; 8]) -> [u32x4; 8]
    ensures { (s r : ℕ → List ℕ) → h ≡ in_lanes s → v ≡ in_lanes r
        → result ≡ in_lanes (λ i. add_state (s i) (r i)) }
{
    [
        h[0] + v[0],
        h[1] + v[1],
        h[2] + v[2],
        h[3] + v[3],
        h[4] + v[4],
        h[5] + v[5],
        h[6] + v[6],
        h[7] + v[7],
    ]
}

/// Takes one more block of each of four messages into their states.
pub(crate) fn compress(
    state: [u32x4; 8],
    first: &[u8],
    second: &[u8],
    third: &[u8],
    fourth: &[u8],
) -> [u32x4; 8]
    requires first { length first.now ≡ 64 }
    requires second { length second.now ≡ 64 }
    requires third { length third.now ≡ 64 }
    requires fourth { length fourth.now ≡ 64 }
    ensures { (s : ℕ → List ℕ) → state ≡ in_lanes s
        → result ≡ in_lanes (λ i. compress (s i) (four first.now second.now third.now fourth.now i)) }
{
    let mut words = [u32x4::splat(0); 64];
    fill_schedule(&mut words, first, second, third, fourth);
    add(state, run_rounds(&words, state))
}
