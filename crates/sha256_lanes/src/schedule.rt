//! The words of four blocks, as the rounds take them.

ghost use Rattle.sha256_lanes.specs.Lanes.{HasWords, four, lanes};
ghost use Rattle.sha2.specs.Sha256.{next_word, schedule, word_at};
ghost use Rattle.std.specs.Prelude.{List, length, slice_index, ℕ, ◌+◌, ◌<◌, ◌≡◌, ◌≤◌};

use crate::functions::{small_sigma0, small_sigma1};
use std::simd::prelude::*;

/// Returns the word at a place of a block, whose bytes stand high byte first.
fn load_word(block: &[u8], place: usize) -> u32
    requires { place + 4 ≤ length block.now }
    ensures { result ≡ word_at block.now place }
{
    u32::from_be_bytes([
        block[place],
        block[place + 1],
        block[place + 2],
        block[place + 3],
    ])
}

/// Returns the word at a place of each of four blocks.
#[inline(always)]
fn load_words(first: &[u8], second: &[u8], third: &[u8], fourth: &[u8], place: usize) -> u32x4
    requires first { place + 4 ≤ length first.now }
    requires second { place + 4 ≤ length second.now }
    requires third { place + 4 ≤ length third.now }
    requires fourth { place + 4 ≤ length fourth.now }
    ensures { result ≡ lanes (λ i. word_at (four first.now second.now third.now fourth.now i) place) }
{
    u32x4::from_array([
        load_word(first, place),
        load_word(second, place),
        load_word(third, place),
        load_word(fourth, place),
    ])
}

/// Returns word `t` of four schedules, from the words before it.
#[inline(always)]
fn next_word(words: &[u32x4; 64], t: usize) -> u32x4
    requires low { 16 ≤ t }
    requires high { t < 64 }
    ensures { (b : ℕ → List ℕ) → HasWords words.now b t
        → result ≡ lanes (λ i. slice_index (schedule (b i) 48) t) }
{
    small_sigma1(words[t - 2]) + words[t - 7] + small_sigma0(words[t - 15]) + words[t - 16]
}

/// Sets the first 16 words: those of the blocks.
#[inline(always)]
fn load_blocks(words: &mut [u32x4; 64], first: &[u8], second: &[u8], third: &[u8], fourth: &[u8])
    requires first { length first.now ≡ 64 }
    requires second { length second.now ≡ 64 }
    requires third { length third.now ≡ 64 }
    requires fourth { length fourth.now ≡ 64 }
    ensures { HasWords words.new (four first.now second.now third.now fourth.now) 16 }
{
    for t in 0..16 {
        words[t] = load_words(first, second, third, fourth, 4 * t);
    }
}

/// Sets the 64 words of four blocks.
#[inline(always)]
pub(crate) fn fill_schedule(
    words: &mut [u32x4; 64],
    first: &[u8],
    second: &[u8],
    third: &[u8],
    fourth: &[u8],
)
    requires first { length first.now ≡ 64 }
    requires second { length second.now ≡ 64 }
    requires third { length third.now ≡ 64 }
    requires fourth { length fourth.now ≡ 64 }
    ensures { HasWords words.new (four first.now second.now third.now fourth.now) 64 }
{
    load_blocks(words, first, second, third, fourth);
    for t in 16..64 {
        words[t] = next_word(words, t);
    }
}
