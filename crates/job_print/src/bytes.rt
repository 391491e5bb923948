//! Writes bytes at a place of a buffer.
//!
//! An array is written at once, where a copy between slices first checks whether they overlap. A
//! short word is two copies of a fixed size that overlap.
ghost use Rattle.std.specs.Prelude.{◌≡◌, ◌≤◌, ◌<◌, ◌+◌, ◌++◌, length, take, drop};
ghost use Rattle.json.specs.Filled.{Placed};

use std::simd::Simd;

// Fills a place.
#[inline(always)]
fn fill<const N: usize>(place: &mut [u8], bytes: [u8; N])
    requires { length place.old ≡ N }
    ensures { place.new ≡ bytes.entry }
{
    if let Some(array) = place.as_mut_array() {
        *array = bytes;
    }
}

/// Writes bytes.
#[inline(always)]
pub fn put_bytes<const N: usize>(text: &mut [u8], at: usize, bytes: [u8; N])
    requires { at + N ≤ length text.old }
    ensures { text.new ≡ take at text.old ++ bytes.entry ++ drop (at + N) text.old }
{
    fill(&mut text[at..at + N], bytes);
}

/// Writes a word from `at` on, and returns where it ends.
#[inline(always)]
pub(crate) fn put_word(text: &mut [u8], at: usize, word: &[u8]) -> usize
    requires { at + length word.now ≤ length text.old }
    ensures end { result ≡ at + length word.now }
    ensures text { take result text.new ≡ take at text.old ++ word.now }
{
    text[at..at + word.len()].copy_from_slice(word);
    at + word.len()
}

/// Writes the first N bytes of a word from `at` on, by one load and one store, and returns where
/// they end.
#[inline(always)]
pub fn put_front<const N: usize>(text: &mut [u8], at: usize, word: &[u8]) -> usize
    requires { (N ≤ length word.now) × (at + N ≤ length text.old) }
    ensures { Placed text.old text.new at (take N word.now) result }
{
    Simd::<u8, N>::from_slice(word).copy_to_slice(&mut text[at..]);
    at + N
}

/// Writes a word that has N bytes at least and twice as many at most from `at` on, and returns
/// where it ends.
#[inline(always)]
pub fn put_ends<const N: usize>(text: &mut [u8], at: usize, word: &[u8]) -> usize
    requires fits { at + length word.now ≤ length text.old }
    requires covers { (N ≤ length word.now) × (length word.now ≤ N + N) }
    ensures { Placed text.old text.new at word.now result }
{
    let last = word.len() - N;
    put_front::<N>(text, at, word);
    put_front::<N>(text, at + last, &word[last..])
}

/// Writes a word of at most three bytes from `at` on, and returns where it ends.
#[inline(always)]
pub fn copy_up_to_3(text: &mut [u8], at: usize, word: &[u8]) -> usize
    requires fits { at + length word.now ≤ length text.old }
    requires few { length word.now < 4 }
    ensures { Placed text.old text.new at word.now result }
{
    if word.len() >= 2 {
        put_ends::<2>(text, at, word)
    } else if word.len() == 1 {
        put_ends::<1>(text, at, word)
    } else {
        at
    }
}
