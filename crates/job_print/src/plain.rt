//! Copies texts, and finds whether they contain no quotation mark, no control character and not one
//! more byte, many bytes at a time. So JSON or CSV writes each of their bytes as it is.
//!
//! A text that is not a multiple of a step is covered by steps that overlap.
ghost use Rattle.std.specs.Prelude.{◌≡◌, ◌≤◌, ◌+◌, ◌++◌, false, length, take};
ghost use Rattle.std.specs.Bool.{OnTrue};
ghost use Rattle.csv.specs.Writing.{needs_quotes};
ghost use Rattle.json.specs.Print.{escape};
ghost use Rattle.ipc_text_csv.specs.Dialects.{writer};
ghost use Rattle.job_print.specs.Plain.{ArePlain};

use crate::bytes::{put_ends, put_front, put_word};
use std::simd::Simd;
use std::simd::prelude::*;

// Returns whether N bytes from `at` on are plain.
#[inline(always)]
fn lanes_are_plain<const N: usize>(mark: u8, text: &[u8], at: usize) -> bool
    requires room { at + N ≤ length text.now }
    requires few { N ≤ 64 }
    ensures { OnTrue result (ArePlain mark text.now at (at + N)) }
{
    let bytes = Simd::<u8, N>::from_slice(&text[at..]);
    (bytes.simd_eq(Simd::splat(b'"'))
        | bytes.simd_eq(Simd::splat(mark))
        | bytes.simd_lt(Simd::splat(0x20))).to_bitmask()
        == 0
}

// Returns whether bytes are plain. They are read sixteen at a time.
#[inline(always)]
fn many_are_plain(mark: u8, text: &[u8]) -> bool
    requires { 16 ≤ length text.now }
    ensures { OnTrue result (ArePlain mark text.now 0 (length text.now)) }
{
    let mut at = 0;
    while text.len() - at > 16 {
        if !lanes_are_plain::<16>(mark, text, at) {
            return false;
        }
        at += 16;
    }
    lanes_are_plain::<16>(mark, text, text.len() - 16)
}

// Writes a text of N to 2 * N bytes from `at` on, and returns whether it is plain.
#[inline(always)]
fn put_few<const N: usize>(text: &mut [u8], at: usize, mark: u8, chars: &[u8]) -> bool
    requires few { N ≤ 64 }
    requires fits { at + length chars.now ≤ length text.old }
    requires covers { (N ≤ length chars.now) × (length chars.now ≤ N + N) }
    ensures plain { OnTrue result (ArePlain mark chars.now 0 (length chars.now)) }
    ensures text { take (at + length chars.now) text.new ≡ take at text.old ++ chars.now }
{
    put_ends::<N>(text, at, chars);
    lanes_are_plain::<N>(mark, chars, 0) && lanes_are_plain::<N>(mark, chars, chars.len() - N)
}

// Writes a text of any length from `at` on, and returns whether it is plain.
#[inline(always)]
fn put_any_length(text: &mut [u8], at: usize, mark: u8, chars: &[u8]) -> bool
    requires { at + length chars.now ≤ length text.old }
    ensures plain { OnTrue result (ArePlain mark chars.now 0 (length chars.now)) }
    ensures text { take (at + length chars.now) text.new ≡ take at text.old ++ chars.now }
{
    match chars.len() {
        0 => true,
        1 => put_few::<1>(text, at, mark, chars),
        2..4 => put_few::<2>(text, at, mark, chars),
        4..8 => put_few::<4>(text, at, mark, chars),
        8..=16 => put_few::<8>(text, at, mark, chars),
        _ => {
            put_word(text, at, chars);
            many_are_plain(mark, chars)
        }
    }
}

/// Writes a text from `at` on, and returns whether it has no quotation mark, control character or
/// `mark`, the backslash in JSON and the delimiter in CSV.
#[inline(always)]
#[tactic(auto, using(crate::proofs::PlainBytes::plain_json, crate::proofs::PlainBytes::plain_csv))]
pub fn put_if_plain(text: &mut [u8], at: usize, mark: u8, chars: &[u8]) -> bool
    requires { at + length chars.now ≤ length text.old }
    ensures json { OnTrue result (mark ≡ 92 → escape chars.now ≡ chars.now) }
    ensures csv { OnTrue result (needs_quotes (writer mark) chars.now ≡ false) }
    ensures front { take at text.new ≡ take at text.old }
    ensures text { take (at + length chars.now) text.new ≡ take at text.old ++ chars.now }
{
    put_any_length(text, at, mark, chars)
}

/// Writes sixteen bytes from `at` on, and returns whether they, and so the first `len`, have no
/// quotation mark, control character or `mark`.
#[inline(always)]
pub fn put_front_if_plain(text: &mut [u8], at: usize, mark: u8, bytes: &[u8], len: usize) -> bool
    requires room { at + 16 ≤ length text.old }
    requires sixteen { 16 ≤ length bytes.now }
    requires few { len ≤ 16 }
    ensures json { OnTrue result
        (mark ≡ 92 → escape (take len bytes.now) ≡ take len bytes.now) }
    ensures csv { OnTrue result (needs_quotes (writer mark) (take len bytes.now) ≡ false) }
    ensures text { take (at + len) text.new ≡ take at text.old ++ take len bytes.now }
    ensures front { take at text.new ≡ take at text.old }
    ensures same_room { length text.new ≡ length text.old }
{
    put_front::<16>(text, at, bytes);
    lanes_are_plain::<16>(mark, bytes, 0)
}
