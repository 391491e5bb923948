//! Truth values at a place.
//!
//! The words come from a table and are written by the same five bytes, since a branch on a truth
//! value is guessed wrong as often as not.
ghost use Rattle.std.specs.Prelude.{◌≡◌, ◌≤◌, ◌<◌, ◌+◌, ◌++◌, length, take, slice_index};
ghost use Rattle.std.specs.Int.{w64, to_le_bytes};
ghost use Rattle.ipc_text_csv.specs.RowCsv.{bool_text};

use crate::bytes::put_word;

// The words, each in the bytes of a number, the first in the lowest.
static WORDS: [u64; 2] = [0x2020_2065_736c_6166, 0x2020_2020_6575_7274];

// A place of the table.
#[inline(always)]
fn word_at(place: usize) -> u64
    requires { place < 2 }
    ensures { result ≡ slice_index WORDS place }
{
    WORDS[place]
}

// The word of a truth value.
#[inline(always)]
fn word_of(truth: bool) -> u64
    ensures { take (length (bool_text truth)) (take 5 (to_le_bytes w64 result))
        ≡ bool_text truth }
{
    word_at(usize::from(truth))
}

/// Writes `true` or `false` from `at` on, and returns where it ends. The bytes after the end may
/// change too, up to `at + 5`.
#[inline(always)]
pub(crate) fn put_bool_word(text: &mut [u8], at: usize, truth: bool) -> usize
    requires { at + 5 ≤ length text.old }
    ensures end { result ≤ at + 5 }
    ensures text { take result text.new ≡ take at text.old ++ bool_text truth }
{
    put_word(text, at, &word_of(truth).to_le_bytes()[..5]);
    at + 5 - usize::from(truth)
}
