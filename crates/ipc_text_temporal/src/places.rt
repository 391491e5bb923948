//! Writes digits and marks at a position of a text.
ghost use Rattle.std.specs.Prelude.{◌≡◌, ◌≤◌, ◌<◌, ◌+◌, ◌∷◌, [], length};
ghost use Rattle.ipc_text_temporal.specs.Calendar.{four_digits, two_digits};
ghost use Rattle.ipc_text_temporal.specs.Temporals.{three_digits};
ghost use Rattle.ipc_text_temporal.specs.Places.{with_text};

use crate::pairs::pair;

/// Writes a byte.
#[inline(always)]
#[tactic(auto, using(crate::proofs::Placed::one_byte))]
pub(crate) fn put_byte(text: &mut [u8], at: usize, byte: u8)
    requires room { at + 1 ≤ length text.old }
    ensures same_room { length text.new ≡ length text.old }
    ensures text { text.new ≡ with_text text.old at (byte ∷ []) }
{
    text[at] = byte;
}

/// Writes the two digits of a number below 100, one byte at a time: a copy of two bytes would
/// include a check for overlap.
#[inline(always)]
pub(crate) fn put_two_digits(text: &mut [u8], at: usize, number: u32)
    requires small { number < 100 }
    requires room { at + 2 ≤ length text.old }
    ensures same_room { length text.new ≡ length text.old }
    ensures text { text.new ≡ with_text text.old at (two_digits number) }
{
    let [tens, ones] = pair(number);
    put_byte(text, at, tens);
    put_byte(text, at + 1, ones);
}

/// Writes the three digits of a number below 1,000.
#[inline(always)]
pub(crate) fn put_three_digits(text: &mut [u8], at: usize, number: u32)
    requires small { number < 1_000 }
    requires room { at + 3 ≤ length text.old }
    ensures same_room { length text.new ≡ length text.old }
    ensures text { text.new ≡ with_text text.old at (three_digits number) }
{
    put_byte(text, at, b'0' + (number / 100) as u8);
    put_two_digits(text, at + 1, number % 100);
}

/// Writes the four digits of a number below 10,000.
#[inline(always)]
pub(crate) fn put_four_digits(text: &mut [u8], at: usize, number: u32)
    requires small { number < 10_000 }
    requires room { at + 4 ≤ length text.old }
    ensures same_room { length text.new ≡ length text.old }
    ensures text { text.new ≡ with_text text.old at (four_digits number) }
{
    put_two_digits(text, at, number / 100);
    put_two_digits(text, at + 2, number % 100);
}
