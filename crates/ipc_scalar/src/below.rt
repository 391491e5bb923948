//! A test of adjacent numbers, 64 bytes at a time: whether each is the index of a value.
ghost use Rattle.std.specs.Prelude.{◌≡◌, ◌≤◌, ◌<◌, ◌-◌, ◌*◌, ◌/◌, ◌%◌, ◌^◌, ◌↔◌, ◌++◌, ℕ, length};
ghost use Rattle.std.specs.Prelude.{replicate, IsTrue};
ghost use Rattle.ipc_scalar.specs.Bytes.{num, number, IsWidth, IsBelow};

use crate::lanes::Lanes;
use std::simd::prelude::*;

// The bytes, which are fewer than 64, followed by zeros.
fn pad_block(rest: &[u8]) -> [u8; 64]
    requires { length rest.now < 64 }
    ensures { result ≡ rest.now ++ replicate (64 - length rest.now) 0 }
{
    let mut block = [0; 64];
    block[..rest.len()].copy_from_slice(rest);
    block
}

// Whether no number in the bytes is above `most`. The last block is filled up with zeros, so that
// no width needs a loop of its own.
fn each_at_most<L: Lanes>(bytes: &[u8], most: u64) -> bool
    requires even { length bytes.now % L.width ≡ 0 }
    requires fits { most < 2 ^ (8 * L.width) }
    ensures { IsTrue result ↔ ((i : ℕ) → L.width * i < length bytes.now
        → num bytes.now (L.width * i) L.width ≤ most) }
{
    let (blocks, rest) = bytes.as_chunks::<64>();
    let mut top = L::of(&pad_block(rest));
    for block in blocks {
        top = top.larger(L::of(block));
    }
    top.are_at_most(most)
}

/// Returns whether each of the first `n` numbers is from 0 to `limit - 1`, so that it is an index
/// of one of `limit` values (Arrow Columnar Format, "Dictionary-encoded Layout"). `bits` is the
/// width of a number and must be 8, 16, 32 or 64; `bytes` must have `n` numbers. Bytes after these
/// are not read. It takes no memory.
pub fn indices_below(bytes: &[u8], bits: u8, signed: bool, n: usize, limit: u64) -> bool
    requires width { IsWidth bits }
    requires inside { n * bits / 8 ≤ length bytes.now }
    ensures { IsTrue result ↔ ((i : ℕ) → i < n → IsBelow limit (number bits signed bytes.now i)) }
{
    if limit == 0 {
        return n == 0;
    }
    // A signed number that is not negative has the bits of the same unsigned number.
    let most = (limit - 1).min(u64::MAX >> (64 - bits + u8::from(signed)));
    let numbers = &bytes[..n * usize::from(bits / 8)];
    match bits {
        8 => each_at_most::<u8x64>(numbers, most),
        16 => each_at_most::<u16x32>(numbers, most),
        32 => each_at_most::<u32x16>(numbers, most),
        _ => each_at_most::<u64x8>(numbers, most),
    }
}
