//! Vectors of 64 bytes, one type for each width of a number.
ghost use Rattle.std.specs.Prelude.{◌≡◌, ◌≤◌, ◌<◌, ◌*◌, ◌^◌, ◌↔◌, ℕ, length, refl, IsTrue};
ghost use Rattle.std.specs.Simd.Lanes.{Each1};
ghost use Rattle.ipc_scalar.specs.Bytes.{num};

use std::simd::prelude::*;

/// Lanes of unsigned numbers.
pub(crate) trait Lanes: Copy {
    // The bytes of a number, and the count of numbers.
    ghost width: { ℕ };

    ghost count: { ℕ };

    // No lane is above this number.
    ghost at_most: { ℕ → Self → Type 0 };

    /// Returns the numbers that 64 bytes hold.
    fn of(block: &[u8]) -> Self
        requires { length block.now ≡ 64 }
        ensures { (most : ℕ) → at_most most result
            ↔ ((k : ℕ) → k < count → num block.now (width * k) width ≤ most) };

    /// Returns the larger of the two numbers in each lane.
    fn larger(self, other: Self) -> Self
        ensures { (most : ℕ) → at_most most result ↔ (at_most most self × at_most most other) };

    /// Returns whether no lane is above `most`.
    fn are_at_most(self, most: u64) -> bool
        requires { most < 2 ^ (8 * width) }
        ensures { IsTrue result ↔ at_most most self };

    ghost whole: { width * count ≡ 64 };
}

impl Lanes for u8x64 {
    ghost width = { 1 };

    ghost count = { 64 };

    ghost at_most = { λ most v. Each1 (λ x. x ≤ most) v };

    ghost whole = { refl };

    #[inline(always)]
    fn of(block: &[u8]) -> u8x64 {
        u8x64::from_slice(block)
    }

    #[inline(always)]
    fn larger(self, other: u8x64) -> u8x64 {
        self.simd_max(other)
    }

    #[inline(always)]
    fn are_at_most(self, most: u64) -> bool {
        self.simd_le(u8x64::splat(most as u8)).all()
    }
}

impl Lanes for u16x32 {
    ghost width = { 2 };

    ghost count = { 32 };

    ghost at_most = { λ most v. Each1 (λ x. x ≤ most) v };

    ghost whole = { refl };

    #[inline(always)]
    fn of(block: &[u8]) -> u16x32 {
        u16x32::from_le_bytes(u8x64::from_slice(block))
    }

    #[inline(always)]
    fn larger(self, other: u16x32) -> u16x32 {
        self.simd_max(other)
    }

    #[inline(always)]
    fn are_at_most(self, most: u64) -> bool {
        self.simd_le(u16x32::splat(most as u16)).all()
    }
}

impl Lanes for u32x16 {
    ghost width = { 4 };

    ghost count = { 16 };

    ghost at_most = { λ most v. Each1 (λ x. x ≤ most) v };

    ghost whole = { refl };

    #[inline(always)]
    fn of(block: &[u8]) -> u32x16 {
        u32x16::from_le_bytes(u8x64::from_slice(block))
    }

    #[inline(always)]
    fn larger(self, other: u32x16) -> u32x16 {
        self.simd_max(other)
    }

    #[inline(always)]
    fn are_at_most(self, most: u64) -> bool {
        self.simd_le(u32x16::splat(most as u32)).all()
    }
}

impl Lanes for u64x8 {
    ghost width = { 8 };

    ghost count = { 8 };

    ghost at_most = { λ most v. Each1 (λ x. x ≤ most) v };

    ghost whole = { refl };

    #[inline(always)]
    fn of(block: &[u8]) -> u64x8 {
        u64x8::from_le_bytes(u8x64::from_slice(block))
    }

    #[inline(always)]
    fn larger(self, other: u64x8) -> u64x8 {
        self.simd_max(other)
    }

    #[inline(always)]
    fn are_at_most(self, most: u64) -> bool {
        self.simd_le(u64x8::splat(most)).all()
    }
}
