//! Blocks of sixteen bytes, which are examined at once.
ghost use Rattle.std.specs.Prelude.{◌≡◌, ◌==◌, map};
ghost use Rattle.std.specs.Simd.Lanes.{mask_l};

use std::simd::prelude::*;

/// How many bytes a block has.
pub(crate) const LANES: usize = 16;

/// Which of sixteen bytes are this one: bit k tells of byte k.
#[inline]
pub(crate) fn marks_of(bytes: u8x16, byte: u8) -> u64
    ensures { result ≡ mask_l (map (λ b. b == byte) bytes) }
{
    bytes.simd_eq(u8x16::splat(byte)).to_bitmask()
}
