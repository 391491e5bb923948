//! Clear bits, at lengths around those of whole blocks.
ghost use Rattle.std.specs.Prelude.{◌≤◌, ◌*◌, length};

use ipc_scalar::{bit, count_clear};

const LENGTHS: [usize; 14] = [0, 1, 7, 8, 9, 63, 64, 65, 255, 256, 257, 511, 512, 513];

// Bytes with different numbers of bits.
const UNEVEN: [u8; 65] = [
    11, 252, 209, 154, 167, 136, 13, 70, 131, 84, 137, 50, 159, 96, 69, 94, 251, 172, 65, 202, 151,
    56, 125, 118, 115, 4, 249, 98, 143, 16, 181, 142, 235, 92, 177, 250, 135, 232, 237, 166, 99,
    180, 105, 146, 127, 192, 37, 190, 219, 12, 33, 42, 119, 152, 93, 214, 83, 100, 217, 194, 111,
    112, 149, 238, 203,
];

// The clear bits among the first `n`, counted one by one.
fn plain_count(bytes: &[u8], n: usize) -> u64
    requires { n ≤ 8 * length bytes.now }
{
    let mut clear = 0_u64;
    for i in 0..n {
        clear = clear.saturating_add(u64::from(!bit(bytes, i)));
    }
    clear
}

// Whether the count of each length is that of a plain loop.
fn counts_agree(bytes: &[u8]) -> bool {
    for n in &LENGTHS {
        if bytes.len() < n.div_ceil(8) || count_clear(bytes, *n) != plain_count(bytes, *n) {
            return false;
        }
    }
    true
}

#[test]
fn clear_bits_of_any_length(rt: HostRuntime) {
    assert!(rt; count_clear(&[0xaa; 65], 515) == 258 && counts_agree(&UNEVEN));
}
