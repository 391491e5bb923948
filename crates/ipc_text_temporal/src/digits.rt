//! Writes bytes as lower-case hexadecimal digits.
ghost use Rattle.std.specs.Prelude.{◌≡◌, ◌++◌, ◌+◌, ◌*◌, OnOk, OnErr, IfSome};
ghost use Rattle.hex.specs.Hex.{encode_lower};

use std::alloc::AllocError;

// The length after two digits for each of `bytes` bytes.
fn length_with_digits(length: usize, bytes: usize) -> Option<usize>
    ensures { IfSome result (λ n. n ≡ length + 2 * bytes) }
{
    length.checked_add(bytes.checked_mul(2)?)
}

/// Appends two digits for each byte. If memory ran out, `out` is unchanged.
pub fn push_digits(out: &mut Vec<u8>, bytes: &[u8]) -> Result<(), AllocError>
    ensures ok { OnOk result (out.new.items ≡ out.old.items ++ encode_lower bytes.now) }
    ensures refused { OnErr result (out.new.items ≡ out.old.items) }
{
    let start = out.len();
    let Some(end) = length_with_digits(start, bytes.len()) else {
        return Err(AllocError);
    };
    out.resize(end, 0)?;
    hex::encode_to_slice(bytes, &mut out[start..end]).unwrap();
    Ok(())
}
