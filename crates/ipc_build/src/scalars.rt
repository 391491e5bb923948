//! Appends scalars and padding.
ghost use Rattle.std.specs.Prelude.{◌≡◌, ◌++◌, ◌<◌, ◌^◌, IfOk};
ghost use Rattle.ipc_build.specs.Layout.{little, padding};

use std::alloc::AllocError;

pub(crate) fn push_u16(out: &mut Vec<u8>, x: u16) -> Result<(), AllocError>
    ensures { IfOk result (λ _. out.new.items ≡ out.old.items ++ little 2 x) }
{
    out.extend_from_slice(&x.to_le_bytes())?;
    Ok(())
}

pub(crate) fn push_u32(out: &mut Vec<u8>, x: u32) -> Result<(), AllocError>
    ensures { IfOk result (λ _. out.new.items ≡ out.old.items ++ little 4 x) }
{
    out.extend_from_slice(&x.to_le_bytes())?;
    Ok(())
}

pub(crate) fn push_u64(out: &mut Vec<u8>, x: u64) -> Result<(), AllocError>
    ensures { IfOk result (λ _. out.new.items ≡ out.old.items ++ little 8 x) }
{
    out.extend_from_slice(&x.to_le_bytes())?;
    Ok(())
}

// Appends `n` zero bytes.
pub(crate) fn push_padding(out: &mut Vec<u8>, n: usize) -> Result<(), AllocError>
    requires { n < 2 ^ 34 }
    ensures { IfOk result (λ _. out.new.items ≡ out.old.items ++ padding n) }
{
    out.resize(out.len() + n, 0)?;
    Ok(())
}
