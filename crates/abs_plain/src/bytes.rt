//! Bytes of a file: cut, filled with zeros, and written over.

ghost use Rattle.std.specs.Prelude.{◌≡◌, ◌<◌, ◌≤◌, ◌^◌, ◌+◌, IfOk, length, drop};
ghost use Rattle.nfs2_types.specs.Bytes.{resized};
ghost use Rattle.abs_model.specs.Objects.{written};

use std::alloc::{AllocError, Global};

/// The bytes, cut or filled with zeros.
pub fn resized(alloc: Global, size: usize, bytes: &[u8]) -> Result<Vec<u8>, AllocError>
    ensures { IfOk result (λ v. v.items ≡ resized size bytes.now) }
{
    let mut out = Vec::from_slice(alloc, bytes)?;
    out.resize(size, 0)?;
    Ok(out)
}

/// The bytes from a place on, none past the end.
#[tactic(auto, using(abs_queries::proofs::Ends::ends))]
pub fn tail(bytes: &[u8], start: usize) -> &[u8]
    ensures { result.now ≡ drop start bytes.now }
{
    if start < bytes.len() {
        return &bytes[start..];
    }
    &[]
}

/// The bytes with a piece written at an offset, where a gap is zeros; no piece changes nothing.
pub fn written(
    alloc: Global,
    offset: usize,
    piece: &[u8],
    bytes: &[u8],
) -> Result<Vec<u8>, AllocError>
    requires { offset < 2 ^ 32 }
    ensures { IfOk result (λ v. v.items ≡ written offset piece.now bytes.now) }
{
    if piece.is_empty() {
        return Vec::from_slice(alloc, bytes);
    }
    let mut out = resized(alloc, offset, bytes)?;
    out.extend_from_slice(piece)?;
    out.extend_from_slice(tail(bytes, offset + piece.len()))?;
    Ok(out)
}
