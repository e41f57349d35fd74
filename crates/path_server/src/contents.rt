//! What files and links contain.

ghost use Rattle.std.specs.Prelude.{◌≡◌, ◌+◌, ◌≤◌, OnOk, length, take, drop};
ghost use Rattle.path_server.specs.Bytes.{rewritten};

use std::alloc::AllocError;
use std::cmp::min;

/// Gives bytes another size, and puts a piece at an offset.
pub fn rewrite(
    bytes: &mut Vec<u8>,
    size: usize,
    offset: usize,
    piece: &[u8],
) -> Result<(), AllocError>
    requires { offset + length piece.now ≤ size }
    ensures { OnOk result (bytes.new.items ≡ rewritten size offset piece.now bytes.old.items) }
{
    bytes.resize(size, 0)?;
    bytes[offset..offset + piece.len()].copy_from_slice(piece);
    Ok(())
}

/// The bytes from an offset up to the count or the end.
pub fn part(bytes: &[u8], offset: usize, count: usize) -> &[u8]
    ensures { result.now ≡ take count (drop offset bytes.now) }
{
    let start = min(offset, bytes.len());
    let end = start + min(count, bytes.len() - start);
    &bytes[start..end]
}
