//! Paths: how they are joined, and which lie under which.

ghost use Rattle.std.specs.Prelude.{◌≡◌, ◌<◌, slice_index, [], ◌∷◌, ◌++◌, Some, None, IfOk, IfSome, length, drop, option_copied, if◌then◌else◌};
ghost use Rattle.path_store.specs.Stored.{joined, is_under, moved_path};
ghost use Rattle.path_store.specs.Walks.{IsPastName};

use crate::path::Path;
use nfs2_types::NoMemory;
use std::alloc::Global;

/// A path with a byte after it. Errors: NoMemory.
pub fn with_byte(alloc: Global, path: &[u8], byte: u8) -> Result<Path, NoMemory>
    ensures { IfOk result (λ p. p ≡ path.now ++ byte ∷ []) }
{
    let longer = join_parts(alloc, path, &[byte])?;
    Path::new(longer)
}

/// One byte string after another, in just as much memory. Errors: NoMemory.
fn join_parts(alloc: Global, first: &[u8], second: &[u8]) -> Result<Vec<u8>, NoMemory>
    ensures { IfOk result (λ v. v.items ≡ first.now ++ second.now) }
{
    let mut bytes = Vec::with_capacity(alloc, first.len() + second.len())?;
    bytes.extend_from_slice(first)?;
    bytes.extend_from_slice(second)?;
    Ok(bytes)
}

/// The path of a name of the directory at a path. Errors: NoMemory.
pub fn join(alloc: Global, top: &[u8], name: &[u8]) -> Result<Path, NoMemory>
    ensures { IfOk result (λ p. p ≡ joined top.now name.now) }
{
    let mut bytes = Vec::with_capacity(alloc, top.len() + 1 + name.len())?;
    bytes.extend_from_slice(top)?;
    let Ok(()) = bytes.push(b'/') else {
        return Err(NoMemory);
    };
    bytes.extend_from_slice(name)?;
    Path::new(bytes)
}

/// What follows a path in another that is under it.
pub fn rest_under<'a>(top: &[u8], path: &'a [u8]) -> Option<&'a [u8]>
    ensures { option_copied result
        ≡ (if is_under top.now path.now then Some (drop (length top.now) path.now) else None) }
{
    let Some(rest) = path.strip_prefix(top) else {
        return None;
    };
    match rest {
        [] => Some(rest),
        [first, ..] if *first == b'/' => Some(rest),
        _ => None,
    }
}

/// The path where what lay under one path lies under another. Errors: NoMemory.
pub fn move_path(alloc: Global, old: &[u8], new: &[u8], path: &Path) -> Result<Path, NoMemory>
    ensures { IfOk result (λ p. p ≡ moved_path old.now new.now path.now) }
{
    let Some(rest) = rest_under(old, path.as_slice()) else {
        return path.share();
    };
    let moved = join_parts(alloc, new, rest)?;
    Path::new(moved)
}

/// The place of the first slash.
fn slash_in(bytes: &[u8]) -> Option<usize>
    ensures { IfSome result (λ k. (k < length bytes.now) × (slice_index bytes.now k ≡ 47)) }
{
    bytes.iter().position(|b| *b == b'/')
}

/// Where the paths go on behind all that lie below a name, of a path that goes on from a directory's path of so many
/// bytes; None where the path is that of a name. Errors: NoMemory.
pub fn past_name(alloc: Global, size: usize, path: &[u8]) -> Result<Option<Path>, NoMemory>
    ensures { IfOk result (λ o. IfSome o (λ next. IsPastName size path.now next)) }
{
    if path.len() <= size {
        return Ok(None);
    }
    let (_, rest) = path.split_at(size + 1);
    let Some(end) = slash_in(rest) else {
        return Ok(None);
    };
    // 48 follows the slash, which is 47.
    let next = with_byte(alloc, &path[..size + 1 + end], b'0')?;
    Ok(Some(next))
}
