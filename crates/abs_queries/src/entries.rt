//! What an entry is by itself.

ghost use Rattle.std.specs.Prelude.{◌≡◌, ◌<◌, ◌≤◌, ◌^◌, ℕ, length};
ghost use Rattle.abs_model.specs.Objects.{is_null, is_file, is_dir, is_link, names_of, bytes_of, attr_of, used_by};
ghost use Rattle.abs_model.specs.Array.{can_take};

use abs_model::{Attr, Entry, NAME_SPACE, NameRow, Object};
use nfs2_types::Time;

/// Nothing stands there.
pub fn is_null(e: &Entry) -> bool
    ensures { result ≡ is_null e.now }
{
    matches!(e.object, Object::Null)
}

/// A regular file.
pub fn is_file(e: &Entry) -> bool
    ensures { result ≡ is_file e.now }
{
    matches!(e.object, Object::File { .. })
}

/// A directory.
pub fn is_dir(e: &Entry) -> bool
    ensures { result ≡ is_dir e.now }
{
    matches!(e.object, Object::Dir { .. })
}

/// A symbolic link.
pub fn is_link(e: &Entry) -> bool
    ensures { result ≡ is_link e.now }
{
    matches!(e.object, Object::Link { .. })
}

/// The names of a directory; what is none has none.
pub fn names_of(e: &Entry) -> &[NameRow]
    ensures { result.now ≡ names_of e.now }
{
    match &e.object {
        Object::Dir { names, .. } => names.as_slice(),
        _ => &[],
    }
}

/// The bytes of a file, or of a link's text; what is neither has none.
pub fn bytes_of(e: &Entry) -> &[u8]
    ensures { result.now ≡ bytes_of e.now }
{
    match &e.object {
        Object::File { bytes, .. } => bytes.as_slice(),
        Object::Link { text, .. } => text.as_slice(),
        _ => &[],
    }
}

/// The bytes that an entry counts of the space.
pub fn used_by(e: &Entry) -> u128
    ensures number { result ≡ used_by e.now }
    ensures bound { result < 2 ^ 80 }
{
    bytes_of(e).len() as u128 + u128::from(NAME_SPACE) * names_of(e).len() as u128
}

/// A null entry whose generation can rise.
pub fn can_take(e: &Entry) -> bool
    ensures { result ≡ can_take e.now }
{
    is_null(e) && e.generation < u32::MAX
}

/// The attributes of an object; what is none has zeros.
pub fn attr_of(e: &Entry) -> Attr
    ensures { result ≡ attr_of e.now }
{
    match &e.object {
        Object::Null => {
            let zero = Time { secs: 0, micros: 0 };
            Attr {
                mode: 0,
                uid: 0,
                gid: 0,
                atime: zero,
                mtime: zero,
                ctime: zero,
            }
        }
        Object::File { attr, .. } | Object::Dir { attr, .. } | Object::Link { attr, .. } => *attr,
    }
}
