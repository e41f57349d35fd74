//! Attributes, and entries with other ones.

ghost use Rattle.std.specs.Prelude.{◌≡◌, IfOk};
ghost use Rattle.abs_model.specs.Objects.{with_attr, changed_at, written_at, new_attr, set_attr_of, time_given};

use abs_model::{Attr, Entry, Object};
use nfs2_types::{Cred, Sattr, SetTime, Time};
use std::alloc::{AllocError, Global};

fn time_given(given: SetTime, t: Time, old: Time) -> Time
    ensures { result ≡ time_given given t old }
{
    match given {
        SetTime::Keep => old,
        SetTime::Now => t,
        SetTime::At(x) => x,
    }
}

/// The attributes of a new object.
pub fn new_attr(mode: u32, cred: &Cred, t: Time, s: &Sattr) -> Attr
    ensures { result ≡ new_attr mode cred.now t s.now }
{
    Attr {
        mode: s.mode.unwrap_or(mode),
        uid: s.uid.unwrap_or(cred.uid),
        gid: s.gid.unwrap_or(cred.gid),
        atime: time_given(s.atime, t, t),
        mtime: time_given(s.mtime, t, t),
        ctime: t,
    }
}

/// The attributes as SETATTR leaves them.
pub fn set_attr_of(s: &Sattr, t: Time, a: Attr) -> Attr
    ensures { result ≡ set_attr_of s.now t a }
{
    let mtime = if s.size.is_some() { t } else { a.mtime };
    Attr {
        mode: s.mode.unwrap_or(a.mode),
        uid: s.uid.unwrap_or(a.uid),
        gid: s.gid.unwrap_or(a.gid),
        atime: time_given(s.atime, t, a.atime),
        mtime: time_given(s.mtime, t, mtime),
        ctime: t,
    }
}

/// The attributes of an object that is written at t.
pub fn written_at(t: Time, a: Attr) -> Attr
    ensures { result ≡ written_at t a }
{
    Attr {
        mtime: t,
        ctime: t,
        ..a
    }
}

/// The attributes of an object that is changed at t.
pub fn changed_at(t: Time, a: Attr) -> Attr
    ensures { result ≡ changed_at t a }
{
    Attr { ctime: t, ..a }
}

/// An entry with other attributes.
pub fn with_attr(alloc: Global, attr: Attr, e: &Entry) -> Result<Entry, AllocError>
    ensures { IfOk result (λ new. new ≡ with_attr attr e.now) }
{
    let object = match &e.object {
        Object::Null => Object::Null,
        Object::File { bytes, .. } => Object::File {
            attr,
            bytes: bytes.clone()?,
        },
        Object::Dir { names, .. } => Object::Dir {
            attr,
            names: names.clone()?,
        },
        Object::Link { text, .. } => Object::Link {
            attr,
            text: text.clone()?,
        },
    };
    Ok(Entry {
        generation: e.generation,
        object,
    })
}
