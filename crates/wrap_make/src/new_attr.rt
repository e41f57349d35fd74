//! The attributes of what a call makes.

ghost use Rattle.std.specs.Prelude.{◌≡◌};
ghost use Rattle.abs_model.specs.Objects as objects;
ghost use Rattle.node_changes.specs.Objects.{new_of};
ghost use Rattle.wrap_make.specs.Defaults.{default_mode};

use abs_model::Attr;
use nfs2_types::{Cred, Sattr, SetTime, Time};
use node_changes::NewObject;

/// The mode of a new object where none is given.
fn mode_of(new: &NewObject) -> u32
    ensures { result ≡ default_mode (new_of new.now) }
{
    match new {
        NewObject::Dir => 0o755,
        NewObject::File { .. } => 0o644,
        NewObject::Link { .. } => 0o777,
    }
}

/// The time that is given for a new object, else that of its making.
fn time_given(given: SetTime, time: Time) -> Time
    ensures { result ≡ objects.time_given given time time }
{
    match given {
        SetTime::Keep => time,
        SetTime::Now => time,
        SetTime::At(other) => other,
    }
}

/// The attributes of a new object. Where no uid or gid is given it has that of the caller.
pub fn attr_for(new: &NewObject, cred: &Cred, time: Time, sattr: &Sattr) -> Attr
    ensures { result ≡ objects.new_attr (default_mode (new_of new.now)) cred.now time sattr.now }
{
    let mode = mode_of(new);
    Attr {
        mode: sattr.mode.unwrap_or(mode),
        uid: sattr.uid.unwrap_or(cred.uid),
        gid: sattr.gid.unwrap_or(cred.gid),
        atime: time_given(sattr.atime, time),
        mtime: time_given(sattr.mtime, time),
        ctime: time,
    }
}
