//! Refusals of the calls on one object: its attributes, its text, and a name that is looked up.

ghost use Rattle.std.specs.Prelude.{◌≡◌, ◌≤◌};
ghost use Rattle.nfs2_types.specs.Call.{set_attr, lookup, read_link};
ghost use Rattle.abs_model.specs.Array.{used};
ghost use Rattle.abs_model.specs.Machine.{first_of, refusals};
ghost use Rattle.abs_queries.specs.Refused.{any_limits};

use super::no_room;
use super::parts::{name_status, node_status};
use crate::look::{at, bytes_at, has_name, is_dir_at, is_link_at, is_stale};
use abs_model::{Entry, FILE_LIMIT};
use nfs2_types::stat::{ACCES, FBIG, ISDIR, NOENT, NOSPC, NXIO, STALE};
use nfs2_types::{Handle, Limits, Sattr, Stat, is_dot};

/// The refusals of SETATTR.
pub fn set_attr(entries: &[Entry], limits: &Limits, node: &Handle, s: &Sattr) -> Option<Stat>
    requires { used entries.now ≤ limits.now.t }
    ensures { result ≡ first_of (refusals entries.now limits.now (set_attr node.now s.now)) }
{
    let i = at(entries, node);
    if is_stale(entries, node) {
        return Some(STALE);
    }
    let Some(size) = s.size else {
        return None;
    };
    if is_dir_at(entries, i) {
        return Some(ISDIR);
    }
    if is_link_at(entries, i) {
        return Some(ACCES);
    }
    if size > FILE_LIMIT {
        return Some(FBIG);
    }
    let had = bytes_at(entries, i).len() as u64;
    if no_room(entries, limits, had, u64::from(size)) {
        return Some(NOSPC);
    }
    None
}

/// The refusals of LOOKUP.
pub fn lookup(entries: &[Entry], dir: &Handle, name: &[u8]) -> Option<Stat>
    ensures { result ≡ first_of (refusals entries.now any_limits (lookup dir.now name.now)) }
{
    if let Some(status) = name_status(entries, dir, name) {
        return Some(status);
    }
    if !is_dot(name) && !has_name(entries, at(entries, dir), name) {
        return Some(NOENT);
    }
    None
}

/// The refusals of READLINK.
pub fn read_link(entries: &[Entry], node: &Handle) -> Option<Stat>
    ensures { result ≡ first_of (refusals entries.now any_limits (read_link node.now)) }
{
    if let Some(status) = node_status(entries, node) {
        return Some(status);
    }
    if !is_link_at(entries, at(entries, node)) {
        return Some(NXIO);
    }
    None
}
