//! Refusals of the calls that move names.

ghost use Rattle.std.specs.Prelude.{◌≡◌, ◌≤◌};
ghost use Rattle.nfs2_types.specs.Call.{remove, rename, link, remove_dir};
ghost use Rattle.abs_model.specs.Array.{used};
ghost use Rattle.abs_model.specs.Machine.{first_of, refusals};
ghost use Rattle.abs_queries.specs.Refused.{any_limits};

use super::no_room;
use super::parts::old_name_status;
use crate::look::{at, climbs_to, has_name, has_names_at, is_dir_at, is_stale, target};
use abs_model::{Entry, NAME_SPACE};
use nfs2_types::stat::{ACCES, EXIST, ISDIR, NOENT, NOSPC, NOTDIR, NOTEMPTY, PERM, STALE};
use nfs2_types::{Handle, Limits, Stat, is_bad, is_dot};

/// The refusals of REMOVE.
pub fn remove(entries: &[Entry], dir: &Handle, name: &[u8]) -> Option<Stat>
    ensures { result ≡ first_of (refusals entries.now any_limits (remove dir.now name.now)) }
{
    if let Some(status) = old_name_status(entries, dir, name) {
        return Some(status);
    }
    if is_dir_at(entries, target(entries, at(entries, dir), name)) {
        return Some(ISDIR);
    }
    None
}

/// The refusals of RMDIR.
pub fn remove_dir(entries: &[Entry], dir: &Handle, name: &[u8]) -> Option<Stat>
    ensures { result ≡ first_of (refusals entries.now any_limits (remove_dir dir.now name.now)) }
{
    if let Some(status) = old_name_status(entries, dir, name) {
        return Some(status);
    }
    let i = target(entries, at(entries, dir), name);
    if !is_dir_at(entries, i) {
        return Some(NOTDIR);
    }
    if has_names_at(entries, i) {
        return Some(NOTEMPTY);
    }
    None
}

/// The refusals of LINK.
pub fn link(
    entries: &[Entry],
    limits: &Limits,
    node: &Handle,
    dir: &Handle,
    name: &[u8],
) -> Option<Stat>
    requires { used entries.now ≤ limits.now.t }
    ensures { result ≡ first_of (refusals entries.now limits.now (link node.now dir.now name.now)) }
{
    let d = at(entries, dir);
    if is_stale(entries, node) || is_stale(entries, dir) {
        return Some(STALE);
    }
    if is_dir_at(entries, at(entries, node)) {
        return Some(PERM);
    }
    if !is_dir_at(entries, d) {
        return Some(NOTDIR);
    }
    if is_bad(name) {
        return Some(ACCES);
    }
    if is_dot(name) {
        return Some(PERM);
    }
    if has_name(entries, d, name) {
        return Some(EXIST);
    }
    if no_room(entries, limits, 0, u64::from(NAME_SPACE)) {
        return Some(NOSPC);
    }
    None
}

/// The refusals of RENAME.
pub fn rename(
    entries: &[Entry],
    from: &Handle,
    name: &[u8],
    to: &Handle,
    to_name: &[u8],
) -> Option<Stat>
    ensures { result ≡ first_of (refusals entries.now any_limits
        (rename from.now name.now to.now to_name.now)) }
{
    let d = at(entries, from);
    let e = at(entries, to);
    if is_stale(entries, from) || is_stale(entries, to) {
        return Some(STALE);
    }
    if !is_dir_at(entries, d) || !is_dir_at(entries, e) {
        return Some(NOTDIR);
    }
    if is_bad(name) || is_bad(to_name) {
        return Some(ACCES);
    }
    if is_dot(name) || is_dot(to_name) {
        return Some(PERM);
    }
    if !has_name(entries, d, name) {
        return Some(NOENT);
    }
    let i = target(entries, d, name);
    if has_name(entries, e, to_name) {
        let j = target(entries, e, to_name);
        if i == j {
            return None;
        }
        if !is_dir_at(entries, i) && is_dir_at(entries, j) {
            return Some(ISDIR);
        }
        if is_dir_at(entries, i) && !is_dir_at(entries, j) {
            return Some(NOTDIR);
        }
        if is_dir_at(entries, i) && has_names_at(entries, j) {
            return Some(NOTEMPTY);
        }
    }
    if is_dir_at(entries, i) && climbs_to(entries, i, entries.len(), e) {
        return Some(ACCES);
    }
    None
}
