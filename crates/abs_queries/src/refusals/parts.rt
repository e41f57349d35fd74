//! The tests that calls share: of a handle, of a directory, and of a name in one.

ghost use Rattle.std.specs.Prelude.{◌≡◌, ◌<◌, ◌≤◌, ◌^◌, ◌+◌};
ghost use Rattle.abs_model.specs.Array.{used};
ghost use Rattle.abs_model.specs.Machine.{first_of, node_tests, dir_tests, in_dir, old_name_tests, new_name_tests, file_tests};

use super::no_new;
use crate::look::{at, has_name, is_dir_at, is_link_at, is_stale};
use abs_model::Entry;
use nfs2_types::stat::{ACCES, EXIST, ISDIR, NOENT, NOSPC, NOTDIR, PERM, STALE};
use nfs2_types::{Handle, Limits, Stat, is_bad, is_dot};

/// The tests of a handle.
pub fn node_status(entries: &[Entry], node: &Handle) -> Option<Stat>
    ensures { result ≡ first_of (node_tests entries.now node.now) }
{
    if is_stale(entries, node) {
        return Some(STALE);
    }
    None
}

/// The tests of a directory.
pub fn dir_status(entries: &[Entry], dir: &Handle) -> Option<Stat>
    ensures { result ≡ first_of (dir_tests entries.now dir.now) }
{
    if is_stale(entries, dir) {
        return Some(STALE);
    }
    if !is_dir_at(entries, at(entries, dir)) {
        return Some(NOTDIR);
    }
    None
}

/// The tests of a directory and a name in it.
pub fn name_status(entries: &[Entry], dir: &Handle, name: &[u8]) -> Option<Stat>
    ensures { result ≡ first_of (in_dir entries.now dir.now name.now) }
{
    if let Some(status) = dir_status(entries, dir) {
        return Some(status);
    }
    if is_bad(name) {
        return Some(ACCES);
    }
    None
}

/// The tests of a name that goes.
pub fn old_name_status(entries: &[Entry], dir: &Handle, name: &[u8]) -> Option<Stat>
    ensures { result ≡ first_of (old_name_tests entries.now dir.now name.now) }
{
    if let Some(status) = name_status(entries, dir, name) {
        return Some(status);
    }
    if is_dot(name) {
        return Some(PERM);
    }
    if !has_name(entries, at(entries, dir), name) {
        return Some(NOENT);
    }
    None
}

/// The tests of a name that comes with a new object of so many bytes.
pub fn new_name_status(
    entries: &[Entry],
    limits: &Limits,
    dir: &Handle,
    name: &[u8],
    bytes: u64,
) -> Option<Stat>
    requires room { used entries.now ≤ limits.now.t }
    requires few { 512 + bytes < 2 ^ 64 }
    ensures { result ≡ first_of (new_name_tests entries.now limits.now dir.now name.now bytes) }
{
    if let Some(status) = name_status(entries, dir, name) {
        return Some(status);
    }
    if is_dot(name) || has_name(entries, at(entries, dir), name) {
        return Some(EXIST);
    }
    if no_new(entries, limits, bytes) {
        return Some(NOSPC);
    }
    None
}

/// The tests of a file.
pub fn file_status(entries: &[Entry], file: &Handle) -> Option<Stat>
    ensures { result ≡ first_of (file_tests entries.now file.now) }
{
    let i = at(entries, file);
    if is_stale(entries, file) {
        return Some(STALE);
    }
    if is_dir_at(entries, i) {
        return Some(ISDIR);
    }
    if is_link_at(entries, i) {
        return Some(ACCES);
    }
    None
}
