//! Refusals of the calls that write bytes.

ghost use Rattle.std.specs.Prelude.{◌≡◌, ◌≤◌, length};
ghost use Rattle.nfs2_types.specs.Call.{write, create};
ghost use Rattle.abs_model.specs.Array.{used};
ghost use Rattle.abs_model.specs.Machine.{first_of, refusals};
ghost use Rattle.abs_queries.specs.Refused.{no_file};

use super::parts::{file_status, name_status};
use super::{no_new, no_room};
use crate::look::{at, bytes_at, has_name, is_file_at, target};
use abs_model::{Entry, FILE_LIMIT};
use nfs2_types::stat::{EXIST, FBIG, NOSPC};
use nfs2_types::{Handle, Limits, Sattr, Stat, is_dot};

/// The refusals of WRITE.
pub fn write(
    entries: &[Entry],
    limits: &Limits,
    file: &Handle,
    offset: u32,
    bytes: &[u8],
) -> Option<Stat>
    requires room { used entries.now ≤ limits.now.t }
    requires short { length bytes.now ≤ 8192 }
    ensures { result ≡ first_of (refusals entries.now limits.now (write file.now offset bytes.now)) }
{
    if let Some(status) = file_status(entries, file) {
        return Some(status);
    }
    if bytes.is_empty() {
        return None;
    }
    let end = u64::from(offset) + bytes.len() as u64;
    if end > u64::from(FILE_LIMIT) {
        return Some(FBIG);
    }
    let had = bytes_at(entries, at(entries, file)).len() as u64;
    if no_room(entries, limits, had, had.max(end)) {
        return Some(NOSPC);
    }
    None
}

/// CREATE finds no space.
fn no_file(entries: &[Entry], limits: &Limits, d: usize, name: &[u8], s: &Sattr) -> bool
    requires { used entries.now ≤ limits.now.t }
    ensures { result ≡ no_file entries.now limits.now d name.now s.now }
{
    if !has_name(entries, d, name) {
        return no_new(entries, limits, u64::from(s.size.unwrap_or(0)));
    }
    match s.size {
        Some(size) => {
            let i = target(entries, d, name);
            no_room(
                entries,
                limits,
                bytes_at(entries, i).len() as u64,
                u64::from(size),
            )
        }
        None => false,
    }
}

/// The refusals of CREATE.
pub fn create(
    entries: &[Entry],
    limits: &Limits,
    dir: &Handle,
    name: &[u8],
    s: &Sattr,
) -> Option<Stat>
    requires { used entries.now ≤ limits.now.t }
    ensures { result ≡ first_of (refusals entries.now limits.now (create dir.now name.now s.now)) }
{
    if let Some(status) = name_status(entries, dir, name) {
        return Some(status);
    }
    let d = at(entries, dir);
    if is_dot(name) {
        return Some(EXIST);
    }
    if has_name(entries, d, name) && !is_file_at(entries, target(entries, d, name)) {
        return Some(EXIST);
    }
    if s.size.unwrap_or(0) > FILE_LIMIT {
        return Some(FBIG);
    }
    if no_file(entries, limits, d, name, s) {
        return Some(NOSPC);
    }
    None
}
