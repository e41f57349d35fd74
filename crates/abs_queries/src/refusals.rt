//! The refusals of each call, in their order.

ghost use Rattle.std.specs.Prelude.{◌≡◌, ◌<◌, ◌≤◌, ◌^◌, ◌+◌, true};
ghost use Rattle.nfs2_types.specs.Call.{call_of, call_fits};
ghost use Rattle.abs_model.specs.Array.{used};
ghost use Rattle.abs_model.specs.Machine.{first_of, refusals, no_room, no_new};

use crate::look::{free, used};
use abs_model::{Entry, NAME_SPACE};
use nfs2_types::{Args, Limits, Stat};

mod files;
mod names;
mod objects;
mod parts;

/// More than T would be used after `goes` bytes go and `comes` bytes come.
fn no_room(entries: &[Entry], limits: &Limits, goes: u64, comes: u64) -> bool
    requires { used entries.now ≤ limits.now.t }
    ensures { result ≡ no_room entries.now limits.now goes comes }
{
    let most = u128::from(limits.t);
    (used(entries) + u128::from(comes)).saturating_sub(u128::from(goes)) > most
}

/// A new name of a new object with these bytes finds no index or no space.
fn no_new(entries: &[Entry], limits: &Limits, bytes: u64) -> bool
    requires room { used entries.now ≤ limits.now.t }
    requires few { 512 + bytes < 2 ^ 64 }
    ensures { result ≡ no_new entries.now limits.now bytes }
{
    free(entries).is_none() || no_room(entries, limits, 0, u64::from(NAME_SPACE) + bytes)
}

/// The status with which a call is refused, where it is.
pub fn refusal(entries: &[Entry], limits: &Limits, args: &Args) -> Option<Stat>
    requires room { used entries.now ≤ limits.now.t }
    requires fits { call_fits (call_of args.now) ≡ true }
    ensures { result ≡ first_of (refusals entries.now limits.now (call_of args.now)) }
{
    match args {
        Args::Null | Args::Root | Args::WriteCache => None,
        Args::GetAttr { node } | Args::StatFs { node } => parts::node_status(entries, node),
        Args::SetAttr { node, sattr } => objects::set_attr(entries, limits, node, sattr),
        Args::Lookup { dir, name } => objects::lookup(entries, dir, name),
        Args::ReadLink { node } => objects::read_link(entries, node),
        Args::Read { file, .. } => parts::file_status(entries, file),
        Args::Write {
            file,
            offset,
            bytes,
        } => files::write(entries, limits, file, *offset, bytes),
        Args::Create { dir, name, sattr } => files::create(entries, limits, dir, name, sattr),
        Args::Remove { dir, name } => names::remove(entries, dir, name),
        Args::Rename {
            from,
            name,
            to,
            to_name,
        } => names::rename(entries, from, name, to, to_name),
        Args::Link { node, dir, name } => names::link(entries, limits, node, dir, name),
        Args::Symlink {
            dir,
            name,
            text,
            ..
        } => parts::new_name_status(entries, limits, dir, name, text.len() as u64),
        Args::MkDir { dir, name, .. } => parts::new_name_status(entries, limits, dir, name, 0),
        Args::RmDir { dir, name } => names::remove_dir(entries, dir, name),
        Args::ReadDir { dir, .. } => parts::dir_status(entries, dir),
    }
}
