//! What each call puts where.

ghost use Rattle.std.specs.Prelude.{◌≡◌, ◌<◌, ◌^◌, [], IfOk, length};
ghost use Rattle.nfs2_types.specs.Call.{call_of};
ghost use Rattle.abs_model.specs.Machine.{changes, to_be, with_names};
ghost use Rattle.abs_plain.specs.Ready.{CanChange};

use crate::attrs::written_at;
use abs_model::{Change, Entry, NameRow, Names, Object};
use abs_queries::entries::attr_of;
use nfs2_types::{Args, Cred, Time};
use std::alloc::{AllocError, Global};

mod files;
mod makes;
mod moves;

/// A directory with other names, written at t.
fn with_names(e: &Entry, rows: Vec<NameRow>, t: Time) -> Entry
    ensures { result ≡ with_names (λ _. rows.items) t e.now }
{
    Entry {
        generation: e.generation,
        object: Object::Dir {
            attr: written_at(t, attr_of(e)),
            names: Names::new(rows),
        },
    }
}

/// The change that gives a directory other names.
fn change_names(e: &Entry, d: usize, rows: Vec<NameRow>, t: Time) -> Change
    requires { d < 2 ^ 32 }
    ensures { result ≡ to_be d (with_names (λ _. rows.items) t e.now) }
{
    Change {
        index: d as u32,
        entry: with_names(e, rows, t),
    }
}

/// What a call that is not refused puts where.
pub fn changes(
    alloc: Global,
    entries: &[Entry],
    cred: &Cred,
    t: Time,
    args: &Args,
) -> Result<Vec<Change>, AllocError>
    requires { CanChange entries.now (call_of args.now) }
    ensures { IfOk result (λ v. v.items ≡ changes entries.now cred.now t (call_of args.now)) }
{
    match args {
        Args::Null | Args::Root | Args::WriteCache => Ok(Vec::new(alloc)),
        Args::GetAttr { .. } | Args::Lookup { .. } | Args::ReadLink { .. } => Ok(Vec::new(alloc)),
        Args::Read { .. } | Args::ReadDir { .. } | Args::StatFs { .. } => Ok(Vec::new(alloc)),
        Args::SetAttr { node, sattr } => files::set_attr(alloc, entries, cred, t, node, sattr),
        Args::Write {
            file,
            offset,
            bytes,
        } => files::write(alloc, entries, cred, t, file, *offset, bytes),
        Args::Create { dir, name, sattr } => {
            files::create(alloc, entries, cred, t, dir, name, sattr)
        }
        Args::Remove { dir, name } => moves::remove(alloc, entries, cred, t, dir, name),
        Args::Rename {
            from,
            name,
            to,
            to_name,
        } => moves::rename(alloc, entries, cred, t, from, name, to, to_name),
        Args::Link { node, dir, name } => moves::link(alloc, entries, cred, t, node, dir, name),
        Args::Symlink {
            dir,
            name,
            text,
            sattr,
        } => makes::symlink(alloc, entries, cred, t, dir, name, text, sattr),
        Args::MkDir { dir, name, sattr } => {
            makes::make_dir(alloc, entries, cred, t, dir, name, sattr)
        }
        Args::RmDir { dir, name } => moves::remove_dir(alloc, entries, cred, t, dir, name),
    }
}
