//! Writes the arguments of a call.

ghost use Rattle.std.specs.Prelude.{◌≡◌, ◌++◌, ◌<◌, ◌^◌, IfOk, OnOk, true, length};
ghost use Rattle.xdr_core.specs.Items.{spell_word};
ghost use Rattle.xdr_core.specs.Grammar.{Spells};
ghost use Rattle.nfs2_types.specs.Call.{call_of, call_fits, set_attr, read, write, create, link, symlink, read_dir};
ghost use Rattle.nfs2_args.specs.Forms.{args_form};
ghost use Rattle.nfs2_args.specs.Spelling.{number_of, call_fields_fit, IsShaped};
ghost use Rattle.nfs2_args.specs.Spelling.{word_of, time_text, sattr_text, place_text, args_text};

use crate::fields::ALL_ONES;
use nfs2_types::{Args, Handle, NoMemory, Sattr, SetTime};
use std::alloc::Global;
use xdr_core::Writer;

/// A mode, a uid, a gid or a size.
fn put_field(w: &mut Writer, field: Option<u32>) -> Result<(), NoMemory>
    ensures { OnOk result (w.new ≡ w.old ++ spell_word (word_of field)) }
{
    w.word(match field {
        None => ALL_ONES,
        Some(n) => n,
    })
}

/// The two words of a time.
fn put_time(w: &mut Writer, time: SetTime) -> Result<(), NoMemory>
    ensures { OnOk result (w.new ≡ w.old ++ time_text time) }
{
    match time {
        SetTime::Keep => {
            w.word(ALL_ONES)?;
            w.word(ALL_ONES)
        }
        SetTime::Now => {
            w.word(0)?;
            w.word(1_000_000)
        }
        SetTime::At(t) => {
            w.word(t.secs)?;
            w.word(t.micros)
        }
    }
}

/// The eight words of a sattr.
#[tactic(auto, unfolding(crate::specs::Spelling::sattr_text))]
fn put_sattr(w: &mut Writer, sattr: &Sattr) -> Result<(), NoMemory>
    ensures { OnOk result (w.new ≡ w.old ++ sattr_text sattr.now) }
{
    put_field(w, sattr.mode)?;
    put_field(w, sattr.uid)?;
    put_field(w, sattr.gid)?;
    put_field(w, sattr.size)?;
    put_time(w, sattr.atime)?;
    put_time(w, sattr.mtime)
}

/// A directory and a name in it.
fn put_place(w: &mut Writer, dir: &Handle, name: &[u8]) -> Result<(), NoMemory>
    requires { length name.now < 2 ^ 32 }
    ensures text { OnOk result (w.new ≡ w.old ++ place_text dir.now name.now) }
    ensures sized { length dir.now ≡ 32 }
{
    w.fixed(dir)?;
    w.opaque(name)
}

/// SETATTR's arguments.
fn put_set_attr(w: &mut Writer, node: &Handle, sattr: &Sattr) -> Result<(), NoMemory>
    ensures text { OnOk result (w.new ≡ w.old ++ args_text (set_attr node.now sattr.now)) }
    ensures shape { IsShaped (set_attr node.now sattr.now) }
{
    w.fixed(node)?;
    put_sattr(w, sattr)
}

/// READ's arguments.
fn put_read(w: &mut Writer, file: &Handle, offset: u32, count: u32) -> Result<(), NoMemory>
    ensures text { OnOk result (w.new ≡ w.old ++ args_text (read file.now offset count)) }
    ensures shape { IsShaped (read file.now offset count) }
{
    w.fixed(file)?;
    w.word(offset)?;
    w.word(count)?;
    w.word(0)
}

/// WRITE's arguments.
fn put_write(w: &mut Writer, file: &Handle, offset: u32, bytes: &[u8]) -> Result<(), NoMemory>
    requires { length bytes.now < 2 ^ 32 }
    ensures text { OnOk result (w.new ≡ w.old ++ args_text (write file.now offset bytes.now)) }
    ensures shape { IsShaped (write file.now offset bytes.now) }
{
    w.fixed(file)?;
    w.word(0)?;
    w.word(offset)?;
    w.word(0)?;
    w.opaque(bytes)
}

/// CREATE's and MKDIR's arguments.
fn put_new(w: &mut Writer, dir: &Handle, name: &[u8], sattr: &Sattr) -> Result<(), NoMemory>
    requires { length name.now < 2 ^ 32 }
    ensures text { OnOk result (w.new ≡ w.old ++ args_text (create dir.now name.now sattr.now)) }
    ensures shape { IsShaped (create dir.now name.now sattr.now) }
{
    put_place(w, dir, name)?;
    put_sattr(w, sattr)
}

/// LINK's arguments.
fn put_link(w: &mut Writer, node: &Handle, dir: &Handle, name: &[u8]) -> Result<(), NoMemory>
    requires { length name.now < 2 ^ 32 }
    ensures text { OnOk result (w.new ≡ w.old ++ args_text (link node.now dir.now name.now)) }
    ensures shape { OnOk result (IsShaped (link node.now dir.now name.now)) }
{
    w.fixed(node)?;
    put_place(w, dir, name)
}

/// SYMLINK's arguments.
fn put_symlink(
    w: &mut Writer,
    dir: &Handle,
    name: &[u8],
    text: &[u8],
    sattr: &Sattr,
) -> Result<(), NoMemory>
    requires name { length name.now < 2 ^ 32 }
    requires text { length text.now < 2 ^ 32 }
    ensures text { OnOk result (w.new ≡ w.old ++ args_text (symlink dir.now name.now text.now sattr.now)) }
    ensures shape { IsShaped (symlink dir.now name.now text.now sattr.now) }
{
    put_place(w, dir, name)?;
    w.opaque(text)?;
    put_sattr(w, sattr)
}

/// READDIR's arguments.
fn put_read_dir(w: &mut Writer, dir: &Handle, cookie: u32, count: u32) -> Result<(), NoMemory>
    ensures text { OnOk result (w.new ≡ w.old ++ args_text (read_dir dir.now cookie count)) }
    ensures shape { IsShaped (read_dir dir.now cookie count) }
{
    w.fixed(dir)?;
    w.word(cookie)?;
    w.word(count)
}

/// The arguments in their order.
fn put_args(w: &mut Writer, args: &Args) -> Result<(), NoMemory>
    requires { call_fits (call_of args.now) ≡ true }
    ensures text { OnOk result (w.new ≡ w.old ++ args_text (call_of args.now)) }
    ensures shape { OnOk result (IsShaped (call_of args.now)) }
{
    match args {
        Args::Null | Args::Root | Args::WriteCache => Ok(()),
        Args::GetAttr { node } | Args::ReadLink { node } | Args::StatFs { node } => w.fixed(node),
        Args::SetAttr { node, sattr } => put_set_attr(w, node, sattr),
        Args::Lookup { dir, name } | Args::Remove { dir, name } | Args::RmDir { dir, name } => {
            put_place(w, dir, name)
        }
        Args::Read {
            file,
            offset,
            count,
        } => put_read(w, file, *offset, *count),
        Args::Write {
            file,
            offset,
            bytes,
        } => put_write(w, file, *offset, bytes),
        Args::Create { dir, name, sattr } | Args::MkDir { dir, name, sattr } => {
            put_new(w, dir, name, sattr)
        }
        Args::Rename {
            from,
            name,
            to,
            to_name,
        } => {
            put_place(w, from, name)?;
            put_place(w, to, to_name)
        }
        Args::Link { node, dir, name } => put_link(w, node, dir, name),
        Args::Symlink {
            dir,
            name,
            text,
            sattr,
        } => put_symlink(w, dir, name, text, sattr),
        Args::ReadDir { dir, cookie, count } => put_read_dir(w, dir, *cookie, *count),
    }
}

/// The arguments in the spelling that a field not given is all ones, a time left alone is all ones twice, the time of
/// the request is the words 0 and 1,000,000, and an ignored word is 0. `read_args` reads them again.
pub fn write_args(alloc: Global, args: &Args) -> Result<Vec<u8>, NoMemory>
    requires fits { call_fits (call_of args.now) ≡ true }
    requires fields { call_fields_fit (call_of args.now) ≡ true }
    ensures text { IfOk result (λ v. v.items ≡ args_text (call_of args.now)) }
    ensures again { IfOk result (λ v. Spells (args_form (number_of (call_of args.now))) (call_of args.now) v.items) }
{
    let mut w = Writer::new(alloc);
    put_args(&mut w, args)?;
    Ok(w.into_bytes())
}
