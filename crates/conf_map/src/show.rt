//! What a client sees of an object.

ghost use Rattle.std.specs.Prelude.{◌≡◌, ◌<◌, ◌≤◌, ◌+◌, ◌^◌, List, IfOk, OnOk};
ghost use Rattle.abs_model.specs.declared.entry.Entry.{Entry};
ghost use Rattle.abs_model.specs.Array.{fattr, fattr_by};
ghost use Rattle.abs_model.specs.Machine as machine;
ghost use Rattle.conf_map.specs.Stands.{StandValid};
ghost use Rattle.conf_map.specs.Notice.{Watched};
ghost use Rattle.conf_map.specs.Shown.{attr_by, shown, AreSmall, IsTold};
ghost use Rattle.conf_map.specs.Tables.{IsLive};

use crate::object::object_at;
use crate::table::Located;
use abs_model::{DIR_MODE, DIR_TYPE, FILE_MODE, FILE_TYPE, LINK_MODE, LINK_TYPE};
use nfs2_types::{Fattr, Kind, NfsResult, Oid, handle_of};
use server_trait::{ConfEntry, ConfTable, NodeAttr, Srv, WrapErr};

/// The words of fattr with these four, which go by the kind of object (RFC 1094, 2.3.5).
fn fattr_words(
    attr: &NodeAttr,
    row: &ConfEntry,
    ftype: u32,
    kind_bits: u32,
    nlink: u32,
    size: u32,
    index: u32,
) -> Fattr
    requires mode { kind_bits + attr.now.mode < 2 ^ 32 }
    requires size { size ≤ 67108864 }
    requires index { index < 4096 }
    ensures { result ≡ fattr_by (attr_by attr.now row.now) ftype kind_bits nlink size index }
{
    Fattr {
        ftype,
        mode: kind_bits + attr.mode,
        nlink,
        uid: attr.uid,
        gid: attr.gid,
        size,
        blocksize: 4096,
        rdev: 0,
        blocks: (size + 511) / 512,
        fsid: 1,
        fileid: index + 1,
        atime_secs: row.atime.secs,
        atime_micros: row.atime.micros,
        mtime_secs: row.mtime.secs,
        mtime_micros: row.mtime.micros,
        ctime_secs: row.ctime.secs,
        ctime_micros: row.ctime.micros,
    }
}

/// What a client sees of a node, from what its server tells and its row keeps.
fn fattr_of(attr: &NodeAttr, row: &ConfEntry, index: u32) -> Fattr
    requires { AreSmall attr.now index }
    ensures { result ≡ shown attr.now row.now index }
{
    match attr.kind {
        Kind::File => fattr_words(
            attr, row, FILE_TYPE, FILE_MODE, attr.links, attr.size, index,
        ),
        Kind::Dir => {
            let size = 512 + 32 * attr.size;
            fattr_words(attr, row, DIR_TYPE, DIR_MODE, 2 + attr.links, size, index)
        }
        Kind::Link => fattr_words(
            attr, row, LINK_TYPE, LINK_MODE, attr.links, attr.size, index,
        ),
    }
}

/// The attributes of a live object, from what the server told of it.
pub fn fattr_from(table: &ConfTable, at: &Located, attr: &NodeAttr) -> Fattr
    requires live { IsLive table.now.rows.items at.now }
    requires small { AreSmall attr.now at.now.index }
    ensures { (A : List Entry) → IsTold A table.now.rows.items at.now.index attr.now → result ≡ fattr A at.now.index }
{
    fattr_of(attr, &table.rows[at.index as usize], at.index)
}

/// The attributes of a live object.
pub fn fattr_at(server: &mut Srv, table: &ConfTable, at: &Located) -> Result<Fattr, WrapErr>
    requires stands { (A : List Entry) × StandValid (state server.old).tree table.now A }
    requires live { IsLive table.now.rows.items at.now }
    ensures fattr { IfOk result (λ f. (A : List Entry) →
        StandValid (state server.old).tree table.now A → f ≡ fattr A at.now.index) }
    ensures same { OnOk result ((state server.new).tree ≡ (state server.old).tree) }
    ensures watched { Watched (state server.old) (state server.new) result }
{
    let attr = object_at(server, table, at)?;
    Ok(fattr_from(table, at, &attr))
}

/// The handle and the attributes of a live object (RFC 1094, 2.3.10: diropres).
pub fn node_of(server: &mut Srv, table: &ConfTable, at: &Located) -> Result<NfsResult, WrapErr>
    requires stands { (A : List Entry) × StandValid (state server.old).tree table.now A }
    requires live { IsLive table.now.rows.items at.now }
    ensures node { IfOk result (λ r. (A : List Entry) →
        StandValid (state server.old).tree table.now A → r ≡ machine.node_at A at.now.index) }
    ensures same { OnOk result ((state server.new).tree ≡ (state server.old).tree) }
    ensures watched { Watched (state server.old) (state server.new) result }
{
    let fattr = fattr_at(server, table, at)?;
    let handle = handle_of(Oid {
        index: at.index,
        generation: table.rows[at.index as usize].generation,
    });
    Ok(NfsResult::Node { handle, fattr })
}
