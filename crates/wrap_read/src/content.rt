//! What files and links hold: READLINK and READ (RFC 1094, 2.2.6 and 2.2.7).

ghost use Rattle.std.specs.Prelude.{◌≡◌, List, IfOk, OnOk};
ghost use Rattle.nfs2_types.specs.Call as calls;
ghost use Rattle.nfs2_types.specs.declared.Cred.{Cred};
ghost use Rattle.nfs2_types.specs.declared.Limits.{Limits};
ghost use Rattle.nfs2_types.specs.declared.Time.{Time};
ghost use Rattle.abs_model.specs.declared.entry.Entry.{Entry};
ghost use Rattle.abs_model.specs.Machine.{result_of, file_tests};
ghost use Rattle.conf_map.specs.Found.{Finds};
ghost use Rattle.conf_map.specs.Notice.{Watched};
ghost use Rattle.conf_map.specs.Stands.{StandValid};
ghost use Rattle.wrap_read.specs.Reads.{IsFileCall};

use abs_model::TRANSFER_LIMIT;
use conf_map::{Located, bytes_of, fattr_from, locate, object_at, text_of};
use nfs2_types::{Blob, Handle, Kind, NfsResult, Stat, stat};
use server_trait::{ConfTable, NodeAttr, Srv, WrapErr};

/// A file, and what its server tells of it.
#[derive(Clone, Copy, Debug)]
struct OpenFile {
    at: Located,
    attr: NodeAttr,
}

/// The file of a call, or the status of the first refusal: STALE, ISDIR, ACCES.
fn in_file(
    server: &mut Srv,
    table: &ConfTable,
    file: &Handle,
) -> Result<Result<OpenFile, Stat>, WrapErr>
    requires { (A : List Entry) × StandValid (state server.old).tree table.now A }
    ensures found { IfOk result (λ r. (A : List Entry) →
        StandValid (state server.old).tree table.now A →
        Finds (file_tests A file.now) (IsFileCall A table.now.rows.items file.now) r) }
    ensures same { OnOk result ((state server.new).tree ≡ (state server.old).tree) }
    ensures watched { Watched (state server.old) (state server.new) result }
{
    let Some(at) = locate(table, file) else {
        return Ok(Err(stat::STALE));
    };
    let attr = object_at(server, table, &at)?;
    match attr.kind {
        Kind::File => Ok(Ok(OpenFile { at, attr })),
        Kind::Dir => Ok(Err(stat::ISDIR)),
        Kind::Link => Ok(Err(stat::ACCES)),
    }
}

/// The text of a link.
pub fn read_link(server: &mut Srv, table: &ConfTable, node: &Handle) -> Result<NfsResult, WrapErr>
    requires { (A : List Entry) × StandValid (state server.old).tree table.now A }
    ensures result { IfOk result (λ r. (A : List Entry) (limits : Limits) (cred : Cred) (t : Time) →
        StandValid (state server.old).tree table.now A →
        r ≡ result_of A limits cred t (calls.read_link node.now)) }
    ensures same { OnOk result ((state server.new).tree ≡ (state server.old).tree) }
    ensures watched { Watched (state server.old) (state server.new) result }
{
    let Some(at) = locate(table, node) else {
        return Ok(NfsResult::Refused(stat::STALE));
    };
    let attr = object_at(server, table, &at)?;
    if !attr.is_link() {
        return Ok(NfsResult::Refused(stat::NXIO));
    }
    let text = text_of(server, table, &at)?;
    Ok(NfsResult::Path(Blob::new(text)))
}

/// The attributes of a file, and its bytes from an offset: at most the count, and at most 8,192.
pub fn read(
    server: &mut Srv,
    table: &ConfTable,
    file: &Handle,
    offset: u32,
    count: u32,
) -> Result<NfsResult, WrapErr>
    requires { (A : List Entry) × StandValid (state server.old).tree table.now A }
    ensures result { IfOk result (λ r. (A : List Entry) (limits : Limits) (cred : Cred) (t : Time) →
        StandValid (state server.old).tree table.now A →
        r ≡ result_of A limits cred t (calls.read file.now offset count)) }
    ensures same { OnOk result ((state server.new).tree ≡ (state server.old).tree) }
    ensures watched { Watched (state server.old) (state server.new) result }
{
    let open = match in_file(server, table, file)? {
        Ok(open) => open,
        Err(status) => return Ok(NfsResult::Refused(status)),
    };
    let fattr = fattr_from(table, &open.at, &open.attr);
    let bytes = bytes_of(server, table, &open.at, offset, count.min(TRANSFER_LIMIT))?;
    Ok(NfsResult::Content {
        fattr,
        bytes: Blob::new(bytes),
    })
}
