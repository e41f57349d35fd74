//! The object of a call, and why the call is refused.

ghost use Rattle.std.specs.Prelude.{◌≡◌, ◌<◌, ◌^◌, ◌+◌, max, List, length, IfOk, OnOk};
ghost use Rattle.nfs2_types.specs.Call as calls;
ghost use Rattle.abs_model.specs.declared.entry.Entry.{Entry};
ghost use Rattle.abs_model.specs.Machine.{first_of, refusals, node_tests};
ghost use Rattle.conf_map.specs.Found.{Finds, IsSeen};
ghost use Rattle.conf_map.specs.Notice.{Watched};
ghost use Rattle.conf_map.specs.Stands.{StandValid};
ghost use Rattle.conf_map.specs.Tallied.{Tallied};
ghost use Rattle.wrap_write.specs.Targets as targets;
ghost use Rattle.wrap_write.specs.Targets.{write_tests, size_tests, IsTarget};

use abs_model::FILE_LIMIT;
use conf_map::{Located, locate, no_room, object_at};
use nfs2_types::{Handle, Kind, Limits, Sattr, Stat, stat};
use server_trait::{ConfTable, NodeAttr, Srv, WrapErr};

/// A live object, and what its server tells of it.
#[derive(Clone, Copy, Debug)]
pub struct Target {
    pub at: Located,
    pub attr: NodeAttr,
}

/// The object that a handle names, or STALE.
fn find_target(
    server: &mut Srv,
    table: &ConfTable,
    node: &Handle,
) -> Result<Result<Target, Stat>, WrapErr>
    requires { (A : List Entry) × StandValid (state server.old).tree table.now A }
    ensures found { IfOk result (λ r. (A : List Entry) →
        StandValid (state server.old).tree table.now A →
        Finds (node_tests A node.now) (IsTarget A table.now.rows.items node.now) r) }
    ensures same { OnOk result ((state server.new).tree ≡ (state server.old).tree) }
    ensures watched { Watched (state server.old) (state server.new) result }
{
    let Some(at) = locate(table, node) else {
        return Ok(Err(stat::STALE));
    };
    let attr = object_at(server, table, &at)?;
    Ok(Ok(Target { at, attr }))
}

/// ISDIR or ACCES for what is no file.
fn no_file(attr: &NodeAttr) -> Option<Stat>
    ensures { result ≡ targets.no_file attr.now }
{
    match attr.kind {
        Kind::File => None,
        Kind::Dir => Some(stat::ISDIR),
        Kind::Link => Some(stat::ACCES),
    }
}

/// FBIG where bytes end behind the largest file, or NOSPC where a file of `goes` bytes can't have so many, and `least`.
fn no_space(table: &ConfTable, limits: &Limits, goes: u32, end: u64, least: u32) -> Option<Stat>
    ensures { (A : List Entry) → Tallied table.now A →
        result ≡ targets.no_space A limits.now goes end (max least end) }
{
    if end > u64::from(FILE_LIMIT) {
        return Some(stat::FBIG);
    }
    if no_room(table, limits, goes, least.max(end as u32)) {
        return Some(stat::NOSPC);
    }
    None
}

/// Why so many bytes can't be written to an object at an offset, if they can't.
fn no_write(
    table: &ConfTable,
    limits: &Limits,
    attr: &NodeAttr,
    offset: u32,
    count: usize,
) -> Option<Stat>
    requires few { count < 2 ^ 32 }
    ensures { (A : List Entry) (e : Entry) → Tallied table.now A → IsSeen e attr.now →
        result ≡ first_of (write_tests A limits.now e offset count) }
{
    if let Some(refused) = no_file(attr) {
        return Some(refused);
    }
    if count == 0 {
        return None;
    }
    let end = offset as u64 + count as u64;
    no_space(table, limits, attr.size, end, attr.size)
}

/// Why an object can't have a size, if one is given and it can't.
fn no_size(table: &ConfTable, limits: &Limits, attr: &NodeAttr, size: Option<u32>) -> Option<Stat>
    ensures { (A : List Entry) (e : Entry) → Tallied table.now A → IsSeen e attr.now →
        result ≡ first_of (size_tests A limits.now e size) }
{
    let Some(size) = size else {
        return None;
    };
    if let Some(refused) = no_file(attr) {
        return Some(refused);
    }
    no_space(table, limits, attr.size, size as u64, 0)
}

/// The file of a WRITE, or the status of its first refusal: STALE, ISDIR, ACCES, FBIG or NOSPC.
pub fn to_write(
    server: &mut Srv,
    table: &ConfTable,
    limits: &Limits,
    file: &Handle,
    offset: u32,
    bytes: &[u8],
) -> Result<Result<Target, Stat>, WrapErr>
    requires stands { (A : List Entry) × StandValid (state server.old).tree table.now A }
    requires few { length bytes.now < 2 ^ 32 }
    ensures found { IfOk result (λ r. (A : List Entry) →
        StandValid (state server.old).tree table.now A →
        Finds (refusals A limits.now (calls.write file.now offset bytes.now))
        (IsTarget A table.now.rows.items file.now) r) }
    ensures same { OnOk result ((state server.new).tree ≡ (state server.old).tree) }
    ensures watched { Watched (state server.old) (state server.new) result }
{
    let target = match find_target(server, table, file)? {
        Ok(target) => target,
        Err(refused) => return Ok(Err(refused)),
    };
    match no_write(table, limits, &target.attr, offset, bytes.len()) {
        Some(refused) => Ok(Err(refused)),
        None => Ok(Ok(target)),
    }
}

/// The object of a SETATTR, or the status of its first refusal: STALE, ISDIR, ACCES, FBIG or NOSPC.
pub fn to_set(
    server: &mut Srv,
    table: &ConfTable,
    limits: &Limits,
    node: &Handle,
    sattr: &Sattr,
) -> Result<Result<Target, Stat>, WrapErr>
    requires { (A : List Entry) × StandValid (state server.old).tree table.now A }
    ensures found { IfOk result (λ r. (A : List Entry) →
        StandValid (state server.old).tree table.now A →
        Finds (refusals A limits.now (calls.set_attr node.now sattr.now))
        (IsTarget A table.now.rows.items node.now) r) }
    ensures same { OnOk result ((state server.new).tree ≡ (state server.old).tree) }
    ensures watched { Watched (state server.old) (state server.new) result }
{
    let target = match find_target(server, table, node)? {
        Ok(target) => target,
        Err(refused) => return Ok(Err(refused)),
    };
    match no_size(table, limits, &target.attr, sattr.size) {
        Some(refused) => Ok(Err(refused)),
        None => Ok(Ok(target)),
    }
}
