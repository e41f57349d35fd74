//! The directories of RENAME, and where its names lead in them.

ghost use Rattle.std.specs.Prelude.{◌≡◌, true, nat_le, List, length, IfOk, OnOk};
ghost use Rattle.abs_model.specs.declared.entry.Entry.{Entry};
ghost use Rattle.abs_model.specs.Machine.{first_of, two_dir_tests, two_name_tests};
ghost use Rattle.conf_map.specs.Notice.{Watched};
ghost use Rattle.conf_map.specs.Stands.{StandValid};
ghost use Rattle.wrap_names.specs.Renames.{end_tests, AreDirs, AreEnds};
ghost use Rattle.conf_map.specs.Found.{Finds};

use conf_map::{Located, follow, is_dir, locate};
use nfs2_types::{Handle, Stat, is_bad, is_dot, stat};
use server_trait::{ConfTable, FileServer, Srv, WrapErr};

/// The directory that loses a name, and the one that gets one.
#[derive(Clone, Copy, Debug)]
pub struct Dirs {
    pub from: Located,
    pub to: Located,
}

/// Both directories, the object to which the first name leads, and the one to which the second leads, if it is there.
#[derive(Clone, Copy, Debug)]
pub struct Ends {
    pub from: Located,
    pub to: Located,
    pub at: Located,
    pub over: Option<Located>,
}

/// The directories of two handles, or the status of the first refusal: STALE or NOTDIR.
fn dirs_of(
    server: &mut Srv,
    table: &ConfTable,
    from: &Handle,
    to: &Handle,
) -> Result<Result<Dirs, Stat>, WrapErr>
    requires stands { (A : List Entry) × StandValid (state server.old).tree table.now A }
    ensures found { IfOk result (λ r. (A : List Entry) →
        StandValid (state server.old).tree table.now A →
        Finds (two_dir_tests A from.now to.now) (AreDirs A table.now.rows.items from.now to.now) r) }
    ensures same { OnOk result ((state server.new).tree ≡ (state server.old).tree) }
    ensures watched { Watched (state server.old) (state server.new) result }
{
    let Some(first) = locate(table, from) else {
        return Ok(Err(stat::STALE));
    };
    let Some(second) = locate(table, to) else {
        return Ok(Err(stat::STALE));
    };
    if !is_dir(server, table, &first)? {
        return Ok(Err(stat::NOTDIR));
    }
    if !is_dir(server, table, &second)? {
        return Ok(Err(stat::NOTDIR));
    }
    Ok(Ok(Dirs {
        from: first,
        to: second,
    }))
}

/// The status by which either name is refused, if it is: ACCES or PERM.
fn name_refusal(name: &[u8], to_name: &[u8]) -> Option<Stat>
    ensures { result ≡ first_of (two_name_tests name.now to_name.now) }
{
    if is_bad(name) {
        return Some(stat::ACCES);
    }
    if is_bad(to_name) {
        return Some(stat::ACCES);
    }
    if is_dot(name) {
        return Some(stat::PERM);
    }
    if is_dot(to_name) {
        return Some(stat::PERM);
    }
    None
}

/// Where both names lead, or the status of the first refusal: STALE, NOTDIR, ACCES, PERM for a dot, or NOENT where
/// the first name is not there.
pub fn ends_of(
    server: &mut Srv,
    table: &ConfTable,
    from: &Handle,
    name: &[u8],
    to: &Handle,
    to_name: &[u8],
) -> Result<Result<Ends, Stat>, WrapErr>
    requires stands { (A : List Entry) × StandValid (state server.old).tree table.now A }
    requires short { nat_le (length name.now) 255 ≡ true }
    requires to_short { nat_le (length to_name.now) 255 ≡ true }
    ensures found { IfOk result (λ r. (A : List Entry) →
        StandValid (state server.old).tree table.now A →
        Finds (end_tests A from.now name.now to.now to_name.now)
        (AreEnds A table.now.rows.items from.now name.now to.now to_name.now) r) }
    ensures same { OnOk result ((state server.new).tree ≡ (state server.old).tree) }
    ensures watched { Watched (state server.old) (state server.new) result }
{
    let dirs = match dirs_of(server, table, from, to)? {
        Ok(dirs) => dirs,
        Err(refused) => return Ok(Err(refused)),
    };
    match name_refusal(name, to_name) {
        Some(refused) => return Ok(Err(refused)),
        None => {}
    }
    let Some(at) = follow(server, table, &dirs.from, name)? else {
        return Ok(Err(stat::NOENT));
    };
    let over = follow(server, table, &dirs.to, to_name)?;
    Ok(Ok(Ends {
        from: dirs.from,
        to: dirs.to,
        at,
        over,
    }))
}
