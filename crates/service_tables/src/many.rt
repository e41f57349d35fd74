//! A directory of three hundred names, read in pages, and a chain of forty directories with names of 255 bytes.

ghost use Rattle.std.specs.Prelude.{OnOk, ◌≤◌};
ghost use Rattle.service_tables.specs.Ready.{IsReady};

use crate::service::Service;
use crate::words::{KEEP, ROOT};
use nfs2_types::NfsResult;
use server_trait::{FileServer, Srv};
use std::alloc::Global;
use std::test::Fail;

const MANY: u32 = 300;

const DEPTH: u32 = 40;

/// The handle of an index.
fn handle(index: u32) -> [u32; 8] {
    [0x42415345, index, 1, 0, 0, 0, 0, 0]
}

/// A name of four bytes: a letter and the number in three digits.
fn short_name(number: u32) -> [u32; 2] {
    let digits = number / 100 % 10 * 0x10000 + number / 10 % 10 * 0x100 + number % 10;
    [4, 0x6e303030 + digits]
}

/// A name of 255 bytes that begins so.
fn long_name(number: u32) -> [u32; 65] {
    let mut name = [0x64646464; 65];
    name[0] = 255;
    name[1] = 0x6e303030 + number / 10 % 10 * 0x100 + number % 10;
    name[64] = 0x64646400;
    name
}

/// Makes the names in the root.
pub fn filled(alloc: Global, service: &mut Service) -> Result<(), Fail>
    requires { IsReady service.old.limits (⟦<Srv as FileServer>⟧.state service.old.server) service.old.table }
    ensures { OnOk result
        (IsReady service.new.limits (⟦<Srv as FileServer>⟧.state service.new.server) service.new.table) }
{
    for number in 0..MANY {
        service.gives(alloc, 0, 9, &[&ROOT, &short_name(number), &KEEP])?;
    }
    Ok(())
}

/// How many entries the root has, by READDIR in pages of so many bytes.
pub fn paged(alloc: Global, service: &mut Service, count: u32) -> Result<usize, Fail>
    requires { IsReady service.old.limits (⟦<Srv as FileServer>⟧.state service.old.server) service.old.table }
    ensures { OnOk result
        (IsReady service.new.limits (⟦<Srv as FileServer>⟧.state service.new.server) service.new.table) }
{
    let mut cookie = 0;
    let mut found: usize = 0;
    for _page in 0..MANY {
        let page = service.call(alloc, 16, &[&ROOT, &[cookie, count]])?;
        let NfsResult::Entries { entries, eof } = &page else {
            return Err("no entries".into());
        };
        found = found.saturating_add(entries.as_slice().len());
        if *eof {
            return Ok(found);
        }
        let Some(last) = entries.as_slice().last() else {
            return Err("an empty page".into());
        };
        cookie = last.cookie;
    }
    Err("too many pages".into())
}

/// Makes a chain of directories from the root on, the first of this index, and moves its top.
pub fn chained(alloc: Global, service: &mut Service, first: u32) -> Result<(), Fail>
    requires few { first ≤ 1000 }
    requires ready { IsReady service.old.limits (⟦<Srv as FileServer>⟧.state service.old.server) service.old.table }
    ensures { OnOk result
        (IsReady service.new.limits (⟦<Srv as FileServer>⟧.state service.new.server) service.new.table) }
{
    service.gives(alloc, 0, 14, &[&ROOT, &long_name(0), &KEEP])?;
    for number in 1..DEPTH {
        let above = handle(first + number - 1);
        service.gives(alloc, 0, 14, &[&above, &long_name(number), &KEEP])?;
    }
    service.gives(
        alloc,
        0,
        11,
        &[&ROOT, &long_name(0), &ROOT, &long_name(DEPTH)],
    )?;
    service.gives(alloc, 2, 4, &[&ROOT, &long_name(0)])?;
    service.gives(alloc, 0, 4, &[&ROOT, &long_name(DEPTH)])?;
    for number in 1..DEPTH {
        let above = handle(first + number - 1);
        service.gives(alloc, 0, 4, &[&above, &long_name(number)])?;
        service.gives(alloc, 0, 16, &[&above, &[0, 4096]])?;
    }
    Ok(())
}
