//! The part of a directory's list that one READDIR gives (RFC 1094, 2.2.17).

ghost use Rattle.std.specs.Prelude.{◌≡◌, ◌≤◌, ◌+◌, ◌<◌, ◌^◌, List, Some, length, slice_get, IfOk};
ghost use Rattle.abs_model.specs.Listed.{room_of, page};
ghost use Rattle.wrap_read.specs.Rows.{CanNumber, all_entries, fileid_of, HasFileids};

use abs_model::TRANSFER_LIMIT;
use conf_map::index_of;
use nfs2_types::{Blob, ListEntry, Listing, NfsResult, NoMemory};
use server_trait::{ConfTable, Listed};
use std::alloc::Global;

/// The bytes that close a list: that no entry follows, and whether it is at its end.
const CLOSING: u32 = 8;

/// The fileid of a listed name.
fn fileid_of(table: &ConfTable, listed: &Listed) -> u32
    requires { HasFileids table.now }
    ensures { result ≡ fileid_of table.now listed.now }
{
    index_of(table, &listed.handle).unwrap_or(0) + 1
}

/// The bytes that an entry takes in a list.
fn room_of(entry: &ListEntry) -> u128
    ensures { result ≡ room_of entry.now }
{
    16 + (entry.name.len() as u128 + 3) / 4 * 4
}

/// The entry at a place of a directory's list: first ".", then "..", then its names in their order.
fn entry_of(
    alloc: Global,
    table: &ConfTable,
    d: u32,
    parent: u32,
    names: &[Listed],
    place: usize,
) -> Result<ListEntry, NoMemory>
    requires can { CanNumber table.now d parent names.now }
    requires within { place < 2 + length names.now }
    ensures { IfOk result (λ e. slice_get (all_entries table.now d parent names.now) place ≡ Some e) }
{
    let cookie = place as u32 + 1;
    if place == 0 {
        return Ok(ListEntry {
            fileid: d + 1,
            name: Blob::from_slice(alloc, b".")?,
            cookie,
        });
    }
    if place == 1 {
        return Ok(ListEntry {
            fileid: parent + 1,
            name: Blob::from_slice(alloc, b"..")?,
            cookie,
        });
    }
    let listed = &names[place - 2];
    let name = listed.name.clone()?;
    Ok(ListEntry {
        fileid: fileid_of(table, listed),
        name,
        cookie,
    })
}

/// The entries from a cookie on, as many as take at most the count of bytes. It builds no entry before them, and one
/// behind them at most.
pub fn page(
    alloc: Global,
    table: &ConfTable,
    d: u32,
    parent: u32,
    names: &[Listed],
    cookie: u32,
    count: u32,
) -> Result<NfsResult, NoMemory>
    requires { CanNumber table.now d parent names.now }
    ensures { IfOk result (λ r. r ≡ page (all_entries table.now d parent names.now) cookie count) }
{
    let mut left = u128::from(count.min(TRANSFER_LIMIT).saturating_sub(CLOSING));
    let mut given = Vec::new(alloc);
    let mut place = cookie as usize;
    while place < 2 + names.len() {
        let entry = entry_of(alloc, table, d, parent, names, place)?;
        let needed = room_of(&entry);
        if needed > left {
            return Ok(NfsResult::Entries {
                entries: Listing::new(given),
                eof: false,
            });
        }
        left -= needed;
        given.push(entry)?;
        place += 1;
    }
    Ok(NfsResult::Entries {
        entries: Listing::new(given),
        eof: true,
    })
}
