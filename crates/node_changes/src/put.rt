//! Bytes that are put into a file.

ghost use Rattle.std.specs.Prelude.{◌≡◌, ◌≤◌, ◌+◌, max, List, ℕ, Some, length, OnOk};
ghost use Rattle.nfs2_types.specs.Bytes.{resized, overwritten};
ghost use Rattle.server_trait.specs.Tree.{Tree, bytes_at, edited, with_bytes};
ghost use Rattle.abs_model.specs.declared.entry.Entry.{Entry};
ghost use Rattle.abs_model.specs.Objects.{written};
ghost use Rattle.conf_map.specs.Notice.{Watched};
ghost use Rattle.conf_map.specs.Stands.{Stands};
ghost use Rattle.conf_map.specs.Tables.{IsLive};
ghost use Rattle.conf_map.specs.Tallied.{Tallied};
ghost use Rattle.node_changes.specs.Puts.{CanHold, CanWrite, size_after, with_bytes_at};

use crate::resize::resize;
use crate::rows::write_row;
use conf_map::{Located, broken};
use nfs2_types::{Handle, Time};
use server_trait::{ConfTable, FileServer, Srv, WrapErr};

/// Fills a file of this size with zeros up to an offset. A file that is as long is left alone.
fn fill(server: &mut Srv, file: &Handle, size: u32, offset: u32) -> Result<(), WrapErr>
    requires { (b : List ℕ) × (CanHold (state server.old) file.now b (max (length b) offset))
        × (length b ≡ size) }
    ensures filled { OnOk result ((t : Tree) (b : List ℕ) → (state server.old).tree ≡ Some t →
        bytes_at t file.now ≡ Some b →
        (state server.new).tree ≡ Some (edited t file.now (with_bytes (resized (max (length b) offset))))) }
    ensures watched { Watched (state server.old) (state server.new) result }
{
    if size < offset {
        return resize(server, file, offset);
    }
    Ok(())
}

/// Hands a piece to the server until all of it stands at the offset, however short each write is.
pub fn write_all(server: &mut Srv, file: &Handle, offset: u32, piece: &[u8]) -> Result<(), WrapErr>
    requires { (b : List ℕ)
        × (CanHold (state server.old) file.now b (max (length b) (offset + length piece.now)))
        × (offset ≤ length b) }
    ensures put { OnOk result ((t : Tree) → (state server.old).tree ≡ Some t →
        (state server.new).tree ≡ Some (edited t file.now (with_bytes (overwritten offset piece.now)))) }
    ensures watched { Watched (state server.old) (state server.new) result }
{
    let mut done = 0;
    while done < piece.len() {
        match server.write(file, offset + done as u32, &piece[done..]) {
            Ok(count) => done += count as usize,
            Err(error) => return Err(broken(error)),
        }
    }
    Ok(())
}

/// Puts a piece at an offset of a file of this size at the server. A gap is zeros, and no bytes change nothing.
fn put(server: &mut Srv, file: &Handle, size: u32, offset: u32, piece: &[u8]) -> Result<(), WrapErr>
    requires { (b : List ℕ)
        × (CanHold (state server.old) file.now b (size_after offset (length piece.now) (length b)))
        × (length b ≡ size) }
    ensures put { OnOk result ((t : Tree) → (state server.old).tree ≡ Some t →
        (state server.new).tree ≡ Some (edited t file.now (with_bytes (written offset piece.now)))) }
    ensures watched { Watched (state server.old) (state server.new) result }
{
    if piece.is_empty() {
        return Ok(());
    }
    fill(server, file, size, offset)?;
    write_all(server, file, offset, piece)?;
    Ok(())
}

/// The size of a file of this size after so many bytes were put at an offset.
fn end_of(size: u32, offset: u32, count: usize) -> u32
    requires { size_after offset count size ≤ 1048576 }
    ensures { result ≡ size_after offset count size }
{
    if count == 0 {
        return size;
    }
    size.max(offset + count as u32)
}

/// Puts a piece at an offset of a file of this size, which is written at a moment. A gap is zeros, and no bytes change
/// no bytes. After an error server and table stand for nothing.
pub fn write_file(
    server: &mut Srv,
    table: &mut ConfTable,
    at: &Located,
    size: u32,
    offset: u32,
    piece: &[u8],
    time: Time,
) -> Result<(), WrapErr>
    requires { (A : List Entry)
        × CanWrite (state server.old) table.old A size offset (length piece.now) at.now }
    ensures stands { OnOk result ((A : List Entry) →
        CanWrite (state server.old) table.old A size offset (length piece.now) at.now →
        Stands (state server.new).tree table.new
        (with_bytes_at A at.now.index (written offset piece.now) time)) }
    ensures tallied { OnOk result ((A : List Entry) →
        CanWrite (state server.old) table.old A size offset (length piece.now) at.now →
        Tallied table.new (with_bytes_at A at.now.index (written offset piece.now) time)) }
    ensures live { OnOk result (IsLive table.new.rows.items at.now) }
    ensures watched { Watched (state server.old) (state server.new) result }
{
    put(server, &at.handle, size, offset, piece)?;
    write_row(
        table,
        at.index,
        time,
        size,
        end_of(size, offset, piece.len()),
    );
    Ok(())
}
