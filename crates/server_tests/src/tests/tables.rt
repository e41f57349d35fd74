//! Calls with what they are to answer, for a server in which nothing was made.

use super::case::Case;
use nfs2_types::Kind;

/// Names that are made, and where they lead.
pub static NAMES: [Case; 17] = [
    Case::Mkdir(1, b"usr", Ok(2)),
    Case::Mkdir(2, b"bin", Ok(3)),
    Case::Create(2, b"notes", Ok(4)),
    Case::Symlink(1, b"var", b"usr", Ok(5)),
    Case::Mkdir(1, b"usr", Err("exists")),
    Case::Create(1, b"var", Err("exists")),
    Case::Symlink(2, b"notes", b"x", Err("exists")),
    Case::Mkdir(0, b"usr", Err("stale")),
    Case::Create(4, b"usr", Err("no directory")),
    Case::Symlink(5, b"usr", b"x", Err("no directory")),
    Case::Lookup(1, b"usr", Ok(2)),
    Case::Lookup(2, b"bin", Ok(3)),
    Case::Lookup(2, b"notes", Ok(4)),
    Case::Lookup(1, b"var", Ok(5)),
    Case::Lookup(1, b"bin", Err("no entry")),
    Case::Lookup(0, b"usr", Err("stale")),
    Case::Lookup(4, b"usr", Err("no directory")),
];

/// The names of directories.
pub static LISTS: [Case; 11] = [
    Case::List(1, Ok(&[])),
    Case::Mkdir(1, b"usr", Ok(2)),
    Case::Mkdir(1, b"var", Ok(3)),
    Case::Symlink(2, b"bin", b"/bin", Ok(4)),
    Case::Create(2, b"b", Ok(5)),
    Case::Create(3, b"log", Ok(6)),
    Case::List(1, Ok(&[(b"usr", 2), (b"var", 3)])),
    Case::List(2, Ok(&[(b"b", 5), (b"bin", 4)])),
    Case::List(3, Ok(&[(b"log", 6)])),
    Case::List(0, Err("stale")),
    Case::List(4, Err("no directory")),
];

/// Bytes and sizes of files.
pub static FILES: [Case; 21] = [
    Case::Create(1, b"file", Ok(2)),
    Case::Read(2, 0, 9, Ok(b"")),
    Case::Write(2, 0, b"abc", Ok(3)),
    Case::Write(2, 5, b"fgh", Ok(3)),
    Case::Write(2, 1, b"XY", Ok(2)),
    Case::Read(2, 0, 9, Ok(b"aXY\0\0fgh")),
    Case::Read(2, 0, 8, Ok(b"aXY\0\0fgh")),
    Case::Read(2, 2, 4, Ok(b"Y\0\0f")),
    Case::Read(2, 7, 1, Ok(b"h")),
    Case::Read(2, 7, 2, Ok(b"h")),
    Case::Read(2, 8, 1, Ok(b"")),
    Case::Read(2, 4_000_000_000, 4_000_000_000, Ok(b"")),
    Case::SetSize(2, 2, Ok(())),
    Case::SetSize(2, 4, Ok(())),
    Case::Read(2, 0, 9, Ok(b"aX\0\0")),
    Case::Read(0, 0, 1, Err("stale")),
    Case::Read(1, 0, 1, Err("other kind")),
    Case::Write(0, 0, b"a", Err("stale")),
    Case::Write(1, 0, b"a", Err("other kind")),
    Case::SetSize(0, 1, Err("stale")),
    Case::SetSize(1, 1, Err("other kind")),
];

/// Texts of links.
pub static LINKS: [Case; 9] = [
    Case::Symlink(1, b"link", b"../there", Ok(2)),
    Case::Symlink(1, b"none", b"", Ok(3)),
    Case::Create(1, b"file", Ok(4)),
    Case::ReadLink(2, Ok(b"../there")),
    Case::ReadLink(3, Ok(b"")),
    Case::ReadLink(0, Err("stale")),
    Case::ReadLink(1, Err("other kind")),
    Case::ReadLink(4, Err("other kind")),
    Case::Read(2, 0, 1, Err("other kind")),
];

/// Modes, owners, sizes and links.
pub static ATTRIBUTES: [Case; 11] = [
    Case::Mkdir(1, b"usr", Ok(2)),
    Case::Create(1, b"file", Ok(3)),
    Case::Symlink(1, b"link", b"file", Ok(4)),
    Case::SetAttr(2, 0o755, 10, 20),
    Case::SetAttr(3, 0o644, 30, 40),
    Case::Write(3, 6, b"z", Ok(1)),
    Case::Attr(1, Ok((Kind::Dir, 0, 0, 0, 3, 1))),
    Case::Attr(2, Ok((Kind::Dir, 0o755, 10, 20, 0, 0))),
    Case::Attr(3, Ok((Kind::File, 0o644, 30, 40, 7, 1))),
    Case::Attr(4, Ok((Kind::Link, 0, 0, 0, 4, 1))),
    Case::Attr(0, Err("stale")),
];

/// Three nodes at most, or no byte beside two names.
pub static FULL: [Case; 5] = [
    Case::Mkdir(1, b"a", Ok(2)),
    Case::Create(1, b"b", Ok(3)),
    Case::Mkdir(1, b"c", Err("full")),
    Case::Create(1, b"c", Err("full")),
    Case::Symlink(1, b"c", b"", Err("full")),
];

/// Ten bytes beside two names.
pub static ROOM: [Case; 10] = [
    Case::Create(1, b"file", Ok(2)),
    Case::Symlink(1, b"link", b"eleven byte", Err("full")),
    Case::Symlink(1, b"link", b"four", Ok(3)),
    Case::Write(2, 3, b"full", Err("full")),
    Case::Write(2, 3, b"end", Ok(3)),
    Case::Write(2, 0, b"abcdef", Ok(6)),
    Case::SetSize(2, 7, Err("full")),
    Case::SetSize(2, 5, Ok(())),
    Case::Write(2, 6, b"x", Err("full")),
    Case::SetSize(2, 6, Ok(())),
];

/// More names of nodes that have one.
pub static NAMES_ADDED: [Case; 19] = [
    Case::Mkdir(1, b"usr", Ok(2)),
    Case::Create(1, b"file", Ok(3)),
    Case::Symlink(1, b"link", b"file", Ok(4)),
    Case::Link(3, 2, b"same", Ok(())),
    Case::Link(4, 1, b"also", Ok(())),
    Case::Lookup(2, b"same", Ok(3)),
    Case::Lookup(1, b"file", Ok(3)),
    Case::Lookup(1, b"also", Ok(4)),
    Case::List(2, Ok(&[(b"same", 3)])),
    Case::Attr(1, Ok((Kind::Dir, 0, 0, 0, 4, 1))),
    Case::Attr(2, Ok((Kind::Dir, 0, 0, 0, 1, 0))),
    Case::Attr(3, Ok((Kind::File, 0, 0, 0, 0, 2))),
    Case::Attr(4, Ok((Kind::Link, 0, 0, 0, 4, 2))),
    Case::Link(0, 1, b"new", Err("stale")),
    Case::Link(3, 0, b"new", Err("stale")),
    Case::Link(2, 1, b"new", Err("other kind")),
    Case::Link(3, 4, b"new", Err("no directory")),
    Case::Link(3, 2, b"same", Err("exists")),
    Case::Link(4, 1, b"usr", Err("exists")),
];

/// Names that go, and nodes without a name, which go too.
pub static NAMES_REMOVED: [Case; 31] = [
    Case::Mkdir(1, b"usr", Ok(2)),
    Case::Create(1, b"file", Ok(3)),
    Case::Write(3, 0, b"abc", Ok(3)),
    Case::Symlink(2, b"link", b"file", Ok(4)),
    Case::Link(3, 2, b"same", Ok(())),
    Case::Remove(1, b"file", Ok(())),
    Case::Lookup(1, b"file", Err("no entry")),
    Case::Lookup(2, b"same", Ok(3)),
    Case::Read(3, 0, 9, Ok(b"abc")),
    Case::Attr(1, Ok((Kind::Dir, 0, 0, 0, 1, 1))),
    Case::Attr(3, Ok((Kind::File, 0, 0, 0, 3, 1))),
    Case::Remove(2, b"same", Ok(())),
    Case::Attr(3, Err("stale")),
    Case::Read(3, 0, 9, Err("stale")),
    Case::List(2, Ok(&[(b"link", 4)])),
    Case::Remove(0, b"link", Err("stale")),
    Case::Remove(4, b"link", Err("no directory")),
    Case::Remove(2, b"same", Err("no entry")),
    Case::Remove(1, b"usr", Err("other kind")),
    Case::Rmdir(1, b"usr", Err("not empty")),
    Case::Rmdir(2, b"link", Err("no directory")),
    Case::Remove(2, b"link", Ok(())),
    Case::Rmdir(0, b"usr", Err("stale")),
    Case::Rmdir(1, b"bin", Err("no entry")),
    Case::Rmdir(1, b"usr", Ok(())),
    Case::Attr(2, Err("stale")),
    Case::Lookup(1, b"usr", Err("no entry")),
    Case::Attr(1, Ok((Kind::Dir, 0, 0, 0, 0, 0))),
    // The place of what went is taken again, and its handle stays stale.
    Case::Mkdir(1, b"usr", Ok(205)),
    Case::Attr(2, Err("stale")),
    Case::Attr(205, Ok((Kind::Dir, 0, 0, 0, 0, 0))),
];

/// Two nodes and ten bytes beside two names, taken more than once.
pub static ROOM_GIVEN_BACK: [Case; 12] = [
    Case::Create(1, b"file", Ok(2)),
    Case::Link(2, 1, b"same", Ok(())),
    Case::Write(2, 0, b"abcdefghij", Ok(10)),
    Case::Link(2, 1, b"more", Err("full")),
    Case::Remove(1, b"same", Ok(())),
    Case::Link(2, 1, b"more", Ok(())),
    Case::Remove(1, b"file", Ok(())),
    Case::Remove(1, b"more", Ok(())),
    Case::Mkdir(1, b"usr", Ok(203)),
    Case::Symlink(1, b"link", b"abcdefghij", Ok(304)),
    Case::Rmdir(1, b"usr", Ok(())),
    Case::Create(1, b"file", Ok(205)),
];

/// Names that move.
pub static RENAMES: [Case; 30] = [
    Case::Mkdir(1, b"usr", Ok(2)),
    Case::Mkdir(2, b"bin", Ok(3)),
    Case::Mkdir(3, b"new", Ok(4)),
    Case::Create(4, b"sh", Ok(5)),
    Case::Mkdir(1, b"var", Ok(6)),
    Case::Create(1, b"notes", Ok(7)),
    // A file, then a directory with all that lies below it.
    Case::Rename(1, b"notes", 6, b"old", Ok(())),
    Case::Lookup(1, b"notes", Err("no entry")),
    Case::Lookup(6, b"old", Ok(7)),
    Case::Rename(2, b"bin", 6, b"tools", Ok(())),
    Case::Lookup(2, b"bin", Err("no entry")),
    Case::Lookup(6, b"tools", Ok(3)),
    Case::Lookup(3, b"new", Ok(4)),
    Case::Lookup(4, b"sh", Ok(5)),
    Case::List(2, Ok(&[])),
    Case::List(6, Ok(&[(b"old", 7), (b"tools", 3)])),
    Case::Attr(1, Ok((Kind::Dir, 0, 0, 0, 2, 2))),
    Case::Attr(2, Ok((Kind::Dir, 0, 0, 0, 0, 0))),
    Case::Attr(3, Ok((Kind::Dir, 0, 0, 0, 1, 1))),
    Case::Attr(6, Ok((Kind::Dir, 0, 0, 0, 2, 1))),
    Case::Attr(7, Ok((Kind::File, 0, 0, 0, 0, 1))),
    // Within one directory, and back.
    Case::Rename(6, b"tools", 6, b"sbin", Ok(())),
    Case::Lookup(6, b"tools", Err("no entry")),
    Case::Lookup(6, b"sbin", Ok(3)),
    Case::Attr(6, Ok((Kind::Dir, 0, 0, 0, 2, 1))),
    Case::Rename(6, b"sbin", 2, b"bin", Ok(())),
    Case::Rename(6, b"old", 1, b"notes", Ok(())),
    Case::List(2, Ok(&[(b"bin", 3)])),
    Case::List(6, Ok(&[])),
    Case::Lookup(4, b"sh", Ok(5)),
];

/// Names that may not move.
pub static NO_RENAMES: [Case; 18] = [
    Case::Mkdir(1, b"usr", Ok(2)),
    Case::Mkdir(2, b"bin", Ok(3)),
    Case::Create(1, b"notes", Ok(4)),
    Case::Symlink(1, b"var", b"usr", Ok(5)),
    Case::Rename(0, b"usr", 1, b"new", Err("stale")),
    Case::Rename(1, b"usr", 0, b"new", Err("stale")),
    Case::Rename(4, b"usr", 1, b"new", Err("no directory")),
    Case::Rename(1, b"usr", 5, b"new", Err("no directory")),
    Case::Rename(1, b"bin", 1, b"new", Err("no entry")),
    Case::Rename(1, b"notes", 1, b"var", Err("refused")),
    Case::Rename(1, b"notes", 2, b"bin", Err("refused")),
    Case::Rename(1, b"notes", 1, b"notes", Err("refused")),
    Case::Rename(1, b"usr", 2, b"new", Err("below itself")),
    Case::Rename(1, b"usr", 3, b"new", Err("below itself")),
    Case::Rename(2, b"bin", 2, b"new", Ok(())),
    Case::Rename(2, b"new", 3, b"new", Err("below itself")),
    Case::List(1, Ok(&[(b"notes", 4), (b"usr", 2), (b"var", 5)])),
    Case::List(2, Ok(&[(b"new", 3)])),
];
