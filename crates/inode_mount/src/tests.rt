//! A tree is written, and its tables are read back from the medium.

ghost use Rattle.std.specs.Prelude.{◌≡◌, ◌+◌, ◌^◌, ◌<◌, ◌≤◌, Some, IfOk, OnOk, IsTrue, length};
ghost use Rattle.nfs2_types.specs.declared.fattr.Kind.TheVariants.{Dir, File as AFile};
ghost use Rattle.inode_dirs.specs.Files.{File};
ghost use Rattle.inode_store.specs.Layout.{superblock};
ghost use Rattle.inode_store.specs.Store.{file_in};
ghost use Rattle.inode_tree.specs.Kept.{tables_of};
ghost use Rattle.inode_tree.specs.Planned.{blocks_for};
ghost use Rattle.inode_tree.specs.Whole.{IsWhole};

use super::*;
use inode_tree::InodeTree;
use nfs2_types::{Kind, NoMemory, is_bad, is_dot};
use outside::{Block, Medium, MediumErr, MemMedium};
use server_trait::ServerLimits;
use std::alloc::{AllocError, Global};

#[derive(Debug, Drop)]
enum Fail {
    Medium(MediumErr),
    NoMemory,
    Refused,
}

impl From<MediumErr> for Fail {
    fn from(error: MediumErr) -> Fail {
        Fail::Medium(error)
    }
}

impl From<NoMemory> for Fail {
    fn from(_: NoMemory) -> Fail {
        Fail::NoMemory
    }
}

impl From<AllocError> for Fail {
    fn from(_: AllocError) -> Fail {
        Fail::NoMemory
    }
}

/// The block that names limits.
fn first_block(limits: ServerLimits) -> Block
    requires { limits.bytes < 2 ^ 32 }
    ensures { result ≡ superblock limits }
{
    let mut block = [0; 512];
    block[..8].copy_from_slice(b"BASEINO1");
    block[8..12].copy_from_slice(&limits.nodes.to_be_bytes());
    block[12..16].copy_from_slice(&(limits.bytes as u32).to_be_bytes());
    block
}

/// A tree of a root alone.
fn wiped(alloc: Global, limits: ServerLimits) -> Result<InodeTree<MemMedium>, Fail>
    requires room { blocks_for limits ≤ 2000 }
    requires limited { limits.bytes ≤ 1073741824 }
    ensures whole { IfOk result (λ t. IsWhole ⟦<MemMedium as Medium>⟧.content ⟦<MemMedium as Medium>⟧.size t) }
    ensures name { IfOk result (λ t. ⟦<MemMedium as Medium>⟧.content t.store.medium 0 ≡ superblock t.limits) }
{
    let medium = MemMedium::new(alloc, 2000, Vec::new(alloc));
    let mut tree = InodeTree::new(alloc, medium, limits)?;
    tree.wipe(&first_block(limits))?;
    Ok(tree)
}

/// Whether a name may lead to a node of a kind to which so many lead.
fn may_lead(kind: Kind, links: u32) -> bool
    ensures { IsTrue result → kind ≡ Dir → links ≡ 0 }
{
    match kind {
        Kind::Dir => links == 0,
        Kind::File | Kind::Link => true,
    }
}

/// Gives a directory a name that leads to a node.
fn put_name<M: Medium>(
    tree: &mut InodeTree<M>,
    dir: u32,
    name: &[u8],
    inode: u32,
) -> Result<(), Fail>
    requires whole { IsWhole M.content M.size tree.old }
    requires name { M.content tree.old.store.medium 0 ≡ superblock tree.old.limits }
    ensures whole { OnOk result (IsWhole M.content M.size tree.new) }
    ensures name { OnOk result (M.content tree.new.store.medium 0 ≡ superblock tree.new.limits) }
{
    if is_bad(name)
        || 255 < name.len()
        || is_dot(name)
        || tree.tables.used() + 512 > tree.limits.bytes
    {
        return Err(Fail::Refused);
    }
    if dir >= tree.tables.inodes() || inode >= tree.tables.inodes() || inode == 0 {
        return Err(Fail::Refused);
    }
    let Some(Kind::Dir) = tree.tables.kind(dir) else {
        return Err(Fail::Refused);
    };
    let Some(kind) = tree.tables.kind(inode) else {
        return Err(Fail::Refused);
    };
    let None = tree.tables.place(dir, name) else {
        return Err(Fail::Refused);
    };
    let links = tree.tables.links(inode);
    if !may_lead(kind, links) {
        return Err(Fail::Refused);
    }
    tree.add_name(dir, name, inode, kind)?;
    Ok(())
}

/// Makes a node of a kind, to which a name of a directory leads.
fn make<M: Medium>(tree: &mut InodeTree<M>, dir: u32, name: &[u8], kind: Kind) -> Result<u32, Fail>
    requires whole { IsWhole M.content M.size tree.old }
    requires name { M.content tree.old.store.medium 0 ≡ superblock tree.old.limits }
    ensures whole { OnOk result (IsWhole M.content M.size tree.new) }
    ensures name { OnOk result (M.content tree.new.store.medium 0 ≡ superblock tree.new.limits) }
{
    let Some(inode) = tree.take_node(kind)? else {
        return Err(Fail::Refused);
    };
    put_name(tree, dir, name, inode)?;
    Ok(inode)
}

/// How many bytes a file has.
fn size_of<M: Medium>(tree: &mut InodeTree<M>, inode: u32) -> Result<u32, Fail>
    requires whole { IsWhole M.content M.size tree.old }
    requires name { M.content tree.old.store.medium 0 ≡ superblock tree.old.limits }
    ensures whole { OnOk result (IsWhole M.content M.size tree.new) }
    ensures name { OnOk result (M.content tree.new.store.medium 0 ≡ superblock tree.new.limits) }
    ensures within { OnOk result (inode < tree.new.store.inodes) }
    ensures used { OnOk result ((tables_of tree.new.tables).kind inode ≡ Some AFile) }
    ensures size { IfOk result (λ n. (f : File) → file_in M.content tree.new.store inode ≡ Some f →
        length f.bytes ≡ n) }
{
    if inode >= tree.tables.inodes() {
        return Err(Fail::Refused);
    }
    let Some(Kind::File) = tree.tables.kind(inode) else {
        return Err(Fail::Refused);
    };
    let found = tree.inode(inode)?;
    Ok(found.size)
}

/// Fills a file with zeros up to a size.
fn grow<M: Medium>(tree: &mut InodeTree<M>, inode: u32, size: u32) -> Result<(), Fail>
    requires whole { IsWhole M.content M.size tree.old }
    requires name { M.content tree.old.store.medium 0 ≡ superblock tree.old.limits }
    ensures whole { OnOk result (IsWhole M.content M.size tree.new) }
    ensures name { OnOk result (M.content tree.new.store.medium 0 ≡ superblock tree.new.limits) }
{
    let old = size_of(tree, inode)?;
    if size > 100_000 || tree.tables.used() + 100_000 > tree.limits.bytes {
        return Err(Fail::Refused);
    }
    tree.set_size(inode, old, size)?;
    Ok(())
}

/// Puts letters at the end of a file, up to the end of a block.
fn append<M: Medium>(tree: &mut InodeTree<M>, inode: u32, letter: u8) -> Result<(), Fail>
    requires whole { IsWhole M.content M.size tree.old }
    requires name { M.content tree.old.store.medium 0 ≡ superblock tree.old.limits }
    ensures whole { OnOk result (IsWhole M.content M.size tree.new) }
    ensures name { OnOk result (M.content tree.new.store.medium 0 ≡ superblock tree.new.limits) }
{
    let size = size_of(tree, inode)?;
    let used = tree.tables.used();
    if size > 100_000 || u64::from(size) > used || used + 512 > tree.limits.bytes {
        return Err(Fail::Refused);
    }
    tree.write(inode, size, size, &[letter; 512])?;
    Ok(())
}

/// Reads the tables anew.
fn reread<M: Medium>(tree: &mut InodeTree<M>) -> Result<(), Fail>
    requires whole { IsWhole M.content M.size tree.old }
    requires name { M.content tree.old.store.medium 0 ≡ superblock tree.old.limits }
    ensures whole { OnOk result (IsWhole M.content M.size tree.new) }
    ensures name { OnOk result (M.content tree.new.store.medium 0 ≡ superblock tree.new.limits) }
{
    holds_tree(tree);
    read_tables(tree)?;
    Ok(())
}

/// One of 299 names, of 1 to 150 letters.
fn name_of(alloc: Global, number: u32) -> Result<Vec<u8>, AllocError> {
    let letter = if number < 150 { b'a' } else { b'b' };
    Vec::from_elem(alloc, letter, (number % 150 + 1) as usize)
}

/// Gives a directory all these names, each of which leads to one node.
fn put_names<M: Medium>(tree: &mut InodeTree<M>, dir: u32, inode: u32) -> Result<(), Fail>
    requires whole { IsWhole M.content M.size tree.old }
    requires name { M.content tree.old.store.medium 0 ≡ superblock tree.old.limits }
    ensures whole { OnOk result (IsWhole M.content M.size tree.new) }
    ensures name { OnOk result (M.content tree.new.store.medium 0 ≡ superblock tree.new.limits) }
{
    for number in 0..299 {
        put_name(tree, dir, &name_of(tree.alloc, number)?, inode)?;
    }
    Ok(())
}

/// The node to which a name leads.
fn leads<M: Medium>(tree: &InodeTree<M>, dir: u32, name: &[u8]) -> Option<u32> {
    if dir >= tree.tables.inodes() {
        return None;
    }
    tree.tables.place(dir, name).map(|place| place.inode)
}

/// How many of these names lead to a node.
fn count_names<M: Medium>(tree: &InodeTree<M>, dir: u32, inode: u32) -> Result<u32, Fail> {
    let mut count: u32 = 0;
    for number in 0..299 {
        if leads(tree, dir, &name_of(tree.alloc, number)?) == Some(inode) {
            count = count.saturating_add(1);
        }
    }
    Ok(count)
}

/// Bytes of a node.
fn bytes<M: Medium>(
    tree: &mut InodeTree<M>,
    inode: u32,
    from: u32,
    count: u32,
) -> Result<Vec<u8>, Fail>
    requires whole { IsWhole M.content M.size tree.old }
    requires name { M.content tree.old.store.medium 0 ≡ superblock tree.old.limits }
    ensures whole { OnOk result (IsWhole M.content M.size tree.new) }
    ensures name { OnOk result (M.content tree.new.store.medium 0 ≡ superblock tree.new.limits) }
{
    if inode >= tree.tables.inodes() || tree.tables.kind(inode).is_none() {
        return Err(Fail::Refused);
    }
    let read = tree.read(inode, from, count)?;
    Ok(read)
}

/// The nodes of a tree that was written.
#[derive(Drop)]
struct Written {
    many: u32,
    big: u32,
    inner: u32,
    link: u32,
}

/// Writes two directories, a file with a gap and a link, and names in them.
fn write_all<M: Medium>(tree: &mut InodeTree<M>) -> Result<Written, Fail>
    requires whole { IsWhole M.content M.size tree.old }
    requires name { M.content tree.old.store.medium 0 ≡ superblock tree.old.limits }
    ensures whole { OnOk result (IsWhole M.content M.size tree.new) }
    ensures name { OnOk result (M.content tree.new.store.medium 0 ≡ superblock tree.new.limits) }
{
    let many = make(tree, 0, b"many", Kind::Dir)?;
    let big = make(tree, 0, b"big", Kind::File)?;
    let inner = make(tree, many, b"inner", Kind::Dir)?;
    let link = make(tree, inner, b"link", Kind::Link)?;
    grow(tree, big, 66_000)?;
    append(tree, big, b'x')?;
    put_names(tree, many, big)?;
    Ok(Written {
        many,
        big,
        inner,
        link,
    })
}

/// Whether the names that stand alone lead where they should.
fn are_named<M: Medium>(tree: &InodeTree<M>, written: &Written) -> bool {
    leads(tree, 0, b"many") == Some(written.many)
        && leads(tree, 0, b"big") == Some(written.big)
        && leads(tree, written.many, b"inner") == Some(written.inner)
        && leads(tree, written.inner, b"link") == Some(written.link)
        && leads(tree, written.many, b"big").is_none()
}

#[test]
fn tables_are_read_back(rt: HostRuntime) -> Result<(), Fail> {
    let alloc = rt.alloc();
    let limits = ServerLimits {
        nodes: 8,
        bytes: 400_000,
    };
    let mut tree = wiped(alloc, limits)?;
    let written = write_all(&mut tree)?;
    reread(&mut tree)?;
    assert!(rt; are_named(&tree, &written));
    assert_eq!(rt; count_names(&tree, written.many, written.big)?, 299);
    // A name counts 512 bytes, and there are 303 of them. Of a block of letters 48 fit behind 66,000 zeros.
    assert_eq!(rt; tree.tables.used(), 303 * 512 + 66_000 + 48);
    let edge = bytes(&mut tree, written.big, 65_998, 4)?;
    assert_eq!(rt; edge.as_slice(), [0, 0, b'x', b'x'].as_slice());
    Ok(())
}
