//! A directory of 300 names, and a file with gaps that wants a tree of depth 2.

ghost use Rattle.std.specs.Prelude.{◌≡◌, OnOk};
ghost use Rattle.server_trait.specs.Step.{HasTree};

use super::calls::*;
use nfs2_types::Handle;
use server_trait::FileServer;
use std::alloc::{AllocError, Global};

/// How many names a directory gets.
const MANY: u32 = 300;

/// How long the file is: more than 128 blocks.
pub const SIZE: u32 = 70_003;

/// The name of a number.
pub fn name_of(alloc: Global, number: u32) -> Result<Vec<u8>, AllocError> {
    let text = format!(in alloc; "n{number}")?;
    Vec::from_slice(alloc, text.as_bytes())
}

/// Gives a directory a name, which leads to a new file for each tenth number and else to one file.
fn put_name<S: FileServer>(
    alloc: Global,
    server: &mut S,
    dir: &Handle,
    file: &Handle,
    number: u32,
) -> Result<(), Fail>
    requires { HasTree (S.state server.old) }
    ensures { OnOk result (HasTree (S.state server.new)) }
{
    let name = name_of(alloc, number)?;
    if number % 10 == 0 {
        create(server, dir, &name)?;
        return Ok(());
    }
    link(server, file, dir, &name)
}

/// Gives a directory all the names.
fn put_names<S: FileServer>(
    alloc: Global,
    server: &mut S,
    dir: &Handle,
    file: &Handle,
) -> Result<(), Fail>
    requires { HasTree (S.state server.old) }
    ensures { OnOk result (HasTree (S.state server.new)) }
{
    for number in 0..MANY {
        put_name(alloc, server, dir, file, number)?;
    }
    Ok(())
}

/// Makes `many/inner/big`, whose bytes are letters, a gap and letters, the link `many/inner/link`, and the names in
/// `many`.
pub fn build<S: FileServer>(alloc: Global, server: &mut S) -> Result<(), Fail>
    requires { HasTree (S.state server.old) }
    ensures { OnOk result (HasTree (S.state server.new)) }
{
    let root = server.root();
    let many = mkdir(server, &root, b"many")?;
    let inner = mkdir(server, &many, b"inner")?;
    let big = create(server, &inner, b"big")?;
    write(server, &big, 0, b"begin")?;
    set_size(server, &big, SIZE - 3)?;
    write(server, &big, SIZE - 3, b"end")?;
    symlink(server, &inner, b"link", b"../n7")?;
    put_names(alloc, server, &many, &big)
}

/// What a walk from the root finds.
#[derive(Debug, PartialEq, Eq, Drop)]
pub struct Walked {
    pub numbers: Vec<u64>,
    pub names: usize,
    pub size: u32,
    pub links: u32,
    pub bytes: Vec<u8>,
    pub text: Vec<u8>,
}

/// The numbers of the nodes to which the names lead.
fn numbers<S: FileServer>(alloc: Global, server: &mut S, dir: &Handle) -> Result<Vec<u64>, Fail>
    requires { HasTree (S.state server.old) }
    ensures { OnOk result (HasTree (S.state server.new)) }
{
    let mut numbers = Vec::new(alloc);
    for number in 0..MANY {
        let name = name_of(alloc, number)?;
        let found = lookup(server, dir, &name)?;
        let attr = attr(server, &found)?;
        numbers.push(attr.number)?;
    }
    Ok(numbers)
}

/// Walks down from the root.
pub fn walk<S: FileServer>(alloc: Global, server: &mut S) -> Result<Walked, Fail>
    requires { HasTree (S.state server.old) }
    ensures { OnOk result (HasTree (S.state server.new)) }
{
    let root = server.root();
    let many = lookup(server, &root, b"many")?;
    let inner = lookup(server, &many, b"inner")?;
    let big = lookup(server, &inner, b"big")?;
    let link = lookup(server, &inner, b"link")?;
    let mut numbers = numbers(alloc, server, &many)?;
    for node in [root, many, inner, big, link] {
        let attr = attr(server, &node)?;
        numbers.push(attr.number)?;
    }
    let last = attr(server, &big)?;
    Ok(Walked {
        numbers,
        names: count_names(server, &many)?,
        size: last.size,
        links: last.links,
        bytes: read(server, &big, 0, u32::MAX)?,
        text: read_link(server, &link)?,
    })
}
