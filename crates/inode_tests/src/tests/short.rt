//! A session with each of the calls.

ghost use Rattle.std.specs.Prelude.{◌≡◌, OnOk};
ghost use Rattle.server_trait.specs.Step.{HasTree};

use super::calls::*;
use nfs2_types::Handle;
use server_trait::FileServer;

/// Makes nodes, changes them and asks for them.
fn make_some<S: FileServer>(server: &mut S, root: &Handle) -> Result<Handle, Fail>
    requires { HasTree (S.state server.old) }
    ensures { OnOk result (HasTree (S.state server.new)) }
{
    let usr = mkdir(server, root, b"usr")?;
    let file = create(server, &usr, b"file")?;
    write(server, &file, 0, b"some bytes")?;
    write(server, &file, 10, &[b'x'; 502])?;
    set_size(server, &file, 2000)?;
    set_attr(server, &file, 0o644)?;
    rename(server, &usr, b"file", root, b"moved")?;
    link(server, &file, &usr, b"again")?;
    let link = symlink(server, root, b"link", b"usr/again")?;
    read_link(server, &link)?;
    count_names(server, root)?;
    Ok(file)
}

/// Makes an empty root, and below it nodes of which one stays.
pub fn session<S: FileServer>(server: &mut S) -> Result<(), Fail>
    ensures { OnOk result (HasTree (S.state server.new)) }
{
    wipe(server)?;
    let root = server.root();
    let file = make_some(server, &root)?;
    let usr = lookup(server, &root, b"usr")?;
    remove(server, &root, b"moved")?;
    read(server, &file, 5, 1000)?;
    set_size(server, &file, 4)?;
    remove(server, &usr, b"again")?;
    rmdir(server, &root, b"usr")?;
    reboot(server)
}
