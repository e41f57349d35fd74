//! Which calls fail.

/// A call of a file server that can fail.
#[derive(Clone, Copy, Debug, PartialEq, Eq)]
pub enum SrvCall {
    Attr,
    SetAttr,
    Read,
    ReadLink,
    Write,
    SetSize,
    Lookup,
    List,
    Create,
    Mkdir,
    Symlink,
    Link,
    Remove,
    Rmdir,
    Rename,
    Reboot,
    Wipe,
}

/// The calls of a kind whose numbers, counted from 1, lie between `from` and `to`, both included.
#[derive(Clone, Copy, Debug, PartialEq, Eq)]
pub struct Fail {
    pub call: SrvCall,
    pub from: u64,
    pub to: u64,
}
