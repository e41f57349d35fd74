//! Names of directories.

ghost use Rattle.std.specs.Prelude.{◌≡◌, ◌==◌, ◌||◌};
ghost use Rattle.std.specs.List.{list_any};
ghost use Rattle.nfs2_types.specs.Names as names;

/// Whether a '/' or a NUL is among the bytes.
fn has_bad_byte(name: &[u8]) -> bool
    ensures { result ≡ list_any (λ b. b == 47 || b == 0) name.now }
{
    name.iter().any(|b| *b == b'/' || *b == 0)
}

/// Whether a name is empty, or has a '/' or a NUL. It takes no memory.
pub fn is_bad(name: &[u8]) -> bool
    ensures { result ≡ names.is_bad name.now }
{
    name.is_empty() || has_bad_byte(name)
}

/// Whether a name is "." or "..". It takes no memory.
pub fn is_dot(name: &[u8]) -> bool
    ensures { result ≡ names.is_dot name.now }
{
    name == b".".as_slice() || name == b"..".as_slice()
}
