//! Lists of entries that are arrays, and lists that are none.

use crate::is_valid;
use abs_model::{Attr, Entry, Names, Object};
use nfs2_types::{Limits, Time};
use std::alloc::Global;
use std::test::Fail;

/// A directory of this mode without names, and as many null entries.
fn with_root(alloc: Global, mode: u32, nulls: u32) -> Result<Vec<Entry>, Fail> {
    let zero = Time { secs: 0, micros: 0 };
    let mut entries = Vec::new(alloc);
    entries.push(Entry {
        generation: 1,
        object: Object::Dir {
            attr: Attr {
                mode,
                uid: 0,
                gid: 0,
                atime: zero,
                mtime: zero,
                ctime: zero,
            },
            names: Names::new(Vec::new(alloc)),
        },
    })?;
    for _ in 0..nulls {
        entries.push(Entry {
            generation: 0,
            object: Object::Null,
        })?;
    }
    Ok(entries)
}

#[test]
fn valid_where_all_rules_hold(rt: HostRuntime) -> Result<(), Fail> {
    let alloc = rt.alloc();
    for (n, mode, nulls, wanted) in [
        (16, 0o777, 15, true),
        (16, 0o777, 14, false),
        (16, 0o10000, 15, false),
        (1, 0, 0, true),
    ] {
        let entries = with_root(alloc, mode, nulls)?;
        let limits = Limits {
            n,
            k: 4,
            t: 512,
            f: 0,
        };
        assert_eq!(rt; is_valid(alloc, entries.as_slice(), &limits)?, wanted);
    }
    Ok(())
}
