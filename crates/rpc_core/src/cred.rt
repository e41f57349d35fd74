//! The body of a credential of AUTH_SYS (RFC 5531, appendix A).
ghost use Rattle.std.specs.Prelude.{◌≡◌, ◌≤◌, IfSome, []};
ghost use Rattle.xdr_core.specs.Grammar.{Finds, reads, reads_all, listed, item_at};
ghost use Rattle.rpc_core.specs.Cred.{group, group_count, auth_sys as auth_sys_form, value_of, cred_in};

use nfs2_types::{Blob16, Cred};
use xdr_core::Reader;

/// The next group.
fn gid_of(r: &mut Reader<'_>) -> Option<u32>
    ensures { Finds (λ n. n) result r.new (reads (group []) r.old) }
{
    r.word().ok()
}

/// The gids behind their count.
fn groups(r: &mut Reader<'_>, count: u32) -> Option<Blob16>
    requires { count ≤ 16 }
    ensures { Finds (λ g. g) result r.new (reads (listed group count []) r.old) }
{
    let mut gids = Blob16::new();
    for _ in 0..count {
        let gid = gid_of(r)?;
        gids.push(gid);
    }
    Some(gids)
}

/// The count of gids, at most 16.
#[tactic(auto, unfolding(xdr_core::specs::Grammar::item_at, xdr_core::specs::Items::item_in))]
fn group_count_of(r: &mut Reader<'_>) -> Option<u32>
    ensures count { Finds (λ n. n) result r.new (item_at group_count r.old) }
    ensures few { IfSome result (λ n. n ≤ 16) }
{
    let count = r.word().ok()?;
    if count <= 16 { Some(count) } else { None }
}

/// The caller that stands next; the stamp and the machine are ignored.
#[tactic(auto, using(xdr_core::proofs::Sequence::reads_then), unfolding(crate::specs::Cred::auth_sys))]
fn auth_sys(r: &mut Reader<'_>) -> Option<Cred>
    ensures { Finds (λ c. c) result r.new (reads auth_sys_form r.old) }
{
    let _stamp = r.word().ok()?;
    let _machine = r.opaque(255).ok()?;
    let uid = r.word().ok()?;
    let gid = r.word().ok()?;
    let count = group_count_of(r)?;
    let gids = groups(r, count)?;
    Some(Cred { uid, gid, gids })
}

/// The caller that all of a body spells.
#[tactic(auto, unfolding(xdr_core::specs::Grammar::reads_all))]
fn auth_sys_in(body: &[u8]) -> Option<Cred>
    ensures { result ≡ value_of (reads_all auth_sys_form body.now) }
{
    let mut r = Reader::new(body);
    let cred = auth_sys(&mut r)?;
    r.end().ok()?;
    Some(cred)
}

/// The caller that a credential names.
#[tactic(auto, unfolding(crate::specs::Cred::cred_in))]
pub fn cred_of(flavor: u32, body: &[u8]) -> Option<Cred>
    ensures { result ≡ cred_in flavor body.now }
{
    match flavor {
        0 => Some(Cred {
            uid: 65534,
            gid: 65534,
            gids: Blob16::new(),
        }),
        1 => auth_sys_in(body),
        _ => None,
    }
}
