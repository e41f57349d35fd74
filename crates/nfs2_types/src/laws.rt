//! Laws of handles, over every list of bytes and every object id, and of the numbers of statuses.

ghost use Rattle.std.specs.Prelude.{◌≡◌, ◌<◌, ◌^◌, ℕ, List, Some};
ghost use Rattle.nfs2_types.specs.declared.handle.Oid.{Oid};
ghost use Rattle.nfs2_types.specs.declared.stat.TheConstants as stat;
ghost use Rattle.nfs2_types.specs.Handle.{handle_bytes, oid_in};

/// The bytes in which an object id is read are its handle, and the handle of an object id is read as that id.
pub fn handles_and_ids()
    ensures spelled { (h : List ℕ) (o : Oid) → oid_in h ≡ Some o → h ≡ handle_bytes o }
    ensures read { (o : Oid) → o.index < 2 ^ 32 → o.generation < 2 ^ 32 → oid_in (handle_bytes o) ≡ Some o }
{}

/// Each status has the number that the standard gives it (RFC 1094, 2.3.1).
pub fn numbers()
    ensures { (stat.OK.0 ≡ 0)
        × (stat.PERM.0 ≡ 1)
        × (stat.NOENT.0 ≡ 2)
        × (stat.IO.0 ≡ 5)
        × (stat.NXIO.0 ≡ 6)
        × (stat.ACCES.0 ≡ 13)
        × (stat.EXIST.0 ≡ 17)
        × (stat.NODEV.0 ≡ 19)
        × (stat.NOTDIR.0 ≡ 20)
        × (stat.ISDIR.0 ≡ 21)
        × (stat.FBIG.0 ≡ 27)
        × (stat.NOSPC.0 ≡ 28)
        × (stat.ROFS.0 ≡ 30)
        × (stat.NAMETOOLONG.0 ≡ 63)
        × (stat.NOTEMPTY.0 ≡ 66)
        × (stat.DQUOT.0 ≡ 69)
        × (stat.STALE.0 ≡ 70)
        × (stat.WFLUSH.0 ≡ 99) }
{}
