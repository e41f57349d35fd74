//! Reads the types that arguments are made of.

ghost use Rattle.std.specs.Prelude.{◌≡◌};
ghost use Rattle.xdr_core.specs.Grammar.{Gives, reads, item_at};
ghost use Rattle.nfs2_args.specs.Forms.{handle as handle_item, given, mode_given, when, sattr_form};

use nfs2_types::{Handle, Sattr, SetTime, Time};
use xdr_core::{Reader, XdrErr};

/// What leaves a field alone (RFC 1094, 2.3.6).
pub const ALL_ONES: u32 = 4_294_967_295;

/// A handle, copied (RFC 1094, 2.3.3).
pub fn handle(r: &mut Reader<'_>) -> Result<Handle, XdrErr>
    ensures { Gives (λ h. h) result r.new (item_at handle_item r.old) }
{
    r.block()
}

/// A uid, a gid or a size.
fn field(n: u32) -> Option<u32>
    ensures { result ≡ given n }
{
    if n == ALL_ONES { None } else { Some(n) }
}

/// A mode, of which the low twelve bits count.
fn mode_field(n: u32) -> Option<u32>
    ensures { result ≡ mode_given n }
{
    if n == ALL_ONES { None } else { Some(n % 4096) }
}

/// What the two words of a time say.
fn time_field(secs: u32, micros: u32) -> SetTime
    ensures { result ≡ when secs micros }
{
    if secs == ALL_ONES {
        SetTime::Keep
    } else if micros < 1_000_000 {
        SetTime::At(Time { secs, micros })
    } else {
        SetTime::Now
    }
}

/// What a call sets (RFC 1094, 2.3.6).
#[tactic(auto, unfolding(crate::specs::Forms::sattr_form))]
pub fn sattr(r: &mut Reader<'_>) -> Result<Sattr, XdrErr>
    ensures { Gives (λ s. s) result r.new (reads sattr_form r.old) }
{
    let mode = mode_field(r.word()?);
    let uid = field(r.word()?);
    let gid = field(r.word()?);
    let size = field(r.word()?);
    let atime = time_field(r.word()?, r.word()?);
    let mtime = time_field(r.word()?, r.word()?);
    Ok(Sattr {
        mode,
        uid,
        gid,
        size,
        atime,
        mtime,
    })
}
