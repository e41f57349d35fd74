//! One step of the machine.

ghost use Rattle.std.specs.Prelude.{◌≡◌, ◌<◌, ◌^◌, true, IfOk, OnOk, OnErr};
ghost use Rattle.nfs2_types.specs.Call.{call_of, call_fits};
ghost use Rattle.nfs2_types.specs.Times.{is_time};
ghost use Rattle.abs_model.specs.Machine.{array_after, result_of};
ghost use Rattle.abs_model.specs.Valid.{Valid};

use crate::array::AbsArray;
use crate::edits::changes;
use crate::{reads, writes};
use abs_queries::refusals::refusal;
use nfs2_types::{Args, Cred, Limits, NfsResult, NoMemory, Time};
use std::alloc::{AllocError, Global};

/// The numbers of limits are words.
fn known(limits: &Limits)
    ensures n { limits.now.n < 2 ^ 32 }
    ensures t { limits.now.t < 2 ^ 32 }
{
    let _n = limits.n;
    let _t = limits.t;
}

fn step(
    alloc: Global,
    array: &mut AbsArray,
    limits: &Limits,
    cred: &Cred,
    time: Time,
    args: &Args,
) -> Result<NfsResult, AllocError>
    requires valid { Valid limits.now array.old }
    requires moment { is_time time ≡ true }
    requires fits { call_fits (call_of args.now) ≡ true }
    ensures result { IfOk result (λ r. r ≡ result_of array.old limits.now cred.now time (call_of args.now)) }
    ensures array { OnOk result (array.new ≡ array_after array.old limits.now cred.now time (call_of args.now)) }
    ensures err { OnErr result (array.new ≡ array.old) }
{
    known(limits);
    if let Some(stat) = refusal(array.entries(), limits, args) {
        return Ok(NfsResult::Refused(stat));
    }
    if let Some(answer) = reads::answer(alloc, array.entries(), limits, args)? {
        return Ok(answer);
    }
    let i = writes::place_of(array.entries(), args);
    let edits = changes(alloc, array.entries(), cred, time, args)?;
    array.put_all(edits);
    Ok(writes::answer(array.entries(), i, args))
}

/// Does one call at a time, on behalf of a caller: gives the result of the call, and leaves the
/// array after it. Without memory the array is as it was.
pub fn plain_step(
    alloc: Global,
    array: &mut AbsArray,
    limits: &Limits,
    cred: &Cred,
    time: Time,
    args: &Args,
) -> Result<NfsResult, NoMemory>
    requires valid { Valid limits.now array.old }
    requires moment { is_time time ≡ true }
    requires fits { call_fits (call_of args.now) ≡ true }
    ensures result { IfOk result (λ r. r ≡ result_of array.old limits.now cred.now time (call_of args.now)) }
    ensures array { OnOk result (array.new ≡ array_after array.old limits.now cred.now time (call_of args.now)) }
    ensures err { OnErr result (array.new ≡ array.old) }
{
    let answer = step(alloc, array, limits, cred, time, args)?;
    Ok(answer)
}
