//! What an answer of the tree is to a caller.

ghost use Rattle.std.specs.Prelude.{◌≡◌};
ghost use Rattle.log_calls.specs.Answers.{answer_of, fault_of, stands};

use outside::MediumErr;
use server_trait::SrvErr;

/// What an error of the medium is to a caller.
pub(crate) fn fault(e: MediumErr) -> SrvErr
    ensures { result ≡ fault_of e }
{
    match e {
        MediumErr::Failed => SrvErr::Fault,
        MediumErr::NoMemory => SrvErr::NoMemory,
    }
}

/// The answer of a change to a caller.
pub(crate) fn answered<T>(done: Result<T, MediumErr>) -> Result<T, SrvErr>
    ensures { result ≡ answer_of done }
{
    match done {
        Ok(value) => Ok(value),
        Err(e) => Err(fault(e)),
    }
}

/// Whether the server has a tree after an answer.
pub fn has_tree<T>(answer: &Result<T, SrvErr>) -> bool
    ensures { result ≡ stands answer.now }
{
    match answer {
        Ok(_) => true,
        Err(SrvErr::Fault) | Err(SrvErr::NoMemory) => false,
        Err(_) => true,
    }
}
