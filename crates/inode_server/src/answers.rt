//! What an answer of the tree is to a caller.

ghost use Rattle.std.specs.Prelude.{◌≡◌};
ghost use Rattle.inode_server.specs.Answers.{srv_err, stands};

use outside::MediumErr;
use server_trait::SrvErr;

/// What an error of the medium is to a caller.
pub(crate) fn srv_error(e: MediumErr) -> SrvErr
    ensures { result ≡ srv_err e }
{
    match e {
        MediumErr::Failed => SrvErr::Fault,
        MediumErr::NoMemory => SrvErr::NoMemory,
    }
}

/// Whether the server has a tree after an answer.
pub(crate) fn has_tree<T>(answer: &Result<T, SrvErr>) -> bool
    ensures { result ≡ stands answer.now }
{
    match answer {
        Ok(_) => true,
        Err(SrvErr::Fault) | Err(SrvErr::NoMemory) => false,
        Err(_) => true,
    }
}
