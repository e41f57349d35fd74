//! What holds of headers and credentials.
ghost use Rattle.std.specs.Prelude.{◌≡◌, ◌<◌, ℕ, List, Some};
ghost use Rattle.xdr_core.specs.Items.{IsBytes};
ghost use Rattle.xdr_core.specs.Grammar.{Spells};
ghost use Rattle.nfs2_types.specs.declared.cred.Cred.{Cred};
ghost use Rattle.rpc_core.specs.declared.head.CallHead.{CallHead};
ghost use Rattle.rpc_core.specs.Cred.{auth_sys, cred_in};
ghost use Rattle.rpc_core.specs.Call.{IsHead};

/// A message means one thing.
pub fn one_head()
    ensures { (message : List ℕ) (a b : CallHead) → IsHead message a → IsHead message b → a ≡ b }
{}

/// A credential of AUTH_SYS (flavor 1) names the caller that its body spells, and no other body names one.
pub fn credentials()
    ensures spelled { (body : List ℕ) (cred : Cred) → Spells auth_sys cred body
        → cred_in 1 body ≡ Some cred }
    ensures only { (body : List ℕ) (cred : Cred) → IsBytes body
        → cred_in 1 body ≡ Some cred → Spells auth_sys cred body }
{}
