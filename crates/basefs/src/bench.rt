//! What a bench must have for a log.

ghost use Rattle.std.specs.Prelude.{◌≡◌, ◌<◌, ◌^◌, length, Option};
ghost use Rattle.std.specs.List.{position_from};
ghost use Rattle.basefs.specs.Log.{is_small as is_small_for};
ghost use Rattle.basefs.specs.Replayed.{Refuses};

use crate::status::Status;
use log_format::Header;
use server_trait::{FileServer, ServerLimits, Srv};

/// Whether a server can't hold every array within the limits of a header.
fn is_small(header: &Header, most: ServerLimits) -> bool
    ensures { result ≡ is_small_for header.now most }
{
    u64::from(most.nodes) < u64::from(header.n) + 3 || most.bytes < u64::from(header.t) + 1_048_576
}

/// The first server that is too small.
fn first_small(header: &Header, servers: &[Srv]) -> Option<u32>
    requires few { length servers.now < 2 ^ 32 }
    ensures { result ≡
        position_from (λ s. is_small_for header.now ((⟦<Srv as FileServer>⟧.state s).limits)) 0 servers.now }
{
    for r in 0..servers.len() {
        if is_small(header, servers[r].limits()) {
            return Some(r as u32);
        }
    }
    None
}

/// Why a log with this header is not run over these servers.
pub fn refusal(header: &Header, servers: &[Srv]) -> Option<Status>
    requires few { length servers.now < 2 ^ 32 }
    requires replicas { header.now.f < 2 ^ 30 }
    ensures { Refuses (λ s. (⟦<Srv as FileServer>⟧.state s).limits) header.now servers.now result }
{
    let need = 3 * header.f + 1;
    if servers.len() < need as usize {
        return Some(Status::TooFewServers {
            have: servers.len() as u32,
            need,
        });
    }
    match first_small(header, servers) {
        Some(server) => Some(Status::ServerTooSmall { server }),
        None => None,
    }
}
