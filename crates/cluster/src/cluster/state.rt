//! What a cluster keeps.

ghost use Rattle.std.specs.Prelude.{◌≡◌, ◌<◌, ◌≤◌, ◌+◌, ◌*◌, ◌^◌, length, true, All};
ghost use Rattle.nfs2_types.specs.Times.{is_time};
ghost use Rattle.conf_map.specs.Stands.{AreWithin};
ghost use Rattle.reply_vote.specs.Ballots.{ballots};
ghost use Rattle.cluster.specs.OverBench.{AreOver, is_size};

use cluster_model::Request;
use nfs2_types::{Digest, Limits, Word};
use reply_vote::Votes;
use seats::Seat;
use std::collections::BTreeMap;

/// A cluster: its limits, its requests, its replicas by number, their votes, what was decided, the stable place, and
/// how many records it stepped. It keeps no array: that of a replica is what its server and table stand for.
#[derive(Drop)]
pub struct Cluster {
    pub(super) limits: Limits,
    pub(super) requests: Vec<Request>,
    pub(super) seats: Vec<Seat>,
    pub(super) votes: Votes,
    pub(super) decisions: BTreeMap<u32, Word>,
    // A root word is kept as the reply of its bytes.
    pub(super) roots: Votes,
    pub(super) stable: u32,
    pub(super) root: Digest,
    pub(super) events: u64,
    ghost within: { AreWithin limits },
    ghost sizes: { is_size limits.n ≡ true },
    ghost replicas: { limits.f ≤ 2 },
    ghost interval: { 0 < limits.k },
    ghost few: { length requests.items < 2 ^ 32 },
    ghost times: { All (λ r. is_time r.time ≡ true) requests.items },
    ghost sized: { length seats.items ≡ 3 * limits.f + 1 },
    ghost over: { AreOver limits.n seats.items },
    ghost voters: { length (ballots votes) ≡ 3 * limits.f + 1 },
    ghost root_voters: { length (ballots roots) ≡ 3 * limits.f + 1 },
}
