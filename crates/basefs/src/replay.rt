//! A replay: a log from a source is run over a bench.

ghost use Rattle.std.specs.Prelude.{◌≡◌, ◌<◌, ◌≤◌, ◌^◌, vec_len};
ghost use Rattle.nfs2_types.specs.Counts.{Rose};
ghost use Rattle.basefs.specs.Setting.{setting};
ghost use Rattle.basefs.specs.Replayed.{Replayed};

use crate::bench::refusal;
use crate::run::run_log;
use crate::status::Status;
use crate::turn::read_status;
use log_stream::read_header;
use nfs2_types::Limits;
use outside::{Sink, Source};
use server_trait::{Bench, FileServer, Srv};
use std::alloc::Global;

/// Reads a log from the source, runs it over the servers of the bench, and writes its lines to the sink.
pub fn replay<S: Source, O: Sink>(
    alloc: Global,
    input: &mut S,
    out: &mut O,
    bench: &mut Bench,
) -> Status
    requires few { vec_len bench.old.servers < 2 ^ 32 }
    ensures replayed { Replayed ⟦<Srv as FileServer>⟧.state
        (setting (S.left input.old) (O.written out.old)
        bench.old.servers.items bench.old.tables.items bench.old.downs.items)
        (setting (S.left input.new) (O.written out.new)
        bench.new.servers.items bench.new.tables.items bench.new.downs.items) result }
    ensures read { result ≡ Status.ReadFault → Rose (S.faults input.old) (S.faults input.new) }
    ensures write { result ≡ Status.WriteFault → Rose (O.faults out.old) (O.faults out.new) }
{
    let header = match read_header(input) {
        Ok(header) => header,
        Err(error) => return read_status(error, 0),
    };
    if let Some(status) = refusal(&header, &bench.servers) {
        return status;
    }
    let limits = Limits {
        n: header.n,
        k: header.k,
        t: header.t,
        f: header.f,
    };
    run_log(alloc, &limits, input, out, bench)
}
