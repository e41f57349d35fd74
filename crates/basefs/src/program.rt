//! All that the program does.

ghost use Rattle.std.specs.Prelude.{◌≡◌, ◌<◌, ◌^◌, vec_len, IfSome, IsTrue, ◌↔◌, ◌⊎◌};
ghost use Rattle.nfs2_types.specs.Counts.{Rose};
ghost use Rattle.basefs.specs.Log.{log_of};
ghost use Rattle.basefs.specs.Run.{status_of, IsFault};
ghost use Rattle.basefs.specs.Setting.{setting};
ghost use Rattle.basefs.specs.Replayed.{Replayed};
ghost use Rattle.basefs.specs.Words.{IsReplay};

use crate::replay::replay;
use crate::status::Status;
use outside::{Clock, Link, Sink, Source};
use server_trait::{Bench, FileServer, Srv};
use std::alloc::Global;

/// Whether these are the words of the one command.
fn is_replay(words: &[String]) -> bool
    ensures { IsTrue result ↔ IsReplay words.now }
{
    match words {
        [word] => word.as_str() == "replay",
        _ => false,
    }
}

/// All that the program does, over the words behind its name: it reads a log from the source, runs it over
/// the servers of the bench, and writes its lines to the sink. Link and clock are not used yet. The status
/// says how it ended; each has its cause below.
pub fn basefs<S: Source, O: Sink, N: Link, C: Clock>(
    alloc: Global,
    words: &[String],
    input: &mut S,
    out: &mut O,
    _link: &mut N,
    _clock: &mut C,
    bench: &mut Bench,
) -> Status
    requires few { vec_len bench.old.servers < 2 ^ 32 }
    ensures usage { (result ≡ Status.Usage) ↔ ¬ (IsReplay words.now) }

    // Words that are no command touch nothing.
    ensures untouched { result ≡ Status.Usage →
        (input.new ≡ input.old) × (out.new ≡ out.old) × (bench.new ≡ bench.old) }

    // Where the source tells its bytes, the status is that of the log that they are, unless the outside
    // fails or memory wants.
    ensures exact { IsReplay words.now → IfSome (S.left input.old) (λ bytes.
        let log = log_of (λ s. (⟦<Srv as FileServer>⟧.state s).limits) bench.old.servers.items bytes in
        (result ≡ status_of log.stop) ⊎ IsFault result) }

    // Either nothing was started and written, and the bench is as it was; or the replicas were started over the first
    // servers, and the records of the log were stepped up to the one that stops the run. Then, whatever servers fail,
    // each reply among the lines is the service's at its place, and the only one there; each stable place that a line
    // names has the root of the service's array there; each place that f + 1 live replicas have run has its reply, and
    // each of a checkpoint that 2f + 1 have run is stable or lies below a stable one; the server of each live replica
    // holds exactly the array of the service at the replica's place; and each `down` line is that of a fault point, for
    // which the count of its server rose.
    ensures run { IsReplay words.now → Replayed ⟦<Srv as FileServer>⟧.state
        (setting (S.left input.old) (O.written out.old)
        bench.old.servers.items bench.old.tables.items bench.old.downs.items)
        (setting (S.left input.new) (O.written out.new)
        bench.new.servers.items bench.new.tables.items bench.new.downs.items) result }

    ensures read { result ≡ Status.ReadFault → Rose (S.faults input.old) (S.faults input.new) }
    ensures write { result ≡ Status.WriteFault → Rose (O.faults out.old) (O.faults out.new) }
    ensures link { _link.new ≡ _link.old }
    ensures clock { _clock.new ≡ _clock.old }
{
    if is_replay(words) {
        replay(alloc, input, out, bench)
    } else {
        Status::Usage
    }
}
