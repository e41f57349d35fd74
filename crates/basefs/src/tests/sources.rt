//! A replica over a server of each kind gets all objects from the others, while the servers of one or more of these
//! fail. The others have path servers, so that all of them get the same calls.

ghost use Rattle.std.specs.Prelude.{◌≡◌, vec_len, IfOk};

use super::objects::{
    FIRST, MORE, READ, REPLIES_4, REPLIES_6, REPLIES_8, REPLY_1, REPLY_9, STABLE_4, STABLE_8,
};
use super::reboots::{point, server_of};
use super::{
    END, FETCH, REBOOT, RUN_ALL, WHOLE, flaky, from_call, header, log_of, null_request, run_bench,
};
use crate::status::Status;
use flaky_server::SrvCall;
use server_trait::{Bench, FaultPoint, Srv};
use std::alloc::Global;
use std::test::Fail;

const SKIP: u32 = 7;

const WIPE: u32 = 12;

/// Why a replica lacks all objects: its server was wiped, or it has run no request.
#[derive(Clone, Copy, Debug, PartialEq, Eq)]
enum Loss {
    Wiped,
    Skipped,
}

/// A replica that is rebuilt, the kind of its server, and why it lacks all objects.
#[derive(Clone, Copy, Debug)]
struct Rebuilt {
    replica: u32,
    kind: u32,
    loss: Loss,
}

/// The servers of so many replicas fail, of the first that are asked: that of the first at the call of a kind with this
/// number, those of the others at the first such call that they get in the Fetch, and each at all calls behind it.
#[derive(Clone, Copy, Debug)]
struct Failing {
    call: SrvCall,
    first: u64,
    number: u64,
    sources: u32,
}

/// The replies of the procedure 0 at places 10 to 12.
const LATER: &str = "\
    reply 10 000000010000000100000000000000000000000000000000\n\
    reply 11 000000010000000100000000000000000000000000000000\n\
    reply 12 000000010000000100000000000000000000000000000000\n";

/// The last four requests change nothing, so the root is that of the eighth.
const STABLE_12: &str =
    "stable 12 a9a7f32d2a5442703612e871f73816496c22dc3821b0f9c7bd6e50f8bf11a7f7\n";

impl Rebuilt {
    /// All objects are made, the replica is rebuilt, and all run four more requests.
    fn log(&self, alloc: Global) -> Result<Vec<u8>, Fail> {
        let r = self.replica;
        let skipped = [
            SKIP, r, SKIP, r, SKIP, r, SKIP, r, SKIP, r, SKIP, r, SKIP, r, SKIP, r, RUN_ALL,
            REBOOT, r, FETCH, r, 1000,
        ];
        let wiped = [RUN_ALL, WIPE, r, REBOOT, r, FETCH, r, 1000];
        let rebuild: &[u32] = match self.loss {
            Loss::Wiped => &wiped,
            Loss::Skipped => &skipped,
        };
        let parts: [&[u32]; 9] = [
            &header(1, 4),
            &FIRST,
            &MORE,
            rebuild,
            &READ,
            &null_request(10),
            &null_request(11),
            &null_request(12),
            &[RUN_ALL, END],
        ];
        Ok(log_of(alloc, &parts)?)
    }

    /// The number of the Fetch among the records.
    fn fetch(&self) -> u64 {
        match self.loss {
            Loss::Wiped => 12,
            Loss::Skipped => 19,
        }
    }

    /// Whether the server of a replica is one that fails: others are asked in rising order.
    fn is_failing(&self, sources: u32, replica: u32) -> bool {
        if replica < self.replica {
            replica < sources
        } else {
            replica > self.replica && replica <= sources
        }
    }

    /// The server of a replica.
    fn server(&self, alloc: Global, failing: &Failing, replica: u32) -> Result<Srv, Fail> {
        if replica == self.replica {
            return server_of(alloc, self.kind);
        }
        let mut fails = Vec::new(alloc);
        if self.is_failing(1, replica) {
            fails.push(from_call(failing.call, failing.number))?;
        } else if self.is_failing(failing.sources, replica) {
            fails.push(from_call(failing.call, failing.first))?;
        }
        flaky(alloc, fails)
    }

    /// The servers of four replicas.
    fn bench(&self, alloc: Global, failing: &Failing) -> Result<Bench, Fail>
        ensures { IfOk result (λ bench. vec_len bench.servers ≡ 4) }
    {
        let first = self.server(alloc, failing, 0)?;
        let second = self.server(alloc, failing, 1)?;
        let third = self.server(alloc, failing, 2)?;
        let fourth = self.server(alloc, failing, 3)?;
        Ok(Bench::new(alloc, vec![in alloc; first, second, third, fourth]?))
    }

    /// Where servers fail, at a stage of the Fetch.
    fn points(&self, alloc: Global, sources: u32, stage: u64) -> Result<Vec<FaultPoint>, Fail> {
        let mut points = Vec::new(alloc);
        for replica in 0..4u32 {
            if self.is_failing(sources, replica) {
                points.push(point(self.fetch(), stage, replica))?;
            }
        }
        Ok(points)
    }

    /// The lines of the Fetch: each failure, and then its end. At a stage as many items were got as its number says.
    fn fetched(&self, alloc: Global, sources: u32, stage: u64) -> Result<String, Fail> {
        let r = self.replica;
        let mut text = String::new(alloc);
        for replica in 0..4u32 {
            if self.is_failing(sources, replica) {
                text.push_str(format!(in alloc; "down {replica}\n")?.as_str())?;
            }
        }
        let end = if sources < 3 {
            format!(in alloc; "rebuilt {r} 8 1 5\n")?
        } else {
            format!(in alloc; "fetching {r} 8 {stage}\n")?
        };
        text.push_str(end.as_str())?;
        Ok(text)
    }

    /// What a replica is at the end: one that is rebuilt runs with the others, and else none is live.
    fn end(&self, alloc: Global, sources: u32, replica: u32) -> Result<String, Fail> {
        if self.is_failing(sources, replica) {
            return Ok(format!(in alloc; "at {replica} down\n")?);
        }
        if sources < 3 {
            return Ok(format!(in alloc; "at {replica} 12\n")?);
        }
        Ok(format!(in alloc; "at {replica} rebuilding\n")?)
    }

    /// The lines behind the Fetch. Two equal words decide a place, and three equal roots make it stable: those of the
    /// rebuilt replica are among them where servers failed.
    fn later(&self, alloc: Global, sources: u32) -> Result<String, Fail> {
        let mut text = String::new(alloc);
        if sources < 3 {
            text.push_str(REPLY_9)?;
            text.push_str(LATER)?;
        }
        if sources < 2 {
            text.push_str(STABLE_12)?;
        }
        for replica in 0..4u32 {
            text.push_str(self.end(alloc, sources, replica)?.as_str())?;
        }
        Ok(text)
    }

    /// All lines of the run.
    fn lines(&self, alloc: Global, sources: u32, stage: u64) -> Result<String, Fail> {
        let mut text = String::new(alloc);
        for part in [REPLY_1, REPLIES_4, STABLE_4, REPLIES_6, REPLIES_8, STABLE_8] {
            text.push_str(part)?;
        }
        text.push_str(self.fetched(alloc, sources, stage)?.as_str())?;
        text.push_str(self.later(alloc, sources)?.as_str())?;
        Ok(text)
    }

    /// The stage of the Fetch at which the servers fail, or none where they don't fail in it. At which call they do is
    /// seen by the run, and all else follows from that.
    fn failing_stage(&self, alloc: Global, failing: &Failing) -> Result<Option<u64>, Fail> {
        let mut bench = self.bench(alloc, failing)?;
        let (status, printed) = run_bench(alloc, self.log(alloc)?, WHOLE, &mut bench)?;
        let stage = match bench.downs.first() {
            Some(met) if met.event == self.fetch() => met.stage,
            _ => return Ok(None),
        };
        if status != Status::Done {
            return Err("not done".into());
        }
        if printed.as_slice() != self.lines(alloc, failing.sources, stage)?.as_bytes() {
            return Err("other lines".into());
        }
        if bench.downs != self.points(alloc, failing.sources, stage)? {
            return Err("other fault points".into());
        }
        Ok(Some(stage))
    }

    /// The stages at which so many sources get calls of a kind in the Fetch, each once, from the call with this number
    /// on.
    fn failing_stages(
        &self,
        alloc: Global,
        call: SrvCall,
        sources: u32,
        first: u64,
    ) -> Result<Vec<u64>, Fail> {
        let mut stages = Vec::new(alloc);
        for number in first..=200 {
            let failing = Failing {
                call,
                first,
                number,
                sources,
            };
            let Some(stage) = self.failing_stage(alloc, &failing)? else {
                return Ok(stages);
            };
            if stages.last() != Some(&stage) {
                stages.push(stage)?;
            }
        }
        Err("more than 200 calls of a kind".into())
    }

    /// Whether one source, two or all three of them get calls of a kind at these stages.
    fn fails_at(
        &self,
        alloc: Global,
        call: SrvCall,
        first: u64,
        stages: &[u64],
    ) -> Result<bool, Fail> {
        for sources in 1..=3u32 {
            let failing = self.failing_stages(alloc, call, sources, first)?;
            if failing.as_slice() != stages {
                return Ok(false);
            }
        }
        Ok(true)
    }
}

/// The number of the first call of a kind that a source gets in a Fetch.
fn first_number(alloc: Global, call: SrvCall) -> Result<u64, Fail> {
    let rebuilt = Rebuilt {
        replica: 3,
        kind: 2,
        loss: Loss::Wiped,
    };
    for number in 1..=200u64 {
        let failing = Failing {
            call,
            first: number,
            number,
            sources: 1,
        };
        if rebuilt.failing_stage(alloc, &failing)?.is_some() {
            return Ok(number);
        }
    }
    Err("no such call in a Fetch".into())
}

/// A server of each kind at other positions, and both reasons.
const REBUILT: [(u32, u32, Loss); 6] = [
    (0, 0, Loss::Wiped),
    (1, 1, Loss::Wiped),
    (3, 2, Loss::Wiped),
    (2, 0, Loss::Skipped),
    (3, 1, Loss::Skipped),
    (0, 2, Loss::Skipped),
];

/// Whether sources get calls of a kind at these stages, whichever replica is rebuilt.
fn all_fail_at(alloc: Global, call: SrvCall, stages: &[u64]) -> Result<bool, Fail> {
    let first = first_number(alloc, call)?;
    for (replica, kind, loss) in REBUILT {
        let rebuilt = Rebuilt {
            replica,
            kind,
            loss,
        };
        if !rebuilt.fails_at(alloc, call, first, stages)? {
            return Ok(false);
        }
    }
    Ok(true)
}

/// The node, at stage 0, needs no server. Behind it come the entries 0 to 4: three directories, a file and a link. A
/// source reads the attributes of each object, the names of a directory, the bytes of a file, and the text of a link.
#[test]
fn sources_fail_at_each_call(rt: HostRuntime) -> Result<(), Fail> {
    let alloc = rt.alloc();
    assert!(rt; all_fail_at(alloc, SrvCall::Attr, &[1, 2, 3, 4, 5])?);
    assert!(rt; all_fail_at(alloc, SrvCall::List, &[1, 2, 3])?);
    assert!(rt; all_fail_at(alloc, SrvCall::Read, &[4])?);
    assert!(rt; all_fail_at(alloc, SrvCall::ReadLink, &[5])?);
    Ok(())
}
