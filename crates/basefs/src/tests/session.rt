//! Logs that grow call by call, beside the lines that they print.

ghost use Rattle.std.specs.Prelude.{◌≡◌, ◌<◌, ◌≤◌, ◌+◌, ◌*◌, ◌^◌, vec_len, IfOk};

use super::{END, RUN_ALL, WHOLE, bytes_of, flaky, from_call, log_of, run_bench};
use crate::status::Status;
use flaky_server::SrvCall;
use server_trait::{Bench, FaultPoint, Srv};
use std::alloc::{AllocError, Global};
use std::test::Fail;

/// The handle of the root.
pub const ROOT: [u32; 8] = [0x42415345, 0, 1, 0, 0, 0, 0, 0];

/// A sattr that leaves all alone.
pub const KEEP: [u32; 8] = [!0; 8];

/// The status OK.
pub const OK: [u32; 1] = [0];

/// The handle of an index and a generation.
pub fn handle(index: u32, generation: u32) -> [u32; 8] {
    [0x42415345, index, generation, 0, 0, 0, 0, 0]
}

/// The attributes of a file of mode 0644 of nobody: its fileid, links, size and blocks, and its three times.
pub fn file(fileid: u32, links: u32, size: u32, blocks: u32, times: [u32; 3]) -> [u32; 17] {
    let [atime, mtime, ctime] = times;
    [
        1, 0x81a4, links, 0xfffe, 0xfffe, size, 4096, 0, blocks, 1, fileid, atime, 0, mtime, 0,
        ctime, 0,
    ]
}

/// The attributes of a directory of mode 0755 of nobody without names.
pub fn directory(fileid: u32, time: u32) -> [u32; 17] {
    [
        2, 0x41ed, 2, 0xfffe, 0xfffe, 512, 4096, 0, 1, 1, fileid, time, 0, time, 0, time, 0,
    ]
}

/// Where the server of a replica fails: at the call of a kind with this number, counted from 1, and at each behind it.
/// It gets that call in the record with the number `event`, the start being 0.
#[derive(Clone, Copy, Debug, PartialEq, Eq)]
pub struct Fault {
    pub call: SrvCall,
    pub number: u64,
    pub event: u64,
}

/// A place of a checkpoint, and the root of the array there in hexadecimal digits.
pub type Root = (usize, &'static str);

/// Calls, each of which is run at once, and the line of each reply. A checkpoint comes each `interval` calls.
#[derive(Drop)]
pub struct Session {
    bytes: u32,
    interval: u32,
    records: Vec<u8>,
    replies: Vec<String>,
    roots: Vec<Root>,
}

/// What a run prints, and where servers fail in it.
#[derive(Drop)]
struct Course {
    lines: Vec<u8>,
    points: Vec<FaultPoint>,
}

/// How many replicas there are.
fn replicas_of(f: u32) -> u32
    requires { f ≤ 2 }
    ensures count { result ≡ 3 * f + 1 }
    ensures few { result ≤ 7 }
{
    3 * f + 1
}

/// Whether a server fails in this record.
fn is_failing(fault: Option<Fault>, event: u64) -> bool {
    match fault {
        Some(fault) => fault.event == event,
        None => false,
    }
}

/// Whether a server has failed before this record.
fn is_down(fault: Option<Fault>, event: u64) -> bool {
    match fault {
        Some(fault) => fault.event < event,
        None => false,
    }
}

impl Course {
    /// The server of a replica fails in the first stage of a record, or in the start.
    fn fails(&mut self, alloc: Global, event: u64, replica: u32) -> Result<(), Fail> {
        let stage = u64::from(event != 0);
        self.points.push(FaultPoint {
            event,
            stage,
            replica,
        })?;
        let line = format!(in alloc; "down {replica}\n")?;
        self.lines.extend_from_slice(line.as_bytes())?;
        Ok(())
    }

    /// The replicas start.
    fn starts(&mut self, alloc: Global, faults: &[Option<Fault>]) -> Result<(), Fail> {
        let mut r = 0u32;
        for fault in faults {
            if is_failing(*fault, 0) {
                self.fails(alloc, 0, r)?;
            }
            r = r.saturating_add(1);
        }
        Ok(())
    }

    /// Each replica runs a request. f + 1 of them decide the reply, and 2f + 1 make the place stable where it is that
    /// of a checkpoint.
    fn runs(
        &mut self,
        alloc: Global,
        f: u32,
        event: u64,
        reply: &str,
        stable: &str,
        faults: &[Option<Fault>],
    ) -> Result<(), Fail> {
        let mut r = 0u32;
        let mut words = 0u32;
        for fault in faults {
            if is_failing(*fault, event) {
                self.fails(alloc, event, r)?;
            } else if !is_down(*fault, event) {
                words = words.saturating_add(1);
                if words == f.saturating_add(1) {
                    self.lines.extend_from_slice(reply.as_bytes())?;
                }
                if words == f.saturating_mul(2).saturating_add(1) {
                    self.lines.extend_from_slice(stable.as_bytes())?;
                }
            }
            r = r.saturating_add(1);
        }
        Ok(())
    }

    /// The log ends, where each replica that lives is at this place.
    fn ends(
        &mut self,
        alloc: Global,
        place: usize,
        faults: &[Option<Fault>],
    ) -> Result<(), AllocError> {
        let mut r = 0u32;
        for fault in faults {
            let line = match fault {
                Some(_) => format!(in alloc; "at {r} down\n")?,
                None => format!(in alloc; "at {r} {place}\n")?,
            };
            self.lines.extend_from_slice(line.as_bytes())?;
            r = r.saturating_add(1);
        }
        Ok(())
    }
}

/// A bench of so many servers, of which the first have these faults.
pub fn bench_of(alloc: Global, count: u32, faults: &[Option<Fault>]) -> Result<Bench, Fail>
    ensures { IfOk result (λ bench. vec_len bench.servers ≡ count) }
{
    let mut servers: Vec<Srv> = Vec::new(alloc);
    for r in 0..count {
        let mut fails = Vec::new(alloc);
        if let Some(Some(fault)) = faults.get(r as usize) {
            fails.push(from_call(fault.call, fault.number))?;
        }
        servers.push(flaky(alloc, fails)?)?;
    }
    Ok(Bench::new(alloc, servers))
}

impl Session {
    /// No calls, over 16 entries of at most so many bytes, with a checkpoint each 1,024 calls.
    pub fn new(alloc: Global, bytes: u32) -> Session {
        Session {
            bytes,
            interval: 1024,
            records: Vec::new(alloc),
            replies: Vec::new(alloc),
            roots: Vec::new(alloc),
        }
    }

    /// Checkpoints come each so many calls, and have these roots.
    pub fn set_checkpoints(
        &mut self,
        alloc: Global,
        interval: u32,
        roots: &[Root],
    ) -> Result<(), AllocError> {
        self.interval = interval;
        self.roots = Vec::new(alloc);
        self.roots.extend_from_slice(roots)?;
        Ok(())
    }

    /// The line of a stable place, or none where it is not that of a checkpoint.
    fn stable_line(&self, alloc: Global, place: usize) -> Result<String, AllocError> {
        for (at, root) in &self.roots {
            if *at == place {
                return format!(in alloc; "stable {place} {root}\n");
            }
        }
        Ok(String::new(alloc))
    }

    /// Adds a call, which is run at once, and its reply. The n-th call has xid n and comes at the second n.
    fn call(
        &mut self,
        alloc: Global,
        head: &[u32],
        args: &[&[u32]],
        words: &[&[u32]],
    ) -> Result<(), AllocError> {
        let n = u32::try_from(self.replies.len())
            .unwrap_or(0)
            .saturating_add(1);
        let call = log_of(alloc, &[&[n, 0, 2], head, &[0, 0, 0, 0]])?;
        let args = log_of(alloc, args)?;
        let len = u32::try_from(call.len().saturating_add(args.len())).unwrap_or(!0);
        self.records
            .extend_from_slice(&bytes_of(alloc, &[1, 0, n, 0, len])?)?;
        self.records.extend_from_slice(&call)?;
        self.records.extend_from_slice(&args)?;
        self.records
            .extend_from_slice(&bytes_of(alloc, &[RUN_ALL])?)?;
        let mut reply = bytes_of(alloc, &[n, 1, 0, 0, 0, 0])?;
        reply.extend_from_slice(&log_of(alloc, words)?)?;
        let hex = hex::encode(alloc, &reply)?;
        let line = format!(in alloc; "reply {n} {hex}\n")?;
        self.replies.push(line)?;
        Ok(())
    }

    /// Adds a call of a procedure of NFS, and the words of its result.
    pub fn nfs(
        &mut self,
        alloc: Global,
        proc: u32,
        args: &[&[u32]],
        words: &[&[u32]],
    ) -> Result<(), AllocError> {
        self.call(alloc, &[100003, 2, proc], args, words)
    }

    /// Adds a call of a procedure of MOUNT, and the words of its result.
    pub fn mount(
        &mut self,
        alloc: Global,
        proc: u32,
        args: &[&[u32]],
        words: &[&[u32]],
    ) -> Result<(), AllocError> {
        self.call(alloc, &[100005, 1, proc], args, words)
    }

    /// The log over replicas of which f may fail.
    fn log(&self, alloc: Global, f: u32) -> Result<Vec<u8>, AllocError> {
        let header = [0x42415345, 0x4c4f4731, f, 16, self.interval, self.bytes];
        let mut log = bytes_of(alloc, &header)?;
        log.extend_from_slice(&self.records)?;
        log.extend_from_slice(&bytes_of(alloc, &[END])?)?;
        Ok(log)
    }

    /// What its run comes to, where the servers of the replicas have these faults.
    fn course(&self, alloc: Global, f: u32, faults: &[Option<Fault>]) -> Result<Course, Fail> {
        let mut course = Course {
            lines: Vec::new(alloc),
            points: Vec::new(alloc),
        };
        course.starts(alloc, faults)?;
        let mut place = 0usize;
        for reply in &self.replies {
            place = place.saturating_add(1);
            let stable = self.stable_line(alloc, place)?;
            let event = (place as u64).saturating_mul(2);
            course.runs(alloc, f, event, reply.as_str(), stable.as_str(), faults)?;
        }
        course.ends(alloc, self.replies.len(), faults)?;
        Ok(course)
    }

    /// Runs the log over these servers, of which those of the replicas have these faults. It fails unless the run
    /// prints the lines of the votes, and has the fault points of the faults.
    fn runs_over(
        &self,
        alloc: Global,
        f: u32,
        faults: &[Option<Fault>],
        mut bench: Bench,
    ) -> Result<(), Fail>
        requires { vec_len bench.servers < 2 ^ 32 }
    {
        let (status, text) = run_bench(alloc, self.log(alloc, f)?, WHOLE, &mut bench)?;
        let course = self.course(alloc, f, faults)?;
        if status != Status::Done {
            return Err("not done".into());
        }
        if text != course.lines {
            return Err("other lines".into());
        }
        if bench.downs != course.points {
            return Err("other fault points".into());
        }
        Ok(())
    }

    /// The same over ten servers.
    pub fn runs_with(&self, alloc: Global, f: u32, faults: &[Option<Fault>]) -> Result<(), Fail> {
        self.runs_over(alloc, f, faults, bench_of(alloc, 10, faults)?)
    }

    /// The record in which the server of replica r fails at this call, if it gets so many of its kind.
    fn failing_record(
        &self,
        alloc: Global,
        f: u32,
        faults: &[Option<Fault>],
    ) -> Result<Option<u64>, Fail>
        requires { f ≤ 2 }
    {
        let mut bench = bench_of(alloc, replicas_of(f), faults)?;
        let (status, _) = run_bench(alloc, self.log(alloc, f)?, WHOLE, &mut bench)?;
        if status != Status::Done {
            return Err("not done".into());
        }
        match bench.downs.as_slice() {
            [] => Ok(None),
            [point] => Ok(Some(point.event)),
            _ => Err("more than one fault point".into()),
        }
    }

    /// Runs the log where the server of replica r fails at the call of a kind with this number, and at each behind it:
    /// whether it gets so many. In which record it does is seen by a run, and all else follows from that.
    pub fn fails_at(
        &self,
        alloc: Global,
        f: u32,
        r: usize,
        call: SrvCall,
        number: u64,
    ) -> Result<bool, Fail>
        requires few { f ≤ 2 }
        requires replica { r < 7 }
    {
        let count = replicas_of(f);
        let mut faults = [None; 7];
        faults[r] = Some(Fault {
            call,
            number,
            event: 0,
        });
        let event = self.failing_record(alloc, f, &faults[..count as usize])?;
        let bench = bench_of(alloc, count, &faults[..count as usize])?;
        faults[r] = event.map(|event| Fault {
            call,
            number,
            event,
        });
        self.runs_over(alloc, f, &faults[..count as usize], bench)?;
        Ok(event.is_some())
    }

    /// Runs the log over one replica, over four and over seven.
    pub fn runs(&self, alloc: Global) -> Result<(), Fail> {
        let none = [None; 7];
        for f in 0..=2u32 {
            self.runs_with(alloc, f, &none[..3 * f as usize + 1])?;
        }
        Ok(())
    }
}
