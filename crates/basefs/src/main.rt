//! BASEFS: a file service of NFS version 2 (RFC 1094) over replicas, which reads its requests from a log.
#![tactic(auto)]

ghost use Rattle.std.specs.Prelude.{◌<◌, ◌^◌, vec_len};

mod bench;
mod program;
mod replay;
mod run;
mod run_err;
mod status;
#[cfg(test)]
mod tests;
mod turn;
mod verdict;

use inode_server::InodeServer;
use log_server::LogServer;
use nfs2_types::NoMemory;
use outside::{MemClock, MemLink, MemMedium};
use outside_real::{StdSink, StdSource};
use path_server::PathServer;
use program::basefs;
use server_trait::{Bench, ServerLimits, Srv};
use status::Status;
use std::env::Env;
use std::io::ErrorKind;
use std::process::ExitCode;
use std::{env, io};

/// How many servers stand ready.
const SERVERS: u32 = 10;

/// What each of them holds: every array within the largest limits of a log.
const LIMITS: ServerLimits = ServerLimits {
    nodes: 4_099,
    bytes: 17_825_792,
};

/// The blocks of a medium of inodes for so much: 64, eight for each node, and one for each 256 bytes.
const INODE_BLOCKS: u32 = 102_488;

/// The blocks of a medium with a log for so much: 128, eight for each node, and one for each 128 bytes.
const LOG_BLOCKS: u32 = 172_184;

/// The words behind the program's name, if all of them are text.
fn words<R: Env + AllocGlobal>(rt: &R) -> Result<Vec<String>, Status> {
    match env::args(rt) {
        Ok(words) => words
            .skip(1)
            .collect(rt.alloc())
            .map_err(|_| Status::NoMemory),
        Err(e) if e.kind() == ErrorKind::OutOfMemory => Err(Status::NoMemory),
        Err(_) => Err(Status::Usage),
    }
}

/// Runs the program over the standard streams and a bench.
fn run_over(rt: &HostRuntime, words: &[String], bench: &mut Bench) -> Result<Status, NoMemory>
    requires { vec_len bench.old.servers < 2 ^ 32 }
{
    let alloc = rt.alloc();
    let mut input = StdSource::new(alloc, rt.reader())?;
    let mut out = StdSink::new(io::writer(rt));
    let mut link = MemLink::new(alloc, Vec::new(alloc), Vec::new(alloc));
    let mut clock = MemClock::new(Vec::new(alloc));
    Ok(basefs(
        alloc, words, &mut input, &mut out, &mut link, &mut clock, bench,
    ))
}

/// Makes the bench, and runs the program over it. Its servers are of three kinds in turn: one of inodes on a medium in
/// memory, one with a log on such a medium, and one that keeps whole paths. The status is an error where the program
/// was not run.
fn start(rt: &HostRuntime) -> Result<Status, Status> {
    let words = words(rt)?;
    let alloc = rt.alloc();
    let mut servers: Vec<Srv> = Vec::new(alloc);
    for position in 0..SERVERS {
        let server: Srv = match position % 3 {
            0 => {
                let medium = MemMedium::new(alloc, INODE_BLOCKS, Vec::new(alloc));
                Box::new(alloc, InodeServer::new(alloc, medium, LIMITS)?)?
            }
            1 => {
                let medium = MemMedium::new(alloc, LOG_BLOCKS, Vec::new(alloc));
                Box::new(alloc, LogServer::new(alloc, medium, LIMITS))?
            }
            _ => Box::new(alloc, PathServer::new(alloc, LIMITS)?)?,
        };
        servers.push(server)?;
    }
    let status = run_over(rt, &words, &mut Bench::new(alloc, servers))?;
    Ok(status)
}

fn main(rt: HostRuntime) -> ExitCode {
    let status = match start(&rt) {
        Ok(status) | Err(status) => status,
    };
    if status != Status::Done {
        let _ = eprintln!(rt; "{status}");
    }
    ExitCode::from(status.exit())
}
