//! Logs of random records, beside the lines that a model of the rules has for them.

ghost use Rattle.std.specs.Prelude.{◌≡◌, ◌<◌, ◌≤◌, ◌^◌, vec_len, IfOk};

use super::reboots::server_of;
use super::{WHOLE, run_bench};
use crate::status::Status;
use log_model::course_of;
use server_trait::{Bench, Srv};
use std::alloc::Global;
use std::test::Fail;

/// How many logs are run.
const LOGS: u64 = 200;

/// A bench of servers of these kinds, at most sixteen.
fn bench_of_kinds(alloc: Global, kinds: &[u32]) -> Result<Bench, Fail>
    ensures { IfOk result (λ bench. vec_len bench.servers < 2 ^ 32) }
{
    let mut servers: Vec<Srv> = Vec::new(alloc);
    for r in 0..16u32 {
        if let Some(kind) = kinds.get(r as usize) {
            servers.push(server_of(alloc, *kind)?)?;
        }
    }
    Ok(Bench::new(alloc, servers))
}

/// Whether the program prints the lines of the model for the log of a seed.
fn is_as_the_model(alloc: Global, seed: u64) -> Result<bool, Fail> {
    let course = course_of(alloc, seed)?;
    let mut bench = bench_of_kinds(alloc, &course.kinds)?;
    let (status, text) = run_bench(alloc, course.log, WHOLE, &mut bench)?;
    Ok(status == Status::Done && text == course.lines && bench.downs.is_empty())
}

#[test]
fn random_logs_print_the_lines_of_the_model(rt: HostRuntime) -> Result<(), Fail> {
    for seed in 0..LOGS {
        assert!(rt; is_as_the_model(rt.alloc(), seed)?, "seed {seed}");
    }
    Ok(())
}
