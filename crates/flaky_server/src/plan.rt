//! What has failed so far, and what fails next.

ghost use Rattle.std.specs.Prelude.{◌≡◌, ◌≤◌, ◌&&◌, true, false, nat_le, Ok, Err, OnOk, OnErr};
ghost use Rattle.std.specs.List.{list_any};
ghost use Rattle.nfs2_types.specs.Counts.{Rose};
ghost use Rattle.server_trait.specs.declared.SrvErr.TheVariants as errors;
ghost use Rattle.flaky_server.specs.Flaking.{Noted};

use crate::fail::{Fail, SrvCall};
use server_trait::SrvErr;

/// The calls so far by kind, whether the server has lost its tree, and how often it has failed.
#[derive(Drop)]
pub struct Plan {
    fails: Vec<Fail>,
    counts: Counts,
    pub down: bool,
    pub faults: u64,
}

/// How many calls of each kind there were.
#[derive(Clone, Copy)]
struct Counts {
    attr: u64,
    set_attr: u64,
    read: u64,
    read_link: u64,
    write: u64,
    set_size: u64,
    lookup: u64,
    list: u64,
    create: u64,
    mkdir: u64,
    symlink: u64,
    link: u64,
    remove: u64,
    rmdir: u64,
    rename: u64,
    reboot: u64,
    wipe: u64,
}

impl Counts {
    fn of(&mut self, call: SrvCall) -> &mut u64 {
        match call {
            SrvCall::Attr => &mut self.attr,
            SrvCall::SetAttr => &mut self.set_attr,
            SrvCall::Read => &mut self.read,
            SrvCall::ReadLink => &mut self.read_link,
            SrvCall::Write => &mut self.write,
            SrvCall::SetSize => &mut self.set_size,
            SrvCall::Lookup => &mut self.lookup,
            SrvCall::List => &mut self.list,
            SrvCall::Create => &mut self.create,
            SrvCall::Mkdir => &mut self.mkdir,
            SrvCall::Symlink => &mut self.symlink,
            SrvCall::Link => &mut self.link,
            SrvCall::Remove => &mut self.remove,
            SrvCall::Rmdir => &mut self.rmdir,
            SrvCall::Rename => &mut self.rename,
            SrvCall::Reboot => &mut self.reboot,
            SrvCall::Wipe => &mut self.wipe,
        }
    }
}

/// Whether a call of this kind with this number fails.
fn is_failing(fails: &[Fail], call: SrvCall, number: u64) -> bool {
    fails.iter().any(|fail| fail.call == call && fail.from <= number && number <= fail.to)
}

impl Plan {
    pub fn new(fails: Vec<Fail>) -> Plan
        ensures down { result.down ≡ false }
        ensures faults { result.faults ≡ 0 }
    {
        Plan {
            fails,
            counts: Counts {
                attr: 0,
                set_attr: 0,
                read: 0,
                read_link: 0,
                write: 0,
                set_size: 0,
                lookup: 0,
                list: 0,
                create: 0,
                mkdir: 0,
                symlink: 0,
                link: 0,
                remove: 0,
                rmdir: 0,
                rename: 0,
                reboot: 0,
                wipe: 0,
            },
            down: false,
            faults: 0,
        }
    }

    /// Counts a call, which fails where the plan says so: then the server is down, and has failed once more.
    pub fn begin(&mut self, call: SrvCall) -> Result<(), SrvErr>
        ensures passes { OnOk result ((self.new.down ≡ self.old.down) × (self.new.faults ≡ self.old.faults)) }
        ensures fails { OnErr result ((result ≡ Err errors.Fault) × (self.new.down ≡ true)
            × Rose self.old.faults self.new.faults × (self.old.faults ≤ self.new.faults)) }
    {
        let count = self.counts.of(call);
        *count = count.saturating_add(1);
        let number = *count;
        if is_failing(&self.fails, call, number) {
            self.down = true;
            self.faults = self.faults.saturating_add(1);
            return Err(SrvErr::Fault);
        }
        Ok(())
    }

    /// Notes an answer of the server inside.
    pub fn note<T>(&mut self, answer: Result<T, SrvErr>) -> Result<T, SrvErr>
        ensures answer { result ≡ answer }
        ensures noted { Noted answer self.old.down self.new.down self.old.faults self.new.faults }
    {
        match answer {
            Ok(value) => Ok(value),
            Err(SrvErr::Fault) => {
                self.down = true;
                self.faults = self.faults.saturating_add(1);
                Err(SrvErr::Fault)
            }
            Err(SrvErr::NoMemory) => {
                self.down = true;
                Err(SrvErr::NoMemory)
            }
            Err(error) => Err(error),
        }
    }
}
