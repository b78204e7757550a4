ghost use Rattle.std.specs.Prelude.{◌≡◌, ◌≤◌, ◌<◌, false, is_some, is_ok, IsTrue, IsSome, IfSome, IfOk, OnErr, None, [], length, take, option_and_then, if◌then◌else◌};
ghost use Rattle.std.specs.Io.KnownBytes.{Consumes, IsAtEnd};
ghost use Rattle.pc_common.specs.Faults.{Rose, one_more};

use pc_common::{Failed, Files};
use std::fs::File;
use std::io::Read;
use std::rt;

/// The files of the system, by path. They tell nothing of what they hold.
#[derive(Drop)]
pub struct RealFiles<R: rt::Files> {
    system: R,
    started: Option<R::File>,
    faults: u64,
}

impl<R: rt::Files> RealFiles<R> {
    /// No file is started, and no call failed.
    pub fn new(system: R) -> RealFiles<R>
        ensures system { result.system ≡ system }
        ensures started { result.started ≡ None }
        ensures faults { result.faults ≡ 0 }
    {
        RealFiles {
            system,
            started: None,
            faults: 0,
        }
    }

    // Closes the file that was started, and counts a fault.
    fn fail(&mut self) -> Failed
        ensures started { self.new.started ≡ None }
        ensures counted { self.new.faults ≡ one_more self.old.faults }
        ensures count { self.old.faults ≤ self.new.faults }
        ensures rose { Rose self.old.faults self.new.faults }
    {
        self.started = None;
        self.faults = self.faults.saturating_add(1);
        Failed
    }
}

impl<R: rt::Files> Files for RealFiles<R> {
    ghost view = { λ files. record {
      modelled = false;
      holds = λ name. None;
      left = [];
      started = is_some files.started;
      faults = files.faults;
      only_missing_fail = false;
    } };

    ghost failing_modelled = { λ files failing. failing };

    fn start(&mut self, name: &str) -> Result<(), Failed>
        ensures starts { is_some self.new.started ≡ is_ok result }
        ensures counted { self.new.faults ≡ (if is_ok result then self.old.faults else one_more self.old.faults) }
        ensures count { self.old.faults ≤ self.new.faults }
        ensures cause { OnErr result (Rose self.old.faults self.new.faults) }
    {
        // the file before is closed first, so that one is open at a time
        self.started = None;
        match File::open(&self.system, name) {
            Ok(file) => {
                self.started = Some(file);
                Ok(())
            }
            Err(_) => Err(self.fail()),
        }
    }

    fn read(&mut self, buf: &mut [u8]) -> Result<usize, Failed>
        requires { IsTrue (is_some self.old.started) }
        ensures starts { is_some self.new.started ≡ is_ok result }
        ensures counted { self.new.faults ≡ (if is_ok result then self.old.faults else one_more self.old.faults) }
        ensures count { self.old.faults ≤ self.new.faults }
        ensures cause { OnErr result (Rose self.old.faults self.new.faults) }
        ensures within { IfOk result (λ n. n ≤ length buf.old) }
        // of a system whose files tell their bytes
        ensures bytes { IfOk result (λ n. Consumes (option_and_then R.File.remaining self.old.started)
            (option_and_then R.File.remaining self.new.started) (take n buf.new)) }
        ensures end { IfOk result (λ n. n ≡ 0 → 0 < length buf.old →
            IsAtEnd (option_and_then R.File.remaining self.new.started)) }
    {
        match read_from(&mut self.started, buf) {
            Some(n) => Ok(n),
            None => Err(self.fail()),
        }
    }
}

// How many bytes the file put at the front of `buf`, or None where that failed.
fn read_from<F: Read>(file: &mut Option<F>, buf: &mut [u8]) -> Option<usize>
    requires { IsSome file.old }
    ensures started { IsSome file.new }
    ensures within { IfSome result (λ n. n ≤ length buf.old) }
    ensures bytes { IfSome result (λ n. Consumes (option_and_then F.remaining file.old)
        (option_and_then F.remaining file.new) (take n buf.new)) }
    ensures end { IfSome result (λ n. n ≡ 0 → 0 < length buf.old →
        IsAtEnd (option_and_then F.remaining file.new)) }
{
    file.as_mut()?.read(buf).ok()
}
