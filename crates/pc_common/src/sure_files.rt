ghost use Rattle.std.specs.Prelude.{◌≡◌, ◌++◌, true, is_some, IsOk, IfOk, None, Some, Ok, length, take, min, refl};
ghost use Rattle.pc_common.specs.Held.{sure_bytes};
ghost use Rattle.pc_common.specs.Shelf.{left_of};

use super::failed::Failed;
use super::files::Files;
use super::held::Held;
use super::shelf::Shelf;

/// Files in memory of which no call fails: a name that was not given holds no bytes. So `run` over them and a
/// `SureSink` can be asked for its verdict alone.
pub struct SureFiles {
    shelf: Shelf,
}

// By hand: docs/DECISIONS.md, "Drops are written by hand".
impl Drop for SureFiles {
    fn drop(self) {
        let SureFiles { shelf: _ } = self;
    }
}

impl SureFiles {
    /// Files of these names and bytes. Takes no memory.
    pub fn new(held: Held) -> SureFiles
        ensures { result.shelf ≡ record { held = held; started = None } }
    {
        SureFiles {
            shelf: Shelf::new(held),
        }
    }
}

impl Files for SureFiles {
    ghost view = { λ files. record {
      modelled = true;
      holds = sure_bytes files.shelf.held;
      left = left_of files.shelf;
      started = is_some files.shelf.started;
      faults = 0;
      only_missing_fail = true;
    } };

    ghost failing_modelled = { λ files failing. refl };

    fn start(&mut self, name: &str) -> Result<(), Failed>
        ensures sure { IsOk result }
        ensures same_held { self.new.shelf.held ≡ self.old.shelf.held }
        ensures starts { is_some self.new.shelf.started ≡ true }
        ensures whole { sure_bytes self.old.shelf.held name.now ≡ Some (left_of self.new.shelf) }
    {
        self.shelf.open_sure(name);
        Ok(())
    }

    fn read(&mut self, buf: &mut [u8]) -> Result<usize, Failed>
        ensures moved { result ≡ Ok (min (length buf.old) (length (left_of self.old.shelf))) }
        ensures same_held { self.new.shelf.held ≡ self.old.shelf.held }
        ensures starts { is_some self.new.shelf.started ≡ is_some self.old.shelf.started }
        ensures bytes { IfOk result (λ n. left_of self.old.shelf ≡ take n buf.new ++ left_of self.new.shelf) }
    {
        Ok(self.shelf.next(buf, usize::MAX))
    }
}
