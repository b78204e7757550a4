ghost use Rattle.std.specs.Prelude.{◌≡◌, ◌≤◌, ◌<◌, ◌++◌, [], Some, length, take, is_ok, IsTrue, IsSome, IsOk, IfOk, OnOk, OnErr};
ghost use Rattle.pc_common.specs.Faults.{Rose};
ghost use Rattle.pc_common.specs.Outside.{FilesView};

use super::failed::Failed;

/// Files by name, of which one at a time is started and then read from its beginning.
///
/// No call changes what a name holds, whether that is modelled, or whether only missing names fail.
pub trait Files {
    /// What contracts see of the files.
    ghost view: { Self → FilesView };

    /// Starts the named file: all of it is left to read. Fails where the name is missing.
    fn start(&mut self, name: &str) -> Result<(), Failed>
        ensures same_modelled { (view self.new).modelled ≡ (view self.old).modelled }
        ensures same_held { (view self.new).holds ≡ (view self.old).holds }
        ensures same_failing { (view self.new).only_missing_fail ≡ (view self.old).only_missing_fail }
        ensures count { (view self.old).faults ≤ (view self.new).faults }
        ensures cause { OnErr result (Rose (view self.old).faults (view self.new).faults) }
        ensures starts { (view self.new).started ≡ is_ok result }
        ensures sure { IsTrue (view self.old).only_missing_fail → IsSome ((view self.old).holds name.now)
            → IsOk result }
        ensures whole { OnOk result (IsTrue (view self.old).modelled →
            (view self.old).holds name.now ≡ Some (view self.new).left) };

    /// Puts the next bytes of what is left at the front of `buf`, and returns how many, at most the
    /// length of `buf`. For a `buf` that is not empty, 0 says that nothing is left.
    fn read(&mut self, buf: &mut [u8]) -> Result<usize, Failed>
        requires { IsTrue (view self.old).started }
        ensures same_modelled { (view self.new).modelled ≡ (view self.old).modelled }
        ensures same_held { (view self.new).holds ≡ (view self.old).holds }
        ensures same_failing { (view self.new).only_missing_fail ≡ (view self.old).only_missing_fail }
        ensures count { (view self.old).faults ≤ (view self.new).faults }
        ensures cause { OnErr result (Rose (view self.old).faults (view self.new).faults) }
        ensures starts { (view self.new).started ≡ is_ok result }
        ensures sure { IsTrue (view self.old).only_missing_fail → IsOk result }
        ensures within { IfOk result (λ n. n ≤ length buf.old) }
        ensures bytes { IfOk result (λ n. IsTrue (view self.old).modelled →
            (view self.old).left ≡ take n buf.new ++ (view self.new).left) }
        ensures end { IfOk result (λ n. IsTrue (view self.old).modelled → 0 < length buf.old → n ≡ 0
            → (view self.old).left ≡ []) };

    /// Files of which only a missing name fails are modelled.
    ghost failing_modelled: { (files : Self) → IsTrue (view files).only_missing_fail → IsTrue (view files).modelled };
}
