ghost use Rattle.std.specs.Prelude.{◌≡◌, ◌≤◌, List, ℕ, length, IfOk, IfErr};
ghost use Rattle.pc_common.specs.Case.{Case};
ghost use Rattle.pc_common.specs.declared.fault.InputFault.{InputFault};
ghost use Rattle.pc_front.specs.declared.limits.TheConstants.{MAX_FILE};
ghost use Rattle.litmus_reader.specs.Answer.{CaseOf};
ghost use Rattle.pc_front.specs.Front.{IsFirstFrontFault as IsTestFault};
ghost use Rattle.command_base.specs.Fronts.{front_of_parts};
ghost use Rattle.command_base.specs.SecondFiles.{SaysFront, IsFrontEnd};

use grounder::front_of;
use pc_front::{FrontEnd, MAX_FILE, read_parts};
use pc_ground::{Front, Parts};
use std::alloc::Global;

/// The form of a command's second file: which case its bytes say, and what the first fault of a model's bytes and
/// of its own is.
pub trait SecondFile {
    /// The bytes say this case.
    ghost case_of: { List ℕ → Case → Type 0 };

    /// The first fault of a model's bytes and of these.
    ghost first_fault: { List ℕ → List ℕ → InputFault → Type 0 };

    /// What the bytes of a model and of such a file say together. `Refused` comes with the first fault, and only
    /// where they say no model and case.
    fn front(alloc: Global, model: &[u8], bytes: &[u8]) -> Result<Front, FrontEnd>
        requires model_short { length model.now ≤ MAX_FILE }
        requires short { length bytes.now ≤ MAX_FILE }
        ensures ok { IfOk result (SaysFront case_of model.now bytes.now) }
        ensures err { IfErr result (IsFrontEnd case_of first_fault model.now bytes.now) }
    {
        let parts = Self::parts(alloc, model, bytes)?;
        Ok(front_of(alloc, parts)?)
    }

    /// The same without a ground tree.
    fn parts(alloc: Global, model: &[u8], bytes: &[u8]) -> Result<Parts, FrontEnd>
        requires model_short { length model.now ≤ MAX_FILE }
        requires short { length bytes.now ≤ MAX_FILE }
        ensures ok { IfOk result (λ parts. SaysFront case_of model.now bytes.now (front_of_parts parts)) }
        ensures err { IfErr result (IsFrontEnd case_of first_fault model.now bytes.now) };
}

/// A litmus test, in the form of docs/tests.md.
pub struct TestFile;

impl SecondFile for TestFile {
    ghost case_of = { λ bytes c. CaseOf bytes c };

    ghost first_fault = { λ model bytes fault. IsTestFault model bytes fault };

    fn parts(alloc: Global, model: &[u8], bytes: &[u8]) -> Result<Parts, FrontEnd> {
        read_parts(alloc, model, bytes)
    }
}
