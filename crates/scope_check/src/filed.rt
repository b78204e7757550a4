ghost use Rattle.std.specs.Prelude.{◌≡◌, IfOk, IfErr, Ok, Err};
ghost use Rattle.pc_common.specs.declared.fault.Which.TheVariants.{Query};
ghost use Rattle.scope_check.specs.FirstFault.{name_fault_of};
ghost use Rattle.scope_check.specs.QueryFaults.{file_of_fault};
ghost use Rattle.scope_check.specs.declared.fault.NameFault.TheVariants.{Memory as refused};

use super::fault::NameFault;
use pc_common::{Memory, Which};

/// A name fault with the file in which it stands. Want of memory stands in no file, and is told of the query.
#[derive(Clone, Copy)]
pub(crate) struct Filed {
    pub(crate) file: Which,
    pub(crate) fault: NameFault,
}

impl From<Memory> for Filed {
    ghost from_gives = { λ _ e. e ≡ record { file = Query; fault = refused } };

    fn from(_: Memory) -> Filed {
        Filed {
            file: Which::Query,
            fault: NameFault::Memory,
        }
    }
}

/// A part of a formula, whose fault stands in this file.
pub(crate) fn in_file<T: Drop>(file: Which, part: Result<T, NameFault>) -> Result<T, Filed>
    ensures ok { IfOk result (λ made. part ≡ Ok made) }
    ensures err { IfErr result (λ e. (part ≡ Err e.fault) × (e.file ≡ file_of_fault file (name_fault_of e.fault))) }
{
    match part {
        Ok(made) => Ok(made),
        Err(NameFault::Memory) => Err(Filed {
            file: Which::Query,
            fault: NameFault::Memory,
        }),
        Err(fault) => Err(Filed { file, fault }),
    }
}
