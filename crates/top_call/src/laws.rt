// Laws of the definitions in specs/. Each function does nothing: its contract is the law.
ghost use Rattle.command_base.specs.Inputs.{Contents};
ghost use Rattle.top_call.specs.Laws.{HasOneStatus};

/// A certificate that `check` or `check2` writes, `verify` takes, and one that `check86` writes, `verify86` takes, with
/// the same verdict, unless it is too long.
pub fn written_is_verified()
    ensures { (holds later : Contents) → HasOneStatus holds later }
{}
