// Laws of the definitions in specs/. Each function does nothing: its contract is the law.
ghost use Rattle.command_base.specs.Inputs.{Contents};
ghost use Rattle.sweep_command.specs.Laws.{HasSweepText};

/// Where the two files say a model and a pattern, the text of an answer is their sweep.
pub fn text_is_the_sweep()
    ensures { (holds : Contents) → HasSweepText holds }
{}
