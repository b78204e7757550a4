ghost use Rattle.std.specs.Prelude.{◌≡◌, ◌≤◌, length};
ghost use Rattle.command_base.specs.Words.{fault_word as fault_word_of};
ghost use Rattle.command_base.specs.Words.{file_word as file_word_of};

use pc_common::{FaultKind, Which};

/// The word of a fault.
pub(crate) fn fault_word(kind: FaultKind) -> &'static [u8]
    ensures word { result.now ≡ fault_word_of kind }
    ensures short { length result.now ≤ 18 }
{
    match kind {
        FaultKind::TooLarge { .. } => b"too-large",
        FaultKind::Lexical => b"lexical",
        FaultKind::Syntax => b"syntax",
        FaultKind::Depth { .. } => b"depth",
        FaultKind::StageNumber { .. } => b"stage-number",
        FaultKind::StageAgain { .. } => b"stage-again",
        FaultKind::MacroAgain { .. } => b"macro-again",
        FaultKind::ParameterAgain { .. } => b"parameter-again",
        FaultKind::MacroUnknown => b"macro-unknown",
        FaultKind::MacroArguments { .. } => b"macro-arguments",
        FaultKind::TooDeep { .. } => b"too-deep",
        FaultKind::TooBig { .. } => b"too-big",
        FaultKind::PredicateUnknown => b"predicate-unknown",
        FaultKind::Arity { .. } => b"arity",
        FaultKind::Unbound => b"unbound",
        FaultKind::WrongSort => b"wrong-sort",
        FaultKind::CoreNumber { .. } => b"core-number",
        FaultKind::StageUnknown => b"stage-unknown",
        FaultKind::TooManyVariables { .. } => b"too-many-variables",
        FaultKind::TooManyOps { .. } => b"too-many-ops",
        FaultKind::SplitInstruction { .. } => b"split-instruction",
        FaultKind::DuplicateOp { .. } => b"duplicate-op",
        FaultKind::OpUnknown { .. } => b"op-unknown",
        FaultKind::AgainInitial { .. } => b"again-initial",
        FaultKind::AgainFinal { .. } => b"again-final",
        FaultKind::AgainExpectation { .. } => b"again-expectation",
        FaultKind::MarkValue { .. } => b"mark-value",
        FaultKind::TooManyRows { .. } => b"too-many-rows",
        FaultKind::X86Column => b"x86-column",
        FaultKind::X86Reload => b"x86-reload",
        FaultKind::X86Unloaded => b"x86-unloaded",
        FaultKind::X86Again => b"x86-again",
        FaultKind::X86Open => b"x86-open",
    }
}

/// The word of an input file.
pub(crate) fn file_word(file: Which) -> &'static [u8]
    ensures word { result.now ≡ file_word_of file }
    ensures short { length result.now ≤ 5 }
{
    match file {
        Which::Model => b"model",
        Which::Test => b"test",
        Which::Query => b"query",
    }
}
