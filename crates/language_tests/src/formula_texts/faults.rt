use pc_common::{FaultKind, Place, Value};

/// The word of a fault, and what it carries: two numbers, and two values.
pub type Told = (&'static str, u64, u64, Option<(Value, Value)>);

fn word(word: &'static str) -> Told {
    (word, 0, 0, None)
}

fn number(word: &'static str, number: u64) -> Told {
    (word, number, 0, None)
}

fn places(word: &'static str, first: Place, again: Place) -> Told {
    (word, u64::from(first.offset), u64::from(again.offset), None)
}

fn values(word: &'static str, first: Value, again: Value) -> Told {
    (word, 0, 0, Some((first, again)))
}

/// What tests compare of a fault. `FaultKind` has no `==`, which only they would call.
pub fn tell_fault(kind: FaultKind) -> Told {
    match kind {
        FaultKind::TooLarge { limit } => number("too-large", limit),
        FaultKind::Lexical => word("lexical"),
        FaultKind::Syntax => word("syntax"),
        FaultKind::Depth { limit } => number("depth", limit),
        FaultKind::StageNumber { number: n } => number("stage-number", n),
        FaultKind::StageAgain { first, again } => places("stage-again", first, again),
        FaultKind::MacroAgain { first, again } => places("macro-again", first, again),
        FaultKind::ParameterAgain { first, again } => places("parameter-again", first, again),
        FaultKind::MacroUnknown => word("macro-unknown"),
        FaultKind::MacroArguments { found, wanted } => ("macro-arguments", found, wanted, None),
        FaultKind::TooDeep { limit } => number("too-deep", limit),
        FaultKind::TooBig { limit } => number("too-big", limit),
        FaultKind::PredicateUnknown => word("predicate-unknown"),
        FaultKind::Arity { found, wanted } => ("arity", found, wanted, None),
        FaultKind::Unbound => word("unbound"),
        FaultKind::WrongSort => word("wrong-sort"),
        FaultKind::CoreNumber { number: n } => number("core-number", n),
        FaultKind::StageUnknown => word("stage-unknown"),
        FaultKind::TooManyVariables { limit } => number("too-many-variables", limit),
        FaultKind::TooManyOps { limit } => number("too-many-ops", limit),
        FaultKind::SplitInstruction { first, again } => ("split-instruction", first, again, None),
        FaultKind::DuplicateOp { first, again } => places("duplicate-op", first, again),
        FaultKind::OpUnknown { g, n } => ("op-unknown", g, n, None),
        FaultKind::AgainInitial { first, again } => values("again-initial", first, again),
        FaultKind::AgainFinal { first, again } => values("again-final", first, again),
        FaultKind::AgainExpectation { first, again } => places("again-expectation", first, again),
        FaultKind::MarkValue { mark } => number("mark-value", mark),
        FaultKind::TooManyRows { limit } => number("too-many-rows", limit),
        FaultKind::X86Column => word("x86-column"),
        FaultKind::X86Reload => word("x86-reload"),
        FaultKind::X86Unloaded => word("x86-unloaded"),
        FaultKind::X86Again => word("x86-again"),
        FaultKind::X86Open => word("x86-open"),
    }
}
