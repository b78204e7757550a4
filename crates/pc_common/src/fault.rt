use super::place::Place;
use super::value::Value;

/// Which of the input files a fault stands in.
#[derive(Clone, Copy, PartialEq, Eq)]
pub enum Which {
    Model,
    Test,
    /// The formula that is asked of a model and a test.
    Query,
}

/// What is wrong with an input file: one variant for each fault word, with what it carries.
#[derive(Clone, Copy)]
pub enum FaultKind {
    /// `too-large`: more bytes than the limit.
    TooLarge { limit: u64 },
    /// `lexical`: neither a token nor a blank nor a comment begins here.
    Lexical,
    /// `syntax`: no well-formed text can continue with this token.
    Syntax,
    /// `depth`: the opener past the limit of openers that are open at once.
    Depth { limit: u64 },
    /// `stage-number`: a stage number over 63.
    StageNumber { number: u64 },
    /// `stage-again`: the number or the name of an earlier stage.
    StageAgain { first: Place, again: Place },
    /// `macro-again`: the name of an earlier macro.
    MacroAgain { first: Place, again: Place },
    /// `parameter-again`: a parameter's name repeats in its macro.
    ParameterAgain { first: Place, again: Place },
    /// `macro-unknown`: no macro that is seen here has the name.
    MacroUnknown,
    /// `macro-arguments`: another number of arguments than parameters.
    MacroArguments { found: u64, wanted: u64 },
    /// `too-deep`: an atom of greater height than the limit.
    TooDeep { limit: u64 },
    /// `too-big`: the expanded axioms so far are larger than the limit.
    TooBig { limit: u64 },
    /// `predicate-unknown`: no predicate has the name.
    PredicateUnknown,
    /// `arity`: another number of arguments than the predicate takes.
    Arity { found: u64, wanted: u64 },
    /// `unbound`: a variable is asked for and the name has no binding.
    Unbound,
    /// `wrong-sort`: a core where a micro-op is asked for, or the reverse.
    WrongSort,
    /// `core-number`: a core number over 63.
    CoreNumber { number: u64 },
    /// `stage-unknown`: no stage has the name.
    StageUnknown,
    /// `too-many-variables`: more variables in scope than the limit.
    TooManyVariables { limit: u64 },
    /// `too-many-ops`: more micro-ops than the limit.
    TooManyOps { limit: u64 },
    /// `split-instruction`: an earlier micro-op of this instruction has another core or thread.
    SplitInstruction { first: u64, again: u64 },
    /// `duplicate-op`: an earlier micro-op has this (g, n).
    DuplicateOp { first: Place, again: Place },
    /// `op-unknown`: a relationship's end is no earlier micro-op.
    OpUnknown { g: u64, n: u64 },
    /// `again-initial`: a second initial value at one address.
    AgainInitial { first: Value, again: Value },
    /// `again-final`: a second final value at one address.
    AgainFinal { first: Value, again: Value },
    /// `again-expectation`: a second `Permitted` or `Forbidden`.
    AgainExpectation { first: Place, again: Place },
    /// `mark-value`: a mark of a page-table entry over 1.
    MarkValue { mark: u64 },
    /// `too-many-rows`: more combinations of read values than the limit.
    TooManyRows { limit: u64 },
    /// `x86-column`: a column's name is not its number's, or a line has another number of cells.
    X86Column,
    /// `x86-reload`: a thread loads a register again.
    X86Reload,
    /// `x86-unloaded`: the condition names a register that its thread does not load.
    X86Unloaded,
    /// `x86-again`: the condition gives a thread's register a second value.
    X86Again,
    /// `x86-open`: the condition does not say which value a load reads.
    X86Open,
}

/// A fault of an input file: where it stands, and what is wrong.
#[derive(Clone, Copy)]
pub struct InputFault {
    pub file: Which,
    pub place: Place,
    pub kind: FaultKind,
}
