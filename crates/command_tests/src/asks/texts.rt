//! Models that only questions are asked of.

/// A stage, and no axiom.
pub(crate) const NO_AXIOMS: &str = "StageName 0 \"S\".
";

/// Macros, of which two have a name that they don't bind, and an axiom that expands the first.
pub(crate) const MACROS: &str = "StageName 0 \"S\".
DefineMacro \"at\" \"a\": NodeExists (a, S).
DefineMacro \"free\" \"a\": NodeExists (i, S) /\\ NodeExists (a, S).
DefineMacro \"stray\": NodeExists (j, T).
Axiom \"node\": forall microops \"i\", ExpandMacro at i.
";

/// Macros of which each expands the one before below 120 denials: the last is 483 high.
pub(crate) const DEEP: &str =
    "DefineMacro \"a\": ~~~~~~~~~~~~~~~~~~~~~~~~~~~~~~~~~~~~~~~~~~~~~~~~~~~~~~~~~~~~~~~~~~~~~~~~~~~~~~~~~~~~~~~~~~~~~~~~~~~~~~~~~~~~~~~~~~~~~~~~True.
DefineMacro \"b\": ~~~~~~~~~~~~~~~~~~~~~~~~~~~~~~~~~~~~~~~~~~~~~~~~~~~~~~~~~~~~~~~~~~~~~~~~~~~~~~~~~~~~~~~~~~~~~~~~~~~~~~~~~~~~~~~~~~~~~~~~ExpandMacro a.
DefineMacro \"c\": ~~~~~~~~~~~~~~~~~~~~~~~~~~~~~~~~~~~~~~~~~~~~~~~~~~~~~~~~~~~~~~~~~~~~~~~~~~~~~~~~~~~~~~~~~~~~~~~~~~~~~~~~~~~~~~~~~~~~~~~~ExpandMacro b.
DefineMacro \"d\": ~~~~~~~~~~~~~~~~~~~~~~~~~~~~~~~~~~~~~~~~~~~~~~~~~~~~~~~~~~~~~~~~~~~~~~~~~~~~~~~~~~~~~~~~~~~~~~~~~~~~~~~~~~~~~~~~~~~~~~~~ExpandMacro c.
";
