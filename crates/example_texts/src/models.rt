//! Models, the smaller ones first.

/// There is a micro-op.
pub const SOME_OP: &str = "StageName 0 \"S\".
Axiom \"x\": exists microop \"i\", True.
";

/// Each write asks for no edges.
pub const NO_EDGES: &str = "StageName 0 \"S\".
Axiom \"l\": forall microops \"i\", True /\\ IsAnyWrite i => AddEdges [].
";

/// Each micro-op is before itself.
pub const ITSELF: &str = "StageName 0 \"S\".
Axiom \"self\": forall microops \"i\", AddEdge ((i, S), (i, S), \"\").
";

/// Program order is kept.
pub const ORDERED: &str = "StageName 0 \"S\".
Axiom \"PO\": forall microops \"i\", forall microops \"j\",
  ProgramOrder i j => AddEdge ((i, S), (j, S), \"po\").
";

/// Program order is kept, and reversed too.
pub const BOTH_ORDERS: &str = "StageName 0 \"S\".
Axiom \"PO\": forall microops \"i\", forall microops \"j\",
  ProgramOrder i j => AddEdge ((i, S), (j, S), \"po\").
Axiom \"rev\": forall microops \"i\", forall microops \"j\",
  ProgramOrder i j => AddEdge ((j, S), (i, S), \"rev\").
";

/// Either order of two micro-ops, and then each is denied.
pub const EITHER_ORDER: &str = "StageName 0 \"S\".
StageName 1 \"T\".
Axiom \"either\": forall microops \"i\", forall microops \"j\", ProgramOrder i j =>
  AddEdge ((i, S), (j, S), \"\") \\/ AddEdge ((j, S), (i, S), \"\").
Axiom \"late\": forall microops \"i\", forall microops \"j\", ProgramOrder i j =>
  ~EdgeExists ((i, S), (j, S), \"\") /\\ AddEdge ((i, S), (i, T), \"\")
  /\\ ~EdgeExists ((j, S), (i, T), \"\").
";

/// Both micro-ops are there, and neither is before the other.
pub const UNORDERED: &str = "StageName 0 \"S\".
Axiom \"two\": forall microops \"i\", forall microops \"j\", ProgramOrder i j =>
  NodesExist [(i, S); (j, S)] /\\ ~EdgeExists ((i, S), (j, S))
  /\\ ~EdgeExists ((j, S), (i, S)).
";

/// Two edges, and the pair that they join is denied.
pub const JOINED: &str = "StageName 0 \"S\".
StageName 1 \"T\".
StageName 2 \"U\".
Axiom \"p\": forall microops \"i\",
  AddEdges [((i, S), (i, T), \"\"); ((i, T), (i, U), \"\");]
  /\\ ~EdgeExists ((i, S), (i, U), \"\").
";

/// Either order of two stages, and the second of them or a node before itself.
pub const TURNED_BACK: &str = "StageName 0 \"S\".
StageName 1 \"T\".
Axiom \"b\": forall microops \"i\", (AddEdge ((i, S), (i, T))
  \\/ AddEdge ((i, T), (i, S))) /\\ (AddEdge ((i, T), (i, S))
  \\/ AddEdge ((i, S), (i, S)) \\/ AddEdge ((i, T), (i, T))).
";

/// Each micro-op is at a stage of core 5, where it is not.
pub const FAR_CORE: &str = "StageName 0 \"S\".
Axiom \"far\": forall microops \"i\", NodeExists (i, (5, S)) /\\ ~OnCore 5 i
  /\\ NodeExists (i, S).
";

/// Program order is kept, and the last write of an address is after the others.
pub const LAST_WRITE: &str = "StageName 0 \"S\".
Axiom \"PO\": forall microops \"i\", forall microops \"j\",
  ProgramOrder i j => AddEdge ((i, S), (j, S), \"po\").
Axiom \"final\": forall microops \"w\", DataFromFinalStateAtPA w =>
  forall microops \"v\", SamePhysicalAddress v w /\\ ~SameMicroop v w =>
  AddEdge ((v, S), (w, S), \"\").
";

/// A macro binds the name that its argument has.
pub const CAPTURED: &str = "DefineMacro \"other\" \"a\": exists microop \"w\", ~SameMicroop w a.
Axiom \"x\": forall microops \"w\", ExpandMacro other w.
";

/// Reads and writes go to memory in program order.
pub const IN_ORDER: &str = "StageName 0 \"Exec\".
StageName 1 \"Mem\".
Axiom \"path\": forall microops \"i\", AddEdge ((i, Exec), (i, Mem), \"path\").
Axiom \"PO\": forall microops \"i\", forall microops \"j\", ProgramOrder i j =>
  AddEdges [((i, Exec), (j, Exec), \"po\"); ((i, Mem), (j, Mem), \"po\")].
Axiom \"read\": forall microops \"i\", IsAnyRead i =>
  (DataFromInitialStateAtPA i /\\ forall microops \"v\",
    IsAnyWrite v /\\ SamePhysicalAddress v i => AddEdge ((i, Mem), (v, Mem), \"fr\"))
  \\/ exists microop \"w\", IsAnyWrite w /\\ SamePhysicalAddress w i /\\ SameData w i
    /\\ AddEdge ((w, Mem), (i, Mem), \"rf\") /\\ forall microops \"v\",
    IsAnyWrite v /\\ SamePhysicalAddress v i /\\ ~SameMicroop v w =>
    AddEdge ((v, Mem), (w, Mem), \"co\") \\/ AddEdge ((i, Mem), (v, Mem), \"fr\").
";

/// Writes go to memory later than the reads after them.
pub const STORE_BUFFER: &str = "StageName 0 \"Exec\".
StageName 1 \"Mem\".
Axiom \"path\": forall microops \"i\", IsAnyWrite i =>
  AddEdge ((i, Exec), (i, Mem), \"path\").
Axiom \"PO\": forall microops \"i\", forall microops \"j\", ProgramOrder i j =>
  AddEdge ((i, Exec), (j, Exec), \"po\").
Axiom \"drain\": forall microops \"i\", forall microops \"j\",
  ProgramOrder i j /\\ IsAnyWrite i /\\ IsAnyWrite j =>
  AddEdge ((i, Mem), (j, Mem), \"drain\").
Axiom \"read\": forall microops \"i\", IsAnyRead i =>
  (DataFromInitialStateAtPA i /\\ forall microops \"v\",
    IsAnyWrite v /\\ SamePhysicalAddress v i => AddEdge ((i, Exec), (v, Mem), \"fr\"))
  \\/ exists microop \"w\", IsAnyWrite w /\\ SamePhysicalAddress w i /\\ SameData w i
    /\\ AddEdge ((w, Mem), (i, Exec), \"rf\") /\\ forall microops \"v\",
    IsAnyWrite v /\\ SamePhysicalAddress v i /\\ ~SameMicroop v w =>
    AddEdge ((v, Mem), (w, Mem), \"co\") \\/ AddEdge ((i, Exec), (v, Mem), \"fr\").
";

/// S and T, or U; U and T are denied.
pub const BOTH_OR_ONE: &str = "StageName 0 \"S\".
StageName 1 \"T\".
StageName 2 \"U\".
Axiom \"s\": forall microops \"i\",
  ((NodeExists (i, S) /\\ NodeExists (i, T)) \\/ NodeExists (i, U))
  /\\ ~NodeExists (i, U) /\\ ~NodeExists (i, T).
";

/// Two Ands of which one holds, each with an edge from U to S; U or that edge is denied.
pub const EITHER_AND: &str = "StageName 0 \"S\".
StageName 1 \"T\".
StageName 2 \"U\".
Axiom \"n\": forall microops \"i\",
  ((NodeExists (i, S) /\\ EdgeExists ((i, U), (i, S)))
   \\/ (~NodeExists (i, T) /\\ EdgeExists ((i, U), (i, S))))
  /\\ (~NodeExists (i, U) \\/ ~EdgeExists ((i, U), (i, S)))
  /\\ (~NodeExists (i, U) \\/ EdgeExists ((i, T), (i, S))).
";

/// S or T, or else U; each is denied.
pub const EITHER_OF_THREE: &str = "StageName 0 \"S\".
StageName 1 \"T\".
StageName 2 \"U\".
Axiom \"t\": forall microops \"i\",
  ((NodeExists (i, S) \\/ NodeExists (i, T)) \\/ NodeExists (i, U))
  /\\ ~NodeExists (i, U) /\\ ~NodeExists (i, S) /\\ ~NodeExists (i, T).
";

/// One memory that takes one access at a time, each core's in program order. A locked exchange is a read and a write
/// with no other write of their address between them.
pub const ONE_MEMORY: &str = "StageName 0 \"M\".
Axiom \"program order\": forall microops \"i\", forall microops \"j\",
  ProgramOrder i j => AddEdge ((i, M), (j, M)).
Axiom \"exchange\": forall microops \"r\", forall microops \"w\",
  IsAnyRead r /\\ IsAnyWrite w /\\ SameInstruction r w /\\ AccessType Locked r =>
  AddEdge ((r, M), (w, M)) /\\ forall microops \"v\",
  IsAnyWrite v /\\ SamePhysicalAddress v w /\\ ~SameMicroop v w =>
  AddEdge ((v, M), (r, M)) \\/ AddEdge ((w, M), (v, M)).
Axiom \"coherence\": forall microops \"v\", forall microops \"w\",
  IsAnyWrite v /\\ IsAnyWrite w /\\ SamePhysicalAddress v w /\\ ~SameMicroop v w =>
  AddEdge ((v, M), (w, M)) \\/ AddEdge ((w, M), (v, M)).
Axiom \"reads\": forall microops \"r\", IsAnyRead r =>
  (DataFromInitialStateAtPA r /\\ forall microops \"v\",
    IsAnyWrite v /\\ SamePhysicalAddress v r => AddEdge ((r, M), (v, M))) \\/
  exists microop \"w\", IsAnyWrite w /\\ SamePhysicalAddress w r /\\ SameData w r /\\
    AddEdge ((w, M), (r, M)) /\\ forall microops \"v\",
    IsAnyWrite v /\\ SamePhysicalAddress v r /\\ ~SameMicroop v w =>
    AddEdge ((v, M), (w, M)) \\/ AddEdge ((r, M), (v, M)).
";

/// For each micro-op a free choice of two orders of S and T; and of a fence four choices that cannot all be met.
pub const CHOICES_AND_CORE: &str = "StageName 0 \"S\".
StageName 1 \"T\".
StageName 2 \"U\".
StageName 3 \"V\".
Axiom \"free\": forall microops \"i\", AddEdge ((i, S), (i, T)) \\/ AddEdge ((i, T), (i, S)).
Axiom \"core\": forall microops \"i\", IsAnyFence i =>
  (AddEdge ((i, S), (i, U)) \\/ AddEdge ((i, T), (i, V))) /\\ (AddEdge ((i, S), (i, U)) \\/ AddEdge ((i, V), (i, T)))
  /\\ (AddEdge ((i, U), (i, S)) \\/ AddEdge ((i, T), (i, V))) /\\ (AddEdge ((i, U), (i, S)) \\/ AddEdge ((i, V), (i, T))).
";
