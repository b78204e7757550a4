ghost use Rattle.std.specs.Prelude.{◌≡◌, IfOk};
ghost use Rattle.gen_command.specs.Ring.{ring_model as ring_model_text};

use pc_common::Memory;
use std::alloc::Global;

/// The text of the ring's model.
pub(crate) fn ring_model(alloc: Global) -> Result<Vec<u8>, Memory>
    ensures { IfOk result (λ text. text.items ≡ ring_model_text) }
{
    let text = Vec::from_slice(
        alloc,
        br#"StageName 0 "S".
Axiom "PO": forall microops "i", forall microops "j",
  ProgramOrder i j => AddEdge ((i, S), (j, S), "po").
Axiom "RF": forall microops "i", IsAnyRead i => exists microop "w",
  IsAnyWrite w /\ SamePhysicalAddress w i /\ SameData w i
  /\ AddEdge ((w, S), (i, S), "rf") /\ forall microops "v",
  IsAnyWrite v /\ SamePhysicalAddress v i /\ ~SameMicroop v w =>
  AddEdge ((v, S), (w, S), "co") \/ AddEdge ((i, S), (v, S), "fr").
"#,
    )?;
    Ok(text)
}
