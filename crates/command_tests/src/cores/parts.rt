//! The certificates of a core are those that check writes for the models of just those axioms.
use crate::memory_runs::{join_pieces, output_of};
use example_texts::STORE_BUFFERING;
use pc_common::Memory;
use std::alloc::Global;
use std::test::Fail;

const STAGES: &str = "StageName 0 \"Exec\".
StageName 1 \"Mem\".
";

const PATH: &str = "Axiom \"path\": forall microops \"i\", AddEdge ((i, Exec), (i, Mem), \"path\").
";

const ORDER: &str = "Axiom \"PO\": forall microops \"i\", forall microops \"j\", ProgramOrder i j =>
  AddEdges [((i, Exec), (j, Exec), \"po\"); ((i, Mem), (j, Mem), \"po\")].
";

const READS: &str = "Axiom \"read\": forall microops \"i\", IsAnyRead i =>
  (DataFromInitialStateAtPA i /\\ forall microops \"v\",
    IsAnyWrite v /\\ SamePhysicalAddress v i => AddEdge ((i, Mem), (v, Mem), \"fr\"))
  \\/ exists microop \"w\", IsAnyWrite w /\\ SamePhysicalAddress w i /\\ SameData w i
    /\\ AddEdge ((w, Mem), (i, Mem), \"rf\").
";

/// The stages with all three axioms.
const MODEL: &[(&'static str, usize)] = &[(STAGES, 1), (PATH, 1), (ORDER, 1), (READS, 1)];

/// What a command writes for a model in pieces, and store buffering.
fn written_of(alloc: Global, command: &str, pieces: &[(&str, usize)]) -> Result<Vec<u8>, Memory> {
    let model = join_pieces(alloc, pieces)?;
    let contents = &[("model", model.as_str()), ("test", STORE_BUFFERING)];
    output_of(alloc, command, contents)
}

/// A line, and the model whose certificate follows.
type Piece = (&'static str, &'static [(&'static str, usize)]);

const PIECES: &[Piece] = &[
    (
        "core 2\naxiom 1\naxiom 2\nrefutation\n",
        &[(STAGES, 1), (ORDER, 1), (READS, 1)],
    ),
    ("without 1\n", &[(STAGES, 1), (READS, 1)]),
    ("without 2\n", &[(STAGES, 1), (ORDER, 1)]),
];

/// Puts a line after the text, and the certificate that check writes.
fn put_piece(text: &mut Vec<u8>, alloc: Global, (line, model): Piece) -> Result<(), Memory> {
    text.extend_from_slice(line.as_bytes())?;
    text.extend_from_slice(&written_of(alloc, "check model test", model)?)?;
    Ok(())
}

/// Lines, each with the certificate that check writes after it.
fn lines_with_checks(alloc: Global) -> Result<Vec<u8>, Memory> {
    let mut text = Vec::new(alloc);
    for piece in PIECES {
        put_piece(&mut text, alloc, *piece)?;
    }
    text.extend_from_slice(b"end\n")?;
    Ok(text)
}

#[test]
fn each_certificate_is_that_of_a_check(rt: HostRuntime) -> Result<(), Fail> {
    let core = written_of(rt.alloc(), "core model test", MODEL)?;
    let text = lines_with_checks(rt.alloc())?;
    assert!(rt; core == text);
    Ok(())
}
