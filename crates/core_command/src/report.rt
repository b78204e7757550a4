ghost use Rattle.std.specs.Prelude.{◌≡◌, length, map, All};
ghost use Rattle.std.specs.List.{flat_map};
ghost use Rattle.pc_common.specs.Writes.{Writes};
ghost use Rattle.pc_ground.specs.NodeForm.{names_of};
ghost use Rattle.solver.specs.declared.search.answer.Answer.TheVariants.{Observable as a_graph, Unobservable as a_refutation};
ghost use Rattle.verdicts.specs.Verdicts.{IsWritable};
ghost use Rattle.core_command.specs.CoreTexts.{numbered_line, axiom_line, pairs, without_text, no_core_text, core_text};
ghost use Rattle.core_command.specs.Found.{graph_text, tree_text, found_text, IsCoreWritable};

use super::certificates::{write_refuted, write_shown};
use super::command::FoundCore;
use axiom_core::{AxiomNumbers, Core, Shown};
use command_base::write_pieces;
use graph_text::Graph;
use itoa::Buffer;
use pc_common::{Failed, Sink, write_all};
use pc_ground::Front;
use refutation::Refutation;

/// Writes the line of a word and a number.
fn write_line<K: Sink>(out: &mut K, word: &[u8], number: usize) -> Result<(), Failed>
    ensures { Writes K.view out.old out.new result (numbered_line word.now number) }
{
    let mut digits = Buffer::new();
    write_pieces(out, &[word, digits.format(number).as_bytes(), b"\n"])
}

/// Writes the lines of the axioms.
fn write_axioms<K: Sink>(out: &mut K, kept: &AxiomNumbers) -> Result<(), Failed>
    ensures { Writes K.view out.old out.new result (flat_map axiom_line kept.now) }
{
    for number in kept.as_slice() {
        write_line(out, b"axiom ", *number)?;
    }
    Ok(())
}

/// Writes the certificate of a graph without the axiom of this number.
fn write_without<K: Sink>(out: &mut K, number: usize, shown: &(Front, Graph)) -> Result<(), Failed>
    requires { IsWritable (names_of shown.now.0) (a_graph shown.now.1) }
    ensures { Writes K.view out.old out.new result (without_text (number, graph_text shown.now)) }
{
    write_line(out, b"without ", number)?;
    write_shown(out, &shown.0, &shown.1)
}

/// Writes the certificates of the graphs, each after the number of the axiom that it does without.
fn write_graphs<K: Sink>(out: &mut K, kept: &AxiomNumbers, without: &Shown) -> Result<(), Failed>
    requires writable { All (λ s. IsWritable (names_of s.0) (a_graph s.1)) without.now }
    requires beside { length kept.now ≡ length without.now }
    ensures { Writes K.view out.old out.new result
        (flat_map without_text (pairs kept.now (map graph_text without.now))) }
{
    for (k, shown) in without.as_slice().iter().enumerate() {
        write_without(out, *kept.get(k), shown)?;
    }
    Ok(())
}

/// Writes that no axioms forbid the outcome, with the certificate of a graph.
fn write_none<K: Sink>(out: &mut K, front: &Front, graph: &Graph) -> Result<(), Failed>
    requires { IsWritable (names_of front.now) (a_graph graph.now) }
    ensures { Writes K.view out.old out.new result (no_core_text (graph_text (front.now, graph.now))) }
{
    write_all(out, b"core none\n")?;
    write_shown(out, front, graph)?;
    write_all(out, b"end\n")
}

/// Writes a minimal set of axioms with its certificates.
fn write_minimal<K: Sink>(
    out: &mut K,
    kept: &AxiomNumbers,
    refuted: &(Front, Refutation),
    without: &Shown,
) -> Result<(), Failed>
    requires refuted { IsWritable (names_of refuted.now.0) (a_refutation refuted.now.1) }
    requires writable { All (λ s. IsWritable (names_of s.0) (a_graph s.1)) without.now }
    requires beside { length kept.now ≡ length without.now }
    ensures { Writes K.view out.old out.new result
        (core_text kept.now (tree_text refuted.now) (map graph_text without.now)) }
{
    write_line(out, b"core ", kept.len())?;
    write_axioms(out, kept)?;
    write_all(out, b"refutation\n")?;
    write_refuted(out, &refuted.0, &refuted.1)?;
    write_graphs(out, kept, without)?;
    write_all(out, b"end\n")
}

/// Writes which axioms forbid the outcome, with the certificates. Takes no memory.
pub fn write_core<K: Sink>(out: &mut K, found: &FoundCore) -> Result<(), Failed>
    requires { IsCoreWritable found.now }
    ensures { Writes K.view out.old out.new result (found_text found.now) }
{
    match &found.core {
        Core::None(graph) => write_none(out, &found.front, graph),
        Core::Minimal {
            kept,
            refuted,
            without,
        } => write_minimal(out, kept, refuted, without),
    }
}
