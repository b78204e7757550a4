ghost use Rattle.std.specs.Prelude.{◌≡◌};
ghost use Rattle.pc_common.specs.Writes.{Writes};
ghost use Rattle.pc_ground.specs.NodeForm.{names_of};
ghost use Rattle.solver.specs.declared.search.answer.Answer.TheVariants.{Observable as a_graph, Unobservable as a_refutation};
ghost use Rattle.verdicts.specs.Verdicts.{IsWritable};
ghost use Rattle.core_command.specs.Found.{certificate_text};

use cert_check::{Verdict, second_line, verdict_line};
use graph_text::{Graph, write_graph};
use pc_common::{Failed, Sink, write_all};
use pc_ground::{Front, NodeText};
use refutation::{Refutation, write_refutation};

/// Writes the certificate of a graph of a front.
pub(crate) fn write_shown<K: Sink>(out: &mut K, front: &Front, graph: &Graph) -> Result<(), Failed>
    requires { IsWritable (names_of front.now) (a_graph graph.now) }
    ensures { Writes K.view out.old out.new result (certificate_text front.now (a_graph graph.now)) }
{
    let names = NodeText::of(front);
    write_all(out, verdict_line(Verdict::Observable))?;
    write_all(out, second_line(Verdict::Observable, front.case.expect()))?;
    write_graph(out, &names, graph)?;
    write_all(out, b"end\n")
}

/// Writes the certificate of a refutation of a front, in version 1.
pub(crate) fn write_refuted<K: Sink>(
    out: &mut K,
    front: &Front,
    steps: &Refutation,
) -> Result<(), Failed>
    requires { IsWritable (names_of front.now) (a_refutation steps.now) }
    ensures { Writes K.view out.old out.new result (certificate_text front.now (a_refutation steps.now)) }
{
    let names = NodeText::of(front);
    write_all(out, verdict_line(Verdict::Unobservable))?;
    write_all(out, second_line(Verdict::Unobservable, front.case.expect()))?;
    write_refutation(out, &names, steps)?;
    write_all(out, b"end\n")
}
