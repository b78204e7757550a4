ghost use Rattle.std.specs.Prelude.{◌≡◌, ◌++◌, All};
ghost use Rattle.std.specs.List.{flat_map};
ghost use Rattle.pc_common.specs.Writes.{Writes};
ghost use Rattle.pc_ground.specs.NodeForm.{names_of};
ghost use Rattle.refutation.specs.Steps.{step_text, IsStepIn};
ghost use Rattle.verdicts.specs.Verdicts.{version_text, body_text, verdict_text, IsWritable};

use super::verdict::{FoundVerdict, verdict_kind};
use cert_check::{second_line, verdict_line};
use graph_text::write_graph;
use pc_common::{Failed, Sink, write_all};
use pc_ground::{NodeText, Version};
use refutation::{Refutation, write_refutation};
use solver::Answer as Found;

/// The line before the steps of a refutation, with its LF. Version 1 has none.
fn version_line(version: Version) -> &'static [u8]
    ensures { result.now ≡ version_text version }
{
    match version {
        Version::One => b"",
        Version::Two => b"version 2\n",
    }
}

/// Writes the line of the version, if it has one, and the steps.
fn write_tree<K: Sink>(
    out: &mut K,
    version: Version,
    names: &NodeText<'_>,
    steps: &Refutation,
) -> Result<(), Failed>
    requires { All (IsStepIn names.now) steps.now }
    ensures { Writes K.view out.old out.new result
        (version_text version ++ flat_map (step_text names.now) steps.now) }
{
    write_all(out, version_line(version))?;
    write_refutation(out, names, steps)
}

/// Writes what stands between the second line and the last one.
fn write_body<K: Sink>(
    out: &mut K,
    version: Version,
    names: &NodeText<'_>,
    found: &Found,
) -> Result<(), Failed>
    requires { IsWritable names.now found.now }
    ensures { Writes K.view out.old out.new result (body_text version names.now found.now) }
{
    match found {
        Found::Observable(graph) => write_graph(out, names, graph),
        Found::Unobservable(steps) => write_tree(out, version, names, steps),
    }
}

/// Writes a verdict with its certificate: the two lines before the body and the last one as one piece each.
/// Takes no memory.
pub fn write_verdict<K: Sink>(out: &mut K, verdict: &FoundVerdict) -> Result<(), Failed>
    requires { IsWritable (names_of verdict.now.front) verdict.now.found }
    ensures { Writes K.view out.old out.new result (verdict_text verdict.now) }
{
    let names = NodeText::of(&verdict.front);
    let kind = verdict_kind(&verdict.found);
    write_all(out, verdict_line(kind))?;
    write_all(out, second_line(kind, verdict.front.case.expect()))?;
    write_body(out, verdict.version, &names, &verdict.found)?;
    write_all(out, b"end\n")
}
