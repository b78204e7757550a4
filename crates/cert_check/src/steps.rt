ghost use Rattle.std.specs.Prelude.{◌≡◌, ◌<◌, ◌++◌, ◌∷◌, [], List, IfOk, IfSome, OnOk, MatchOption, length};
ghost use Rattle.pc_common.specs.World.{Node};
ghost use Rattle.pc_common.specs.Steps.{Step as PlainStep};
ghost use Rattle.pc_ground.specs.Tree.{Tree};
ghost use Rattle.refutation.specs.Steps.{open_branches};
ghost use Rattle.refutation.specs.Reading.{IsLineOf};
ghost use Rattle.cert_check.specs.Questions.{question_of};
ghost use Rattle.cert_check.specs.Ones.{IsTreeText};
ghost use Rattle.cert_check.specs.StepTexts.{IsAhead, HasRead};

use super::header::behind_header;
use super::next::{is_end, show_asked};
use super::open_tree::room_for;
use line_judge::split_line;
use pc_common::Memory;
use pc_ground::{Front, NodeText};
use refutation::{NodeRow, Refutation, read_line};
use std::alloc::Global;

/// Puts the step last whose line this is.
fn push_line(
    alloc: Global,
    names: &NodeText<'_>,
    row: &mut NodeRow,
    refutation: &mut Refutation,
    line: &[u8],
) -> Result<(), Memory>
    requires open { 0 < open_branches refutation.old }
    requires said { (s : PlainStep Node) × IsLineOf names.now line.now s }
    ensures { OnOk result ((s : PlainStep Node) → IsLineOf names.now line.now s
        → refutation.new ≡ refutation.old ++ s ∷ []) }
{
    row.reserve(room_for(line))?;
    match read_line(names, line, row) {
        Ok(head) => refutation.push(alloc, head.kind(row.as_slice())),
        Err(_) => Ok(()),
    }
}

/// Reads the first line of what is left of a text. A step is put last, and what stands after its line is returned;
/// None where it is the last line.
fn take_step<'t>(
    alloc: Global,
    names: &NodeText<'_>,
    row: &mut NodeRow,
    refutation: &mut Refutation,
    left: &'t [u8],
) -> Result<Option<&'t [u8]>, Memory>
    requires { (t : Tree Node) × (more : List (PlainStep Node)) × IsAhead names.now t refutation.old more left.now }
    ensures read { IfOk result (λ rest. (t : Tree Node) (more : List (PlainStep Node))
        → IsAhead names.now t refutation.old more left.now
        → MatchOption rest ((more ≡ []) × (refutation.new ≡ refutation.old))
        (λ behind. HasRead names.now t refutation.old more refutation.new behind.now)) }
    ensures shorter { IfOk result (λ rest. IfSome rest (λ behind. length behind.now < length left.now)) }
{
    let Some((line, rest)) = split_line(left) else {
        return Ok(None);
    };
    if is_end(line) {
        return Ok(None);
    }
    push_line(alloc, names, row, refutation, line)?;
    Ok(Some(rest))
}

/// The steps that a certificate of version 1 writes.
pub(crate) fn read_steps(alloc: Global, front: &Front, text: &[u8]) -> Result<Refutation, Memory>
    requires { (steps : List (PlainStep Node)) × IsTreeText (question_of front.now) text.now steps }
    ensures { IfOk result (λ read. (steps : List (PlainStep Node)) → IsTreeText (question_of front.now) text.now steps
        → read ≡ steps) }
{
    let names = NodeText::of(front);
    show_asked(front, &names);
    let mut row = NodeRow::new(alloc);
    let mut refutation = Refutation::new(alloc);
    let Some(mut left) = behind_header(front.case.expect(), text) else {
        return Ok(refutation);
    };
    while let Some(rest) = take_step(alloc, &names, &mut row, &mut refutation, left)? {
        left = rest;
    }
    Ok(refutation)
}
