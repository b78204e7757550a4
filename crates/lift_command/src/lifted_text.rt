ghost use Rattle.std.specs.Prelude.{◌≡◌, ◌≤◌, ◌++◌, All, codes, IfOk, OnOk};
ghost use Rattle.std.specs.List.{flat_map};
ghost use Rattle.pc_common.specs.Lines.{unobservable, second_text};
ghost use Rattle.pc_ground.specs.NodeWords.{AreSmall};
ghost use Rattle.pc_ground.specs.GroundTree.{closed_ground_tree};
ghost use Rattle.pc_ground.specs.Stages.{plain_axioms};
ghost use Rattle.pc_ground.specs.Refutes.{IsRefutation};
ghost use Rattle.pc_ground.specs.declared.version.Version.TheVariants.{One};
ghost use Rattle.line_judge.specs.Texts.{IsMadeOf};
ghost use Rattle.lifted_check.specs.StepLines.{numbers_of, IsSmall, HasValue};
ghost use Rattle.lifted_check.specs.LiftedTexts.{asked, IsLiftedText};
ghost use Rattle.lift_command.specs.WrittenLines.{line_text, HasSmallCore};

use super::lines::{put_line, show_line};
use super::words::put;
use cert_check::{Verdict, second_line};
use lifter::{LiftedSteps, lift_steps};
use pc_case::{Case, OpId};
use pc_common::Memory;
use pc_ground::Front;
use refutation::Refutation;
use std::alloc::Global;

/// Puts the three lines of the header.
fn put_header(text: &mut Vec<u8>, case: &Case) -> Result<(), Memory>
    ensures { OnOk result (text.new.items ≡ text.old.items ++ (codes "unobservable\n"
        ++ ((second_text unobservable case.now.expectation ++ codes "\n") ++ codes "lifted\n"))) }
{
    put(text, b"unobservable\n")?;
    put(text, second_line(Verdict::Unobservable, case.expect()))?;
    put(text, b"lifted\n")
}

/// Puts a line for each step.
fn put_lines(text: &mut Vec<u8>, case: &Case, steps: &LiftedSteps) -> Result<(), Memory>
    requires { All (HasValue case.now.ops) steps.now }
    ensures { OnOk result (text.new.items ≡ text.old.items ++ flat_map (line_text case.now.ops) steps.now) }
{
    for k in 0..steps.len() {
        put_line(text, case, steps.line(k))?;
    }
    Ok(())
}

/// Does nothing. It shows that the numbers of all steps are of 64 bits.
fn show_steps(steps: &LiftedSteps)
    ensures numbers { All (λ s. All IsSmall (numbers_of s)) steps.now }
    ensures cores { All HasSmallCore steps.now }
{
    for k in 0..steps.len() {
        show_line(steps.line(k));
    }
}

/// Does nothing. It shows that both numbers of a name are of 64 bits.
fn show_name(id: OpId)
    ensures { (id.g ≤ 18446744073709551615) × (id.n ≤ 18446744073709551615) }
{}

/// Does nothing. It shows that the numbers of each micro-op are of 64 bits.
fn show_ops(case: &Case)
    ensures { AreSmall case.now.ops }
{
    for k in 0..case.ops() {
        show_name(case.op(k).id);
    }
}

/// The text of a lifted refutation, made of a refutation of version 1 of the front's ground tree. The one error is that
/// memory was refused.
pub fn lift(alloc: Global, front: &Front, refutation: &Refutation) -> Result<Vec<u8>, Memory>
    requires { IsRefutation One (closed_ground_tree front.now.case (plain_axioms front.now.axioms)) refutation.now }
    ensures { IfOk result (λ text. IsMadeOf (IsLiftedText (asked front.now.case front.now.axioms)) text.items) }
{
    let case = &front.case;
    show_ops(case);
    let steps = lift_steps(
        alloc,
        case,
        front.axioms.as_slice(),
        &front.tree,
        refutation,
    )?;
    show_steps(&steps);
    let mut text = Vec::new(alloc);
    put_header(&mut text, case)?;
    put_lines(&mut text, case, &steps)?;
    put(&mut text, b"end\n")?;
    Ok(text)
}
