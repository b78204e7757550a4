ghost use Rattle.std.specs.Prelude.{◌≡◌, ◌≤◌, ◌↔◌, true, length, IfOk};
ghost use Rattle.pc_common.specs.declared.limits.TheConstants.{MAX_CERTIFICATE};
ghost use Rattle.cert_check.specs.Questions.{question_of};
ghost use Rattle.cert_check.specs.Ones.{IsOne};
ghost use Rattle.cert_check.specs.StepTexts.{SaysTwo};
ghost use Rattle.cert_check.specs.declared.one.One.{One as AnyOne};

use super::checked::Checked;
use super::checker::check_text;
use super::header::behind_header;
use super::next::show_asked;
use super::steps::read_steps;
use pc_common::{MAX_CERTIFICATE, Memory};
use pc_ground::{Front, NodeText};
use refutation::Refutation;
use std::alloc::Global;

/// What a text is by the rules of version 1 alone: a certificate, or a text that is refused.
#[derive(Drop)]
pub enum One {
    /// A graph whose world makes every axiom true.
    Graph,
    /// A refutation of the ground tree, whose steps the text writes.
    Tree(Refutation),
    /// The first line that is refused, from 1; 0 where the text is longer than 67,108,864 bytes.
    Refused(u64),
}

/// Whether after the header of a refutation stands the line of version 2.
fn says_two(front: &Front, bytes: &[u8]) -> bool
    ensures { (result ≡ true) ↔ SaysTwo front.now.case.expectation bytes.now }
{
    match behind_header(front.case.expect(), bytes) {
        Some(body) => body.starts_with(b"version 2\n"),
        None => false,
    }
}

/// Whether the rules of version 1 refuse the third line, which says version 2. No line of a text past the limit is read.
fn refuses_two(front: &Front, bytes: &[u8]) -> bool
    ensures { (result ≡ true) ↔ ((length bytes.now ≤ MAX_CERTIFICATE) × SaysTwo front.now.case.expectation bytes.now) }
{
    bytes.len() <= MAX_CERTIFICATE && says_two(front, bytes)
}

/// What a whole text is to the model and the test of a front, by the rules of version 1 alone: a certificate, with the
/// steps of a refutation, or a text that is refused at a line.
pub fn check_one(alloc: Global, front: &Front, bytes: &[u8]) -> Result<One, Memory>
    ensures is { IfOk result (IsOne (question_of front.now) bytes.now) }
    ensures only { IfOk result (λ one. (other : AnyOne) → IsOne (question_of front.now) bytes.now other → other ≡ one) }
{
    let names = NodeText::of(front);
    show_asked(front, &names);
    if refuses_two(front, bytes) {
        return Ok(One::Refused(3));
    }
    match check_text(alloc, front, bytes)? {
        Checked::Observable => Ok(One::Graph),
        Checked::Unobservable => Ok(One::Tree(read_steps(alloc, front, bytes)?)),
        Checked::Refused(line) => Ok(One::Refused(line)),
    }
}
