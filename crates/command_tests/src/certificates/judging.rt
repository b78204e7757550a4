//! Certificates judged by the checker, whole and in pieces.
ghost use Rattle.std.specs.Prelude.{◌<◌};

use super::signs::signed;
use cert_check::{Checked, Checker, check_text};
use example_texts::{EITHER_ORDER, ORDERED, STORE_BUFFER, STORE_BUFFERING, TWO, TWO_FORBIDDEN};
use pc_common::Memory;
use pc_front::front;
use pc_ground::Front;
use std::alloc::Global;
use std::process::Abort;

/// Texts, each with what it is to a model and a test.
pub(crate) type Texts = &'static [(&'static str, Checked)];

/// A model and a test, and texts.
pub(crate) type Judged = (&'static str, &'static str, Texts);

pub(crate) const REFUTED: &str = "unobservable
test forbidden: ok
split 1
path 0.0@0:S 1.0@0:S
path 1.0@0:S 0.0@0:S 0.0@0:T
end
";

const JUDGED: &[Judged] = &[
    (
        EITHER_ORDER,
        TWO_FORBIDDEN,
        &[
            (REFUTED, Checked::Unobservable),
            // the last line comes with a branch open
            (
                "unobservable\ntest forbidden: ok\nsplit 1\npath 0.0@0:S 1.0@0:S\nend\n",
                Checked::Refused(5),
            ),
            // that edge is asserted on the other branch alone
            (
                "unobservable\ntest forbidden: ok\nsplit 1\npath 0.0@0:S 1.0@0:S\npath 0.0@0:S 1.0@0:S\nend\n",
                Checked::Refused(5),
            ),
            // the text goes on after its end
            (
                "unobservable\ntest forbidden: ok\nsplit 1\npath 0.0@0:S 1.0@0:S\npath 1.0@0:S 0.0@0:S 0.0@0:T\nend\nend\n",
                Checked::Refused(7),
            ),
            ("", Checked::Refused(1)),
            // a node of no micro-op, and two spaces
            (
                "unobservable\ntest forbidden: ok\nsplit 1\nabsent 9.0@0:S\npath 1.0@0:S 0.0@0:S 0.0@0:T\nend\n",
                Checked::Refused(4),
            ),
            (
                "unobservable\ntest forbidden: ok\nsplit 1\npath  0.0@0:S 1.0@0:S\npath 1.0@0:S 0.0@0:S 0.0@0:T\nend\n",
                Checked::Refused(4),
            ),
            // a leading zero, and no position of the tree
            (
                "unobservable\ntest forbidden: ok\nsplit 01\npath 0.0@0:S 1.0@0:S\npath 1.0@0:S 0.0@0:S 0.0@0:T\nend\n",
                Checked::Refused(3),
            ),
            (
                "unobservable\ntest forbidden: ok\nsplit 99\npath 0.0@0:S 1.0@0:S\npath 1.0@0:S 0.0@0:S 0.0@0:T\nend\n",
                Checked::Refused(3),
            ),
            // the second line of the other expectation
            (
                "unobservable\ntest permitted: stricter\nsplit 1\n",
                Checked::Refused(2),
            ),
        ],
    ),
    (
        ORDERED,
        TWO,
        &[
            // without the edge an axiom is false
            (
                "observable\ntest permitted: ok\nnode 0.0@0:S\nnode 1.0@0:S\nend\n",
                Checked::Refused(5),
            ),
            // an end on no node line, a node line after an edge line, and a cycle
            (
                "observable\ntest permitted: ok\nnode 0.0@0:S\nedge 0.0@0:S 1.0@0:S\nend\n",
                Checked::Refused(4),
            ),
            (
                "observable\ntest permitted: ok\nnode 0.0@0:S\nnode 1.0@0:S\nedge 0.0@0:S 1.0@0:S\nnode 0.0@0:S\nend\n",
                Checked::Refused(6),
            ),
            (
                "observable\ntest permitted: ok\nnode 0.0@0:S\nnode 1.0@0:S\nedge 0.0@0:S 1.0@0:S\nedge 1.0@0:S 0.0@0:S\nend\n",
                Checked::Refused(7),
            ),
        ],
    ),
    (
        STORE_BUFFER,
        STORE_BUFFERING,
        &[
            // edges in another order, and one of them twice
            (
                "observable\ntest forbidden: BUG\nnode 0.0@0:Exec\nnode 0.0@0:Mem\nnode 2.0@1:Exec\nnode 2.0@1:Mem\nnode 1.0@0:Exec\nnode 3.0@1:Exec\nedge 3.0@1:Exec 0.0@0:Mem\nedge 3.0@1:Exec 0.0@0:Mem\nedge 1.0@0:Exec 2.0@1:Mem\nedge 2.0@1:Exec 3.0@1:Exec\nedge 0.0@0:Exec 1.0@0:Exec\nedge 2.0@1:Exec 2.0@1:Mem\nedge 0.0@0:Exec 0.0@0:Mem\nend\n",
                Checked::Observable,
            ),
        ],
    ),
];

/// The table, which this function alone names: a proof goes through all rows of a table that a function names.
pub(crate) fn judged() -> &'static [Judged] {
    JUDGED
}

/// What the text is, fed in pieces of so many bytes.
fn in_pieces(alloc: Global, front: &Front, text: &[u8], size: usize) -> Result<Checked, Memory>
    requires { 0 < size }
{
    let mut checker = Checker::new(alloc, front)?;
    for piece in text.chunks(size) {
        checker = checker.feed(piece)?;
    }
    checker.finish()
}

/// Whether the text is this, whole and however it is cut.
fn is_always(alloc: Global, front: &Front, text: &[u8], checked: Checked) -> bool {
    check_text(alloc, front, text) == Ok(checked)
        && in_pieces(alloc, front, text, 1) == Ok(checked)
        && in_pieces(alloc, front, text, 2) == Ok(checked)
        && in_pieces(alloc, front, text, 7) == Ok(checked)
}

/// The first text that is something else to the front.
fn first_other(alloc: Global, front: &Front, texts: Texts) -> Option<&'static str> {
    for (text, checked) in texts {
        if !is_always(alloc, front, text.as_bytes(), *checked) {
            return Some(*text);
        }
    }
    None
}

/// The first text that is something else to the model and the test.
fn first_wrong(alloc: Global, (model, test, texts): Judged) -> Option<&'static str> {
    if model.len() > 10_000 || test.len() > 10_000 {
        return Some(model);
    }
    match front(alloc, model.as_bytes(), test.as_bytes()) {
        Ok(front) => first_other(alloc, &front, texts),
        Err(_) => Some(model),
    }
}

/// Each text is what its table has it for, whole and however it is cut.
fn each_is_always(rt: &impl Abort, alloc: Global, table: &[Judged]) {
    for judged in table {
        let wrong = first_wrong(alloc, *judged);
        assert!(rt; wrong.is_none(), "{}", wrong.unwrap_or(""));
    }
}

#[test]
fn a_text_is_the_same_however_it_is_cut(rt: HostRuntime) {
    each_is_always(&rt, rt.alloc(), judged());
    each_is_always(&rt, rt.alloc(), signed());
}
