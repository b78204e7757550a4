ghost use Rattle.std.specs.Prelude.{◌≡◌, ◌<◌, ◌^◌, length};
ghost use Rattle.litmus_reader.specs.Items.{place_in};
ghost use Rattle.litmus_reader.specs.Content.{First, OverCore, OverMany, SplitFrom, DuplicateOf, SomeEarlier, Unknown, HeadFault, ActionFault};
ghost use Rattle.litmus_reader.specs.Rows.{Answers};

use super::content_fault::ContentFault;
use super::item::{Action, End, Head};
use super::marks::action_fault;
use pc_common::{FaultKind, MAX_CORE, MAX_OPS};

/// The fault of a micro-op after the micro-ops of these heads.
pub(crate) fn microop_fault(before: &[Head], head: Head, action: Action) -> Option<ContentFault>
    requires { length before.now < 2 ^ 63 }
    ensures { Answers (First (HeadFault before.now head) (ActionFault action)) result }
{
    if let Some(fault) = head_fault(before, head) {
        return Some(fault);
    }
    action_fault(action)
}

fn head_fault(before: &[Head], head: Head) -> Option<ContentFault>
    requires { length before.now < 2 ^ 63 }
    ensures { Answers (HeadFault before.now head) result }
{
    if let Some(fault) = core_number(head) {
        return Some(fault);
    }
    if let Some(fault) = too_many_ops(before, head) {
        return Some(fault);
    }
    if let Some(fault) = split_instruction(before, head) {
        return Some(fault);
    }
    duplicate_op(before, head)
}

fn core_number(head: Head) -> Option<ContentFault>
    ensures { Answers (OverCore head) result }
{
    if head.core.value <= MAX_CORE {
        return None;
    }
    Some(ContentFault {
        kind: FaultKind::CoreNumber {
            number: head.core.value,
        },
        place: head.core.at,
    })
}

fn too_many_ops(before: &[Head], head: Head) -> Option<ContentFault>
    ensures { Answers (OverMany before.now head) result }
{
    if before.len() < MAX_OPS {
        return None;
    }
    Some(ContentFault {
        kind: FaultKind::TooManyOps {
            limit: MAX_OPS as u64,
        },
        place: head.at,
    })
}

fn split_instruction(before: &[Head], head: Head) -> Option<ContentFault>
    ensures { Answers (SomeEarlier before.now (SplitFrom head)) result }
{
    // There are at most 64 micro-ops, so each is compared with all before it.
    for earlier in before {
        if let Some(fault) = split_fault(head, *earlier) {
            return Some(fault);
        }
    }
    None
}

/// The fault where the two are of one instruction and on other cores or threads.
fn split_fault(head: Head, earlier: Head) -> Option<ContentFault>
    ensures { Answers (SplitFrom head earlier) result }
{
    if earlier.g.value != head.g.value {
        return None;
    }
    if earlier.core.value != head.core.value {
        return Some(ContentFault {
            kind: FaultKind::SplitInstruction {
                first: earlier.core.value,
                again: head.core.value,
            },
            place: head.core.at,
        });
    }
    if earlier.thread.value != head.thread.value {
        return Some(ContentFault {
            kind: FaultKind::SplitInstruction {
                first: earlier.thread.value,
                again: head.thread.value,
            },
            place: head.thread.at,
        });
    }
    None
}

fn duplicate_op(before: &[Head], head: Head) -> Option<ContentFault>
    ensures { Answers (SomeEarlier before.now (DuplicateOf head)) result }
{
    for earlier in before {
        if let Some(fault) = duplicate_fault(head, *earlier) {
            return Some(fault);
        }
    }
    None
}

/// The fault where the two have one name.
fn duplicate_fault(head: Head, earlier: Head) -> Option<ContentFault>
    ensures { Answers (DuplicateOf head earlier) result }
{
    if earlier.g.value != head.g.value || earlier.n != head.n {
        return None;
    }
    Some(ContentFault {
        kind: FaultKind::DuplicateOp {
            first: earlier.g.at,
            again: head.g.at,
        },
        place: head.g.at,
    })
}

/// The place of the micro-op that a relationship names, or their number where it names none.
pub(crate) fn place_of(before: &[Head], end: End) -> usize
    ensures { result ≡ place_in before.now end }
{
    for (k, head) in before.iter().enumerate() {
        if head.g.value == end.g.value && head.n == end.n {
            return k;
        }
    }
    before.len()
}

fn unknown_fault(before: &[Head], end: End) -> Option<ContentFault>
    ensures { Answers (Unknown before.now end) result }
{
    if place_of(before, end) < before.len() {
        return None;
    }
    Some(ContentFault {
        kind: FaultKind::OpUnknown {
            g: end.g.value,
            n: end.n,
        },
        place: end.g.at,
    })
}

/// The fault of a relationship after the micro-ops of these heads.
pub(crate) fn relationship_fault(before: &[Head], source: End, target: End) -> Option<ContentFault>
    ensures { Answers (First (Unknown before.now source) (Unknown before.now target)) result }
{
    if let Some(fault) = unknown_fault(before, source) {
        return Some(fault);
    }
    unknown_fault(before, target)
}
