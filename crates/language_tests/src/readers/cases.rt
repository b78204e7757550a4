//! Test files to cases, and what a case answers.
ghost use Rattle.std.specs.Prelude.{◌≡◌, IfOk, length, map};
ghost use Rattle.pc_case.specs.MicroOps.{AreMicroOps};
ghost use Rattle.pc_case.specs.Plain.{micro_op, dependency, stated_value};
ghost use Rattle.pc_case.specs.Stated.{AreWithin, IsStatedOnce};

use crate::formula_texts::{Told, tell_fault};
use litmus_reader::{CaseFault, read_case};
use pc_case::{
    Access, Address, Case, Dependencies, Dependency, Expect, Memop, Op, OpId, Ops, Page, Stated,
    StatedValues, TypeNames,
};
use pc_common::{Bytes, FaultKind, Memory, Place, Value};
use std::alloc::Global;
use std::test::Fail;

/// A refused text, and its first fault.
type Refused = (&'static [u8], CaseFault);

const FAULTS: &[Refused] = &[
    (b"Microop \"open", CaseFault::Lexical(Place { offset: 8 })),
    (b"", CaseFault::Syntax(Place { offset: 0 })),
    (b"Litmus", CaseFault::Syntax(Place { offset: 6 })),
    (
        b"Litmus \"d\".\nMicroop 0 0 0 0 (Fence (VA 0 0)).",
        CaseFault::Syntax(Place { offset: 35 }),
    ),
    (
        b"Litmus \"d\".\nMicroop 0 0 0 0 (Read).",
        CaseFault::Syntax(Place { offset: 33 }),
    ),
    (
        b"Litmus \"d\".\nPermitted.\nForbidden.\nPermitted",
        CaseFault::Syntax(Place { offset: 43 }),
    ),
    (
        b"Litmus \"d\".\nMicroop 0 64 0 0 (Fence).",
        CaseFault::Content(FaultKind::CoreNumber { number: 64 }, Place { offset: 22 }),
    ),
    (
        b"Litmus \"d\".\nMicroop 0 0 0 0 (Fence).\nMicroop 0 1 5 1 (Fence).",
        CaseFault::Content(
            FaultKind::SplitInstruction { first: 0, again: 1 },
            Place { offset: 47 },
        ),
    ),
    (
        b"Litmus \"d\".\nMicroop 0 0 0 0 (Fence).\nMicroop 0 0 5 0 (Fence).",
        CaseFault::Content(
            FaultKind::SplitInstruction { first: 0, again: 5 },
            Place { offset: 49 },
        ),
    ),
    // a second one of its name is judged after the core
    (
        b"Litmus \"d\".\nMicroop 0 0 0 0 (Fence).\nMicroop 0 1 0 0 (Fence).",
        CaseFault::Content(
            FaultKind::SplitInstruction { first: 0, again: 1 },
            Place { offset: 47 },
        ),
    ),
    (
        b"Litmus \"d\".\nMicroop 0 0 0 0 (Fence).\nMicroop 0 0 0 0 (Fence).",
        CaseFault::Content(
            FaultKind::DuplicateOp {
                first: Place { offset: 20 },
                again: Place { offset: 45 },
            },
            Place { offset: 45 },
        ),
    ),
    (
        b"Litmus \"d\".\nRelationship addr 0 0 -> 1 0.",
        CaseFault::Content(FaultKind::OpUnknown { g: 0, n: 0 }, Place { offset: 30 }),
    ),
    (
        b"Litmus \"d\".\nMicroop 0 0 0 0 (Fence).\nRelationship addr 0 0 -> 1 0.\nMicroop 1 0 0 0 (Fence).",
        CaseFault::Content(FaultKind::OpUnknown { g: 1, n: 0 }, Place { offset: 62 }),
    ),
    (
        b"Litmus \"d\".\nInit (PA 0 0) 1.\nInit (PA 0 0) 2.",
        CaseFault::Content(
            FaultKind::AgainInitial {
                first: Value::Number(1),
                again: Value::Number(2),
            },
            Place { offset: 29 },
        ),
    ),
    (
        b"Litmus \"d\".\nFinal (PA 0 0) 1.\nFinal (PA 0 0) 1.",
        CaseFault::Content(
            FaultKind::AgainFinal {
                first: Value::Number(1),
                again: Value::Number(1),
            },
            Place { offset: 30 },
        ),
    ),
    (
        b"Litmus \"d\".\nPermitted.\nForbidden.",
        CaseFault::Content(
            FaultKind::AgainExpectation {
                first: Place { offset: 12 },
                again: Place { offset: 23 },
            },
            Place { offset: 23 },
        ),
    ),
    // the parts of a line are judged from the left
    (
        b"Litmus \"d\".\nMicroop 0 0 0 0 (Fence).\nMicroop 0 64 0 0 (Fence).",
        CaseFault::Content(FaultKind::CoreNumber { number: 64 }, Place { offset: 47 }),
    ),
    // entries stand in the second format alone
    (
        b"Litmus \"w\".\nMicroop 0 0 0 0 (Read (VA 3 0) (Entry 3) (Maps 7 1 0)).\n",
        CaseFault::Syntax(Place { offset: 44 }),
    ),
    (
        b"Litmus \"w\".\nInit (Entry 3) (Maps 7 1 0).\n",
        CaseFault::Syntax(Place { offset: 18 }),
    ),
    // a mark over 1, the accessed one first
    (
        b"Litmus2 \"w\".\nMicroop 0 0 0 0 (Read (VA 3 0) (Entry 3) (Maps 7 2 0)).\n",
        CaseFault::Content(FaultKind::MarkValue { mark: 2 }, Place { offset: 62 }),
    ),
    (
        b"Litmus2 \"w\".\nMicroop 0 0 0 0 (Read (VA 3 0) (Entry 3) (Maps 7 2 3)).\n",
        CaseFault::Content(FaultKind::MarkValue { mark: 2 }, Place { offset: 62 }),
    ),
    (
        b"Litmus2 \"w\".\nMicroop 0 0 0 0 (Read (VA 3 0) (Entry 3) (Maps 7 1 3)).\n",
        CaseFault::Content(FaultKind::MarkValue { mark: 3 }, Place { offset: 64 }),
    ),
    // it is the last that is judged of a line
    (
        b"Litmus2 \"w\".\nMicroop 0 64 0 0 (Read (VA 3 0) (Entry 3) (Maps 7 2 0)).\n",
        CaseFault::Content(FaultKind::CoreNumber { number: 64 }, Place { offset: 23 }),
    ),
    (
        b"Litmus2 \"d\".\nInit (Entry 3) (Maps 7 0 0).\nInit (Entry 3) (Maps 7 5 0).",
        CaseFault::Content(
            FaultKind::AgainInitial {
                first: Value::Entry {
                    tag: 7,
                    accessed: 0,
                    dirty: 0,
                },
                again: Value::Entry {
                    tag: 7,
                    accessed: 5,
                    dirty: 0,
                },
            },
            Place { offset: 42 },
        ),
    ),
    // a fault of syntax is named before one of content
    (
        b"Litmus \"d\".\nPermitted.\nForbidden.\nLitmus",
        CaseFault::Syntax(Place { offset: 34 }),
    ),
];

/// What is told of a fault, with its place; None where memory was refused.
fn place_fault(fault: CaseFault) -> Option<(Told, Place)> {
    match fault {
        CaseFault::Lexical(place) => Some((tell_fault(FaultKind::Lexical), place)),
        CaseFault::Syntax(place) => Some((tell_fault(FaultKind::Syntax), place)),
        CaseFault::Content(kind, place) => Some((tell_fault(kind), place)),
        CaseFault::Memory => None,
    }
}

/// Whether this is the first fault of the text, which is not too long here.
fn is_refused(alloc: Global, text: &[u8], fault: CaseFault) -> bool {
    if text.len() > 4000 {
        return false;
    }
    match read_case(alloc, text) {
        Ok(_) => false,
        Err(found) => place_fault(found) == place_fault(fault),
    }
}

#[test]
fn the_first_fault_is_named_with_its_place_and_values(rt: HostRuntime) {
    for (text, fault) in FAULTS {
        assert!(rt; is_refused(rt.alloc(), text, *fault), "{text:?}");
    }
}

/// A test of 64 fences, a line each, and then this line.
fn put_64_fences(text: &mut String, alloc: Global, line: &str) -> Result<(), Memory> {
    text.push_str("Litmus \"m\".\n")?;
    for g in 0..64u64 {
        text.push_str(&format!(in alloc; "Microop {g} 0 0 0 (Fence).\n")?)?;
    }
    text.push_str(line)?;
    Ok(())
}

/// A micro-op after 64 others, and the fault of the test.
const LINES_65: &[(&'static str, CaseFault)] = &[
    (
        "Microop 64 0 0 0 (Fence).",
        CaseFault::Content(FaultKind::TooManyOps { limit: 64 }, Place { offset: 1666 }),
    ),
    // its core is judged before the number of micro-ops
    (
        "Microop 64 64 0 0 (Fence).",
        CaseFault::Content(FaultKind::CoreNumber { number: 64 }, Place { offset: 1677 }),
    ),
    // what is judged by earlier micro-ops comes after it
    (
        "Microop 0 1 0 0 (Fence).",
        CaseFault::Content(FaultKind::TooManyOps { limit: 64 }, Place { offset: 1666 }),
    ),
    (
        "Microop 0 0 0 0 (Fence).",
        CaseFault::Content(FaultKind::TooManyOps { limit: 64 }, Place { offset: 1666 }),
    ),
];

/// Whether this line is refused after 64 fences.
fn is_refused_after_64(alloc: Global, line: &str, fault: CaseFault) -> Result<bool, Memory> {
    let mut text = String::new(alloc);
    put_64_fences(&mut text, alloc, line)?;
    Ok(is_refused(alloc, text.as_bytes(), fault))
}

#[test]
fn the_65th_micro_op_is_one_too_many(rt: HostRuntime) {
    for (line, fault) in LINES_65 {
        let is_so = is_refused_after_64(rt.alloc(), line, *fault);
        assert!(rt; is_so.unwrap_or(false), "{line}");
    }
}

/// What is asked of a case.
#[derive(Clone, Copy)]
enum Asked {
    /// How many micro-ops and cores it has.
    Counts(usize, usize),
    /// Whether it is that of the mixed text.
    Mixed,
    /// Where dependencies go, and where they do not.
    Ends(&'static [End]),
    /// Whether it has the names that are words of the format.
    Words,
}

fn has(case: &Case, asked: Asked) -> bool {
    match asked {
        Asked::Counts(ops, cores) => case.ops() == ops && case.cores() == cores,
        Asked::Mixed => is_mixed(case),
        Asked::Ends(ends) => are_ends(case, ends),
        Asked::Words => has_words(case),
    }
}

/// Whether the text, which is not too long here, is a case that has what is asked.
fn says(alloc: Global, text: &[u8], asked: Asked) -> bool {
    if text.len() > 4000 {
        return false;
    }
    match read_case(alloc, text) {
        Ok(case) => has(&case, asked),
        Err(_) => false,
    }
}

/// Whether there may be 64 fences, and this line after them.
fn may_be_64(alloc: Global, line: &str) -> Result<bool, Memory> {
    let mut text = String::new(alloc);
    put_64_fences(&mut text, alloc, line)?;
    Ok(says(alloc, text.as_bytes(), Asked::Counts(64, 1)))
}

#[test]
fn the_64th_micro_op_is_the_last(rt: HostRuntime) -> Result<(), Fail> {
    assert!(rt; may_be_64(rt.alloc(), "Relationship addr 63 0 -> 0 0.")?);
    Ok(())
}

/// A text, and how many micro-ops and cores it has.
const COUNTS: &[(&'static [u8], usize, usize)] = &[
    (b"Litmus \"e\".", 0, 0),
    (b"Litmus2 \"e\".", 0, 0),
    (b"Litmus \"c\".\nMicroop 0 0 0 0 (Fence).", 1, 1),
    // the last core
    (b"Litmus \"c\".\nMicroop 0 63 0 0 (Fence).", 1, 64),
    (
        b"Litmus \"c\".\nMicroop 0 63 0 0 (Fence).\nMicroop 1 0 0 0 (Fence).",
        2,
        64,
    ),
];

#[test]
fn micro_ops_and_cores_are_counted(rt: HostRuntime) {
    for (text, ops, cores) in COUNTS {
        let asked = Asked::Counts(*ops, *cores);
        assert!(rt; says(rt.alloc(), text, asked), "{text:?}");
    }
}

const MIXED: &[u8] = b"Litmus2 \"h\".
Forbidden. Init (PA 7 7) 3.
Microop 0 0 0 0 (Write Locked (VA 1 2) (PA 1 2) (Data 5)).
Microop 0 0 0 1 (Read (VA 1 3) (PA 1 2) (Data 0)).
Init (PA 2 1) 7. Final (PA 2 1) 9.
Microop 1 2 9 0 (Fence Full).
Relationship addr 0 0 -> 1 0.
Relationship data 0 1 -> 0 1.
Init (Entry 4) (Maps 9 1 0). Final (Entry 4) (Maps 9 1 1).
Final (PA 1 2) 5.";

/// An address, its initial value, and its final value where one is stated.
type Values = (Address, Value, Option<Value>);

/// Those of the mixed text.
const VALUES: &[Values] = &[
    (Address::Page { tag: 7, index: 7 }, Value::Number(3), None),
    (
        Address::Page { tag: 1, index: 2 },
        Value::Number(0),
        Some(Value::Number(5)),
    ),
    (
        Address::Page { tag: 2, index: 1 },
        Value::Number(7),
        Some(Value::Number(9)),
    ),
    (Address::Page { tag: 2, index: 7 }, Value::Number(0), None),
    // an entry that no line states maps to its own tag, with neither mark
    (
        Address::Entry { tag: 2 },
        Value::Entry {
            tag: 2,
            accessed: 0,
            dirty: 0,
        },
        None,
    ),
    (
        Address::Entry { tag: 4 },
        Value::Entry {
            tag: 9,
            accessed: 1,
            dirty: 0,
        },
        Some(Value::Entry {
            tag: 9,
            accessed: 1,
            dirty: 1,
        }),
    ),
];

/// A kind and two places, and whether a dependency of that kind goes from the first to the second.
type End = (&'static [u8], usize, usize, bool);

/// Those of the mixed text.
const ENDS: &[End] = &[
    (b"addr", 0, 2, true),
    (b"addr", 2, 0, false),
    (b"addr", 0, 1, false),
    (b"data", 0, 2, false),
    (b"data", 1, 1, true),
    (b"data", 257, 257, false),
];

/// A name, and the place of the micro-op of that name.
type Named = (u64, u64, Option<usize>);

/// Those of the mixed text.
const NAMED: &[Named] = &[
    (0, 0, Some(0)),
    (0, 1, Some(1)),
    (1, 0, Some(2)),
    (1, 1, None),
];

fn are_values(case: &Case, values: &[Values]) -> bool {
    for (page, start, end) in values {
        if case.initial(*page) != *start || case.final_of(*page) != *end {
            return false;
        }
    }
    true
}

fn are_ends(case: &Case, ends: &[End]) -> bool {
    for (kind, from, to, goes) in ends {
        if case.depends(kind, *from, *to) != *goes {
            return false;
        }
    }
    true
}

fn are_named(case: &Case, names: &[Named]) -> bool {
    for (g, n, place) in names {
        if case.find(OpId { g: *g, n: *n }) != *place {
            return false;
        }
    }
    true
}

fn is_kind(case: &Case, k: usize, access: Access, types: usize) -> bool {
    if k >= case.ops() {
        return false;
    }
    let op = case.op(k);
    op.access == access && op.types.len() == types
}

fn is_at(case: &Case, k: usize, core: u8, thread: u64) -> bool {
    if k >= case.ops() {
        return false;
    }
    let op = case.op(k);
    op.core == core && op.thread == thread
}

/// Whether the micro-ops are the locked write, the read and the fence.
fn are_ops(case: &Case) -> bool {
    is_kind(case, 0, Access::Write, 1)
        && is_kind(case, 1, Access::Read, 0)
        && is_kind(case, 2, Access::Fence, 1)
        && is_at(case, 1, 0, 0)
        && is_at(case, 2, 2, 9)
}

fn is_mixed(case: &Case) -> bool {
    let is_whole = case.ops() == 3 && case.cores() == 3 && case.expect() == Expect::Forbidden;
    is_whole
        && are_ops(case)
        && are_values(case, VALUES)
        && are_ends(case, ENDS)
        && are_named(case, NAMED)
}

#[test]
fn lines_in_any_order_make_one_case(rt: HostRuntime) {
    assert!(rt; says(rt.alloc(), MIXED, Asked::Mixed));
}

/// Two dependencies, each of which is stated twice. One goes from a micro-op to itself.
const TWICE: &[u8] = b"Litmus \"d\".
Microop 0 0 0 0 (Fence).
Microop 1 0 0 0 (Fence).
Relationship addr 0 0 -> 1 0.
Relationship data 1 0 -> 1 0.
Relationship addr 0 0 -> 1 0.
Relationship data 1 0 -> 1 0.";

/// Where they go, and where they do not.
const ENDS_TWICE: &[End] = &[
    (b"addr", 0, 1, true),
    (b"addr", 1, 0, false),
    (b"addr", 1, 1, false),
    (b"data", 1, 1, true),
    (b"data", 0, 1, false),
    (b"data", 0, 0, false),
];

#[test]
fn a_dependency_may_be_stated_twice(rt: HostRuntime) {
    assert!(rt; says(rt.alloc(), TWICE, Asked::Ends(ENDS_TWICE)));
}

const WORDS: &[u8] =
    b"Litmus \"\". Microop 0 0 0 0 (Read Microop VA (VA 1 2) (PA 3 4) (Data 5)). Relationship Fence 0 0 -> 0 0.";

fn has_words(case: &Case) -> bool {
    let is_whole = case.ops() == 1 && case.expect() == Expect::Unstated;
    is_whole && is_kind(case, 0, Access::Read, 2) && case.depends(b"Fence", 0, 0)
}

#[test]
fn no_word_is_reserved(rt: HostRuntime) {
    assert!(rt; says(rt.alloc(), WORDS, Asked::Words));
}

fn has_no_core(case: &Case) -> bool {
    case.ops() == 0 && case.cores() == 0 && case.expect() == Expect::Permitted
}

#[test]
fn a_case_without_micro_ops_uses_no_core(rt: HostRuntime) -> Result<(), Fail> {
    let alloc = rt.alloc();
    let case = Case::new(
        alloc,
        Ops::new(alloc),
        Dependencies::new(alloc),
        StatedValues::new(alloc),
        StatedValues::new(alloc),
        Expect::Permitted,
    )?;
    assert!(rt; has_no_core(&case));
    Ok(())
}

/// What the write of the case without a text touches.
const TOUCHED: Memop = Memop {
    va: Page { tag: 1, index: 2 },
    pa: Address::Page { tag: 3, index: 4 },
    value: Value::Number(6),
};

/// A write on core 5, and a fence on core 2.
fn made_ops(alloc: Global) -> Result<Ops, Memory>
    ensures kept { IfOk result (λ ops. AreMicroOps (map micro_op ops)) }
    ensures two { IfOk result (λ ops. length ops ≡ 2) }
{
    let mut ops = Ops::new(alloc);
    ops.push(Op {
        id: OpId { g: 7, n: 1 },
        core: 5,
        thread: 9,
        types: TypeNames::new(alloc),
        access: Access::Write,
        memop: Some(TOUCHED),
    })?;
    ops.push(Op {
        id: OpId { g: 8, n: 1 },
        core: 2,
        thread: 8,
        types: TypeNames::new(alloc),
        access: Access::Fence,
        memop: None,
    })?;
    Ok(ops)
}

/// A dependency of the fence on the write.
fn made_dependency(alloc: Global) -> Result<Dependency, Memory>
    ensures source { IfOk result (λ line. line.source ≡ 0) }
    ensures target { IfOk result (λ line. line.target ≡ 1) }
{
    Ok(Dependency {
        kind: Bytes::from_vec(b"addr".to_vec(alloc)?),
        source: 0,
        target: 1,
    })
}

/// That dependency, stated twice.
fn made_dependencies(alloc: Global) -> Result<Dependencies, Memory>
    ensures { IfOk result (λ lines. AreWithin 2 (map dependency lines)) }
{
    let mut lines = Dependencies::new(alloc);
    lines.push(made_dependency(alloc)?)?;
    lines.push(made_dependency(alloc)?)?;
    Ok(lines)
}

/// This value at the page that the write touches.
fn made_values(alloc: Global, value: u64) -> Result<StatedValues, Memory>
    ensures { IfOk result (λ lines. IsStatedOnce (map stated_value lines)) }
{
    let mut lines = StatedValues::new(alloc);
    lines.push(Stated {
        pa: TOUCHED.pa,
        value: Value::Number(value),
    })?;
    Ok(lines)
}

fn touches(case: &Case, k: usize, memop: Option<Memop>) -> bool {
    k < case.ops() && case.op(k).memop == memop
}

fn are_made_ops(case: &Case) -> bool {
    is_kind(case, 0, Access::Write, 0)
        && is_at(case, 0, 5, 9)
        && touches(case, 0, Some(TOUCHED))
        && is_kind(case, 1, Access::Fence, 0)
        && is_at(case, 1, 2, 8)
        && touches(case, 1, None)
}

/// The two names, and names that differ from them in one number.
const MADE_NAMED: &[Named] = &[
    (7, 1, Some(0)),
    (8, 1, Some(1)),
    (7, 0, None),
    (8, 0, None),
    (9, 1, None),
    (1, 7, None),
];

/// Whether the micro-ops are these two, of an outcome that is forbidden.
fn is_of_made_ops(case: &Case) -> bool {
    let is_whole = case.ops() == 2 && case.cores() == 6 && case.expect() == Expect::Forbidden;
    is_whole && are_made_ops(case) && are_named(case, MADE_NAMED)
}

/// No dependency is stated.
const NO_ENDS: &[End] = &[
    (b"addr", 0, 1, false),
    (b"addr", 1, 0, false),
    (b"", 1, 1, false),
    (b"addr", 2, 2, false),
];

/// The one dependency, and what differs from it in one part.
const MADE_ENDS: &[End] = &[
    (b"addr", 0, 1, true),
    (b"addr", 1, 0, false),
    (b"data", 0, 1, false),
    (b"addr", 0, 2, false),
];

/// No value is stated, also not where the write writes.
const NO_VALUES: &[Values] = &[
    (Address::Page { tag: 3, index: 4 }, Value::Number(0), None),
    (Address::Page { tag: 1, index: 2 }, Value::Number(0), None),
    (
        Address::Entry { tag: 3 },
        Value::Entry {
            tag: 3,
            accessed: 0,
            dirty: 0,
        },
        None,
    ),
];

/// Both values are stated of the page that the write touches.
const MADE_VALUES: &[Values] = &[
    (
        Address::Page { tag: 3, index: 4 },
        Value::Number(10),
        Some(Value::Number(11)),
    ),
    (Address::Page { tag: 1, index: 2 }, Value::Number(0), None),
];

#[test]
fn a_case_of_micro_ops_alone_has_nothing_else(rt: HostRuntime) -> Result<(), Fail> {
    let alloc = rt.alloc();
    let case = Case::new(
        alloc,
        made_ops(alloc)?,
        Dependencies::new(alloc),
        StatedValues::new(alloc),
        StatedValues::new(alloc),
        Expect::Forbidden,
    )?;
    assert!(rt; is_of_made_ops(&case) && are_ends(&case, NO_ENDS) && are_values(&case, NO_VALUES));
    Ok(())
}

#[test]
fn a_case_answers_what_it_is_made_of(rt: HostRuntime) -> Result<(), Fail> {
    let case = Case::new(
        rt.alloc(),
        made_ops(rt.alloc())?,
        made_dependencies(rt.alloc())?,
        made_values(rt.alloc(), 10)?,
        made_values(rt.alloc(), 11)?,
        Expect::Forbidden,
    )?;
    assert!(rt;
        is_of_made_ops(&case) && are_ends(&case, MADE_ENDS) && are_values(&case, MADE_VALUES)
    );
    Ok(())
}
