//! Listings that are refused, by the reader: the first fault of each, with its place.
use crate::formula_texts::{Pieces, join_pieces, tell_fault};
use example_texts::LISTED_WITH_AN_OPEN_LOAD;
use pc_common::{FaultKind, Memory, Place, Value, line_col};
use std::alloc::Global;
use std::process::Abort;
use x86_litmus::{X86Fault, read_x86};

/// The line and the column of a place, both from 1.
type LineColumn = (u32, u32);

/// What is wrong, and where; None where memory was refused.
fn place_fault(fault: X86Fault) -> Option<(FaultKind, Place)> {
    match fault {
        X86Fault::Lexical(place) => Some((FaultKind::Lexical, place)),
        X86Fault::Syntax(place) => Some((FaultKind::Syntax, place)),
        X86Fault::Content(kind, place) => Some((kind, place)),
        X86Fault::Memory => None,
    }
}

fn first_fault(alloc: Global, text: &[u8]) -> Option<X86Fault> {
    if text.len() > 10_000 {
        return None;
    }
    read_x86(alloc, text).err()
}

fn is_at(text: &[u8], place: Place, at: LineColumn) -> bool {
    if text.len() > 10_000 || place.offset as usize > text.len() {
        return false;
    }
    line_col(text, place) == at
}

/// Whether this is the first fault of the listing.
fn is_refused(alloc: Global, text: &[u8], kind: FaultKind, at: LineColumn) -> bool {
    match first_fault(alloc, text) {
        Some(fault) => match place_fault(fault) {
            Some((found, place)) => tell_fault(found) == tell_fault(kind) && is_at(text, place, at),
            None => false,
        },
        None => false,
    }
}

/// A listing, and the line and the column of its fault.
type Refused = (&'static str, LineColumn);

/// Each listing has such a fault there.
fn each_is_refused(rt: &impl Abort, alloc: Global, listings: &[Refused], kind: FaultKind) {
    for (listing, at) in listings {
        let is_so = is_refused(alloc, listing.as_bytes(), kind, *at);
        assert!(rt; is_so, "{listing}");
    }
}

const HEADERS: &[Refused] = &[
    // the first line
    ("", (1, 1)),
    ("\nX86 t\n{}\nP0;\nexists x=0\n", (1, 1)),
    ("{}\nP0;\nexists x=0\n", (1, 1)),
    (" X86 t\n{}\nP0;\nexists x=0\n", (1, 1)),
    ("x86 t\n{}\nP0;\nexists x=0\n", (1, 1)),
    ("X86\n{}\nP0;\nexists x=0\n", (1, 1)),
    ("X86 \n{}\nP0;\nexists x=0\n", (1, 1)),
    ("X86\tt\n{}\nP0;\nexists x=0\n", (1, 1)),
    ("X86 \tt\n{}\nP0;\nexists x=0\n", (1, 1)),
    ("X86t\n{}\nP0;\nexists x=0\n", (1, 1)),
    ("X86 t u\n{}\nP0;\nexists x=0\n", (1, 1)),
    ("PPC t\n{}\nP0;\nexists x=0\n", (1, 1)),
    // a line after it
    ("X86 t\n \tword\n{}\nP0;\nexists x=0\n", (2, 3)),
    ("X86 t\n \"quoted\"\n{}\nP0;\nexists x=0\n", (2, 2)),
    (
        "X86 t\n\"quoted\"\n(* no comment *)\n{}\nP0;\nexists x=0\n",
        (3, 1),
    ),
    ("X86 t\nP0;\nexists x=0\n", (2, 1)),
    // no line opens the body
    ("X86 t", (1, 6)),
    ("X86 t\n", (2, 1)),
    ("X86 t\n\"quoted\"\n\n", (4, 1)),
    ("X86 t\nCom=Fr {", (2, 9)),
    // a fault of the header comes before the others
    ("X86\n@", (1, 1)),
    ("X86 t\nword\n{ @ } ; x=1 x=2", (2, 1)),
];

const LEXICAL: &[Refused] = &[
    ("X86 t\n{ @ }\nP0;\nexists x=0\n", (2, 3)),
    // a number past 18446744073709551615
    (
        "X86 t\n{ x=18446744073709551616; }\nP0;\nexists x=0\n",
        (2, 5),
    ),
    ("X86 t\n{}\nP0;\nMOV [x],$-1;\nexists x=0\n", (4, 10)),
    // no underscore begins a name
    ("X86 t\n{ _x=1; }\nP0;\nexists x=0\n", (2, 3)),
    // a comment that isn't closed, and a closing without its opening
    ("X86 t\n{} (*)\nP0;\nexists x=0\n", (2, 4)),
    ("X86 t\n{} (* (* *) *)\nP0;\nexists x=0\n", (2, 13)),
    // a quoted line of the header stands in no body
    ("X86 t\n{}\n\"quoted\"\nP0;\nexists x=0\n", (3, 1)),
    // half of a conjunction, and a disjunction
    ("X86 t\n{}\nP0;\nexists (x=0 / y=0)\n", (4, 13)),
    ("X86 t\n{}\nP0;\nexists (x=0 \\/ y=0)\n", (4, 13)),
    // a lexical fault comes before one of syntax
    ("X86 t\n{ ; } } ;\nP0;\nexists x=0 %\n", (4, 12)),
];

const SYNTAX: &[Refused] = &[
    // the block
    ("X86 t\n{ ; }\nP0;\nexists x=0\n", (2, 3)),
    ("X86 t\n{ x=1;; }\nP0;\nexists x=0\n", (2, 7)),
    ("X86 t\n{ x=1 y=2; }\nP0;\nexists x=0\n", (2, 7)),
    ("X86 t\n{ x=y; }\nP0;\nexists x=0\n", (2, 5)),
    ("X86 t\n{ x; }\nP0;\nexists x=0\n", (2, 4)),
    ("X86 t\n{ [x=1; }\nP0;\nexists x=0\n", (2, 5)),
    ("X86 t\n{\n\nP0;\nexists x=0\n", (4, 3)),
    // types and registers in the block
    ("X86 t\n{ int x=1; }\nP0;\nexists x=0\n", (2, 7)),
    ("X86 t\n{ uint64_t x; }\nP0;\nexists x=0\n", (2, 12)),
    ("X86 t\n{ 0:EAX=1; }\nP0;\nexists x=0\n", (2, 3)),
    // the names of the columns
    ("X86 t\n{}\n;\nexists x=0\n", (3, 1)),
    ("X86 t\n{}\nP0|;\nexists x=0\n", (3, 4)),
    ("X86 t\n{}\n0;\nexists x=0\n", (3, 1)),
    ("X86 t\n{}\nP0 P1;\nexists x=0\n", (3, 4)),
    ("X86 t\n{}\nP0\nexists x=0\n", (4, 1)),
    // other instructions
    ("X86 t\n{}\nP0;\nINC [x];\nexists x=0\n", (4, 1)),
    ("X86 t\n{}\nP0;\nXCHG EAX,[x];\nexists x=0\n", (4, 1)),
    ("X86 t\n{}\nP0|P1;\nMFENCE|LFENCE;\nexists x=0\n", (4, 8)),
    ("X86 t\n{}\nP0;\nMOV EAX,$1;\nexists x=0\n", (4, 9)),
    ("X86 t\n{}\nP0;\nMOV [x],EAX;\nexists x=0\n", (4, 9)),
    ("X86 t\n{}\nP0;\nMOV [x],1;\nexists x=0\n", (4, 9)),
    ("X86 t\n{}\nP0;\nMOV [x],$y;\nexists x=0\n", (4, 10)),
    ("X86 t\n{}\nP0;\nMOV EAX [x];\nexists x=0\n", (4, 9)),
    ("X86 t\n{}\nP0;\nMFENCE MFENCE;\nexists x=0\n", (4, 8)),
    ("X86 t\n{}\nP0;\nMFENCE\nexists x=0\n", (5, 1)),
    // no row begins with the words of a condition
    ("X86 t\n{}\nP0;\nMFENCE;\n~;\nexists x=0\n", (5, 2)),
    ("X86 t\n{}\nP0|P1;\nMFENCE|exists x=0\n", (4, 8)),
    // other conditions
    ("X86 t\n{}\nP0;\nforall x=0\n", (4, 1)),
    ("X86 t\n{}\nP0;\n~forall x=0\n", (4, 2)),
    ("X86 t\n{}\nP0;\nlocations [x;]\nexists x=0\n", (4, 1)),
    ("X86 t\n{}\nP0;\nfilter x=0\nexists x=0\n", (4, 1)),
    ("X86 t\n{}\nP0;\nexists true\n", (5, 1)),
    ("X86 t\n{}\nP0;\nexists ~(x=0)\n", (4, 8)),
    ("X86 t\n{}\nP0;\nexists ((x=0))\n", (4, 9)),
    ("X86 t\n{}\nP0;\nexists (x=0 ; y=0)\n", (4, 13)),
    ("X86 t\n{}\nP0;\nexists (x=y)\n", (4, 11)),
    ("X86 t\n{}\nP0;\nexists (0:x:y=1)\n", (4, 12)),
    ("X86 t\n{}\nP0;\nexists (0:[x]=1)\n", (4, 11)),
    ("X86 t\n{}\nP0;\nexists ()\n", (4, 9)),
    // an end too early, and one too late
    ("X86 t\n{}\nP0;\n", (4, 1)),
    ("X86 t\n{}\nP0;\nexists", (4, 7)),
    ("X86 t\n{}\nP0;\nexists (x=0\n", (5, 1)),
    ("X86 t\n{}\nP0;\nexists x=0 /\\", (4, 14)),
    ("X86 t\n{}\nP0;\nexists x=0)\n", (4, 11)),
    ("X86 t\n{}\nP0;\nexists x=0;\n", (4, 11)),
    ("X86 t\n{}\nP0;\nexists x=0\nexists x=0\n", (5, 1)),
    // a fault of syntax comes before one of content
    ("X86 t\n{ x=1; x=1; }\nP9;\nexists x=0 y\n", (4, 12)),
];

/// A listing, its fault of content, and the line and the column of it.
type Faulty = (&'static str, FaultKind, LineColumn);

const ONE: Value = Value::Number(1);

const TWO: Value = Value::Number(2);

const CONTENT: &[Faulty] = &[
    (
        "X86 t\n{ x=1; y=0; [x]=2; x=3; }\nP0;\nexists x=0\n",
        FaultKind::AgainInitial {
            first: ONE,
            again: TWO,
        },
        (2, 14),
    ),
    // the same value once more
    (
        "X86 t\n{ [x]=2; x=2 }\nP0;\nexists x=0\n",
        FaultKind::AgainInitial {
            first: TWO,
            again: TWO,
        },
        (2, 10),
    ),
    (
        "X86 t\n{ x=5; }\nP0;\nexists (x=1 /\\ y=2 /\\ [x]=2)\n",
        FaultKind::AgainFinal {
            first: ONE,
            again: TWO,
        },
        (4, 24),
    ),
    // the names of the columns are P and their numbers
    ("X86 t\n{}\nP1;\nexists x=0\n", FaultKind::X86Column, (3, 1)),
    (
        "X86 t\n{}\nP0 | P2;\nexists x=0\n",
        FaultKind::X86Column,
        (3, 6),
    ),
    (
        "X86 t\n{}\nP0 | P0;\nexists x=0\n",
        FaultKind::X86Column,
        (3, 6),
    ),
    (
        "X86 t\n{}\nP0 | P01;\nexists x=0\n",
        FaultKind::X86Column,
        (3, 6),
    ),
    ("X86 t\n{}\np0;\nexists x=0\n", FaultKind::X86Column, (3, 1)),
    ("X86 t\n{}\nP;\nexists x=0\n", FaultKind::X86Column, (3, 1)),
    (
        "X86 t\n{}\nP0a;\nexists x=0\n",
        FaultKind::X86Column,
        (3, 1),
    ),
    // a cell too few, and one too many
    (
        "X86 t\n{}\nP0 | P1;\nMOV [x],$1;\nexists x=0\n",
        FaultKind::X86Column,
        (4, 11),
    ),
    (
        "X86 t\n{}\nP0 | P1;\nMFENCE | MFENCE;\nMOV [x],$1 | MFENCE | ;\nexists x=0\n",
        FaultKind::X86Column,
        (5, 23),
    ),
    (
        "X86 t\n{}\nP0;\n|;\nexists x=0\n",
        FaultKind::X86Column,
        (4, 2),
    ),
    // a thread's register
    (
        "X86 t\n{}\nP0;\nMOV EAX,[x];\nMOV EBX,[x];\nMOV EAX,[y];\nexists (0:EAX=0 /\\ 0:EBX=0)\n",
        FaultKind::X86Reload,
        (6, 5),
    ),
    (
        "X86 t\n{}\nP0 | P1;\nMOV EAX,[x] | MOV EBX,[x];\nexists (0:EAX=0 /\\ 1:EAX=0)\n",
        FaultKind::X86Unloaded,
        (5, 20),
    ),
    (
        "X86 t\n{}\nP0;\nMOV EAX,[x];\nexists (9:EAX=0 /\\ 0:EAX=0)\n",
        FaultKind::X86Unloaded,
        (5, 9),
    ),
    (
        "X86 t\n{}\nP0;\nMOV [EAX],$1;\nexists 0:EAX=0\n",
        FaultKind::X86Unloaded,
        (5, 8),
    ),
    (
        "X86 t\n{}\nP0;\nMOV EAX,[x];\nexists (0:EAX=0 /\\ 00:EAX=0)\n",
        FaultKind::X86Again,
        (5, 20),
    ),
    (LISTED_WITH_AN_OPEN_LOAD, FaultKind::X86Open, (8, 20)),
    // no location's equation says what a load reads
    (
        "X86 t\n{}\nP0;\nMOV EAX,[x];\nexists (EAX=0 /\\ x=0)\n",
        FaultKind::X86Open,
        (4, 5),
    ),
    // of two such loads the first in the text, whatever its column
    (
        "X86 t\n{}\nP0 | P1;\nMFENCE | MOV EAX,[x];\nMOV EBX,[x] | ;\nexists x=0\n",
        FaultKind::X86Open,
        (4, 14),
    ),
    // they come after the condition's own faults, which come in the order of the text
    (
        "X86 t\n{}\nP0;\nMOV EAX,[x];\nexists (x=1 /\\ 0:EBX=0 /\\ x=1)\n",
        FaultKind::X86Unloaded,
        (5, 16),
    ),
    (
        "X86 t\n{ x=1; x=2; }\nP1;\nMFENCE|;\nexists x=0\n",
        FaultKind::AgainInitial {
            first: ONE,
            again: TWO,
        },
        (2, 8),
    ),
    // a register that is loaded again, and then a cell too many
    (
        "X86 t\n{}\nP0;\nMOV EAX,[x];\nMOV EAX,[x]|;\nexists 0:EAX=0\n",
        FaultKind::X86Reload,
        (5, 5),
    ),
];

/// A fault of the header is one of syntax.
#[test]
fn a_fault_of_the_text_stands_at_its_line_and_its_token(rt: HostRuntime) {
    each_is_refused(&rt, rt.alloc(), HEADERS, FaultKind::Syntax);
    each_is_refused(&rt, rt.alloc(), LEXICAL, FaultKind::Lexical);
}

#[test]
fn a_fault_of_syntax_stands_at_its_line_and_its_token(rt: HostRuntime) {
    each_is_refused(&rt, rt.alloc(), SYNTAX, FaultKind::Syntax);
}

#[test]
fn a_fault_of_content_is_named_with_its_place_and_values(rt: HostRuntime) {
    for (listing, kind, at) in CONTENT {
        assert!(rt;
            is_refused(rt.alloc(), listing.as_bytes(), *kind, *at),
            "{listing}"
        );
    }
}

const LIMIT: FaultKind = FaultKind::TooManyOps { limit: 64 };

/// A listing in pieces, and the line and the column of its 65th instruction.
const CROWDS: &[(Pieces, LineColumn)] = &[
    (
        &[
            ("X86 t\n{}\nP0;\n", 1),
            ("MFENCE;\n", 65),
            ("exists x=0\n", 1),
        ],
        (68, 1),
    ),
    // counted in the order of the text, and empty cells don't count
    (
        &[
            ("X86 t\n{}\nP0|P1;\n", 1),
            ("MFENCE|MFENCE;\n", 32),
            ("|;\n", 3),
            ("|MFENCE;\n", 1),
            ("MFENCE|;\n", 1),
            ("exists x=0\n", 1),
        ],
        (39, 2),
    ),
    // it comes before a register that is loaded again and a cell too many
    (
        &[
            ("X86 t\n{}\nP0;\nMOV EAX,[x];\n", 1),
            ("MOV [x],$1;\n", 63),
            ("MOV EAX,[x]|;\n", 1),
            ("exists 0:EAX=0\n", 1),
        ],
        (68, 1),
    ),
];

/// Whether this is the first fault of the listing of these pieces.
fn are_refused(
    alloc: Global,
    pieces: &[(&'static str, usize)],
    kind: FaultKind,
    at: LineColumn,
) -> Result<bool, Memory> {
    let listing = join_pieces(alloc, pieces)?;
    Ok(is_refused(alloc, &listing, kind, at))
}

#[test]
fn the_65th_instruction_is_one_too_many(rt: HostRuntime) {
    for (pieces, at) in CROWDS {
        let are_so = are_refused(rt.alloc(), pieces, LIMIT, *at);
        assert!(rt; are_so.unwrap_or(false), "line {}", at.0);
    }
}

/// 64 columns, and one more of this name.
fn of_65_columns(alloc: Global, last: &str) -> Result<String, Memory> {
    let mut listing = String::new(alloc);
    listing.push_str("X86 wide\n{}\n")?;
    for k in 0..64u64 {
        listing.push_str(&format!(in alloc; "P{k}|")?)?;
    }
    listing.push_str(last)?;
    listing.push_str(";\nexists x=0\n")?;
    Ok(listing)
}

fn are_too_many(alloc: Global, last: &str) -> Result<bool, Memory> {
    let listing = of_65_columns(alloc, last)?;
    let kind = FaultKind::CoreNumber { number: 64 };
    Ok(is_refused(alloc, listing.as_bytes(), kind, (3, 247)))
}

/// That there are too many is named before a wrong name.
#[test]
fn the_65th_column_is_one_too_many(rt: HostRuntime) {
    for last in ["P64", "P65", "Q"] {
        let are_so = are_too_many(rt.alloc(), last);
        assert!(rt; are_so.unwrap_or(false), "{last}");
    }
}
