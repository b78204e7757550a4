//! Listings and their cases, by the reader.
use example_texts::{LISTED_AS_FORBIDDEN, LISTED_STORE_BUFFERING};
use pc_case::{Access, Address, Case, Expect, Memop, Op, OpId, Page};
use pc_common::{Memory, Value};
use std::alloc::Global;
use std::test::Fail;
use x86_litmus::read_x86;

/// The micro-op of an instruction: its thread, and the number of the location and the value of a store or a load.
#[derive(Clone, Copy)]
enum Done {
    Store(u64, u64, u64),
    Load(u64, u64, u64),
    Fence(u64),
}

/// A location's number, its initial value, and its final one where that is stated.
type Stated = (u64, u64, Option<u64>);

/// A listing, its micro-ops, its locations and its expectation.
type Row = (&'static str, &'static [Done], &'static [Stated], Expect);

const SAME_IN_BOTH: &[Done] = &[
    Done::Store(0, 0, 1),
    Done::Load(0, 1, 0),
    Done::Store(1, 1, 1),
    Done::Load(1, 0, 0),
];

const CASES: &[Row] = &[
    (
        LISTED_STORE_BUFFERING,
        SAME_IN_BOTH,
        &[(0, 0, None), (1, 0, None), (2, 0, None)],
        Expect::Unstated,
    ),
    (
        LISTED_AS_FORBIDDEN,
        SAME_IN_BOTH,
        &[(0, 0, None), (1, 0, None)],
        Expect::Forbidden,
    ),
    // a column with fewer instructions, a value of the block, and a final value
    (
        "X86 n6
\"the first core sees its own write early and y old, and yet its write of x comes last\"
{ x=0; y=0; }
 P0          | P1         ;
 MOV [x],$1  | MOV [y],$2 ;
 MOV EAX,[x] | MOV [x],$2 ;
 MOV EBX,[y] |            ;
exists
([x]=1 /\\ 0:EAX=1 /\\ 0:EBX=0)
",
        &[
            Done::Store(0, 0, 1),
            Done::Load(0, 0, 1),
            Done::Load(0, 1, 0),
            Done::Store(1, 1, 2),
            Done::Store(1, 0, 2),
        ],
        &[(0, 0, Some(1)), (1, 0, None)],
        Expect::Unstated,
    ),
    // a fence, a column of empty cells, and a line of them
    (
        "X86 t\n{}\nP0 | P1 | P2;\nMOV [x],$7 | | ;\nMFENCE||;\n||;\n| | MFENCE;\n| | MOV EAX,[x];\nexists 2:EAX=7\n",
        &[
            Done::Store(0, 0, 7),
            Done::Fence(0),
            Done::Fence(2),
            Done::Load(2, 0, 7),
        ],
        &[(0, 0, None)],
        Expect::Unstated,
    ),
    // no instruction, and no line
    (
        "X86 t\n{}\nP0;\nexists x=3\n",
        &[],
        &[(0, 0, Some(3))],
        Expect::Unstated,
    ),
    (
        "X86 t\n{}\nP0|P1;\n|;\nexists x=3",
        &[],
        &[(0, 0, Some(3))],
        Expect::Unstated,
    ),
    // locations are numbered as the text first names them, over the lines and not down the columns
    (
        "X86 t\n{}\nP0|P1;\nMOV [d],$1|MOV [b],$2;\nMOV [c],$3|MOV [a],$4;\n~exists (e=5 /\\ a=6)\n",
        &[
            Done::Store(0, 0, 1),
            Done::Store(0, 2, 3),
            Done::Store(1, 1, 2),
            Done::Store(1, 3, 4),
        ],
        &[(3, 0, Some(6)), (4, 0, Some(5)), (0, 0, None)],
        Expect::Forbidden,
    ),
    // first those of the block
    (
        "X86 t\n{ z=1; [y]=2 }\nP0;\nMOV [x],$3;\nMOV [y],$4;\nexists (x=5 /\\ z=6)\n",
        &[Done::Store(0, 2, 3), Done::Store(0, 1, 4)],
        &[(0, 1, Some(6)), (1, 2, None), (2, 0, Some(5))],
        Expect::Unstated,
    ),
    // registers of one name in two threads, and a thread's number with a zero before it
    (
        "X86 t\n{}\nP0|P1;\nMOV EAX,[x]|MOV EAX,[x];\nexists (1:EAX=2 /\\ 00:EAX=1)\n",
        &[Done::Load(0, 0, 1), Done::Load(1, 0, 2)],
        &[(0, 0, None)],
        Expect::Unstated,
    ),
    // no word is reserved
    (
        "X86 X86
{ MOV=1; exists=2; MFENCE=3; }
P0;
MOV [MFENCE],$4;
MOV MOV,[exists];
MOV MFENCE,[MOV];
~exists 0:MOV=5 /\\ 0:MFENCE=6 /\\ MFENCE=7 /\\ [exists]=8
",
        &[
            Done::Store(0, 2, 4),
            Done::Load(0, 1, 5),
            Done::Load(0, 0, 6),
        ],
        &[(0, 1, None), (1, 2, Some(8)), (2, 3, Some(7))],
        Expect::Forbidden,
    ),
    // a header of blank lines and lines with =, a body that opens with a value, comments, and a great number
    (
        "X86 2+2W.t-1 \t
\"quoted\"

 \t
 Orig=a { b
  { x=18446744073709551615;(* } *)[y]=007;}P0(*;*);
(**)~(*
*)exists((*(*)x=1)",
        &[],
        &[(0, 18_446_744_073_709_551_615, Some(1)), (1, 7, None)],
        Expect::Forbidden,
    ),
    // CR is a blank
    (
        "X86 SB\r
\"PodWR Fre PodWR Fre\"\r
Com=Fr Fr\r
\r
{\r
}\r
 P0          | P1          ;\r
 MOV [x],$1  | MOV [y],$1  ;\r
 MOV EAX,[y] | MOV EAX,[x] ;\r
~exists\r
(0:EAX=0 /\\ 1:EAX=0)\r
",
        SAME_IN_BOTH,
        &[(0, 0, None), (1, 0, None)],
        Expect::Forbidden,
    ),
];

/// Whether location `number` has been touched so.
fn is_touched(op: &Op, number: u64, value: u64) -> bool {
    let page = Page {
        tag: number,
        index: 0,
    };
    let pa = Address::Page {
        tag: number,
        index: 0,
    };
    let value = Value::Number(value);
    op.memop
        == Some(Memop {
            va: page,
            pa,
            value,
        })
}

fn is_on(op: &Op, thread: u64) -> bool {
    op.thread == thread && u64::from(op.core) == thread
}

/// Whether the only type is `MFENCE`.
fn is_mfence(op: &Op) -> bool {
    op.types.len() == 1 && op.types.get(0) == b"MFENCE".as_slice()
}

fn is_done(op: &Op, done: Done) -> bool {
    match done {
        Done::Store(thread, number, value) => {
            op.access == Access::Write
                && op.types.len() == 0
                && is_on(op, thread)
                && is_touched(op, number, value)
        }
        Done::Load(thread, number, value) => {
            op.access == Access::Read
                && op.types.len() == 0
                && is_on(op, thread)
                && is_touched(op, number, value)
        }
        Done::Fence(thread) => {
            op.access == Access::Fence && op.memop == None && is_on(op, thread) && is_mfence(op)
        }
    }
}

/// Whether micro-op `g` is this one.
fn is_op(case: &Case, g: usize, done: Done) -> bool {
    if g >= case.ops() {
        return false;
    }
    let op = case.op(g);
    op.id == OpId { g: g as u64, n: 0 } && is_done(op, done)
}

fn are_ops(case: &Case, ops: &[Done]) -> bool {
    for (g, done) in ops.iter().enumerate() {
        if !is_op(case, g, *done) {
            return false;
        }
    }
    case.ops() == ops.len()
}

fn is_stated(case: &Case, (number, initial, last): Stated) -> bool {
    let page = Address::Page {
        tag: number,
        index: 0,
    };
    case.initial(page) == Value::Number(initial) && case.final_of(page) == last.map(Value::Number)
}

fn are_stated(case: &Case, values: &[Stated]) -> bool {
    values.iter().all(|value| is_stated(case, *value))
}

fn is_case(case: &Case, (_, ops, values, expect): Row) -> bool {
    case.expect() == expect && are_ops(case, ops) && are_stated(case, values)
}

/// Whether the listing is read to its case.
fn is_read(alloc: Global, row: Row) -> bool {
    let text = row.0.as_bytes();
    if text.len() > 10_000 {
        return false;
    }
    match read_x86(alloc, text) {
        Ok(case) => is_case(&case, row),
        Err(_) => false,
    }
}

#[test]
fn a_listing_is_read_to_its_case(rt: HostRuntime) {
    for row in CASES {
        assert!(rt; is_read(rt.alloc(), *row), "{}", row.0);
    }
}

/// How many micro-ops and cores the case of the listing has, or None where it has a fault.
fn counts(alloc: Global, listing: &str) -> Option<(usize, usize)> {
    let text = listing.as_bytes();
    if text.len() > 10_000 {
        return None;
    }
    match read_x86(alloc, text) {
        Ok(case) => Some((case.ops(), case.cores())),
        Err(_) => None,
    }
}

/// A listing of 64 columns with an instruction in each.
fn diagonal(alloc: Global) -> Result<String, Memory> {
    let mut listing = String::new(alloc);
    listing.push_str("X86 wide\n{}\nP0")?;
    for k in 1..64u64 {
        listing.push_str(&format!(in alloc; "|P{k}")?)?;
    }
    listing.push_str(";\nMFENCE")?;
    for _ in 1..64u64 {
        listing.push_str("|MFENCE")?;
    }
    listing.push_str(";\nexists x=0\n")?;
    Ok(listing)
}

fn has_64(alloc: Global) -> Result<bool, Memory> {
    let listing = diagonal(alloc)?;
    Ok(counts(alloc, &listing) == Some((64, 64)))
}

#[test]
fn there_may_be_64_columns_and_64_instructions(rt: HostRuntime) -> Result<(), Fail> {
    assert!(rt; has_64(rt.alloc())?);
    Ok(())
}
