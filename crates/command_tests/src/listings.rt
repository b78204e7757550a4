//! The commands check86 and verify86, through the top call: what check and verify do, of a listing.
use crate::memory_runs::{Failed, Plan, Run, USAGE};
use example_texts::{
    IN_ORDER, LAST_WRITE, LISTED_AS_FORBIDDEN, LISTED_STORE_BUFFERING, LISTED_WITH_AN_OPEN_LOAD,
    STORE_BUFFER,
};
use pc_common::Status;

const MESSAGE_PASSING: &str = "X86 MP
\"PodWW Rfe PodRR Fre\"
Com=Rf Fr
{
}
 P0         | P1          ;
 MOV [x],$1 | MOV EAX,[y] ;
 MOV [y],$1 | MOV EBX,[x] ;
~exists
(1:EAX=1 /\\ 1:EBX=0)
";

pub(crate) const SAW_NEITHER: &str = "observable
test unstated
node 0.0@0:Exec
node 0.0@0:Mem
node 2.0@1:Exec
node 2.0@1:Mem
node 1.0@0:Exec
node 3.0@1:Exec
edge 0.0@0:Exec 0.0@0:Mem
edge 2.0@1:Exec 2.0@1:Mem
edge 0.0@0:Exec 1.0@0:Exec
edge 2.0@1:Exec 3.0@1:Exec
edge 1.0@0:Exec 2.0@1:Mem
edge 3.0@1:Exec 0.0@0:Mem
end
";

const SAW_NEITHER_FORBIDDEN: &str = "observable
test forbidden: BUG
node 0.0@0:Exec
node 0.0@0:Mem
node 2.0@1:Exec
node 2.0@1:Mem
node 1.0@0:Exec
node 3.0@1:Exec
edge 0.0@0:Exec 0.0@0:Mem
edge 2.0@1:Exec 2.0@1:Mem
edge 0.0@0:Exec 1.0@0:Exec
edge 2.0@1:Exec 3.0@1:Exec
edge 1.0@0:Exec 2.0@1:Mem
edge 3.0@1:Exec 0.0@0:Mem
end
";

const CYCLE: &str = "unobservable
test forbidden: ok
cycle 0.0@0:Mem 1.0@0:Mem 2.0@1:Mem 3.0@1:Mem
end
";

/// A fence of the type of a listing's comes before itself.
const FENCED: &str = "StageName 0 \"S\".
Axiom \"fence\": forall microops \"i\", AccessType MFENCE i => AddEdge ((i, S), (i, S), \"\").
";

/// A model and a listing, and how a check of them ends.
pub(crate) const CHECKS: &[Run<'static>] = &[
    (
        &[STORE_BUFFER, LISTED_STORE_BUFFERING],
        Status::Observable,
        SAW_NEITHER,
    ),
    (
        &[STORE_BUFFER, LISTED_AS_FORBIDDEN],
        Status::Observable,
        SAW_NEITHER_FORBIDDEN,
    ),
    (
        &[STORE_BUFFER, LISTED_WITH_AN_OPEN_LOAD],
        Status::Refused,
        "refused test x86-open at 8:20\n",
    ),
    (&[IN_ORDER, MESSAGE_PASSING], Status::Unobservable, CYCLE),
    // a final value
    (
        &[
            LAST_WRITE,
            "X86 t\n{}\nP0;\nMOV [x],$1;\nMOV [x],$2;\nexists x=2\n",
        ],
        Status::Observable,
        "observable\ntest unstated\nnode 0.0@0:S\nnode 1.0@0:S\nedge 0.0@0:S 1.0@0:S\nend\n",
    ),
    (
        &[
            LAST_WRITE,
            "X86 t\n{}\nP0;\nMOV [x],$1;\nMOV [x],$2;\nexists x=1\n",
        ],
        Status::Unobservable,
        "unobservable\ntest unstated\ncycle 0.0@0:S 1.0@0:S\nend\n",
    ),
    // a fence has its type
    (
        &[FENCED, "X86 t\n{}\nP0;\nMFENCE;\n~exists x=0\n"],
        Status::Unobservable,
        "unobservable\ntest forbidden: ok\ncycle 0.0@0:S\nend\n",
    ),
    (
        &[FENCED, "X86 t\n{}\nP0;\nMOV [x],$1;\n~exists x=0\n"],
        Status::Observable,
        "observable\ntest forbidden: BUG\nend\n",
    ),
    // a test is no listing
    (
        &["", "Litmus \"t\".\n"],
        Status::Refused,
        "refused test syntax at 1:1\n",
    ),
    (
        &["", "X86 t\n{ @ }\n"],
        Status::Refused,
        "refused test lexical at 2:3\n",
    ),
    (
        &["", "X86 t\n{}\nP0;\nforall x=0\n"],
        Status::Refused,
        "refused test syntax at 4:1\n",
    ),
    // each word of a fault of content
    (
        &["", "X86 t\n{ x=1; x=1; }\nP0;\nexists x=0\n"],
        Status::Refused,
        "refused test again-initial at 2:8\n",
    ),
    (
        &["", "X86 t\n{}\nP0;\nexists x=0 /\\ x=0\n"],
        Status::Refused,
        "refused test again-final at 4:15\n",
    ),
    (
        &["", "X86 t\n{}\nP1;\nexists x=0\n"],
        Status::Refused,
        "refused test x86-column at 3:1\n",
    ),
    (
        &[
            "",
            "X86 t\n{}\nP0;\nMOV EAX,[x];\nMOV EAX,[x];\nexists 0:EAX=0\n",
        ],
        Status::Refused,
        "refused test x86-reload at 5:5\n",
    ),
    (
        &["", "X86 t\n{}\nP0;\nexists 0:EAX=0\n"],
        Status::Refused,
        "refused test x86-unloaded at 4:8\n",
    ),
    (
        &[
            "",
            "X86 t\n{}\nP0;\nMOV EAX,[x];\nexists 0:EAX=0 /\\ 0:EAX=0\n",
        ],
        Status::Refused,
        "refused test x86-again at 5:19\n",
    ),
    // the model's fault is named before the listing's
    (
        &["True.", ""],
        Status::Refused,
        "refused model syntax at 1:1\n",
    ),
];

/// A model, a listing and a text, and how a verify of them ends.
pub(crate) const VERIFIES: &[Run<'static>] = &[
    (
        &[STORE_BUFFER, LISTED_STORE_BUFFERING, SAW_NEITHER],
        Status::Observable,
        "verified observable\n",
    ),
    (
        &[IN_ORDER, MESSAGE_PASSING, CYCLE],
        Status::Unobservable,
        "verified unobservable\n",
    ),
    // the second line of the other expectation
    (
        &[STORE_BUFFER, LISTED_STORE_BUFFERING, SAW_NEITHER_FORBIDDEN],
        Status::CertRefused,
        "certificate refused at line 2\n",
    ),
    // the model forbids it
    (
        &[IN_ORDER, LISTED_STORE_BUFFERING, SAW_NEITHER],
        Status::CertRefused,
        "certificate refused at line 15\n",
    ),
    (
        &[STORE_BUFFER, LISTED_WITH_AN_OPEN_LOAD, SAW_NEITHER],
        Status::Refused,
        "refused test x86-open at 8:20\n",
    ),
];

/// Words, which call of the files and of the sink fails, and how the run ends.
pub(crate) const ENDS: &[Failed<'static>] = &[
    // a name that is missing
    ("check86 none listing", &[], &[], Status::ReadFault, ""),
    ("check86 model none", &[], &[], Status::ReadFault, ""),
    ("verify86 model none text", &[], &[], Status::ReadFault, ""),
    (
        "verify86 model listing none",
        &[],
        &[],
        Status::ReadFault,
        "",
    ),
    // a fault of the two is named before the third file is come to
    (
        "verify86 model bad none",
        &[],
        &[],
        Status::Refused,
        "refused test syntax at 1:1\n",
    ),
    // the start of the listing, and that of the text
    ("check86 model listing", &[4], &[], Status::ReadFault, ""),
    (
        "verify86 model listing text",
        &[7],
        &[],
        Status::ReadFault,
        "",
    ),
    (
        "check86 model listing",
        &[],
        &[2],
        Status::WriteFault,
        "observable\n",
    ),
    (
        "verify86 model listing text",
        &[],
        &[1],
        Status::WriteFault,
        "",
    ),
    // no command, and no file is started
    ("check86 model", &[1], &[], Status::Usage, USAGE),
    (
        "check86 model listing text",
        &[1],
        &[],
        Status::Usage,
        USAGE,
    ),
    ("verify86 model listing", &[1], &[], Status::Usage, USAGE),
    ("check862 model listing", &[1], &[], Status::Usage, USAGE),
    // the other reader
    (
        "check model listing",
        &[],
        &[],
        Status::Refused,
        "refused test lexical at 3:4\n",
    ),
];

/// A model and a listing, and a refutation of them that is verified.
pub(crate) const PLANS: &[Plan<'static>] = &[(
    "verify86 model test certificate",
    &[
        FENCED,
        "X86 t\n{}\nP0;\nMFENCE;\n~exists x=0\n",
        "unobservable\ntest forbidden: ok\ncycle 0.0@0:S\nend\n",
    ],
    (Status::Unobservable, "verified unobservable\n"),
    1,
)];
