//! The recogniser over a small grammar: lists in brackets, parted by semicolons, with at most two
//! brackets open at once.
//!
//!     items = [ item more ]     more = [ ";" item more ]     item = "x" | "[" items "]"
ghost use Rattle.std.specs.Prelude.{◌≡◌, ◌+◌, ℕ, Bool, true, false, nat_le, List, [], ◌∷◌, Option, Some, None, refl};
ghost use Rattle.language_tests.specs.declared.parsers.brackets.Bracket.{Bracket};
ghost use Rattle.language_tests.specs.declared.parsers.brackets.Bracket.TheVariants.{Open, Close, Semicolon, Word};
ghost use Rattle.language_tests.specs.declared.parsers.brackets.Phrase.{Phrase};
ghost use Rattle.language_tests.specs.declared.parsers.brackets.Phrase.TheVariants.{Items, More, Item};
ghost use Rattle.ll_grammar.specs.declared.grammar.Symbol.{Symbol};
ghost use Rattle.ll_grammar.specs.declared.grammar.Symbol.TheVariants.{Terminal as a_terminal, Nonterminal as a_nonterminal};
ghost use Rattle.ll_grammar.specs.LawsOfTables.{predictable_by, texts_by, is_predictable_part, is_ranked_part};

use ll_grammar::{
    Fault, Grammar, Prediction, Symbol, TokenClass, first_fault, one_answer, push_body,
    some_answer, viable_prefixes,
};
use pc_common::Memory;
use std::alloc::Global;

#[derive(Clone, Copy, PartialEq, Eq)]
enum Bracket {
    Open,
    Close,
    Semicolon,
    Word,
}

impl TokenClass for Bracket {
    fn is_same(self, other: Self) -> bool {
        self == other
    }
}

/// Each with the number of brackets that are open round it.
#[derive(Clone, Copy)]
enum Phrase {
    Items(u8),
    More(u8),
    Item(u8),
}

impl Grammar<Bracket> for Phrase {
    ghost rules = { record {
      production = λ (n : Phrase) (c : Bracket). elim n as (λ _. Option (List (Symbol Bracket Phrase))) [
        | Items d ↦ elim c as (λ _. Option (List (Symbol Bracket Phrase))) [
          | Open ↦ Some (a_nonterminal (Items (d + 1)) ∷ a_terminal Close ∷ a_nonterminal (More d) ∷ [])
          | Word ↦ Some (a_nonterminal (More d) ∷ [])
          | _ ↦ None
        ]
        | More d ↦ elim c as (λ _. Option (List (Symbol Bracket Phrase))) [
          | Semicolon ↦ Some (a_nonterminal (Item d) ∷ a_nonterminal (More d) ∷ [])
          | _ ↦ None
        ]
        | Item d ↦ elim c as (λ _. Option (List (Symbol Bracket Phrase))) [
          | Open ↦ Some (a_nonterminal (Items (d + 1)) ∷ a_terminal Close ∷ [])
          | Word ↦ Some []
          | _ ↦ None
        ]
      ];
      is_nullable = λ (n : Phrase). elim n as (λ _. Bool) [ Item d ↦ false | _ ↦ true ];
      deep = λ (n : Phrase) (c : Bracket). elim n as (λ _. Bool) [
        | Items d ↦ elim c as (λ _. Bool) [ Open ↦ nat_le 2 d | _ ↦ false ]
        | More d ↦ false
        | Item d ↦ elim c as (λ _. Bool) [ Open ↦ nat_le 2 d | _ ↦ false ]
      ];
    } };

    ghost follow = { λ (n : Phrase) (c : Bracket). elim c as (λ _. Bool) [
      | Close ↦ true
      | Semicolon ↦ elim n as (λ _. Bool) [ Item d ↦ true | _ ↦ false ]
      | _ ↦ false
    ] };

    ghost predictable = { predictable_by Self.rules Self.follow (Open ∷ Close ∷ Semicolon ∷ Word ∷ [])
        (λ (c : Bracket). elim c as (λ _. ℕ) [ Open ↦ 0 | Close ↦ 1 | Semicolon ↦ 2 | Word ↦ 3 ])
        (elim [ Open ↦ refl | Close ↦ refl | Semicolon ↦ refl | Word ↦ refl ])
        (elim [ Items d ↦ refl | More d ↦ refl | Item d ↦ refl ]) };

    ghost has_texts = { texts_by Self.rules (λ (n : Phrase). Word) (λ (n : Phrase). 0)
        (elim [ Items d ↦ refl | More d ↦ refl | Item d ↦ refl ]) };

    fn is_nullable(self) -> bool {
        match self {
            Phrase::Items(_) | Phrase::More(_) => true,
            Phrase::Item(_) => false,
        }
    }

    fn push(
        self,
        class: Bracket,
        stack: &mut Vec<Symbol<Bracket, Phrase>>,
    ) -> Result<Prediction, Memory> {
        match self {
            Phrase::Items(open) => match class {
                Bracket::Open => {
                    if open >= 2 {
                        return Ok(Prediction::Deep);
                    }
                    push_body(
                        stack,
                        &[
                            Symbol::Nonterminal(Phrase::Items(open + 1)),
                            Symbol::Terminal(Bracket::Close),
                            Symbol::Nonterminal(Phrase::More(open)),
                        ],
                    )
                }
                Bracket::Word => push_body(stack, &[Symbol::Nonterminal(Phrase::More(open))]),
                _ => Ok(Prediction::Absent),
            },
            Phrase::More(open) => match class {
                Bracket::Semicolon => push_body(
                    stack,
                    &[
                        Symbol::Nonterminal(Phrase::Item(open)),
                        Symbol::Nonterminal(Phrase::More(open)),
                    ],
                ),
                _ => Ok(Prediction::Absent),
            },
            Phrase::Item(open) => match class {
                Bracket::Open => {
                    if open >= 2 {
                        return Ok(Prediction::Deep);
                    }
                    push_body(
                        stack,
                        &[
                            Symbol::Nonterminal(Phrase::Items(open + 1)),
                            Symbol::Terminal(Bracket::Close),
                        ],
                    )
                }
                Bracket::Word => push_body(stack, &[]),
                _ => Ok(Prediction::Absent),
            },
        }
    }
}

fn fault(alloc: Global, text: &[u8]) -> Result<Option<Fault>, Memory> {
    let mut classes = Vec::new(alloc);
    for byte in text {
        classes.push(match *byte {
            b'[' => Bracket::Open,
            b']' => Bracket::Close,
            b';' => Bracket::Semicolon,
            _ => Bracket::Word,
        })?;
    }
    first_fault(alloc, Phrase::Items(0), &classes)
}

/// A text, and its first fault.
const ROWS: &[(&'static [u8], Option<Fault>)] = &[
    (b"", None),
    (b"x", None),
    (b"x;[];[x;[x]]", None),
    // the first token that no text goes on with
    (b";", Some(Fault::Syntax(0))),
    (b"xx", Some(Fault::Syntax(1))),
    (b"x;]", Some(Fault::Syntax(2))),
    (b"[x]]", Some(Fault::Syntax(3))),
    // the end counts as a token
    (b"x;", Some(Fault::Syntax(2))),
    (b"[x;[]", Some(Fault::Syntax(5))),
    // the third open bracket is too deep
    (b"[[[", Some(Fault::Depth(2))),
    (b"[[];[[x]]]", Some(Fault::Depth(5))),
    // of two faults the earlier one
    (b"[[x[", Some(Fault::Syntax(3))),
    (b"[[[;;", Some(Fault::Depth(2))),
];

#[test]
fn a_text_has_its_first_fault_or_none(rt: HostRuntime) {
    for (text, want) in ROWS {
        assert!(rt; fault(rt.alloc(), text) == Ok(*want), "{text:?}");
    }
}

/// A law does nothing, and can be called by anyone who wants what it says.
#[test]
fn each_law_can_be_called(_rt: HostRuntime) {
    viable_prefixes(Phrase::Items(0), &[Bracket::Open]);
    some_answer(Phrase::Items(0), &[Bracket::Open]);
    one_answer(Phrase::Items(0), &[Bracket::Open]);
}
