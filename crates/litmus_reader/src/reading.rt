ghost use Rattle.std.specs.Prelude.{◌≡◌, ℕ, ◌+◌, ◌<◌, ◌≤◌, ◌^◌, ◌↔◌, IsTrue, List, Some, length, slice_get, IfOk};
ghost use Rattle.uspec_lexer.specs.Token.{Token as TokenText};
ghost use Rattle.litmus_reader.specs.Terminals.{terminal_of};
ghost use Rattle.pc_case.specs.declared.address.Page.{Page as PagePair};
ghost use Rattle.uspec_lexer.specs.Expected.{a_word, a_number};
ghost use Rattle.litmus_reader.specs.Expected.{number_at as numeral_expected};
ghost use Rattle.litmus_reader.specs.Syntax.{spelled_address, spelled_value, spelled_stated, spelled_touch, spelled_head, spelled_statement, spelled_item};
ghost use Rattle.litmus_reader.specs.Reading.{StandsAt, IsNumberAt, IsPageAt, IsEndAt, IsNameAt, BeginsAt, NamesAt, SomeAt, IsReadAt, SomeEntryAt, IsEntryAt};
ghost use Rattle.litmus_reader.specs.Reading.{SomeActionAt, IsActionAt, SomeAccessAt, IsAccessAt, IsValueLineAt, spelled_microop, spelled_relationship};
ghost use Rattle.litmus_reader.specs.declared.item.Head.{Head as HeadNumbers};
ghost use Rattle.litmus_reader.specs.declared.item.End.{End as EndNumbers};
ghost use Rattle.litmus_reader.specs.declared.item.Relationship.{Relationship as RelationshipText};
ghost use Rattle.litmus_reader.specs.declared.item.ValueLine.{ValueLine as ValueLineText};
ghost use Rattle.litmus_reader.specs.declared.item.Numeral.{Numeral as NumeralPair};

use super::item::{
    Action, End, Head, Item, Microop, Numeral, Relationship, Touch, ValueLine, ValueText,
};
use super::terminal::Terminal;
use pc_case::{Address, Page, TypeNames};
use pc_common::{Bytes, Listed, Memory, Place};
use std::alloc::Global;
use uspec_lexer::{FromToken, TokenKind, Tokens};

/// The number that stands at `k`.
pub(crate) fn numeral_at(tokens: &Tokens<'_>, k: usize) -> Numeral
    requires { IsNumberAt tokens.now k }
    ensures numeral { (n : NumeralPair) → StandsAt tokens.now k (numeral_expected n) → result ≡ n }
    ensures value { (v : ℕ) → StandsAt tokens.now k (a_number v) → result.value ≡ v }
{
    let token = tokens.get(k);
    match token.kind {
        TokenKind::Number(value) => Numeral {
            value,
            at: token.at,
        },
        TokenKind::Name | TokenKind::Text | TokenKind::Symbol => unreachable!(),
    }
}

/// The name that stands at `k`.
pub(crate) fn name_at(alloc: Global, tokens: &Tokens<'_>, k: usize) -> Result<Bytes, Memory>
    requires { k < length tokens.now }
    ensures { IfOk result (λ r. (w : List ℕ) → StandsAt tokens.now k (a_word w) → r ≡ w) }
{
    let token = tokens.get(k);
    Ok(Listed::from_vec(token.piece.to_vec(alloc)?))
}

/// The page whose bracket opens at `k`.
pub(crate) fn page_at(tokens: &Tokens<'_>, k: usize) -> Page
    requires page { (p : PagePair) × IsPageAt tokens.now k p }
    requires within { k + 4 < length tokens.now }
    requires few { length tokens.now < 2 ^ 63 }
    ensures { (p : PagePair) → IsPageAt tokens.now k p → result ≡ p }
{
    Page {
        tag: numeral_at(tokens, k + 2).value,
        index: numeral_at(tokens, k + 3).value,
    }
}

fn is_name_at(tokens: &Tokens<'_>, k: usize) -> bool
    requires { k < length tokens.now }
    ensures { IsTrue result ↔ IsNameAt tokens.now k }
{
    matches!(tokens.get(k).kind, TokenKind::Name)
}

/// The names that stand from `k` on, and the place after them.
pub(crate) fn names_at(
    alloc: Global,
    tokens: &Tokens<'_>,
    k: usize,
) -> Result<(TypeNames, usize), Memory>
    requires { k ≤ length tokens.now }
    ensures names { IfOk result (λ r. (names : List (List ℕ)) → NamesAt tokens.now k names
        → (r.0 ≡ names) × (r.1 ≡ k + length names)) }
    ensures within { IfOk result (λ r. r.1 ≤ length tokens.now) }
{
    let mut names = TypeNames::new(alloc);
    let mut next = k;
    while next < tokens.len() && is_name_at(tokens, next) {
        names.push(tokens.get(next).piece)?;
        next += 1;
    }
    Ok((names, next))
}

/// The class of the token at `k`.
fn terminal_at(tokens: &Tokens<'_>, k: usize) -> Terminal
    requires { k < length tokens.now }
    ensures { (t : TokenText) → slice_get tokens.now k ≡ Some t → result ≡ terminal_of t }
{
    Terminal::from_token(tokens.get(k))
}

/// The physical address whose bracket opens at `k`, and the place after it.
fn address_at(tokens: &Tokens<'_>, k: usize) -> (Address, usize)
    requires begins { SomeAt spelled_address tokens.now k }
    requires few { length tokens.now < 2 ^ 63 }
    ensures { IsReadAt spelled_address tokens.now k result.0 result.1 }
{
    match terminal_at(tokens, k + 1) {
        Terminal::Pa => {
            let page = page_at(tokens, k);
            let address = Address::Page {
                tag: page.tag,
                index: page.index,
            };
            (address, k + 5)
        }
        Terminal::Entry => {
            let tag = numeral_at(tokens, k + 2).value;
            (Address::Entry { tag }, k + 4)
        }
        _ => unreachable!(),
    }
}

/// The page-table entry whose bracket opens at `k`.
fn entry_at(tokens: &Tokens<'_>, k: usize) -> ValueText
    requires begins { SomeEntryAt tokens.now k }
    requires within { k + 6 ≤ length tokens.now }
    requires few { length tokens.now < 2 ^ 63 }
    ensures { IsEntryAt tokens.now k result }
{
    ValueText::Entry {
        tag: numeral_at(tokens, k + 2).value,
        accessed: numeral_at(tokens, k + 3),
        dirty: numeral_at(tokens, k + 4),
    }
}

/// The value whose bracket opens at `k`, and the place after it.
fn value_at(tokens: &Tokens<'_>, k: usize) -> (ValueText, usize)
    requires begins { SomeAt spelled_value tokens.now k }
    requires few { length tokens.now < 2 ^ 63 }
    ensures { IsReadAt spelled_value tokens.now k result.0 result.1 }
{
    match terminal_at(tokens, k + 1) {
        Terminal::Data => (ValueText::Number(numeral_at(tokens, k + 2).value), k + 4),
        Terminal::Maps => (entry_at(tokens, k), k + 6),
        _ => unreachable!(),
    }
}

/// The value that a line states from `k` on, and the place after it.
fn stated_at(tokens: &Tokens<'_>, k: usize) -> (ValueText, usize)
    requires begins { SomeAt spelled_stated tokens.now k }
    requires few { length tokens.now < 2 ^ 63 }
    ensures { IsReadAt spelled_stated tokens.now k result.0 result.1 }
{
    match terminal_at(tokens, k) {
        Terminal::Number => (ValueText::Number(numeral_at(tokens, k).value), k + 1),
        Terminal::Open => (entry_at(tokens, k), k + 6),
        _ => unreachable!(),
    }
}

/// What a read or a write touches, where its first bracket opens at `k`, and the place after it.
fn touch_at(tokens: &Tokens<'_>, k: usize) -> (Touch, usize)
    requires begins { SomeAt spelled_touch tokens.now k }
    requires few { length tokens.now < 2 ^ 63 }
    ensures { IsReadAt spelled_touch tokens.now k result.0 result.1 }
{
    let va = page_at(tokens, k);
    let (pa, next) = address_at(tokens, k + 5);
    let (value, next) = value_at(tokens, next);
    (Touch { va, pa, value }, next)
}

/// What a `Microop` line that begins at `k` says before its brackets.
fn head_at(tokens: &Tokens<'_>, k: usize) -> Head
    requires begins { (h : HeadNumbers) × BeginsAt tokens.now k (spelled_head h) }
    requires within { k + 5 ≤ length tokens.now }
    requires few { length tokens.now < 2 ^ 63 }
    ensures { (h : HeadNumbers) → BeginsAt tokens.now k (spelled_head h) → result ≡ h }
{
    Head {
        at: tokens.get(k).at,
        g: numeral_at(tokens, k + 1),
        core: numeral_at(tokens, k + 2),
        thread: numeral_at(tokens, k + 3),
        n: numeral_at(tokens, k + 4).value,
    }
}

/// What a micro-op of this word does, where the bracket of what it touches opens at `next`, and the
/// place after it.
fn action_at(tokens: &Tokens<'_>, word: Terminal, next: usize) -> (Action, usize)
    requires begins { SomeActionAt tokens.now word next }
    requires few { length tokens.now < 2 ^ 63 }
    ensures { IsActionAt tokens.now word next result.0 result.1 }
{
    match word {
        Terminal::Fence => (Action::Fence, next),
        Terminal::Read => {
            let (touch, next) = touch_at(tokens, next);
            (Action::Read(touch), next)
        }
        Terminal::Write => {
            let (touch, next) = touch_at(tokens, next);
            (Action::Write(touch), next)
        }
        _ => unreachable!(),
    }
}

/// What stands in the brackets of a `Microop` line from `k` on, and the place after it.
fn access_at(
    alloc: Global,
    tokens: &Tokens<'_>,
    k: usize,
) -> Result<(TypeNames, Action, usize), Memory>
    requires begins { SomeAccessAt tokens.now k }
    requires few { length tokens.now < 2 ^ 63 }
    ensures { IfOk result (λ r. IsAccessAt tokens.now k r.0 r.1 r.2) }
{
    let word = terminal_at(tokens, k);
    let (types, next) = names_at(alloc, tokens, k + 1)?;
    let (action, next) = action_at(tokens, word, next);
    Ok((types, action, next))
}

/// The micro-op whose line begins at `k`, and where the next line begins.
fn microop_at(alloc: Global, tokens: &Tokens<'_>, k: usize) -> Result<(Microop, usize), Memory>
    requires begins { SomeAt spelled_microop tokens.now k }
    requires few { length tokens.now < 2 ^ 63 }
    ensures { IfOk result (λ r. IsReadAt spelled_microop tokens.now k r.0 r.1) }
{
    let head = head_at(tokens, k);
    let (types, action, next) = access_at(alloc, tokens, k + 6)?;
    Ok((
        Microop {
            head,
            types,
            action,
        },
        next + 2,
    ))
}

/// The end of a relationship whose g stands at `k`.
fn end_at(tokens: &Tokens<'_>, k: usize) -> End
    requires end { (e : EndNumbers) × IsEndAt tokens.now k e }
    requires within { k + 1 < length tokens.now }
    requires few { length tokens.now < 2 ^ 63 }
    ensures { (e : EndNumbers) → IsEndAt tokens.now k e → result ≡ e }
{
    End {
        g: numeral_at(tokens, k),
        n: numeral_at(tokens, k + 1).value,
    }
}

/// The relationship whose line begins at `k`.
fn relationship_at(alloc: Global, tokens: &Tokens<'_>, k: usize) -> Result<Relationship, Memory>
    requires begins { SomeAt spelled_relationship tokens.now k }
    requires within { k + 8 ≤ length tokens.now }
    requires few { length tokens.now < 2 ^ 63 }
    ensures { IfOk result (λ r. (s : RelationshipText) → BeginsAt tokens.now k (spelled_relationship s) → r ≡ s) }
{
    Ok(Relationship {
        kind: name_at(alloc, tokens, k + 1)?,
        source: end_at(tokens, k + 2),
        target: end_at(tokens, k + 5),
    })
}

/// The address and the value that an `Init` or a `Final` line states, whose word stands at this place
/// and `k` after it, and where the next line begins.
fn value_line_at(tokens: &Tokens<'_>, at: Place, k: usize) -> (ValueLine, usize)
    requires begins { (v : ValueLineText) × BeginsAt tokens.now k (spelled_statement v) }
    requires few { length tokens.now < 2 ^ 63 }
    ensures { IsValueLineAt tokens.now at k result.0 result.1 }
{
    let (pa, next) = address_at(tokens, k);
    let (value, next) = stated_at(tokens, next);
    (ValueLine { at, pa, value }, next + 1)
}

/// The line that begins at `k`, and where the next one begins.
pub(crate) fn item_at(alloc: Global, tokens: &Tokens<'_>, k: usize) -> Result<(Item, usize), Memory>
    requires begins { SomeAt spelled_item tokens.now k }
    requires few { length tokens.now < 2 ^ 63 }
    ensures { IfOk result (λ r. IsReadAt spelled_item tokens.now k r.0 r.1) }
{
    let word = tokens.get(k);
    Ok(match Terminal::from_token(word) {
        Terminal::Microop => {
            let (microop, next) = microop_at(alloc, tokens, k)?;
            (Item::Microop(microop), next)
        }
        Terminal::Relationship => (
            Item::Relationship(relationship_at(alloc, tokens, k)?),
            k + 8,
        ),
        Terminal::Init => {
            let (line, next) = value_line_at(tokens, word.at, k + 1);
            (Item::Initial(line), next)
        }
        Terminal::Final => {
            let (line, next) = value_line_at(tokens, word.at, k + 1);
            (Item::Final(line), next)
        }
        Terminal::Permitted => (Item::Permitted(word.at), k + 2),
        Terminal::Forbidden => (Item::Forbidden(word.at), k + 2),
        _ => unreachable!(),
    })
}
