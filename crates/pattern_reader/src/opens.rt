ghost use Rattle.std.specs.Prelude.{◌≡◌, ◌<◌, ◌≤◌, ◌^◌, ◌+◌, ◌++◌, length, map, slice_get, IfOk, OnOk};
ghost use Rattle.uspec_lexer.specs.Token.{place_or};
ghost use Rattle.pattern_reader.specs.Opens.{stands as stands_spec, opens_access as opens_access_spec, opens_any as opens_any_spec};
ghost use Rattle.pattern_reader.specs.Opens.{AreSeen, open_at, opens_in as opens_in_spec, plain_open};

use pc_common::{Memory, Place};
use std::alloc::Global;
use uspec_lexer::{Tokens, is_spelled};

/// An open value: where its `Any` stands, and its micro-op, by place in test order.
#[derive(Clone, Copy)]
pub(crate) struct Open {
    pub(crate) at: Place,
    pub(crate) op: usize,
}

/// The micro-ops that open among the tokens so far: how many, and whether the last one is a read.
#[derive(Clone, Copy)]
pub(crate) struct Accesses {
    pub(crate) count: usize,
    pub(crate) reading: bool,
}

/// Whether the token at `k` is spelled so. Past the last token none is.
fn is_spelled_at(tokens: &Tokens<'_>, k: usize, word: &[u8]) -> bool
    ensures { result ≡ stands_spec tokens.now k word.now }
{
    if k < tokens.len() {
        is_spelled(tokens.get(k).piece, word)
    } else {
        false
    }
}

/// Whether the bracket of a micro-op opens at `k`.
#[tactic(auto, unfolding(crate::specs::Opens::opens_access))]
fn opens_access(tokens: &Tokens<'_>, k: usize) -> bool
    requires within { k < length tokens.now }
    requires few { length tokens.now < 2 ^ 63 }
    ensures { result ≡ opens_access_spec tokens.now k }
{
    is_spelled_at(tokens, k, b"(")
        && (is_spelled_at(tokens, k + 1, b"Read")
            || is_spelled_at(tokens, k + 1, b"Write")
            || is_spelled_at(tokens, k + 1, b"Fence"))
}

/// Whether the bracket of an open value opens at `k`.
#[tactic(auto, unfolding(crate::specs::Opens::opens_any))]
fn opens_any(tokens: &Tokens<'_>, k: usize) -> bool
    requires within { k < length tokens.now }
    requires few { length tokens.now < 2 ^ 63 }
    ensures { result ≡ opens_any_spec tokens.now k }
{
    is_spelled_at(tokens, k, b"(")
        && is_spelled_at(tokens, k + 1, b"Data")
        && is_spelled_at(tokens, k + 2, b"Any")
}

/// What was seen of one token more.
#[tactic(auto, using(crate::proofs::Scanning::seen_open, crate::proofs::Scanning::seen_same))]
fn see_more(tokens: &Tokens<'_>, k: usize, seen: Accesses) -> Accesses
    requires within { k < length tokens.now }
    requires few { length tokens.now < 2 ^ 63 }
    requires seen { AreSeen tokens.now k seen }
    ensures { AreSeen tokens.now (k + 1) result }
{
    if opens_access(tokens, k) {
        Accesses {
            count: seen.count + 1,
            reading: is_spelled_at(tokens, k + 1, b"Read"),
        }
    } else {
        seen
    }
}

/// Where the token at `k` begins, or the first byte where there is none.
fn place_of(tokens: &Tokens<'_>, k: usize) -> Place
    ensures { result.offset ≡ place_or 0 (slice_get tokens.now k) }
{
    if k < tokens.len() {
        tokens.get(k).at
    } else {
        Place { offset: 0 }
    }
}

/// Puts the open value at `k` after the others, if there is one.
fn note_open(
    tokens: &Tokens<'_>,
    k: usize,
    seen: Accesses,
    opens: &mut Vec<Open>,
) -> Result<(), Memory>
    requires within { k < length tokens.now }
    requires few { length tokens.now < 2 ^ 63 }
    requires seen { AreSeen tokens.now k seen }
    ensures opens { OnOk result (map plain_open opens.new.items
        ≡ map plain_open opens.old.items ++ open_at tokens.now k) }
    ensures few { OnOk result (length opens.new.items ≤ length opens.old.items + 1) }
{
    if opens_any(tokens, k) && seen.reading {
        opens.push(Open {
            at: place_of(tokens, k + 2),
            op: seen.count.saturating_sub(1),
        })?;
    }
    Ok(())
}

/// The open values among the tokens, in text order.
pub(crate) fn opens_in(alloc: Global, tokens: &Tokens<'_>) -> Result<Vec<Open>, Memory>
    ensures opens { IfOk result (λ opens. map plain_open opens.items ≡ opens_in_spec tokens.now) }
    ensures few { IfOk result (λ opens. length opens.items ≤ length tokens.now) }
{
    let mut opens = Vec::new(alloc);
    let mut seen = Accesses {
        count: 0,
        reading: false,
    };
    for k in 0..tokens.len() {
        note_open(tokens, k, seen, &mut opens)?;
        seen = see_more(tokens, k, seen);
    }
    Ok(opens)
}
