// Laws of the definitions in specs/. Each function does nothing: its contract is the law.
ghost use Rattle.uspec_lexer.specs.Laws.{HasTokensOrFault, HasOneList, HasOneFault, TokensExcludeFault, ArePieces, AreInOrder, AreFew};

use super::grammar::LexicalGrammar;

/// From a place within them on, bytes spell tokens or have a lexical fault.
pub fn tokens_or_fault<L: LexicalGrammar>(bytes: &[u8], from: usize)
    ensures { HasTokensOrFault L.table bytes.now from }
{}

/// Bytes spell one list of tokens at most.
pub fn one_list<L: LexicalGrammar>(bytes: &[u8], from: usize)
    ensures { HasOneList L.table bytes.now from }
{}

/// Bytes have one lexical fault at most.
pub fn one_fault<L: LexicalGrammar>(bytes: &[u8], from: usize)
    ensures { HasOneFault L.table bytes.now from }
{}

/// Bytes that spell tokens have no lexical fault.
pub fn no_fault<L: LexicalGrammar>(bytes: &[u8], from: usize)
    ensures { TokensExcludeFault L.table bytes.now from }
{}

/// Each token that bytes spell is a piece of them, and begins where every earlier one has ended. There
/// are no more of them than bytes.
pub fn tokens_in_order<L: LexicalGrammar>(bytes: &[u8], from: usize)
    ensures pieces { ArePieces L.table bytes.now from }
    ensures order { AreInOrder L.table bytes.now from }
    ensures few { AreFew L.table bytes.now from }
{}
