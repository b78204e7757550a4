// The second pass over the tokens of a listing: it takes them to be one, and gives what they say in the order of the
// text.
ghost use Rattle.std.specs.Prelude.{◌≡◌, ◌<◌, ◌^◌, Some};
ghost use Rattle.pc_common.specs.Names.{same_name};
ghost use Rattle.uspec_lexer.specs.View.{plain};
ghost use Rattle.x86_litmus.specs.Spots.{after, after_name, after_word, after_number, after_symbol, after_row_symbol, column_of};
ghost use Rattle.x86_litmus.specs.Plain.{plain_named, plain_spot};
ghost use Rattle.x86_litmus.specs.Steps.{IsStep};

use super::item::{Action, Instruction, Item, Named, ThreadNumber};
use pc_common::Place;
use uspec_lexer::{Token, TokenKind};

/// Where a reader of a listing's tokens stands.
#[derive(Clone, Copy)]
pub(crate) enum Spot<'a> {
    /// In the block, before a location.
    Block,
    /// Behind a location of the block.
    Valued(Named<'a>),
    /// Between the columns' names.
    Head,
    /// In the column of this number, before an instruction or after it.
    Row(u64),
    /// Behind `MOV`, which stands at this place.
    Moving(u64, Place),
    /// Behind the bracket of a store.
    Storing(u64, Place),
    /// Behind its location.
    Stored(u64, Place, Named<'a>),
    /// Behind the register of a load.
    Loading(u64, Place, Named<'a>),
    /// In the condition, before an equation.
    Asking,
    /// Behind a thread's number.
    Thread(ThreadNumber),
    /// Behind its register.
    Register(ThreadNumber, Named<'a>),
    /// Behind a location of the condition.
    Behind(Named<'a>),
}

/// Where the reader stands after a token, and what it says there.
pub(crate) type Next<'a> = (Spot<'a>, Option<Item<'a>>);

fn is(piece: &[u8], bytes: &[u8]) -> bool
    ensures { result ≡ same_name piece.now bytes.now }
{
    piece == bytes
}

fn instruction_item<'a>(thread: u64, at: Place, action: Action<'a>) -> Option<Item<'a>>
    ensures { result ≡ Some (Item.Instructed (record { thread = thread; at = at; action = action.entry })) }
{
    Some(Item::Instructed(Instruction { thread, at, action }))
}

/// Behind a name in a line: a word of an instruction, or `exists`.
fn row_word_step<'a>(column: u64, name: Named<'a>) -> Next<'a>
    ensures { IsStep (after_word column (plain_named name.entry)) result }
{
    if is(name.word, b"MOV") {
        (Spot::Moving(column, name.at), None)
    } else if is(name.word, b"MFENCE") {
        (
            Spot::Row(column),
            instruction_item(column, name.at, Action::Fence),
        )
    } else {
        (Spot::Asking, None)
    }
}

fn row_sign_step<'a>(column: u64, piece: &[u8], at: Place) -> Next<'a>
    requires { column < 2 ^ 63 }
    ensures { IsStep (after_row_symbol column piece.now at.offset) result }
{
    if is(piece, b"|") {
        (Spot::Row(column + 1), None)
    } else if is(piece, b";") {
        (Spot::Row(0), Some(Item::RowEnded(column + 1, at)))
    } else if is(piece, b"~") {
        (Spot::Row(column), Some(Item::Denied))
    } else {
        (Spot::Row(column), None)
    }
}

impl<'a> Spot<'a> {
    fn name_step(self, name: Named<'a>) -> Next<'a>
        ensures { IsStep (after_name (plain_spot self.entry) (plain_named name.entry)) result }
    {
        match self {
            Spot::Block => (Spot::Valued(name), None),
            Spot::Head => (Spot::Head, Some(Item::Column(name))),
            Spot::Row(column) => row_word_step(column, name),
            Spot::Moving(column, at) => (Spot::Loading(column, at, name), None),
            Spot::Storing(column, at) => (Spot::Stored(column, at, name), None),
            Spot::Loading(column, at, register) => (
                Spot::Row(column),
                instruction_item(
                    column,
                    at,
                    Action::Load {
                        register,
                        location: name,
                    },
                ),
            ),
            Spot::Asking => (Spot::Behind(name), None),
            Spot::Thread(thread) => (Spot::Register(thread, name), None),
            spot => (spot, None),
        }
    }

    fn number_step(self, value: u64, at: Place) -> Next<'a>
        ensures { IsStep (after_number (plain_spot self.entry) value at.offset) result }
    {
        match self {
            Spot::Valued(name) => (Spot::Block, Some(Item::Initial(name, value))),
            Spot::Stored(column, word, location) => (
                Spot::Row(column),
                instruction_item(column, word, Action::Store { location, value }),
            ),
            Spot::Asking => (Spot::Thread(ThreadNumber { number: value, at }), None),
            Spot::Register(thread, register) => (
                Spot::Asking,
                Some(Item::RegisterIs(thread, register, value)),
            ),
            Spot::Behind(name) => (Spot::Asking, Some(Item::Final(name, value))),
            spot => (spot, None),
        }
    }

    fn symbol_step(self, piece: &[u8], at: Place) -> Next<'a>
        requires { column_of (plain_spot self) < 2 ^ 63 }
        ensures { IsStep (after_symbol (plain_spot self.entry) piece.now at.offset) result }
    {
        match self {
            Spot::Block if is(piece, b"}") => (Spot::Head, None),
            Spot::Head if is(piece, b";") => (Spot::Row(0), None),
            Spot::Row(column) => row_sign_step(column, piece, at),
            Spot::Moving(column, word) => (Spot::Storing(column, word), None),
            spot => (spot, None),
        }
    }

    /// The spot after this token, and what the listing says there.
    pub(crate) fn step(self, token: Token<'a>) -> Next<'a>
        requires { column_of (plain_spot self) < 2 ^ 63 }
        ensures { IsStep (after (plain_spot self.entry) (plain token.entry)) result }
    {
        let at = token.at;
        match token.kind {
            TokenKind::Name => self.name_step(Named {
                word: token.piece,
                at,
            }),
            TokenKind::Number(value) => self.number_step(value, at),
            TokenKind::Text => (self, None),
            TokenKind::Symbol => self.symbol_step(token.piece, at),
        }
    }
}
