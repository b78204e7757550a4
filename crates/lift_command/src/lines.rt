ghost use Rattle.std.specs.Prelude.{◌≡◌, ◌++◌, All, codes, map, OnOk};
ghost use Rattle.std.specs.Fmt.{decimal};
ghost use Rattle.lifted_facts.specs.Lifted.{derive};
ghost use Rattle.lifted_check.specs.StepLines.{value_text, numbers_of, IsSmall, IsValue, HasValue};
ghost use Rattle.lifter.specs.WrittenSteps.{plain_line};
ghost use Rattle.lift_command.specs.WrittenLines.{line_of, line_text, spaced_words, HasSmallCore};

use super::words::{put, put_decimal, put_number, put_numbers};
use lifted_facts::{Instance, Way};
use lifter::Line;
use pc_case::Case;
use pc_common::Memory;

/// Puts a value: the name g.n of a micro-op, or a core's number.
fn put_value(text: &mut Vec<u8>, case: &Case, value: Instance) -> Result<(), Memory>
    requires { IsValue case.now.ops value }
    ensures { OnOk result (text.new.items ≡ text.old.items ++ value_text case.now.ops value) }
{
    match value {
        Instance::Op(place) => {
            let id = case.op(place as usize).id;
            put_decimal(text, id.g)?;
            put(text, b".")?;
            put_decimal(text, id.n)
        }
        Instance::Core(core) => put_decimal(text, core),
    }
}

/// Puts a keyword and a number after a space.
fn put_one(text: &mut Vec<u8>, keyword: &[u8], number: u64) -> Result<(), Memory>
    ensures { OnOk result (text.new.items ≡ text.old.items ++ (keyword.now ++ (codes " " ++ decimal number))) }
{
    put(text, keyword)?;
    put_number(text, number)
}

/// Puts a keyword and numbers, each after a space.
fn put_many(text: &mut Vec<u8>, keyword: &[u8], first: u64, more: &[u64]) -> Result<(), Memory>
    ensures { OnOk result (text.new.items
        ≡ text.old.items ++ (keyword.now ++ ((codes " " ++ decimal first) ++ spaced_words (map decimal more.now)))) }
{
    put_one(text, keyword, first)?;
    put_numbers(text, more)
}

/// Puts the line of a step that adds a part, without its LF.
fn put_derive(text: &mut Vec<u8>, case: &Case, way: Way, number: u64) -> Result<(), Memory>
    requires { HasValue case.now.ops (derive way number) }
    ensures { OnOk result (text.new.items ≡ text.old.items ++ line_of case.now.ops (derive way number)) }
{
    match way {
        Way::Left => put_one(text, b"left", number),
        Way::Right => put_one(text, b"right", number),
        Way::Not => put_one(text, b"not", number),
        Way::Bind => put_one(text, b"bind", number),
        Way::Inst(value) => {
            put_one(text, b"inst", number)?;
            put(text, b" ")?;
            put_value(text, case, value)
        }
        Way::Member(place) => {
            put_one(text, b"member", number)?;
            put_number(text, place)
        }
    }
}

/// Puts the line of a step, without its LF.
fn put_step(text: &mut Vec<u8>, case: &Case, line: &Line) -> Result<(), Memory>
    requires { HasValue case.now.ops (plain_line line.now) }
    ensures { OnOk result (text.new.items ≡ text.old.items ++ line_of case.now.ops (plain_line line.now)) }
{
    match line {
        Line::Derive(way, number) => put_derive(text, case, *way, *number),
        Line::Split(number) => put_one(text, b"split", *number),
        Line::False(number) => put_one(text, b"false", *number),
        Line::Cycle(first, more) => put_many(text, b"cycle", *first, more.as_slice()),
        Line::Path(first, more, denial) => {
            put_many(text, b"path", *first, more.as_slice())?;
            put_number(text, *denial)
        }
        Line::Absent(denial, number) => {
            put_one(text, b"absent", *denial)?;
            put_number(text, *number)
        }
    }
}

/// Puts the line of a step, with its LF.
pub(crate) fn put_line(text: &mut Vec<u8>, case: &Case, line: &Line) -> Result<(), Memory>
    requires { HasValue case.now.ops (plain_line line.now) }
    ensures { OnOk result (text.new.items ≡ text.old.items ++ line_text case.now.ops (plain_line line.now)) }
{
    put_step(text, case, line)?;
    put(text, b"\n")
}

/// Does nothing. It shows that each number of a list is of 64 bits.
fn show_numbers(numbers: &[u64])
    ensures { All IsSmall numbers.now }
{
    let _numbers = numbers;
}

/// Does nothing. It shows that the numbers of a step that adds a part are of 64 bits.
fn show_derive(way: Way, number: u64)
    ensures numbers { All IsSmall (numbers_of (derive way number)) }
    ensures core { HasSmallCore (derive way number) }
{
    match way {
        Way::Left => {}
        Way::Right => {}
        Way::Not => {}
        Way::Bind => {}
        Way::Inst(Instance::Op(_)) => {}
        Way::Inst(Instance::Core(_)) => {}
        Way::Member(_) => {}
    }
}

/// Does nothing. It shows that each number of a step is of 64 bits.
pub(crate) fn show_line(line: &Line)
    ensures numbers { All IsSmall (numbers_of (plain_line line.now)) }
    ensures core { HasSmallCore (plain_line line.now) }
{
    match line {
        Line::Derive(way, number) => show_derive(*way, *number),
        Line::Split(number) => {
            let _number = *number;
        }
        Line::False(number) => {
            let _number = *number;
        }
        Line::Cycle(first, more) => {
            let _first = *first;
            show_numbers(more.as_slice());
        }
        Line::Path(first, more, denial) => {
            let _first = *first;
            let _denial = *denial;
            show_numbers(more.as_slice());
        }
        Line::Absent(denial, number) => {
            let _denial = *denial;
            let _number = *number;
        }
    }
}
