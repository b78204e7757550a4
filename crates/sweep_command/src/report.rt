ghost use Rattle.std.specs.Prelude.{◌≡◌, ◌<◌, ◌++◌, length, codes};
ghost use Rattle.std.specs.Fmt.{decimal};
ghost use Rattle.pc_common.specs.Room.{Puts};
ghost use Rattle.pc_common.specs.Writes.{Writes};
ghost use Rattle.pc_case.specs.Plain.{plain_value};
ghost use Rattle.pattern_reader.specs.Rows.{rows_of};
ghost use Rattle.sweep_command.specs.Texts.{value_text, values_text, verdict_word, row_text, rows_text, swept_text};
ghost use Rattle.sweep_command.specs.Texts.{observables, unobservables, counts_text};

use super::command::Swept;
use itoa::Buffer;
use pattern_reader::Pattern;
use pc_common::{Failed, Room, Sink, Value};

/// Puts a space and a number.
fn put_number<K: Sink>(room: &mut Room<'_, K>, number: u64) -> Result<(), Failed>
    ensures { Puts K.view room.old room.new result (codes " " ++ decimal number) }
{
    let mut digits = Buffer::new();
    room.put_all(&[b" ", digits.format(number).as_bytes()])
}

/// Puts a space and a page-table entry.
fn put_entry<K: Sink>(
    room: &mut Room<'_, K>,
    tag: u64,
    accessed: u64,
    dirty: u64,
) -> Result<(), Failed>
    ensures { Puts K.view room.old room.new result
        (codes " Maps:" ++ decimal tag ++ codes ":" ++ decimal accessed ++ codes ":" ++ decimal dirty) }
{
    let mut tag_digits = Buffer::new();
    let mut accessed_digits = Buffer::new();
    let mut dirty_digits = Buffer::new();
    room.put_all(&[
        b" Maps:",
        tag_digits.format(tag).as_bytes(),
        b":",
        accessed_digits.format(accessed).as_bytes(),
        b":",
        dirty_digits.format(dirty).as_bytes(),
    ])
}

/// Puts a space and a value.
fn put_value<K: Sink>(room: &mut Room<'_, K>, value: Value) -> Result<(), Failed>
    ensures { Puts K.view room.old room.new result (value_text (plain_value value)) }
{
    match value {
        Value::Number(number) => put_number(room, number),
        Value::Entry {
            tag,
            accessed,
            dirty,
        } => put_entry(room, tag, accessed, dirty),
    }
}

/// Puts the values of a row, each after a space.
fn put_values<K: Sink>(room: &mut Room<'_, K>, pattern: &Pattern, row: u32) -> Result<(), Failed>
    requires { row < rows_of pattern.now }
    ensures { Puts K.view room.old room.new result (values_text pattern.now row) }
{
    for k in 0..pattern.opens() {
        put_value(room, pattern.value(row, k))?;
    }
    Ok(())
}

/// The end of a row's line.
fn verdict_end(observable: bool) -> &'static [u8]
    ensures { result.now ≡ verdict_word observable }
{
    if observable {
        b" observable\n"
    } else {
        b" unobservable\n"
    }
}

/// Puts the line of a row.
fn put_row<K: Sink>(room: &mut Room<'_, K>, swept: &Swept, row: u32) -> Result<(), Failed>
    requires row { row < rows_of swept.now.pattern }
    requires count { length swept.now.answers.items ≡ rows_of swept.now.pattern }
    ensures { Puts K.view room.old room.new result (row_text swept.now.pattern swept.now.answers.items row) }
{
    room.put(b"row")?;
    put_values(room, &swept.pattern, row)?;
    room.put(verdict_end(swept.answers[row as usize]))
}

/// Puts the lines of the rows, in order.
fn put_rows<K: Sink>(room: &mut Room<'_, K>, swept: &Swept) -> Result<(), Failed>
    requires { length swept.now.answers.items ≡ rows_of swept.now.pattern }
    ensures { Puts K.view room.old room.new result (rows_text swept.now.pattern swept.now.answers.items) }
{
    for row in 0..swept.pattern.rows() {
        put_row(room, swept, row)?;
    }
    Ok(())
}

/// How many rows are observable.
fn observable_rows(answers: &[bool]) -> usize
    ensures { result ≡ observables answers.now }
{
    answers.iter().filter(|answer| **answer).count()
}

/// How many rows are not.
fn unobservable_rows(answers: &[bool]) -> usize
    ensures { result ≡ unobservables answers.now }
{
    answers.iter().filter(|answer| !**answer).count()
}

/// Puts the line of the number of rows.
fn put_title<K: Sink>(room: &mut Room<'_, K>, rows: u32) -> Result<(), Failed>
    ensures { Puts K.view room.old room.new result (codes "sweep " ++ decimal rows ++ codes "\n") }
{
    let mut digits = Buffer::new();
    room.put_all(&[b"sweep ", digits.format(rows).as_bytes(), b"\n"])
}

/// Puts the last three lines: how many rows are observable, how many are not, and the end.
fn put_counts<K: Sink>(room: &mut Room<'_, K>, answers: &[bool]) -> Result<(), Failed>
    ensures { Puts K.view room.old room.new result (counts_text answers.now) }
{
    let mut observable = Buffer::new();
    let mut unobservable = Buffer::new();
    room.put_all(&[
        b"observable ",
        observable.format(observable_rows(answers)).as_bytes(),
        b"\nunobservable ",
        unobservable.format(unobservable_rows(answers)).as_bytes(),
        b"\nend\n",
    ])
}

/// Puts the text of a sweep.
fn put_sweep<K: Sink>(room: &mut Room<'_, K>, swept: &Swept) -> Result<(), Failed>
    requires { length swept.now.answers.items ≡ rows_of swept.now.pattern }
    ensures { Puts K.view room.old room.new result (swept_text swept.now) }
{
    put_title(room, swept.pattern.rows())?;
    put_rows(room, swept)?;
    put_counts(room, &swept.answers)
}

/// Writes the text of a sweep, in pieces of at most 4,096 bytes: the number of rows, a line for each, and the two
/// counts. Takes no memory.
pub fn write_sweep<K: Sink>(out: &mut K, swept: &Swept) -> Result<(), Failed>
    requires { length swept.now.answers.items ≡ rows_of swept.now.pattern }
    ensures { Writes K.view out.old out.new result (swept_text swept.now) }
{
    let mut room = Room::new(out);
    put_sweep(&mut room, swept)?;
    room.flush()
}
