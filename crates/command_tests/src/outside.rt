//! Files, sinks, rooms in front of sinks, places and statuses.
use crate::memory_runs::{calls, files, hold_files};
use pc_common::{
    Files, MemFiles, MemSink, Memory, Place, ReadEnd, Room, Status, SureFiles, SureSink, line_col,
    read_all, write_all,
};
use std::alloc::Global;
use std::process::Abort;
use std::test::Fail;

/// Two files `a`, of which the first counts, and the empty file `b`.
const FILES: &[(&'static str, &'static str)] = &[("a", "abcde"), ("b", ""), ("a", "second")];

/// The name and the limit, how many bytes a call moves (0: as many as fit), the calls that fail, what
/// the file is read as, and how many calls failed.
const READS: &[(
    &'static str,
    usize,
    usize,
    &'static [u64],
    Result<&'static str, ReadEnd>,
    u64,
)] = &[
    ("a", 5, 0, &[], Ok("abcde"), 0),
    ("a", 6, 0, &[], Ok("abcde"), 0),
    ("a", 4, 0, &[], Err(ReadEnd::TooLarge), 0),
    ("a", 0, 0, &[], Err(ReadEnd::TooLarge), 0),
    ("b", 0, 0, &[], Ok(""), 0),
    // a missing name
    ("c", 5, 0, &[], Err(ReadEnd::ReadFault), 1),
    ("a", 5, 0, &[1], Err(ReadEnd::ReadFault), 1),
    ("a", 5, 0, &[2], Err(ReadEnd::ReadFault), 1),
    // the read that would see the end
    ("a", 5, 0, &[3], Err(ReadEnd::ReadFault), 1),
    ("a", 5, 0, &[4, 9], Ok("abcde"), 0),
    // byte by byte: the start, five bytes, the end
    ("a", 5, 1, &[], Ok("abcde"), 0),
    ("a", 5, 1, &[7], Err(ReadEnd::ReadFault), 1),
    ("a", 5, 1, &[8], Ok("abcde"), 0),
    ("a", 4, 1, &[], Err(ReadEnd::TooLarge), 0),
];

fn files_by(alloc: Global, step: usize, fails: &[u64]) -> Result<MemFiles, Memory> {
    let files = files(alloc, FILES, fails)?;
    Ok(if step > 0 {
        files.with_step(step)
    } else {
        files
    })
}

fn is_read_as<F: Files>(
    alloc: Global,
    files: &mut F,
    (name, limit): (&str, usize),
    end: Result<&str, ReadEnd>,
) -> bool {
    if limit >= 1000 {
        return false;
    }
    match (read_all(alloc, files, name, limit), end) {
        (Ok(found), Ok(text)) => found.as_slice() == text.as_bytes(),
        (Err(found), Err(end)) => found == end,
        _ => false,
    }
}

/// The same over files of its own, of which so many calls then failed.
fn is_read_so(
    alloc: Global,
    (name, limit, step): (&str, usize, usize),
    fails: &[u64],
    end: Result<&str, ReadEnd>,
    faults: u64,
) -> Result<bool, Memory> {
    let mut files = files_by(alloc, step, fails)?;
    let is_end = is_read_as(alloc, &mut files, (name, limit), end);
    Ok(is_end && files.faults() == faults)
}

#[test]
fn a_file_is_read_whole_or_not_at_all(rt: HostRuntime) {
    for (name, limit, step, fails, end, faults) in READS {
        let row = (*name, *limit, *step);
        let is_so = is_read_so(rt.alloc(), row, fails, *end, *faults);
        assert!(rt; is_so.unwrap_or(false), "{name} up to {limit} by {step}");
    }
}

fn are_sure(alloc: Global, files: &mut SureFiles) -> bool {
    // a name that was not given holds no bytes
    is_read_as(alloc, files, ("a", 5), Ok("abcde")) && is_read_as(alloc, files, ("c", 0), Ok(""))
}

#[test]
fn what_is_sure_never_fails(rt: HostRuntime) -> Result<(), Fail> {
    let mut files = SureFiles::new(hold_files(rt.alloc(), FILES)?);
    let is_written = write_all(&mut SureSink::new(), b"abc").is_ok();
    assert!(rt; is_written && are_sure(rt.alloc(), &mut files));
    Ok(())
}

/// The room, how many bytes a call takes, the calls that fail, what is taken of `abc` and then of `de`,
/// and how many calls failed.
const WRITES: &[(usize, usize, &'static [u64], &'static str, u64)] = &[
    (5, 9, &[], "abcde", 0),
    (9, 9, &[], "abcde", 0),
    (5, 1, &[], "abcde", 0),
    (4, 9, &[], "abcd", 1),
    (0, 9, &[], "", 1),
    (5, 9, &[1], "", 1),
    (5, 9, &[2], "abc", 1),
    (5, 1, &[5], "abcd", 1),
];

/// Whether both pieces are written, or the sink fails, as it takes no more than the text.
fn is_taken_as(sink: &mut MemSink, text: &str, faults: u64) -> bool {
    let is_written = write_all(sink, b"abc").is_ok() && write_all(sink, b"de").is_ok();
    is_written == (faults == 0) && sink.taken() == text.as_bytes() && sink.faults() == faults
}

fn sink(alloc: Global, room: usize, step: usize, fails: &[u64]) -> Result<MemSink, Memory> {
    let sink = MemSink::new(alloc, room, calls(alloc, fails)?)?;
    Ok(if step > 0 { sink.with_step(step) } else { sink })
}

/// The same of a sink of this room.
fn is_taken_in(
    alloc: Global,
    (room, step): (usize, usize),
    fails: &[u64],
    text: &str,
    faults: u64,
) -> Result<bool, Memory> {
    let mut sink = sink(alloc, room, step, fails)?;
    Ok(is_taken_as(&mut sink, text, faults))
}

#[test]
fn a_sink_takes_what_its_room_and_its_calls_let_through(rt: HostRuntime) {
    for (room, step, fails, text, faults) in WRITES {
        let is_so = is_taken_in(rt.alloc(), (*room, *step), fails, text, *faults);
        assert!(rt; is_so.unwrap_or(false), "{text} in {room} by {step}");
    }
}

/// The lengths of the pieces that are put into a room, how often it is flushed then, the calls of the sink that
/// fail, how many bytes the sink holds then, and how many calls failed.
const ROOMS: &[(&'static [usize], u8, &'static [u64], usize, u64)] = &[
    // an empty room is flushed without a call
    (&[], 1, &[1], 0, 0),
    // pieces that fill the room wait, also with an empty one after them, and one byte more hands them on
    (&[4000, 96], 0, &[1], 0, 0),
    (&[4096, 0], 0, &[1], 0, 0),
    (&[4000, 96, 1], 0, &[2], 4096, 0),
    (&[4000, 96, 1], 1, &[3], 4097, 0),
    (&[4096], 1, &[2], 4096, 0),
    // a piece that is longer than the room
    (&[4097], 0, &[2], 4096, 0),
    (&[10_000], 0, &[3], 8192, 0),
    (&[10_000], 1, &[4], 10_000, 0),
    // what went out does not go out again
    (&[5], 2, &[2], 5, 0),
    // what a failing call did not take waits on, and of a piece that fails what the room had space for
    (&[5], 1, &[1], 0, 1),
    (&[5], 2, &[1], 5, 1),
    (&[5000], 0, &[1], 0, 1),
    (&[5000], 1, &[1], 4096, 1),
];

/// Puts the next bytes of the text, in pieces of these lengths, and flushes; whether no call failed.
fn is_put(sink: &mut MemSink, text: &[u8], pieces: &[usize], flushes: u8) -> bool {
    let mut room = Room::new(sink);
    let mut rest = text;
    let mut is_put = true;
    for length in pieces {
        let length = rest.len().min(*length);
        is_put = room.put(&rest[..length]).is_ok() && is_put;
        rest = &rest[length..];
    }
    for _ in 0..flushes {
        is_put = room.flush().is_ok() && is_put;
    }
    is_put
}

/// Whether the sink then holds so many bytes of the text, and so many calls failed.
fn is_held(sink: &MemSink, text: &[u8], taken: usize, faults: u64) -> bool {
    taken <= text.len() && sink.taken() == &text[..taken] && sink.faults() == faults
}

/// 10,000 bytes: 0 to 249, over and over.
fn long_text(alloc: Global) -> Result<Vec<u8>, Memory> {
    let mut text = Vec::new(alloc);
    for _ in 0..40 {
        for k in 0..250 {
            text.push(k)?;
        }
    }
    Ok(text)
}

/// Whether the row holds of the text.
fn is_handed_on(
    alloc: Global,
    text: &[u8],
    (pieces, flushes): (&[usize], u8),
    fails: &[u64],
    (taken, faults): (usize, u64),
) -> Result<bool, Memory> {
    let mut sink = sink(alloc, 10_000, 0, fails)?;
    let is_put = is_put(&mut sink, text, pieces, flushes);
    Ok(is_put == (faults == 0) && is_held(&sink, text, taken, faults))
}

/// Each row holds of the text.
fn each_is_handed_on(rt: &impl Abort, alloc: Global, text: &[u8]) {
    for (pieces, flushes, fails, taken, faults) in ROOMS {
        let ends = (*taken, *faults);
        let is_so = is_handed_on(alloc, text, (*pieces, *flushes), fails, ends);
        assert!(rt;
            is_so.unwrap_or(false),
            "{taken} bytes after {flushes} flushes, {faults} faults"
        );
    }
}

#[test]
fn a_room_hands_on_what_it_has_no_space_for(rt: HostRuntime) -> Result<(), Fail> {
    let text = long_text(rt.alloc())?;
    each_is_handed_on(&rt, rt.alloc(), &text);
    Ok(())
}

#[test]
fn lines_and_columns_count_from_one(rt: HostRuntime) {
    let table = [
        ("", 0, (1, 1)),
        ("ab\ncd\n", 0, (1, 1)),
        ("ab\ncd\n", 1, (1, 2)),
        // LF itself belongs to the line that it ends
        ("ab\ncd\n", 2, (1, 3)),
        ("ab\ncd\n", 3, (2, 1)),
        ("ab\ncd\n", 5, (2, 3)),
        ("ab\ncd\n", 6, (3, 1)),
        ("\n\n", 2, (3, 1)),
        ("Axiom \"a\": True", 15, (1, 16)),
    ];
    for (text, offset, want) in table {
        let place = Place { offset };
        assert!(rt; offset as usize <= text.len() && text.len() < 100);
        assert!(rt;
            line_col(text.as_bytes(), place) == want,
            "{text} at {offset}"
        );
    }
}

#[test]
fn each_status_has_its_number(rt: HostRuntime) {
    let table = [
        (Status::Observable, 0),
        (Status::Unobservable, 1),
        (Status::Done, 0),
        (Status::Usage, 2),
        (Status::Refused, 3),
        (Status::ReadFault, 4),
        (Status::WriteFault, 5),
        (Status::CertRefused, 6),
        (Status::Memory, 7),
    ];
    for (status, number) in table {
        assert!(rt; status.number() == number);
    }
}
