//! Each call is passed on once, and again where it is interrupted, its result is returned as it was, and the mark
//! stands exactly where a call has failed.
use crate::stand_ins::lines::says;
use crate::stand_ins::scripts::{
    Answer, Calls, Draws, KINDS, LARGE, MESSAGE, Outcome, SIZES, Script, ScriptedReader,
    ScriptedWriter, front, letters,
};
use std::alloc::{AllocError, Global};
use std::io;
use std::io::ErrorKind;
use watched::{ReadError, Watched};

// How many scripts are drawn for each size.
const SCRIPTS: usize = 3;

fn kind_of<T: Copy>(outcome: io::Result<T>) -> Result<T, ErrorKind> {
    match outcome {
        Ok(value) => Ok(value),
        Err(error) => Err(error.kind()),
    }
}

// Whether a read has this outcome, and gives these bytes.
fn reads(
    reader: &mut Watched<ScriptedReader<'_>>,
    room: &mut [u8],
    want: Outcome,
    given: &[u8],
) -> bool {
    kind_of(reader.read(room)) == want && room.starts_with(given)
}

// Whether the calls came by these answers, of which the last may be interruptions that no call met.
fn are_passed_on(calls: Calls, answers: &[Answer]) -> bool {
    let mut count = 0;
    for (index, answer) in answers.iter().enumerate() {
        if !is_interruption(answer) {
            count = index.saturating_add(1);
        }
    }
    calls.fit && calls.count == count
}

fn is_interruption(answer: &Answer) -> bool {
    matches!(answer, Answer::Fails(ErrorKind::Interrupted))
}

fn reads_each_once(bytes: &[u8], room: &mut [u8], answers: &[Answer]) -> bool {
    let end = ScriptedReader::new(bytes, Script::of(answers)).with_room(room.len());
    let mut reader = Watched::new(end);
    let mut left = bytes;
    let mut is_marked = false;
    for answer in answers {
        if is_interruption(answer) {
            continue;
        }
        let want = answer.outcome(left.len().min(room.len()));
        let (given, rest) = left.split_at(want.unwrap_or(0));
        is_marked |= want.is_err();
        if !reads(&mut reader, room, want, given) || reader.failed() != is_marked {
            return false;
        }
        left = rest;
    }
    are_passed_on(reader.into_inner().calls, answers)
}

fn writes_each_once(bytes: &[u8], answers: &[Answer]) -> bool {
    let mut writer = Watched::new(ScriptedWriter::new(bytes, Script::of(answers)).again());
    let mut is_marked = false;
    for answer in answers {
        if is_interruption(answer) {
            continue;
        }
        let want = answer.outcome(bytes.len());
        is_marked |= want.unwrap_or(0) == 0;
        if kind_of(writer.write(bytes)) != want || writer.failed() != is_marked {
            return false;
        }
    }
    are_passed_on(writer.into_inner().calls, answers)
}

// Whether each call on these bytes is passed on, by this script and that.
fn passes_each_once(bytes: &[u8], room: &mut [u8], draws: &mut Draws) -> bool {
    let (reads, writes) = (draws.answers(), draws.answers());
    reads_each_once(bytes, room, &reads[..4]) && writes_each_once(bytes, &writes[..4])
}

// What reading all of it returns, except the bytes, which should be a beginning of these.
fn read(
    global: Global,
    reader: &mut Watched<ScriptedReader<'_>>,
    bytes: &[u8],
) -> Option<Result<usize, ErrorKind>> {
    match reader.read_all(global) {
        Ok(read) if bytes.starts_with(&read) => Some(Ok(read.len())),
        Err(ReadError::Failed(error)) => Some(Err(error.kind())),
        _ => None,
    }
}

fn reads_all(global: Global, bytes: &[u8], script: Script<'_>) -> bool {
    let mut reader = Watched::new(ScriptedReader::new(bytes, script));
    let Some(outcome) = read(global, &mut reader, bytes) else {
        return false;
    };
    reader.failed() == outcome.is_err() && reader.into_inner().calls.read() == Some(outcome)
}

fn writes_all(bytes: &[u8], script: Script<'_>) -> bool {
    let mut writer = Watched::new(ScriptedWriter::new(bytes, script));
    let outcome = kind_of(writer.write_all(bytes));
    let is_marked = writer.failed();
    let calls = writer.into_inner().calls;
    is_marked == outcome.is_err() && calls.written(bytes.len()) == Some(outcome)
}

// Whether all of these is read by the former answers, and all is written by the latter.
fn moves_all(global: Global, bytes: &[u8], draws: &mut Draws) -> bool {
    let (reads, writes) = (draws.answers(), draws.answers());
    reads_all(global, bytes, Script::of(&reads)) && writes_all(bytes, Script::of(&writes))
}

// Whether each call on that many bytes is passed on, and all of them are read and written, whatever the scripts are,
// and also as all but one byte, and then that one.
fn moves(global: Global, size: usize, draws: &mut [Draws; 2]) -> Result<bool, AllocError> {
    let letters = letters(global, size)?;
    let bytes = front(&letters, size).as_bytes();
    let mut room = vec![in global; 0u8; size]?;
    for _ in 0..SCRIPTS {
        if !passes_each_once(bytes, &mut room, &mut draws[0])
            || !moves_all(global, bytes, &mut draws[1])
        {
            return Ok(false);
        }
    }
    let all_but_one = [Answer::Moves(size.saturating_sub(1))];
    Ok(
        reads_all(global, bytes, Script::WHOLE)
            && writes_all(bytes, Script::WHOLE)
            && writes_all(bytes, Script::of(&all_but_one)),
    )
}

#[test]
fn each_call_is_passed_on_once(rt: HostRuntime) {
    let mut draws = [Draws::new(1), Draws::new(2)];
    for &size in &SIZES {
        let moves = moves(rt.alloc(), size, &mut draws);
        assert!(rt; moves.unwrap_or(false), "{size}");
    }
    assert!(rt; moves(rt.alloc(), LARGE, &mut draws).unwrap_or(false));
}

// Whether writing returns this error of the writer, with all that it says, and goes on where it is an interruption.
fn hands_out(kind: ErrorKind) -> bool {
    let answers = [Answer::Moves(2), Answer::Fails(kind)];
    let mut writer = Watched::new(ScriptedWriter::new(b"abcd", Script::of(&answers)));
    match writer.write_all(b"abcd") {
        Ok(()) => kind == ErrorKind::Interrupted,
        Err(_) if kind == ErrorKind::Interrupted => false,
        Err(error) => error.kind() == kind && says(&error, MESSAGE),
    }
}

// Whether this error after two bytes comes out of each call, unless it is an interruption.
fn comes_out(global: Global, kind: ErrorKind) -> bool {
    let answers = [Answer::Moves(2), Answer::Fails(kind)];
    let script = Script::of(&answers);
    reads_all(global, b"abcd", script) && writes_all(b"abcd", script) && hands_out(kind)
}

// Whether a writer that takes nothing fails where there is something to write.
fn says_none_is_taken() -> bool {
    writes_all(b"abcd", Script::NONE) && writes_all(b"", Script::NONE)
}

#[test]
fn each_error_is_handed_out(rt: HostRuntime) {
    for &kind in &KINDS {
        assert!(rt; comes_out(rt.alloc(), kind), "{kind:?}");
    }
    assert!(rt; says_none_is_taken());
}
