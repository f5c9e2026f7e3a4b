//! Ends that answer by a script, and judge the calls that come.

ghost use Rattle.std.specs.Prelude.{◌≤◌, ◌<◌, IfOk};

use std::alloc::{AllocError, Global};
use std::io;
use std::io::{ErrorKind, Read, Write};

/// Each kind of error that the kit has.
pub static KINDS: [ErrorKind; 42] = [
    ErrorKind::NotFound,
    ErrorKind::PermissionDenied,
    ErrorKind::ConnectionRefused,
    ErrorKind::ConnectionReset,
    ErrorKind::HostUnreachable,
    ErrorKind::NetworkUnreachable,
    ErrorKind::ConnectionAborted,
    ErrorKind::NotConnected,
    ErrorKind::AddrInUse,
    ErrorKind::AddrNotAvailable,
    ErrorKind::NetworkDown,
    ErrorKind::BrokenPipe,
    ErrorKind::AlreadyExists,
    ErrorKind::WouldBlock,
    ErrorKind::NotADirectory,
    ErrorKind::IsADirectory,
    ErrorKind::DirectoryNotEmpty,
    ErrorKind::ReadOnlyFilesystem,
    ErrorKind::FilesystemLoop,
    ErrorKind::StaleNetworkFileHandle,
    ErrorKind::InvalidInput,
    ErrorKind::InvalidData,
    ErrorKind::TimedOut,
    ErrorKind::WriteZero,
    ErrorKind::StorageFull,
    ErrorKind::NotSeekable,
    ErrorKind::QuotaExceeded,
    ErrorKind::FileTooLarge,
    ErrorKind::ResourceBusy,
    ErrorKind::ExecutableFileBusy,
    ErrorKind::Deadlock,
    ErrorKind::CrossesDevices,
    ErrorKind::TooManyLinks,
    ErrorKind::InvalidFilename,
    ErrorKind::ArgumentListTooLong,
    ErrorKind::Interrupted,
    ErrorKind::Unsupported,
    ErrorKind::UnexpectedEof,
    ErrorKind::OutOfMemory,
    ErrorKind::InProgress,
    ErrorKind::Other,
    ErrorKind::Uncategorized,
];

/// What the errors of a script say.
pub const MESSAGE: &str = "so says the script";

/// What a call answered: how many bytes it moved, or the kind of its error.
pub type Outcome = Result<usize, ErrorKind>;

/// What an end answers to a call.
#[derive(Clone, Copy)]
pub enum Answer {
    /// It moves as many bytes as it can, but no more than these.
    Moves(usize),
    /// It fails, and moves none.
    Fails(ErrorKind),
}

impl Answer {
    /// What comes of it where that many bytes can be moved.
    pub fn outcome(self, most: usize) -> Outcome
        ensures { IfOk result (λ moved. moved ≤ most) }
    {
        match self {
            Answer::Moves(count) => Ok(most.min(count)),
            Answer::Fails(kind) => Err(kind),
        }
    }
}

/// The answers of an end: these, one a call, and then at most that many bytes a call, except for one that may fail.
#[derive(Clone, Copy)]
pub struct Script<'a> {
    answers: &'a [Answer],
    most: usize,
    fails_at: Option<usize>,
}

impl<'a> Script<'a> {
    /// All that there is room for at each call.
    pub const WHOLE: Script<'static> = Script {
        answers: &[],
        most: usize::MAX,
        fails_at: None,
    };

    /// One byte a call.
    pub const BYTES: Script<'static> = Script {
        answers: &[],
        most: 1,
        fails_at: None,
    };

    /// None at any call.
    pub const NONE: Script<'static> = Script {
        answers: &[],
        most: 0,
        fails_at: None,
    };

    /// One byte a call, but the first fails.
    pub const FIRST_FAILS: Script<'static> = Script {
        answers: &[],
        most: 1,
        fails_at: Some(0),
    };

    /// One byte a call, but the fourth fails.
    pub const FOURTH_FAILS: Script<'static> = Script {
        answers: &[],
        most: 1,
        fails_at: Some(3),
    };

    /// One byte a call, and an error at this one, counted from 0.
    pub fn failing(call: usize) -> Script<'static> {
        Script {
            answers: &[],
            most: 1,
            fails_at: Some(call),
        }
    }

    /// These answers, and then all that there is room for.
    pub fn of(answers: &'a [Answer]) -> Script<'a> {
        Script {
            answers,
            most: usize::MAX,
            fails_at: None,
        }
    }

    fn answer(&self, call: usize) -> Answer {
        if let Some(answer) = self.answers.get(call) {
            return *answer;
        }
        if self.fails_at == Some(call) {
            return Answer::Fails(ErrorKind::TimedOut);
        }
        Answer::Moves(self.most)
    }
}

/// The calls on an end.
#[derive(Clone, Copy)]
pub struct Calls {
    /// How many came.
    pub count: usize,
    /// How many bytes were moved.
    pub moved: usize,
    /// How many of them moved none or failed, except those that were interrupted, which are made again.
    pub ends: usize,
    /// What the last one of the others answered.
    pub last: Outcome,
    /// Whether each of them offered, or had room for, as many bytes as it should.
    pub fit: bool,
}

impl Calls {
    const NONE: Calls = Calls {
        count: 0,
        moved: 0,
        ends: 0,
        last: Ok(0),
        fit: true,
    };

    fn note(&mut self, outcome: Outcome, fits: bool) {
        self.count = self.count.saturating_add(1);
        self.fit &= fits;
        if outcome == Err(ErrorKind::Interrupted) {
            return;
        }
        self.moved = self.moved.saturating_add(outcome.unwrap_or(0));
        if outcome.unwrap_or(0) == 0 {
            self.ends = self.ends.saturating_add(1);
        }
        self.last = outcome;
    }

    /// What reading to the end returns by these calls: how many bytes there were, or the kind of the error. None where
    /// a call came that should not have come.
    pub fn read(&self) -> Option<Outcome> {
        match (self.ends, self.last) {
            _ if !self.fit => None,
            (1, Ok(0)) => Some(Ok(self.moved)),
            (1, Err(kind)) => Some(Err(kind)),
            _ => None,
        }
    }

    /// What writing that many bytes returns by these calls. None where a call came that should not have come, or is
    /// missing.
    pub fn written(&self, length: usize) -> Option<Result<(), ErrorKind>> {
        match (self.ends, self.last) {
            _ if !self.fit => None,
            (0, _) if self.moved == length => Some(Ok(())),
            (1, Ok(0)) => Some(Err(ErrorKind::WriteZero)),
            (1, Err(kind)) => Some(Err(kind)),
            _ => None,
        }
    }
}

/// A reader of these bytes.
#[derive(Clone, Copy)]
pub struct ScriptedReader<'a> {
    pub calls: Calls,
    left: &'a [u8],
    script: Script<'a>,
    room: Option<usize>,
}

impl<'a> ScriptedReader<'a> {
    /// Each call should have room for a byte at least.
    pub fn new(bytes: &'a [u8], script: Script<'a>) -> ScriptedReader<'a> {
        ScriptedReader {
            calls: Calls::NONE,
            left: bytes,
            script,
            room: None,
        }
    }

    /// Each call should have this much room.
    pub fn with_room(mut self, room: usize) -> ScriptedReader<'a> {
        self.room = Some(room);
        self
    }
}

impl Read for ScriptedReader<'_> {
    fn read(&mut self, buf: &mut [u8]) -> io::Result<usize> {
        let fits = match self.room {
            Some(room) => buf.len() == room,
            None => !buf.is_empty(),
        };
        let most = self.left.len().min(buf.len());
        let outcome = self.script.answer(self.calls.count).outcome(most);
        self.calls.note(outcome, fits);
        match outcome {
            Ok(count) => {
                let (given, left) = self.left.split_at(count);
                buf[..count].copy_from_slice(given);
                self.left = left;
                Ok(count)
            }
            Err(kind) => Err(io::Error::new(kind, MESSAGE)),
        }
    }
}

/// A writer that should be offered these bytes.
#[derive(Clone, Copy)]
pub struct ScriptedWriter<'a> {
    pub calls: Calls,
    left: &'a [u8],
    script: Script<'a>,
    takes_again: bool,
}

impl<'a> ScriptedWriter<'a> {
    /// Each call should offer all that is left of the bytes.
    pub fn new(bytes: &'a [u8], script: Script<'a>) -> ScriptedWriter<'a> {
        ScriptedWriter {
            calls: Calls::NONE,
            left: bytes,
            script,
            takes_again: false,
        }
    }

    /// Each call should offer all of the bytes.
    pub fn again(mut self) -> ScriptedWriter<'a> {
        self.takes_again = true;
        self
    }

    // Takes these of that many bytes, and returns whether they are those that should be offered.
    fn take(&mut self, taken: &[u8], offered: usize) -> bool {
        let Some((front, left)) = self.left.split_at_checked(taken.len()) else {
            return false;
        };
        let fits = offered == self.left.len() && offered > 0 && front == taken;
        if !self.takes_again {
            self.left = left;
        }
        fits
    }
}

impl Write for ScriptedWriter<'_> {
    fn write(&mut self, buf: &[u8]) -> io::Result<usize> {
        let outcome = self.script.answer(self.calls.count).outcome(buf.len());
        let taken = match outcome {
            Ok(count) => &buf[..count],
            Err(_) => &[],
        };
        let fits = self.take(taken, buf.len());
        self.calls.note(outcome, fits);
        match outcome {
            Ok(count) => Ok(count),
            Err(kind) => Err(io::Error::new(kind, MESSAGE)),
        }
    }

    fn flush(&mut self) -> io::Result<()> {
        Ok(())
    }
}

/// The sizes around each small constant of the code.
pub static SIZES: [usize; 9] = [1, 63, 64, 65, 4095, 4096, 4097, 64 * 1024, 64 * 1024 + 1];

/// More than any buffer.
pub const LARGE: usize = (1 << 20) + 1;

/// At least that many letters, of which neighbours differ.
pub fn letters(global: Global, size: usize) -> Result<String, AllocError> {
    let unit = "abcdefghijk".repeat(global, 64)?;
    unit.repeat(global, size / 704 + 1)
}

/// How many answers are drawn at once.
pub const TURNS: usize = 16;

/// That many of the letters, from the first one on, or all where there are no more.
pub fn front(letters: &str, size: usize) -> &str {
    letters.get(..size).unwrap_or(letters)
}

/// Numbers drawn from a seed.
#[derive(Clone, Copy)]
pub struct Draws {
    state: u64,
}

impl Draws {
    pub fn new(seed: u64) -> Draws {
        Draws { state: seed }
    }

    /// A number below the end.
    pub fn below(&mut self, end: u32) -> u32
        requires { 0 < end }
        ensures { result < end }
    {
        let drawn = self.state.wrapping_mul(6364136223846793005);
        self.state = drawn.wrapping_add(1442695040888963407);
        (self.state >> 33) as u32 % end
    }

    /// Answers that move a byte, few or many bytes.
    pub fn moves(&mut self) -> [Answer; TURNS] {
        let mut answers = [Answer::Moves(1); TURNS];
        for answer in &mut answers {
            if self.below(4) > 0 {
                let size = 1u32 << self.below(20);
                *answer = Answer::Moves(size as usize + self.below(2) as usize);
            }
        }
        answers
    }

    /// The same, but one of the first four fails.
    pub fn broken(&mut self) -> [Answer; TURNS] {
        let mut answers = self.moves();
        answers[self.below(4) as usize] = self.failure();
        answers
    }

    /// The same, but of 32 one moves none and one fails.
    pub fn answers(&mut self) -> [Answer; TURNS] {
        let mut answers = self.moves();
        for answer in &mut answers {
            match self.below(32) {
                0 => *answer = Answer::Moves(0),
                1 => *answer = self.failure(),
                _ => {}
            }
        }
        answers
    }

    fn failure(&mut self) -> Answer {
        Answer::Fails(KINDS[self.below(42) as usize])
    }
}
