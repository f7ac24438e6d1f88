// The console: commands, one a line, from a file or standard input; an answer to each on standard output (docs/CONSOLE.md).
// A program has no public calls: `pub` lets its modules call one another, and a `requires` is what each caller here has seen to.
#![tactic(auto)]

ghost use Rattle.std.specs.Prelude.{◌≤◌};

use console_state::inner::failure::Failure;
use console_state::inner::state::{Room, State};
use console_text::inner::print::Output;
use std::env::{Env, FillError};
use std::io::{ErrorKind, Read, Stdout, Write};
use std::process::ExitCode;
use std::rt::Files;
use std::{fs, io};

mod commands;

// The error number of a name that is too long.
const TOO_LONG: i32 = 36;

// What could not be done, and why, in the system's words.
fn tell(rt: &(impl Eprint + Alloc), what: &str, name: &str, error: io::Error) -> io::Result<()> {
    let why = format!(in rt.alloc(); "{error}")?;
    match why.split_once(" (os error ") {
        Some((words, _)) => eprintln!(rt; "pusmarke: cannot {what}{name}: {words}"),
        None => eprintln!(rt; "pusmarke: cannot {what}{name}: {why}"),
    }
}

// The same, where there is nothing to be done if it can't be told.
fn fail(rt: &(impl Eprint + Alloc), what: &str, name: &str, error: io::Error) -> bool {
    let _ = tell(rt, what, name, error);
    false
}

// The line that is being read, in fixed memory: its octets so far, whether more came than a line may have, and how many lines have
// ended. std's `lines` would take each from the heap.
#[derive(Drop)]
struct Line {
    octets: [u8; 65535],
    filled: usize,
    overlong: bool,
    ended: u64,
    ghost within: { filled ≤ 65535 },
}

impl Line {
    fn push(&mut self, octet: u8) {
        if self.filled < self.octets.len() {
            self.octets[self.filled] = octet;
            self.filled += 1;
        } else {
            self.overlong = true;
        }
    }

    // The line has ended, and the next one begins.
    fn end(&mut self) {
        self.filled = 0;
        self.overlong = false;
        self.ended = self.ended.wrapping_add(1);
    }
}

// What the console holds, and where its answers go.
#[derive(Drop)]
struct Console {
    line: Line,
    state: State,
    room: Room,
    out: Output,
}

impl Console {
    fn new(to: Stdout) -> Console {
        Console {
            line: Line {
                octets: [0; 65535],
                filled: 0,
                overlong: false,
                ended: 0,
            },
            state: State::new(),
            room: Room::new(),
            out: Output::new(to),
        }
    }

    // Takes what was read: a newline ends the line, any other octet lengthens it.
    fn take(&mut self, octets: &[u8]) -> io::Result<()> {
        for octet in octets {
            if *octet == b'\n' {
                self.end_line()?;
            } else {
                self.line.push(*octet);
            }
        }
        Ok(())
    }

    fn end_line(&mut self) -> io::Result<()> {
        let line = &self.line;
        let answered = if line.overlong {
            Err(Failure::BadLine)
        } else {
            commands::answer(
                &line.octets[..line.filled],
                &mut self.state,
                &mut self.room,
                &mut self.out,
            )
        };
        self.line.end();
        match answered {
            Ok(()) => Ok(()),
            Err(Failure::BadLine) => writeln!(self.out, "error {}", self.line.ended),
            Err(Failure::Refused(refused)) => writeln!(self.out, "{refused}"),
            Err(Failure::Unwritten(error)) => Err(error),
        }
    }

    // A last piece without a newline is a line if it isn't empty.
    fn finish(&mut self) -> io::Result<()> {
        if 0 < self.line.filled {
            self.end_line()?;
        }
        self.out.flush()
    }
}

// Answers what the input holds, to its end or until a write fails; whether all could be read. A proved loop has to end, and nothing says
// that a file does: the turns are counted, to a number that no run comes to.
fn answer_all<I: Read>(
    rt: &(impl Eprint + Alloc),
    console: &mut Console,
    input: &mut I,
    name: &str,
) -> io::Result<bool> {
    let mut chunk = [0u8; 65536];
    let mut fine = true;
    for _ in 0..u64::MAX {
        match input.read(&mut chunk) {
            Ok(0) => break,
            Ok(n) => console.take(&chunk[..n])?,
            Err(error) => {
                fine = fail(rt, "read ", name, error);
                break;
            }
        }
    }
    console.finish()?;
    Ok(fine)
}

// Whether all could be read and written.
fn run<I: Read>(rt: &(impl Eprint + Alloc), to: Stdout, input: &mut I, name: &str) -> bool {
    let mut console = Console::new(to);
    match answer_all(rt, &mut console, input, name) {
        Ok(fine) => fine,
        Err(error) => fail(rt, "write ", "standard output", error),
    }
}

// The file that the first argument names.
fn run_file(rt: &(impl Eprint + Alloc + Files), to: Stdout, path: &[u8]) -> bool {
    let Ok(name) = std::str::from_utf8(path) else {
        let error = io::Error::new(ErrorKind::InvalidFilename, "it is not UTF-8");
        return fail(rt, "take the file's name", "", error);
    };
    match fs::open(rt, name) {
        Ok(mut file) => run(rt, to, &mut file, name),
        Err(error) => fail(rt, "open ", name, error),
    }
}

// Status 2 where the input cannot be opened or read, or the answers cannot be written.
fn main(rt: HostRuntime) -> ExitCode {
    let mut path = [0u8; 4096];
    let fine = match rt.arg(1, &mut path) {
        Ok(n) => run_file(&rt, rt.stdout(), &path[..n]),
        Err(FillError::NotPresent) => run(&rt, rt.stdout(), &mut rt.stdin(), "standard input"),
        Err(FillError::TooLong) => {
            let error = io::Error::from_raw_os_error(TOO_LONG);
            fail(&rt, "take the file's name", "", error)
        }
    };
    if fine {
        ExitCode::SUCCESS
    } else {
        ExitCode::from(2)
    }
}
