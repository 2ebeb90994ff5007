// What touches the system, for the programs: arguments, whole files, standard output and messages on standard error. What is done with
// the bytes is in `files`. Rests on std; of what is read and written nothing is proved but that counts lie within their buffers.
// Where a message is written the runtime itself is taken, and no bound on it: std's `Eprint` writes text alone, and the name of a file may
// be any bytes.
#![tactic(auto)]

ghost use Rattle.std.specs.Prelude.{◌≡◌, ◌≤◌, IfOk, IfSome, length, replicate};

use arrayvec::ArrayString;
use std::env::FillError;
use std::fmt::Write;
use std::io::{Print, Read};
use std::rt::Env;
use std::{fs, io};

// That something could not be done, as a line on standard error says.
#[derive(Clone, Copy, PartialEq, Eq)]
pub struct Said;

// As many zeros as are asked for: 4,096 hold any path, and 65,536 any file that is read and any text that is printed.
pub fn zeros<const N: usize>() -> [u8; N]
    ensures size { N ≡ length result }
    ensures zeros { result ≡ replicate N 0 }
{
    [0; N]
}

// How many arguments the program was started with, its own name among them.
pub fn argument_count(rt: &impl Env) -> usize {
    let mut text = zeros::<4096>();
    (0..usize::MAX)
        .find(|i| matches!(rt.arg(*i, &mut text), Err(FillError::NotPresent)))
        .unwrap_or(usize::MAX)
}

// Takes an argument of the program, counted from 1, into the front of a buffer, and gives how many bytes it has; none where it is missing or
// longer than a path may be.
pub fn take_argument(rt: &impl Env, i: usize, text: &mut [u8; 4096]) -> Option<usize>
    ensures { IfSome result (λ n. n ≤ length text.new) }
{
    rt.arg(i, text).ok()
}

// Reads into the front of a buffer until it is full or the file ends.
fn read_all(file: &mut impl Read, bytes: &mut [u8]) -> io::Result<usize>
    ensures { IfOk result (λ n. n ≤ length bytes.new) }
{
    let mut at = 0;
    while at < bytes.len() {
        let n = file.read(&mut bytes[at..])?;
        if n == 0 {
            return Ok(at);
        }
        at += n;
    }
    Ok(at)
}

// Stays: std prints the system's words for an error's number alone, and others for an `io::ErrorKind`.
// Linux's numbers of errors: a name that is no text, a name that is too long, and an argument that is missing.
const NO_TEXT: i32 = 84;

const TOO_LONG: i32 = 36;

const MISSING: i32 = 22;

// Opens the file of a path. A path is text: one that is not UTF-8 is refused.
fn open(rt: &HostRuntime, path: &[u8]) -> io::Result<fs::File> {
    let text = str::from_utf8(path).map_err(|_| io::Error::from_raw_os_error(NO_TEXT))?;
    fs::File::open(rt, text)
}

// Opens the file of a path and reads it into the front of a buffer.
fn read_path(rt: &HostRuntime, path: &[u8], bytes: &mut [u8]) -> io::Result<usize>
    ensures { IfOk result (λ n. n ≤ length bytes.new) }
{
    let mut file = open(rt, path)?;
    read_all(&mut file, bytes)
}

// Says on standard error what cannot be done with a file, and why, in the system's words: std writes the error's number behind them.
fn say_why(rt: &HostRuntime, what: &[u8], name: &[u8], error: &io::Error) -> Said {
    let mut text = ArrayString::<300>::new();
    let _ = write!(text, "{error}");
    let said = text.as_str();
    let why = said
        .split_once(" (os error ")
        .map_or(said, |(words, _)| words);
    say(rt, what);
    say(rt, name);
    say(rt, b": ");
    say(rt, why.as_bytes());
    say(rt, b"\n");
    Said
}

// Reads a file into the front of a buffer, as much of it as the buffer holds. Where it cannot be opened or read, a line on standard error
// says so.
pub fn read_file(rt: &HostRuntime, path: &[u8], bytes: &mut [u8]) -> Result<usize, Said>
    ensures { IfOk result (λ n. n ≤ length bytes.new) }
{
    read_path(rt, path, bytes).map_err(|error| say_why(rt, b"cannot read ", path, &error))
}

// Why an argument cannot be taken, as an error of the system.
fn unfit(why: FillError) -> io::Error {
    match why {
        FillError::TooLong => io::Error::from_raw_os_error(TOO_LONG),
        FillError::NotPresent => io::Error::from_raw_os_error(MISSING),
    }
}

// Reads the file that an argument names, counted from 1, into the front of a buffer, as `read_file` does.
pub fn read_argument(rt: &HostRuntime, i: usize, bytes: &mut [u8]) -> Result<usize, Said>
    ensures { IfOk result (λ n. n ≤ length bytes.new) }
{
    let mut path = zeros::<4096>();
    let n = rt.arg(i, &mut path).map_err(|why| {
        let name = b"a file with so long a name";
        say_why(rt, b"cannot read ", name, &unfit(why))
    })?;
    read_file(rt, &path[..n], bytes)
}

// Writes a text to standard output. Where it cannot be written, a line on standard error says so.
pub fn print(rt: &HostRuntime, text: &[u8]) -> Result<(), Said> {
    rt.write_all(text).map_err(|error| say_why(rt, b"cannot write ", b"standard output", &error))
}

// Writes a message to standard error.
pub fn say(rt: &HostRuntime, text: &[u8]) {
    let _ = rt.stderr().write_all(text);
}
