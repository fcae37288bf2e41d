#![tactic(auto)]
// Lists the Intel HEX text on standard input: a line for each record, and for each line that is not a record.
ghost use Rattle.std.specs.Prelude.{◌≡◌, ◌≤◌, length, IfOk};
ghost use Rattle.ihexlist.specs.Status.{said_status};

use std::env::{Env, FillError};
use std::fs::OpenOptions;
use std::io;
use std::io::{ErrorKind, Read, Write};
use std::process::ExitCode;
use std::rt::Files;

// Where the status of a text is written, as one digit: descriptor 3, by its name. The process ends with status 0.
const STATUS_FILE: &str = "/proc/self/fd/3";

// The status where the input cannot be read or the output cannot be written.
const FAILED: u8 = 2;

// What the process ends with where nobody reads its output any more: what a shell says of a program that SIGPIPE ended.
const NOBODY_READS: u8 = 141;

// Space for an input of 65,536 bytes, and one more that tells a longer one.
fn input() -> [u8; 65537]
    ensures { 65537 ≡ length result }
{
    [0; 65537]
}

// Space for its listing: three times as much, and 32.
fn output() -> [u8; 196643]
    ensures { 196643 ≡ length result }
{
    [0; 196643]
}

// Reads until the space is full or the input ends, and answers how many bytes that were.
fn read_all(from: &mut impl Read, text: &mut [u8]) -> io::Result<usize>
    ensures { IfOk result (λ n. n ≤ length text.new) }
{
    let mut n = 0;
    // A while: each turn takes as many bytes as a read gives, so there is no index to count.
    while n < text.len() {
        let more = from.read(&mut text[n..])?;
        if more == 0 {
            break;
        }
        n += more;
    }
    Ok(n)
}

// Prints bytes, and answers whether that went well. An error says that nobody reads them.
fn print(rt: &impl Print, bytes: &[u8]) -> io::Result<bool> {
    match rt.write_all(bytes) {
        Ok(()) => Ok(true),
        Err(e) if e.kind() == ErrorKind::BrokenPipe => Err(e),
        Err(_) => Ok(false),
    }
}

// Prints the listing of a text, and answers whether that went well.
fn show(rt: &impl Print, text: &[u8]) -> io::Result<bool> {
    let mut out = output();
    match listing::list(text, &mut out) {
        Some(m) => print(rt, &out[..m]),
        None => Ok(false),
    }
}

// The exit status of a text whose listing was written, or could not be.
fn status(text: &[u8], written: bool) -> u8
    ensures { result ≡ said_status text.now written }
{
    if written {
        listing::text_status(text)
    } else {
        FAILED
    }
}

// Says on standard error what failed.
fn complain(rt: &impl Eprint, what: &str) {
    let _ = rt.eprint(what);
}

// Prints the listing of a text, and returns its status.
fn report(rt: &(impl Print + Eprint), text: &[u8]) -> io::Result<u8> {
    let written = show(rt, text)?;
    if !written {
        complain(rt, "cannot write\n");
    }
    Ok(status(text, written))
}

// Whether the program was started with an argument.
fn is_asked(rt: &impl Env) -> bool {
    let mut word = [0u8; 1];
    !matches!(rt.arg(1, &mut word), Err(FillError::NotPresent))
}

// Writes a digit to descriptor 3. Opened to be read too, a pipe that nobody reads makes nobody wait.
fn write_digit(rt: &impl Files, digit: u8) -> io::Result<()> {
    let mut file = OpenOptions::new()
        .read(true)
        .append(true)
        .open(rt, STATUS_FILE)?;
    file.write_all(&[digit])
}

// Writes the status where the program was started with an argument. Without one, descriptor 3 may be somebody else's.
fn tell(rt: &(impl Env + Files), status: u8) {
    if is_asked(rt) {
        let _ = write_digit(rt, b'0'.wrapping_add(status));
    }
}

fn main(rt: HostRuntime) -> ExitCode {
    let mut text = input();
    let Ok(n) = read_all(&mut rt.stdin(), &mut text) else {
        complain(&rt, "cannot read\n");
        tell(&rt, FAILED);
        return ExitCode::SUCCESS;
    };
    match report(&rt, &text[..n]) {
        Ok(status) => {
            tell(&rt, status);
            ExitCode::SUCCESS
        }
        Err(_) => ExitCode::from(NOBODY_READS),
    }
}
