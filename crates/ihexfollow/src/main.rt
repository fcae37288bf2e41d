#![tactic(auto)]
// Lists the Intel HEX text on standard input as it comes: a line for each record or refusal, as soon as its line has come.
ghost use Rattle.std.specs.Prelude.{◌≡◌, length};
ghost use Rattle.ihexfollow.specs.Replies.{reply_of, is_answer, is_used_up, Asks, Begins};

use chunks::{ChunkReply, ChunkStep, Chunks};
use listing::Verdict;
use reader::Reply;
use std::env::{Env, FillError};
use std::fs::OpenOptions;
use std::io;
use std::io::{ErrorKind, Read, Write};
use std::process::ExitCode;
use std::rt::Files;

// Where the status of the text is written, as one digit: descriptor 3, by its name. The process ends with status 0.
const STATUS_FILE: &str = "/proc/self/fd/3";

// The status where the input cannot be read or the output cannot be written.
const FAILED: u8 = 2;

// What the process ends with where nobody reads its output any more: what a shell says of a program that SIGPIPE ended.
const NOBODY_READS: u8 = 141;

// Why the listing ends too soon: the input cannot be read, the output cannot be written, or nobody reads it any more.
#[derive(Clone, Copy)]
enum Failure {
    CannotRead,
    CannotWrite,
    NobodyReads,
}

// Where the reader stands, what the answers so far come to and how many there are, and whether the input may hold more.
#[derive(Clone, Copy)]
struct Progress {
    state: Chunks,
    verdict: Verdict,
    count: usize,
    more: bool,
}

// Space for a chunk of the input, for what is left of a line, for a payload or for a line of the listing.
fn buffer() -> [u8; 4096]
    ensures { 4096 ≡ length result }
{
    [0; 4096]
}

// Prints bytes.
fn print(rt: &impl Print, bytes: &[u8]) -> Result<(), Failure> {
    match rt.write_all(bytes) {
        Ok(()) => Ok(()),
        Err(e) if e.kind() == ErrorKind::BrokenPipe => Err(Failure::NobodyReads),
        Err(_) => Err(Failure::CannotWrite),
    }
}

// Prints what was listed.
fn say(rt: &impl Print, listed: Option<usize>, out: &[u8]) -> Result<(), Failure> {
    match listed {
        Some(n) if n <= out.len() => print(rt, &out[..n]),
        _ => Err(Failure::CannotWrite),
    }
}

fn say_first(rt: &impl Print) -> Result<(), Failure> {
    let mut out = buffer();
    let listed = listing::list_first(&mut out);
    say(rt, listed, &out)
}

fn say_reply(rt: &impl Print, reply: Reply, pool: &[u8]) -> Result<(), Failure> {
    let mut out = buffer();
    let listed = listing::list_reply(reply, pool, &mut out);
    say(rt, listed, &out)
}

fn say_last(rt: &impl Print, count: usize) -> Result<(), Failure> {
    let mut out = buffer();
    let listed = listing::list_last(count, &mut out);
    say(rt, listed, &out)
}

// The reply that is printed; "done" where there is none.
fn reply_of(reply: ChunkReply) -> Reply
    ensures { result ≡ reply_of reply }
{
    match reply {
        ChunkReply::Read(given) => Some(Ok(given)),
        ChunkReply::Refused(e) => Some(Err(e)),
        ChunkReply::UsedUp | ChunkReply::Done | ChunkReply::CarryTooSmall => None,
    }
}

// Whether a reply is printed.
fn is_answer(reply: ChunkReply) -> bool
    ensures { result ≡ is_answer reply }
{
    matches!(reply, ChunkReply::Read(_) | ChunkReply::Refused(_))
}

// Whether the next chunk is asked for.
fn is_used_up(reply: ChunkReply) -> bool
    ensures { result ≡ is_used_up reply }
{
    matches!(reply, ChunkReply::UsedUp)
}

// Asks for the next answer of a chunk. One of no bytes says that the input has ended.
fn ask(state: Chunks, chunk: &[u8], carry: &mut [u8], pool: &mut [u8]) -> ChunkStep
    ensures { Asks state chunk.now carry.old pool.old result carry.new pool.new }
{
    if chunk.is_empty() {
        return state.finish(carry, pool, 0);
    }
    state.next(chunk, carry, pool, 0)
}

// Prints the answers of a chunk. The turns are counted up to a number that no run reaches.
fn take(
    rt: &impl Print,
    start: Progress,
    chunk: &[u8],
    carry: &mut [u8],
    pool: &mut [u8],
) -> Result<Progress, Failure> {
    let mut progress = start;
    for _ in 0..u64::MAX {
        let step = ask(progress.state, chunk, carry, pool);
        progress.state = step.state;
        if !is_answer(step.reply) {
            progress.more = is_used_up(step.reply);
            return Ok(progress);
        }
        let answer = reply_of(step.reply);
        say_reply(rt, answer, pool)?;
        progress.verdict = listing::verdict_after(progress.verdict, answer);
        progress.count = progress.count.wrapping_add(1);
    }
    Err(Failure::CannotWrite)
}

// Reads once, as much as is there, and prints its answers. A read of no bytes is the input's end.
fn read_on(
    rt: &impl Print,
    from: &mut impl Read,
    start: Progress,
    carry: &mut [u8],
    pool: &mut [u8],
) -> Result<Progress, Failure> {
    let mut chunk = buffer();
    let Ok(n) = from.read(&mut chunk) else {
        return Err(Failure::CannotRead);
    };
    take(rt, start, &chunk[..n], carry, pool)
}

fn begin() -> Progress
    ensures { Begins result }
{
    Progress {
        state: Chunks::new_with_options(listing::listing_options()),
        verdict: Verdict {
            faulty: false,
            ended: false,
        },
        count: 0,
        more: true,
    }
}

// Reads until there are no more answers. Nothing says that an input ends, so here too the turns are counted.
fn follow(
    rt: &impl Print,
    from: &mut impl Read,
    carry: &mut [u8],
    pool: &mut [u8],
) -> Result<Progress, Failure> {
    let mut progress = begin();
    for _ in 0..u64::MAX {
        progress = read_on(rt, from, progress, carry, pool)?;
        if !progress.more {
            break;
        }
    }
    Ok(progress)
}

// Says on standard error what failed, and returns the status for that.
fn fail(rt: &impl Eprint, what: &str) -> u8
    ensures { result ≡ 2 }
{
    let _ = rt.eprint(what);
    FAILED
}

// Prints the listing, and returns its status.
fn show(rt: &impl Print, from: &mut impl Read) -> Result<u8, Failure> {
    say_first(rt)?;
    let mut carry = buffer();
    let mut pool = buffer();
    let end = follow(rt, from, &mut carry, &mut pool)?;
    say_last(rt, end.count)?;
    Ok(listing::exit_status(end.verdict))
}

// Whether the program was started with an argument.
fn is_asked(rt: &impl Env) -> bool {
    let mut word = [0u8; 1];
    !matches!(rt.arg(1, &mut word), Err(FillError::NotPresent))
}

// Writes a digit to descriptor 3. Opened to be read too, a pipe that nobody reads makes nobody wait.
fn write_digit(rt: &impl Files, digit: u8) -> io::Result<()> {
    let mut file = OpenOptions::new()
        .read(true)
        .append(true)
        .open(rt, STATUS_FILE)?;
    file.write_all(&[digit])
}

// Writes the status where the program was started with an argument. Without one, descriptor 3 may be somebody else's.
fn tell(rt: &(impl Env + Files), status: u8) {
    if is_asked(rt) {
        let _ = write_digit(rt, b'0'.wrapping_add(status));
    }
}

fn main(rt: HostRuntime) -> ExitCode {
    let status = match show(&rt, &mut rt.stdin()) {
        Ok(status) => status,
        Err(Failure::CannotRead) => fail(&rt, "cannot read\n"),
        Err(Failure::CannotWrite) => fail(&rt, "cannot write\n"),
        Err(Failure::NobodyReads) => return ExitCode::from(NOBODY_READS),
    };
    tell(&rt, status);
    ExitCode::SUCCESS
}
