// The program `rehearse` (02, Ticket 2), as a library: reads the class text `lib.txt` and the call lines on standard input, and
// writes their answers to standard output. Each part of the input is answered before more is waited for. No contract speaks of
// files: of whatever was read, each byte is answered once and in order, and as much is written out as its answers have.
// What is lent, the line and the bytes kept of it are passed apart, as `rehearsal::feed` takes them.
#![tactic(auto)]

ghost use Rattle.std.specs.Prelude.{◌*◌, ◌≤◌, ◌≡◌, length};
ghost use Rattle.machine_words.specs.Calls.{lending};
ghost use Rattle.rehearsal.specs.Feeds.{widest};
ghost use Rattle.streams.specs.Counts.{IsPrefixLen};
ghost use Rattle.rehearse_run.specs.Plays.{PlaysPart, ReadsOnce, PlaysAll, Plays, Rehearsed, Runs};

use std::fs;
use std::rt::Files;

// One byte more than the longest text: a text that fills it is too long, however long it is.
const TEXT: usize = 32769;

// The most bytes that are read at once.
const PART: usize = 4096;

// Room for an answer to each byte of a part; what is printed at the start and at the end is less.
const ROOM: usize = 4096 * rehearsal::WIDEST;

// Room for the first bytes of a line: more than any call line has.
const LINE: usize = 128;

// The bytes of a part that were read, those kept of the unfinished line, and those written out.
#[derive(Clone, Copy)]
struct Turn {
    read: usize,
    kept: usize,
    written: usize,
}

// Writes out lines, and answers how many bytes they have. A write that fails is let go.
fn print_lines(rt: &impl Print, lines: &[u8]) -> usize
    ensures { result ≡ length lines.now }
{
    let _ = rt.write_all(lines);
    lines.len()
}

// Reads the class text, as much of it as there is room for, and answers its length: 0 where it can't be opened or read.
fn read_library(rt: &impl Files, text: &mut [u8]) -> usize
    ensures { IsPrefixLen result text.new }
{
    match fs::open(rt, "lib.txt") {
        Ok(mut file) => streams::read_full(&mut file, text),
        Err(_) => 0,
    }
}

// Answers the lines of a part, all of which is read, and writes the answers out.
fn play_part(
    rt: &impl Print,
    text: &[u8],
    state: &mut [u32],
    values: &mut [u32],
    line: &mut [u8],
    kept: usize,
    part: &[u8],
    out: &mut [u8],
) -> Turn
    requires { widest * length part.now ≤ length out.old }
    ensures { PlaysPart (lending text.now state.old values.old) line.old kept part.now out.old
        (lending text.now state.new values.new) line.new out.new result.read result.kept result.written }
{
    let fed = rehearsal::feed(text, state, values, line, kept, part, out);
    let written = print_lines(rt, &out[..fed.size]);
    Turn {
        read: fed.read,
        kept: fed.kept,
        written,
    }
}

// Reads once, and answers what came.
fn read_once(
    rt: &(impl Input + Print),
    text: &[u8],
    state: &mut [u32],
    values: &mut [u32],
    line: &mut [u8],
    kept: usize,
    out: &mut [u8],
) -> Turn
    requires { 4096 * widest ≤ length out.old }
    ensures { ReadsOnce (lending text.now state.old values.old) line.old kept out.old
        (lending text.now state.new values.new) line.new out.new result.read result.kept result.written }
{
    let mut part = [0u8; PART];
    let size = streams::read_once(&mut rt.reader(), &mut part);
    play_part(rt, text, state, values, line, kept, &part[..size], out)
}

// Reads to the end of the input. A proved loop ends, and nothing says that the input does: the turns are counted up to a
// number that no run reaches.
fn play_all(
    rt: &(impl Input + Print),
    text: &[u8],
    state: &mut [u32],
    values: &mut [u32],
    line: &mut [u8],
    out: &mut [u8],
) -> usize
    requires { 4096 * widest ≤ length out.old }
    ensures { PlaysAll (lending text.now state.old values.old) line.old (lending text.now state.new values.new) line.new result }
{
    let mut kept = 0;
    for _turn in 0..u64::MAX {
        let next = read_once(rt, text, state, values, line, kept, out);
        kept = next.kept;
        if next.read == 0 {
            return kept;
        }
    }
    kept
}

// Plays the input on a machine that is started, writes out what is printed at the end, and answers how many bytes this is.
fn play(
    rt: &(impl Input + Print),
    text: &[u8],
    state: &mut [u32],
    values: &mut [u32],
    out: &mut [u8],
) -> usize
    requires { 4096 * widest ≤ length out.old }
    ensures { Plays (lending text.now state.old values.old) (lending text.now state.new values.new) out.new result }
{
    let mut line = [0u8; LINE];
    let kept = play_all(rt, text, state, values, &mut line, out);
    let size = rehearsal::finish(text, state, values, &line, kept, out);
    print_lines(rt, &out[..size])
}

// Rehearses on a text: writes out the line of a refused one, or plays the input. Answers how many bytes were written out last.
fn rehearse(rt: &(impl Input + Print), text: &[u8]) -> usize
    ensures { Rehearsed text.now result }
{
    let mut values = [0u32; layout::VALUES];
    let mut state = [0u32; layout::STATE_WORDS];
    let mut out = [0u8; ROOM];
    let prepared = rehearsal::prepare(text, &mut values, &mut state, &mut out);
    match prepared {
        Err(refused) => print_lines(rt, &out[..refused.size]),
        Ok(count) => play(rt, text, &mut state, &mut values[..count], &mut out),
    }
}

// Reads the class text, as much of it as decides its verdict, and rehearses on it. Answers how many bytes were written out last.
pub fn run(rt: &(impl Files + Input + Print)) -> usize
    ensures { Runs result }
{
    let mut text = [0u8; TEXT];
    let size = read_library(rt, &mut text);
    rehearse(rt, &text[..size])
}
