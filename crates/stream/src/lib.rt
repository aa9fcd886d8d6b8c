// Reads the lines of a session from a reader and writes the answers, or the page of its end, to a writer, with fixed buffers and input of any length. Where
// the bytes that the reader has and the writer holds are known, the contracts say which were read and written.
#![tactic(auto)]

ghost use Rattle.std.specs.Prelude.{◌≡◌, true, false, List, ℕ, ◌^◌, ◌≤◌, ◌<◌, length, take, IfSome, IfOk, OnOk, OnErr};
ghost use Rattle.std.specs.Io.KnownBytes.{Keeps, Consumes, Appends, IsAtEnd};
ghost use Rattle.client.specs.View.{state_of};
ghost use Rattle.lines.specs.Said.{said};
ghost use Rattle.report.specs.Page.{shown};
ghost use Rattle.session.specs.Session.{ends as ends_of, memory_room};
ghost use Rattle.stream.specs.Stream.{Ready, Brings, Responds, Begun, Refilled, buffers, line_room};
ghost use Rattle.output.specs.Printed.{Due, printed};
ghost use Rattle.output.specs.Paged.{paged as paged_of};
ghost use Rattle.output.specs.Sent.{leaving, Sent, Part};
ghost use Rattle.stream.specs.History.{Turned, Followed, Prints, Pages, zeros};
ghost use Rattle.stream.specs.Carried.{Carries, Handed, Broken, Answered, PageShown, PageBroken};

use lines::{CONTENTS, Line, TAPE};
use output::{OUT, Output};
use session::{HOST, MEMORY, Session};
use std::io;
use std::io::{Read, Write};

// The bytes that a read may bring.
const CHUNK: usize = 65536;

// The longest legal line: a T with 8,192 numbers of five digits.
const LINE: usize = 49153;

// What is kept from turn to turn.
#[derive(Clone, Copy)]
pub struct State {
    // the store, and how many bytes of the tape's buffer are the tape
    pub session: Session,
    pub tape: usize,
    // whether no line was read yet, and whether the session has ended. Flags and no Option, since the session is there before its first line and after its end
    pub first: bool,
    pub done: bool,
    // whether a read failed, which ends the session as the input's end does; a flag, since the session is there either way
    pub failed: bool,
    // the bytes of the last read that are not taken yet: from place `from` up to place `to` of a fixed buffer, which stands beside, since it is too large to move
    pub from: usize,
    pub to: usize,
    // how many bytes of the line's buffer, which is fixed too, are filled
    pub len: usize,
    pub output: Output,
}

// How many bytes were handed to the writer, and whether a read failed, so that the reader may have more: a flag beside, since the bytes are handed over
// either way.
#[derive(Clone, Copy)]
pub struct Ran {
    pub handed: u64,
    pub failed: bool,
}

// What bytes bring to a line that has begun.
#[derive(Clone, Copy)]
pub enum Brought {
    // its end: it has so many bytes, and the newline is at such a place
    Whole(usize, usize),
    // all are taken, and the line goes on behind so many bytes
    Part(usize),
    // more than the buffer holds
    TooLong,
}

// Takes bytes into the line, up to a newline.
fn scan(bytes: &[u8], line: &mut [u8; LINE], len: usize) -> Brought
    requires { len ≤ line_room }
    ensures { Brings bytes.now (take len line.old) result line.new }
{
    for (i, b) in bytes.iter().enumerate() {
        let k = len + i;
        if *b == b'\n' {
            return Brought::Whole(k, i);
        }
        if k == LINE {
            return Brought::TooLong;
        }
        line[k] = *b;
    }
    Brought::Part(len + bytes.len())
}

// Whether a line ends the session.
fn ends(line: Line) -> bool
    ensures { (b : List ℕ) → ends_of (said line b) ≡ result }
{
    matches!(line, Line::Malformed)
}

// Answers a line that is no tape. A malformed one ends the session.
fn respond<W: Write>(
    s: State,
    line: &[u8],
    tape: &[u8; TAPE],
    memory: &mut [u8; MEMORY],
    host: &mut [u8; HOST],
    out: &mut [u8; OUT],
    writer: &mut W,
) -> io::Result<State>
    requires { Ready s tape.now × Due out.old s.output }
    ensures responds { IfOk result (λ r. Responds s line.now (buffers tape.now memory.old host.old out.old) r (buffers tape.now memory.new host.new out.new)) }
    ensures sent { IfOk result (λ r. Sent s.output out.old r.output (W.contents writer.old) (W.contents writer.new)) }
    ensures part { OnErr result (Part (leaving s.output out.old) (W.contents writer.old) (W.contents writer.new)) }
{
    let mut contents = [0u8; CONTENTS];
    let l = lines::read_line(line, &mut contents);
    let mut t = s;
    if ends(l) {
        t.done = true;
        return Ok(t);
    }
    let n = s.tape;
    let words: &[u8] = tape;
    let mut o = output::place(out, s.output, writer)?;
    let at = o.at;
    let p = session::answer(s.session, l, &contents, &words[..n], memory, host, out, at);
    t.done = false;
    let kept = p.session;
    t.session = kept;
    o.at = p.at;
    t.output = o;
    Ok(t)
}

// The first line is the tape, or it is answered as any other and the tape is empty. The session starts here, so that nothing is to be known of what
// was in the tape's buffer before.
fn begin<W: Write>(
    s: State,
    line: &[u8],
    tape: &mut [u8; TAPE],
    memory: &mut [u8; MEMORY],
    host: &mut [u8; HOST],
    out: &mut [u8; OUT],
    writer: &mut W,
) -> io::Result<State>
    requires { Ready s tape.old × Due out.old s.output }
    ensures begun { IfOk result (λ r. Begun s line.now (buffers tape.old memory.old host.old out.old) r (buffers tape.new memory.new host.new out.new)) }
    ensures sent { IfOk result (λ r. Sent s.output out.old r.output (W.contents writer.old) (W.contents writer.new)) }
    ensures part { OnErr result (Part (leaving s.output out.old) (W.contents writer.old) (W.contents writer.new)) }
{
    let mut t = s;
    t.session = session::start();
    t.first = false;
    if let Some(k) = lines::read_tape(line, tape) {
        t.tape = k * 2;
        return Ok(t);
    }
    t.tape = 0;
    respond(t, line, tape, memory, host, out, writer)
}

// Writes out what is answered, and then reads: nothing stays behind while the read waits. Where nothing comes, at the input's end or by an error of the read,
// the session ends: the line that has begun has no newline. The input is what each read leaves in the first bytes of the chunk, as many as it tells. An error of
// the write is returned, and then nothing is read.
fn refill<R: Read, W: Write>(
    s: State,
    reader: &mut R,
    writer: &mut W,
    chunk: &mut [u8; CHUNK],
    out: &mut [u8; OUT],
) -> io::Result<State>
    requires { Due out.old s.output }
    ensures refilled { IfOk result (λ r. Refilled s r) }
    ensures read { IfOk result (λ r. Consumes (R.remaining reader.old) (R.remaining reader.new) (take r.to chunk.new)) }
    ensures end { IfOk result (λ r. r.to ≡ 0 → r.failed ≡ false → IsAtEnd (R.remaining reader.new)) }
    ensures sent { IfOk result (λ r. Sent s.output out.old r.output (W.contents writer.old) (W.contents writer.new)) }
    ensures unread { OnErr result (Keeps (R.remaining reader.old) (R.remaining reader.new)) }
    ensures part { OnErr result (Part (leaving s.output out.old) (W.contents writer.old) (W.contents writer.new)) }
{
    let mut t = s;
    let o = output::flush(out, s.output, writer)?;
    t.output = o;
    t.from = 0;
    let got = reader.read(chunk);
    t.failed = got.is_err();
    let n = got.unwrap_or(0);
    t.to = n;
    t.done = n == 0;
    Ok(t)
}

// Answers the next line of what was read, or reads. Each byte that was read is taken once, in order, and all that the bytes taken print has left or is in the
// output's buffer (`History`).
fn turn<R: Read, W: Write>(
    s: State,
    reader: &mut R,
    writer: &mut W,
    chunk: &mut [u8; CHUNK],
    line: &mut [u8; LINE],
    tape: &mut [u8; TAPE],
    memory: &mut [u8; MEMORY],
    host: &mut [u8; HOST],
    out: &mut [u8; OUT],
) -> io::Result<State>
    requires { Ready s tape.old × Due out.old s.output × (s.done ≡ false) }
    ensures turned { IfOk result (λ r. (t : Turned s chunk.old line.old (buffers tape.old memory.old host.old out.old) r chunk.new line.new (buffers tape.new memory.new host.new out.new))
        × Carries s chunk.old line.old (buffers tape.old memory.old host.old out.old) t.found r chunk.new (R.remaining reader.old) (R.remaining reader.new) (W.contents writer.old) (W.contents writer.new)) }
    ensures unread { OnErr result (Keeps (R.remaining reader.old) (R.remaining reader.new)) }
    ensures part { OnErr result (Part (leaving s.output out.old) (W.contents writer.old) (W.contents writer.new)) }
{
    let from = s.from;
    let to = s.to;
    let read: &[u8] = chunk;
    let mut t = s;
    match scan(&read[from..to], line, s.len) {
        Brought::Whole(len, i) => {
            t.from = from + i + 1;
            t.len = 0;
            let text: &[u8] = line;
            if t.first {
                return begin(t, &text[..len], tape, memory, host, out, writer);
            }
            respond(t, &text[..len], tape, memory, host, out, writer)
        }
        Brought::Part(len) => {
            t.len = len;
            refill(t, reader, writer, chunk, out)
        }
        Brought::TooLong => {
            t.done = true;
            Ok(t)
        }
    }
}

// A proved loop has to end, and nothing says that the input does: the turns are as many as no run uses up. 2^53 turns last 28 years at ten
// million a second. A turn prints at most 1,027 bytes, so that the count of them all stays below 2^64.
const TURNS: u64 = 9007199254740992;

// Answers the lines that come from a reader, up to the end of the session: its store is left in the memory, and what is not handed over yet in the output's
// buffer. An error of a write ends it at once.
fn follow<R: Read, W: Write>(
    reader: &mut R,
    writer: &mut W,
    silent: bool,
    memory: &mut [u8; MEMORY],
    out: &mut [u8; OUT],
) -> io::Result<State>
    ensures followed { IfOk result (λ r. (f : Followed zeros silent r memory.new out.new)
        × Handed zeros silent f.input r (R.remaining reader.old) (R.remaining reader.new) (W.contents writer.old) (W.contents writer.new)) }
    ensures broken { OnErr result (Broken zeros silent (R.remaining reader.old) (R.remaining reader.new) (W.contents writer.old) (W.contents writer.new)) }
{
    let mut chunk = [0u8; CHUNK];
    let mut line = [0u8; LINE];
    let mut tape = [0u8; TAPE];
    let mut host = [0u8; HOST];
    let mut s = State {
        session: session::start(),
        tape: 0,
        first: true,
        done: false,
        failed: false,
        from: 0,
        to: 0,
        len: 0,
        output: output::empty(silent),
    };
    for _turn in 0..TURNS {
        s = turn(
            s, reader, writer, &mut chunk, &mut line, &mut tape, memory, &mut host, out,
        )?;
        if s.done {
            return Ok(s);
        }
    }
    Ok(s)
}

// The session program: it answers the lines, and tells how many bytes it handed to the writer: as many as the lines print. What the writer holds grows by just
// what the lines print that were read; after an error of a write by the first bytes of that. And these are all lines: where no read or write fails, the writer's
// bytes grow by just what all bytes of the reader print, if they are fewer than 2^52.
pub fn run<R: Read, W: Write>(reader: &mut R, writer: &mut W) -> io::Result<Ran>
    ensures prints { IfOk result (λ r. Prints zeros r.handed) }
    ensures answered { IfOk result (λ r. Answered zeros (R.remaining reader.old) (R.remaining reader.new) (W.contents writer.old) (W.contents writer.new) r.handed) }
    ensures whole { IfOk result (λ r. IfSome (R.remaining reader.old) (λ input. r.failed ≡ false → length input < 2 ^ 52
        → Appends (W.contents writer.old) (W.contents writer.new) (printed zeros input))) }
    ensures broken { OnErr result (Broken zeros false (R.remaining reader.old) (R.remaining reader.new) (W.contents writer.old) (W.contents writer.new)) }
{
    let mut memory = [0u8; MEMORY];
    let mut out = [0u8; OUT];
    let s = follow(reader, writer, false, &mut memory, &mut out)?;
    let handed = output::finish(&mut out, s.output, writer)?;
    Ok(Ran {
        handed,
        failed: s.failed,
    })
}

// Hands over the page of the store that a session left, and tells how many bytes were handed over in all. The answers that the output's buffer holds are not
// needed any more, and it has room for every page.
fn present<W: Write>(
    s: State,
    memory: &[u8; MEMORY],
    out: &mut [u8; OUT],
    writer: &mut W,
) -> io::Result<u64>
    requires { Followed zeros true s memory.now out.old }
    ensures count { IfOk result (λ n. n ≡ length (shown (state_of s.session.client memory.now) memory_room)) }
    ensures all { OnOk result (Appends (W.contents writer.old) (W.contents writer.new) (shown (state_of s.session.client memory.now) memory_room)) }
    ensures part { OnErr result (Part (shown (state_of s.session.client memory.now) memory_room) (W.contents writer.old) (W.contents writer.new)) }
{
    let n = report::write(s.session.client, memory, out).unwrap_or(0);
    output::show(out, n, s.output, writer)
}

// The page program: it follows the session, prints none of its answers and at its end the page. Tells how many bytes it handed to the writer: as many as the
// page has. What the writer holds grows by just the page that the lines leave that were read; after an error of a write by the first bytes of it. And these are all
// lines, as in `run`.
pub fn page<R: Read, W: Write>(reader: &mut R, writer: &mut W) -> io::Result<Ran>
    ensures pages { IfOk result (λ r. Pages zeros r.handed) }
    ensures paged { IfOk result (λ r. PageShown zeros (R.remaining reader.old) (R.remaining reader.new) (W.contents writer.old) (W.contents writer.new) r.handed) }
    ensures whole { IfOk result (λ r. IfSome (R.remaining reader.old) (λ input. r.failed ≡ false → length input < 2 ^ 52
        → Appends (W.contents writer.old) (W.contents writer.new) (paged_of zeros input))) }
    ensures broken { OnErr result (PageBroken zeros (R.remaining reader.old) (R.remaining reader.new) (W.contents writer.old) (W.contents writer.new)) }
{
    let mut memory = [0u8; MEMORY];
    let mut out = [0u8; OUT];
    let s = follow(reader, writer, true, &mut memory, &mut out)?;
    let handed = present(s, &memory, &mut out, writer)?;
    Ok(Ran {
        handed,
        failed: s.failed,
    })
}
