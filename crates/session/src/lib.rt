// The answer to one line of a session: the calls that it asks for, and the text that it prints.
#![tactic(auto)]

ghost use Rattle.std.specs.Prelude.{◌≡◌, ◌+◌, ◌*◌, ◌-◌, ◌≤◌, ◌<◌, length};
ghost use Rattle.rules.specs.Shape.{slots};
ghost use Rattle.rules.specs.State.{cmd};
ghost use Rattle.memory.specs.Fits.{shape_of};
ghost use Rattle.contract.specs.Answers.{number_of, accepted_as, answered};
ghost use Rattle.lines.specs.Lines.{opens, turns, collects, tape_room};
ghost use Rattle.lines.specs.Said.{said, Small};
ghost use Rattle.printing.specs.Text.{number_text};
ghost use Rattle.printing.specs.Laws.{text_room};
ghost use Rattle.lists.specs.Written.{Written};
ghost use Rattle.session.specs.Session.{serves as serves_of, start as start_of, host_room};
ghost use Rattle.session.specs.Answers.{Served, Answers, AnswersApart, Asks, Slot, Completes, fresh};

use client::{Client, READ, WRITE};
use contract::{Accepted, Refusal};
use lines::{CONTENTS, Line};
use memory::Shape;

// A session serves stores of at most so many blocks, and so many bytes at the host in memory; the calls are lent so much memory, which is enough for
// each of them (`served-fits`).
const BLOCKS: usize = 64;

pub const HOST: usize = 16384;

pub const MEMORY: usize = 133120;

// What is kept from line to line: the client, and how many words of the tape are taken.
#[derive(Clone, Copy)]
pub struct Session {
    pub client: Client,
    pub taken: usize,
}

// After a line: what is kept, and where the text ends that it printed.
#[derive(Clone, Copy)]
pub struct Printed {
    pub session: Session,
    pub at: usize,
}

// A session begins with a closed state.
pub fn start() -> Session
    ensures { result ≡ fresh }
{
    Session {
        client: contract::closed(),
        taken: 0,
    }
}

// Whether there is room for a store of this shape, which is within bounds, so that no product wraps.
fn serves(h: Shape) -> bool
    requires { (h.p ≤ 64) × (h.l ≤ 8) × (h.b ≤ 512) }
    ensures { result ≡ serves_of (shape_of h) }
{
    let slots = bits::pow2(h.l + 1) - 2;
    (h.n <= BLOCKS) & (h.p * slots * h.b <= HOST)
}

// A refused line prints its number alone.
fn refuse(s: Session, e: Refusal, out: &mut [u8], at: usize) -> Printed
    requires { at + text_room ≤ length out.old }
    ensures { (result.session ≡ s) × Written out.old at (number_text (number_of e)) out.new result.at }
{
    let k = printing::number(out, at, usize::from(e));
    Printed { session: s, at: k }
}

// What is kept after an accepted call.
fn later(s: Session, r: Accepted) -> Session
    requires { s.taken + r.taken < 65536 }
    ensures { result ≡ record { client = r.client; taken = s.taken + r.taken } }
{
    let client = r.client;
    Session {
        client,
        taken: s.taken + r.taken,
    }
}

// O: a shape that the session does not serve is answered as if no memory were lent for it.
fn open_line(
    s: Session,
    h: Shape,
    memory: &mut [u8; MEMORY],
    tape: &[u8],
    out: &mut [u8],
    at: usize,
) -> Printed
    requires { Served s tape.now × (length tape.now ≤ tape_room) × (at + text_room ≤ length out.old) }
    ensures { AnswersApart s (opens (shape_of h)) memory.old tape.now out.old at result memory.new out.new }
{
    if !contract::is_within(h) {
        return refuse(s, Refusal::Bounds, out, at);
    }
    if !serves(h) {
        return refuse(s, Refusal::Unready, out, at);
    }
    let from = s.taken * 2;
    match opening::open(h, memory, &tape[from..]) {
        Ok(r) => {
            let k = printing::number(out, at, 0);
            Printed {
                session: later(s, r),
                at: k,
            }
        }
        Err(e) => refuse(s, e, out, at),
    }
}

// R and W: kind 1 with no contents, kind 2 with those of the line. The kind is a number: `request` takes it from its caller (C interface).
fn ask_line(
    s: Session,
    kind: usize,
    block: usize,
    contents: &[u8],
    memory: &mut [u8; MEMORY],
    tape: &[u8],
    out: &mut [u8],
    at: usize,
) -> Printed
    requires { Served s tape.now × (length tape.now ≤ tape_room) × (at + text_room ≤ length out.old) }
    ensures { Asks s kind block contents.now memory.old tape.now out.old at result memory.new out.new }
{
    let from = s.taken * 2;
    match requesting::request(s.client, memory, kind, block, contents, &tape[from..]) {
        Ok(r) => {
            let k = printing::number(out, at, 0);
            Printed {
                session: later(s, r),
                at: k,
            }
        }
        Err(e) => refuse(s, e, out, at),
    }
}

// Where a slot's bytes begin in the host.
fn first(h: Shape, q: usize, l: usize, i: usize) -> usize
    requires { Slot (shape_of h) (cmd 0 q l i) }
    ensures { (result ≡ start_of (shape_of h) (cmd 0 q l i)) × (result + h.b ≤ host_room) }
{
    (q * (bits::pow2(h.l + 1) - 2) + (bits::pow2(l + 1) - 2) + i) * h.b
}

// The client after a call of c: the call's own if it is accepted.
fn left(c: Client, r: Result<Accepted, Refusal>) -> Client
    ensures { result ≡ (answered c r).client }
{
    match r {
        Ok(r) => r.client,
        Err(_) => c,
    }
}

// The host completes the command of a turn: a write's bytes are stored, a read brings those of its slot.
fn complete(r: Accepted, memory: &mut [u8; MEMORY], host: &mut [u8; HOST], bytes: &[u8]) -> Client
    requires { Slot (shape_of r.client.shape) (cmd 0 r.partition r.level r.slot) × (1 ≤ r.kind) × (r.kind ≤ 2) × (length bytes.now ≡ r.client.shape.b) }
    ensures { Completes (accepted_as r) memory.old host.old bytes.now result memory.new host.new }
{
    let a = first(r.client.shape, r.partition, r.level, r.slot);
    let e = a + r.client.shape.b;
    if r.kind == WRITE {
        host[a..e].copy_from_slice(bytes);
        let w = completing::completion(
            r.client,
            memory,
            WRITE,
            r.partition,
            r.level,
            r.slot,
            &host[0..0],
        );
        return left(r.client, w);
    }
    let d = completing::completion(
        r.client,
        memory,
        r.kind,
        r.partition,
        r.level,
        r.slot,
        &host[a..e],
    );
    left(r.client, d)
}

// A turn with a buffer of B bytes, and the completion of its command.
fn turn_with(
    s: Session,
    memory: &mut [u8; MEMORY],
    host: &mut [u8; HOST],
    tape: &[u8],
    buffer: &mut [u8],
    out: &mut [u8],
    at: usize,
) -> Printed
    requires { Served s tape.now × (length tape.now ≤ tape_room) × (at + text_room ≤ length out.old) × (length buffer.old ≡ s.client.shape.b) }
    ensures { Answers s turns memory.old tape.now host.old out.old at result memory.new host.new out.new }
{
    let from = s.taken * 2;
    match turning::turn(s.client, memory, &tape[from..], buffer) {
        Ok(r) => {
            let client = complete(r, memory, host, buffer);
            let k = printing::command(out, at, r.kind, r.partition, r.level, r.slot);
            Printed {
                session: Session {
                    client,
                    taken: s.taken + r.taken,
                },
                at: k,
            }
        }
        Err(e) => refuse(s, e, out, at),
    }
}

// t. (As for C: each lends its own call a buffer of B bytes.)
fn turn_line(
    s: Session,
    memory: &mut [u8; MEMORY],
    host: &mut [u8; HOST],
    tape: &[u8],
    out: &mut [u8],
    at: usize,
) -> Printed
    requires { Served s tape.now × (length tape.now ≤ tape_room) × (at + text_room ≤ length out.old) }
    ensures { Answers s turns memory.old tape.now host.old out.old at result memory.new host.new out.new }
{
    let mut buffer = [0u8; 512];
    let size = s.client.shape.b;
    turn_with(s, memory, host, tape, &mut buffer[0..size], out, at)
}

// A collect with a buffer of B bytes.
fn collect_with(
    s: Session,
    memory: &mut [u8; MEMORY],
    tape: &[u8],
    buffer: &mut [u8],
    out: &mut [u8],
    at: usize,
) -> Printed
    requires { Served s tape.now × (length tape.now ≤ tape_room) × (at + text_room ≤ length out.old) × (length buffer.old ≡ s.client.shape.b) }
    ensures { AnswersApart s collects memory.old tape.now out.old at result memory.new out.new }
{
    match collecting::collect(s.client, memory, buffer) {
        Ok(r) => {
            let k = printing::contents(out, at, buffer);
            Printed {
                session: later(s, r),
                at: k,
            }
        }
        Err(e) => refuse(s, e, out, at),
    }
}

// C
fn collect_line(
    s: Session,
    memory: &mut [u8; MEMORY],
    tape: &[u8],
    out: &mut [u8],
    at: usize,
) -> Printed
    requires { Served s tape.now × (length tape.now ≤ tape_room) × (at + text_room ≤ length out.old) }
    ensures { AnswersApart s collects memory.old tape.now out.old at result memory.new out.new }
{
    let mut buffer = [0u8; 512];
    let size = s.client.shape.b;
    collect_with(s, memory, tape, &mut buffer[0..size], out, at)
}

// The answer to a line that is not malformed; a malformed one prints nothing.
pub fn answer(
    s: Session,
    line: Line,
    contents: &[u8; CONTENTS],
    tape: &[u8],
    memory: &mut [u8; MEMORY],
    host: &mut [u8; HOST],
    out: &mut [u8],
    at: usize,
) -> Printed
    requires { Served s tape.now × Small line × (length tape.now ≤ tape_room) × (at + text_room ≤ length out.old) }
    ensures { Answers s (said line contents.now) memory.old tape.now host.old out.old at result memory.new host.new out.new }
{
    match line {
        Line::Open(h) => open_line(s, h, memory, tape, out, at),
        Line::Read(b) => ask_line(s, READ, b, &contents[0..0], memory, tape, out, at),
        Line::Write(b, k) => ask_line(s, WRITE, b, &contents[0..k], memory, tape, out, at),
        Line::Turn => turn_line(s, memory, host, tape, out, at),
        Line::Collect => collect_line(s, memory, tape, out, at),
        Line::Malformed => Printed { session: s, at },
    }
}
