// The client's state as 76 bytes, and an answer as one number.
#![tactic(auto)]

ghost use Rattle.std.specs.Prelude.{◌≡◌, ◌*◌, ◌%◌, ◌≤◌, ◌<◌, IfOk, eqb, false, if◌then◌else◌};
ghost use Rattle.lists.specs.Tables.{put as put_at};
ghost use Rattle.memory.specs.Words.{word_at};
ghost use Rattle.contract.specs.Answers.{accepted_as, answered};
ghost use Rattle.codec.specs.Codec.{client_of, with_six, with_shape, with_asked, with_turn, with_completion, with_found, with_progress, with_rest, Small, packed};

use client::{Client, READ, Request};
use contract::{Accepted, Refusal};
use memory::Shape;

// The bytes of a state.
pub const STATE: usize = 76;

// Number k of the state.
fn number(s: &[u8; STATE], k: usize) -> usize
    requires { k < 19 }
    ensures { result ≡ word_at s.now (k * 2) }
{
    memory::word(s, k * 2)
}

fn set_number(s: &mut [u8; STATE], k: usize, v: usize)
    requires { k < 19 }
    ensures { word_at s.new ≡ put_at (k * 2) (v % 65536) (word_at s.old) }
{
    memory::set_word(s, k * 2, v % 65536);
}

// Stores six numbers from number k on. It takes plain numbers, since a struct lies in memory where this is a call.
fn set_six(
    s: &mut [u8; STATE],
    k: usize,
    a: usize,
    b: usize,
    c: usize,
    d: usize,
    e: usize,
    f: usize,
)
    requires { k ≤ 13 }
    ensures { word_at s.new ≡ with_six k a b c d e f (word_at s.old) }
{
    set_number(s, k, a);
    set_number(s, k + 1, b);
    set_number(s, k + 2, c);
    set_number(s, k + 3, d);
    set_number(s, k + 4, e);
    set_number(s, k + 5, f);
}

// As forms::header::shape reads a form's: one function for both would take what reads a number as a closure, and be no shorter.
fn shape(s: &[u8; STATE]) -> Shape
    ensures { result ≡ (client_of (word_at s.now)).shape }
{
    Shape {
        n: number(s, 0),
        p: number(s, 1),
        l: number(s, 2),
        b: number(s, 3),
        e: number(s, 4),
        w: number(s, 5),
    }
}

fn request(s: &[u8; STATE]) -> Request
    ensures { result ≡ (client_of (word_at s.now)).request }
{
    Request {
        kind: number(s, 6),
        block: number(s, 7),
        next: number(s, 8),
        evict: number(s, 9),
        level: number(s, 10),
        found: number(s, 11),
        awaits: number(s, 12),
    }
}

pub fn decode(s: &[u8; STATE]) -> Client
    ensures { result ≡ client_of (word_at s.now) }
{
    Client {
        shape: shape(s),
        request: request(s),
        jobs: number(s, 13),
        begun: number(s, 14),
        cursor: number(s, 15),
        sent: number(s, 16),
        waiting: number(s, 17),
        out: number(s, 18),
    }
}

fn put_shape(s: &mut [u8; STATE], h: Shape)
    ensures { word_at s.new ≡ with_shape h (word_at s.old) }
{
    set_six(s, 0, h.n, h.p, h.l, h.b, h.e, h.w);
}

// What the request asks for.
fn put_request(s: &mut [u8; STATE], r: Request)
    ensures { word_at s.new ≡ with_asked r (word_at s.old) }
{
    set_number(s, 6, r.kind);
    set_number(s, 7, r.block);
    set_number(s, 8, r.next);
    set_number(s, 9, r.evict);
}

// Stores what a turn changes that sends a command of this kind: the others stay as they are in the bytes. The kind is a number: the answer's, 0 for none
// (C interface).
pub fn encode_turn(s: &mut [u8; STATE], c: Client, kind: usize)
    ensures { word_at s.new ≡ with_turn kind c (word_at s.old) }
{
    set_number(s, 18, c.out);
    set_number(s, 14, c.begun);
    if kind == READ {
        set_number(s, 10, c.request.level);
        set_number(s, 12, c.request.awaits);
        set_number(s, 15, c.cursor);
        return;
    }
    set_number(s, 16, c.sent);
    set_number(s, 17, c.waiting);
}

// Stores what the completion of a command of this kind changes. The kind is a number: the caller's (C interface).
pub fn encode_completion(s: &mut [u8; STATE], c: Client, kind: usize)
    ensures { word_at s.new ≡ with_completion kind c (word_at s.old) }
{
    set_number(s, 18, c.out);
    set_number(s, 12, c.request.awaits);
    if kind == READ {
        return;
    }
    set_number(s, 13, c.jobs);
    set_number(s, 14, c.begun);
    set_number(s, 15, c.cursor);
    set_number(s, 16, c.sent);
}

// Stores how far the client is, where its request's block was found and what it awaits.
fn encode_progress(s: &mut [u8; STATE], c: Client)
    ensures { word_at s.new ≡ with_progress c (word_at s.old) }
{
    set_number(s, 10, c.request.level);
    set_number(s, 11, c.request.found);
    set_number(s, 12, c.request.awaits);
    set_six(s, 13, c.jobs, c.begun, c.cursor, c.sent, c.waiting, c.out);
}

// Stores all but the shape, which only an open changes.
pub fn encode_rest(s: &mut [u8; STATE], c: Client)
    ensures { word_at s.new ≡ with_rest c (word_at s.old) }
{
    put_request(s, c.request);
    encode_progress(s, c);
}

pub fn encode(s: &mut [u8; STATE], c: Client)
    ensures { word_at s.new ≡ with_rest c (with_shape c.shape (word_at s.old)) }
{
    put_shape(s, c.shape);
    encode_rest(s, c);
}

// Whether the request in hand is held. Mostly none is in hand, so that is asked first.
pub fn is_held(s: &[u8; STATE]) -> bool
    ensures { result ≡ (if eqb (client_of (word_at s.now)).request.kind 0 then false else eqb (client_of (word_at s.now)).request.found 0) }
{
    if number(s, 6) == 0 {
        return false;
    }
    number(s, 11) == 0
}

// Stores where the request's block was found, and what it awaits.
pub fn set_found(s: &mut [u8; STATE], found: usize, awaits: usize)
    ensures { word_at s.new ≡ with_found found awaits (word_at s.old) }
{
    set_number(s, 11, found);
    set_number(s, 12, awaits);
}

// From the lowest bit on: the number in 5 bits, the kind in 2, the partition in 6, the level in 4, the slot in 11 and where a block was found in 4;
// the words taken in the upper 32. An accepted call's number is 0; a refusal has its number alone.
pub fn pack(r: Result<Accepted, Refusal>) -> u64
    requires { IfOk r (λ a. Small (accepted_as a)) }
    ensures { (c : Client) → result ≡ packed (answered c r) }
{
    let r = match r {
        Ok(r) => r,
        Err(e) => return u64::from(e),
    };
    let low = 32 * r.kind
        + 128 * r.partition
        + 8192 * r.level
        + 131072 * r.slot
        + 268435456 * r.found;
    (low + 4294967296 * r.taken) as u64 // as, since std has no From of usize for u64
}
