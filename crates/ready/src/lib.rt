// The question with which the other four calls begin: memory long enough, each number of the state in its range?
#![tactic(auto)]

ghost use Rattle.std.specs.Prelude.{◌≡◌, true, ◌≤◌, length};
ghost use Rattle.rules.specs.Questions.{ready};
ghost use Rattle.memory.specs.Fits.{shape_of};
ghost use Rattle.memory.specs.Tables.{tables_of};
ghost use Rattle.client.specs.View.{state_of};
ghost use Rattle.client.specs.Ready.{request_fits, counts_fit, hand_fits, own_waits};
ghost use Rattle.client.specs.Moves.{Room};
ghost use Rattle.ready.specs.Usable.{shape_fits};

use client::{Client, READ, Request, WRITE};
use memory::Shape;

// Each number of the request in hand is in its range.
fn request_fits(h: Shape, r: Request) -> bool
    requires { h.l ≤ 8 }
    ensures { result ≡ request_fits (shape_of h) r }
{
    (READ <= r.kind)
        & (r.kind <= WRITE)
        & (r.block < h.n)
        & (r.next < h.p)
        & (r.evict < h.p)
        & (r.level <= h.l)
        & (r.found < h.l + 3)
        & (r.awaits <= h.w)
}

// So are the counts.
fn counts_fit(c: Client) -> bool
    requires { c.shape.l ≤ 8 }
    ensures { result ≡ counts_fit c }
{
    let slots = bits::pow2(c.shape.l + 1) - 2;
    (c.begun <= 64)
        & (c.cursor <= slots)
        & (c.sent <= slots)
        & (c.out <= c.shape.w)
        & (c.waiting <= c.shape.e)
}

// With a request in hand there is room for its jobs and its block.
fn hand_fits(c: Client, m: &[u8]) -> bool
    requires { Room c m.now × (c.waiting ≤ c.shape.n) }
    ensures { result ≡ hand_fits c (own_waits c (tables_of (shape_of c.shape) m.now)) }
{
    let r = c.request;
    if r.kind == 0 {
        return c.jobs <= 64;
    }
    if !(request_fits(c.shape, r) & (c.jobs <= 62)) {
        return false;
    }
    if c.waiting < c.shape.e {
        return true;
    }
    cache::is_waiting(c, m, r.block)
}

// The shape is within bounds, and the memory is long enough for it.
pub fn shape_fits(h: Shape, len: usize) -> bool
    ensures { result ≡ shape_fits (shape_of h) len }
{
    if !contract::is_within(h) {
        return false;
    }
    contract::needed(h) <= len
}

// With such a shape: each number of the state is in its range.
pub fn numbers_fit(c: Client, m: &[u8]) -> bool
    requires { shape_fits (shape_of c.shape) (length m.now) ≡ true }
    ensures { result ≡ ready (state_of c m.now) (length m.now) }
{
    if !counts_fit(c) {
        return false;
    }
    hand_fits(c, m)
}

// Both. Turn and completion, of which a look-up takes many, ask the two parts themselves: each is small enough for the compiler to put it in place.
pub fn is_ready(c: Client, m: &[u8]) -> bool
    ensures { result ≡ ready (state_of c m.now) (length m.now) }
{
    if !shape_fits(c.shape, m.len()) {
        return false;
    }
    numbers_fit(c, m)
}
