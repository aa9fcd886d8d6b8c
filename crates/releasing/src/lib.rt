// A held request that nothing holds any longer is released: the place of its block is looked up.
#![tactic(auto)]

ghost use Rattle.std.specs.Prelude.{◌≡◌, suc, ◌<◌, ◌≤◌, IfOk};
ghost use Rattle.rules.specs.State.{found_number};
ghost use Rattle.rules.specs.Blocks.{look_up};
ghost use Rattle.rules.specs.Jobs.{queued};
ghost use Rattle.rules.specs.Request.{undrawn_only, held_for};
ghost use Rattle.client.specs.View.{state_of};
ghost use Rattle.client.specs.Moves.{Room};
ghost use Rattle.contract.specs.Answers.{answered};
ghost use Rattle.releasing.specs.Performs.{Settled};
ghost use Rattle.releasing.specs.Released.{Releasable, Released};

use client::Client;
use contract::{Accepted, Refusal};
use memory::tables::{self, Table};

// Where the request's block is found, as the number that the request carries (`found` of Request): 1 for nowhere, 2 for the cache, and from 3 on the levels.
fn look_up(c: Client, m: &[u8]) -> usize
    requires { Room c m.now × (c.waiting ≤ c.shape.n) × (c.request.block < c.shape.n) }
    ensures { (result ≡ suc (found_number (look_up (state_of c m.now) c.request.block))) × (result < 20) }
{
    let x = tables::get(c.shape, m, Table::Place, c.request.block);
    if 2 <= x {
        return bits::level_of(x - 2) + 3;
    }
    if cache::is_waiting(c, m, c.request.block) {
        2
    } else {
        1
    }
}

// Whether the only job for partition q, of which n are queued, is at the front of the queue and has not drawn its orders. Jobs that run together count as
// one.
fn is_undrawn_only(c: Client, m: &[u8], q: usize, n: usize) -> bool
    requires { Room c m.now × (c.jobs ≤ 64) × (1 ≤ n) × (n ≡ queued (state_of c m.now).queue q) }
    ensures { result ≡ undrawn_only (state_of c m.now) q }
{
    if c.sent != 0 {
        return false;
    }
    if jobs::front(c, m) != q {
        return false;
    }
    (n <= 1) | (n <= c.begun)
}

// Whether a request for a block of partition q is held: a job for q is queued, but for the only one, at the front and undrawn, if no other level is worn.
fn is_held_for(c: Client, m: &[u8], q: usize) -> bool
    requires { Room c m.now × (c.jobs ≤ 64) × (q < c.shape.p) × (c.begun ≤ 64) }
    ensures { result ≡ held_for (state_of c m.now) q }
{
    let n = jobs::queued(c, m, q);
    if n == 0 {
        return false;
    }
    if !is_undrawn_only(c, m, q, n) {
        return true;
    }
    reading::is_worn(c, m, q)
}

// The queue is gone over only while a request is held. What is outstanding at its release is awaited.
pub fn release(c: Client, m: &[u8]) -> Client
    requires { Releasable c m.now }
    ensures { Released c m.now result }
{
    let r = c.request;
    if r.kind == 0 {
        return c;
    }
    if r.found != 0 {
        return c;
    }
    let q = tables::get(c.shape, m, Table::Partition, r.block);
    if is_held_for(c, m, q) {
        return c;
    }
    let found = look_up(c, m);
    c.with_request(r.at_found(found, c.out))
}

// The answer to a call: a refused one is handed on as it is, and the client of an accepted one is released now.
pub fn settle(r: Result<Accepted, Refusal>, m: &[u8]) -> Result<Accepted, Refusal>
    requires { IfOk r (λ a. Releasable a.client m.now) }
    ensures { (c : Client) → Settled (answered c r) m.now (answered c result) }
{
    let mut a = r?;
    a.client = release(a.client, m);
    Ok(a)
}
