// The steps of a turn: each sends one command, if enough is lent for it. The turn releases a request after it.
#![tactic(auto)]

ghost use Rattle.std.specs.Prelude.{true, ◌≡◌, suc, ◌+◌, ◌<◌, ◌≤◌, length, take, if◌then◌else◌};
ghost use Rattle.lists.specs.Search.{keep};
ghost use Rattle.rules.specs.Shape.{slots};
ghost use Rattle.rules.specs.Draws.{draws};
ghost use Rattle.rules.specs.Levels.{filled, down};
ghost use Rattle.rules.specs.Jobs.{joined as joined_of, levels_of, capacity, orders_bounds};
ghost use Rattle.rules.specs.Request.{is_source};
ghost use Rattle.rules.specs.Blocks.{holder, slot_bytes};
ghost use Rattle.rules.specs.Rebuild.{chosen as chosen_of, gathered as gathered_of, fills, do_rebuild};
ghost use Rattle.rules.specs.Turn.{read_for_request as read_for_request_of, read_for_job as read_for_job_of, rebuild as rebuild_of, write_next as write_next_of};
ghost use Rattle.rules.specs.Questions.{turn as turn_of};
ghost use Rattle.rules.specs.Run.{numbers_of, taken_of};
ghost use Rattle.rules.specs.Laws.Draws.{Enough};
ghost use Rattle.client.specs.View.{state_of};
ghost use Rattle.client.specs.Moves.{Room, Stands};
ghost use Rattle.tape.specs.Tape.{words_of};
ghost use Rattle.contract.specs.Answers.{accepted_as, answered};
ghost use Rattle.cache.specs.Longest.{waits_for, Longest};
ghost use Rattle.gather.specs.Gathered.{Gathers};
ghost use Rattle.ready.specs.Usable.{Usable};
ghost use Rattle.jobs.specs.Runs.{RunOf};
ghost use Rattle.releasing.specs.Performs.{Performs};
ghost use Rattle.sending.specs.Plans.{PlanOf};
ghost use Rattle.sending.specs.Sent.{Due, Reads, Writes, passed};

use client::{Client, Kind, READ, WRITE};
use contract::{Accepted, Refusal};
use jobs::Run;
use memory::tables::{self, Table};

// What a rebuild goes by: how many jobs run together, the highest level that they write, the counter after them; the place in the cache of the block that
// has waited longest for their partition, if one waits for it, and how many such blocks are taken at most.
#[derive(Clone, Copy)]
pub struct Plan {
    pub joined: usize,
    pub top: usize,
    pub next: usize,
    pub first: Option<usize>,
    pub taken: usize,
}

// How many jobs the front one runs for once a request's read of level l of q is sent: that of a source begins it.
fn begun(c: Client, m: &[u8], q: usize, l: usize) -> usize
    requires { Usable c m.now × (q < c.shape.p) × (filled ((state_of c m.now).counter q) l ≡ true) }
    ensures { result ≡ (if is_source (state_of c m.now) q l then joined_of (state_of c m.now) q else c.begun) }
{
    if reading::sources(c, m, q) <= l {
        return c.begun;
    }
    let run = jobs::running(c, m, q);
    run.joined
}

// The request goes on from the level above l, and awaits all that is outstanding once its read there is sent.
fn pass_level(c: Client, l: usize) -> Client
    requires { (l < 8) × (c.out < 32) }
    ensures { result ≡ passed l c }
{
    c.with_request(c.request.at_level(l + 1, c.out + 1))
}

// Sends the request's read. That of a source's slot counts for the job too.
pub fn read_for_request(c: Client, m: &mut [u8], q: usize, l: usize, i: usize) -> Accepted
    requires { Due c m.old (read_for_request_of q l i) }
    ensures { Reads c m.old (accepted_as result) m.new }
{
    let n = begun(c, m, q, l);
    levels::mark_read(c, m, q, l, i);
    let d = pass_level(c.with_begun(n), l);
    let e = commands::send(d, m, Kind::Read, q, l, i);
    Accepted::sent(e, 0, READ, q, l, i)
}

// Sends the job's next read.
pub fn read_for_job(c: Client, m: &mut [u8], q: usize, l: usize, i: usize) -> Accepted
    requires { Due c m.old (read_for_job_of q l i) }
    ensures { Reads c m.old (accepted_as result) m.new }
{
    let run = jobs::running(c, m, q);
    levels::mark_read(c, m, q, l, i);
    let d = c
        .with_begun(run.joined)
        .with_cursor(bits::pow2(l + 1) - 2 + i + 1);
    let e = commands::send(d, m, Kind::Read, q, l, i);
    Accepted::sent(e, 0, READ, q, l, i)
}

// The bytes of the block in a slot, or zeros for a dummy, go into the buffer.
fn put_bytes(c: Client, m: &[u8], q: usize, l: usize, i: usize, buffer: &mut [u8])
    requires { Room c m.now × (q < c.shape.p) × (l < c.shape.l) × (i < slots l) × (length buffer.old ≡ c.shape.b) }
    ensures { buffer.new ≡ slot_bytes (state_of c m.now) (holder (state_of c m.now) q l i) }
{
    let x = levels::cell(c.shape, q, l, i);
    let b = tables::get(c.shape, m, Table::Holds, x);
    if b == 0 {
        memory::blocks::zeros(buffer);
        return;
    }
    memory::blocks::load(c.shape, m, b - 1, buffer);
}

// Sends the job's next write.
pub fn write_next(
    c: Client,
    m: &mut [u8],
    buffer: &mut [u8],
    q: usize,
    t: usize,
    i: usize,
) -> Result<Accepted, Refusal>
    requires { Due c m.old (write_next_of q t i) }
    ensures { Writes c m.old buffer.old (answered c result) m.new buffer.new }
{
    if buffer.len() != c.shape.b {
        return Err(Refusal::Buffer);
    }
    let d = c.with_sent(c.sent + 1);
    let e = commands::send(d, m, Kind::Write, q, t, i);
    put_bytes(e, m, q, t, i, buffer);
    Ok(Accepted::sent(e, 0, WRITE, q, t, i))
}

// How many blocks that wait for q are taken at most: as many as jobs run together, and while q stores fewer than 2^(L-1). Those are counted only where
// a block waits; the first is at place `first`.
fn most_taken(c: Client, m: &[u8], q: usize, first: Option<usize>, joined: usize) -> usize
    requires { Usable c m.now × (q < c.shape.p) × Longest (state_of c m.now) q first × (joined ≡ joined_of (state_of c m.now) q) }
    ensures { (take result (keep (waits_for (state_of c m.now) q) (state_of c m.now).waiting) ≡ chosen_of (state_of c m.now) q) × (result ≤ joined) }
{
    if first.is_none() {
        return 0;
    }
    let half = bits::pow2(c.shape.l - 1);
    let stored = levels::stored(c, m, q);
    if half <= stored {
        return 0;
    }
    let room = half - stored;
    if room < joined { room } else { joined }
}

fn planned(c: Client, m: &[u8], q: usize, run: Run, next: usize) -> Plan
    requires { Usable c m.now × (q < c.shape.p) × RunOf c m.now q run × (levels_of (state_of c m.now) q ≡ keep (filled next) (down (suc run.top))) }
    ensures { PlanOf c m.now q result }
{
    let first = cache::longest(c, m, q);
    let taken = most_taken(c, m, q, first, run.joined);
    Plan {
        joined: run.joined,
        top: run.top,
        next: next,
        first: first,
        taken: taken,
    }
}

// The list gets the blocks that the rebuild of q gathers. The result is how many, or more than the limit.
fn gathered(
    c: Client,
    m: &[u8],
    q: usize,
    counter: usize,
    p: Plan,
    limit: usize,
    list: &mut [usize],
) -> usize
    requires { Usable c m.now × (q < c.shape.p) × (counter ≡ (state_of c m.now).counter q) × PlanOf c m.now q p × (p.joined ≤ limit) × (limit < length list.old) }
    ensures { Gathers (gathered_of (state_of c m.now) q) limit result list.new }
{
    let n = gather::gather_waiting(c, m, q, p.first, p.taken, list);
    gather::gather(c, m, q, counter, p.top, limit, list, n)
}

// Rebuilds q with the blocks of the list.
fn write_levels(c: Client, m: &mut [u8], tape: &[u8], q: usize, p: Plan, list: &[usize]) -> Client
    requires { Usable c m.old × (q < c.shape.p) × PlanOf c m.old q p × (list.now ≡ gathered_of (state_of c m.old) q) × Enough (orders_bounds (levels_of (state_of c m.old) q)) (words_of tape.now) }
    ensures { (result.shape ≡ c.shape) × (result.out ≡ c.out) × Stands result m.old m.new (do_rebuild q (levels_of (state_of c m.old) q) (fills (levels_of (state_of c m.old) q) (numbers_of (draws (orders_bounds (levels_of (state_of c m.old) q)) (words_of tape.now))) (gathered_of (state_of c m.old) q)) (state_of c m.old)) × (result.request ≡ c.request) }
{
    rebuild::rebuild_tables(c, m, q, p.top, p.next, list, tape);
    let d = cache::leave_first(c, m, q, p.first, p.taken);
    d.with_begun(p.joined).with_sent(1)
}

// Rebuilds q by orders that take these words, and sends the first write, of its highest written level.
fn send_rebuild(
    c: Client,
    m: &mut [u8],
    tape: &[u8],
    buffer: &mut [u8],
    q: usize,
    p: Plan,
    list: &[usize],
    words: usize,
) -> Accepted
    requires { Due c m.old (rebuild_of q (levels_of (state_of c m.old) q)) × PlanOf c m.old q p × (list.now ≡ gathered_of (state_of c m.old) q) × (length list.now ≤ capacity (levels_of (state_of c m.old) q)) × Enough (orders_bounds (levels_of (state_of c m.old) q)) (words_of tape.now) × (words ≡ taken_of (draws (orders_bounds (levels_of (state_of c m.old) q)) (words_of tape.now))) × (length buffer.old ≡ c.shape.b) }
    ensures { Performs c (state_of c m.old) turn_of m.old tape.now buffer.old (accepted_as result) m.new buffer.new }
{
    let d = write_levels(c, m, tape, q, p, list);
    let e = commands::send(d, m, Kind::Write, q, p.top, 0);
    put_bytes(e, m, q, p.top, 0, buffer);
    Accepted::sent(e, words, WRITE, q, p.top, 0)
}

// The rebuild, if the words lent settle the draws of its orders and the written levels have room for what it gathers. They hold fewer than 2^(L-1) + 64.
pub fn rebuild(
    c: Client,
    m: &mut [u8],
    tape: &[u8],
    buffer: &mut [u8],
    q: usize,
) -> Result<Accepted, Refusal>
    requires { Due c m.old (rebuild_of q (levels_of (state_of c m.old) q)) }
    ensures { Performs c (state_of c m.old) turn_of m.old tape.now buffer.old (answered c result) m.new buffer.new }
{
    if buffer.len() != c.shape.b {
        return Err(Refusal::Buffer);
    }
    let run = jobs::running(c, m, q);
    let next = bits::grown(run.counter, run.joined, c.shape.l);
    let Some(words) = tape::orders_words(tape, next, run.top) else {
        return Err(Refusal::Words);
    };
    let p = planned(c, m, q, run, next);
    let limit = bits::filled_slots(next, run.top) / 2;
    let mut list = [0usize; 192];
    let n = gathered(c, m, q, run.counter, p, limit, &mut list);
    if limit < n {
        return Err(Refusal::Unready);
    }
    Ok(send_rebuild(c, m, tape, buffer, q, p, &list[..n], words))
}
