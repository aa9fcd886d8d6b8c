// What a turn does next. A request's reads go before a job's commands.
#![tactic(auto)]

ghost use Rattle.std.specs.Prelude.{◌≡◌, ◌-◌, ◌<◌};
ghost use Rattle.lists.specs.Search.{keep, count};
ghost use Rattle.rules.specs.Request.{released_for};
ghost use Rattle.rules.specs.Reader.{costs, slot_read};
ghost use Rattle.rules.specs.Rebuild.{unread};
ghost use Rattle.rules.specs.Turn.{decide as decide_of, request_step, first_read, job_step, gather_step, rebuild_step, write_step};
ghost use Rattle.client.specs.View.{state_of};
ghost use Rattle.client.specs.Moves.{Room};
ghost use Rattle.jobs.specs.Runs.{RunOf};
ghost use Rattle.ready.specs.Usable.{Usable};
ghost use Rattle.reading.specs.Slots.{Reads};
ghost use Rattle.deciding.specs.Steps.{step_of, due_of};

use client::Client;
use jobs::Run;
use memory::tables::{self, Table};

// There is no command to send; the request lacks an unread dummy, or in a source an unread item; or the step: partition, and but for a rebuild level and
// slot.
#[derive(Clone, Copy)]
pub enum Step {
    Idle,
    NoDummy,
    ReadForRequest(usize, usize, usize),
    ReadForJob(usize, usize, usize),
    Rebuild(usize),
    WriteNext(usize, usize, usize),
}

// What a request wants: a read of partition, level and slot, a dummy that is lacking, or nothing.
// (An Option of a Result would be no plainer: what asks tells all three apart in one match.)
#[derive(Clone, Copy)]
enum Due {
    Read(usize, usize, usize),
    NoDummy,
    Nothing,
}

// ReadPartition(p*, blockid) of document 001 (Figure 6) for the levels that are left, where p* is q. A turn sends one read: that of the first of them that
// costs one.
fn read_partition(c: Client, m: &[u8], q: usize) -> Due
    requires { Usable c m.now × Reads c m.now q }
    ensures { due_of result ≡ first_read q (slot_read (state_of c m.now) q ((state_of c m.now).place c.request.block)) (keep (costs (state_of c m.now) q) (count c.request.level (c.shape.l - c.request.level))) }
{
    // 1) the level where the block resides
    let x = tables::get(c.shape, m, Table::Place, c.request.block);
    let found = reading::level_of(x);
    // 2) the conditions of the levels
    let sources = reading::sources(c, m, q);
    let Some(l) = reading::next_level(c, m, q, sources) else {
        return Due::Nothing;
    };
    // 3) in the level that was found the real block, in any other a fake
    match reading::read_level(c, m, q, l, x, found, sources) {
        Some(i) => Due::Read(q, l, i),
        None => Due::NoDummy,
    }
}

// What the request in hand wants, unless it is held.
fn request_step(c: Client, m: &[u8]) -> Due
    requires { Usable c m.now }
    ensures { due_of result ≡ request_step (state_of c m.now) (state_of c m.now).request }
{
    let r = c.request;
    if r.kind == 0 {
        return Due::Nothing;
    }
    if r.found == 0 {
        return Due::Nothing;
    }
    let q = tables::get(c.shape, m, Table::Partition, r.block);
    read_partition(c, m, q)
}

// Whether a request that is no longer held is in hand for a block of partition q.
fn is_released_for(c: Client, m: &[u8], q: usize) -> bool
    requires { Usable c m.now }
    ensures { result ≡ released_for (state_of c m.now).partition (state_of c m.now).request q }
{
    let x = c.request;
    if x.kind == 0 {
        return false;
    }
    if x.found == 0 {
        return false;
    }
    tables::get(c.shape, m, Table::Partition, x.block) == q
}

// The job's next read; or the rebuild, once nothing of its partition is outstanding and no look-up there is to be collected.
fn gather_step(c: Client, m: &[u8], q: usize, run: Run) -> Step
    requires { Usable c m.now × (q < c.shape.p) × RunOf c m.now q run }
    ensures { step_of (state_of c m.now) result ≡ gather_step q (unread (state_of c m.now) q) (rebuild_step (state_of c m.now) q) }
{
    if let Some((l, i)) = levels::unread(c, m, q, run.counter, run.top) {
        return Step::ReadForJob(q, l, i);
    }
    if commands::is_busy(c, m, q, c.out) {
        return Step::Idle;
    }
    if is_released_for(c, m, q) {
        return Step::Idle;
    }
    Step::Rebuild(q)
}

// The job's next write, if one is left: of the highest level that has one, slots ascending. Most jobs run alone and write one level.
fn write_step(c: Client, m: &[u8], q: usize, run: Run) -> Step
    requires { Room c m.now × RunOf c m.now q run }
    ensures { step_of (state_of c m.now) result ≡ write_step (state_of c m.now) q }
{
    let next = bits::grown(run.counter, run.joined, c.shape.l);
    let mut i = c.sent;
    for l in (0..run.top + 1).rev() {
        let n = bits::slots_at(next, l);
        if i < n {
            return Step::WriteNext(q, l, i);
        }
        i -= n;
    }
    Step::Idle
}

// What the front job does next.
fn job_step(c: Client, m: &[u8]) -> Step
    requires { Usable c m.now }
    ensures { step_of (state_of c m.now) result ≡ job_step (state_of c m.now) (state_of c m.now).queue }
{
    if c.jobs == 0 {
        return Step::Idle;
    }
    let q = jobs::front(c, m);
    let run = jobs::running(c, m, q);
    if c.sent == 0 {
        return gather_step(c, m, q, run);
    }
    write_step(c, m, q, run)
}

pub fn decide(c: Client, m: &[u8]) -> Step
    requires { Usable c m.now }
    ensures { step_of (state_of c m.now) result ≡ decide_of (state_of c m.now) }
{
    match request_step(c, m) {
        Due::Read(q, l, i) => Step::ReadForRequest(q, l, i),
        Due::NoDummy => Step::NoDummy,
        Due::Nothing => job_step(c, m),
    }
}
