// Completion names a kind and a slot (partition, level, slot), with B bytes for a read.
#![tactic(auto)]

ghost use Rattle.std.specs.Prelude.{◌≡◌, [], ◌<◌, ◌≤◌, length, eqb, if◌then◌else◌};
ghost use Rattle.rules.specs.Shape.{slots};
ghost use Rattle.rules.specs.State.{cmd, read};
ghost use Rattle.rules.specs.Blocks.{holder};
ghost use Rattle.rules.specs.Completion.{gather_bytes, job_done, end_job, finish_job, complete as complete_of};
ghost use Rattle.rules.specs.Questions.{completion as completion_of};
ghost use Rattle.client.specs.Kinds.{kind_number};
ghost use Rattle.client.specs.View.{state_of};
ghost use Rattle.client.specs.Moves.{with_request, Room, Stands};
ghost use Rattle.jobs.specs.Runs.{Runs};
ghost use Rattle.contract.specs.Answers.{answered};
ghost use Rattle.contract.specs.Meets.{Meets};
ghost use Rattle.releasing.specs.Performs.{Performs};
ghost use Rattle.completing.specs.Completing.{AllOfLevel, Completes};
ghost use Rattle.completing.specs.Awaited.{lessened};

use client::{Client, Kind};
use contract::{Accepted, Refusal};
use memory::tables::{self, Table};

// The length that is asked for: that of a block for a read, 0 for a write.
fn expected(kind: Kind, block: usize) -> usize
    ensures { result ≡ (if eqb (kind_number kind) read then block else 0) }
{
    match kind {
        Kind::Read => block,
        Kind::Write => 0,
    }
}

// A read's bytes are those of the block in its slot.
fn store_read(c: Client, m: &mut [u8], q: usize, l: usize, i: usize, bytes: &[u8])
    requires { Room c m.old × (q < c.shape.p) × (l < c.shape.l) × (i < slots l) × (length bytes.now ≡ c.shape.b) }
    ensures { Stands c m.old m.new (gather_bytes (holder (state_of c m.old) q l i) bytes.now (state_of c m.old)) }
{
    let x = levels::cell(c.shape, q, l, i);
    let b = tables::get(c.shape, m, Table::Holds, x);
    if b == 0 {
        return;
    }
    memory::blocks::store(c.shape, m, b - 1, bytes);
}

// No for a number that is not a power of two, as that of the slots of each level is. (Only that is needed of it: a yes promises nothing.)
fn one_bit(n: usize) -> bool
    ensures { AllOfLevel n result }
{
    if n == 0 {
        return false;
    }
    n & (n - 1) == 0
}

// The front job, for q, has sent all its writes, and none is outstanding. Most completions of writes come while a job runs alone and the number sent is no
// power of two: then it is not all of them, whatever the level.
fn is_done(c: Client, m: &[u8], q: usize) -> bool
    requires { Runs c m.now q × (c.out ≤ 32) }
    ensures { result ≡ job_done (state_of c m.now) q }
{
    if (c.begun == 1) & !one_bit(c.sent) {
        return false;
    }
    let run = jobs::running(c, m, q);
    let next = bits::grown(run.counter, run.joined, c.shape.l);
    let writes = bits::filled_slots(next, run.top);
    (c.sent == writes) & !commands::is_writing(c, m)
}

// The front job, for q, is done: the counter grows by the jobs that it runs for, and these leave the queue.
fn end_job(c: Client, m: &mut [u8], q: usize) -> Client
    requires { Runs c m.old q }
    ensures { (result.shape ≡ c.shape) × Stands result m.old m.new (end_job q (state_of c m.old)) × (result.request ≡ c.request) }
{
    let run = jobs::running(c, m, q);
    let n = bits::grown(run.counter, run.joined, c.shape.l);
    tables::set(c.shape, m, Table::Counter, q, n);
    jobs::leave(c, m, q, run.joined)
        .with_begun(0)
        .with_cursor(0)
        .with_sent(0)
}

// The front job ends when its last write completes.
fn finish_job(c: Client, m: &mut [u8]) -> Client
    requires { Room c m.old × (c.out ≤ 32) × (c.jobs ≤ 64) × (c.begun ≤ 64) }
    ensures { (result.shape ≡ c.shape) × Stands result m.old m.new (finish_job (state_of c m.old).queue (state_of c m.old)) × (result.request ≡ c.request) }
{
    if c.jobs == 0 {
        return c;
    }
    let q = jobs::front(c, m);
    if !is_done(c, m, q) {
        return c;
    }
    end_job(c, m, q)
}

// The command at place j completes: a request that awaits it awaits one less. Without a request no number changes.
fn await_less(c: Client, j: usize) -> Client
    ensures { result ≡ with_request (lessened j c.request) c }
{
    let r = c.request;
    if r.kind == 0 {
        return c;
    }
    if r.awaits <= j {
        return c;
    }
    c.with_request(r.awaiting(r.awaits - 1))
}

// The command at place j is completed.
fn complete(
    c: Client,
    m: &mut [u8],
    j: usize,
    kind: Kind,
    q: usize,
    l: usize,
    i: usize,
    bytes: &[u8],
) -> Client
    requires { Completes c m.old (cmd (kind_number kind) q l i) bytes.now j }
    ensures { (result.request ≡ lessened j c.request) × Stands result m.old m.new (complete_of (cmd (kind_number kind) q l i) bytes.now (state_of c m.old)) }
{
    let d = commands::complete(await_less(c, j), m, j);
    match kind {
        Kind::Read => {
            store_read(d, m, q, l, i, bytes);
            d
        }
        Kind::Write => finish_job(d, m),
    }
}

// What a completion does before a request is released. Its kind is a number, which the caller names (C interface): one of no kind is refused.
pub fn perform(
    c: Client,
    m: &mut [u8],
    kind: usize,
    partition: usize,
    level: usize,
    slot: usize,
    bytes: &[u8],
) -> Result<Accepted, Refusal>
    ensures { Performs c (state_of c m.old) (completion_of (cmd kind partition level slot) bytes.now) m.old [] [] (answered c result) m.new [] }
{
    let Ok(kind) = Kind::try_from(kind) else {
        return Err(Refusal::Unready);
    };
    if !ready::shape_fits(c.shape, m.len()) {
        return Err(Refusal::Unready);
    }
    if !ready::numbers_fit(c, m) {
        return Err(Refusal::Unready);
    }
    let found = commands::find(c, m, kind, partition, level, slot);
    let Some(j) = found else {
        return Err(Refusal::NotOutstanding);
    };
    if bytes.len() != expected(kind, c.shape.b) {
        return Err(Refusal::Bytes);
    }
    let d = complete(c, m, j, kind, partition, level, slot, bytes);
    Ok(Accepted::new(d, 0))
}

pub fn completion(
    c: Client,
    m: &mut [u8],
    kind: usize,
    partition: usize,
    level: usize,
    slot: usize,
    bytes: &[u8],
) -> Result<Accepted, Refusal>
    ensures { Meets c (state_of c m.old) (completion_of (cmd kind partition level slot) bytes.now) m.old [] [] (answered c result) m.new [] }
{
    let r = perform(c, m, kind, partition, level, slot, bytes);
    releasing::settle(r, m)
}
