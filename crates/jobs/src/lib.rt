// The first-in first-out queue of jobs, in the lent memory, and the jobs that run together.
#![tactic(auto)]

ghost use Rattle.std.specs.Prelude.{◌≡◌, ◌∷◌, [], ◌++◌, ◌+◌, ◌<◌, ◌≤◌, length};
ghost use Rattle.rules.specs.Jobs.{queued as queued_of, begun_with, leave_queue};
ghost use Rattle.rules.specs.Setters.{set_queue};
ghost use Rattle.client.specs.View.{state_of};
ghost use Rattle.client.specs.Rows.{drop_at};
ghost use Rattle.client.specs.Moves.{with_jobs, Room, QueueRoom, Stands};
ghost use Rattle.jobs.specs.Leaving.{Stays};
ghost use Rattle.jobs.specs.Runs.{Runs, RunOf};

use client::Client;
use memory::tables::{self, Table};

// The jobs that run together as the front one: the counter of their partition, how many they are, and the highest level that they write.
#[derive(Clone, Copy)]
pub struct Run {
    pub counter: usize,
    pub joined: usize,
    pub top: usize,
}

// How many jobs for q are queued; a job that runs is the front one.
pub fn queued(c: Client, m: &[u8], q: usize) -> usize
    requires { QueueRoom c m.now }
    ensures { result ≡ queued_of (state_of c m.now).queue q }
{
    let mut k = 0;
    for i in 0..c.jobs {
        k += usize::from(tables::get(c.shape, m, Table::Queue, i) == q);
    }
    k
}

// The partition of the front job.
pub fn front(c: Client, m: &[u8]) -> usize
    requires { Room c m.now × (1 ≤ c.jobs) × (c.jobs ≤ 64) }
    ensures { ((state_of c m.now).queue ≡ result ∷ drop_at 0 (state_of c m.now).queue) × (result < c.shape.p) }
{
    tables::get(c.shape, m, Table::Queue, 0)
}

// How many jobs the front one, for q, began with; until it has begun, how many are queued. Only then is the queue gone over.
fn begun_with(c: Client, m: &[u8], q: usize) -> usize
    requires { QueueRoom c m.now }
    ensures { result ≡ begun_with c.begun (queued_of (state_of c m.now).queue q) }
{
    if c.begun != 0 {
        return c.begun;
    }
    queued(c, m, q)
}

// The run of the front job, which is for q.
pub fn running(c: Client, m: &[u8], q: usize) -> Run
    requires { Runs c m.now q }
    ensures { RunOf c m.now q result }
{
    let counter = tables::get(c.shape, m, Table::Counter, q);
    let n = begun_with(c, m, q);
    let j = bits::joins(counter, n, c.shape.l);
    let top = bits::top_level(counter, j, c.shape.l);
    Run {
        counter: counter,
        joined: j,
        top: top,
    }
}

// Queues a job for q.
pub fn push(c: Client, m: &mut [u8], q: usize) -> Client
    requires { Room c m.old × (c.jobs < 64) × (q < c.shape.p) }
    ensures { (result ≡ with_jobs (c.jobs + 1) c) × Stands result m.old m.new (set_queue ((state_of c m.old).queue ++ (q ∷ [])) (state_of c m.old)) }
{
    let n = c.jobs;
    tables::set(c.shape, m, Table::Queue, n, q);
    c.with_jobs(n + 1)
}

// The first j jobs for q leave the queue, in one pass; the others keep their order.
pub fn leave(c: Client, m: &mut [u8], q: usize, j: usize) -> Client
    requires { QueueRoom c m.old }
    ensures { (result ≡ with_jobs (length (leave_queue q j (state_of c m.old).queue)) c) × Stands result m.old m.new (set_queue (leave_queue q j (state_of c m.old).queue) (state_of c m.old)) }
{
    let mut k = 0;
    for i in 0..c.jobs {
        k = stay(c, m, k, i, q, j);
    }
    c.with_jobs(k)
}

// The job at place i joins the first k, those that stay, unless it is for q and fewer than j have left. The result is how many stay then.
fn stay(c: Client, m: &mut [u8], k: usize, i: usize, q: usize, j: usize) -> usize
    requires { Room c m.old × (k ≤ i) × (i < 64) }
    ensures { Stays c.shape m.old m.new k i q j result }
{
    let p = tables::get(c.shape, m, Table::Queue, i);
    if (p == q) & (i - k < j) {
        return k;
    }
    tables::set(c.shape, m, Table::Queue, k, p);
    k + 1
}
