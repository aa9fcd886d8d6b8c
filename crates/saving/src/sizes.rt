// How many bytes a payload has, counted before it is written: a refusal leaves the buffer as it was. None has 3,000,000.
ghost use Rattle.std.specs.Prelude.{◌≡◌, ◌*◌, ◌≤◌, ◌<◌, length};
ghost use Rattle.lists.specs.Search.{below, member};
ghost use Rattle.rules.specs.Form.Numbers.{each};
ghost use Rattle.rules.specs.Form.Payload.{place_bytes, block_bytes, payload as payload_of};
ghost use Rattle.client.specs.View.{state_of};
ghost use Rattle.client.specs.Moves.{Room};
ghost use Rattle.cache.specs.Marks.{Marked};
ghost use Rattle.saving.specs.Parts.{width_of, partition_in};

use cache::BLOCKS;
use client::Client;
use memory::tables::{self, Table};

// The place of block b: a byte, and a second one for a slot.
fn place(c: Client, m: &[u8], marks: &[u8; BLOCKS], b: usize) -> usize
    requires { Room c m.now × (b < c.shape.n) × Marked (state_of c m.now).waiting marks.now }
    ensures { (result ≡ length (place_bytes (width_of c.shape) (member b (state_of c m.now).waiting) ((state_of c m.now).place b))) × (result ≤ 2) }
{
    if marks[b] == 1 {
        return 1;
    }
    if tables::get(c.shape, m, Table::Place, b) < 2 {
        return 1;
    }
    2
}

// The partitions and places of all blocks.
fn blocks(c: Client, m: &[u8], marks: &[u8; BLOCKS]) -> usize
    requires { Room c m.now × Marked (state_of c m.now).waiting marks.now }
    ensures { (result ≡ length (each (block_bytes (width_of c.shape) (state_of c m.now)) (below c.shape.n))) × (result ≤ 4 * c.shape.n) }
{
    let mut k = 0;
    for i in 0..c.shape.n {
        k += 2 + place(c, m, marks, i);
    }
    k
}

// The filled levels of all partitions. They are the digits of a counter, and level l has 2 bytes for each of 2^(l+1) slots: together four times the counter.
fn levels(c: Client, m: &[u8]) -> usize
    requires { Room c m.now }
    ensures { (result ≡ length (each (partition_in (width_of c.shape) (state_of c m.now)) (below c.shape.p))) × (result ≤ 1024 * c.shape.p) }
{
    let mut k = 0;
    for i in 0..c.shape.p {
        k += 4 * tables::get(c.shape, m, Table::Counter, i);
    }
    k
}

// All of it: the form's number, the shape and the queue's length are 15 bytes.
pub fn payload(c: Client, m: &[u8], marks: &[u8; BLOCKS]) -> usize
    requires { Room c m.now × (c.waiting ≤ c.shape.n) × (c.jobs ≤ 64) × Marked (state_of c m.now).waiting marks.now }
    ensures { (result ≡ length (payload_of (state_of c m.now))) × (result ≤ 3000000) }
{
    let numbers = 15 + 2 * c.shape.p + 2 * c.jobs;
    let waiters = c.waiting * (4 + c.shape.b);
    numbers + blocks(c, m, marks) + levels(c, m) + waiters
}
