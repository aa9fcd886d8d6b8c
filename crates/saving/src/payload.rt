// What a form holds, put into the buffer part by part. Each function returns the place behind what it put. (Two arguments, as in printing.)
ghost use Rattle.std.specs.Prelude.{◌≡◌, List, ℕ, false, ◌++◌, ◌+◌, ◌-◌, ◌*◌, ◌≤◌, ◌<◌, length};
ghost use Rattle.lists.specs.Search.{below};
ghost use Rattle.rules.specs.Shape.{slots};
ghost use Rattle.rules.specs.Form.Numbers.{little, each, form_of};
ghost use Rattle.rules.specs.Form.Payload.{shape_numbers, place_bytes, block_bytes, payload};
ghost use Rattle.memory.specs.Fits.{shape_of, fit, Fits};
ghost use Rattle.memory.specs.Tables.{tables_of};
ghost use Rattle.client.specs.View.{state_of, place_of};
ghost use Rattle.client.specs.Moves.{Room};
ghost use Rattle.cache.specs.Marks.{Marked};
ghost use Rattle.lists.specs.Written.{Written};
ghost use Rattle.saving.specs.Parts.{Puts, width_of, counter_in, job_in, order_in, mark_in, level_in, partition_in, waiter_in};

use cache::BLOCKS;
use client::Client;
use memory::Shape;
use memory::tables::{self, Table};
use sums::bytes;

// The number of the form.
const FORM: usize = 1;

// The places of a block that has no slot.
const NOWHERE: usize = 255;

const WAITING: usize = 254;

// The form's number and the shape.
fn head(h: Shape, buffer: &mut [u8]) -> usize
    requires { 13 ≤ length buffer.old }
    ensures { Written buffer.old 0 (little 1 (form_of (shape_of h)) ++ each (little 2) (shape_numbers (shape_of h))) buffer.new result }
{
    let n = bytes::byte(buffer, 0, FORM);
    let p = bytes::number(buffer, n, h.n);
    let l = bytes::number(buffer, p, h.p);
    let b = bytes::number(buffer, l, h.l);
    let e = bytes::number(buffer, b, h.b);
    let w = bytes::number(buffer, e, h.e);
    bytes::number(buffer, w, h.w)
}

// Puts a part for each number below n, one behind the other: `put` puts that of i at a place.
fn put_each<F: Fn(usize, &mut [u8], usize) -> usize>(
    n: usize,
    buffer: &mut [u8],
    at: usize,
    put: F,
) -> usize
    ghost part: { ℕ → List ℕ }
    requires { Puts F.Fn put n part × (at + length (each part (below n)) ≤ length buffer.old) }
    ensures { Written buffer.old at (each part (below n)) buffer.new result }
{
    let mut k = at;
    for i in 0..n {
        k = put(i, buffer, k);
    }
    k
}

// The counters of the partitions.
fn counters(c: Client, m: &[u8], buffer: &mut [u8], at: usize) -> usize
    requires { Room c m.now × (at + length (each (counter_in c m.now) (below c.shape.p)) ≤ length buffer.old) }
    ensures { Written buffer.old at (each (counter_in c m.now) (below c.shape.p)) buffer.new result }
{
    put_each(c.shape.p, buffer, at, |i, b, k| {
        bytes::number(b, k, tables::get(c.shape, m, Table::Counter, i))
    })
}

// The partitions of the jobs, front to back.
fn jobs(c: Client, m: &[u8], buffer: &mut [u8], at: usize) -> usize
    requires { Room c m.now × (c.jobs ≤ 64) × (at + length (each (job_in c m.now) (below c.jobs)) ≤ length buffer.old) }
    ensures { Written buffer.old at (each (job_in c m.now) (below c.jobs)) buffer.new result }
{
    put_each(c.jobs, buffer, at, |i, b, k| {
        bytes::number(b, k, tables::get(c.shape, m, Table::Queue, i))
    })
}

// The place of a block that does not wait, by its number: 0 or 1 for nowhere, else slots(level) + slot.
fn place(levels: usize, x: usize, buffer: &mut [u8], at: usize) -> usize
    requires { (levels ≤ 8) × (x < slots levels) × (at + length (place_bytes 1 false (place_of levels x)) ≤ length buffer.old) }
    ensures { Written buffer.old at (place_bytes 1 false (place_of levels x)) buffer.new result }
{
    if x < 2 {
        return bytes::byte(buffer, at, NOWHERE);
    }
    let l = bits::level_of(x - 2);
    let k = bytes::byte(buffer, at, l);
    bytes::byte(buffer, k, x - bits::pow2(l + 1))
}

// The partition and the place of block b.
fn block(c: Client, m: &[u8], marks: &[u8; BLOCKS], b: usize, buffer: &mut [u8], at: usize) -> usize
    requires { Room c m.now × (b < c.shape.n) × Marked (state_of c m.now).waiting marks.now × (at + length (block_bytes (width_of c.shape) (state_of c m.now) b) ≤ length buffer.old) }
    ensures { Written buffer.old at (block_bytes (width_of c.shape) (state_of c m.now) b) buffer.new result }
{
    let k = bytes::number(buffer, at, tables::get(c.shape, m, Table::Partition, b));
    if marks[b] == 1 {
        return bytes::byte(buffer, k, WAITING);
    }
    let x = tables::get(c.shape, m, Table::Place, b);
    place(c.shape.l, x, buffer, k)
}

fn blocks(c: Client, m: &[u8], marks: &[u8; BLOCKS], buffer: &mut [u8], at: usize) -> usize
    requires { Room c m.now × Marked (state_of c m.now).waiting marks.now × (at + length (each (block_bytes (width_of c.shape) (state_of c m.now)) (below c.shape.n)) ≤ length buffer.old) }
    ensures { Written buffer.old at (each (block_bytes (width_of c.shape) (state_of c m.now)) (below c.shape.n)) buffer.new result }
{
    put_each(c.shape.n, buffer, at, |i, b, k| {
        block(c, m, marks, i, b, k)
    })
}

// The slots of the items of level l of partition q.
fn order(c: Client, m: &[u8], q: usize, l: usize, buffer: &mut [u8], at: usize) -> usize
    requires { Room c m.now × (q < c.shape.p) × (l < c.shape.l) × (at + length (each (order_in (width_of c.shape) (state_of c m.now) q l) (below (slots l))) ≤ length buffer.old) }
    ensures { Written buffer.old at (each (order_in (width_of c.shape) (state_of c m.now) q l) (below (slots l))) buffer.new result }
{
    let n = bits::pow2(l + 1);
    let base = levels::cell(c.shape, q, l, 0);
    put_each(n, buffer, at, |i, b, k| {
        let slot = tables::fit(n, tables::entry(c.shape, m, Table::Order, base + i));
        bytes::byte(b, k, slot)
    })
}

// 1 if the slot of cell x was read. The table has 1 for one that was not.
fn was_read(h: Shape, m: &[u8], x: usize) -> usize
    requires { Fits (shape_of h) (length m.now) × (x < h.p * slots h.l) }
    ensures { result ≡ 1 - fit 2 ((tables_of (shape_of h) m.now).mark x) }
{
    1 - tables::get(h, m, Table::Mark, x)
}

// A byte for each of its slots, 1 if it was read.
fn read_marks(c: Client, m: &[u8], q: usize, l: usize, buffer: &mut [u8], at: usize) -> usize
    requires { Room c m.now × (q < c.shape.p) × (l < c.shape.l) × (at + length (each (mark_in (state_of c m.now) q l) (below (slots l))) ≤ length buffer.old) }
    ensures { Written buffer.old at (each (mark_in (state_of c m.now) q l) (below (slots l))) buffer.new result }
{
    let n = bits::pow2(l + 1);
    let base = levels::cell(c.shape, q, l, 0);
    put_each(n, buffer, at, |i, b, k| {
        bytes::byte(b, k, was_read(c.shape, m, base + i))
    })
}

// Level l of partition q, if it is filled.
fn level(
    c: Client,
    m: &[u8],
    counter: usize,
    q: usize,
    l: usize,
    buffer: &mut [u8],
    at: usize,
) -> usize
    requires { Room c m.now × (q < c.shape.p) × (l < c.shape.l) × (counter ≡ (state_of c m.now).counter q) × (at + length (level_in (width_of c.shape) (state_of c m.now) q l) ≤ length buffer.old) }
    ensures { Written buffer.old at (level_in (width_of c.shape) (state_of c m.now) q l) buffer.new result }
{
    if !bits::filled(counter, l) {
        return at;
    }
    let k = order(c, m, q, l, buffer, at);
    read_marks(c, m, q, l, buffer, k)
}

// The filled levels of partition q, upward.
fn partition(c: Client, m: &[u8], q: usize, buffer: &mut [u8], at: usize) -> usize
    requires { Room c m.now × (q < c.shape.p) × (at + length (partition_in (width_of c.shape) (state_of c m.now) q) ≤ length buffer.old) }
    ensures { Written buffer.old at (partition_in (width_of c.shape) (state_of c m.now) q) buffer.new result }
{
    let counter = tables::get(c.shape, m, Table::Counter, q);
    put_each(c.shape.l, buffer, at, |l, b, k| {
        level(c, m, counter, q, l, b, k)
    })
}

fn partitions(c: Client, m: &[u8], buffer: &mut [u8], at: usize) -> usize
    requires { Room c m.now × (at + length (each (partition_in (width_of c.shape) (state_of c m.now)) (below c.shape.p)) ≤ length buffer.old) }
    ensures { Written buffer.old at (each (partition_in (width_of c.shape) (state_of c m.now)) (below c.shape.p)) buffer.new result }
{
    put_each(c.shape.p, buffer, at, |q, b, k| partition(c, m, q, b, k))
}

// The record of waiting block i: its number, its age, which is its place in the list, and its contents.
fn waiter(c: Client, m: &[u8], i: usize, buffer: &mut [u8], at: usize) -> usize
    requires { Room c m.now × (i < c.shape.n) × (at + length (waiter_in c m.now i) ≤ length buffer.old) }
    ensures { Written buffer.old at (waiter_in c m.now i) buffer.new result }
{
    let b = tables::get(c.shape, m, Table::Waiting, i);
    let age = bytes::number(buffer, at, b);
    let a = bytes::number(buffer, age, i);
    let e = a + c.shape.b;
    memory::blocks::load(c.shape, m, b, &mut buffer[a..e]);
    e
}

// The longest waiting first.
fn waiters(c: Client, m: &[u8], buffer: &mut [u8], at: usize) -> usize
    requires { Room c m.now × (c.waiting ≤ c.shape.n) × (at + length (each (waiter_in c m.now) (below c.waiting)) ≤ length buffer.old) }
    ensures { Written buffer.old at (each (waiter_in c m.now) (below c.waiting)) buffer.new result }
{
    put_each(c.waiting, buffer, at, |i, b, k| waiter(c, m, i, b, k))
}

// All of it, from the start of the buffer on.
pub fn write(c: Client, m: &[u8], marks: &[u8; BLOCKS], buffer: &mut [u8]) -> usize
    requires { Room c m.now × (c.waiting ≤ c.shape.n) × (c.jobs ≤ 64) × Marked (state_of c m.now).waiting marks.now × (length (payload (state_of c m.now)) ≤ length buffer.old) }
    ensures { Written buffer.old 0 (payload (state_of c m.now)) buffer.new result }
{
    let a = head(c.shape, buffer);
    let b = counters(c, m, buffer, a);
    let d = bytes::number(buffer, b, c.jobs);
    let e = jobs(c, m, buffer, d);
    let f = blocks(c, m, marks, buffer, e);
    let g = partitions(c, m, buffer, f);
    waiters(c, m, buffer, g)
}
