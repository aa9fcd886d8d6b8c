// The partition reader of document 001 (Figure 6): the level where a look-up's block resides, the conditions of the levels of its partition, and the slot
// that is read of a level. A level is marked for shuffling, and is being shuffled, while it is a source of the front job. Last: which levels are worn.
#![tactic(auto)]

ghost use Rattle.std.specs.Prelude.{true, false, ◌≡◌, ◌<◌, ◌≤◌};
ghost use Rattle.lists.specs.Search.{any, below};
ghost use Rattle.rules.specs.Blocks.{is_unread};
ghost use Rattle.rules.specs.Request.{is_source, worn};
ghost use Rattle.rules.specs.Reader.{condition, costing, costs as costs_of, read_fake, is_cached_in, read_real, slot_read};
ghost use Rattle.client.specs.View.{state_of, found_of};
ghost use Rattle.client.specs.Moves.{HasLevel, HasSlot, Room};
ghost use Rattle.ready.specs.Usable.{Usable};
ghost use Rattle.jobs.specs.Runs.{CounterOf};
ghost use Rattle.levels.specs.Next.{NextLevel};
ghost use Rattle.reading.specs.Sources.{Sources};
ghost use Rattle.reading.specs.Conditions.{condition_of, ReadAs};
ghost use Rattle.reading.specs.Slots.{Reads, Placed, LevelFound};

use client::Client;
use memory::tables::{self, Table};

// ReadPartition, 2): a level is empty; is not marked for shuffling; is marked, but all its blocks have been cached in; or none of these.
#[derive(Clone, Copy)]
pub enum Condition {
    Empty,
    Unmarked,
    AllRead,
    SomeUnread,
}

// ReadPartition, 1): the level where a block resides, by the number x of its place, which is 2^(level + 1) + slot; or nothing, the text's ⊥: below 2 it
// waits in the cache or is nowhere.
pub fn level_of(x: usize) -> Option<usize>
    requires { x ≤ 65536 }
    ensures { LevelFound x result }
{
    if x < 2 {
        return None;
    }
    Some(bits::level_of(x - 2))
}

// The filled levels of partition q below this number are sources of the front job; 0 if that is for another partition. No Option: it
// is a bound, below which no level is then.
pub fn sources(c: Client, m: &[u8], q: usize) -> usize
    requires { Room c m.now × (c.jobs ≤ 64) × (q < c.shape.p) × (c.begun ≤ 64) }
    ensures { Sources c m.now q result }
{
    if c.jobs == 0 {
        return 0;
    }
    if jobs::front(c, m) != q {
        return 0;
    }
    let run = jobs::running(c, m, q);
    run.top + 1
}

// ReadPartition, 2): the condition of level l.
fn condition_of(
    c: Client,
    m: &[u8],
    q: usize,
    counter: usize,
    sources: usize,
    l: usize,
) -> Condition
    requires { HasLevel c m.now q l × CounterOf c m.now q counter × Sources c m.now q sources }
    ensures { condition_of result ≡ condition (state_of c m.now) q l }
{
    if !bits::filled(counter, l) {
        return Condition::Empty;
    }
    if sources <= l {
        return Condition::Unmarked;
    }
    if levels::reads(c, m, q, l) < bits::pow2(l + 1) {
        return Condition::SomeUnread;
    }
    Condition::AllRead
}

// Whether a level in this condition costs a read.
fn costs(x: Condition) -> bool
    ensures { result ≡ costing (condition_of x) }
{
    matches!(x, Condition::Unmarked | Condition::SomeUnread)
}

// ReadPartition, 2): goes over the conditions of the levels from the request's on, up to the first that costs a read, if one does. Mostly no marked level is
// left, and then it is the next filled one.
pub fn next_level(c: Client, m: &[u8], q: usize, sources: usize) -> Option<usize>
    requires { Room c m.now × (q < c.shape.p) × (c.request.level ≤ c.shape.l) × Sources c m.now q sources }
    ensures { NextLevel (costs_of (state_of c m.now) q) c.shape.l c.request.level result }
{
    let levels = c.shape.l;
    let counter = tables::get(c.shape, m, Table::Counter, q);
    let from = c.request.level;
    if sources <= from {
        return levels::next_filled(levels, counter, from);
    }
    for l in from..levels {
        if costs(condition_of(c, m, q, counter, sources, l)) {
            return Some(l);
        }
    }
    None
}

// ReadFake(l): the next dummy; or, where the level is being shuffled, an early cache-in of its lowest unread item, block or dummy.
fn read_fake(c: Client, m: &[u8], q: usize, l: usize, marked: bool) -> Option<usize>
    requires { HasLevel c m.now q l × ReadAs (state_of c m.now) q l marked }
    ensures { found_of result ≡ read_fake (state_of c m.now) q l (condition (state_of c m.now) q l) }
{
    levels::item(c, m, q, l, marked)
}

// ReadReal's question, whether the block in slot i has been cached in: its slot was read, and the level is marked. In another level the slot is read
// whatever its mark is, which is asked all the same: a branch would cost a look-up more.
fn is_cached_in(c: Client, m: &[u8], q: usize, l: usize, i: usize, marked: bool) -> bool
    requires { HasSlot c m.now q l i × ReadAs (state_of c m.now) q l marked }
    ensures { result ≡ is_cached_in (condition (state_of c m.now) q l) (is_unread (state_of c m.now) q l i) }
{
    !levels::is_unread(c, m, q, l, i) & marked
}

// ReadReal(l, blockid), of the block in slot i.
fn read_real(c: Client, m: &[u8], q: usize, l: usize, i: usize, marked: bool) -> Option<usize>
    requires { HasSlot c m.now q l i × ReadAs (state_of c m.now) q l marked }
    ensures { found_of result ≡ read_real (state_of c m.now) q l i (condition (state_of c m.now) q l) }
{
    if is_cached_in(c, m, q, l, i, marked) {
        return read_fake(c, m, q, l, marked);
    }
    Some(i)
}

// ReadPartition, 3), of level l, which costs a read: the slot that is read for the block whose place has the number x, in the level l* that was found.
pub fn read_level(
    c: Client,
    m: &[u8],
    q: usize,
    l: usize,
    x: usize,
    found: Option<usize>,
    sources: usize,
) -> Option<usize>
    requires { Usable c m.now × Reads c m.now q × (l < c.shape.l) × (costs_of (state_of c m.now) q l ≡ true) × Placed c m.now x × LevelFound x found × Sources c m.now q sources }
    ensures { found_of result ≡ slot_read (state_of c m.now) q ((state_of c m.now).place c.request.block) l }
{
    if found == Some(l) {
        let n = bits::pow2(l + 1);
        return read_real(c, m, q, l, x - n, l < sources);
    }
    read_fake(c, m, q, l, l < sources)
}

// Whether level l, which is no source, is filled and has been read 2^l times.
fn wears(c: Client, m: &[u8], q: usize, counter: usize, l: usize) -> bool
    requires { HasLevel c m.now q l × CounterOf c m.now q counter × (is_source (state_of c m.now) q l ≡ false) }
    ensures { result ≡ worn (state_of c m.now) q l }
{
    if !bits::filled(counter, l) {
        return false;
    }
    bits::pow2(l) <= levels::reads(c, m, q, l)
}

// Whether some filled level l of partition q that is no source has been read 2^l times.
pub fn is_worn(c: Client, m: &[u8], q: usize) -> bool
    requires { Room c m.now × (c.jobs ≤ 64) × (q < c.shape.p) × (c.begun ≤ 64) }
    ensures { result ≡ any (worn (state_of c m.now) q) (below c.shape.l) }
{
    let counter = tables::get(c.shape, m, Table::Counter, q);
    let from = sources(c, m, q);
    for l in from..c.shape.l {
        if wears(c, m, q, counter, l) {
            return true;
        }
    }
    false
}
