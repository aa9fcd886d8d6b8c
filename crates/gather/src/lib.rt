// The blocks that a rebuild gathers, ascending: the first k entries of a list of fixed length, which stays a list and k, since memory is lent and no heap is used.
#![tactic(auto)]

ghost use Rattle.std.specs.Prelude.{◌≡◌, true, [], ◌+◌, ◌<◌, ◌≤◌, length, take};
ghost use Rattle.lists.specs.Search.{keep};
ghost use Rattle.rules.specs.Levels.{filled};
ghost use Rattle.rules.specs.Jobs.{top_of};
ghost use Rattle.rules.specs.Rebuild.{chosen, gather_from, gathered};
ghost use Rattle.client.specs.View.{state_of};
ghost use Rattle.client.specs.Moves.{Room, CacheRoom};
ghost use Rattle.cache.specs.Longest.{waits_for, Longest};
ghost use Rattle.gather.specs.Gathered.{Ascending, inserted, added, gathered_to, Gathers};
ghost use Rattle.gather.specs.Cached.{BlockFor};

use client::Client;
use memory::tables::{self, Table};

// Puts x into the first k entries of the list, which ascend, unless it is there: how many they are then.
pub fn insert(list: &mut [usize], k: usize, x: usize) -> usize
    requires { (k < length list.old) × Ascending (take k list.old) }
    ensures { (take result list.new ≡ inserted x (take k list.old)) × (result ≤ k + 1) × (k ≤ result) }
{
    match list[..k].binary_search(&x) {
        Ok(_) => k,
        Err(i) => {
            list.copy_within(i..k, i + 1);
            list[i] = x;
            k + 1
        }
    }
}

// Puts in the block that an entry of the table of slots names: none for 0, b for b + 1, as it lies in memory (`tables_of`).
fn add(list: &mut [usize], k: usize, entry: usize) -> usize
    requires { (k < length list.old) × Ascending (take k list.old) }
    ensures { (take result list.new ≡ added entry (take k list.old)) × (result ≤ k + 1) }
{
    if entry == 0 {
        return k;
    }
    insert(list, k, entry - 1)
}

// The block at place i of the cache, if it waits for partition q.
fn block_for(c: Client, m: &[u8], q: usize, i: usize) -> Option<usize>
    requires { CacheRoom c m.now × (i < c.waiting) }
    ensures { BlockFor (state_of c m.now) q i result }
{
    let b = tables::get(c.shape, m, Table::Waiting, i);
    if tables::get(c.shape, m, Table::Partition, b) != q {
        return None;
    }
    Some(b)
}

// Gathers the k blocks that have waited longest for partition q, or all that wait for it; the first of them is at place `first`, if there
// is one.
pub fn gather_waiting(
    c: Client,
    m: &[u8],
    q: usize,
    first: Option<usize>,
    k: usize,
    list: &mut [usize],
) -> usize
    requires { CacheRoom c m.now × (k < length list.old) × Longest (state_of c m.now) q first }
    ensures { (take result list.new ≡ gather_from (take k (keep (waits_for (state_of c m.now) q) (state_of c m.now).waiting)) [] c.shape.n) × (result ≤ k) }
{
    let Some(first) = first else {
        return 0;
    };
    let mut r = 0;
    let mut taken = 0;
    for i in first..c.waiting {
        if k <= taken {
            return r;
        }
        if let Some(b) = block_for(c, m, q, i) {
            r = insert(list, r, b);
            taken += 1;
        }
    }
    r
}

// Gathers what level l of partition q, a source, holds, after the levels below it. It stops once there are more than `limit`.
fn gather_level(
    c: Client,
    m: &[u8],
    q: usize,
    l: usize,
    limit: usize,
    list: &mut [usize],
    k: usize,
) -> usize
    requires { Room c m.now × (q < c.shape.p) × (l < c.shape.l) × (k ≤ limit) × (limit < length list.old) × (filled ((state_of c m.now).counter q) l ≡ true) × (take k list.old ≡ gathered_to (state_of c m.now) q l 0) }
    ensures { Gathers (gathered_to (state_of c m.now) q (l + 1) 0) limit result list.new }
{
    let n = bits::pow2(l + 1);
    let base = levels::cell(c.shape, q, l, 0);
    let mut r = k;
    for j in 0..n {
        let x = tables::get(c.shape, m, Table::Holds, base + j);
        r = add(list, r, x);
        if limit < r {
            return r;
        }
    }
    r
}

// The same of level l, which is a source if it is filled.
fn gather_source(
    c: Client,
    m: &[u8],
    q: usize,
    counter: usize,
    l: usize,
    limit: usize,
    list: &mut [usize],
    k: usize,
) -> usize
    requires { Room c m.now × (q < c.shape.p) × (l < c.shape.l) × (k ≤ limit) × (limit < length list.old) × (counter ≡ (state_of c m.now).counter q) × (take k list.old ≡ gathered_to (state_of c m.now) q l 0) }
    ensures { Gathers (gathered_to (state_of c m.now) q (l + 1) 0) limit result list.new }
{
    if !bits::filled(counter, l) {
        return k;
    }
    gather_level(c, m, q, l, limit, list, k)
}

// Gathers what the filled levels up to `top` of partition q hold; the first `taken` entries of the list are the blocks that are taken from the cache.
// It stops once there are more than `limit`.
pub fn gather(
    c: Client,
    m: &[u8],
    q: usize,
    counter: usize,
    top: usize,
    limit: usize,
    list: &mut [usize],
    taken: usize,
) -> usize
    requires { Room c m.now × (q < c.shape.p) × (top < c.shape.l) × (taken ≤ limit) × (limit < length list.old) × (counter ≡ (state_of c m.now).counter q) × (top ≡ top_of (state_of c m.now) q) × (take taken list.old ≡ gather_from (chosen (state_of c m.now) q) [] c.shape.n) }
    ensures { Gathers (gathered (state_of c m.now) q) limit result list.new }
{
    let mut k = taken;
    for l in 0..=top {
        k = gather_source(c, m, q, counter, l, limit, list, k);
        if limit < k {
            return k;
        }
    }
    k
}
