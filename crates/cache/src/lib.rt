// The blocks that wait in the eviction cache, longest waiting first, in the lent memory.
#![tactic(auto)]

ghost use Rattle.std.specs.Prelude.{◌≡◌, ◌∷◌, [], ◌++◌, ◌+◌, ◌<◌, ◌≤◌, length, replicate, take};
ghost use Rattle.lists.specs.Search.{member, keep};
ghost use Rattle.rules.specs.Ranges.{others};
ghost use Rattle.rules.specs.Setters.{set_waiting};
ghost use Rattle.rules.specs.Rebuild.{leave};
ghost use Rattle.client.specs.View.{state_of};
ghost use Rattle.client.specs.Moves.{with_waiting, Room, CacheRoom, Stands};
ghost use Rattle.cache.specs.Longest.{waits_for, Longest};
ghost use Rattle.cache.specs.Leaving.{MovedUp};
ghost use Rattle.cache.specs.Marks.{marks_room, Marked};
ghost use Rattle.cache.specs.Waiting.{blocks_in, First, Joined};

use client::Client;
use memory::tables::{self, Table};

// A byte for each block of the largest store.
pub const BLOCKS: usize = 4096;

// The first place of block b in the cache.
fn place(c: Client, m: &[u8], b: usize) -> Option<usize>
    requires { CacheRoom c m.now }
    ensures { First (blocks_in c.shape m.now) c.waiting b result }
{
    for i in 0..c.waiting {
        if tables::get(c.shape, m, Table::Waiting, i) == b {
            return Some(i);
        }
    }
    None
}

// Whether block b waits.
pub fn is_waiting(c: Client, m: &[u8], b: usize) -> bool
    requires { CacheRoom c m.now }
    ensures { result ≡ member b (state_of c m.now).waiting }
{
    place(c, m, b).is_some()
}

// Whether block b waits, by a count of its entries, which has 16 bits as they have, so that the compiler counts eight at a time. Where b does not wait
// that is quicker than to look for its place.
fn waits(c: Client, m: &[u8], b: usize) -> bool
    requires { CacheRoom c m.now }
    ensures { result ≡ member b (state_of c m.now).waiting }
{
    let mut k: u16 = 0;
    for i in 0..c.waiting {
        k += u16::from(tables::get(c.shape, m, Table::Waiting, i) == b);
    }
    k != 0
}

// Marks the blocks of the cache's list, so that a pass over all blocks asks one byte of each.
pub fn mark_waiting(c: Client, m: &[u8], marks: &mut [u8; BLOCKS])
    requires { CacheRoom c m.now × (marks.old ≡ replicate marks_room 0) }
    ensures { Marked (state_of c m.now).waiting marks.new }
{
    for i in 0..c.waiting {
        let b = tables::get(c.shape, m, Table::Waiting, i);
        marks[b] = 1;
    }
}

// The place in the cache of the block that has waited longest for partition q.
pub fn longest(c: Client, m: &[u8], q: usize) -> Option<usize>
    requires { CacheRoom c m.now }
    ensures { Longest (state_of c m.now) q result }
{
    for i in 0..c.waiting {
        let b = tables::get(c.shape, m, Table::Waiting, i);
        if tables::get(c.shape, m, Table::Partition, b) == q {
            return Some(i);
        }
    }
    None
}

// The k blocks that have waited longest for q, or all that wait for it, wait no longer. The first of them is at place `first`, if there is one.
pub fn leave_first(c: Client, m: &mut [u8], q: usize, first: Option<usize>, k: usize) -> Client
    requires { CacheRoom c m.old × Longest (state_of c m.old) q first }
    ensures { (result ≡ with_waiting result.waiting c) × Stands result m.old m.new (set_waiting (leave (take k (keep (waits_for (state_of c m.old) q) (state_of c m.old).waiting)) (state_of c m.old).waiting) (state_of c m.old)) }
{
    let Some(first) = first else {
        return c;
    };
    let mut gone = 0;
    for i in first..c.waiting {
        gone = move_up(c, m, q, i, gone, k);
    }
    c.with_waiting(c.waiting - gone)
}

// The block at place i leaves, if it waits for q and fewer than k have left; else it moves up by as many places as have left. The result is how many
// have left then.
fn move_up(c: Client, m: &mut [u8], q: usize, i: usize, gone: usize, k: usize) -> usize
    requires { Room c m.old × (gone ≤ i) × (i < c.shape.n) }
    ensures { MovedUp c.shape m.old m.new q i gone k result }
{
    let x = tables::get(c.shape, m, Table::Waiting, i);
    if gone < k {
        if tables::get(c.shape, m, Table::Partition, x) == q {
            return gone + 1;
        }
    }
    tables::set(c.shape, m, Table::Waiting, i - gone, x);
    gone
}

// Block b leaves the cache wherever it waits, and joins its young end. Those before its first place stay where they are. Mostly it does not wait, so
// that is asked first.
pub fn renew(c: Client, m: &mut [u8], b: usize) -> Client
    requires { CacheRoom c m.old × (b < c.shape.n) × (length (others (state_of c m.old).waiting b) < c.shape.n) }
    ensures { (result ≡ with_waiting (length (others (state_of c m.old).waiting b) + 1) c) × Stands result m.old m.new (set_waiting (others (state_of c m.old).waiting b ++ (b ∷ [])) (state_of c m.old)) }
{
    let first = if waits(c, m, b) { place(c, m, b) } else { None };
    let from = first.unwrap_or(c.waiting);
    let mut k = from;
    for i in from..c.waiting {
        k = join(c, m, k, i, b);
    }
    tables::set(c.shape, m, Table::Waiting, k, b);
    c.with_waiting(k + 1)
}

// The block at place i joins the first k, unless it is b. The result is how many are first then.
fn join(c: Client, m: &mut [u8], k: usize, i: usize, b: usize) -> usize
    requires { Room c m.old × (k ≤ i) × (i < c.shape.n) }
    ensures { Joined c.shape m.old m.new k i b result }
{
    let x = tables::get(c.shape, m, Table::Waiting, i);
    if x == b {
        return k;
    }
    tables::set(c.shape, m, Table::Waiting, k, x);
    k + 1
}
