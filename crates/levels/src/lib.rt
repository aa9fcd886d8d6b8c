// Levels and their slots: which is read next, what they hold.
#![tactic(auto)]

ghost use Rattle.std.specs.Prelude.{◌≡◌, ◌+◌, ◌-◌, ◌*◌, ◌<◌, ◌≤◌, length, if◌then◌else◌};
ghost use Rattle.rules.specs.Shape.{slots, cell as cell_of};
ghost use Rattle.rules.specs.Levels.{filled};
ghost use Rattle.rules.specs.Jobs.{top_of};
ghost use Rattle.rules.specs.Blocks.{blocks_in, is_unread, reads_of};
ghost use Rattle.rules.specs.Reader.{dummy, lowest};
ghost use Rattle.rules.specs.Rebuild.{unread as unread_of};
ghost use Rattle.rules.specs.Turn.{mark_read};
ghost use Rattle.memory.specs.Words.{word_at};
ghost use Rattle.memory.specs.Fits.{shape_of};
ghost use Rattle.client.specs.View.{state_of, found_of};
ghost use Rattle.client.specs.Moves.{HasLevel, HasSlot, Room, Stands};
ghost use Rattle.levels.specs.Items.{free_at, items_from};
ghost use Rattle.levels.specs.Next.{NextLevel};

use client::Client;
use memory::Shape;
use memory::tables::{self, Table};

// The cell of the slot of partition q that has the number x, which is 2^(level + 1) + slot.
pub fn cell_of(h: Shape, q: usize, x: usize) -> usize
    requires { (h.l ≤ 8) × (h.p ≤ 64) × (h.p * slots h.l ≤ 32768) × (q < h.p) × (x < slots h.l) }
    ensures { (result ≡ q * slots h.l + x) × (result < h.p * slots h.l) }
{
    q * bits::pow2(h.l + 1) + x
}

// The cell of slot i of level l of partition q.
pub fn cell(h: Shape, q: usize, l: usize, i: usize) -> usize
    requires { (h.l ≤ 8) × (h.p ≤ 64) × (h.p * slots h.l ≤ 32768) × (q < h.p) × (l < h.l) × (i < slots l) }
    ensures { (result ≡ cell_of (shape_of h) q l i) × (result < h.p * slots h.l) }
{
    cell_of(h, q, bits::pow2(l + 1) + i)
}

// The first filled level from `from` on, if there is one below `levels`.
pub fn next_filled(levels: usize, counter: usize, from: usize) -> Option<usize>
    requires { (levels ≤ 8) × (from ≤ levels) }
    ensures { NextLevel (filled counter) levels from result }
{
    for l in from..levels {
        if bits::filled(counter, l) {
            return Some(l);
        }
    }
    None
}

// Whether slot i is unread and its entry (0 for a dummy, b + 1 for block b), read as 0 from the bound on, is 0. Most slots that are asked about for a dummy
// hold a block, so that is asked first.
fn is_free(holds: &[u8], marks: &[u8], bound: usize, i: usize) -> bool
    requires { (i * 2 + 1 < length holds.now) × (i * 2 + 1 < length marks.now) }
    ensures { result ≡ free_at bound (word_at holds.now) (word_at marks.now) i }
{
    if tables::fit(bound, memory::word(holds, i)) != 0 {
        return false;
    }
    tables::fit(2, memory::word(marks, i)) == 1
}

// The slot of the lowest of n items for which that holds, by the order of the items and what there is of their slots.
fn lowest_item(order: &[u8], holds: &[u8], marks: &[u8], n: usize, bound: usize) -> Option<usize>
    requires { (n ≤ 65536) × (length order.now ≡ n * 2) × (length holds.now ≡ n * 2) × (length marks.now ≡ n * 2) }
    ensures { found_of result ≡ items_from n bound (word_at order.now) (word_at holds.now) (word_at marks.now) 0 }
{
    for k in 0..n {
        let i = tables::fit(n, memory::word(order, k));
        if is_free(holds, marks, bound, i) {
            return Some(i);
        }
    }
    None
}

// The bound for a dummy, N + 1; or for any item, 1, by which every entry reads as 0.
fn bound(any: bool, n: usize) -> usize
    requires { n ≤ 65536 }
    ensures { result ≡ (if any then 1 else n + 1) }
{
    if any { 1 } else { n + 1 }
}

// The slot of the lowest-numbered unread item of level l of partition q: of any item in a source level of the front job, else of a dummy.
pub fn item(c: Client, m: &[u8], q: usize, l: usize, source: bool) -> Option<usize>
    requires { HasLevel c m.now q l }
    ensures { found_of result ≡ (if source then lowest (state_of c m.now) q l else dummy (state_of c m.now) q l) }
{
    let n = bits::pow2(l + 1);
    let base = cell(c.shape, q, l, 0);
    let order = tables::bytes(c.shape, m, Table::Order, base, n);
    let holds = tables::bytes(c.shape, m, Table::Holds, base, n);
    let marks = tables::bytes(c.shape, m, Table::Mark, base, n);
    lowest_item(order, holds, marks, n, bound(source, c.shape.n))
}

// Whether slot i of level l of partition q is unread.
pub fn is_unread(c: Client, m: &[u8], q: usize, l: usize, i: usize) -> bool
    requires { HasSlot c m.now q l i }
    ensures { result ≡ is_unread (state_of c m.now) q l i }
{
    let x = cell(c.shape, q, l, i);
    tables::get(c.shape, m, Table::Mark, x) == 1
}

// How many slots of level l of partition q have been read since it was written. As below, the count has 16 bits.
pub fn reads(c: Client, m: &[u8], q: usize, l: usize) -> usize
    requires { HasLevel c m.now q l }
    ensures { (result ≡ reads_of (shape_of c.shape) (state_of c m.now).mark q l) × (result ≤ slots l) }
{
    let n = bits::pow2(l + 1);
    let base = cell(c.shape, q, l, 0);
    let mut k: u16 = 0;
    for j in 0..n {
        k += u16::from(tables::get(c.shape, m, Table::Mark, base + j) != 1);
    }
    usize::from(k)
}

// The first of the n slots of level l that the cursor has not gone over; or n, if the level is not filled and so no source. No Option: a range begins
// here, which is empty from n on.
fn first_slot(counter: usize, cursor: usize, l: usize, n: usize) -> usize
    requires { (l < 32) × (2 ≤ n) }
    ensures { result ≡ (if filled counter l then cursor - (n - 2) else n) }
{
    if !bits::filled(counter, l) {
        return n;
    }
    cursor.saturating_sub(n - 2)
}

// The next unread slot of the filled levels up to `top` of partition q, levels ascending, and slots ascending within a level. The levels below that
// of the cursor have been gone over.
pub fn unread(c: Client, m: &[u8], q: usize, counter: usize, top: usize) -> Option<(usize, usize)>
    requires { Room c m.now × (q < c.shape.p) × (counter ≡ (state_of c m.now).counter q) × (top ≡ top_of (state_of c m.now) q) × (top < c.shape.l) × (c.cursor ≤ 65536) }
    ensures { found_of result ≡ unread_of (state_of c m.now) q }
{
    let cursor = c.cursor;
    let from = bits::level_of(cursor);
    let end = top + 1;
    let mut found = None;
    'levels: for l in from..end {
        let n = bits::pow2(l + 1);
        let base = cell(c.shape, q, l, 0);
        let first = first_slot(counter, cursor, l, n);
        for i in first..n {
            if tables::get(c.shape, m, Table::Mark, base + i) == 1 {
                found = Some((l, i));
                break 'levels;
            }
        }
    }
    found
}

// How many slots of partition q hold a block. The count has 16 bits, as the numbers in the table have, so that the compiler counts eight at a time.
pub fn stored(c: Client, m: &[u8], q: usize) -> usize
    requires { Room c m.now × (q < c.shape.p) }
    ensures { (result ≡ blocks_in (state_of c m.now) q c.shape.l) × (result ≤ 512) }
{
    let top = bits::pow2(c.shape.l + 1) - 2;
    let base = cell(c.shape, q, 0, 0);
    let mut k: u16 = 0;
    for j in 0..top {
        k += u16::from(tables::get(c.shape, m, Table::Holds, base + j) != 0);
    }
    usize::from(k)
}

// A slot counts as read once its read is sent.
pub fn mark_read(c: Client, m: &mut [u8], q: usize, l: usize, i: usize)
    requires { HasSlot c m.old q l i }
    ensures { Stands c m.old m.new (mark_read q l i (state_of c m.old)) }
{
    let x = cell(c.shape, q, l, i);
    tables::set(c.shape, m, Table::Mark, x, 0);
}
