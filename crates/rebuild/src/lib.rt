// A rebuild's writes to the tables: the sources hold nothing more, each written level gets a new order, and its blocks their places.
#![tactic(auto)]

ghost use Rattle.std.specs.Prelude.{◌≡◌, suc, min, ◌+◌, ◌-◌, ◌*◌, ◌^◌, ◌<◌, ◌≤◌, length, take, drop, replicate};
ghost use Rattle.lists.specs.All.{All};
ghost use Rattle.lists.specs.Distinct.{NoDup};
ghost use Rattle.lists.specs.Search.{below, keep};
ghost use Rattle.lists.specs.Tables.{put, put_all};
ghost use Rattle.rules.specs.Shape.{slots, cell as cell_of};
ghost use Rattle.rules.specs.Setters.{set_order, set_mark, set_holds};
ghost use Rattle.rules.specs.Draws.{new_order, draws, order_bounds};
ghost use Rattle.rules.specs.Levels.{filled, down};
ghost use Rattle.rules.specs.Jobs.{orders_bounds};
ghost use Rattle.rules.specs.Rebuild.{cleared};
ghost use Rattle.rules.specs.Run.{numbers_of, taken_of};
ghost use Rattle.rules.specs.Laws.Draws.{Enough};
ghost use Rattle.memory.specs.Fits.{shape_of, CellsFit};
ghost use Rattle.client.specs.View.{state_of};
ghost use Rattle.client.specs.Moves.{Room, Stands};
ghost use Rattle.tape.specs.Tape.{words_of};
ghost use Rattle.rebuild.specs.Target.{order_in, Within, Empty, placed, level_written};
ghost use Rattle.rebuild.specs.Laying.{rebuilt, Unlaid, Lays};

use client::Client;
use memory::tables::{self, Table};

// What the levels written so far have taken: words of the tape, and blocks of the list.
#[derive(Clone, Copy)]
pub struct Spent {
    pub words: usize,
    pub blocks: usize,
}

// The cell of slot 0 of level t of partition q.
fn level_start(c: Client, q: usize, t: usize) -> usize
    requires { CellsFit c.shape × (q < c.shape.p) × (t < c.shape.l) }
    ensures { result ≡ cell_of (shape_of c.shape) q t 0 }
{
    levels::cell(c.shape, q, t, 0)
}

// The levels below n of partition q hold nothing more.
fn clear_levels(c: Client, m: &mut [u8], q: usize, n: usize)
    requires { Room c m.old × (q < c.shape.p) × (n ≤ c.shape.l) }
    ensures { Stands c m.old m.new (set_holds (cleared (cell_of (shape_of c.shape) q 0 0) (slots n - 2) (state_of c m.old).holds) (state_of c m.old)) }
{
    let base = level_start(c, q, 0);
    let top = bits::pow2(n + 1) - 2;
    tables::fill(c.shape, m, Table::Holds, base, top, 0);
}

// Every slot of level t is written and unread.
fn mark_written(c: Client, m: &mut [u8], q: usize, t: usize)
    requires { Room c m.old × (q < c.shape.p) × (t < c.shape.l) }
    ensures { Stands c m.old m.new (set_mark (put_all (cell_of (shape_of c.shape) q t 0) (replicate (slots t) 1) (state_of c m.old).mark) (state_of c m.old)) }
{
    let n = bits::pow2(t + 1);
    let base = level_start(c, q, t);
    tables::fill(c.shape, m, Table::Mark, base, n, 1);
}

// The order of level t starts with item i at slot i. (A loop of its own: `fill` stores one number, and a closure would have a clause for the list of them.)
fn start_order(c: Client, m: &mut [u8], q: usize, t: usize)
    requires { Room c m.old × (q < c.shape.p) × (t < c.shape.l) }
    ensures { Stands c m.old m.new (set_order (put_all (cell_of (shape_of c.shape) q t 0) (below (slots t)) (state_of c m.old).order) (state_of c m.old)) }
{
    let n = bits::pow2(t + 1);
    let base = level_start(c, q, t);
    for j in 0..n {
        tables::set(c.shape, m, Table::Order, base + j, j);
    }
}

// Exchanges the slots of the items at cells x and y, of a level of n slots.
fn exchange(c: Client, m: &mut [u8], n: usize, x: usize, y: usize)
    requires { Room c m.old × Within (shape_of c.shape) n x × Within (shape_of c.shape) n y }
    ensures { Stands c m.old m.new (set_order (put y ((state_of c m.old).order x) (put x ((state_of c m.old).order y) (state_of c m.old).order)) (state_of c m.old)) }
{
    let a = tables::fit(n, tables::entry(c.shape, m, Table::Order, x));
    let b = tables::fit(n, tables::entry(c.shape, m, Table::Order, y));
    tables::set(c.shape, m, Table::Order, x, b);
    tables::set(c.shape, m, Table::Order, y, a);
}

// For i from n − 1 down to 1, item i exchanges slots with the item drawn for it, by the words from word `from` on. The result is the word behind the last
// that is taken.
fn draw_order(c: Client, m: &mut [u8], q: usize, t: usize, tape: &[u8], from: usize) -> usize
    requires { Room c m.old × (q < c.shape.p) × (t < c.shape.l) × Enough (order_bounds (slots t)) (drop from (words_of tape.now)) }
    ensures { Stands c m.old m.new (set_order (put_all (cell_of (shape_of c.shape) q t 0) (new_order (slots t) (numbers_of (draws (order_bounds (slots t)) (drop from (words_of tape.now))))) (state_of c m.old).order) (state_of c m.old)) × (result ≡ from + taken_of (draws (order_bounds (slots t)) (drop from (words_of tape.now)))) }
{
    start_order(c, m, q, t);
    let n = bits::pow2(t + 1);
    let base = level_start(c, q, t);
    let mut k = from;
    for i in (1..n).rev() {
        let w = tape::settle(tape, k, i + 1).unwrap();
        let j = tape::draw(tape, w, i + 1);
        exchange(c, m, n, base + i, base + j);
        k = w + 1;
    }
    k
}

// Over a level t that holds nothing, the first k blocks of the list become its first items, at the slots that its order gives them.
fn put_items(c: Client, m: &mut [u8], q: usize, t: usize, list: &[usize], k: usize)
    requires { Room c m.old × (q < c.shape.p) × (t < c.shape.l) × (k ≤ slots t) × (k ≤ length list.now) × NoDup (take k list.now) × All (λ b. b < c.shape.n) (take k list.now) × NoDup (order_in (state_of c m.old) q t) × Empty (cell_of (shape_of c.shape) q t 0) (slots t) (state_of c m.old) }
    ensures { Stands c m.old m.new (placed (cell_of (shape_of c.shape) q t 0) t (take k list.now) (order_in (state_of c m.old) q t) (state_of c m.old)) }
{
    let n = bits::pow2(t + 1);
    let base = level_start(c, q, t);
    for i in 0..k {
        let b = list[i];
        let x = tables::fit(n, tables::entry(c.shape, m, Table::Order, base + i));
        tables::set(c.shape, m, Table::Holds, base + x, b + 1);
        tables::set(c.shape, m, Table::Place, b, n + x);
    }
}

// Over a level t that holds nothing: written and unread, it has the first k blocks of the list, in an order that is drawn by the words from word `from`
// on. The result is the word behind those.
fn write_level(
    c: Client,
    m: &mut [u8],
    q: usize,
    t: usize,
    list: &[usize],
    k: usize,
    tape: &[u8],
    from: usize,
) -> usize
    requires { Room c m.old × (q < c.shape.p) × (t < c.shape.l) × (k ≤ slots t) × (k ≤ length list.now) × NoDup (take k list.now) × All (λ b. b < c.shape.n) (take k list.now) × Enough (order_bounds (slots t)) (drop from (words_of tape.now)) × Empty (cell_of (shape_of c.shape) q t 0) (slots t) (state_of c m.old) }
    ensures { Stands c m.old m.new (level_written (shape_of c.shape) q t (take k list.now) (new_order (slots t) (numbers_of (draws (order_bounds (slots t)) (drop from (words_of tape.now))))) (state_of c m.old)) × (result ≡ from + taken_of (draws (order_bounds (slots t)) (drop from (words_of tape.now)))) }
{
    mark_written(c, m, q, t);
    let next = draw_order(c, m, q, t, tape, from);
    put_items(c, m, q, t, list, k);
    next
}

// How many of n blocks go into level t: until it has 2^t.
fn share(t: usize, n: usize) -> usize
    requires { t ≤ 16 }
    ensures { result ≡ min (2 ^ t) n }
{
    n.min(bits::pow2(t))
}

// Level t is written, with the blocks of the list that are next, if it is filled in `next`.
fn write_filled(
    c: Client,
    m: &mut [u8],
    q: usize,
    t: usize,
    next: usize,
    list: &[usize],
    tape: &[u8],
    p: Spent,
) -> Spent
    requires { Room c m.old × (q < c.shape.p) × (t < c.shape.l) × NoDup list.now × All (λ b. b < c.shape.n) list.now × Unlaid c q next list.now (words_of tape.now) (suc t) m.old p }
    ensures { Lays c q next list.now (words_of tape.now) t m.old m.new p result }
{
    if !bits::filled(next, t) {
        return p;
    }
    let a = p.blocks;
    let n = share(t, list.len() - a);
    let w = write_level(c, m, q, t, &list[a..], n, tape, p.words);
    Spent {
        words: w,
        blocks: a + n,
    }
}

// The tables' part of a rebuild of partition q: the levels up to `top` hold nothing more, and then those that are filled in `next`, the counter after
// it, are written, highest first, with the blocks of the list.
pub fn rebuild_tables(
    c: Client,
    m: &mut [u8],
    q: usize,
    top: usize,
    next: usize,
    list: &[usize],
    tape: &[u8],
)
    requires { Room c m.old × (q < c.shape.p) × (top < c.shape.l) × NoDup list.now × All (λ b. b < c.shape.n) list.now × Enough (orders_bounds (keep (filled next) (down (suc top)))) (words_of tape.now) }
    ensures { Stands c m.old m.new (rebuilt (shape_of c.shape) q top (keep (filled next) (down (suc top))) (numbers_of (draws (orders_bounds (keep (filled next) (down (suc top)))) (words_of tape.now))) list.now (state_of c m.old)) }
{
    clear_levels(c, m, q, top + 1);
    let mut p = Spent {
        words: 0,
        blocks: 0,
    };
    for t in (0..top + 1).rev() {
        p = write_filled(c, m, q, t, next, list, tape, p);
    }
}
