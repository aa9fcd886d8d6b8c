// The tables in the lent memory. Every content decodes: a number out of range reads as 0.
ghost use Rattle.std.specs.Prelude.{◌≡◌, ◌+◌, ◌-◌, ◌*◌, ◌^◌, ◌<◌, ◌≤◌, length, replicate};
ghost use Rattle.lists.specs.Tables.{put as put_at, put_all};
ghost use Rattle.rules.specs.Shape.{slots};
ghost use Rattle.memory.specs.Tables.{tables_of, start_of, size_of, bound_of, table_at, with_table};
ghost use Rattle.memory.specs.Words.{word_at, Numbers};
ghost use Rattle.memory.specs.Closing.{closed_up};
ghost use Rattle.memory.specs.Fits.{shape_of, CellsFit, Fits, fit as fit_of};

use crate::Shape;

// x where it is below the bound, else 0.
pub fn fit(bound: usize, x: usize) -> usize
    ensures { result ≡ fit_of bound x }
{
    if x < bound { x } else { 0 }
}

// The cells of all levels of all partitions.
pub fn cells(h: Shape) -> usize
    requires { CellsFit h }
    ensures { result ≡ h.p * slots h.l }
{
    let n = bits::pow2(h.l + 1);
    h.p * n
}

// The tables, in the order in which they lie. Each has numbers of two bytes. A cell is a slot's number among all slots, `cells` of them.
#[derive(Clone, Copy)]
pub enum Table {
    // By job of the queue, front first: its partition.
    Queue,
    // By outstanding command: the number that has its partition and kind.
    Kinds,
    // By outstanding command: the number that has its level and slot.
    Spots,
    // By partition: its counter.
    Counter,
    // By block: its partition.
    Partition,
    // By block: its place, 0 or 1 for nowhere, else slots(level) + slot.
    Place,
    // The blocks that wait, longest waiting first.
    Waiting,
    // By an item's cell: the item's slot, below the slots of its level.
    Order,
    // By a slot's cell: what the slot holds, 0 for a dummy, b + 1 for block b.
    Holds,
    // By a slot's cell: 1 if the slot is unread, else 0; a number, as all entries are (`tables_of`).
    Mark,
}

// The number of the memory that is the first of table t. Each caller names its table, so that the compiler leaves only that arm.
fn start(h: Shape, t: Table) -> usize
    requires { CellsFit h × (h.n ≤ 4096) }
    ensures { result ≡ start_of (shape_of h) t }
{
    let n = h.n;
    let all = cells(h);
    match t {
        Table::Queue => 0,
        Table::Kinds => 64,
        Table::Spots => 96,
        Table::Counter => 128,
        Table::Partition => 192,
        Table::Place => 192 + n,
        Table::Waiting => 192 + 2 * n,
        Table::Order => 192 + 3 * n,
        Table::Holds => 192 + 3 * n + all,
        Table::Mark => 192 + 3 * n + 2 * all,
    }
}

// What the entries of table t are below. Kinds and Spots have two values in one number, and the bound of an item's slot is that of its level: what a
// number of two bytes is below stands for these, and callers read them by `entry`.
fn bound(h: Shape, t: Table) -> usize
    requires { (h.n ≤ 4096) × (h.l ≤ 8) }
    ensures { result ≡ bound_of (shape_of h) t }
{
    match t {
        Table::Queue | Table::Partition => h.p,
        Table::Kinds | Table::Spots | Table::Order => 65536,
        Table::Counter => bits::pow2(h.l),
        Table::Place => bits::pow2(h.l + 1),
        Table::Waiting => h.n,
        Table::Holds => h.n + 1,
        Table::Mark => 2,
    }
}

// Entry i of table t, as it is stored.
pub fn entry(h: Shape, m: &[u8], t: Table, i: usize) -> usize
    requires { Fits (shape_of h) (length m.now) × (i < size_of (shape_of h) t) }
    ensures { result ≡ table_at t (tables_of (shape_of h) m.now) i }
{
    crate::word(m, start(h, t) + i)
}

// Entry i of table t, 0 where it is not below the table's bound.
pub fn get(h: Shape, m: &[u8], t: Table, i: usize) -> usize
    requires { Fits (shape_of h) (length m.now) × (i < size_of (shape_of h) t) }
    ensures { result ≡ fit_of (bound_of (shape_of h) t) (table_at t (tables_of (shape_of h) m.now) i) }
{
    fit(bound(h, t), entry(h, m, t, i))
}

// Stores v as entry i of table t.
pub fn set(h: Shape, m: &mut [u8], t: Table, i: usize, v: usize)
    requires { Fits (shape_of h) (length m.old) × (i < size_of (shape_of h) t) × (v < 65536) }
    ensures { tables_of (shape_of h) m.new ≡ with_table t (put_at i v (table_at t (tables_of (shape_of h) m.old))) (tables_of (shape_of h) m.old) }
{
    crate::set_word(m, start(h, t) + i, v);
}

// The n entries of table t from entry `base` on become v.
pub fn fill(h: Shape, m: &mut [u8], t: Table, base: usize, n: usize, v: usize)
    requires { Fits (shape_of h) (length m.old) × (base + n ≤ size_of (shape_of h) t) × (v < 65536) }
    ensures { tables_of (shape_of h) m.new ≡ with_table t (put_all base (replicate n v) (table_at t (tables_of (shape_of h) m.old))) (tables_of (shape_of h) m.old) }
{
    for i in 0..n {
        set(h, m, t, base + i, v);
    }
}

// Entry `from` of table t leaves: the entries behind it, up to entry `last`, move down by one, each as it is read below the bound. A copy of
// the bytes would do, but the compiler makes a call of that, which costs every completion more than the few jobs that end gain.
pub fn close_up(h: Shape, m: &mut [u8], t: Table, from: usize, last: usize, bound: usize)
    requires { Fits (shape_of h) (length m.old) × (from ≤ last) × (last < size_of (shape_of h) t) }
    ensures { tables_of (shape_of h) m.new ≡ with_table t (closed_up bound from last (table_at t (tables_of (shape_of h) m.old))) (tables_of (shape_of h) m.old) }
{
    for i in from..last {
        let v = fit(bound, entry(h, m, t, i + 1));
        set(h, m, t, i, v);
    }
}

// The bytes of the n numbers from number k on.
fn numbers(m: &[u8], k: usize, n: usize) -> &[u8]
    requires { ((k + n) * 2 ≤ length m.now) × (k + n ≤ 131072) }
    ensures { Numbers result.now n (λ i. word_at m.now (k + i)) }
{
    let a = k * 2;
    let e = a + n * 2;
    &m[a..e]
}

// The bytes of the n entries of table t from entry i on. A loop over these has one index to go by.
pub fn bytes(h: Shape, m: &[u8], t: Table, i: usize, n: usize) -> &[u8]
    requires { Fits (shape_of h) (length m.now) × (i + n ≤ size_of (shape_of h) t) }
    ensures { Numbers result.now n (λ k. table_at t (tables_of (shape_of h) m.now) (i + k)) }
{
    numbers(m, start(h, t) + i, n)
}
