// The outstanding commands, in the lent memory.
#![tactic(auto)]

ghost use Rattle.std.specs.Prelude.{◌≡◌, ◌+◌, ◌-◌, ◌*◌, ◌<◌, ◌≤◌, take};
ghost use Rattle.lists.specs.Search.{any};
ghost use Rattle.rules.specs.Shape.{slots};
ghost use Rattle.rules.specs.State.{cmd, write as writes};
ghost use Rattle.rules.specs.Setters.{set_outstanding};
ghost use Rattle.rules.specs.Completion.{is_command};
ghost use Rattle.rules.specs.Turn.{send as send_of};
ghost use Rattle.memory.specs.Tables.{tables_of};
ghost use Rattle.memory.specs.Fits.{shape_of};
ghost use Rattle.client.specs.Kinds.{kind_number};
ghost use Rattle.client.specs.View.{spot_of, state_of, write_from};
ghost use Rattle.client.specs.Rows.{drop_at};
ghost use Rattle.client.specs.Moves.{with_out, Room, Stands};
ghost use Rattle.commands.specs.Outstanding.{of_partition, of_kind, Outstanding};
ghost use Rattle.commands.specs.Commands.{command_in, kind_of, spot_command};

use client::{Client, Kind};
use memory::tables::{self, Table};

// The first number of an outstanding command is its partition, which is below this, and so much more for a write.
const WRITE_FROM: usize = 64;

// Whether one of the n commands that have been outstanding longest is of partition q.
pub fn is_busy(c: Client, m: &[u8], q: usize, n: usize) -> bool
    requires { Room c m.now × (c.out ≤ 32) × (n ≤ c.out) }
    ensures { result ≡ any (of_partition q) (take n (state_of c m.now).outstanding) }
{
    let p = c.shape.p;
    for i in 0..n {
        if tables::fit(p, tables::entry(c.shape, m, Table::Kinds, i) % WRITE_FROM) == q {
            return true;
        }
    }
    false
}

// Whether a write is outstanding.
pub fn is_writing(c: Client, m: &[u8]) -> bool
    requires { Room c m.now × (c.out ≤ 32) }
    ensures { result ≡ any (of_kind writes) (state_of c m.now).outstanding }
{
    for i in 0..c.out {
        if WRITE_FROM <= tables::entry(c.shape, m, Table::Kinds, i) {
            return true;
        }
    }
    false
}

// The place of an outstanding command of this kind, partition, level and slot. None of them is outside the shape.
pub fn find(c: Client, m: &[u8], kind: Kind, q: usize, l: usize, i: usize) -> Option<usize>
    requires { Room c m.now × (c.out ≤ 32) }
    ensures { Outstanding (cmd (kind_number kind) q l i) (state_of c m.now).outstanding result }
{
    if c.shape.p <= q {
        return None;
    }
    let levels = c.shape.l;
    if levels <= l {
        return None;
    }
    let n = bits::pow2(l + 1);
    if n <= i {
        return None;
    }
    search(c, m, kind, q, n + i)
}

// The same, by the number of the slot, slots(level) + slot.
fn search(c: Client, m: &[u8], kind: Kind, q: usize, spot: usize) -> Option<usize>
    requires { Room c m.now × (c.out ≤ 32) × (q < c.shape.p) × (2 ≤ spot) × (spot < slots c.shape.l) }
    ensures { Outstanding (spot_command c.shape.l (kind_number kind) q spot) (state_of c m.now).outstanding result }
{
    for j in 0..c.out {
        if is_at(c, m, j, kind, q, spot) {
            return Some(j);
        }
    }
    None
}

// Whether the outstanding command at place j is of this kind, partition and slot. One that lies as a send stores it is known by its two numbers, and
// only another is taken apart.
fn is_at(c: Client, m: &[u8], j: usize, kind: Kind, q: usize, spot: usize) -> bool
    requires { Room c m.now × (j < 32) × (q < c.shape.p) × (2 ≤ spot) × (spot < slots c.shape.l) }
    ensures { result ≡ is_command (spot_command c.shape.l (kind_number kind) q spot) (command_in c.shape m.now j) }
{
    let a = tables::entry(c.shape, m, Table::Kinds, j);
    if (a == first_number(kind, q)) & (tables::entry(c.shape, m, Table::Spots, j) == spot) {
        return true;
    }
    let p = tables::fit(c.shape.p, a % WRITE_FROM);
    (kind == kind_of(a)) & (q == p) & (spot == spot_at(c, m, j))
}

// The kind of a command, by the first of its numbers.
fn kind_of(a: usize) -> Kind
    ensures { kind_number result ≡ kind_of a }
{
    if a < WRITE_FROM {
        Kind::Read
    } else {
        Kind::Write
    }
}

// The first of the numbers of a command of this kind and partition, as a send stores it.
fn first_number(kind: Kind, q: usize) -> usize
    requires { q < 64 }
    ensures { result ≡ q + write_from * (kind_number kind - 1) }
{
    match kind {
        Kind::Read => q,
        Kind::Write => q + WRITE_FROM,
    }
}

// The slot of the outstanding command at place j, as a number.
fn spot_at(c: Client, m: &[u8], j: usize) -> usize
    requires { Room c m.now × (j < 32) }
    ensures { result ≡ spot_of c.shape.l ((tables_of (shape_of c.shape) m.now).spots j) }
{
    let bound = bits::pow2(c.shape.l + 1);
    let x = tables::fit(bound, tables::entry(c.shape, m, Table::Spots, j));
    if x < 2 { 2 } else { x }
}

// A command is outstanding from now on.
pub fn send(c: Client, m: &mut [u8], kind: Kind, q: usize, l: usize, i: usize) -> Client
    requires { Room c m.old × (c.out < 32) × (q < c.shape.p) × (l < c.shape.l) × (i < slots l) }
    ensures { (result ≡ with_out (c.out + 1) c) × Stands result m.old m.new (send_of (cmd (kind_number kind) q l i) (state_of c m.old)) }
{
    let n = c.out;
    let spot = bits::pow2(l + 1) + i;
    tables::set(c.shape, m, Table::Kinds, n, first_number(kind, q));
    tables::set(c.shape, m, Table::Spots, n, spot);
    c.with_out(n + 1)
}

// The command at place j is completed.
pub fn complete(c: Client, m: &mut [u8], j: usize) -> Client
    requires { Room c m.old × (c.out ≤ 32) × (j < c.out) }
    ensures { (result ≡ with_out (c.out - 1) c) × Stands result m.old m.new (set_outstanding (drop_at j (state_of c m.old).outstanding) (state_of c m.old)) }
{
    let last = c.out - 1;
    for i in j..last {
        let a = tables::entry(c.shape, m, Table::Kinds, i + 1);
        let x = tables::entry(c.shape, m, Table::Spots, i + 1);
        tables::set(c.shape, m, Table::Kinds, i, a);
        tables::set(c.shape, m, Table::Spots, i, x);
    }
    c.with_out(last)
}
