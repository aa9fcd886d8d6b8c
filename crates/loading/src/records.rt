// The records of waiting blocks: their ages, and their contents.
ghost use Rattle.std.specs.Prelude.{◌≡◌, ◌+◌, ◌%◌, ◌*◌, ◌<◌, ◌≤◌, length};
ghost use Rattle.lists.specs.All.{All};
ghost use Rattle.rules.specs.Form.Sums.{out_of_blocks};
ghost use Rattle.memory.specs.Fits.{shape_of, Fits};
ghost use Rattle.memory.specs.Tables.{tables_of};
ghost use Rattle.forms.specs.At.{bytes_at, waiter_at};
ghost use Rattle.loading.specs.Records.{InStore, records_at, put_record, put_records};

use forms::bytes::Form;
use memory::Shape;
use memory::tables::{self, Table};

// Payload from byte k on, all of which is in one block.
fn piece(form: Form<'_>, k: usize, dst: &mut [u8])
    requires { (k + length dst.old ≤ length (out_of_blocks form.bytes.now)) × (k % 508 + length dst.old ≤ 508) × (k < 4294967296) }
    ensures { dst.new ≡ bytes_at (out_of_blocks form.entry.bytes.now) (length dst.old) k }
{
    let a = k + k / 508 * 4;
    let e = a + dst.len();
    dst.copy_from_slice(&form.bytes[a..e]);
}

// How many of n bytes of payload from byte k on are in the block of the first.
fn inside(k: usize, n: usize) -> usize
    ensures { (result ≤ n) × (k % 508 + result ≤ 508) × (0 < n → 0 < result) }
{
    n.min(508 - k % 508)
}

// Payload from byte k on. A step of the loop goes to the end of a block, so no range counts its steps.
fn contents(form: Form<'_>, k: usize, dst: &mut [u8])
    requires { (k + length dst.old ≤ length (out_of_blocks form.bytes.now)) × (k < 4294960000) × (length dst.old ≤ 512) }
    ensures { dst.new ≡ bytes_at (out_of_blocks form.entry.bytes.now) (length dst.old) k }
{
    let n = dst.len();
    let mut i = 0;
    while i < n {
        let e = i + inside(k + i, n - i);
        piece(form, k + i, &mut dst[i..e]);
        i = e;
    }
}

// The record at byte `at`.
fn waiter(form: Form<'_>, h: Shape, m: &mut [u8], at: usize)
    requires { Fits (shape_of h) (length m.old) × (at < 4294950000) × (at + (4 + h.b) ≤ length (out_of_blocks form.bytes.now)) × InStore h.n (waiter_at (out_of_blocks form.bytes.now) h.b at) }
    ensures { tables_of (shape_of h) m.new ≡ put_record (waiter_at (out_of_blocks form.entry.bytes.now) h.b at) (tables_of (shape_of h) m.old) }
{
    let b = form.number(at);
    let age = form.number(at + 2);
    tables::set(h, m, Table::Waiting, age, b);
    let size = h.b;
    let mut t = [0u8; 512];
    contents(form, at + 4, &mut t[0..size]);
    memory::blocks::store(h, m, b, &t[0..size]);
}

// The n records from byte `from` on.
pub fn waiters(form: Form<'_>, h: Shape, m: &mut [u8], from: usize, n: usize)
    requires { Fits (shape_of h) (length m.old) × (from < 800000) × (n ≤ 4096) × (from + n * (4 + h.b) ≤ length (out_of_blocks form.bytes.now)) × All (InStore h.n) (records_at (out_of_blocks form.bytes.now) h.b n from) }
    ensures { tables_of (shape_of h) m.new ≡ put_records (records_at (out_of_blocks form.entry.bytes.now) h.b n from) (tables_of (shape_of h) m.old) }
{
    let step = 4 + h.b;
    let mut at = from;
    for _i in 0..n {
        waiter(form, h, m, at);
        at += step;
    }
}
