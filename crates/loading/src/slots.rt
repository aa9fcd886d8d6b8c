// The filled levels of a form: the slot of each item, and a mark for each slot. Each function returns the byte behind what it read.
ghost use Rattle.std.specs.Prelude.{◌≡◌, ◌+◌, ◌<◌, ◌≤◌, length};
ghost use Rattle.lists.specs.Search.{below};
ghost use Rattle.rules.specs.Form.Numbers.{each};
ghost use Rattle.rules.specs.Form.Sums.{out_of_blocks};
ghost use Rattle.memory.specs.Fits.{shape_of, Fits};
ghost use Rattle.memory.specs.Tables.{tables_of};
ghost use Rattle.forms.specs.At.{level_size, size_at};
ghost use Rattle.forms.specs.Blocks.{counter_in};
ghost use Rattle.forms.specs.Passes.{key_at, keys_of};
ghost use Rattle.loading.specs.Levels.{levels_put};

use crate::tables;
use forms::bytes::Form;
use memory::Shape;

// Level l of partition q, which is at byte `at` if the counter c says that it is filled.
fn level(form: Form<'_>, h: Shape, m: &mut [u8], q: usize, c: usize, l: usize, at: usize) -> usize
    requires { Fits (shape_of h) (length m.old) × (q < h.p) × (l < h.l) × (at < 4294950000) }
    ensures { (result ≡ at + size_at (level_size 1) (key_at q c l) at) × (result ≤ at + 512) × (tables_of (shape_of h) m.new ≡ levels_put (shape_of h) (out_of_blocks form.entry.bytes.now) (key_at q c l) at (tables_of (shape_of h) m.old)) }
{
    if !bits::filled(c, l) {
        return at;
    }
    let n = bits::pow2(l + 1);
    let cell = levels::cell(h, q, l, 0);
    tables::order(form, h, m, cell, at, n);
    tables::marks(form, h, m, cell, at + n, n);
    at + n + n
}

// The levels of partition q.
fn partition(form: Form<'_>, h: Shape, m: &mut [u8], q: usize, from: usize) -> usize
    requires { Fits (shape_of h) (length m.old) × (q < h.p) × (from < 4294900000) }
    ensures { (result ≡ from + size_at (level_size 1) (keys_of h.l (counter_in (out_of_blocks form.entry.bytes.now) h.p) q) from) × (result ≤ from + 4096) × (tables_of (shape_of h) m.new ≡ levels_put (shape_of h) (out_of_blocks form.entry.bytes.now) (keys_of h.l (counter_in (out_of_blocks form.entry.bytes.now) h.p) q) from (tables_of (shape_of h) m.old)) }
{
    let c = form.number(13 + q * 2);
    let mut at = from;
    for l in 0..h.l {
        at = level(form, h, m, q, c, l, at);
    }
    at
}

// The levels of all partitions.
// One loop for this and the levels of a partition would take their keys and a closure, and be no shorter.
pub fn partitions(form: Form<'_>, h: Shape, m: &mut [u8], from: usize) -> usize
    requires { Fits (shape_of h) (length m.old) × (from < 65536) }
    ensures { (result ≡ from + size_at (level_size 1) (each (keys_of h.l (counter_in (out_of_blocks form.entry.bytes.now) h.p)) (below h.p)) from) × (result ≤ from + 262144) × (tables_of (shape_of h) m.new ≡ levels_put (shape_of h) (out_of_blocks form.entry.bytes.now) (each (keys_of h.l (counter_in (out_of_blocks form.entry.bytes.now) h.p)) (below h.p)) from (tables_of (shape_of h) m.old)) }
{
    let mut at = from;
    for q in 0..h.p {
        at = partition(form, h, m, q, at);
    }
    at
}
