// The blocks of a form: each has its partition and its place, and the slot of its place holds it.
ghost use Rattle.std.specs.Prelude.{◌≡◌, ◌+◌, ◌*◌, ◌<◌, ◌≤◌, length};
ghost use Rattle.lists.specs.All.{All};
ghost use Rattle.lists.specs.Search.{below};
ghost use Rattle.rules.specs.Form.Sums.{out_of_blocks};
ghost use Rattle.memory.specs.Fits.{shape_of, Fits};
ghost use Rattle.memory.specs.Tables.{tables_of};
ghost use Rattle.forms.specs.At.{block_at, block_size, size_at};
ghost use Rattle.forms.specs.Blocks.{blocks_at, counter_in};
ghost use Rattle.forms.specs.Cells.{PlacedIn};
ghost use Rattle.loading.specs.Blocks.{put_block, put_blocks};

use forms::blocks::{self, WAITING};
use forms::bytes::Form;
use memory::Shape;
use memory::tables::{self, Table};

// Block b, which is at byte `at`.
fn block(form: Form<'_>, h: Shape, m: &mut [u8], b: usize, at: usize)
    requires { Fits (shape_of h) (length m.old) × (b < h.n) × (at < 4294967000) × PlacedIn (shape_of h) (counter_in (out_of_blocks form.bytes.now) h.p) (block_at (out_of_blocks form.bytes.now) 1 at) }
    ensures { tables_of (shape_of h) m.new ≡ put_block (shape_of h) b (block_at (out_of_blocks form.entry.bytes.now) 1 at) (tables_of (shape_of h) m.old) }
{
    let q = form.number(at);
    tables::set(h, m, Table::Partition, b, q);
    let l = form.byte(at + 2);
    if WAITING <= l {
        tables::set(h, m, Table::Place, b, 0);
        return;
    }
    let x = bits::pow2(l + 1) + form.byte(at + 3);
    tables::set(h, m, Table::Place, b, x);
    tables::set(h, m, Table::Holds, levels::cell_of(h, q, x), b + 1);
}

// All of them, the first of which is at byte `from`; returns the byte behind them.
pub fn blocks(form: Form<'_>, h: Shape, m: &mut [u8], from: usize) -> usize
    requires { Fits (shape_of h) (length m.old) × (from < 65536) × All (PlacedIn (shape_of h) (counter_in (out_of_blocks form.bytes.now) h.p)) (blocks_at (out_of_blocks form.bytes.now) h.n from) }
    ensures { (result ≡ from + size_at (λ _. block_size (out_of_blocks form.entry.bytes.now) 1) (below h.n) from) × (result ≤ from + h.n * 4) × (tables_of (shape_of h) m.new ≡ put_blocks (shape_of h) 0 (blocks_at (out_of_blocks form.entry.bytes.now) h.n from) (tables_of (shape_of h) m.old)) }
{
    let mut at = from;
    for b in 0..h.n {
        block(form, h, m, b, at);
        at += blocks::size(form, at);
    }
    at
}
