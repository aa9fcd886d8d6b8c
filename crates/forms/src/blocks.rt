// The blocks of a form: a partition of two bytes, and a place of one or two.
ghost use Rattle.std.specs.Prelude.{◌≡◌, true, [], ◌∷◌, ◌+◌, ◌*◌, ◌<◌, ◌≤◌, eqb, ltb, length, get_or, set};
ghost use Rattle.lists.specs.Search.{below};
ghost use Rattle.lists.specs.Tests.{every};
ghost use Rattle.rules.specs.Shape.{slots};
ghost use Rattle.rules.specs.Levels.{filled as is_filled};
ghost use Rattle.rules.specs.Form.Reading.{is_waiting};
ghost use Rattle.rules.specs.Form.Sums.{out_of_blocks};
ghost use Rattle.memory.specs.Fits.{shape_of};
ghost use Rattle.forms.specs.At.{block_at, block_size, size_at, wait_count};
ghost use Rattle.forms.specs.Blocks.{blocks_at, counter_in, stands, marked, all_stand};
ghost use Rattle.forms.specs.Cells.{cells_of};
ghost use Rattle.forms.specs.Once.{mark_all};
ghost use Rattle.forms.specs.Bounds.{Bounds};

use crate::bytes::Form;
use memory::Shape;

// From here on a level is none: 254 is for waiting, 255 for nowhere.
pub const WAITING: usize = 254;

// The slots of all levels of a shape within bounds, at most (`fits`): a byte for each tells whether a block stands in it.
pub const CELLS: usize = 32768;

// Whether x was not met before; it is now.
pub fn is_new(seen: &mut [u8], x: usize) -> bool
    requires { x < length seen.old }
    ensures { (result ≡ eqb (get_or seen.old x 0) 0) × (seen.new ≡ set seen.old x 1) }
{
    let new = seen[x] == 0;
    seen[x] = 1;
    new
}

// Whether slot i of level l is one of the shape's, and the level filled.
fn is_slot(h: Shape, c: usize, l: usize, i: usize) -> bool
    requires { h.l ≤ 8 }
    ensures { result ≡ every (ltb l h.l ∷ ltb i (slots l) ∷ is_filled c l ∷ []) }
{
    if h.l <= l {
        return false;
    }
    (i < bits::pow2(l + 1)) & bits::filled(c, l)
}

// The bytes of the block at byte `at`.
pub fn size(form: Form<'_>, at: usize) -> usize
    requires { at < 4294967000 }
    ensures { (result ≡ block_size (out_of_blocks form.entry.bytes.now) 1 at) × (result ≤ 4) }
{
    if form.byte(at + 2) < WAITING { 4 } else { 3 }
}

// Whether the block at byte `at` is nowhere, waits, or stands in a slot of a filled level in which none stood before.
fn is_placed(form: Form<'_>, h: Shape, at: usize, seen: &mut [u8; CELLS]) -> bool
    requires { Bounds h × (at < 4294967000) }
    ensures { (result ≡ stands (shape_of h) (counter_in (out_of_blocks form.entry.bytes.now) h.p) seen.old (block_at (out_of_blocks form.entry.bytes.now) 1 at)) × (result ≡ true → seen.new ≡ marked (shape_of h) seen.old (block_at (out_of_blocks form.entry.bytes.now) 1 at)) }
{
    let q = form.number(at);
    if h.p <= q {
        return false;
    }
    let l = form.byte(at + 2);
    if WAITING <= l {
        return true;
    }
    let i = form.byte(at + 3);
    let c = form.number(13 + q * 2);
    if !is_slot(h, c, l, i) {
        return false;
    }
    is_new(seen, levels::cell(h, q, l, i))
}

// Whether this holds for each of the blocks, the first of which is at byte `from`: none stands where another does.
pub fn are_placed(form: Form<'_>, h: Shape, from: usize, seen: &mut [u8; CELLS]) -> bool
    requires { Bounds h × (from < 65536) }
    ensures { (result ≡ all_stand (shape_of h) (counter_in (out_of_blocks form.entry.bytes.now) h.p) seen.old (blocks_at (out_of_blocks form.entry.bytes.now) h.n from)) × (result ≡ true → seen.new ≡ mark_all seen.old (cells_of (shape_of h) (blocks_at (out_of_blocks form.entry.bytes.now) h.n from))) }
{
    let mut at = from;
    for _b in 0..h.n {
        if !is_placed(form, h, at, seen) {
            return false;
        }
        at += size(form, at);
    }
    true
}

// The byte behind the n blocks from byte `from` on.
// One walk for this and the two functions beside it would take a closure that changes what it keeps, and be no shorter.
pub fn behind(form: Form<'_>, n: usize, from: usize) -> usize
    requires { (n ≤ 4096) × (from < 65536) }
    ensures { (result ≡ from + size_at (λ _. block_size (out_of_blocks form.entry.bytes.now) 1) (below n) from) × (result ≤ from + n * 4) }
{
    let mut at = from;
    for _b in 0..n {
        at += size(form, at);
    }
    at
}

// Whether the block at byte `at` waits.
pub fn waits(form: Form<'_>, at: usize) -> bool
    requires { at < 4294967000 }
    ensures { result ≡ is_waiting (block_at (out_of_blocks form.entry.bytes.now) 1 at) }
{
    form.byte(at + 2) == WAITING
}

// How many of the n blocks from byte `from` on wait.
pub fn waiting(form: Form<'_>, n: usize, from: usize) -> usize
    requires { (n ≤ 4096) × (from < 65536) }
    ensures { (result ≡ wait_count (blocks_at (out_of_blocks form.entry.bytes.now) n from)) × (result ≤ n) }
{
    let mut count = 0;
    let mut at = from;
    for _b in 0..n {
        count += usize::from(waits(form, at));
        at += size(form, at);
    }
    count
}
