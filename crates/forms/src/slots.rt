// The filled levels of a form: the slot of each item, and a mark for each slot.
ghost use Rattle.std.specs.Prelude.{◌≡◌, IfSome, ◌&&◌, ◌+◌, ◌*◌, ◌^◌, ◌<◌, ◌≤◌, leb, length};
ghost use Rattle.lists.specs.Search.{below};
ghost use Rattle.rules.specs.Shape.{slots};
ghost use Rattle.rules.specs.Form.Numbers.{each};
ghost use Rattle.rules.specs.Form.Sums.{out_of_blocks};
ghost use Rattle.memory.specs.Fits.{shape_of};
ghost use Rattle.forms.specs.At.{bytes_at};
ghost use Rattle.forms.specs.Blocks.{counter_in};
ghost use Rattle.forms.specs.Levels.{is_order as is_order_of, marks_fit, held_in};
ghost use Rattle.forms.specs.Passes.{passed, key_at, keys_of};
ghost use Rattle.forms.specs.Bounds.{Bounds};

use crate::blocks::{self, CELLS};
use crate::bytes::Form;
use memory::Shape;

// Whether the n bytes from byte a on are the numbers below n, each once.
fn is_order(form: Form<'_>, a: usize, n: usize) -> bool
    requires { (n ≤ 256) × (a < 4294960000) }
    ensures { result ≡ is_order_of n (bytes_at (out_of_blocks form.entry.bytes.now) n a) }
{
    let mut seen = [0u8; 256];
    for i in 0..n {
        let x = form.byte(a + i);
        if n <= x {
            return false;
        }
        if !blocks::is_new(&mut seen, x) {
            return false;
        }
    }
    true
}

// Whether the n bytes from byte a on are marks: 0 or 1, and 0 where a block stands, as `seen` says from cell c on.
fn are_marks(form: Form<'_>, a: usize, n: usize, seen: &[u8], c: usize) -> bool
    requires { (n ≤ 256) × (a < 4294960000) × (c + n ≤ length seen.now) }
    ensures { result ≡ marks_fit seen.now c (bytes_at (out_of_blocks form.entry.bytes.now) n a) }
{
    for i in 0..n {
        if 1 < form.byte(a + i) + usize::from(seen[c + i]) {
            return false;
        }
    }
    true
}

// In how many of the n cells from cell c on a block stands.
fn held(seen: &[u8], c: usize, n: usize) -> usize
    requires { (n ≤ 256) × (c + n ≤ length seen.now) }
    ensures { result ≡ held_in seen.now c n }
{
    let mut count = 0;
    for i in 0..n {
        count += usize::from(seen[c + i]);
    }
    count
}

// Whether the order and the marks of level l, from byte `at` on, are right, and no more blocks stand in its slots, from cell c on, than it holds.
fn is_level(form: Form<'_>, l: usize, at: usize, seen: &[u8], c: usize) -> bool
    requires { (l < 8) × (at < 4294950000) × (c + slots l ≤ length seen.now) }
    ensures { result ≡ (is_order_of (slots l) (bytes_at (out_of_blocks form.entry.bytes.now) (slots l) at) && marks_fit seen.now c (bytes_at (out_of_blocks form.entry.bytes.now) (slots l) (at + slots l)) && leb (held_in seen.now c (slots l)) (2 ^ l)) }
{
    let n = bits::pow2(l + 1);
    is_order(form, at, n)
        & are_marks(form, at + n, n, seen, c)
        & (held(seen, c, n) <= bits::pow2(l))
}

// The byte behind level l of partition q, which is at byte `at` if the counter c says that it is filled; none if it is not right.
fn level(
    form: Form<'_>,
    h: Shape,
    q: usize,
    c: usize,
    l: usize,
    at: usize,
    seen: &[u8; CELLS],
) -> Option<usize>
    requires { Bounds h × (q < h.p) × (l < h.l) × (at < 4294950000) }
    ensures { (result ≡ passed (shape_of h) (out_of_blocks form.entry.bytes.now) seen.now (key_at q c l) at) × IfSome result (λ b. b ≤ at + 512) }
{
    if !bits::filled(c, l) {
        return Some(at);
    }
    if !is_level(form, l, at, seen, levels::cell(h, q, l, 0)) {
        return None;
    }
    let n = bits::pow2(l + 1);
    Some(at + n + n)
}

// The byte behind the levels of partition q.
fn partition(form: Form<'_>, h: Shape, q: usize, from: usize, seen: &[u8; CELLS]) -> Option<usize>
    requires { Bounds h × (q < h.p) × (from < 4294900000) }
    ensures { (result ≡ passed (shape_of h) (out_of_blocks form.entry.bytes.now) seen.now (keys_of h.l (counter_in (out_of_blocks form.entry.bytes.now) h.p) q) from) × IfSome result (λ b. b ≤ from + 4096) }
{
    let c = form.number(13 + q * 2);
    let mut at = from;
    for l in 0..h.l {
        at = level(form, h, q, c, l, at, seen)?;
    }
    Some(at)
}

// The byte behind the levels of all partitions, the first of which is at byte `from`; none if one of them is not right.
// One loop for this and the levels of a partition would take their keys and a closure, and be no shorter.
pub fn behind(form: Form<'_>, h: Shape, from: usize, seen: &[u8; CELLS]) -> Option<usize>
    requires { Bounds h × (from < 65536) }
    ensures { (result ≡ passed (shape_of h) (out_of_blocks form.entry.bytes.now) seen.now (each (keys_of h.l (counter_in (out_of_blocks form.entry.bytes.now) h.p)) (below h.p)) from) × IfSome result (λ b. b ≤ from + 262144) }
{
    let mut at = from;
    for q in 0..h.p {
        at = partition(form, h, q, at, seen)?;
    }
    Some(at)
}
