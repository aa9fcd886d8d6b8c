// Whether blocks that have their sums hold a form that loads.
ghost use Rattle.std.specs.Prelude.{◌≡◌, ◌<◌, ◌≤◌};
ghost use Rattle.rules.specs.Form.Loading.{loads};
ghost use Rattle.rules.specs.Form.Sums.{out_of_blocks};
ghost use Rattle.memory.specs.Fits.{shape_of};
ghost use Rattle.forms.specs.Asked.{records_fit, body_fits};
ghost use Rattle.forms.specs.Bytes.{Whole};
ghost use Rattle.forms.specs.Bounds.{Bounds};

use crate::blocks::{self, CELLS};
use crate::bytes::Form;
use crate::{header, records, slots};
use memory::Shape;

// The n records at byte `at`, of the blocks at byte `from`, and zeros to the end, which is less than a block away.
fn has_records(form: Form<'_>, h: Shape, from: usize, n: usize, at: usize) -> bool
    requires { Bounds h × (from < 65536) × (n ≤ 4096) × (at < 800000) }
    ensures { result ≡ records_fit (out_of_blocks form.entry.bytes.now) h.n h.b from n at }
{
    let step = 4 + h.b;
    let end = at + n * step;
    let len = form.bytes.len() / 512 * 508;
    if len < end {
        return false;
    }
    if 508 <= len - end {
        return false;
    }
    records::are_named(form, h.n, from, n, step, at)
        & records::are_aged(form, n, step, at)
        & records::are_zeros(form, end)
}

// The blocks at byte `from`, the levels behind them, and the records.
fn has_body(form: Form<'_>, h: Shape, from: usize) -> bool
    requires { Bounds h × (from < 4096) }
    ensures { result ≡ body_fits (out_of_blocks form.entry.bytes.now) (shape_of h) from }
{
    let mut seen = [0u8; CELLS];
    if !blocks::are_placed(form, h, from, &mut seen) {
        return false;
    }
    let n = blocks::waiting(form, h.n, from);
    if h.e < n {
        return false;
    }
    let Some(at) = slots::behind(form, h, blocks::behind(form, h.n, from), &seen) else {
        return false;
    };
    has_records(form, h, from, n, at)
}

// Whether a form loads.
pub fn is_form(form: &[u8]) -> bool
    requires { Whole form.now }
    ensures { result ≡ loads form.now }
{
    let payload = Form { bytes: form };
    if payload.byte(0) != 1 {
        return false;
    }
    let h = header::shape(form);
    if !contract::is_within(h) {
        return false;
    }
    if !header::are_below(payload, 13, h.p, bits::pow2(h.l)) {
        return false;
    }
    let queue = 13 + h.p * 2;
    let jobs = payload.number(queue);
    if 64 < jobs {
        return false;
    }
    if !header::are_below(payload, queue + 2, jobs, h.p) {
        return false;
    }
    has_body(payload, h, queue + 2 + jobs * 2)
}
