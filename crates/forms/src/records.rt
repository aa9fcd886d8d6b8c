// The records of waiting blocks, and what is behind them.
ghost use Rattle.std.specs.Prelude.{◌≡◌, ◌+◌, ◌/◌, ◌*◌, ◌<◌, ◌≤◌, eqb, ltb, length, drop, replicate};
ghost use Rattle.lists.specs.Search.{all};
ghost use Rattle.rules.specs.Form.Sums.{out_of_blocks};
ghost use Rattle.forms.specs.Blocks.{blocks_at};
ghost use Rattle.forms.specs.Once.{fresh_in};
ghost use Rattle.forms.specs.Records.{numbers_by, away};

use crate::blocks;
use crate::bytes::Form;

// Whether n numbers, the first at byte `from` and each `step` bytes behind the last, are below a bound and none is in `seen`, nor one twice.
pub fn are_once(
    form: Form<'_>,
    from: usize,
    step: usize,
    n: usize,
    bound: usize,
    seen: &mut [u8],
) -> bool
    requires { (from < 1000000) × (step ≤ 516) × (n ≤ 4096) × (bound ≤ length seen.old) }
    ensures { result ≡ fresh_in (λ x. ltb x bound) seen.old (numbers_by (out_of_blocks form.entry.bytes.now) step n from) }
{
    let mut at = from;
    for _i in 0..n {
        let x = form.number(at);
        if bound <= x {
            return false;
        }
        if !blocks::is_new(seen, x) {
            return false;
        }
        at += step;
    }
    true
}

// Puts 1 for each of n blocks that does not wait, and 0 for each that does; the first is at byte `from`.
pub fn mark_away(form: Form<'_>, n: usize, from: usize, seen: &mut [u8])
    requires { (n ≤ 4096) × (from < 65536) × (n ≤ length seen.old) }
    ensures { seen.new ≡ away seen.old 0 (blocks_at (out_of_blocks form.entry.bytes.now) n from) }
{
    let mut at = from;
    for b in 0..n {
        seen[b] = u8::from(!blocks::waits(form, at));
        at += blocks::size(form, at);
    }
}

// Whether there are zeros from byte `from` to the end of the payload.
pub fn are_zeros(form: Form<'_>, from: usize) -> bool
    requires { (from ≤ length form.bytes.now / 512 * 508) × (length form.bytes.now / 512 * 508 < 4294967296) }
    ensures { result ≡ all (eqb 0) (drop from (out_of_blocks form.entry.bytes.now)) }
{
    let end = form.bytes.len() / 512 * 508;
    for k in from..end {
        if form.byte(k) != 0 {
            return false;
        }
    }
    true
}

// Whether each of n records from byte `at` on is of a block that waits, and no two of one; the blocks are at byte `from`.
pub fn are_named(
    form: Form<'_>,
    count: usize,
    from: usize,
    n: usize,
    step: usize,
    at: usize,
) -> bool
    requires { (count ≤ 4096) × (from < 65536) × (n ≤ 4096) × (step ≤ 516) × (at < 1000000) }
    ensures { result ≡ fresh_in (λ x. ltb x count) (away (replicate 4096 0) 0 (blocks_at (out_of_blocks form.entry.bytes.now) count from)) (numbers_by (out_of_blocks form.entry.bytes.now) step n at) }
{
    let mut seen = [0u8; 4096];
    mark_away(form, count, from, &mut seen);
    are_once(form, at, step, n, count, &mut seen)
}

// Whether their ages are the numbers below n, each once.
pub fn are_aged(form: Form<'_>, n: usize, step: usize, at: usize) -> bool
    requires { (n ≤ 4096) × (step ≤ 516) × (at < 900000) }
    ensures { result ≡ fresh_in (λ x. ltb x n) (replicate 4096 0) (numbers_by (out_of_blocks form.entry.bytes.now) step n (at + 2)) }
{
    let mut seen = [0u8; 4096];
    are_once(form, at + 2, step, n, n, &mut seen)
}
