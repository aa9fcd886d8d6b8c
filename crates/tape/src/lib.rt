// The tape: 16-bit words as pairs of bytes, low byte first. An odd last byte is no word.
#![tactic(auto)]

ghost use Rattle.std.specs.Prelude.{◌≡◌, suc, ◌%◌, ◌<◌, ◌≤◌, length, get_or, leb};
ghost use Rattle.lists.specs.Search.{keep};
ghost use Rattle.rules.specs.Draws.{limit};
ghost use Rattle.rules.specs.Levels.{filled, down};
ghost use Rattle.rules.specs.Jobs.{orders_bounds};
ghost use Rattle.tape.specs.Tape.{words_of};
ghost use Rattle.tape.specs.Settled.{Counts, Settles, OrderTo, LevelTo};

// How many words there are.
pub fn words(t: &[u8]) -> usize
    ensures { result ≡ length (words_of t.now) }
{
    t.len() / 2
}

// Whether a draw below `bound` passes over the word w. The limit is above 65,536 less the bound, so that most words cost no division.
fn passed(w: usize, bound: usize) -> bool
    requires { (w < 65536) × (0 < bound) × (bound ≤ 65536) }
    ensures { result ≡ leb (limit bound) w }
{
    if w + bound <= 65536 {
        return false;
    }
    65536 / bound * bound <= w
}

// The word that settles a draw below `bound`: the first from word k on that is not passed over.
pub fn settle(t: &[u8], k: usize, bound: usize) -> Option<usize>
    requires { (0 < bound) × (bound ≤ 65536) }
    ensures { Settles bound (words_of t.now) k result }
{
    for i in k..words(t) {
        if !passed(memory::word(t, i), bound) {
            return Some(i);
        }
    }
    None
}

// The number that word k gives in a draw below `bound`.
pub fn draw(t: &[u8], k: usize, bound: usize) -> usize
    requires { (k < length (words_of t.now)) × (0 < bound) }
    ensures { (result ≡ get_or (words_of t.now) k 0 % bound) × (result < bound) }
{
    memory::word(t, k) % bound
}

// The word behind the last that the draws of an order of n slots take, from word `from` on, passed ones counted; none if the words end before the last
// draw is settled.
fn order_end(t: &[u8], from: usize, n: usize) -> Option<usize>
    requires { (from ≤ length (words_of t.now)) × (n ≤ 65536) }
    ensures { OrderTo n (words_of t.now) from result }
{
    let mut k = from;
    for bound in (2..n + 1).rev() {
        k = settle(t, k, bound)? + 1;
    }
    Some(k)
}

// The same of level l, whose order is drawn if it is filled in `next`.
fn level_end(t: &[u8], from: usize, next: usize, l: usize) -> Option<usize>
    requires { (from ≤ length (words_of t.now)) × (l < 16) }
    ensures { LevelTo next l (words_of t.now) from result }
{
    if !bits::filled(next, l) {
        return Some(from);
    }
    order_end(t, from, bits::pow2(l + 1))
}

// How many words the orders of the levels up to `top` take that are filled in `next`, highest first; none if the words end before the last draw is settled.
pub fn orders_words(t: &[u8], next: usize, top: usize) -> Option<usize>
    requires { top < 16 }
    ensures { Counts (orders_bounds (keep (filled next) (down (suc top)))) (words_of t.now) result }
{
    let mut k = 0;
    for l in (0..top + 1).rev() {
        k = level_end(t, k, next, l)?;
    }
    Some(k)
}
