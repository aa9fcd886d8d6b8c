// Levels and counters: powers of two, filled levels, and the levels, the writes and the counter of jobs that run together.
#![tactic(auto)]

ghost use Rattle.std.specs.Prelude.{◌≡◌, suc, ◌+◌, ◌-◌, ◌<◌, ◌≤◌, ◌^◌};
ghost use Rattle.lists.specs.Search.{keep};
ghost use Rattle.rules.specs.Shape.{Shape};
ghost use Rattle.rules.specs.Levels.{filled as is_filled, joins as joins_of, grown as grown_of, top_level, down};
ghost use Rattle.rules.specs.Jobs.{slot_count};
ghost use Rattle.rules.specs.Laws.Bits.{slots_at};
ghost use Rattle.rules.specs.Laws.Single.Rules.{trailing_ones};
ghost use Rattle.bits.specs.Runs.{Together};

// 2 to the power l.
pub fn pow2(l: usize) -> usize
    requires { l ≤ 16 }
    ensures { (result ≡ 2 ^ l) × (result ≤ 65536) × (0 < result) }
{
    1 << l
}

// Level l is filled exactly when bit l of the counter is 1.
pub fn filled(c: usize, l: usize) -> bool
    requires { l < 32 }
    ensures { result ≡ is_filled c l }
{
    (c >> l) & 1 == 1
}

// The lowest empty level, of as many levels as a counter has bits: the trailing zeros of the counter's complement.
fn lowest_empty(c: usize) -> usize
    ensures { result ≡ trailing_ones 64 c }
{
    (!c).trailing_zeros() as usize // as, since std has no From of u32 for usize; so below
}

// How many of n queued jobs run together: no more than make all levels filled, and one where they are.
pub fn joins(c: usize, n: usize, levels: usize) -> usize
    requires { (levels ≤ 8) × (c < 2 ^ levels) }
    ensures { (h : Shape) → h.L ≡ levels → result ≡ joins_of h c n }
{
    let room = pow2(levels) - 1 - c;
    if room == 0 {
        return 1;
    }
    n.min(room)
}

// The highest level that j jobs together write, up to which the filled levels are their sources. Of one job it is the lowest empty level, or the last
// where all are filled; of more the highest at which c and c + j differ.
pub fn top_level(c: usize, j: usize, levels: usize) -> usize
    requires { (1 ≤ levels) × (levels ≤ 8) × Together levels c j }
    ensures { ((h : Shape) → h.L ≡ levels → result ≡ top_level h c j) × (result < levels) }
{
    if j != 1 {
        return (c ^ (c + j)).ilog2() as usize;
    }
    lowest_empty(c).min(levels - 1)
}

// The counter after j jobs: it grows by j, or from 2^L - 1 falls to 2^(L-1).
pub fn grown(c: usize, j: usize, levels: usize) -> usize
    requires { (1 ≤ levels) × (levels ≤ 8) × Together levels c j }
    ensures { ((h : Shape) → h.L ≡ levels → result ≡ grown_of h c j) × (result < 2 ^ levels) }
{
    if c == pow2(levels) - 1 {
        return pow2(levels - 1);
    }
    c + j
}

// The slots of level l, if it is filled; else 0.
pub fn slots_at(c: usize, l: usize) -> usize
    requires { l < 8 }
    ensures { result ≡ slots_at c l }
{
    ((c >> l) & 1) * pow2(l + 1)
}

// The slots of the filled levels up to level t: two for each block that they hold, of which the counter's lowest bits say how many.
pub fn filled_slots(c: usize, t: usize) -> usize
    requires { t < 8 }
    ensures { result ≡ slot_count (keep (is_filled c) (down (suc t))) }
{
    2 * (c & (pow2(t + 1) - 1))
}

// The level of slot x of a partition, whose slots are counted level by level: level l begins at 2^(l+1) - 2.
pub fn level_of(x: usize) -> usize
    requires { x ≤ 65536 }
    ensures { (2 ^ (result + 1) ≤ x + 2) × (x + 2 < 2 ^ (result + 2)) }
{
    (x + 2).ilog2() as usize - 1
}
