// Numbers and blocks in lent bytes.
#![tactic(auto)]

ghost use Rattle.std.specs.Prelude.{◌≡◌, ◌+◌, ◌*◌, ◌<◌, length};
ghost use Rattle.memory.specs.Words.{word_at, set_word};

// Number k of the bytes m.
pub fn word(m: &[u8], k: usize) -> usize
    requires { k * 2 + 1 < length m.now }
    ensures { (result ≡ word_at m.now k) × (result < 65536) }
{
    let at = k * 2;
    usize::from(u16::from_le_bytes([m[at], m[at + 1]]))
}

// Stores v as number k.
pub fn set_word(m: &mut [u8], k: usize, v: usize)
    requires { (k * 2 + 1 < length m.old) × (v < 65536) }
    ensures { m.new ≡ set_word m.old k v }
{
    let at = k * 2;
    let bytes = (v as u16).to_le_bytes(); // as, since it fits: TryFrom would answer an Err that never comes
    m[at] = bytes[0];
    m[at + 1] = bytes[1];
}

pub mod blocks;
pub mod tables;

// A shape: N blocks, P partitions, L levels, B bytes a block, E places in the eviction cache, W commands outstanding.
#[derive(Clone, Copy)]
pub struct Shape {
    pub n: usize,
    pub p: usize,
    pub l: usize,
    pub b: usize,
    pub e: usize,
    pub w: usize,
}
