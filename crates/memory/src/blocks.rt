// Blocks of B bytes, behind the tables in the lent memory.
ghost use Rattle.std.specs.Prelude.{◌≡◌, ◌+◌, ◌*◌, ◌<◌, ◌≤◌, length, replicate};
ghost use Rattle.lists.specs.Tables.{put as put_at};
ghost use Rattle.rules.specs.Shape.{slots};
ghost use Rattle.memory.specs.Blocks.{block_start};
ghost use Rattle.memory.specs.Tables.{tables_of, with_blocks};
ghost use Rattle.memory.specs.Parts.{replaced};
ghost use Rattle.memory.specs.Fits.{shape_of, CellsFit, Fits};

use crate::Shape;

// Makes all of dst zeros. (What `fill` says is of clones; here it is an equation, which callers use as it stands.)
pub fn zeros(dst: &mut [u8])
    ensures { dst.new ≡ replicate (length dst.old) 0 }
{
    dst.fill(0);
}

// The first n bytes become zeros.
pub fn clear(m: &mut [u8], n: usize)
    requires { n ≤ length m.old }
    ensures { m.new ≡ replaced 0 m.old (replicate n 0) }
{
    zeros(&mut m[0..n]);
}

// The first byte of block b. Block N has what a request in hand writes; where block N + 1 would start, the memory that a shape needs ends.
pub fn start(h: Shape, b: usize) -> usize
    requires { CellsFit h × (h.n ≤ 4096) × (h.b ≤ 512) × (b ≤ h.n + 1) }
    ensures { result ≡ block_start (shape_of h) b }
{
    384 + 6 * h.n + 6 * crate::tables::cells(h) + b * h.b
}

// Copies block b into dst.
pub fn load(h: Shape, m: &[u8], b: usize, dst: &mut [u8])
    requires { Fits (shape_of h) (length m.now) × (b ≤ h.n) × (length dst.old ≡ h.b) }
    ensures { dst.new ≡ (tables_of (shape_of h) m.now).blocks b }
{
    let a = start(h, b);
    let e = a + h.b;
    dst.copy_from_slice(&m[a..e]);
}

// Stores src as block b.
pub fn store(h: Shape, m: &mut [u8], b: usize, src: &[u8])
    requires { Fits (shape_of h) (length m.old) × (b ≤ h.n) × (length src.now ≡ h.b) }
    ensures { tables_of (shape_of h) m.new ≡ with_blocks (put_at b src.now (tables_of (shape_of h) m.old).blocks) (tables_of (shape_of h) m.old) }
{
    let a = start(h, b);
    let e = a + h.b;
    m[a..e].copy_from_slice(src);
}

// Copies block b over block d.
pub fn move_block(h: Shape, m: &mut [u8], b: usize, d: usize)
    requires { Fits (shape_of h) (length m.old) × (b ≤ h.n) × (d ≤ h.n) }
    ensures { tables_of (shape_of h) m.new ≡ with_blocks (put_at d ((tables_of (shape_of h) m.old).blocks b) (tables_of (shape_of h) m.old).blocks) (tables_of (shape_of h) m.old) }
{
    let size = h.b;
    let mut t = [0u8; 512];
    load(h, m, b, &mut t[0..size]);
    store(h, m, d, &t[0..size]);
}
