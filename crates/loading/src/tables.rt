// Numbers of a form, put into a table of the memory from an entry on.
ghost use Rattle.std.specs.Prelude.{◌≡◌, List, ℕ, map, ◌+◌, ◌-◌, ◌*◌, ◌<◌, ◌≤◌, length};
ghost use Rattle.rules.specs.Shape.{slots};
ghost use Rattle.rules.specs.Form.Sums.{out_of_blocks};
ghost use Rattle.memory.specs.Fits.{shape_of, Fits};
ghost use Rattle.memory.specs.Tables.{tables_of, size_of};
ghost use Rattle.memory.specs.declared.tables.Table.TheVariants.{Order, Mark};
ghost use Rattle.forms.specs.At.{numbers_at, bytes_at};
ghost use Rattle.loading.specs.Laid.{laid, Lays};

use forms::bytes::Form;
use memory::tables::Table;
use memory::{Shape, tables};

// Puts n numbers into table t from entry `from` on: `number` gives number i.
fn lay<F: Fn(usize) -> usize>(h: Shape, m: &mut [u8], t: Table, from: usize, n: usize, number: F)
    ghost left: { ℕ → List ℕ }
    requires { Fits (shape_of h) (length m.old) × (from + n ≤ size_of (shape_of h) t) × Lays F.Fn number n left }
    ensures { tables_of (shape_of h) m.new ≡ laid t from (left 0) (tables_of (shape_of h) m.old) }
{
    for i in 0..n {
        tables::set(h, m, t, from + i, number(i));
    }
}

// n numbers of two bytes, the first at byte a, from the first entry on.
pub fn numbers(form: Form<'_>, h: Shape, m: &mut [u8], t: Table, a: usize, n: usize)
    requires { Fits (shape_of h) (length m.old) × (n ≤ size_of (shape_of h) t) × (a < 65536) × (n ≤ 64) }
    ensures { tables_of (shape_of h) m.new ≡ laid t 0 (numbers_at (out_of_blocks form.entry.bytes.now) 2 n a) (tables_of (shape_of h) m.old) }
{
    lay(h, m, t, 0, n, |i| form.number(a + i * 2));
}

// The slots of n items, a byte each, from cell c on.
pub fn order(form: Form<'_>, h: Shape, m: &mut [u8], c: usize, a: usize, n: usize)
    requires { Fits (shape_of h) (length m.old) × (c + n ≤ h.p * slots h.l) × (a < 4294960000) × (n ≤ 256) }
    ensures { tables_of (shape_of h) m.new ≡ laid Order c (bytes_at (out_of_blocks form.entry.bytes.now) n a) (tables_of (shape_of h) m.old) }
{
    lay(h, m, Table::Order, c, n, |i| form.byte(a + i));
}

// A form has 1 for a slot that was read, the table for one that was not.
fn turned(mark: usize) -> usize
    ensures { (result ≡ 1 - mark) × (result ≤ 1) }
{
    usize::from(mark == 0)
}

// The marks of n slots, from cell c on.
pub fn marks(form: Form<'_>, h: Shape, m: &mut [u8], c: usize, a: usize, n: usize)
    requires { Fits (shape_of h) (length m.old) × (c + n ≤ h.p * slots h.l) × (a < 4294960000) × (n ≤ 256) }
    ensures { tables_of (shape_of h) m.new ≡ laid Mark c (map (λ x. 1 - x) (bytes_at (out_of_blocks form.entry.bytes.now) n a)) (tables_of (shape_of h) m.old) }
{
    lay(h, m, Table::Mark, c, n, |i| turned(form.byte(a + i)));
}
