// The first numbers of a form: its own, the shape, the counters and the queue.
ghost use Rattle.std.specs.Prelude.{◌≡◌, ◌+◌, ◌*◌, ◌<◌, ltb};
ghost use Rattle.lists.specs.Search.{all};
ghost use Rattle.rules.specs.Form.Sums.{out_of_blocks};
ghost use Rattle.memory.specs.Fits.{shape_of};
ghost use Rattle.forms.specs.At.{numbers_at, shape_in};
ghost use Rattle.forms.specs.Bytes.{Whole};

use crate::bytes::Form;
use memory::Shape;

// The shape that a form says: as codec::shape reads a state's, but by bytes of a form.
pub fn shape(form: &[u8]) -> Shape
    requires { Whole form.now }
    ensures { shape_of result ≡ shape_in (out_of_blocks form.now) }
{
    let form = Form { bytes: form };
    Shape {
        n: form.number(1),
        p: form.number(3),
        l: form.number(5),
        b: form.number(7),
        e: form.number(9),
        w: form.number(11),
    }
}

// Whether the n numbers from byte a on are below a bound.
pub fn are_below(form: Form<'_>, a: usize, n: usize, bound: usize) -> bool
    requires { a + n * 2 < 4294967295 }
    ensures { result ≡ all (λ x. ltb x bound) (numbers_at (out_of_blocks form.entry.bytes.now) 2 n a) }
{
    for i in 0..n {
        if bound <= form.number(a + i * 2) {
            return false;
        }
    }
    true
}
