// The payload of a form, byte by byte: each block has 508 bytes of it. Past its end it reads as zeros.
ghost use Rattle.std.specs.Prelude.{◌≡◌, ◌<◌, get_or};
ghost use Rattle.rules.specs.Form.Sums.{out_of_blocks};
ghost use Rattle.forms.specs.At.{number_at};
ghost use Rattle.forms.specs.Bytes.{Whole};

// The blocks of a form: all are whole.
#[derive(Clone, Copy)]
pub struct Form<'a> {
    pub bytes: &'a [u8],
    ghost whole: { Whole bytes.now },
}

impl Form<'_> {
    // Byte k of the payload.
    pub fn byte(self, k: usize) -> usize
        requires { k < 4294967296 }
        ensures { (result ≡ get_or (out_of_blocks self.entry.bytes.now) k 0) × (result < 256) }
    {
        let at = k + k / 508 * 4;
        if at < self.bytes.len() {
            usize::from(self.bytes[at])
        } else {
            0
        }
    }

    // The number of two bytes from byte k on.
    pub fn number(self, k: usize) -> usize
        requires { k < 4294967295 }
        ensures { (result ≡ number_at (out_of_blocks self.entry.bytes.now) 2 k) × (result < 65536) }
    {
        self.byte(k) + self.byte(k + 1) * 256
    }
}
