// Bytes and numbers, put into a buffer from a place on. Each function returns the place behind what it put. (Two arguments, as in printing.)
ghost use Rattle.std.specs.Prelude.{◌+◌, ◌<◌, ◌≤◌, length, replicate};
ghost use Rattle.rules.specs.Form.Numbers.{little};
ghost use Rattle.lists.specs.Written.{Written};

// A number of one byte.
pub fn byte(buffer: &mut [u8], at: usize, x: usize) -> usize
    requires { at < length buffer.old }
    ensures { Written buffer.old at (little 1 x) buffer.new result }
{
    buffer[at] = (x % 256) as u8; // as, since it fits: TryFrom would answer an Err that never comes; so below
    at + 1
}

// A number of two bytes, lowest first.
pub fn number(buffer: &mut [u8], at: usize, x: usize) -> usize
    requires { at + 2 ≤ length buffer.old }
    ensures { Written buffer.old at (little 2 x) buffer.new result }
{
    copy(buffer, at, &((x % 65536) as u16).to_le_bytes())
}

// All of src.
pub fn copy(buffer: &mut [u8], at: usize, src: &[u8]) -> usize
    requires { at + length src.now ≤ length buffer.old }
    ensures { Written buffer.old at src.now buffer.new result }
{
    let e = at + src.len();
    buffer[at..e].copy_from_slice(src);
    e
}

// Zeros, n of them.
pub fn zeros(buffer: &mut [u8], at: usize, n: usize) -> usize
    requires { at + n ≤ length buffer.old }
    ensures { Written buffer.old at (replicate n 0) buffer.new result }
{
    let e = at + n;
    buffer[at..e].fill(0);
    e
}
