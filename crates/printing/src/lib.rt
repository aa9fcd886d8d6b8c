// The text of an answer, put into a buffer from a place on. Each function returns the place behind it. Buffer and place are two arguments: of a
// struct of both a clause would have to name the two parts for `Written`.
#![tactic(auto)]

pub mod columns;

ghost use Rattle.std.specs.Prelude.{◌≡◌, [], ◌∷◌, ◌+◌, ◌*◌, ◌/◌, ◌%◌, ◌≤◌, ◌<◌, length};
ghost use Rattle.rules.specs.State.{cmd};
ghost use Rattle.printing.specs.Text.{blank, digit_of, decimal, hexadecimal, letter_of, number_text, command_text, contents_text};
ghost use Rattle.lists.specs.Written.{Written};

fn put(out: &mut [u8], at: usize, b: u8) -> usize
    requires { at < length out.old }
    ensures { Written out.old at (b ∷ []) out.new result }
{
    out[at] = b;
    at + 1
}

fn digit(d: u8) -> u8
    requires { d < 16 }
    ensures { result ≡ digit_of d }
{
    match d {
        0..=9 => b'0' + d,
        _ => b'a' + (d - 10),
    }
}

// No text of a line is longer.
pub const TEXT: usize = 1027;

// The digits before the last are those of a tenth of the number: five calls at most.
fn digits(out: &mut [u8], at: usize, n: usize) -> usize
    requires { (n < 65536) × (at + length (decimal n) ≤ length out.old) }
    ensures { Written out.old at (decimal n) out.new result }
{
    if n < 10 {
        return put(out, at, digit(n as u8)); // as, since it fits: TryFrom would answer an Err that never comes; so below
    }
    let k = digits(out, at, n / 10);
    put(out, k, digit((n % 10) as u8))
}

// The line of a refusal, or of an accepted O, R or W. It has at most 6 bytes; the room is that of a command's line.
pub fn number(out: &mut [u8], at: usize, n: usize) -> usize
    requires { (n < 65536) × (at + 32 ≤ length out.old) }
    ensures { Written out.old at (number_text n) out.new result }
{
    let k = digits(out, at, n);
    put(out, k, b'\n')
}

// A blank and a number.
fn field(out: &mut [u8], at: usize, n: usize) -> usize
    requires { (n < 65536) × (at + 6 ≤ length out.old) }
    ensures { Written out.old at (blank ∷ decimal n) out.new result }
{
    let k = put(out, at, b' ');
    digits(out, k, n)
}

// The kind is a number: the answer's (see `command`).
fn letter(kind: usize) -> u8
    ensures { result ≡ letter_of kind }
{
    if kind == client::READ { b'r' } else { b'w' }
}

// The line of an accepted t: at most 22 bytes. The kind is a number: that of `Accepted`, which the C interface has.
pub fn command(
    out: &mut [u8],
    at: usize,
    kind: usize,
    partition: usize,
    level: usize,
    slot: usize,
) -> usize
    requires { (partition < 65536) × (level < 65536) × (slot < 65536) × (at + 32 ≤ length out.old) }
    ensures { Written out.old at (command_text (cmd kind partition level slot)) out.new result }
{
    let zero = put(out, at, b'0');
    let gap = put(out, zero, b' ');
    let first = put(out, gap, letter(kind));
    let second = field(out, first, partition);
    let third = field(out, second, level);
    let last = field(out, third, slot);
    put(out, last, b'\n')
}

// The two digits of a byte.
fn pair(out: &mut [u8], at: usize, b: u8) -> usize
    requires { at + 2 ≤ length out.old }
    ensures { Written out.old at (digit_of (b / 16) ∷ digit_of (b % 16) ∷ []) out.new result }
{
    let k = put(out, at, digit(b / 16));
    put(out, k, digit(b % 16))
}

fn pairs(out: &mut [u8], at: usize, bytes: &[u8]) -> usize
    requires { at + 2 * length bytes.now ≤ length out.old }
    ensures { Written out.old at (hexadecimal bytes.now) out.new result }
{
    let mut k = at;
    for b in bytes {
        k = pair(out, k, *b);
    }
    k
}

// The line of an accepted C.
pub fn contents(out: &mut [u8], at: usize, bytes: &[u8]) -> usize
    requires { at + 3 + 2 * length bytes.now ≤ length out.old }
    ensures { Written out.old at (contents_text bytes.now) out.new result }
{
    let zero = put(out, at, b'0');
    let gap = put(out, zero, b' ');
    let end = pairs(out, gap, bytes);
    put(out, end, b'\n')
}
