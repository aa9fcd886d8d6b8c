// The lines of a page: numbers right-aligned in columns.
ghost use Rattle.std.specs.Prelude.{◌≡◌, [], ◌∷◌, ◌++◌, ◌+◌, ◌≤◌, ◌<◌, length, replicate};
ghost use Rattle.printing.specs.Text.{blank, newline, decimal};
ghost use Rattle.printing.specs.Columns.{column as column_of, line_length, partition_line, last_line};
ghost use Rattle.lists.specs.Written.{Written};

// 28 characters and a newline.
pub const LINE: usize = 29;

// How many digits a number has.
fn width(n: usize) -> usize
    requires { n < 65536 }
    ensures { result ≡ length (decimal n) }
{
    match n {
        0..=9 => 1,
        10..=99 => 2,
        100..=999 => 3,
        1000..=9999 => 4,
        _ => 5,
    }
}

fn blanks(out: &mut [u8], at: usize, n: usize) -> usize
    requires { at + n ≤ length out.old }
    ensures { Written out.old at (replicate n blank) out.new result }
{
    let end = at + n;
    out[at..end].fill(b' ');
    end
}

// A number in `columns` columns, right-aligned.
fn column(out: &mut [u8], at: usize, columns: usize, n: usize) -> usize
    requires { (n < 65536) × (length (decimal n) ≤ columns) × (at + columns ≤ length out.old) }
    ensures { (result ≡ at + columns) × Written out.old at (column_of columns n) out.new result }
{
    let k = blanks(out, at, columns - width(n));
    crate::digits(out, k, n)
}

// A figure. No number below 65,536 outgrows six columns.
fn figure(out: &mut [u8], at: usize, n: usize) -> usize
    requires { (n < 65536) × (at + 6 ≤ length out.old) }
    ensures { (result ≡ at + 6) × Written out.old at (column_of 6 n) out.new result }
{
    column(out, at, 6, n)
}

// The line of a partition: its number in 4 columns, four figures in 6 each.
pub fn partition_line(
    out: &mut [u8],
    at: usize,
    q: usize,
    counter: usize,
    stored: usize,
    waiting: usize,
    queued: usize,
) -> usize
    requires { (q < 100) × (counter < 65536) × (stored < 65536) × (waiting < 65536) × (queued < 65536) × (at + line_length ≤ length out.old) }
    ensures { Written out.old at (partition_line q (counter ∷ stored ∷ waiting ∷ queued ∷ [])) out.new result }
{
    let first = column(out, at, 4, q);
    let second = figure(out, first, counter);
    let third = figure(out, second, stored);
    let fourth = figure(out, third, waiting);
    let last = figure(out, fourth, queued);
    crate::put(out, last, b'\n')
}

// What the last line begins with.
fn heading(out: &mut [u8], at: usize) -> usize
    requires { at + 4 ≤ length out.old }
    ensures { (result ≡ at + 4) × Written out.old at (97 ∷ 108 ∷ 108 ∷ blank ∷ []) out.new result }
{
    let second = crate::put(out, at, b'a');
    let third = crate::put(out, second, b'l');
    let fourth = crate::put(out, third, b'l');
    crate::put(out, fourth, b' ')
}

// What it ends with: blanks where a partition's line has its jobs.
fn ending(out: &mut [u8], at: usize) -> usize
    requires { at + 7 ≤ length out.old }
    ensures { Written out.old at (replicate 6 blank ++ (newline ∷ [])) out.new result }
{
    let k = blanks(out, at, 6);
    crate::put(out, k, b'\n')
}

// The last line: three figures in 6 columns each.
pub fn last_line(out: &mut [u8], at: usize, nowhere: usize, stored: usize, waiting: usize) -> usize
    requires { (nowhere < 65536) × (stored < 65536) × (waiting < 65536) × (at + line_length ≤ length out.old) }
    ensures { Written out.old at (last_line (nowhere ∷ stored ∷ waiting ∷ [])) out.new result }
{
    let first = heading(out, at);
    let second = figure(out, first, nowhere);
    let third = figure(out, second, stored);
    let rest = figure(out, third, waiting);
    ending(out, rest)
}
