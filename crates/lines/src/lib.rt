// What a line of a session says. A line is told by the letter that is its first field; numbers and contents are stored in lent bytes.
#![tactic(auto)]

ghost use Rattle.std.specs.Prelude.{◌≡◌, List, ℕ, ◌/◌, ◌≤◌, ◌<◌, None, IfSome, IfNone, length, drop};
ghost use Rattle.tape.specs.Tape.{words_of};
ghost use Rattle.lines.specs.Lines.{line_of, tape_of, at_most, number as number_of, digit as digit_of, digits as digits_of, hex_digit, begins as begins_of, contents as contents_of, numbers as numbers_of, up_to, pair as pair_of, opened, read, written, bare, contents_room, most_words};
ghost use Rattle.lines.specs.Said.{said, Small, firsts, exactly as exactly_of};
ghost use Rattle.lines.specs.Fields.{after, Cut, Led};
ghost use Rattle.lines.specs.Stored.{Next};

use memory::Shape;

// A line's contents are at most so many bytes, and a tape has at most so many, two for each of its words.
pub const CONTENTS: usize = 1024;

pub const TAPE: usize = 16384;

// What a line asks for. Of a write: its block, and how many bytes its contents are.
#[derive(Clone, Copy)]
pub enum Line {
    Open(Shape),
    Read(usize),
    Write(usize, usize),
    Turn,
    Collect,
    Malformed,
}

// What a decimal digit says, if x is one.
fn digit(x: u8) -> Option<u8>
    ensures { result ≡ digit_of x }
{
    match x {
        b'0'..=b'9' => Some(x - b'0'),
        _ => None,
    }
}

// What a hexadecimal digit says, if x is one.
fn hex(x: u8) -> Option<u8>
    ensures { result ≡ hex_digit x }
{
    match x {
        b'a'..=b'f' => Some(x - b'a' + 10),
        _ => digit(x),
    }
}

// Where the field that starts at place `from` ends: at the next blank, or with the line.
fn end(line: &[u8], from: usize) -> usize
    requires { from ≤ length line.now }
    ensures { Cut line.now from result }
{
    for i in from..line.len() {
        if line[i] == b' ' {
            return i;
        }
    }
    line.len()
}

// The letter that is the first field; a blank if there is none: with an Option, a line that is one blank would need a case of its own.
fn letter(line: &[u8]) -> u8
    ensures { Led line.now result }
{
    match line {
        [x] => *x,
        [x, b' ', ..] => *x,
        _ => b' ',
    }
}

// Whether there is a digit, and no needless zero before it.
fn begins(s: &[u8]) -> bool
    ensures { result ≡ begins_of s.now }
{
    if s.len() < 2 {
        return s.len() == 1;
    }
    s[0] != b'0'
}

// The number that digits say, if it is at most 65,535. The first digit too many ends it, so that no sum wraps.
fn digits(s: &[u8]) -> Option<usize>
    ensures { result ≡ at_most 65535 (digits_of 0 s.now) }
{
    let mut v = 0;
    for x in s {
        v = v * 10 + usize::from(digit(*x)?);
        if 65535 < v {
            return None;
        }
    }
    Some(v)
}

// The number that a field says.
fn number(s: &[u8]) -> Option<usize>
    ensures { result ≡ number_of s.now }
{
    if begins(s) { digits(s) } else { None }
}

// The number of the field behind place `at`, where the field before it ended, and where this one ends.
fn next(line: &[u8], at: usize) -> Option<(usize, usize)>
    ensures found { IfSome result (λ r. Next line.now at r.0 r.1) }
    ensures none { IfNone result (at < length line.now → numbers_of (after (drop at line.now)) ≡ None) }
{
    if line.len() <= at {
        return None;
    }
    let from = at + 1;
    let e = end(line, from);
    let x = number(&line[from..e])?;
    Some((x, e))
}

// The byte that a pair of hexadecimal digits says.
fn pair(a: u8, b: u8) -> Option<u8>
    ensures { result ≡ pair_of (hex_digit a) (hex_digit b) }
{
    let h = hex(a)?;
    let l = hex(b)?;
    Some(h * 16 + l)
}

// Stores the numbers that the fields behind the letter say, two bytes each, and tells how many, if there is room for all.
fn numbers(line: &[u8], room: &mut [u8]) -> Option<usize>
    ensures numbers { firsts result (words_of room.new) ≡ up_to (length room.old / 2) (numbers_of (after (drop 1 line.now))) }
    ensures within { IfSome result (λ k. k ≤ length room.old / 2) }
{
    let most = room.len() / 2;
    let mut k = 0;
    let mut at = 1;
    // the place goes on by whole fields, which no range counts
    while at < line.len() {
        let (x, e) = next(line, at)?;
        if k == most {
            return None;
        }
        memory::set_word(room, k, x);
        k += 1;
        at = e;
    }
    Some(k)
}

// The numbers that the fields behind the letter say, if they are N.
fn exactly<const N: usize>(line: &[u8]) -> Option<[usize; N]>
    ensures { result ≡ exactly_of N (numbers_of (after (drop 1 line.now))) }
{
    let mut found = [0; N];
    let mut at = 1;
    for k in 0..N {
        let (x, e) = next(line, at)?;
        found[k] = x;
        at = e;
    }
    if at < line.len() {
        return None;
    }
    Some(found)
}

// Stores the bytes that pairs of hexadecimal digits say, and tells how many, if these are contents.
fn contents(s: &[u8], room: &mut [u8; CONTENTS]) -> Option<usize>
    ensures contents { firsts result room.new ≡ contents_of s.now }
    ensures within { IfSome result (λ k. (0 < k) × (k ≤ contents_room)) }
{
    let n = s.len() / 2;
    if n == 0 || s.len() != n * 2 || CONTENTS < n {
        return None;
    }
    for k in 0..n {
        let at = k * 2;
        room[k] = pair(s[at], s[at + 1])?;
    }
    Some(n)
}

// O: six numbers.
fn open_line(line: &[u8]) -> Line
    ensures { ((b : List ℕ) → said result b ≡ opened (numbers_of (after (drop 1 line.now)))) × Small result }
{
    let Some(numbers) = exactly::<6>(line) else {
        return Line::Malformed;
    };
    let [n, p, l, b, e, w] = numbers;
    Line::Open(Shape { n, p, l, b, e, w })
}

// R: a block.
fn block_line(line: &[u8]) -> Line
    ensures { ((b : List ℕ) → said result b ≡ read (numbers_of (after (drop 1 line.now)))) × Small result }
{
    let Some(numbers) = exactly::<1>(line) else {
        return Line::Malformed;
    };
    let [block] = numbers;
    Line::Read(block)
}

// W: a block and contents.
fn write_line(line: &[u8], room: &mut [u8; CONTENTS]) -> Line
    ensures { (said result room.new ≡ written (after (drop 1 line.now))) × Small result }
{
    let n = line.len();
    if n < 2 {
        return Line::Malformed;
    }
    let e = end(line, 2);
    if e == n {
        return Line::Malformed;
    }
    let a = e + 1;
    let z = end(line, a);
    if z < n {
        return Line::Malformed;
    }
    let Some(b) = number(&line[2..e]) else {
        return Line::Malformed;
    };
    let Some(k) = contents(&line[a..z], room) else {
        return Line::Malformed;
    };
    Line::Write(b, k)
}

// t and C: the letter alone, which says r.
fn bare_line(line: &[u8], r: Line) -> Line
    requires { Small r }
    ensures { ((b : List ℕ) → said result b ≡ bare (said r b) (after (drop 1 line.now))) × Small result }
{
    if 1 < line.len() {
        return Line::Malformed;
    }
    r
}

// What a line says. The contents of a write are the first bytes of `room`.
pub fn read_line(line: &[u8], room: &mut [u8; CONTENTS]) -> Line
    ensures { (said result room.new ≡ line_of line.now) × Small result }
{
    match letter(line) {
        b'O' => open_line(line),
        b'R' => block_line(line),
        b'W' => write_line(line, room),
        b't' => bare_line(line, Line::Turn),
        b'C' => bare_line(line, Line::Collect),
        _ => Line::Malformed,
    }
}

// Stores the words of the tape that a first line says, low byte first, and tells how many, if it is a T that is not malformed.
pub fn read_tape(line: &[u8], tape: &mut [u8; TAPE]) -> Option<usize>
    ensures words { firsts result (words_of tape.new) ≡ tape_of line.now }
    ensures within { IfSome result (λ k. k ≤ most_words) }
{
    match letter(line) {
        b'T' => numbers(line, tape),
        _ => None,
    }
}
