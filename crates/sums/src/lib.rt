// The blocks of a form: 508 bytes of its payload each, and their sum.
#![tactic(auto)]

pub mod bytes;

ghost use Rattle.std.specs.Prelude.{◌≡◌, ◌+◌, ◌*◌, ◌<◌, ◌≤◌, length, take, drop, ◌==◌};
ghost use Rattle.rules.specs.Form.Numbers.{value};
ghost use Rattle.rules.specs.Form.Sums.{block_sum, block_count, in_blocks, summed};
ghost use Rattle.contract.specs.Meets.{handed_to};
ghost use Rattle.lists.specs.Written.{Written};
ghost use Rattle.sums.specs.Spread.{block_of};

// A block, and what it has of the payload.
const BLOCK: usize = 512;

const BODY: usize = 508;

// The four bytes from `at` on, lowest first.
fn word(body: &[u8], at: usize) -> u32
    requires { at + 4 ≤ length body.now }
    ensures { result ≡ value (take 4 (drop at body.now)) }
{
    u32::from_le_bytes([body[at], body[at + 1], body[at + 2], body[at + 3]])
}

// The sum modulo 2^32 of the 127 words of a body and of its block's number.
fn sum(body: &[u8], k: u32) -> u32
    requires { length body.now ≡ 508 }
    ensures { result ≡ block_sum k body.now }
{
    let mut a = k;
    for i in 0..127 {
        a = a.wrapping_add(word(body, i * 4));
    }
    a
}

// Block k gets its body, which is moved up to it, and its sum. The body goes over the stack, as the place that it leaves overlaps the block.
fn place(buffer: &mut [u8], k: usize)
    requires { (k < 65536) × (k * 512 + 512 ≤ length buffer.old) }
    ensures { Written buffer.old (k * 512) (block_of k (take 508 (drop (k * 508) buffer.old))) buffer.new (k * 512 + 512) }
{
    let a = k * BODY;
    let e = a + BODY;
    let mut body = [0u8; BODY];
    body.copy_from_slice(&buffer[a..e]);
    let s = sum(&body, k as u32); // as, since it fits; so below
    let end = bytes::copy(buffer, k * BLOCK, &body);
    bytes::copy(buffer, end, &s.to_le_bytes());
}

// The bytes of the blocks that n bytes of payload need.
pub fn bytes_of(n: usize) -> usize
    requires { n ≤ 3000000 }
    ensures { result ≡ block_count n * 512 }
{
    (n + 507) / BODY * BLOCK
}

// The n bytes of payload at the start of the buffer are cut into blocks: zeros fill up the last one, and from the last to the first each gets its body.
pub fn spread(buffer: &mut [u8], n: usize)
    requires { (n ≤ 3000000) × (block_count n * 512 ≤ length buffer.old) }
    ensures { buffer.new ≡ handed_to buffer.old (in_blocks (take n buffer.old)) }
{
    let count = (n + 507) / BODY;
    bytes::zeros(buffer, n, count * BODY - n);
    for k in (0..count).rev() {
        place(buffer, k);
    }
}

// Whether block k has its sum.
fn is_block(form: &[u8], k: usize) -> bool
    requires { k * 512 + 512 ≤ length form.now }
    ensures { result ≡ (value (take 4 (drop (k * 512 + 508) form.now)) == block_sum k (take 508 (drop (k * 512) form.now))) }
{
    let a = k * 512;
    let e = a + 508;
    let s = sum(&form[a..e], (k % 4294967296) as u32);
    word(form, e) == s
}

// Whether a form is blocks, at least one, that have their sums.
pub fn is_summed(form: &[u8]) -> bool
    ensures { result ≡ summed form.now }
{
    let len = form.len();
    if len == 0 {
        return false;
    }
    if len % 512 != 0 {
        return false;
    }
    for k in 0..len / 512 {
        if !is_block(form, k) {
            return false;
        }
    }
    true
}
