// Save writes the form of a state that is at rest: its payload first, and then its blocks.
#![tactic(auto)]

mod payload;
mod sizes;

ghost use Rattle.std.specs.Prelude.{◌≡◌, List, [], ℕ, ◌≤◌, length, IfOk};
ghost use Rattle.rules.specs.Form.Longest.{longest as longest_of};
ghost use Rattle.rules.specs.Form.Payload.{payload as payload_of, saved_form};
ghost use Rattle.rules.specs.Questions.{at_rest, save as save_of};
ghost use Rattle.memory.specs.Fits.{shape_of};
ghost use Rattle.client.specs.View.{state_of};
ghost use Rattle.client.specs.Moves.{Room};
ghost use Rattle.cache.specs.Marks.{Marked};
ghost use Rattle.contract.specs.Answers.{code_of, answered_length};
ghost use Rattle.contract.specs.Meets.{Meets, handed_to};
ghost use Rattle.saving.specs.Saving.{RoomFor, first_questions};

use cache::BLOCKS;
use client::Client;
use contract::Refusal;
use memory::Shape;

// The longest form of the shape, were E equal to N: 64 jobs, all levels filled, all blocks waiting.
fn longest(h: Shape) -> usize
    requires { RoomFor h }
    ensures { result ≡ longest_of (shape_of h) }
{
    let slots = h.p * (bits::pow2(h.l + 1) - 2);
    sums::bytes_of(143 + 2 * h.p + (7 + h.b) * h.n + 2 * slots)
}

// No request is in hand, no command outstanding, no job begun.
fn is_at_rest(c: Client) -> bool
    ensures { (m : List ℕ) → result ≡ at_rest (state_of c m) }
{
    (c.request.kind == 0) & (c.out == 0) & (c.begun == 0)
}

// The questions of a save, but for the last.
#[tactic(auto, unfolding(crate::specs::Saving::first_questions, client::specs::View::state_of, client::specs::View::view, rules::specs::Questions::first_no))]
fn ask(c: Client, m: &[u8], len: usize) -> Result<(), Refusal>
    ensures { code_of result ≡ first_questions (state_of c m.now) (length m.now) len }
{
    if !ready::is_ready(c, m) {
        return Err(Refusal::Unready);
    }
    if len < longest(c.shape) {
        return Err(Refusal::Unready);
    }
    if !is_at_rest(c) {
        return Err(Refusal::NotAtRest);
    }
    Ok(())
}

// The form goes to the start of the buffer, whose other bytes stay.
fn write(c: Client, m: &[u8], marks: &[u8; BLOCKS], buffer: &mut [u8])
    requires { Room c m.now × (c.waiting ≤ c.shape.n) × (c.jobs ≤ 64) × Marked (state_of c m.now).waiting marks.now × (length (payload_of (state_of c m.now)) ≤ 3000000) × (length (saved_form (state_of c m.now)) ≤ length buffer.old) }
    ensures { buffer.new ≡ handed_to buffer.old (saved_form (state_of c m.now)) }
{
    let n = payload::write(c, m, marks, buffer);
    sums::spread(buffer, n);
}

// The length of the form, which has 32 bits. Only a state that no calls left, where a block waits twice, has a form that is longer than the longest.
pub fn save(c: Client, m: &[u8], buffer: &mut [u8]) -> Result<usize, Refusal>
    ensures { Meets c (state_of c m.now) save_of m.now [] buffer.old (answered_length c result) m.now buffer.new × IfOk result (λ n. n ≤ 4294967295) }
{
    ask(c, m, buffer.len())?;
    let mut marks = [0u8; BLOCKS];
    cache::mark_waiting(c, m, &mut marks);
    let length = sums::bytes_of(sizes::payload(c, m, &marks));
    if buffer.len() < length {
        return Err(Refusal::Unready);
    }
    write(c, m, &marks, buffer);
    Ok(length)
}
