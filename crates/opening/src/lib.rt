// Open draws a partition for each block, 0 upward.
#![tactic(auto)]

ghost use Rattle.std.specs.Prelude.{◌≡◌, true, [], ◌≤◌, length};
ghost use Rattle.rules.specs.Shape.{within};
ghost use Rattle.rules.specs.State.{closed as closed_state};
ghost use Rattle.rules.specs.Memory.{needed};
ghost use Rattle.rules.specs.Questions.{opening};
ghost use Rattle.memory.specs.Fits.{shape_of};
ghost use Rattle.tape.specs.Tape.{words_of};
ghost use Rattle.contract.specs.Answers.{code_of, answered, cleared_client};
ghost use Rattle.contract.specs.Meets.{Meets};
ghost use Rattle.opening.specs.Opening.{open_number, Filled};

use client::Client;
use contract::{Accepted, Refusal};
use memory::Shape;
use memory::tables::{self, Table};

// The questions of an open, by the lengths lent.
#[tactic(auto, unfolding(crate::specs::Opening::open_number, rules::specs::Questions::first_no))]
fn ask(h: Shape, len: usize, words: usize) -> Result<(), Refusal>
    ensures { code_of result ≡ open_number (shape_of h) len words }
{
    if !contract::is_within(h) {
        return Err(Refusal::Bounds);
    }
    if len < contract::needed(h) {
        return Err(Refusal::Unready);
    }
    if words < h.n {
        return Err(Refusal::Words);
    }
    Ok(())
}

// All of the memory that the shape needs is cleared.
fn clear(h: Shape, m: &mut [u8])
    requires { (within (shape_of h) ≡ true) × (needed (shape_of h) ≤ length m.old) }
    ensures { Filled h 0 m.old [] m.new }
{
    let n = contract::needed(h);
    memory::blocks::clear(m, n);
}

// A partition is drawn for each block.
fn draw_partitions(h: Shape, m: &mut [u8], tape: &[u8])
    requires { (within (shape_of h) ≡ true) × (needed (shape_of h) ≤ length m.old) × (h.n ≤ length (words_of tape.now)) × Filled h 0 m.old tape.now m.old }
    ensures { Filled h h.n m.old tape.now m.new }
{
    for b in 0..h.n {
        let q = tape::draw(tape, b, h.p);
        tables::set(h, m, Table::Partition, b, q);
    }
}

pub fn open(h: Shape, m: &mut [u8], tape: &[u8]) -> Result<Accepted, Refusal>
    ensures { Meets cleared_client closed_state (opening (shape_of h)) m.old tape.now [] (answered cleared_client result) m.new [] }
{
    ask(h, m.len(), tape::words(tape))?;
    clear(h, m);
    draw_partitions(h, m, tape);
    Ok(Accepted::new(Client::resting(h, 0, 0), h.n))
}
