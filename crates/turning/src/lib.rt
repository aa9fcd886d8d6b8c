// Turn sends one command.
#![tactic(auto)]

ghost use Rattle.rules.specs.Questions.{turn as turn_of};
ghost use Rattle.client.specs.View.{state_of};
ghost use Rattle.contract.specs.Answers.{answered};
ghost use Rattle.contract.specs.Meets.{Meets};
ghost use Rattle.releasing.specs.Performs.{Performs};

use client::Client;
use contract::{Accepted, Refusal};
use deciding::Step;

// What a turn does before a request is released.
pub fn perform(c: Client, m: &mut [u8], tape: &[u8], buffer: &mut [u8]) -> Result<Accepted, Refusal>
    ensures { Performs c (state_of c m.old) turn_of m.old tape.now buffer.old (answered c result) m.new buffer.new }
{
    if !ready::shape_fits(c.shape, m.len()) {
        return Err(Refusal::Unready);
    }
    if !ready::numbers_fit(c, m) {
        return Err(Refusal::Unready);
    }
    if c.shape.w <= c.out {
        return Err(Refusal::WindowFull);
    }
    let step = deciding::decide(c, m);
    match step {
        Step::Idle => Err(Refusal::NothingToSend),
        Step::NoDummy => Err(Refusal::Unready),
        Step::ReadForRequest(q, l, i) => Ok(sending::read_for_request(c, m, q, l, i)),
        Step::ReadForJob(q, l, i) => Ok(sending::read_for_job(c, m, q, l, i)),
        Step::Rebuild(q) => sending::rebuild(c, m, tape, buffer, q),
        Step::WriteNext(q, t, i) => sending::write_next(c, m, buffer, q, t, i),
    }
}

pub fn turn(c: Client, m: &mut [u8], tape: &[u8], buffer: &mut [u8]) -> Result<Accepted, Refusal>
    ensures { Meets c (state_of c m.old) turn_of m.old tape.now buffer.old (answered c result) m.new buffer.new }
{
    let r = perform(c, m, tape, buffer);
    releasing::settle(r, m)
}
