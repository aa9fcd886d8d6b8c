// Request (read or write, block, contents) takes two draws below P: the block's next partition, then an eviction partition.
#![tactic(auto)]

ghost use Rattle.std.specs.Prelude.{◌≡◌, true, ◌||◌, [], ◌≤◌, ◌<◌, length, ltb};
ghost use Rattle.lists.specs.Search.{member};
ghost use Rattle.rules.specs.Shape.{within};
ghost use Rattle.rules.specs.Ranges.{bytes_of};
ghost use Rattle.rules.specs.Request.{release};
ghost use Rattle.rules.specs.Questions.{request as request_of};
ghost use Rattle.memory.specs.Fits.{shape_of, Fits};
ghost use Rattle.client.specs.Kinds.{kind_number};
ghost use Rattle.client.specs.View.{state_of};
ghost use Rattle.client.specs.Moves.{Room, Stands};
ghost use Rattle.tape.specs.Tape.{words_of};
ghost use Rattle.contract.specs.Answers.{code_of, answered};
ghost use Rattle.contract.specs.Meets.{Meets};
ghost use Rattle.requesting.specs.Requesting.{request_number, Kept, Taken};

use client::{Client, Kind, Request};
use contract::{Accepted, Refusal};
use memory::Shape;

// How long the contents are: of B bytes for a write, 0 for a read.
#[tactic(auto, unfolding(rules::specs::Ranges::bytes_of))]
fn size(h: Shape, kind: Kind) -> usize
    ensures { result ≡ bytes_of (shape_of h) (kind_number kind) }
{
    match kind {
        Kind::Read => 0,
        Kind::Write => h.b,
    }
}

// Fewer than E blocks wait, or this one is among them.
fn has_room(c: Client, m: &[u8], block: usize) -> bool
    requires { Room c m.now × (c.waiting ≤ c.shape.n) }
    ensures { result ≡ (ltb c.waiting c.shape.e || member block (state_of c m.now).waiting) }
{
    if c.waiting < c.shape.e {
        return true;
    }
    cache::is_waiting(c, m, block)
}

// The questions of a request, by the lengths lent.
#[tactic(auto, using(client::specs::Kinds::named_kind), unfolding(crate::specs::Requesting::request_number, rules::specs::Questions::first_no))]
fn ask(
    c: Client,
    m: &[u8],
    kind: Kind,
    block: usize,
    len: usize,
    words: usize,
) -> Result<(), Refusal>
    ensures { code_of result ≡ request_number c m.now (kind_number kind) block len words }
{
    if !ready::is_ready(c, m) {
        return Err(Refusal::Unready);
    }
    if c.request.kind != 0 {
        return Err(Refusal::InHand);
    }
    if c.shape.n <= block {
        return Err(Refusal::Block);
    }
    if len != size(c.shape, kind) {
        return Err(Refusal::Contents);
    }
    if 62 < c.jobs {
        return Err(Refusal::QueueFull);
    }
    if !has_room(c, m, block) {
        return Err(Refusal::CacheFull);
    }
    if words < 2 {
        return Err(Refusal::Words);
    }
    Ok(())
}

// A write's contents are kept as block N.
fn keep(h: Shape, m: &mut [u8], kind: Kind, contents: &[u8])
    requires { Fits (shape_of h) (length m.old) × (length contents.now ≡ bytes_of (shape_of h) (kind_number kind)) }
    ensures { Kept h (kind_number kind) contents.now m.old m.new }
{
    match kind {
        Kind::Read => {}
        Kind::Write => memory::blocks::store(h, m, h.n, contents),
    }
}

// The request is in hand from now on, and is released at once if nothing holds it.
fn take(c: Client, m: &mut [u8], kind: Kind, block: usize, contents: &[u8], tape: &[u8]) -> Client
    requires { Room c m.old × (c.jobs ≤ 64) × (c.waiting ≤ c.shape.n) × (c.out ≤ 32) × (block < c.shape.n) × (within (shape_of c.shape) ≡ true) × (length contents.now ≡ bytes_of (shape_of c.shape) (kind_number kind)) × (2 ≤ length (words_of tape.now)) × (c.begun ≤ 64) }
    ensures { Stands result m.old m.new (release (Taken c m.old (kind_number kind) block contents.now tape.now)) }
{
    let p = c.shape.p;
    let next = tape::draw(tape, 0, p);
    let evict = tape::draw(tape, 1, p);
    keep(c.shape, m, kind, contents);
    let d = c.with_request(Request {
        kind: usize::from(kind),
        block,
        next,
        evict,
        level: 0,
        found: 0,
        awaits: 0,
    });
    releasing::release(d, m)
}

// The kind is a number, which the caller names (C interface): one of no kind is refused.
pub fn request(
    c: Client,
    m: &mut [u8],
    kind: usize,
    block: usize,
    contents: &[u8],
    tape: &[u8],
) -> Result<Accepted, Refusal>
    ensures { Meets c (state_of c m.old) (request_of kind block contents.now) m.old tape.now [] (answered c result) m.new [] }
{
    let Ok(kind) = Kind::try_from(kind) else {
        return Err(Refusal::Unready);
    };
    ask(c, m, kind, block, contents.len(), tape::words(tape))?;
    let d = take(c, m, kind, block, contents, tape);
    Ok(Accepted::new(d, 2))
}
