// The seven calls, and the page of a store, for a host program: numbers and byte slices. The state is 76 bytes, the tape pairs of bytes, low byte
// first; the answer is one number (see codec::pack). Every value of every number is answered; nothing is required.
#![tactic(auto)]

ghost use Rattle.std.specs.Prelude.{true, ◌≡◌, List, [], ℕ, ◌≤◌, length, take, replicate, IfOk, if◌then◌else◌};
ghost use Rattle.rules.specs.Shape.{within};
ghost use Rattle.rules.specs.State.{cmd};
ghost use Rattle.rules.specs.Questions.{ready, request, turn, completion as completion_of, collect, save, load};
ghost use Rattle.memory.specs.Fits.{shape_of};
ghost use Rattle.memory.specs.Words.{word_at};
ghost use Rattle.client.specs.View.{state_of};
ghost use Rattle.codec.specs.Codec.{with_turn, with_completion, with_rest, client_of, Small, packed};
ghost use Rattle.contract.specs.Answers.{accepted_as, answered, answered_length, cleared_client};
ghost use Rattle.exports.specs.Exported.{looked_at, Opened, Loaded, Exported, HandedBack, HandedBackOpened, numbers, unlent};
ghost use Rattle.exports.specs.Paged.{Paged};
ghost use Rattle.exports.specs.Settled.{ReleasedIn, HandedBackReleased};

use client::Client;
use codec::STATE;
use contract::{Accepted, Refusal};
use memory::Shape;

// How many bytes of a tape of this length a call looks at: those of the first 2^32 - 1 words, as the answer counts no more.
fn looked_at(len: usize) -> usize
    ensures { (result ≤ len) × ((t : List ℕ) → length t ≡ len → take result t ≡ looked_at t) }
{
    if len < 8589934590 {
        return len;
    }
    8589934590
}

// The next state is handed back where the call was accepted. No call but an open changes the shape.
fn hand_back(state: &mut [u8; STATE], r: Result<Accepted, Refusal>) -> u64
    requires { IfOk r (λ a. Small (accepted_as a)) }
    ensures { (c : Client) → HandedBack (with_rest (answered c r).client) (answered c r) result state.old state.new }
{
    if let Ok(a) = r {
        codec::encode_rest(state, a.client);
    }
    codec::pack(r)
}

// A held request that nothing holds any longer is released, in the bytes of the state: then its numbers need not be kept while the call does the rest.
// Whoever calls it asks first whether one is held: mostly none is, and the compiler puts that question in place, but not this function.
fn release(state: &mut [u8; STATE], memory: &[u8])
    requires { ready (state_of (client_of (word_at state.old)) memory.now) (length memory.now) ≡ true }
    ensures { ReleasedIn (word_at state.old) memory.now (word_at state.new) }
{
    let c = codec::decode(state);
    let d = releasing::release(c, memory);
    codec::set_found(state, d.request.found, d.request.awaits);
}

// A turn changes what the command that it sends says. (As for a completion, but with other numbers to store: a function for both would take that as a closure
// with a clause of its own, and be no shorter.)
fn hand_back_turn(state: &mut [u8; STATE], memory: &[u8], r: Result<Accepted, Refusal>) -> u64
    requires { IfOk r (λ a. Small (accepted_as a) × (ready (state_of (client_of (with_turn a.kind a.client (word_at state.old))) memory.now) (length memory.now) ≡ true)) }
    ensures { (c : Client) → HandedBackReleased (with_turn (answered c r).kind (answered c r).client) (answered c r) memory.now result state.old state.new }
{
    match r {
        Ok(a) => {
            codec::encode_turn(state, a.client, a.kind);
            if !codec::is_held(state) {
                return codec::pack(r);
            }
            release(state, memory);
            codec::pack(r)
        }
        Err(_) => codec::pack(r),
    }
}

// A completion changes what the command that is completed says.
fn hand_back_completion(
    state: &mut [u8; STATE],
    memory: &[u8],
    r: Result<Accepted, Refusal>,
    kind: usize,
) -> u64
    requires { IfOk r (λ a. Small (accepted_as a) × (ready (state_of (client_of (with_completion kind a.client (word_at state.old))) memory.now) (length memory.now) ≡ true)) }
    ensures { (c : Client) → HandedBackReleased (with_completion kind (answered c r).client) (answered c r) memory.now result state.old state.new }
{
    match r {
        Ok(a) => {
            codec::encode_completion(state, a.client, kind);
            if !codec::is_held(state) {
                return codec::pack(r);
            }
            release(state, memory);
            codec::pack(r)
        }
        Err(_) => codec::pack(r),
    }
}

// An open of this shape with a state of another length.
fn refuse_open(state: &mut [u8], h: Shape) -> u64
    ensures { (result ≡ (if within (shape_of h) then 2 else 1)) × (state.new ≡ replicate (length state.old) 0) }
{
    memory::blocks::zeros(state);
    if contract::is_within(h) {
        u64::from(Refusal::Unready)
    } else {
        u64::from(Refusal::Bounds)
    }
}

// A load of this form with a state of another length.
fn refuse_load(state: &mut [u8], form: &[u8]) -> u64
    ensures { (result ≡ unlent (load form.now)) × (state.new ≡ replicate (length state.old) 0) }
{
    memory::blocks::zeros(state);
    if !sums::is_summed(form) {
        return u64::from(Refusal::Sums);
    }
    if forms::form::is_form(form) {
        u64::from(Refusal::Unready)
    } else {
        u64::from(Refusal::Form)
    }
}

// A refused open or load hands back zeros.
fn hand_back_opened(state: &mut [u8; STATE], r: Result<Accepted, Refusal>) -> u64
    requires { IfOk r (λ a. Small (accepted_as a)) }
    ensures { HandedBackOpened (answered cleared_client r) result state.old state.new }
{
    match r {
        Ok(a) => codec::encode(state, a.client),
        Err(_) => memory::blocks::zeros(state),
    }
    codec::pack(r)
}

// The answer of a save and of a page has their length where another call's has the words taken.
fn tell(r: Result<usize, Refusal>, c: Client) -> u64
    requires { Small (answered_length c r) }
    ensures { result ≡ packed (answered_length c r) }
{
    match r {
        Ok(n) => codec::pack(Ok(Accepted::new(c, n))),
        Err(e) => codec::pack(Err(e)),
    }
}

pub fn rinwolfedd_open(
    state: &mut [u8],
    memory: &mut [u8],
    n: usize,
    p: usize,
    l: usize,
    b: usize,
    e: usize,
    w: usize,
    tape: &[u8],
) -> u64
    ensures { Opened (numbers n p l b e w) state.old memory.old tape.now result state.new memory.new }
{
    let Some(state) = state.as_mut_array::<STATE>() else {
        return refuse_open(state, Shape { n, p, l, b, e, w });
    };
    let r = opening::open(
        Shape { n, p, l, b, e, w },
        memory,
        &tape[..looked_at(tape.len())],
    );
    hand_back_opened(state, r)
}

pub fn rinwolfedd_request(
    state: &mut [u8],
    memory: &mut [u8],
    kind: usize,
    block: usize,
    contents: &[u8],
    tape: &[u8],
) -> u64
    ensures { Exported (request kind block contents.now) state.old memory.old tape.now [] result state.new memory.new [] }
{
    let Some(state) = state.as_mut_array::<STATE>() else {
        return u64::from(Refusal::Unready);
    };
    let c = codec::decode(state);
    let r = requesting::request(
        c,
        memory,
        kind,
        block,
        contents,
        &tape[..looked_at(tape.len())],
    );
    hand_back(state, r)
}

pub fn rinwolfedd_turn(state: &mut [u8], memory: &mut [u8], tape: &[u8], buffer: &mut [u8]) -> u64
    ensures { Exported turn state.old memory.old tape.now buffer.old result state.new memory.new buffer.new }
{
    let Some(state) = state.as_mut_array::<STATE>() else {
        return u64::from(Refusal::Unready);
    };
    let c = codec::decode(state);
    let r = turning::perform(c, memory, &tape[..looked_at(tape.len())], buffer);
    hand_back_turn(state, memory, r)
}

pub fn rinwolfedd_completion(
    state: &mut [u8],
    memory: &mut [u8],
    kind: usize,
    partition: usize,
    level: usize,
    slot: usize,
    bytes: &[u8],
) -> u64
    ensures { Exported (completion_of (cmd kind partition level slot) bytes.now) state.old memory.old [] [] result state.new memory.new [] }
{
    let Some(state) = state.as_mut_array::<STATE>() else {
        return u64::from(Refusal::Unready);
    };
    let c = codec::decode(state);
    let r = completing::perform(c, memory, kind, partition, level, slot, bytes);
    hand_back_completion(state, memory, r, kind)
}

pub fn rinwolfedd_collect(state: &mut [u8], memory: &mut [u8], buffer: &mut [u8]) -> u64
    ensures { Exported collect state.old memory.old [] buffer.old result state.new memory.new buffer.new }
{
    let Some(state) = state.as_mut_array::<STATE>() else {
        return u64::from(Refusal::Unready);
    };
    let c = codec::decode(state);
    let r = collecting::collect(c, memory, buffer);
    hand_back(state, r)
}

// State and memory are only read: a state at rest stays as it is.
pub fn rinwolfedd_save(state: &[u8], memory: &[u8], buffer: &mut [u8]) -> u64
    ensures { Exported save state.now memory.now [] buffer.old result state.now memory.now buffer.new }
{
    let Some(state) = state.as_array::<STATE>() else {
        return u64::from(Refusal::Unready);
    };
    let c = codec::decode(state);
    tell(saving::save(c, memory, buffer), c)
}

// It looks at no state, as an open does: a client is what the form says, or closed.
pub fn rinwolfedd_load(state: &mut [u8], memory: &mut [u8], form: &[u8]) -> u64
    ensures { Loaded form.now state.old memory.old result state.new memory.new }
{
    let Some(state) = state.as_mut_array::<STATE>() else {
        return refuse_load(state, form);
    };
    let loaded = loading::load(memory, form);
    hand_back_opened(state, loaded)
}

// State and memory are only read, so a page may be asked for between any two calls.
pub fn rinwolfedd_page(state: &[u8], memory: &[u8], buffer: &mut [u8]) -> u64
    ensures { Paged state.now memory.now buffer.old result buffer.new }
{
    let Some(state) = state.as_array::<STATE>() else {
        return u64::from(Refusal::Unready);
    };
    let c = codec::decode(state);
    tell(report::write(c, memory, buffer), c)
}
