// What a call answers: an accepted one its words, command and next state, a refused one its reason. And the questions about a shape.
#![tactic(auto)]

ghost use Rattle.std.specs.Prelude.{◌≡◌, ◌+◌, ◌-◌, ◌*◌, true, [], ◌∷◌};
ghost use Rattle.lists.specs.Search.{member};
ghost use Rattle.rules.specs.Shape.{within};
ghost use Rattle.rules.specs.Memory.{needed as needed_of};
ghost use Rattle.memory.specs.Fits.{shape_of};
ghost use Rattle.contract.specs.Answers.{number_of, accepted_as, accepted_with, collected_with, cleared_client};

use client::Client;
use memory::Shape;

// Why a call is refused: each reason with its number in docs/RULES.md, "The five calls" and "Saving the client".
#[derive(Clone, Copy, PartialEq, Eq)]
pub enum Refusal {
    Bounds = 1,
    Unready = 2,
    Words = 3,
    InHand = 4,
    Block = 5,
    Contents = 6,
    QueueFull = 7,
    CacheFull = 8,
    WindowFull = 9,
    NothingToSend = 10,
    NotOutstanding = 11,
    Bytes = 12,
    NoRequest = 13,
    Unfinished = 14,
    Buffer = 15,
    NotAtRest = 16,
    Sums = 17,
    Form = 18,
}

impl From<Refusal> for usize {
    ghost from_gives = { λ e n. n ≡ number_of e };

    fn from(e: Refusal) -> usize {
        e as usize
    }
}

impl From<Refusal> for u64 {
    ghost from_gives = { λ e n. n ≡ number_of e };

    fn from(e: Refusal) -> u64 {
        e as u64
    }
}

// What an accepted call answers: the words taken, the command sent (zeros for none), where a collected block was found (0, which is nowhere, but for a
// collect), and the next state. A refused one takes no word, sends nothing and leaves the state: its answer is the `Refusal` alone.
// Kind to slot are numbers, zeros for none: `packed` of codec adds them up, for C.
#[derive(Clone, Copy)]
pub struct Accepted {
    pub taken: usize,
    pub kind: usize,
    pub partition: usize,
    pub level: usize,
    pub slot: usize,
    pub found: usize,
    pub client: Client,
}

impl Accepted {
    // What an accepted call answers that sends no command.
    pub fn new(client: Client, taken: usize) -> Accepted
        ensures { accepted_as result ≡ accepted_with client taken 0 0 0 0 }
    {
        Accepted::sent(client, taken, 0, 0, 0, 0)
    }

    // What one answers that sends this command.
    pub fn sent(
        client: Client,
        taken: usize,
        kind: usize,
        partition: usize,
        level: usize,
        slot: usize,
    ) -> Accepted
        ensures { accepted_as result ≡ accepted_with client taken kind partition level slot }
    {
        Accepted {
            taken,
            kind,
            partition,
            level,
            slot,
            found: 0,
            client,
        }
    }

    // What an accepted collect answers: where the block was found.
    pub fn collected(client: Client, found: usize) -> Accepted
        ensures { accepted_as result ≡ collected_with client found }
    {
        let mut r = Accepted::new(client, 0);
        r.found = found;
        r
    }
}

// The closed state, all zeros.
pub fn closed() -> Client
    ensures { result ≡ cleared_client }
{
    let shape = Shape {
        n: 0,
        p: 0,
        l: 0,
        b: 0,
        e: 0,
        w: 0,
    };
    Client::resting(shape, 0, 0)
}

// Whether P is 1, 2, 4, .. 64: from 1 to 64, and it shares no bit with P - 1, as powers of two alone do.
fn is_power(p: usize) -> bool
    ensures { result ≡ member p (1 ∷ 2 ∷ 4 ∷ 8 ∷ 16 ∷ 32 ∷ 64 ∷ []) }
{
    if !((1 <= p) & (p <= 64)) {
        return false;
    }
    p & (p - 1) == 0
}

// Whether the shape is within bounds.
pub fn is_within(h: Shape) -> bool
    ensures { result ≡ within (shape_of h) }
{
    let small = (1 <= h.n)
        & (h.n <= 4096)
        & is_power(h.p)
        & (1 <= h.l)
        & (h.l <= 8)
        & (1 <= h.b)
        & (h.b <= 512)
        & (1 <= h.e)
        & (h.e <= h.n)
        & (1 <= h.w)
        & (h.w <= 32);
    if !small {
        return false;
    }
    h.n <= h.p * bits::pow2(h.l - 1)
}

// The bytes of memory that a shape within bounds needs: up to where a block N + 1 would start.
pub fn needed(h: Shape) -> usize
    requires { within (shape_of h) ≡ true }
    ensures { result ≡ needed_of (shape_of h) }
{
    memory::blocks::start(h, h.n + 1)
}
