// The client's state: small numbers by value, beside the tables in the lent memory.
#![tactic(auto)]

ghost use Rattle.std.specs.Prelude.{◌≡◌};
ghost use Rattle.client.specs.Kinds.{kind_number, Says};
ghost use Rattle.client.specs.Moves.{no_request, resting_client, awaiting as awaiting_of, at_level, at_found, with_request, with_jobs, with_begun, with_cursor, with_sent, with_waiting, with_out};

use memory::Shape;

// The kinds of requests and of commands, as numbers: of a state, of an answer and of a caller.
pub const READ: usize = 1;

pub const WRITE: usize = 2;

// A kind, with its number.
#[derive(Clone, Copy, PartialEq, Eq)]
pub enum Kind {
    Read = 1,
    Write = 2,
}

// Why a number says no kind: it is none of the two.
#[derive(Clone, Copy)]
pub struct NoKind;

impl From<Kind> for usize {
    ghost from_gives = { λ k n. n ≡ kind_number k };

    fn from(k: Kind) -> usize {
        k as usize
    }
}

impl TryFrom<usize> for Kind {
    type Error = NoKind;

    ghost try_from_gives = { Says };

    fn try_from(n: usize) -> Result<Kind, NoKind> {
        match n {
            READ => Ok(Kind::Read),
            WRITE => Ok(Kind::Write),
            _ => Err(NoKind),
        }
    }
}

// A request in hand, of one of these kinds; or none, of kind 0. The contents of a write are block N of the memory. While it is held, `found` is 0;
// then it is one more than the number by which a collect tells where the block was found. `awaits` is how many of the outstanding commands, which are in
// the order of sending, were sent before it was released or not after its last own read: those of its partition among them it waits for. Kind and place are
// numbers here, and no enums: a state is nineteen numbers of any value (`client_of` of codec), of which `ready` says whether they are in range.
#[derive(Clone, Copy)]
pub struct Request {
    pub kind: usize,
    pub block: usize,
    pub next: usize,
    pub evict: usize,
    pub level: usize,
    pub found: usize,
    pub awaits: usize,
}

// How many jobs are queued, blocks wait and commands are outstanding; how many jobs the front one runs for, 0 until it has begun, and how far it is.
#[derive(Clone, Copy)]
pub struct Client {
    pub shape: Shape,
    pub request: Request,
    pub jobs: usize,
    pub begun: usize,
    pub cursor: usize,
    pub sent: usize,
    pub waiting: usize,
    pub out: usize,
}

impl Request {
    // No request in hand.
    pub fn none() -> Request
        ensures { result ≡ no_request }
    {
        Request {
            kind: 0,
            block: 0,
            next: 0,
            evict: 0,
            level: 0,
            found: 0,
            awaits: 0,
        }
    }

    // Awaits so many commands.
    pub fn awaiting(mut self, n: usize) -> Self
        ensures { result ≡ awaiting_of n self }
    {
        self.awaits = n;
        self
    }

    // Goes on from this level, and awaits so many commands.
    pub fn at_level(mut self, l: usize, n: usize) -> Self
        ensures { result ≡ at_level l n self }
    {
        self.level = l;
        self.awaits = n;
        self
    }

    // Its block was found there, and it awaits so many commands.
    pub fn at_found(mut self, found: usize, n: usize) -> Self
        ensures { result ≡ at_found found n self }
    {
        self.found = found;
        self.awaits = n;
        self
    }
}

impl Client {
    // A client at rest: no request in hand, no command outstanding, no job begun.
    pub fn resting(shape: Shape, jobs: usize, waiting: usize) -> Client
        ensures { result ≡ resting_client shape jobs waiting }
    {
        Client {
            shape,
            request: Request::none(),
            jobs,
            begun: 0,
            cursor: 0,
            sent: 0,
            waiting,
            out: 0,
        }
    }

    // One method for each number: small state by value with `mut self` methods is a form that the project keeps (docs/DECISIONS.md, "Numbers of the state").
    pub fn with_jobs(mut self, n: usize) -> Self
        ensures { result ≡ with_jobs n self }
    {
        self.jobs = n;
        self
    }

    pub fn with_begun(mut self, n: usize) -> Self
        ensures { result ≡ with_begun n self }
    {
        self.begun = n;
        self
    }

    pub fn with_cursor(mut self, n: usize) -> Self
        ensures { result ≡ with_cursor n self }
    {
        self.cursor = n;
        self
    }

    pub fn with_sent(mut self, n: usize) -> Self
        ensures { result ≡ with_sent n self }
    {
        self.sent = n;
        self
    }

    pub fn with_waiting(mut self, n: usize) -> Self
        ensures { result ≡ with_waiting n self }
    {
        self.waiting = n;
        self
    }

    pub fn with_out(mut self, n: usize) -> Self
        ensures { result ≡ with_out n self }
    {
        self.out = n;
        self
    }

    pub fn with_request(mut self, x: Request) -> Self
        ensures { result ≡ with_request x self }
    {
        self.request = x;
        self
    }
}
