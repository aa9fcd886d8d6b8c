// The exported calls do what the claims take them to do, `Called` of crate `claims`. Each function here calls one of them and ensures it: an
// exported function that ensured less would leave its function here without a proof.
#![tactic(auto)]

ghost use Rattle.std.specs.Prelude.{[]};
ghost use Rattle.rules.specs.State.{cmd};
ghost use Rattle.rules.specs.Questions.{opening, request as request_of, turn as turn_of, completion as completion_of, collect as collect_of, save as save_of, load as load_of};
ghost use Rattle.exports.specs.Exported.{numbers};
ghost use Rattle.claims.specs.Accepted.{Accepted};
ghost use Rattle.claims.specs.Claim.{Called, made};

pub fn open(
    state: &mut [u8],
    memory: &mut [u8],
    n: usize,
    p: usize,
    l: usize,
    b: usize,
    e: usize,
    w: usize,
    tape: &[u8],
) -> u64
    ensures { Called (made (opening (numbers n p l b e w)) state.old memory.old tape.now [] result state.new memory.new []) }
{
    exports::rinwolfedd_open(state, memory, n, p, l, b, e, w, tape)
}

pub fn request(
    state: &mut [u8],
    memory: &mut [u8],
    kind: usize,
    block: usize,
    contents: &[u8],
    tape: &[u8],
) -> u64
    ensures { Called (made (request_of kind block contents.now) state.old memory.old tape.now [] result state.new memory.new []) }
{
    exports::rinwolfedd_request(state, memory, kind, block, contents, tape)
}

pub fn turn(state: &mut [u8], memory: &mut [u8], tape: &[u8], buffer: &mut [u8]) -> u64
    ensures { Called (made turn_of state.old memory.old tape.now buffer.old result state.new memory.new buffer.new) }
{
    exports::rinwolfedd_turn(state, memory, tape, buffer)
}

pub fn completion(
    state: &mut [u8],
    memory: &mut [u8],
    kind: usize,
    partition: usize,
    level: usize,
    slot: usize,
    bytes: &[u8],
) -> u64
    ensures { Called (made (completion_of (cmd kind partition level slot) bytes.now) state.old memory.old [] [] result state.new memory.new []) }
{
    exports::rinwolfedd_completion(state, memory, kind, partition, level, slot, bytes)
}

pub fn collect(state: &mut [u8], memory: &mut [u8], buffer: &mut [u8]) -> u64
    ensures { Called (made collect_of state.old memory.old [] buffer.old result state.new memory.new buffer.new) }
{
    exports::rinwolfedd_collect(state, memory, buffer)
}

// State and memory are only read.
pub fn save(state: &[u8], memory: &[u8], buffer: &mut [u8]) -> u64
    ensures { Called (made save_of state.now memory.now [] buffer.old result state.now memory.now buffer.new) }
{
    exports::rinwolfedd_save(state, memory, buffer)
}

pub fn load(state: &mut [u8], memory: &mut [u8], form: &[u8]) -> u64
    ensures { Called (made (load_of form.now) state.old memory.old [] [] result state.new memory.new []) }
{
    exports::rinwolfedd_load(state, memory, form)
}

// Each of the seven calls is accepted in this run: there is a run of exported calls that does something, and goes on in another state and memory, into which
// it loads what it saved.
pub fn accepted_run()
    ensures { Accepted }
{
    let mut state = [0u8; 76];
    let mut memory = [0u8; 416];
    let tape = [0u8; 4];
    let contents = [7u8; 1];
    let mut buffer = [0u8; 1];
    let mut form = [0u8; 512];
    let mut next_state = [0u8; 76];
    let mut next_memory = [0u8; 416];
    open(&mut state, &mut memory, 1, 1, 1, 1, 1, 1, &tape);
    save(&state, &memory, &mut form);
    load(&mut next_state, &mut next_memory, &form);
    request(&mut next_state, &mut next_memory, 2, 0, &contents, &tape);
    collect(&mut next_state, &mut next_memory, &mut buffer);
    turn(&mut next_state, &mut next_memory, &tape, &mut buffer);
    completion(
        &mut next_state,
        &mut next_memory,
        2,
        0,
        0,
        0,
        &contents[0..0],
    );
}
