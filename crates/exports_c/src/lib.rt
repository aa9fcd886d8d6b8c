// The seven calls, and the page of a store, under their names for C: each is the call of that name of crate `exports`, with its clause. A crate is built as a
// library for Rattle or as a static library for C, not as both, so that these stand apart. A slice is a pointer and a length (rust/c/rinwolfedd.h).
#![tactic(auto)]

ghost use Rattle.std.specs.Prelude.{[]};
ghost use Rattle.rules.specs.State.{cmd};
ghost use Rattle.rules.specs.Questions.{request, turn, completion as completion_of, collect, save};
ghost use Rattle.exports.specs.Exported.{Opened, Loaded, Exported, numbers};
ghost use Rattle.exports.specs.Paged.{Paged};

#[unsafe(no_mangle)]
pub extern "C" fn rinwolfedd_open(
    state: &mut [u8],
    memory: &mut [u8],
    n: usize,
    p: usize,
    l: usize,
    b: usize,
    e: usize,
    w: usize,
    tape: &[u8],
) -> u64
    ensures { Opened (numbers n p l b e w) state.old memory.old tape.now result state.new memory.new }
{
    exports::rinwolfedd_open(state, memory, n, p, l, b, e, w, tape)
}

#[unsafe(no_mangle)]
pub extern "C" fn rinwolfedd_request(
    state: &mut [u8],
    memory: &mut [u8],
    kind: usize,
    block: usize,
    contents: &[u8],
    tape: &[u8],
) -> u64
    ensures { Exported (request kind block contents.now) state.old memory.old tape.now [] result state.new memory.new [] }
{
    exports::rinwolfedd_request(state, memory, kind, block, contents, tape)
}

#[unsafe(no_mangle)]
pub extern "C" fn rinwolfedd_turn(
    state: &mut [u8],
    memory: &mut [u8],
    tape: &[u8],
    buffer: &mut [u8],
) -> u64
    ensures { Exported turn state.old memory.old tape.now buffer.old result state.new memory.new buffer.new }
{
    exports::rinwolfedd_turn(state, memory, tape, buffer)
}

#[unsafe(no_mangle)]
pub extern "C" fn rinwolfedd_completion(
    state: &mut [u8],
    memory: &mut [u8],
    kind: usize,
    partition: usize,
    level: usize,
    slot: usize,
    bytes: &[u8],
) -> u64
    ensures { Exported (completion_of (cmd kind partition level slot) bytes.now) state.old memory.old [] [] result state.new memory.new [] }
{
    exports::rinwolfedd_completion(state, memory, kind, partition, level, slot, bytes)
}

#[unsafe(no_mangle)]
pub extern "C" fn rinwolfedd_collect(state: &mut [u8], memory: &mut [u8], buffer: &mut [u8]) -> u64
    ensures { Exported collect state.old memory.old [] buffer.old result state.new memory.new buffer.new }
{
    exports::rinwolfedd_collect(state, memory, buffer)
}

#[unsafe(no_mangle)]
pub extern "C" fn rinwolfedd_save(state: &[u8], memory: &[u8], buffer: &mut [u8]) -> u64
    ensures { Exported save state.now memory.now [] buffer.old result state.now memory.now buffer.new }
{
    exports::rinwolfedd_save(state, memory, buffer)
}

#[unsafe(no_mangle)]
pub extern "C" fn rinwolfedd_load(state: &mut [u8], memory: &mut [u8], form: &[u8]) -> u64
    ensures { Loaded form.now state.old memory.old result state.new memory.new }
{
    exports::rinwolfedd_load(state, memory, form)
}

#[unsafe(no_mangle)]
pub extern "C" fn rinwolfedd_page(state: &[u8], memory: &[u8], buffer: &mut [u8]) -> u64
    ensures { Paged state.now memory.now buffer.old result buffer.new }
{
    exports::rinwolfedd_page(state, memory, buffer)
}
