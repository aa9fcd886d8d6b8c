// Collect hands out the contents before the request, for reads and writes.
#![tactic(auto)]

ghost use Rattle.std.specs.Prelude.{◌≡◌, not, ◌&&◌, List, [], ◌<◌, ◌≤◌, length, take};
ghost use Rattle.lists.specs.Search.{member};
ghost use Rattle.rules.specs.State.{Command};
ghost use Rattle.rules.specs.Blocks.{is_nowhere, contents};
ghost use Rattle.rules.specs.Collect.{finished, finish as finish_of};
ghost use Rattle.rules.specs.Questions.{collect as collect_of, number};
ghost use Rattle.client.specs.Readings.{hand_of};
ghost use Rattle.client.specs.View.{state_of};
ghost use Rattle.client.specs.Moves.{no_request, Room, Stands};
ghost use Rattle.contract.specs.Answers.{code_of, answered};
ghost use Rattle.contract.specs.Meets.{Meets};
ghost use Rattle.collecting.specs.Collecting.{call_with, Hand, new_bytes, empty_slot, Settled, Queued};

use client::{Client, Request, WRITE};
use contract::{Accepted, Refusal};
use memory::tables::{self, Table};

// How many of the outstanding commands the request awaits. Its number may be above all of them in a state that no calls left.
fn awaited(c: Client) -> usize
    ensures { (result ≤ c.out) × ((xs : List Command) → length xs ≡ c.out → take result xs ≡ take c.request.awaits xs) }
{
    if c.out < c.request.awaits {
        return c.out;
    }
    c.request.awaits
}

// A request is finished when it isn't held, all its reads are sent, and they and what was outstanding at its release have completed.
fn is_finished(c: Client, m: &[u8]) -> bool
    requires { Hand c m.now × (c.begun ≤ 64) }
    ensures { result ≡ finished (state_of c m.now) (hand_of c m.now) }
{
    if c.request.found == 0 {
        return false;
    }
    let p = tables::get(c.shape, m, Table::Partition, c.request.block);
    let sources = reading::sources(c, m, p);
    if reading::next_level(c, m, p, sources).is_some() {
        return false;
    }
    !commands::is_busy(c, m, p, awaited(c))
}

// The questions of a collect, by the lengths lent.
#[tactic(auto, unfolding(rules::specs::Questions::number, rules::specs::Questions::questions, rules::specs::Questions::first_no))]
fn ask(c: Client, m: &[u8], len: usize) -> Result<(), Refusal>
    ensures { code_of result ≡ number (state_of c m.now) (call_with m.now len) }
{
    if !ready::is_ready(c, m) {
        return Err(Refusal::Unready);
    }
    if c.request.kind == 0 {
        return Err(Refusal::NoRequest);
    }
    if !is_finished(c, m) {
        return Err(Refusal::Unfinished);
    }
    if len != c.shape.b {
        return Err(Refusal::Buffer);
    }
    Ok(())
}

// The block is nowhere, so that it reads as zeros.
fn is_blank(c: Client, m: &[u8]) -> bool
    requires { Hand c m.now }
    ensures { result ≡ (is_nowhere ((state_of c m.now).place c.request.block) && not (member c.request.block (state_of c m.now).waiting)) }
{
    let b = c.request.block;
    if 2 <= tables::get(c.shape, m, Table::Place, b) {
        return false;
    }
    !cache::is_waiting(c, m, b)
}

// The contents before the request go into the buffer.
fn hand_out(c: Client, m: &[u8], buffer: &mut [u8])
    requires { Hand c m.now × (length buffer.old ≡ c.shape.b) }
    ensures { buffer.new ≡ contents (state_of c m.now) c.request.block }
{
    if is_blank(c, m) {
        memory::blocks::zeros(buffer);
        return;
    }
    memory::blocks::load(c.shape, m, c.request.block, buffer);
}

// The block has new contents after a write, and those handed out after a read.
fn set_contents(c: Client, m: &mut [u8], buffer: &[u8])
    requires { Hand c m.old × (length buffer.now ≡ c.shape.b) }
    ensures { Stands c m.old m.new (new_bytes (hand_of c m.old) buffer.now (state_of c m.old)) }
{
    let b = c.request.block;
    if c.request.kind == WRITE {
        memory::blocks::move_block(c.shape, m, c.shape.n, b);
        return;
    }
    memory::blocks::store(c.shape, m, b, buffer);
}

// The slot that the block leaves holds nothing more; p is its partition.
fn empty_slot(c: Client, m: &mut [u8], p: usize)
    requires { Hand c m.old × (p < c.shape.p) }
    ensures { Stands c m.old m.new (empty_slot c.request.block p (state_of c m.old)) }
{
    let x = tables::get(c.shape, m, Table::Place, c.request.block);
    if x < 2 {
        return;
    }
    let cell = levels::cell_of(c.shape, p, x);
    tables::set(c.shape, m, Table::Holds, cell, 0);
}

// The block moves to the young end of the cache under its next partition.
fn settle(c: Client, m: &mut [u8]) -> Client
    requires { Hand c m.old }
    ensures { Settled c m.old m.new result }
{
    let b = c.request.block;
    tables::set(c.shape, m, Table::Place, b, 0);
    tables::set(c.shape, m, Table::Partition, b, c.request.next);
    cache::renew(c, m, b)
}

// Queues jobs for p and then for the eviction partition; the request is in hand no more.
fn queue(c: Client, m: &mut [u8], p: usize, evict: usize) -> Client
    requires { Room c m.old × (c.jobs ≤ 62) × (p < c.shape.p) × (evict < c.shape.p) }
    ensures { Queued c m.old m.new p evict result }
{
    let d = jobs::push(c, m, p);
    let e = jobs::push(d, m, evict);
    e.with_request(Request::none())
}

// Collects the finished request; the buffer has what was handed out.
fn finish(c: Client, m: &mut [u8], buffer: &[u8]) -> Client
    requires { Hand c m.old × (length buffer.now ≡ c.shape.b) × (buffer.now ≡ contents (state_of c m.old) c.request.block) }
    ensures { (result.request ≡ no_request) × Stands result m.old m.new (finish_of (hand_of c m.old) (state_of c m.old)) }
{
    let p = tables::get(c.shape, m, Table::Partition, c.request.block);
    let evict = c.request.evict;
    set_contents(c, m, buffer);
    empty_slot(c, m, p);
    let d = settle(c, m);
    queue(d, m, p, evict)
}

pub fn collect(c: Client, m: &mut [u8], buffer: &mut [u8]) -> Result<Accepted, Refusal>
    ensures { Meets c (state_of c m.old) collect_of m.old [] buffer.old (answered c result) m.new buffer.new }
{
    ask(c, m, buffer.len())?;
    hand_out(c, m, buffer);
    let d = finish(c, m, buffer);
    Ok(Accepted::collected(d, c.request.found - 1))
}
