// Load brings the state of a form back. All is asked before anything is written.
#![tactic(auto)]

mod blocks;
mod records;
mod slots;
mod tables;

ghost use Rattle.std.specs.Prelude.{◌≡◌, true, [], ◌≤◌, length};
ghost use Rattle.rules.specs.Form.Loading.{loads, loaded_form};
ghost use Rattle.rules.specs.Form.Sums.{out_of_blocks};
ghost use Rattle.rules.specs.Memory.{needed};
ghost use Rattle.rules.specs.Questions.{load as load_of};
ghost use Rattle.rules.specs.State.{closed};
ghost use Rattle.memory.specs.Fits.{shape_of, Fits};
ghost use Rattle.memory.specs.Tables.{tables_of};
ghost use Rattle.client.specs.Moves.{Stands, no_request};
ghost use Rattle.contract.specs.Answers.{code_of, answered, cleared_client};
ghost use Rattle.contract.specs.Meets.{Meets};
ghost use Rattle.forms.specs.Bytes.{Whole};
ghost use Rattle.forms.specs.At.{wait_count};
ghost use Rattle.loading.specs.Restored.{put_form};
ghost use Rattle.loading.specs.Loading.{load_number, LoadsAs, jobs_by, blocks_by, form_by};

use client::Client;
use contract::{Accepted, Refusal};
use forms::bytes::Form;
use memory::Shape;
use memory::tables::Table;

// The questions of a load, by the length of the memory lent.
#[tactic(auto, unfolding(crate::specs::Loading::load_number, rules::specs::Questions::first_no))]
fn ask(form: &[u8], len: usize) -> Result<(), Refusal>
    ensures { code_of result ≡ load_number form.now len }
{
    if !sums::is_summed(form) {
        return Err(Refusal::Sums);
    }
    if !forms::form::is_form(form) {
        return Err(Refusal::Form);
    }
    if len < contract::needed(forms::header::shape(form)) {
        return Err(Refusal::Unready);
    }
    Ok(())
}

// The parts of a form that loads are put into the tables, one after the other. It has so many jobs, and so many blocks wait.
fn fill(form: Form<'_>, h: Shape, m: &mut [u8], jobs: usize, waiting: usize)
    requires { LoadsAs form.bytes.now h × Fits (shape_of h) (length m.old) × (jobs ≡ jobs_by (out_of_blocks form.bytes.now) (shape_of h)) × (waiting ≡ wait_count (blocks_by (out_of_blocks form.bytes.now) (shape_of h))) }
    ensures { tables_of (shape_of h) m.new ≡ put_form (form_by (out_of_blocks form.entry.bytes.now) (shape_of h)) (tables_of (shape_of h) m.old) }
{
    let queue = 13 + h.p * 2;
    tables::numbers(form, h, m, Table::Counter, 13, h.p);
    tables::numbers(form, h, m, Table::Queue, queue + 2, jobs);
    let levels = blocks::blocks(form, h, m, queue + 2 + jobs * 2);
    let at = slots::partitions(form, h, m, levels);
    records::waiters(form, h, m, at, waiting);
}

// The memory that the shape of a form that loads needs is cleared, and has what the form holds.
fn restore(form: &[u8], m: &mut [u8]) -> Client
    requires { Whole form.now × (loads form.now ≡ true) × (needed (loaded_form form.now).shape ≤ length m.old) }
    ensures { Stands result m.old m.new (loaded_form form.now) × (result.request ≡ no_request) }
{
    let h = forms::header::shape(form);
    let n = contract::needed(h);
    memory::blocks::clear(m, n);
    let queue = 13 + h.p * 2;
    let payload = Form { bytes: form };
    let jobs = payload.number(queue);
    let waiting = forms::blocks::waiting(payload, h.n, queue + 2 + jobs * 2);
    fill(payload, h, m, jobs, waiting);
    Client::resting(h, jobs, waiting)
}

// It looks at no state, as an open does: a refused one leaves a closed one.
pub fn load(m: &mut [u8], form: &[u8]) -> Result<Accepted, Refusal>
    ensures { Meets cleared_client closed (load_of form.now) m.old [] [] (answered cleared_client result) m.new [] }
{
    ask(form, m.len())?;
    Ok(Accepted::new(restore(form, m), 0))
}
