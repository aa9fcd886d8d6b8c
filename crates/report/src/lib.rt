// The page on the state of the store, written into a lent buffer.
#![tactic(auto)]

ghost use Rattle.std.specs.Prelude.{◌≡◌, [], ◌∷◌, ◌+◌, ◌*◌, ◌≤◌, ◌<◌, length, get_or};
ghost use Rattle.client.specs.View.{state_of};
ghost use Rattle.ready.specs.Usable.{Usable};
ghost use Rattle.contract.specs.Answers.{answered_length};
ghost use Rattle.counting.specs.Counts.{most_partitions, entry_at, row_number, Counted};
ghost use Rattle.printing.specs.Columns.{line_length, last_line};
ghost use Rattle.lists.specs.Written.{Written};
ghost use Rattle.report.specs.Page.{partition_lines as lines_of, page as page_of, Shows};

use client::Client;
use contract::Refusal;
use counting::{ALL, Row, TABLE};
use memory::tables::{self, Table};
use printing::columns::LINE;

// A figure of the table.
fn figure(table: &[usize; TABLE], row: Row, q: usize) -> usize
    requires { q ≤ most_partitions }
    ensures { result ≡ get_or table.now (entry_at (row_number row) q) 0 }
{
    let i = counting::entry(row, q);
    table[i]
}

// A line for each partition, 0 upward. The result is the place behind them.
fn partitions(c: Client, m: &[u8], table: &[usize; TABLE], out: &mut [u8]) -> usize
    requires { Usable c m.now × Counted (state_of c m.now) table.now × (line_length * (c.shape.p + 1) ≤ length out.old) }
    ensures { Written out.old 0 (lines_of (state_of c m.now) c.shape.p) out.new result }
{
    let mut at = 0;
    for q in 0..c.shape.p {
        let counter = tables::get(c.shape, m, Table::Counter, q);
        let stored = figure(table, Row::Stored, q);
        let waiting = figure(table, Row::Waiting, q);
        let queued = figure(table, Row::Queued, q);
        at = printing::columns::partition_line(out, at, q, counter, stored, waiting, queued);
    }
    at
}

// The last line.
fn last(table: &[usize; TABLE], out: &mut [u8], at: usize) -> usize
    requires { (get_or table.now (entry_at 0 most_partitions) 0 < 65536) × (get_or table.now (entry_at 1 most_partitions) 0 < 65536) × (get_or table.now (entry_at 2 most_partitions) 0 < 65536) × (at + line_length ≤ length out.old) }
    ensures { Written out.old at (last_line (get_or table.now (entry_at 0 most_partitions) 0 ∷ get_or table.now (entry_at 1 most_partitions) 0 ∷ get_or table.now (entry_at 2 most_partitions) 0 ∷ [])) out.new result }
{
    let nowhere = figure(table, Row::Nowhere, ALL);
    let stored = figure(table, Row::Stored, ALL);
    let waiting = figure(table, Row::Waiting, ALL);
    printing::columns::last_line(out, at, nowhere, stored, waiting)
}

// All of it: each block and each job is looked at once.
fn put(c: Client, m: &[u8], out: &mut [u8]) -> usize
    requires { Usable c m.now × (line_length * (c.shape.p + 1) ≤ length out.old) }
    ensures { Written out.old 0 (page_of (state_of c m.now)) out.new result }
{
    let mut table = [0usize; TABLE];
    counting::count(c, m, &mut table);
    let at = partitions(c, m, &table, out);
    last(&table, out, at)
}

// The page goes to the start of the buffer, whose other bytes stay; so many bytes it has. A closed state has none, nor has one that is out of its ranges;
// a buffer that is too short is left as it is.
pub fn write(c: Client, m: &[u8], out: &mut [u8]) -> Result<usize, Refusal>
    ensures { Shows (state_of c m.now) (length m.now) out.old (answered_length c result).number (answered_length c result).taken out.new }
{
    if !ready::is_ready(c, m) {
        return Err(Refusal::Unready);
    }
    if out.len() < LINE * (c.shape.p + 1) {
        return Err(Refusal::Buffer);
    }
    Ok(put(c, m, out))
}
