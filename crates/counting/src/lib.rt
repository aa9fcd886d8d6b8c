// Blocks by their place and jobs by their partition, each counted in one pass: the figures of a page.
#![tactic(auto)]

ghost use Rattle.std.specs.Prelude.{◌≡◌, [], ◌+◌, ◌≤◌, ◌<◌, length, get_or, replicate};
ghost use Rattle.rules.specs.Blocks.{is_nowhere};
ghost use Rattle.lists.specs.Search.{member};
ghost use Rattle.client.specs.View.{state_of};
ghost use Rattle.client.specs.Moves.{Room, QueueRoom, CacheRoom};
ghost use Rattle.cache.specs.Marks.{Marked};
ghost use Rattle.counting.specs.Counts.{table_room, most_partitions, entry_at, added, row_number, row_of, RowCounts, Counted, CountedTo};

use cache::BLOCKS;
use client::Client;
use memory::tables::{self, Table};

// The rows of the table: blocks nowhere, stored and waiting, and jobs queued.
#[derive(Clone, Copy)]
pub enum Row {
    Nowhere,
    Stored,
    Waiting,
    Queued,
}

// The entry of a row that counts all, behind those of the partitions.
pub const ALL: usize = 64;

// Four rows.
pub const TABLE: usize = 260;

// Where the entry of a row lies.
pub fn entry(row: Row, q: usize) -> usize
    requires { q ≤ most_partitions }
    ensures { (result ≡ entry_at (row_number row) q) × (result < table_room) }
{
    row as usize * 65 + q // the number of the case
}

// One more in a row, of partition q.
fn add(table: &mut [usize; TABLE], row: Row, q: usize)
    requires { (q < most_partitions) × (get_or table.old (entry_at (row_number row) q) 0 < 65536) × (get_or table.old (entry_at (row_number row) most_partitions) 0 < 65536) }
    ensures { table.new ≡ added (row_number row) q table.old }
{
    let i = entry(row, q);
    table[i] = table[i] + 1;
    let all = entry(row, ALL);
    table[all] = table[all] + 1;
}

// The row of block b.
fn block_row(c: Client, m: &[u8], marks: &[u8; BLOCKS], b: usize) -> Row
    requires { Room c m.now × (b < c.shape.n) × Marked (state_of c m.now).waiting marks.now }
    ensures { row_number result ≡ row_of (is_nowhere ((state_of c m.now).place b)) (member b (state_of c m.now).waiting) }
{
    if 2 <= tables::get(c.shape, m, Table::Place, b) {
        return Row::Stored;
    }
    if marks[b] == 1 {
        return Row::Waiting;
    }
    Row::Nowhere
}

// All blocks.
fn count_blocks(c: Client, m: &[u8], marks: &[u8; BLOCKS], table: &mut [usize; TABLE])
    requires { Room c m.now × Marked (state_of c m.now).waiting marks.now × (table.old ≡ replicate table_room 0) }
    ensures { CountedTo (state_of c m.now) c.shape.n table.new × RowCounts (λ j. j) [] 3 table.new × (length table.new ≡ table_room) }
{
    for b in 0..c.shape.n {
        let row = block_row(c, m, marks, b);
        add(table, row, tables::get(c.shape, m, Table::Partition, b));
    }
}

// All jobs of the queue, the front one too, whether it has begun or not.
fn count_jobs(c: Client, m: &[u8], table: &mut [usize; TABLE])
    requires { QueueRoom c m.now × CountedTo (state_of c m.now) c.shape.n table.old × RowCounts (λ j. j) [] 3 table.old × (length table.old ≡ table_room) }
    ensures { Counted (state_of c m.now) table.new }
{
    for j in 0..c.jobs {
        add(table, Row::Queued, tables::get(c.shape, m, Table::Queue, j));
    }
}

// The figures of all lines, in a table of zeros: its cost is that of the blocks and jobs.
pub fn count(c: Client, m: &[u8], table: &mut [usize; TABLE])
    requires { CacheRoom c m.now × (c.jobs ≤ 64) × (table.old ≡ replicate table_room 0) }
    ensures { Counted (state_of c m.now) table.new }
{
    let mut marks = [0u8; BLOCKS];
    cache::mark_waiting(c, m, &mut marks);
    count_blocks(c, m, &marks, table);
    count_jobs(c, m, table);
}
