// The public entries: each takes any lent buffers, refuses by the numbers of documents 01 and 02 in their order, and writes only after its last test.
//
// Assumes nothing.

#![tactic(auto)]

ghost use Rattle.std.specs.Prelude.{◌≡◌, ◌≢◌, map, ◌+◌, ◌*◌, ◌≤◌, MatchResult, length};
ghost use Rattle.model.specs.Constraints.{width};
ghost use Rattle.model.specs.Replies.{leaves};
ghost use Rattle.model.specs.Reading.{reading};
ghost use Rattle.model.specs.Operations.{read, unpack, Stepped, step, Settlement, settle, Searched, search};
ghost use Rattle.model.specs.StepIndex as model;
ghost use Rattle.model.specs.Queue.{Queued, settle_by_index};
ghost use Rattle.model.specs.Claim.{call, calls};
ghost use Rattle.model.specs.Compile.{Compiled, compile};
ghost use Rattle.refusals.specs.declared.Refusal.TheVariants.{TableLength, IndexLength};
ghost use Rattle.format.specs.Problems.{the_problem};
ghost use Rattle.cobleskeg.specs.Answers.{Lends, read_reply, unpack_reply, step_reply, settle_reply, index_reply, settle_by_index_reply, search_reply, compile_reply};
ghost use Rattle.cobleskeg.specs.Claims.{call_of, call_by_index, SettlesAlike, SearchHolds, ListHolds, IndexesRefused, CompileHolds};

use format::Problem;
pub use refusals::Refusal;
pub use search::Outcome;

// The counts of symbols, strings, numbers, automata and constraints.
#[derive(Clone, Copy)]
pub struct Header {
    pub symbols: usize,
    pub strings: usize,
    pub numbers: usize,
    pub automata: usize,
    pub constraints: usize,
}

// How many rounds or steps there were, the last round included, and whether every variable has a value after them.
#[derive(Clone, Copy)]
pub struct Settled {
    pub count: u32,
    pub every_value: bool,
}

// Read: the counts of a file, or the first of the refusals 1 to 8.
pub fn read(file: &[u8]) -> Result<Header, Refusal>
    ensures { read_reply result ≡ read (reading file.now) }
{
    let parts = format::accept(file)?.parts;
    Ok(Header {
        symbols: parts.k,
        strings: parts.s,
        numbers: parts.t,
        automata: parts.d,
        constraints: parts.c,
    })
}

// Refusal 9 of a lent table.
fn check_length(p: &Problem, table: &[u64]) -> Result<(), Refusal>
    ensures { MatchResult result (λ a. length table.now ≡ width (the_problem p.now))
        (λ e. (e ≡ TableLength) × (length table.now ≢ width (the_problem p.now))) }
{
    if table.len() != p.words() {
        return Err(Refusal::TableLength);
    }
    Ok(())
}

// Unpack: the file's table into the lent one, or the first of the refusals 1 to 9.
pub fn unpack(file: &[u8], table: &mut [u64]) -> Result<(), Refusal>
    ensures result_after { unpack_reply table.new result ≡ unpack (reading file.now) table.old }
    ensures table_after { table.new ≡ leaves (λ T. T) (unpack (reading file.now) table.old) table.old }
{
    let p = format::accept(file)?;
    check_length(&p, table)?;
    tables::unpack(p.table_bytes(), table);
    Ok(())
}

// Refusals 9 and 10 of a lent table.
fn lendable(p: &Problem, table: &[u64]) -> Result<(), Refusal>
    ensures { Lends (the_problem p.now) table.now result }
{
    check_length(p, table)?;
    if !tables::table_low(table, p.parts.k, p.parts.s) {
        return Err(Refusal::TableSymbols);
    }
    Ok(())
}

// Step j: constraint j below c, else the trimming of string j - c; or the first of the refusals 1 to 11.
pub fn step(file: &[u8], j: usize, table: &mut [u64]) -> Result<u32, Refusal>
    ensures result_after { step_reply table.new result ≡ step (reading file.now) j table.old }
    ensures table_after { table.new ≡ leaves (λ (a : Stepped). a.table) (step (reading file.now) j table.old) table.old }
{
    let p = format::accept(file)?;
    lendable(&p, table)?;
    if j >= p.parts.c + p.parts.s {
        return Err(Refusal::StepNumber);
    }
    Ok(list::step(&p, j, table))
}

// Settle: rounds until one strikes nothing, or the first of the refusals 1 to 10.
pub fn settle(file: &[u8], table: &mut [u64]) -> Result<Settled, Refusal>
    ensures result_after { settle_reply table.new result ≡ settle (reading file.now) table.old }
    ensures table_after { table.new
        ≡ leaves (λ (a : Settlement). a.table) (settle (reading file.now) table.old) table.old }
{
    let p = format::accept(file)?;
    lendable(&p, table)?;
    let count = rounds::settle(&p, table);
    let every_value = rounds::every_value(table, p.parts.s);
    let settled = Settled { count, every_value };
    Ok(settled)
}

// Refusal 18 of a lent index.
fn check_index(p: &Problem, index: &[u64]) -> Result<(), Refusal>
    ensures { MatchResult result (λ a. length index.now ≡ 2 * (p.now.parts.s + p.now.parts.t))
        (λ e. (e ≡ IndexLength) × (length index.now ≢ 2 * (p.now.parts.s + p.now.parts.t))) }
{
    if index.len() != 2 * (p.parts.s + p.parts.t) {
        return Err(Refusal::IndexLength);
    }
    Ok(())
}

// Index: which steps touch each variable of the file, two words for each, or the first of the refusals 1 to 8 and 18.
pub fn index(file: &[u8], index: &mut [u64]) -> Result<(), Refusal>
    ensures result_after { index_reply index.new result ≡ model.index (reading file.now) index.old }
    ensures index_after { index.new ≡ leaves (λ I. I) (model.index (reading file.now) index.old) index.old }
{
    let problem = format::accept(file)?;
    check_index(&problem, index)?;
    index::write(&problem, index);
    Ok(())
}

// Settle by index: the table that Settle leaves, by a queue of steps; or the first of the refusals 1 to 10, 18 and 19.
pub fn settle_by_index(file: &[u8], index: &[u64], table: &mut [u64]) -> Result<Settled, Refusal>
    ensures result_after { settle_by_index_reply table.new result
        ≡ settle_by_index (reading file.now) index.now table.old }
    ensures table_after { table.new
        ≡ leaves (λ (a : Queued). a.table) (settle_by_index (reading file.now) index.now table.old) table.old }
    ensures settles_alike { SettlesAlike file.now table.old result table.new }
{
    let p = format::accept(file)?;
    lendable(&p, table)?;
    check_index(&p, index)?;
    if !index::is_of_file(&p, index) {
        return Err(Refusal::IndexWords);
    }
    let count = queue::settle(&p, index, table);
    let every_value = rounds::every_value(table, p.parts.s);
    Ok(Settled { count, every_value })
}

// Search: the first solution of the file, within a budget of nodes; or the first of the refusals 1 to 8, 12 and 13.
pub fn search(
    file: &[u8],
    budget: u32,
    room: &mut [u64],
    table: &mut [u64],
) -> Result<Outcome, Refusal>
    ensures result_after { search_reply room.new table.new result
        ≡ search (reading file.now) budget room.old table.old }
    ensures room_after { room.new
        ≡ leaves (λ (a : Searched). a.room) (search (reading file.now) budget room.old table.old) room.old }
    ensures table_after { table.new
        ≡ leaves (λ (a : Searched). a.table) (search (reading file.now) budget room.old table.old) table.old }
    ensures search_holds { SearchHolds file.now budget room.old table.old result table.new }
{
    let p = format::accept(file)?;
    let words = p.words();
    if room.len() < 3 * words {
        return Err(Refusal::RoomLength);
    }
    if table.len() != words {
        return Err(Refusal::AnswerLength);
    }
    Ok(search::search(&p, budget, room, table))
}

// The number of Settle in a list of calls; every other number is that of a Step.
pub const SETTLE: u32 = 4294967295;

// One call of a list.
fn call(file: &[u8], n: u32, table: &mut [u64])
    ensures { table.new ≡ call (reading file.now) (call_of n) table.old }
{
    if n == SETTLE {
        let _ = settle(file, table);
    } else {
        let _ = step(file, n as usize, table);
    }
}

// A list of Step and Settle calls on one table, one after the other; a refused call leaves the table as it was.
pub fn perform(file: &[u8], list: &[u32], table: &mut [u64])
    ensures table_after { table.new ≡ calls (reading file.now) (map call_of list.now) table.old }
    ensures list_holds { ListHolds file.now table.old table.new }
{
    for &n in list {
        call(file, n, table);
    }
}

// The number of Settle by index in a list of calls that is lent an index; every number but this and that of Settle is that of a Step.
pub const SETTLE_BY_INDEX: u32 = 4294967294;

// One call of such a list.
fn call_by_index(file: &[u8], n: u32, index: &[u64], table: &mut [u64])
    ensures { table.new ≡ call (reading file.now) (call_by_index index.now n) table.old }
{
    if n == SETTLE_BY_INDEX {
        let _ = settle_by_index(file, index, table);
    } else {
        call(file, n, table);
    }
}

// A list of Step, Settle and Settle by index calls on one table, all with the one lent index; a refused call leaves the table as it was.
pub fn perform_by_index(file: &[u8], list: &[u32], index: &[u64], table: &mut [u64])
    ensures table_after { table.new
        ≡ calls (reading file.now) (map (call_by_index index.now) list.now) table.old }
    ensures list_holds { ListHolds file.now table.old table.new }
    ensures indexes_refused { IndexesRefused file.now table.old }
{
    for &number in list {
        call_by_index(file, number, index, table);
    }
}

// Compile: the automaton of a pattern for k symbols, as the bytes that stand for it in a file; or the first of the refusals 14 to 17.
pub fn compile(text: &[u8], k: usize, buffer: &mut [u8]) -> Result<usize, Refusal>
    ensures result_after { compile_reply buffer.new result ≡ compile k text.now buffer.old }
    ensures buffer_after { buffer.new ≡ leaves (λ (a : Compiled). a.buffer) (compile k text.now buffer.old) buffer.old }
    ensures compile_holds { CompileHolds text.now k result buffer.new }
{
    compiler::compile(text, k, buffer)
}
