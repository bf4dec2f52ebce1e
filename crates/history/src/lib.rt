// A runner of histories: it makes the calls of a lent script, one after the other, on one table, and its `ensures` states the third demand of what it ran,
// and that the table has no spare node. Histories, the ledger and the two claims are in specs/Histories, the script's words in specs/Script.
#![tactic(auto)]

ghost use Rattle.std.specs.Prelude.{◌≡◌, true, ℕ, ◌/◌, ◌<◌, length, set, replicate};
ghost use Rattle.itemset.specs.Words.{value};
ghost use Rattle.zdd.specs.Table.{count};
ghost use Rattle.statement.specs.Replies.{gives, reply_of, report_of};
ghost use Rattle.exact_cover.specs.Problem.{problem_of};
ghost use Rattle.statement.specs.Calls.{operands};
ghost use Rattle.history.specs.Histories.{Step};
ghost use Rattle.history.specs.Script.{call_of, request_entry, request_at, call_at, outcome_of, possible, every, runs, Ran};
ghost use Rattle.history.specs.Parts.{marked, noted, Stored};

use itemset::Items;
use statement::{Call, Refusal, Report};

// The words of one call in a script: see `call_of`.
#[derive(Clone, Copy)]
pub struct Request {
    pub kind: u64,
    pub m: u64,
    pub x: Items,
    pub y: u64,
    pub words: u64,
}

// All words 0: an empty table.
fn clear(t: &mut [u32])
    ensures { t.new ≡ replicate (length t.old) 0 }
{
    t.fill(0);
}

// The number of branch nodes; 0 where there is no word 0.
fn nodes(t: &[u32]) -> u32
    ensures { result ≡ count t.now }
{
    if t.len() == 0 {
        return 0;
    }
    t[0]
}

// Call i of the script.
fn asked(script: &[u64], i: usize) -> Request
    requires { i < length script.now / 7 }
    ensures { result ≡ request_at script.now i }
{
    let at = 7 * i;
    Request {
        kind: script[at],
        m: script[at + 1],
        x: Items {
            w0: script[at + 2],
            w1: script[at + 3],
            w2: script[at + 4],
        },
        y: script[at + 5],
        words: script[at + 6],
    }
}

// Whether the call can be made at all: 32 bits for each number but D, and enough working words.
fn fits(q: Request, room: usize) -> bool
    ensures { result ≡ possible room q }
{
    if q.m >= 4294967296 {
        return false;
    }
    if q.y >= 4294967296 {
        return false;
    }
    if q.words > room as u64 {
        return false;
    }
    if q.kind == 0 {
        return true;
    }
    q.x.w0 < 4294967296
}

// Whether x may be an operand: it was given, or it is unknown to a table of n nodes.
fn passes(given: &[u8; 65536], n: u32, x: u64) -> bool
    ensures { result ≡ marked given.now n x }
{
    if n as u64 + 2 <= x {
        return true;
    }
    if x >= 65536 {
        return false;
    }
    given[x as usize] == 1
}

// Whether each operand may be one.
fn operands_pass(q: Request, given: &[u8; 65536], n: u32) -> bool
    ensures { result ≡ every (marked given.now n) (operands (request_entry q).call) }
{
    if q.kind == 0 {
        return true;
    }
    if !passes(given, n, q.x.w0) {
        return false;
    }
    if q.kind == 4 {
        return true;
    }
    if q.kind == 5 {
        return true;
    }
    passes(given, n, q.y)
}

// Whether call i may be run next: there are `places` places for reports and `room` working words.
fn ready(
    script: &[u64],
    places: usize,
    room: usize,
    i: usize,
    given: &[u8; 65536],
    t: &[u32],
) -> bool
    ensures { result ≡ runs script.now places room i (marked given.now (count t.now)) }
{
    if i >= script.len() / 7 {
        return false;
    }
    if i >= places {
        return false;
    }
    let q = asked(script, i);
    if !fits(q, room) {
        return false;
    }
    let n = nodes(t);
    operands_pass(q, given, n)
}

// The call that a request's words ask: see `call_of`.
fn call_of(kind: u64, x: Items, y: u32) -> Call
    requires { 0 < kind → x.w0 < 4294967296 }
    ensures { result ≡ call_of kind x y }
{
    if kind == 0 {
        return Call::Cover { d: x, limit: y };
    }
    let a = x.w0 as u32;
    match kind {
        1 => Call::Either { a, b: y },
        2 => Call::Both { a, b: y },
        3 => Call::Only { a, b: y },
        4 => Call::With { a, p: y },
        5 => Call::Without { a, p: y },
        _ => Call::Join { a, b: y },
    }
}

// Call i of the script, on as many working words as it asks.
fn call(
    packages: &[u64],
    optional: Items,
    order: &[u8],
    t: &mut [u32],
    work: &mut [u64],
    script: &[u64],
    i: usize,
) -> Report
    requires i_in_bounds { i < length script.now / 7 }
    requires i_value { possible (length work.old) (request_at script.now i) ≡ true }
    ensures { Step (problem_of packages.now (value optional) order.now) t.old (call_at script.now i) (report_of result) t.new }
{
    let q = asked(script, i);
    let words = q.words as usize;
    let c = call_of(q.kind, q.x, q.y as u32);
    engine::answer(
        q.m as u32,
        packages,
        optional,
        order,
        t,
        c,
        &mut work[..words],
    )
}

// The word of an outcome.
fn outcome_word(outcome: Result<u32, Refusal>) -> u64
    ensures { outcome_of result ≡ reply_of outcome }
{
    match outcome {
        Ok(answer) => answer as u64,
        Err(refusal) => refusal.number() as u64 + 4294967296,
    }
}

// The report of call i is written to its three words.
fn store(out: &mut [u64], i: usize, r: Report)
    requires { i < length out.old / 3 }
    ensures { Stored out.old i (report_of r) out.new }
{
    let at = 3 * i;
    out[at] = outcome_word(r.outcome);
    out[at + 1] = r.steps as u64;
    out[at + 2] = r.made as u64;
}

// An answer is marked as given.
fn mark(given: &mut [u8; 65536], outcome: Result<u32, Refusal>)
    requires { (a : ℕ) → reply_of outcome ≡ gives a → a < 65536 }
    ensures { given.new ≡ noted (reply_of outcome) given.old }
{
    if let Ok(answer) = outcome {
        given[answer as usize] = 1;
    }
}

// 0 and 1 count as given from the start.
fn mark_first(given: &mut [u8; 65536])
    ensures { given.new ≡ set (set given.old 1 1) 0 1 }
{
    given[1] = 1;
    given[0] = 1;
}

// Runs the calls of the script, from an empty table, while the next one may be run; returns how many it ran. One optional set and one order are lent to all of
// them. out has the reports.
pub fn run(
    packages: &[u64],
    optional: Items,
    order: &[u8],
    t: &mut [u32],
    work: &mut [u64],
    script: &[u64],
    out: &mut [u64],
) -> usize
    ensures { Ran (problem_of packages.now (value optional) order.now) script.now (length work.old)
        t.old out.old result t.new out.new }
{
    clear(t);
    let mut given = [0u8; 65536];
    mark_first(&mut given);
    let places = out.len() / 3;
    let room = work.len();
    let mut i: usize = 0;
    while ready(script, places, room, i, &given, t) {
        let r = call(packages, optional, order, t, work, script, i);
        store(out, i, r);
        mark(&mut given, r.outcome);
        i += 1;
    }
    i
}
