// Runs a script of calls on Figure 1 of document 000 through the runner, on tables and working words of several lengths, and prints each report.
// A second script has calls on four packages one of whose items is optional, and a third calls on the figure in another order than the plain one, and with an order
// that is none. Two more have joins among the calls.
#![tactic(auto)]

ghost use Rattle.std.specs.Prelude.{◌≤◌};

use itemset::Items;
use statement::Call;
use std::io;

// ---- scripts

// A call with its M, and the working words that it asks.
#[derive(Clone, Copy)]
struct Request {
    m: u64,
    call: Call,
    words: u64,
}

fn on(m: u64, call: Call, words: u64) -> Request {
    Request { m, call, words }
}

// A set of items below 64.
fn low(word: u64) -> Items {
    Items {
        w0: word,
        w1: 0,
        w2: 0,
    }
}

fn cover(d: u64, limit: u32) -> Call {
    Call::Cover { d: low(d), limit }
}

// The seven words of a call in a script: its kind, M, its first argument in three words, its second, and the working words.
type Words = [u64; 7];

fn words(q: Request) -> Words {
    let (kind, x, y) = match q.call {
        Call::Cover { d, limit } => (0, d, limit),
        Call::Either { a, b } => (1, low(a as u64), b),
        Call::Both { a, b } => (2, low(a as u64), b),
        Call::Only { a, b } => (3, low(a as u64), b),
        Call::With { a, p } => (4, low(a as u64), p),
        Call::Without { a, p } => (5, low(a as u64), p),
        Call::Join { a, b } => (6, low(a as u64), b),
    };
    [kind, q.m, x.w0, x.w1, x.w2, y as u64, q.words]
}

// Calls on the figure, in the plain order.
fn figure_calls() -> [Request; 21] {
    [
        on(6, cover(63, 6), 256), // cover all items, twice
        on(6, cover(63, 6), 256),
        on(6, Call::With { a: 5, p: 0 }, 2), // with 0 and without 0
        on(6, Call::Without { a: 5, p: 0 }, 2),
        on(6, Call::Either { a: 4, b: 6 }, 2), // either, both, only
        on(6, Call::Both { a: 5, b: 4 }, 2),
        on(6, Call::Only { a: 5, b: 6 }, 2),
        on(6, cover(63, 5), 256), // B too small
        on(6, Call::Either { a: 5, b: 99 }, 2), // an unknown answer
        on(6, Call::With { a: 5, p: 5 }, 2), // an unknown package
        on(6, cover(64, 6), 256), // an unknown item
        on(6, cover(63, 6), 3), // three working words
        on(193, cover(63, 6), 256), // M above 192
        on(5, cover(31, 6), 256), // packages with an item of M
        on(6, cover(63, 7), 16), // a memo of 4 places
        on(6, cover(40, 9), 16), // other items
        on(6, Call::Either { a: 6, b: 2 }, 2), // a new node
        on(6, Call::Both { a: 4, b: 6 }, 2), // nothing in both
        on(6, Call::Either { a: 0, b: 1 }, 2), // 0 and 1 as operands
        on(6, Call::Either { a: 3, b: 1 }, 2), // 3 was not given: where the table knows it, the runner stops
        on(6, cover(63, 6), 256),
    ]
}

// The timetables of all items are 0 2, 0 3 and 1 3, of which the second leaves item 2 out.
fn slot_calls() -> [Request; 9] {
    [
        on(3, cover(7, 6), 256), // cover all items
        on(3, cover(7, 5), 256), // B too small
        on(3, cover(4, 1), 256), // item 2 alone: nothing has to be covered
        on(3, cover(0, 1), 256), // no item: the same set, the same number
        on(3, Call::With { a: 5, p: 0 }, 2), // with package 0
        on(3, Call::Without { a: 5, p: 0 }, 2), // without it
        on(3, Call::Either { a: 6, b: 3 }, 2), // either of the two: the number of all three again
        on(3, cover(3, 3), 256), // items 0 and 1: 0 3 alone
        on(3, Call::Both { a: 6, b: 7 }, 2), // what both have: 0 3 again
    ]
}

// Calls on the figure in the reversed order. The timetables of all items are 2 0 and 2 4 1.
fn reversed_calls() -> [Request; 9] {
    [
        on(6, cover(63, 6), 256), // cover all items
        on(6, cover(63, 5), 256), // B too small
        on(6, Call::With { a: 5, p: 0 }, 2), // with package 0
        on(6, Call::Without { a: 5, p: 0 }, 2), // without it
        on(6, Call::Either { a: 7, b: 8 }, 2), // either of the two: the number of both again
        on(6, Call::Only { a: 5, b: 8 }, 2), // only what has package 0
        on(6, Call::Both { a: 7, b: 8 }, 2), // nothing in both
        on(6, cover(23, 4), 256), // items 0, 1, 2 and 4: a node that was there already
        on(6, cover(40, 2), 256), // items 3 and 5: package 2 alone
    ]
}

// Each timetable of the first half is joined with the second, and either of the two joins is the join of the halves, and the cover of all items.
fn join_calls() -> [Request; 9] {
    [
        on(2, cover(1, 9), 256), // cover the first half, and the second
        on(2, cover(2, 9), 256),
        on(2, Call::With { a: 3, p: 0 }, 2), // of the first half with package 0
        on(2, Call::Join { a: 6, b: 5 }, 7), // joined with the second
        on(2, Call::Only { a: 3, b: 6 }, 2), // only the rest of the first half: package 1 alone
        on(2, Call::Join { a: 5, b: 2 }, 6), // joined, the other way round
        on(2, Call::Either { a: 7, b: 8 }, 2), // either of the two joins
        on(2, Call::Join { a: 3, b: 5 }, 6), // the join of the halves: the same set, the same number
        on(2, cover(3, 9), 256), // cover all items: the same again
    ]
}

// Refused joins among others.
fn refused_joins() -> [Request; 9] {
    [
        on(2, cover(1, 9), 256), // cover the first half, and the second
        on(2, cover(2, 9), 256),
        on(2, Call::Join { a: 3, b: 3 }, 0), // a half with itself: overlap, told without a working word
        on(2, Call::Join { a: 3, b: 5 }, 5), // one working word too few
        on(2, Call::Join { a: 3, b: 6 }, 7), // an unknown answer
        on(2, Call::Join { a: 5, b: 3 }, 6), // the halves
        on(2, Call::Join { a: 7, b: 3 }, 8), // their join with the first once more: overlap
        on(2, Call::Join { a: 1, b: 7 }, 8), // with the empty timetable alone: nothing new
        on(2, cover(3, 9), 256), // cover all items: the number of the join
    ]
}

// ---- weeks

// The packages, three words each, the optional items, and the order in which the items are lent.
#[derive(Clone, Copy)]
struct Week<'a> {
    packages: &'a [u64],
    optional: Items,
    order: &'a [u8],
}

// The figure's packages, numbered from 0.
const FIGURE: [u64; 15] = [
    0b010111, 0, 0, 0b000011, 0, 0, 0b101000, 0, 0, 0b101100, 0, 0, 0b010100, 0, 0,
];

const PLAIN: [u8; 6] = [0, 1, 2, 3, 4, 5];

const REVERSED: [u8; 6] = [5, 4, 3, 2, 1, 0];

const REPEATED: [u8; 6] = [0, 1, 2, 3, 4, 4];

// {0}, {0, 2}, {1, 2}, {1}, numbered from 0.
const SLOTS: [u64; 12] = [1, 0, 0, 5, 0, 0, 6, 0, 0, 2, 0, 0];

// {0}, {0}, {1}, {1}, numbered from 0: two halves of a week, with two timetables each.
const HALVES: [u64; 12] = [1, 0, 0, 1, 0, 0, 2, 0, 0, 2, 0, 0];

// ---- runs

// How a call ended, by the first word of its report.
fn show_outcome(rt: &impl Print, word: u64) -> io::Result<()> {
    if word < 4294967296 {
        print!(rt; "answer {word}")
    } else {
        print!(rt; "refused {}", word - 4294967296)
    }
}

// The first n reports: the word of the outcome, the steps and the nodes made.
fn show_reports(rt: &impl Print, reports: &[[u64; 3]], n: usize) -> io::Result<()> {
    for (i, [outcome, steps, made]) in reports.iter().take(n).enumerate() {
        print!(rt; "{i}: ")?;
        show_outcome(rt, *outcome)?;
        println!(rt; " steps {steps} made {made}")?;
    }
    Ok(())
}

// How many words of a table, working words and places for reports a run is lent.
#[derive(Clone, Copy)]
struct Lent {
    table: usize,
    work: usize,
    places: usize,
}

// A table of 8 nodes, and room for each call and report.
const AMPLE: Lent = Lent {
    table: 25,
    work: 256,
    places: 21,
};

// The script on a table that is not empty yet.
fn scenario(rt: &impl Print, what: &str, w: Week, script: &[Words], lent: Lent) -> io::Result<()>
    requires table_bound { lent.table ≤ 25 }
    requires work_bound { lent.work ≤ 256 }
    requires places_bound { lent.places ≤ 21 }
{
    let mut t = [7u32; 25];
    let mut work = [7u64; 256];
    let mut reports = [[0u64; 3]; 21];
    let n = history::run(
        w.packages,
        w.optional,
        w.order,
        &mut t[..lent.table],
        &mut work[..lent.work],
        script.as_flattened(),
        reports[..lent.places].as_flattened_mut(),
    );
    let calls = script.len();
    println!(rt; "{what}")?;
    show_reports(rt, &reports, n)?;
    println!(rt; "ran {n} of {calls}")
}

// The figure's calls where something is short.
fn short(rt: &impl Print, figure: Week) -> io::Result<()> {
    let calls = figure_calls().map(words);
    let cases = [
        ("a table of 8 nodes", AMPLE),
        ("a table of 3 nodes", Lent { table: 10, ..AMPLE }),
        ("no word", Lent { table: 0, ..AMPLE }),
        ("places for 2 reports", Lent { places: 2, ..AMPLE }),
        ("fewer working words", Lent { work: 200, ..AMPLE }),
    ];
    for (what, lent) in cases {
        scenario(rt, what, figure, &calls, lent)?;
    }
    Ok(())
}

// The figure in two other orders, of which the second is none.
fn reordered(rt: &impl Print, figure: Week) -> io::Result<()> {
    let calls = reversed_calls().map(words);
    let reversed = Week {
        order: &REVERSED,
        ..figure
    };
    let repeated = Week {
        order: &REPEATED,
        ..figure
    };
    scenario(rt, "the order 5 4 3 2 1 0", reversed, &calls, AMPLE)?;
    scenario(rt, "item 4 twice in the order", repeated, &calls, AMPLE)
}

fn main(rt: HostRuntime) -> io::Result<()> {
    let figure = Week {
        packages: &FIGURE,
        optional: low(0),
        order: &PLAIN,
    };
    let slots = Week {
        packages: &SLOTS,
        optional: low(0b100),
        order: &PLAIN[..3],
    };
    let halves = Week {
        packages: &HALVES,
        optional: low(0),
        order: &PLAIN[..2],
    };
    short(&rt, figure)?;
    scenario(
        &rt,
        "item 2 optional",
        slots,
        &slot_calls().map(words),
        AMPLE,
    )?;
    reordered(&rt, figure)?;
    scenario(
        &rt,
        "two halves and their joins",
        halves,
        &join_calls().map(words),
        AMPLE,
    )?;
    scenario(
        &rt,
        "two halves, and joins refused",
        halves,
        &refused_joins().map(words),
        AMPLE,
    )
}
