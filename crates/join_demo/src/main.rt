// Two weeks planned apart and joined by the public calls: when a join answers and how it is refused, two boards of dominoes, and more timetables than count can
// tell. A line gives the answer, nodes made, steps, timetables and the first of these in quotes, or the refusal; where only count refuses, its refusal stands behind
// the steps. A join's line begins with the two answers, the table's free places and the working words, and ends with whether the table is unchanged.
#![tactic(auto)]

ghost use Rattle.std.specs.Prelude.{◌<◌};

use itemset::Items;
use std::io;
use weeks::{LARGEST, Lent, NO_ITEMS, Week};

// ---- one join

// The operands, how many places of the table are lent behind its nodes, and how many working words.
#[derive(Clone, Copy)]
struct Join {
    a: u32,
    b: u32,
    free: u32,
    words: usize,
}

// A table of 15,000 nodes.
type Table = [u32; 45001];

// The join on the table's words that are lent, and its report.
fn ask(rt: &impl Print, lent: Lent, t: &mut [u32], c: Join) -> io::Result<()> {
    let mut work = [0u64; 728];
    let words = c.words.min(728);
    let r = engine::join(
        lent.week.m,
        lent.packages,
        lent.week.optional,
        lent.order,
        t,
        c.a,
        c.b,
        &mut work[..words],
    );
    lent.print_report(rt, t, r)
}

fn print_join(rt: &impl Print, lent: Lent, t: &mut Table, c: Join) -> io::Result<()> {
    let Join { a, b, free, words } = c;
    print!(rt; "join {a} {b}, free places {free}, words {words}:")?;
    let before = *t;
    let room = 3 * (t[0] as usize + free as usize) + 1;
    let end = room.min(45001);
    ask(rt, lent, &mut t[..end], c)?;
    if *t == before {
        print!(rt; ", table unchanged")?;
    }
    println!(rt)
}

// ---- the halves of a week and their joins

// The four fields of a join.
type Row = (u32, u32, u32, usize);

// The joins, one after the other on one table.
fn joins(rt: &impl Print, lent: Lent, t: &mut Table, rows: &[Row]) -> io::Result<()> {
    for (a, b, free, words) in rows {
        let c = Join {
            a: *a,
            b: *b,
            free: *free,
            words: *words,
        };
        print_join(rt, lent, t, c)?;
    }
    Ok(())
}

// The items of the two halves.
#[derive(Clone, Copy)]
struct Halves {
    first: Items,
    second: Items,
}

// The halves are covered, and then joined.
fn show(rt: &impl Print, lent: Lent, t: &mut Table, h: Halves, rows: &[Row]) -> io::Result<()> {
    print!(rt; "first half:")?;
    lent.cover(rt, t, h.first)?;
    print!(rt; "second half:")?;
    lent.cover(rt, t, h.second)?;
    joins(rt, lent, t, rows)
}

// What the calls on a week are lent, and how many timetables are printed; the items to cover stand in the halves.
fn week(m: u32, optional: Items, shown: usize) -> Week {
    Week {
        m,
        optional,
        d: NO_ITEMS,
        words: LARGEST,
        shown,
    }
}

// ---- small weeks

// A set of items below 64.
fn low(word: u64) -> Items {
    Items {
        w0: word,
        w1: 0,
        w2: 0,
    }
}

// {0}, {1}, {2}, {3}.
const FOUR: [u64; 12] = [1, 0, 0, 2, 0, 0, 4, 0, 0, 8, 0, 0];

const ORDER: [u8; 4] = [0, 1, 2, 3];

// The halves are 3 and 5.
const JOINS_OF_FOUR: [Row; 21] = [
    // 35 is told before 8, and 8 before 10. The larger answer is 5, and 6 words are enough.
    (3, 3, 0, 0),
    (3, 5, 0, 0),
    (3, 5, 0, 5),
    (3, 5, 0, 6),
    (3, 5, 2, 6),
    (3, 5, 3, 6),
    // The other way round.
    (5, 3, 0, 6),
    // An answer with itself, and with a part of it.
    (8, 8, 9, 9),
    (3, 8, 9, 9),
    (8, 5, 9, 9),
    // An unknown answer.
    (8, 9, 9, 0),
    (9, 8, 9, 0),
    // With the empty timetable alone and with none: these have no item.
    (8, 1, 0, 8),
    (8, 1, 0, 9),
    (1, 8, 0, 9),
    (8, 0, 0, 9),
    (0, 8, 0, 9),
    (1, 1, 0, 1),
    (1, 1, 0, 2),
    (0, 1, 0, 2),
    (0, 0, 0, 2),
];

fn four(rt: &impl Print) -> io::Result<()> {
    rt.println("packages {0}, {1}, {2}, {3}, halves {0, 2} and {1, 3}")?;
    let lent = Lent {
        week: week(4, NO_ITEMS, 3),
        packages: &FOUR,
        order: &ORDER,
    };
    let h = Halves {
        first: low(0b0101),
        second: low(0b1010),
    };
    show(rt, lent, &mut [0; 45001], h, &JOINS_OF_FOUR)
}

// The packages are {0, 2} and the second, and so are the halves. Item 2 is optional.
fn shared(rt: &impl Print, name: &str, second: u64) -> io::Result<()> {
    rt.println(name)?;
    let packages = [5, 0, 0, second, 0, 0];
    let lent = Lent {
        week: week(3, low(0b100), 3),
        packages: &packages,
        order: &ORDER[..3],
    };
    let h = Halves {
        first: low(0b101),
        second: low(second),
    };
    show(rt, lent, &mut [0; 45001], h, &[(2, 3, 2, 4)])
}

// ---- two boards of dominoes

// The package goes behind the first n if there is room; returns how many there are then.
fn put(packages: &mut [[u64; 3]; 120], n: usize, x: Items) -> usize {
    if 120 <= n {
        return n;
    }
    packages[n] = [x.w0, x.w1, x.w2];
    n + 1
}

fn domino(i: u32, j: u32) -> Items
    requires i_bound { i < 192 }
    requires j_bound { j < 192 }
{
    itemset::union(itemset::single(i), itemset::single(j))
}

// All domino placings on two boards of 6 by 6 cells, the items 0 to 35 and 36 to 71.
fn boards() -> [[u64; 3]; 120] {
    let mut packages = [[0; 3]; 120];
    let mut n = 0;
    for cell in 0..72u32 {
        if cell % 6 < 5 {
            n = put(&mut packages, n, domino(cell, cell + 1));
        }
        if cell % 36 < 30 {
            n = put(&mut packages, n, domino(cell, cell + 6));
        }
    }
    packages
}

// The cells of the two boards in turn.
fn turns() -> [u8; 192] {
    let mut order = [0; 192];
    for i in 0..72 {
        order[i] = (i / 2 + 36 * (i % 2)) as u8;
    }
    order
}

// One place too few, just enough, and the other way round.
const JOINS_IN_LINE: [Row; 3] = [
    (364, 727, 362, 728),
    (364, 727, 363, 728),
    (727, 364, 0, 728),
];

const JOINS_IN_TURN: [Row; 3] = [
    (364, 727, 12162, 728),
    (364, 727, 12163, 728),
    (727, 364, 0, 728),
];

// The two boards and their joins; then a cover of both finds the answer of the join.
fn joined(rt: &impl Print, lent: Lent, rows: &[Row]) -> io::Result<()> {
    let first = itemset::all_below(36);
    let all = itemset::all_below(72);
    let h = Halves {
        first,
        second: itemset::without(all, first),
    };
    let mut t = [0; 45001];
    show(rt, lent, &mut t, h, rows)?;
    print!(rt; "both at once:")?;
    lent.cover(rt, &mut t, all)
}

// Where one board comes behind the other the join makes a node for each of the first board's; where they take turns, nodes multiply.
fn dominoes(rt: &impl Print, name: &str, order: &[u8; 192], rows: &[Row]) -> io::Result<()> {
    println!(rt; "two boards of 6 by 6, {name}")?;
    let packages = boards();
    let lent = Lent {
        week: week(72, NO_ITEMS, 0),
        packages: packages.as_flattened(),
        order: &order[..72],
    };
    joined(rt, lent, rows)
}

// ---- more timetables than count can tell

// Packages 2 i and 2 i + 1 hold the item i.
fn pairs() -> [[u64; 3]; 128] {
    let mut packages = [[0; 3]; 128];
    for p in 0..128 {
        packages[p][0] = 1 << (p / 2);
    }
    packages
}

// Package p costs 127 - p, so that the cheapest timetable has the odd ones.
fn costs() -> [u16; 128] {
    let mut costs = [0; 128];
    for p in 0..128 {
        costs[p] = (127 - p) as u16;
    }
    costs
}

fn cheapest(rt: &impl Print, lent: Lent, t: &[u32]) -> io::Result<()> {
    let r = engine::cheapest(
        64,
        lent.packages,
        NO_ITEMS,
        lent.order,
        &costs(),
        t,
        193,
        &mut [0; 194],
        &mut [0; 64],
    );
    print!(rt; "cheapest of 193:")?;
    weeks::print_priced(rt, r)?;
    println!(rt)
}

// Each half has 2^32 timetables, and the join 2^64: one more than count can tell.
fn priced(rt: &impl Print, packages: &[u64], order: &[u8]) -> io::Result<()> {
    let lent = Lent {
        week: week(64, NO_ITEMS, 0),
        packages,
        order,
    };
    let h = Halves {
        first: low(0x00000000ffffffff),
        second: low(0xffffffff00000000),
    };
    let mut t = [0; 45001];
    show(rt, lent, &mut t, h, &[(65, 129, 64, 130)])?;
    cheapest(rt, lent, &t)
}

fn many(rt: &impl Print, order: &[u8; 192]) -> io::Result<()> {
    rt.println(
        "items 0 to 63 in two packages each, halves 0 to 31 and 32 to 63: count refuses the 2^64 timetables of the join",
    )?;
    priced(rt, pairs().as_flattened(), &order[..64])
}

fn main(rt: HostRuntime) -> io::Result<()> {
    let plain = exact_cover::plain_order();
    four(&rt)?;
    shared(
        &rt,
        "packages and halves {0, 2} and {1, 2}, item 2 optional",
        6,
    )?;
    shared(
        &rt,
        "packages and halves {0, 2} and {1}, item 2 optional",
        2,
    )?;
    dominoes(&rt, "one behind the other", &plain, &JOINS_IN_LINE)?;
    dominoes(&rt, "their cells in turn", &turns(), &JOINS_IN_TURN)?;
    many(&rt, &plain)
}
