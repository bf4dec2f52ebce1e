// Weeks with optional items by the public calls: small weeks in one word and over all three, refusals 29 and 30, and queens, whose diagonals are optional.
// The items are lent in the plain order. A line gives the answer of cover, nodes made, steps, timetables and the first three of these in quotes, or the refusal.
#![tactic(auto)]

ghost use Rattle.std.specs.Prelude.{◌≤◌, ◌<◌};

use itemset::Items;
use std::io;
use weeks::{LARGEST, Lent, NO_ITEMS, Week};

// Cover in the plain order of all items.
fn run(rt: &impl Print, packages: &[u64], week: Week) -> io::Result<()> {
    let plain = exact_cover::plain_order();
    let m = (week.m as usize).min(192);
    Lent {
        week,
        packages,
        order: &plain[0..m],
    }
    .run(rt)
}

// ---- small weeks

// A set of items below 64.
fn low(word: u64) -> Items {
    Items {
        w0: word,
        w1: 0,
        w2: 0,
    }
}

// {0}, {0, 2}, {1, 2}, {1}.
const SLOTS: [u64; 12] = [1, 0, 0, 5, 0, 0, 6, 0, 0, 2, 0, 0];

// {1}, {0, 2}: the second comes first unless item 0 is optional.
const LATE: [u64; 6] = [2, 0, 0, 5, 0, 0];

// Item 63 of a word.
const LAST: u64 = 1 << 63;

// The same packages with the items 0, 65 and 191.
const WIDE_SLOTS: [u64; 12] = [1, 0, 0, 1, 0, LAST, 0, 2, LAST, 0, 2, 0];

const WIDE_LATE: [u64; 6] = [0, 2, 0, 1, 0, LAST];

const LASTS: Items = Items {
    w0: LAST,
    w1: LAST,
    w2: LAST,
};

// The items of the wide packages.
const WIDE: Items = Items {
    w0: 1,
    w1: 2,
    w2: LAST,
};

// Item 63 of each word too, of which only 191 is in a package.
const WIDER: Items = Items {
    w0: LAST + 1,
    w1: LAST + 2,
    w2: LAST,
};

// With a memo of 64 places.
fn small(rt: &impl Print, m: u32, packages: &[u64], optional: Items, d: Items) -> io::Result<()> {
    let week = Week {
        m,
        optional,
        d,
        words: 256,
        shown: 3,
    };
    run(rt, packages, week)
}

fn slots(rt: &impl Print) -> io::Result<()> {
    for (name, optional, d) in [
        ("item 2 optional", 4, 7),
        ("nothing optional", 0, 7),
        ("item 2 optional, D empty", 4, 0),
        ("item 2 optional, D {2}", 4, 4),
        ("nothing optional, D {2}", 0, 4),
    ] {
        print!(rt; "four packages, {name}:")?;
        small(rt, 3, &SLOTS, low(optional), low(d))?;
    }
    Ok(())
}

fn late(rt: &impl Print) -> io::Result<()> {
    for (name, optional) in [("item 0 optional", 1), ("nothing optional", 0)] {
        print!(rt; "two packages, {name}:")?;
        small(rt, 3, &LATE, low(optional), low(7))?;
    }
    Ok(())
}

fn wide_slots(rt: &impl Print) -> io::Result<()> {
    for (name, optional) in [
        ("items 63, 127, 191 optional", LASTS),
        ("nothing optional", NO_ITEMS),
    ] {
        print!(rt; "four wide packages, {name}:")?;
        small(rt, 192, &WIDE_SLOTS, optional, WIDER)?;
    }
    Ok(())
}

fn wide_late(rt: &impl Print) -> io::Result<()> {
    for (name, optional) in [("item 0 optional", low(1)), ("nothing optional", NO_ITEMS)] {
        print!(rt; "two wide packages, {name}:")?;
        small(rt, 192, &WIDE_LATE, optional, WIDE)?;
    }
    Ok(())
}

// ---- one set throughout

// The items of three in the plain order.
const ORDER: [u8; 3] = [0, 1, 2];

// The answer "0 1" of the two packages, counted with these items optional. Where item 0 is compulsory, package 1 comes first, and the table is not sound.
fn count_with(rt: &impl Print, name: &str, optional: Items) -> io::Result<()> {
    let mut t = [0u32; 7];
    let mut work = [0u64; 256];
    engine::cover(
        3,
        &LATE,
        low(1),
        &ORDER,
        &mut t,
        low(7),
        u32::MAX,
        &mut work,
    );
    let c = engine::count(3, &LATE, optional, &ORDER, &t, 3, &mut work);
    print!(rt; "answer 3 of two packages, counted with {name}:")?;
    weeks::print_answer(rt, " timetables", c)?;
    println!(rt)
}

// ---- refusals

// No table: it has no room for the node that it says it has.
const SPOILT: [u32; 1] = [1];

fn refuse_cover(rt: &impl Print, optional: Items) -> io::Result<()> {
    let mut t = SPOILT;
    let r = engine::cover(
        3,
        &SLOTS,
        optional,
        &ORDER,
        &mut t,
        low(7),
        6,
        &mut [0u64; 256],
    );
    print!(rt; " cover")?;
    weeks::print_answer(rt, " answer", r.outcome)
}

fn refuse_without(rt: &impl Print, optional: Items) -> io::Result<()> {
    let mut t = SPOILT;
    let r = engine::without(3, &SLOTS, optional, &ORDER, &mut t, 1, 0, &mut [0u64; 2]);
    print!(rt; " without")?;
    weeks::print_answer(rt, " answer", r.outcome)
}

// Three costs for the four packages.
fn refuse_cheapest(rt: &impl Print, optional: Items) -> io::Result<()> {
    let r = engine::cheapest(
        3,
        &SLOTS,
        optional,
        &ORDER,
        &[0u16; 3],
        &SPOILT,
        1,
        &mut [0u64; 2],
        &mut [0u16; 4],
    );
    print!(rt; " cheapest")?;
    weeks::print_priced(rt, r)
}

// 4 for the table and 3 for the costs come behind 29 and 30.
fn refuse(rt: &impl Print, name: &str, optional: Items) -> io::Result<()> {
    print!(rt; "spoilt table, {name} optional:")?;
    refuse_cover(rt, optional)?;
    refuse_without(rt, optional)?;
    refuse_cheapest(rt, optional)?;
    println!(rt)
}

const ITEM_191: Items = Items {
    w0: 0,
    w1: 0,
    w2: LAST,
};

fn refusals(rt: &impl Print) -> io::Result<()> {
    refuse(rt, "items 0, 2 and 3 of M 3", low(13))?;
    refuse(rt, "items 0 and 2", low(5))?;
    refuse(rt, "item 3 of M 3", low(8))?;
    refuse(rt, "item 191 of M 3", ITEM_191)?;
    refuse(rt, "item 2", low(4))
}

// ---- queens

// Item i, moved to i * apart modulo 192, goes into the set of three words. Items that are 65 apart go round the three words.
fn put_item(set: &mut [u64; 3], i: u32, apart: u32)
    requires i_bound { i < 64 }
    requires apart_bound { apart < 192 }
{
    let moved = i * apart % 192;
    set[(moved / 64) as usize] |= 1 << (moved % 64);
}

// A queen in row r and column c of n by n: her row, her column, and her two diagonals.
fn queen(n: u32, r: u32, c: u32, apart: u32) -> [u64; 3]
    requires n_bound { n ≤ 10 }
    requires r_lt_n { r < n }
    requires c_lt_n { c < n }
    requires apart_bound { apart < 192 }
{
    let mut set = [0u64; 3];
    put_item(&mut set, r, apart);
    put_item(&mut set, n + c, apart);
    put_item(&mut set, 2 * n + r + c, apart);
    put_item(&mut set, 5 * n - 2 + r - c, apart);
    set
}

// The squares of row r.
fn put_row(board: &mut [[u64; 3]; 100], n: u32, r: u32, apart: u32)
    requires n_bound { n ≤ 10 }
    requires r_lt_n { r < n }
    requires apart_bound { apart < 192 }
{
    for c in 0..n {
        board[(r * n + c) as usize] = queen(n, r, c, apart);
    }
}

// All squares, rows in turn.
fn squares(n: u32, apart: u32) -> [[u64; 3]; 100]
    requires n_bound { n ≤ 10 }
    requires apart_bound { apart < 192 }
{
    let mut board = [[0u64; 3]; 100];
    for r in 0..n {
        put_row(&mut board, n, r, apart);
    }
    board
}

// The items from `first` up to `end`, moved.
fn items(first: u32, end: u32, apart: u32) -> Items
    requires end_bound { end ≤ 64 }
    requires apart_bound { apart < 192 }
{
    let mut set = [0u64; 3];
    for i in first..end {
        put_item(&mut set, i, apart);
    }
    itemset::read(&set, 0)
}

// n queens on n by n squares: rows and columns are compulsory, and a diagonal has one queen at most.
fn queens(rt: &impl Print, n: u32, m: u32, apart: u32) -> io::Result<()>
    requires n_bound { n ≤ 10 }
    requires n_nonzero { 0 < n }
    requires apart_bound { apart < 192 }
{
    let board = squares(n, apart);
    let week = Week {
        m,
        optional: items(2 * n, 6 * n - 2, apart),
        d: items(0, 6 * n - 2, apart),
        words: LARGEST,
        shown: 3,
    };
    let packages = n * n;
    print!(rt; "queens {n}, items apart {apart}, M {m}, packages {packages}:")?;
    run(rt, board[0..packages as usize].as_flattened(), week)
}

fn main(rt: HostRuntime) -> io::Result<()> {
    slots(&rt)?;
    late(&rt)?;
    wide_slots(&rt)?;
    wide_late(&rt)?;
    count_with(&rt, "item 0 optional", low(1))?;
    count_with(&rt, "nothing optional", NO_ITEMS)?;
    refusals(&rt)?;
    queens(&rt, 8, 46, 1)?;
    queens(&rt, 8, 181, 4)?;
    queens(&rt, 8, 173, 65)?;
    queens(&rt, 10, 58, 1)
}
