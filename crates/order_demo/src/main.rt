// Weeks in lent orders by the public calls: small weeks in one word and over all three, one order throughout, refusal 34, and what the order is for. A line gives
// the answer of cover, nodes made, steps, timetables and the first of these in quotes, or the refusal.
#![tactic(auto)]

ghost use Rattle.std.specs.Prelude.{◌≤◌, ◌<◌};

use itemset::Items;
use statement::Call;
use std::io;
use weeks::{LARGEST, Lent, NO_ITEMS, Week};

// ---- what is printed

// The items that are lent.
fn print_order(rt: &impl Print, order: &[u8]) -> io::Result<()> {
    print!(rt; ", order")?;
    for item in order {
        print!(rt; " {item}")?;
    }
    print!(rt; ":")
}

// ---- the figure

// Figure 1 of document 000, numbered from 0: {0, 1, 2, 4}, {0, 1}, {3, 5}, {2, 3, 5}, {2, 4}.
const FIGURE: [u64; 15] = [23, 0, 0, 3, 0, 0, 40, 0, 0, 44, 0, 0, 20, 0, 0];

const PLAIN: [u8; 6] = [0, 1, 2, 3, 4, 5];

const REVERSED: [u8; 6] = [5, 4, 3, 2, 1, 0];

const MIXED: [u8; 6] = [2, 0, 1, 3, 4, 5];

fn set(w0: u64, w1: u64, w2: u64) -> Items {
    Items { w0, w1, w2 }
}

// A set of items below 64.
fn low(word: u64) -> Items {
    set(word, 0, 0)
}

fn small(m: u32, optional: Items, d: Items, words: usize) -> Week {
    Week {
        m,
        optional,
        d,
        words,
        shown: 3,
    }
}

// All items of the figure, in the order.
fn lent(order: &[u8], words: usize) -> Lent<'_> {
    Lent {
        week: small(6, NO_ITEMS, low(63), words),
        packages: &FIGURE,
        order,
    }
}

fn figures(rt: &impl Print) -> io::Result<()> {
    for (order, words) in [
        (PLAIN, 256),
        (REVERSED, 256),
        (MIXED, 256),
        (MIXED, 28),
        (MIXED, 16),
    ] {
        print!(rt; "figure 1, places {}", words / 4)?;
        print_order(rt, &order)?;
        lent(&order, words).run(rt)?;
    }
    Ok(())
}

// The table of the figure, in the order: all its items are answer 5.
fn table(order: &[u8]) -> [u32; 13] {
    let mut t = [0u32; 13];
    let d = low(63);
    let mut work = [0u64; 256];
    engine::cover(6, &FIGURE, NO_ITEMS, order, &mut t, d, u32::MAX, &mut work);
    t
}

// Where the list stands in the answer of the figure.
fn print_place(rt: &impl Print, order: &[u8], t: &[u32], a: u32, list: &[u16]) -> io::Result<()> {
    let r = engine::place(6, &FIGURE, NO_ITEMS, order, t, a, list, &mut [0u64; 6]);
    weeks::print_answer(rt, "", r)
}

fn place(rt: &impl Print, order: &[u8], list: [u16; 3]) -> io::Result<()> {
    let [x, y, z] = list;
    print!(rt; "place of {x} {y} {z}")?;
    print_order(rt, order)?;
    print_place(rt, order, &table(order), 5, &list)?;
    println!(rt)
}

// The table is made in one order and read in another: its answer is counted.
fn read(rt: &impl Print, made: &[u8], order: &[u8]) -> io::Result<()> {
    print!(rt; "cover")?;
    print_order(rt, made)?;
    print!(rt; " count")?;
    print_order(rt, order)?;
    lent(order, 0).print_timetables(rt, &table(made), 5)?;
    println!(rt)
}

fn readings(rt: &impl Print) -> io::Result<()> {
    place(rt, &PLAIN, [1, 4, 2])?;
    place(rt, &REVERSED, [2, 4, 1])?;
    place(rt, &REVERSED, [1, 4, 2])?;
    read(rt, &PLAIN, &PLAIN)?;
    read(rt, &PLAIN, &REVERSED)
}

// ---- refusals

// No table: it has no room for the node that it says it has.
const SPOILT: [u32; 1] = [1];

fn refuse_answer(rt: &impl Print, name: &str, order: &[u8], c: Call) -> io::Result<()> {
    let mut t = SPOILT;
    let r = engine::answer(6, &FIGURE, NO_ITEMS, order, &mut t, c, &mut [0u64; 4]);
    print!(rt; " {name}")?;
    weeks::print_answer(rt, " answer", r.outcome)
}

fn refuse_making(rt: &impl Print, order: &[u8]) -> io::Result<()> {
    let d = low(63);
    refuse_answer(rt, "cover", order, Call::Cover { d, limit: 6 })?;
    refuse_answer(rt, "either", order, Call::Either { a: 0, b: 1 })?;
    refuse_answer(rt, "with", order, Call::With { a: 1, p: 0 })
}

fn refuse_measure(rt: &impl Print, order: &[u8]) -> io::Result<()> {
    let r = engine::measure(6, &FIGURE, NO_ITEMS, order, &SPOILT, 1, 0, &mut [0u64; 2]);
    print!(rt; " measure")?;
    weeks::print_answer(rt, " packages", r)
}

fn refuse_cheapest(rt: &impl Print, order: &[u8]) -> io::Result<()> {
    let r = engine::cheapest(
        6,
        &FIGURE,
        NO_ITEMS,
        order,
        &[0u16; 3],
        &SPOILT,
        1,
        &mut [0u64; 2],
        &mut [0u16; 4],
    );
    print!(rt; " cheapest")?;
    weeks::print_priced(rt, r)
}

// Cheapest has costs for three packages of the five: 34 comes before 4 and 3.
fn refuse_all(rt: &impl Print, order: &[u8]) -> io::Result<()> {
    refuse_making(rt, order)?;
    print!(rt; " count")?;
    lent(order, 0).print_timetables(rt, &SPOILT, 1)?;
    refuse_measure(rt, order)?;
    print!(rt; " pick")?;
    lent(order, 0).print_pick(rt, &SPOILT, 1, 0)?;
    print!(rt; " place")?;
    print_place(rt, order, &SPOILT, 1, &[2, 4, 1])?;
    refuse_cheapest(rt, order)?;
    println!(rt)
}

fn refuse(rt: &impl Print, order: &[u8]) -> io::Result<()> {
    print!(rt; "spoilt table, M 6")?;
    print_order(rt, order)?;
    refuse_all(rt, order)
}

fn refusals(rt: &impl Print) -> io::Result<()> {
    refuse(rt, &[0, 1, 2, 3, 4, 4])?;
    refuse(rt, &[0, 1, 2, 3, 4, 6])?;
    refuse(rt, &[0, 1, 2, 3, 4])?;
    refuse(rt, &[0, 1, 2, 3, 4, 5, 6])?;
    refuse(rt, &PLAIN)
}

// ---- no items, optional ones, and 192

// {0}, {0, 2}, {1, 2}, {1}.
const SLOTS: [u64; 12] = [1, 0, 0, 5, 0, 0, 6, 0, 0, 2, 0, 0];

// Item 63 of a word.
const LAST: u64 = 1 << 63;

// The same packages with the items 0, 65 and 191.
const WIDE_SLOTS: [u64; 12] = [1, 0, 0, 1, 0, LAST, 0, 2, LAST, 0, 2, 0];

// All m items from `first` on, each `apart` behind the one before it modulo m, where m and `apart` have no divisor in common. From m - 1 on, m - 1 apart, they
// are reversed.
fn spread(m: u32, first: u32, apart: u32) -> [u8; 192]
    requires m_bound { m ≤ 192 }
    requires first_lt_m { first < m }
    requires apart_lt_m { apart < m }
{
    let mut order = [0u8; 192];
    for i in 0..m {
        order[i as usize] = ((first + i * apart) % m) as u8;
    }
    order
}

// No package and no item.
fn empty(rt: &impl Print, order: &[u8]) -> io::Result<()> {
    print!(rt; "M 0")?;
    print_order(rt, order)?;
    Lent {
        week: small(0, NO_ITEMS, NO_ITEMS, 4),
        packages: &[],
        order,
    }
    .run(rt)
}

fn slots(rt: &impl Print, order: &[u8]) -> io::Result<()> {
    print!(rt; "four packages, item 2 optional")?;
    print_order(rt, order)?;
    Lent {
        week: small(3, low(4), low(7), 256),
        packages: &SLOTS,
        order,
    }
    .run(rt)
}

// In the reversed order of all 192 items.
fn wide_slots(rt: &impl Print) -> io::Result<()> {
    print!(rt; "four wide packages, item 191 optional, order 191 to 0:")?;
    Lent {
        week: small(192, set(0, 0, LAST), set(1, 2, LAST), 256),
        packages: &WIDE_SLOTS,
        order: &spread(192, 191, 191),
    }
    .run(rt)
}

fn others(rt: &impl Print) -> io::Result<()> {
    empty(rt, &[])?;
    empty(rt, &[0])?;
    slots(rt, &[0, 1, 2])?;
    slots(rt, &[2, 1, 0])?;
    wide_slots(rt)
}

// ---- what the order is for

// All items of the order are covered, the first m, with the largest memo, and no timetable is printed.
fn whole(rt: &impl Print, packages: &[[u64; 3]], m: u32, order: &[u8]) -> io::Result<()> {
    let week = Week {
        m,
        optional: NO_ITEMS,
        d: itemset::all_below(m),
        words: LARGEST,
        shown: 0,
    };
    Lent {
        week,
        packages: packages.as_flattened(),
        order,
    }
    .run(rt)
}

// The package, of items below 64, goes behind the first n if there is room; returns how many there are then.
fn put(packages: &mut [[u64; 3]], n: usize, items: u64) -> usize {
    if packages.len() <= n {
        return n;
    }
    packages[n][0] = items;
    n + 1
}

// domino.8.8 of document 000: all domino placings on 8 by 8 cells, as in table1_demo.
fn dominoes() -> [[u64; 3]; 112] {
    let mut packages = [[0u64; 3]; 112];
    let mut n = 0;
    for cell in 0..64u32 {
        if cell % 8 < 7 {
            n = put(&mut packages, n, 3 << cell);
        }
        if cell < 56 {
            n = put(&mut packages, n, 257 << cell);
        }
    }
    packages
}

// In the plain order cells that are near each other are covered one after the other; every ninth cell is on a diagonal.
fn boards(rt: &impl Print) -> io::Result<()> {
    let packages = dominoes();
    for (name, order) in [
        ("order 0 to 63", spread(64, 0, 1)),
        ("every ninth cell", spread(64, 0, 9)),
    ] {
        print!(rt; "domino.8.8, {name}:")?;
        whole(rt, &packages, 64, &order[0..64])?;
    }
    Ok(())
}

// Whether a school wants the slots of these two days. Schools with an even number want evenings, any two, the others mornings that are at most two days apart.
fn wants(school: u32, a: u32, b: u32) -> bool {
    a < b && (school % 2 == 0 || b - a <= 2)
}

// Eight schools, the items 0 to 7, and the slots of eight days, an evening and a morning each, the items 8 to 23. Evenings are contested: 28 packages hold one.
fn programme() -> [[u64; 3]; 164] {
    let mut packages = [[0u64; 3]; 164];
    let mut n = 0;
    for i in 0..512u32 {
        let school = i / 64;
        let a = i / 8 % 8;
        let b = i % 8;
        if wants(school, a, b) {
            let slots = (1u64 << (2 * a) | 1 << (2 * b)) << (8 + school % 2);
            n = put(&mut packages, n, 1 << school | slots);
        }
    }
    packages
}

// How many packages hold the item.
fn popularity(packages: &[[u64; 3]; 164], item: u32) -> usize
    requires { item < 64 }
{
    packages
        .iter()
        .filter(|package| (package[0] >> item) & 1 == 1)
        .count()
}

// Whether the item comes before the other: more packages hold it, or as many and its number is the lower one.
fn precedes(packages: &[[u64; 3]; 164], item: u32, other: u32) -> bool
    requires item_bound { item < 64 }
    requires other_bound { other < 64 }
{
    let key = (popularity(packages, other), item);
    key < (popularity(packages, item), other)
}

// How many items come before this one.
fn position(packages: &[[u64; 3]; 164], item: u32) -> usize
    requires { item < 64 }
{
    (0..24)
        .filter(|other| precedes(packages, *other, item))
        .count()
}

// The items by the packages that hold them, most of these first.
fn popular_first(packages: &[[u64; 3]; 164]) -> [u8; 24] {
    let mut order = [0u8; 24];
    for item in 0..24u32 {
        order[position(packages, item) % 24] = item as u8;
    }
    order
}

// With the evenings and their schools first the two halves of the week follow each other, and their nodes add up. Where they take turns, nodes multiply.
fn terms(rt: &impl Print) -> io::Result<()> {
    let packages = programme();
    print!(rt; "eight schools, contested slots first:")?;
    whole(rt, &packages, 24, &popular_first(&packages))?;
    for (name, order) in [
        ("order 0 to 23", spread(24, 0, 1)),
        ("order 23 to 0", spread(24, 23, 23)),
        ("every fifth item", spread(24, 0, 5)),
    ] {
        print!(rt; "eight schools, {name}:")?;
        whole(rt, &packages, 24, &order[0..24])?;
    }
    Ok(())
}

fn main(rt: HostRuntime) -> io::Result<()> {
    figures(&rt)?;
    readings(&rt)?;
    refusals(&rt)?;
    others(&rt)?;
    boards(&rt)?;
    terms(&rt)
}
