// The timetable closest to a given one by the public calls: the figure of document 000, each refusal, another order, equal packages, optional items, and a list of
// 512 packages. After a cover's line each line gives the list, the answer, the working words and the page's places, and then how many packages closest wrote and
// the difference, or the refusal; the first five places of the page, all 9 before the call, come last.
#![tactic(auto)]

use itemset::Items;
use statement::{Compared, Refusal};
use std::io;
use weeks::{Lent, NO_ITEMS, Week};

// ---- what is printed

fn print_list(rt: &impl Print, list: &[u16]) -> io::Result<()> {
    for p in list {
        print!(rt; " {p}")?;
    }
    Ok(())
}

fn print_compared(rt: &impl Print, r: Result<Compared, Refusal>) -> io::Result<()> {
    match r {
        Ok(c) => print!(rt; " packages {} difference {}", c.packages, c.difference),
        Err(refusal) => print!(rt; " {refusal}"),
    }
}

// ---- one question

// The answer, how many working words are lent, and how many places of the page.
#[derive(Clone, Copy)]
struct Sizes {
    answer: u32,
    words: usize,
    places: usize,
}

fn ask(rt: &impl Print, lent: Lent, t: &[u32], list: &[u16], sizes: Sizes) -> io::Result<()> {
    let Sizes {
        answer,
        words,
        places,
    } = sizes;
    print!(rt; ", answer {answer}, words {words}, places {places}:")?;
    let mut work = [7u64; 514];
    let mut page = [9u16; 64];
    let work_end = words.min(514);
    let page_end = places.min(64);
    let r = engine::closest(
        lent.week.m,
        lent.packages,
        lent.week.optional,
        lent.order,
        t,
        answer,
        list,
        &mut work[..work_end],
        &mut page[..page_end],
    );
    print_compared(rt, r)?;
    print!(rt; ", page")?;
    print_list(rt, &page[..5])?;
    println!(rt)
}

// The answer, the working words and the places of a question, and its list.
type Question = (u32, usize, usize, &'static [u16]);

fn questions(rt: &impl Print, lent: Lent, t: &[u32], rows: &[Question]) -> io::Result<()> {
    for (answer, words, places, list) in rows {
        print!(rt; "list")?;
        print_list(rt, list)?;
        let sizes = Sizes {
            answer: *answer,
            words: *words,
            places: *places,
        };
        ask(rt, lent, t, list, sizes)?;
    }
    Ok(())
}

// All items of the week are covered, and then the questions are asked.
fn show(rt: &impl Print, lent: Lent, rows: &[Question]) -> io::Result<()> {
    let mut t = [0u32; 61];
    lent.cover(rt, &mut t, lent.week.d)?;
    questions(rt, lent, &t, rows)
}

// ---- the figure

const ON_FIGURE: [Question; 19] = [
    // The timetables are 0 2 and 1 4 2.
    (5, 6, 3, &[]),
    (5, 6, 3, &[1, 4]),
    (5, 6, 2, &[0, 2]),
    (5, 6, 3, &[1, 4, 2]),
    (5, 6, 3, &[3]),
    (5, 6, 3, &[0, 1, 3, 4, 2]),
    // A part of it, and the empty timetable alone.
    (4, 5, 3, &[0, 2]),
    (1, 2, 0, &[3]),
    (1, 2, 0, &[]),
    // Refusals, most where those behind them apply too: an unknown answer, lists out of precedence, repeating and with an unknown package, too few words, nothing
    // to choose from, a short page.
    (6, 0, 0, &[5]),
    (0, 0, 0, &[5]),
    (5, 6, 3, &[1, 4, 5]),
    (5, 6, 3, &[1, 2, 4]),
    (5, 6, 3, &[0, 2, 2]),
    (0, 0, 0, &[]),
    (5, 5, 0, &[0, 2]),
    (0, 1, 0, &[]),
    (5, 6, 2, &[1, 4]),
    (5, 6, 1, &[]),
];

const ON_SPOILT: [Question; 1] = [(6, 0, 0, &[5])];

const ON_REVERSED: [Question; 3] = [
    (5, 6, 3, &[1, 4, 2]),
    (5, 6, 3, &[2, 4, 1]),
    (5, 6, 3, &[2, 4]),
];

// What the calls on a week are lent; the items below m are covered.
fn week(m: u32, optional: Items) -> Week {
    Week {
        m,
        optional,
        d: itemset::all_below(m),
        words: 256,
        shown: 3,
    }
}

// Figure 1 of document 000, numbered from 0: {0, 1, 2, 4}, {0, 1}, {3, 5}, {2, 3, 5}, {2, 4}.
const FIGURE: [u64; 15] = [23, 0, 0, 3, 0, 0, 40, 0, 0, 44, 0, 0, 20, 0, 0];

const PLAIN: [u8; 6] = [0, 1, 2, 3, 4, 5];

const REVERSED: [u8; 6] = [5, 4, 3, 2, 1, 0];

fn figure(rt: &impl Print) -> io::Result<()> {
    let plain = Lent {
        week: week(6, NO_ITEMS),
        packages: &FIGURE,
        order: &PLAIN,
    };
    print!(rt; "figure 1:")?;
    show(rt, plain, &ON_FIGURE)?;
    // The table has no room for the node that it says it has.
    println!(rt; "figure 1, spoilt table")?;
    questions(rt, plain, &[1], &ON_SPOILT)?;
    // In the reversed order package 2 comes first.
    let reversed = Lent {
        order: &REVERSED,
        ..plain
    };
    print!(rt; "figure 1, order 5 4 3 2 1 0:")?;
    show(rt, reversed, &ON_REVERSED)
}

// ---- small weeks

const ON_EQUALS: [Question; 3] = [(3, 4, 1, &[]), (3, 4, 1, &[0, 1]), (3, 4, 1, &[1])];

fn equals(rt: &impl Print) -> io::Result<()> {
    rt.print("packages {0}, {0}:")?;
    let lent = Lent {
        week: week(1, NO_ITEMS),
        packages: &[1, 0, 0, 1, 0, 0],
        order: &PLAIN[..1],
    };
    show(rt, lent, &ON_EQUALS)
}

// Packages 1 and 2 share item 2.
const ON_SLOTS: [Question; 3] = [
    (5, 6, 2, &[1, 2]),
    (5, 6, 2, &[1]),
    (5, 6, 2, &[0, 1, 2, 3]),
];

fn slots(rt: &impl Print) -> io::Result<()> {
    rt.print("packages {0}, {0, 2}, {1, 2}, {1}, item 2 optional:")?;
    let lent = Lent {
        week: week(
            3,
            Items {
                w0: 4,
                w1: 0,
                w2: 0,
            },
        ),
        packages: &[1, 0, 0, 5, 0, 0, 6, 0, 0, 2, 0, 0],
        order: &PLAIN[..3],
    };
    show(rt, lent, &ON_SLOTS)
}

// ---- the longest list

// Eight packages for each of 64 items: package p has the item p / 8.
fn eights() -> [[u64; 3]; 512] {
    let mut packages = [[0; 3]; 512];
    for p in 0..512 {
        packages[p][0] = 1 << (p / 8);
    }
    packages
}

fn all() -> [u16; 512] {
    let mut list = [0; 512];
    for p in 0..512 {
        list[p] = p as u16;
    }
    list
}

// A timetable has one package of each item; all are as close, and the first is given, though count cannot tell how many there are.
fn ask_each(rt: &impl Print, packages: &[u64], plain: &[u8; 192]) -> io::Result<()> {
    let lent = Lent {
        week: week(64, NO_ITEMS),
        packages,
        order: &plain[..64],
    };
    let list = all();
    let mut t = [0u32; 1537];
    lent.cover(rt, &mut t, lent.week.d)?;
    for (words, places) in [(513, 64), (514, 63), (514, 64)] {
        let sizes = Sizes {
            answer: 513,
            words,
            places,
        };
        print!(rt; "list 0 to 511")?;
        ask(rt, lent, &t, &list, sizes)?;
    }
    Ok(())
}

fn longest(rt: &impl Print) -> io::Result<()> {
    print!(rt; "items 0 to 63 in eight packages each:")?;
    let packages = eights();
    ask_each(rt, packages.as_flattened(), &exact_cover::plain_order())
}

fn main(rt: HostRuntime) -> io::Result<()> {
    figure(&rt)?;
    equals(&rt)?;
    slots(&rt)?;
    longest(&rt)
}
