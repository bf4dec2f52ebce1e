// The kiosk's two calls on lists of triples, good and damaged, with optional items, and in the plain order and others: Figure 1 of document 000, whose answer is number 5
// and holds two timetables.
#![tactic(auto)]

use itemset::Items;
use kiosk::Node;
use statement::Refusal;
use std::io;

// ---- lists of triples

fn node(label: u32, lo: u32, hi: u32) -> Node {
    Node { label, lo, hi }
}

const ZERO: Node = Node {
    label: 0,
    lo: 0,
    hi: 0,
};

// Number 2 holds {2} and number 3 {4, 2}: the first two triples of every list but two.
fn list(third: Node, fourth: Node, fifth: Node, sixth: Node) -> [Node; 6] {
    [node(2, 0, 1), node(4, 0, 2), third, fourth, fifth, sixth]
}

// Number 4 holds {1, 4, 2}, and number 5 that and {0, 2}.
fn figure(fifth: Node, sixth: Node) -> [Node; 6] {
    list(node(1, 0, 3), node(0, 4, 2), fifth, sixth)
}

// The figure's triples with packages 2 and 4 exchanged: 2 comes before 4.
fn exchanged() -> [Node; 6] {
    [
        node(4, 0, 1),
        node(2, 0, 2),
        node(1, 0, 3),
        node(0, 4, 2),
        ZERO,
        ZERO,
    ]
}

// The figure's triples in the reversed order: number 5 holds {2, 0} and {2, 4, 1}.
fn turned() -> [Node; 6] {
    [
        node(1, 0, 1),
        node(4, 0, 2),
        node(0, 3, 1),
        node(2, 0, 4),
        ZERO,
        ZERO,
    ]
}

// ---- the two calls

// A set of items below 64.
fn low(word: u64) -> Items {
    Items {
        w0: word,
        w1: 0,
        w2: 0,
    }
}

const ITEM_191: Items = Items {
    w0: 0,
    w1: 0,
    w2: 9223372036854775808,
};

const REVERSED: [u8; 6] = [5, 4, 3, 2, 1, 0];

const REPEATED: [u8; 6] = [0, 1, 2, 3, 4, 4];

// The packages of Figure 1, three words each: {0, 1, 2, 4}, {0, 1}, {3, 5}, {2, 3, 5}, {2, 4}.
const FIGURE: [u64; 15] = [23, 0, 0, 3, 0, 0, 40, 0, 0, 44, 0, 0, 20, 0, 0];

// What the calls are lent besides the figure's packages. With no order of its own a case has the plain one.
#[derive(Clone, Copy)]
struct Case {
    name: &'static str,
    m: u32,
    optional: Items,
    order: Option<&'static [u8]>,
    n: u32,
    list: [Node; 6],
    answer: u32,
}

// The figure's four nodes, with nothing wrong.
fn on_figure(name: &'static str) -> Case {
    Case {
        name,
        m: 6,
        optional: low(0),
        order: None,
        n: 4,
        list: figure(ZERO, ZERO),
        answer: 5,
    }
}

fn show_soundness(rt: &impl Print, name: &str, s: Result<(), Refusal>) -> io::Result<()> {
    match s {
        Ok(_) => println!(rt; "{name}: check sound"),
        Err(refusal) => println!(rt; "{name}: check {refusal}"),
    }
}

fn show_counted(rt: &impl Print, name: &str, c: Result<u64, Refusal>) -> io::Result<()> {
    match c {
        Ok(n) => println!(rt; "{name}: count {n}"),
        Err(refusal) => println!(rt; "{name}: count {refusal}"),
    }
}

fn run(rt: &impl Print, c: &Case) -> io::Result<()> {
    let plain = exact_cover::plain_order();
    let items = (c.m as usize).min(192);
    let order = c.order.unwrap_or(&plain[..items]);
    let s = kiosk::check(c.m, &FIGURE, c.optional, order, c.n, &c.list);
    show_soundness(rt, c.name, s)?;
    let mut work = [0u64; 6];
    let k = kiosk::count(
        c.m, &FIGURE, c.optional, order, c.n, &c.list, c.answer, &mut work,
    );
    show_counted(rt, c.name, k)
}

fn run_all(rt: &impl Print, cases: &[Case]) -> io::Result<()> {
    for c in cases {
        run(rt, c)?;
    }
    Ok(())
}

// ---- cases

fn good() -> [Case; 8] {
    let six = figure(node(1, 0, 2), node(0, 0, 1));
    [
        on_figure("answer 5"),
        Case {
            answer: 4,
            ..on_figure("answer 4")
        },
        Case {
            answer: 1,
            ..on_figure("answer 1")
        },
        Case {
            answer: 0,
            ..on_figure("answer 0")
        },
        Case {
            answer: 6,
            ..on_figure("answer 6")
        },
        Case {
            n: 6,
            list: six,
            ..on_figure("six nodes")
        },
        Case {
            n: 6,
            list: six,
            answer: 6,
            ..on_figure("short work")
        },
        Case {
            n: 0,
            list: [ZERO; 6],
            answer: 1,
            ..on_figure("no node")
        },
    ]
}

// The number of nodes is not the list's.
fn misnumbered() -> [Case; 8] {
    [
        Case {
            n: 3,
            answer: 4,
            ..on_figure("triple past the number")
        },
        Case {
            list: figure(ZERO, node(1, 0, 0)),
            ..on_figure("label past the number")
        },
        Case {
            list: figure(ZERO, node(0, 1, 0)),
            ..on_figure("lo past the number")
        },
        Case {
            list: figure(ZERO, node(0, 0, 1)),
            ..on_figure("hi past the number")
        },
        Case {
            n: 5,
            ..on_figure("number of zeros")
        },
        Case {
            n: 7,
            ..on_figure("number above the length")
        },
        Case {
            n: 65535,
            ..on_figure("number above 65534")
        },
        Case {
            n: 4294967295,
            ..on_figure("greatest number")
        },
    ]
}

fn damaged() -> [Case; 5] {
    let third = node(1, 0, 3);
    let fourth = node(0, 4, 2);
    [
        Case {
            list: list(node(1, 3, 0), fourth, ZERO, ZERO),
            ..on_figure("lo and hi exchanged")
        },
        Case {
            n: 5,
            list: list(third, fourth, third, ZERO),
            ..on_figure("triple twice")
        },
        Case {
            list: list(third, node(5, 4, 2), ZERO, ZERO),
            ..on_figure("unknown label")
        },
        Case {
            m: 5,
            ..on_figure("stray")
        },
        Case {
            m: 193,
            ..on_figure("oversize")
        },
    ]
}

// Packages come in the order of their lowest compulsory items. Item 4 is no package's lowest item; without item 2, package 4 has item 4 alone, and is last.
fn optional() -> [Case; 4] {
    let other = exchanged();
    [
        Case {
            optional: low(16),
            ..on_figure("item 4 optional")
        },
        Case {
            optional: low(4),
            ..on_figure("item 2 optional")
        },
        Case {
            optional: low(4),
            list: other,
            ..on_figure("2 before 4, item 2 optional")
        },
        Case {
            list: other,
            ..on_figure("2 before 4, nothing optional")
        },
    ]
}

// 29 and 30 come behind 1 and 2, 30 behind 29, and 4 behind both: all but two of the lists have a wrong number of nodes. Package 4 is {2, 4}.
fn optional_refused() -> [Case; 8] {
    [
        Case {
            optional: low(20),
            ..on_figure("items 2 and 4 optional")
        },
        Case {
            optional: low(20),
            n: 5,
            ..on_figure("items 2 and 4 optional, damaged")
        },
        Case {
            optional: low(84),
            n: 5,
            ..on_figure("items 2, 4 and 6 optional, M 6")
        },
        Case {
            m: 7,
            optional: low(84),
            n: 5,
            ..on_figure("items 2, 4 and 6 optional, M 7")
        },
        Case {
            m: 5,
            optional: low(84),
            n: 5,
            ..on_figure("items 2, 4 and 6 optional, M 5")
        },
        Case {
            m: 192,
            optional: ITEM_191,
            ..on_figure("item 191 optional, M 192")
        },
        Case {
            m: 191,
            optional: ITEM_191,
            n: 5,
            ..on_figure("item 191 optional, M 191")
        },
        Case {
            m: 193,
            optional: ITEM_191,
            n: 5,
            ..on_figure("item 191 optional, M 193")
        },
    ]
}

// 34 comes behind 30, and 4 behind it: the damaged list has a wrong number of nodes.
fn ordered() -> [Case; 6] {
    [
        Case {
            order: Some(&REPEATED),
            ..on_figure("item 4 twice in the order")
        },
        Case {
            order: Some(&REPEATED),
            n: 5,
            ..on_figure("the same, damaged")
        },
        Case {
            order: Some(&REPEATED),
            optional: low(20),
            n: 5,
            ..on_figure("the same, items 2 and 4 optional")
        },
        Case {
            order: Some(&REVERSED),
            ..on_figure("order 5 4 3 2 1 0")
        },
        Case {
            order: Some(&REVERSED),
            list: turned(),
            ..on_figure("order 5 4 3 2 1 0 and its triples")
        },
        Case {
            list: turned(),
            ..on_figure("these triples in the plain order")
        },
    ]
}

fn main(rt: HostRuntime) -> io::Result<()> {
    run_all(&rt, &good())?;
    run_all(&rt, &misnumbered())?;
    run_all(&rt, &damaged())?;
    run_all(&rt, &optional())?;
    run_all(&rt, &optional_refused())?;
    run_all(&rt, &ordered())
}
