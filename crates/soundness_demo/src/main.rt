// Runs the soundness check over hand-made tables, good and damaged, and prints 0 for sound or the number of the refusal.
#![tactic(auto)]

ghost use Rattle.std.specs.Prelude.{◌<◌};

use itemset::Items;
use statement::Refusal;
use std::io;
use weeks::NO_ITEMS;

// ---- the packages

// Item 191, in the highest word.
const LAST: u64 = 1 << 63;

// Five packages each, three words a package. Figure 1 of document 000, numbered from 0.
const FIGURE: [u64; 15] = [23, 0, 0, 3, 0, 0, 40, 0, 0, 44, 0, 0, 20, 0, 0];

const HIGHEST: [u64; 15] = [0, 0, LAST, 0, 0, 0, 0, 0, 0, 0, 0, 0, 0, 0, 0];

const ONES: [u64; 15] = [1, 0, 0, 1, 0, 0, 1, 0, 0, 1, 0, 0, 1, 0, 0];

const EMPTY: [u64; 15] = [0; 15];

// The second is empty.
const GAP: [u64; 15] = [3, 0, 0, 0, 0, 0, 4, 0, 0, 4, 0, 0, 4, 0, 0];

// The second has item 6.
const STRAY: [u64; 15] = [3, 0, 0, 64, 0, 0, 4, 0, 0, 4, 0, 0, 4, 0, 0];

// Those behind the fifth are as the fifth.
fn packages(first: [u64; 15]) -> [u64; 1539] {
    let mut p = [0u64; 1539];
    for (i, word) in p.iter_mut().enumerate() {
        *word = if i < 15 { first[i] } else { first[12 + i % 3] };
    }
    p
}

// ---- the optional items

fn low(word: u64) -> Items {
    Items {
        w0: word,
        w1: 0,
        w2: 0,
    }
}

// ---- the orders

#[derive(Clone, Copy)]
enum Order {
    // Of all m items.
    Plain,
    Listed(&'static [u8]),
}

// ---- the tables

#[derive(Clone, Copy)]
enum Table {
    // Zeros follow.
    Words([u32; 16]),
    // Of 65,534 nodes.
    Full,
}

// The diagram of figure 1: 2 is {2}; 3 is {4, 2}; 4 is {1, 4, 2}; 5 is {0, 2} and {1, 4, 2}. Room for one node more.
const DIAGRAM: Table = Table::Words([4, 2, 0, 1, 4, 0, 2, 1, 0, 3, 0, 4, 2, 0, 0, 0]);

const ZEROS: Table = Table::Words([0; 16]);

// A triple twice.
const TWICE: Table = Table::Words([2, 2, 0, 1, 2, 0, 1, 0, 0, 0, 0, 0, 0, 0, 0, 0]);

// One node: 2 is {0}.
const LEAF: Table = Table::Words([1, 0, 0, 1, 0, 0, 0, 0, 0, 0, 0, 0, 0, 0, 0, 0]);

// No table in 4 words: n is above the capacity.
const TWOS: Table = Table::Words([2, 2, 2, 2, 0, 0, 0, 0, 0, 0, 0, 0, 0, 0, 0, 0]);

// The diagram in the order 5 4 3 2 1 0: 2 is {1}; 3 is {4, 1}; 4 is {0} and {4, 1}; 5 is {2, 0} and {2, 4, 1}.
const TURNED: Table = Table::Words([4, 1, 0, 1, 4, 0, 2, 0, 3, 1, 2, 0, 4, 0, 0, 0]);

// The label, lo or hi of node k, by the word's number.
fn part(i: u32, k: u32, label: u32, width: u32) -> u32
    requires { 0 < width }
{
    match i % 3 {
        1 => label,
        2 => k % width,
        _ => k / width,
    }
}

// Word i of the full table. It has labels 511 to 508, with every pair of children whose labels are later: 2 + 12 + 240 + 65,280 nodes. The word is of node k,
// whose children are below the width.
fn full(i: u32) -> u32
    requires { i < 196603 }
{
    if i == 0 {
        return 65534;
    }
    let k = (i + 5) / 3;
    match k {
        0..=3 => part(i, k, 511, 2),
        4..=15 => part(i, k, 510, 4),
        16..=255 => part(i, k, 509, 16),
        _ => part(i, k, 508, 256),
    }
}

fn fill(t: &mut [u32; 196613]) {
    for i in 0..196603 {
        t[i as usize] = full(i);
    }
}

fn words(kind: Table) -> [u32; 196613] {
    let mut t = [0u32; 196613];
    match kind {
        Table::Words(words) => t[0..16].copy_from_slice(&words),
        Table::Full => fill(&mut t),
    }
    t
}

// ---- the check

// What the check is asked: M; how many packages, and the first five of them; which items are optional; which order is lent; how many words, and of which table; and
// a word that is changed in it, and what it becomes.
#[derive(Clone, Copy)]
struct Case {
    m: u32,
    number: usize,
    packages: [u64; 15],
    optional: Items,
    order: Order,
    words: usize,
    table: Table,
    changed: Option<(usize, u32)>,
}

const FIGURE_1: Case = Case {
    m: 6,
    number: 5,
    packages: FIGURE,
    optional: NO_ITEMS,
    order: Order::Plain,
    words: 16,
    table: DIAGRAM,
    changed: None,
};

fn check(c: Case) -> Result<(), Refusal> {
    let packages = packages(c.packages);
    let n = c.number.min(513);
    let mut t = words(c.table);
    if let Some((i, word)) = c.changed
        && i < 196613
    {
        t[i] = word;
    }
    let words = c.words.min(196613);
    let plain = exact_cover::plain_order();
    let items = (c.m as usize).min(192);
    let order = match c.order {
        Order::Plain => &plain[0..items],
        Order::Listed(listed) => listed,
    };
    engine::check(c.m, &packages[0..3 * n], c.optional, order, &t[0..words])
}

fn show(rt: &impl Print, name: &str, c: Case) -> io::Result<()> {
    match check(c) {
        Ok(_) => println!(rt; "{name}: 0"),
        Err(refusal) => println!(rt; "{name}: {}", refusal.number()),
    }
}

// ---- the cases

const OTHER_TABLES: [(&str, usize, Table); 5] = [
    ("the diagram of figure 1", 16, DIAGRAM),
    ("all zeros", 16, ZEROS),
    ("one word", 1, ZEROS),
    ("no word", 0, DIAGRAM),
    ("a triple twice", 10, TWICE),
];

fn show_tables(rt: &impl Print) -> io::Result<()> {
    for (name, words, table) in OTHER_TABLES {
        let case = Case {
            words,
            table,
            ..FIGURE_1
        };
        show(rt, name, case)?;
    }
    Ok(())
}

// Each clause broken once, by a word and what it becomes.
const BROKEN: [(usize, u32); 15] = [
    // n above the nodes written, above the capacity, of 32 bits, and below the nodes.
    (0, 5),
    (0, 6),
    (0, u32::MAX),
    (0, 3),
    // Label N.
    (1, 5),
    // lo the node itself, and a later number.
    (11, 5),
    (11, 6),
    // hi the node itself, and 0.
    (12, 5),
    (12, 0),
    // lo with the same label, and an earlier one; hi with an earlier label.
    (10, 1),
    (10, 2),
    (7, 2),
    // A nonzero word behind the last node, and at the end.
    (13, 1),
    (14, 1),
    (15, 1),
];

fn show_broken(rt: &impl Print) -> io::Result<()> {
    for (i, word) in BROKEN {
        let case = Case {
            changed: Some((i, word)),
            ..FIGURE_1
        };
        print!(rt; "word {i} set to {word}")?;
        show(rt, "", case)?;
    }
    Ok(())
}

// Refusals 1 and 2 come before 4, and 1 before 2. Label 511 is the last that 512 packages have.
const LIMITS: [(&str, u32, usize, [u64; 15], Table, Option<(usize, u32)>); 11] = [
    ("192 items", 192, 1, HIGHEST, LEAF, None),
    ("193 items", 193, 1, HIGHEST, LEAF, None),
    ("193 items and an empty package", 193, 1, EMPTY, TWOS, None),
    ("512 packages", 1, 512, ONES, LEAF, Some((1, 511))),
    ("513 packages", 1, 513, ONES, LEAF, Some((1, 511))),
    ("513 empty packages", 1, 513, EMPTY, TWOS, None),
    ("an empty package", 6, 3, GAP, TWOS, None),
    ("an item of M", 6, 3, STRAY, TWOS, None),
    ("the same with M one more", 7, 3, STRAY, TWOS, None),
    ("M 0 and no package", 0, 0, EMPTY, ZEROS, None),
    ("M 0 and a package", 0, 1, ONES, ZEROS, None),
];

fn show_limits(rt: &impl Print) -> io::Result<()> {
    for (name, m, number, packages, table, changed) in LIMITS {
        let case = Case {
            m,
            number,
            packages,
            words: 4,
            table,
            changed,
            ..FIGURE_1
        };
        show(rt, name, case)?;
    }
    Ok(())
}

// A table of 65,534 nodes, in a slice that is just long enough and in longer ones. A scan of the table for each node would take seconds.
const FULL: [(&str, usize, Option<(usize, u32)>); 7] = [
    ("65534 nodes", 196603, None),
    ("one word less", 196602, None),
    ("ten words more", 196613, None),
    ("ten words more, the last not 0", 196613, Some((196612, 7))),
    ("65535 nodes", 196613, Some((0, 65535))),
    ("65533 nodes and one behind them", 196613, Some((0, 65533))),
    (
        "65534 nodes, the last as an earlier one",
        196613,
        Some((196602, 254)),
    ),
];

fn show_full(rt: &impl Print) -> io::Result<()> {
    for (name, words, changed) in FULL {
        let case = Case {
            m: 1,
            number: 512,
            packages: ONES,
            words,
            table: Table::Full,
            changed,
            ..FIGURE_1
        };
        show(rt, name, case)?;
    }
    Ok(())
}

const ITEM_191: Items = Items {
    w0: 0,
    w1: 0,
    w2: LAST,
};

// A table is sound by the lowest compulsory items. 29 comes behind 1 and 2, 30 behind 29, and 4 behind both.
fn show_optional(rt: &impl Print) -> io::Result<()> {
    let word_0 = Some((0, 5));
    for (name, m, optional, changed) in [
        // The figure's lowest compulsory items are its lowest ones.
        ("figure 1 with item 4 optional", 6, low(16), None),
        // Its package 2 comes before 4.
        ("figure 1 with item 2 optional", 6, low(4), None),
        // Its package 4 has no compulsory item.
        ("a package of optional items", 6, low(20), None),
        ("the same and word 0 set to 5", 6, low(20), word_0),
        ("the same and an optional item of M", 6, low(84), word_0),
        ("the same with M one more", 7, low(84), word_0),
    ] {
        let case = Case {
            m,
            optional,
            changed,
            ..FIGURE_1
        };
        show(rt, name, case)?;
    }
    Ok(())
}

fn show_stray(rt: &impl Print) -> io::Result<()> {
    let case = Case {
        number: 3,
        packages: STRAY,
        optional: low(84),
        changed: Some((0, 5)),
        ..FIGURE_1
    };
    show(rt, "an item of M optional and in a package", case)
}

fn show_item_191(rt: &impl Print) -> io::Result<()> {
    for m in [192, 191, 193] {
        let case = Case {
            m,
            optional: ITEM_191,
            ..FIGURE_1
        };
        print!(rt; "item 191 optional with M {m}")?;
        show(rt, "", case)?;
    }
    Ok(())
}

const REVERSED: Order = Order::Listed(&[5, 4, 3, 2, 1, 0]);

const REPEATED: Order = Order::Listed(&[0, 1, 2, 3, 4, 4]);

// No item and no package, with an order.
fn show_empty(rt: &impl Print, name: &str, order: Order) -> io::Result<()> {
    let case = Case {
        m: 0,
        number: 0,
        packages: EMPTY,
        order,
        words: 4,
        table: ZEROS,
        ..FIGURE_1
    };
    show(rt, name, case)
}

// The packages of the figure, with an order.
fn show_order(rt: &impl Print, name: &str, order: Order, table: Table) -> io::Result<()> {
    let case = Case {
        order,
        table,
        ..FIGURE_1
    };
    show(rt, name, case)
}

// 34 comes behind 30, and 4 behind it.
fn show_repeated(rt: &impl Print) -> io::Result<()> {
    let repeated = Case {
        order: REPEATED,
        ..FIGURE_1
    };
    let optional = Case {
        optional: low(20),
        ..repeated
    };
    let broken = Case {
        changed: Some((0, 5)),
        ..repeated
    };
    let name = "a package of optional items and an item twice in the order";
    show(rt, name, optional)?;
    show(rt, "an item twice in the order and word 0 set to 5", broken)
}

// A table is sound by the items that come first in the order.
fn show_orders(rt: &impl Print) -> io::Result<()> {
    let short = Order::Listed(&[0, 1, 2, 3, 4]);
    let long = Order::Listed(&[0, 1, 2, 3, 4, 5, 6]);
    let unknown = Order::Listed(&[0, 1, 2, 3, 4, 6]);
    show_order(rt, "an item twice in the order", REPEATED, DIAGRAM)?;
    show_order(rt, "the order one item short", short, DIAGRAM)?;
    show_order(rt, "the order one item too long", long, DIAGRAM)?;
    show_order(rt, "an item of M in the order", unknown, DIAGRAM)?;
    show_empty(rt, "M 0 and an empty order", Order::Plain)?;
    show_empty(rt, "M 0 and an item in the order", Order::Listed(&[0]))?;
    show_repeated(rt)?;
    show_order(rt, "figure 1 in the reversed order", REVERSED, DIAGRAM)?;
    show_order(rt, "the diagram of the reversed order", REVERSED, TURNED)?;
    show_order(rt, "the same in the plain order", Order::Plain, TURNED)
}

fn main(rt: HostRuntime) -> io::Result<()> {
    show_tables(&rt)?;
    show_broken(&rt)?;
    show_limits(&rt)?;
    show_full(&rt)?;
    show_optional(&rt)?;
    show_stray(&rt)?;
    show_item_191(&rt)?;
    show_orders(&rt)
}
