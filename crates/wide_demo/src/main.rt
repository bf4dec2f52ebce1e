// Weeks of up to 192 items by the public calls, in the plain order: sets that reach over all three words, the limits of M, D, packages and working words, and
// dominoes on more cells than one word has. A line gives nodes made, steps and timetables, or the refusal of cover.
#![tactic(auto)]

ghost use Rattle.std.specs.Prelude.{◌≤◌, ◌<◌};

use itemset::Items;
use std::io;
use weeks::{LARGEST, Lent, NO_ITEMS, Week};

// Cover of d, in the plain order of all m items; of more than 192 there is none.
fn run(rt: &impl Print, m: u32, packages: &[u64], d: Items, words: usize) -> io::Result<()> {
    let plain = exact_cover::plain_order();
    let lent = (m as usize).min(192);
    let week = Week {
        m,
        optional: NO_ITEMS,
        d,
        words,
        shown: 0,
    };
    Lent {
        week,
        packages,
        order: &plain[0..lent],
    }
    .run_unnumbered(rt)
}

// All items of the packages.
fn items(packages: &[u64]) -> Items {
    let mut d = [0u64; 3];
    for (i, word) in packages.iter().enumerate() {
        d[i % 3] |= word;
    }
    itemset::read(&d, 0)
}

// ---- Figure 1 of document 000, over three words

// Item i of the figure is 64 * (i / 2) + i % 2. Two words are left over: taken for {0, 1} once more, they would give a third timetable.
const FIGURE: [u64; 17] = [3, 1, 1, 3, 0, 0, 0, 2, 2, 0, 3, 2, 0, 1, 1, 3, 0];

const WHOLE: Items = Items {
    w0: 3,
    w1: 3,
    w2: 3,
};

// The figure with so many working words: P is a quarter of them, rounded down.
fn in_working_words(rt: &impl Print) -> io::Result<()> {
    for words in [12, 16, 20, 28, 256, 3, 4, 5, 6, 7] {
        print!(rt; "figure 1 in working words {words}, places {}:", words / 4)?;
        run(rt, 130, &FIGURE[0..15], WHOLE, words)?;
    }
    Ok(())
}

// The figure with so many words of its packages: N is a third of them, rounded down.
fn in_package_words(rt: &impl Print) -> io::Result<()> {
    for words in 14..18 {
        print!(rt;
            "figure 1 in package words {words}, packages {}:",
            words / 3
        )?;
        run(rt, 130, &FIGURE[0..words], WHOLE, 256)?;
    }
    Ok(())
}

// ---- the limits of M

// Item 63 of a word, all others, and all but item 0.
const LAST: u64 = 1 << 63;

const LOWER: u64 = LAST - 1;

const UPPER: u64 = u64::MAX - 1;

// {63, 64}, {191}, the items that these have not, and {63, 64, 191}.
const WEEK: [u64; 12] = [LAST, 1, 0, 0, 0, LAST, LOWER, UPPER, LOWER, LAST, 1, LAST];

// M, and how many packages of the week.
const LIMITS: [(u32, usize); 6] = [
    (192, 4),
    (193, 4),
    // The second package has item 191, which is M, and then above it.
    (191, 4),
    (128, 4),
    // Of the first package and D only D has it.
    (191, 1),
    (128, 1),
];

// All 192 items with the first packages of the week.
fn limits(rt: &impl Print) -> io::Result<()> {
    for (m, packages) in LIMITS {
        print!(rt; "192 items with M {m}, packages {packages}:")?;
        let n = packages.min(4);
        run(rt, m, &WEEK[0..3 * n], itemset::all_below(192), 256)?;
    }
    Ok(())
}

// ---- dominoes

// Item i, below 192, goes into the package.
fn put_item(package: &mut [u64; 3], i: u32) {
    package[(i / 64 % 3) as usize] |= 1 << (i % 64);
}

// A domino on the items i and j goes behind the first n packages if there is room; returns how many there are then.
fn put(packages: &mut [[u64; 3]], n: usize, i: u32, j: u32) -> usize {
    if packages.len() <= n {
        return n;
    }
    let mut domino = [0u64; 3];
    put_item(&mut domino, i);
    put_item(&mut domino, j);
    packages[n] = domino;
    n + 1
}

// All domino placings, rows in turn; of two that begin at the same cell the one along the row is first. One cell is `next` items behind the other, one row `row`
// items, and the items of all cells are below `end`.
fn dominoes(packages: &mut [[u64; 3]], next: u32, row: u32, end: u32)
    requires next_nonzero { 0 < next }
    requires next_le_row { next ≤ row }
    requires row_bound { row ≤ 192 }
    requires end_bound { end ≤ 192 }
{
    let mut n = 0;
    for i in (0..end).step_by(next as usize) {
        if i % row < row - next {
            n = put(packages, n, i, i + next);
        }
        if i + row < end {
            n = put(packages, n, i, i + row);
        }
    }
}

// All items of the placings are covered, with the largest memo.
fn run_dominoes(rt: &impl Print, name: &str, m: u32, placings: &[[u64; 3]]) -> io::Result<()> {
    let packages = placings.as_flattened();
    print!(rt; "{name}:")?;
    run(rt, m, packages, items(packages), LARGEST)
}

fn main(rt: HostRuntime) -> io::Result<()> {
    in_working_words(&rt)?;
    in_package_words(&rt)?;
    limits(&rt)?;
    let mut placings = [[0u64; 3]; 112];
    dominoes(&mut placings, 3, 24, 192);
    run_dominoes(&rt, "domino.8.8 at every third item of 190", 190, &placings)?;
    let mut placings = [[0u64; 3]; 180];
    dominoes(&mut placings, 1, 10, 100);
    run_dominoes(&rt, "domino.10.10", 100, &placings)
}
