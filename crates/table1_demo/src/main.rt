// Three instances of document 000's Table 1, covered and counted by the public calls in the plain order of the items: nodes made, steps, timetables.
#![tactic(auto)]

ghost use Rattle.std.specs.Prelude.{◌≤◌};

use std::io;
use weeks::{LARGEST, Lent, NO_ITEMS, Week};

// bell-09: all non-empty sets of 9 items.
fn bell() -> [[u64; 3]; 511] {
    let mut packages = [[0u64; 3]; 511];
    for (package, x) in packages.iter_mut().zip(1..512) {
        package[0] = x;
    }
    packages
}

// doublefact-17: all pairs of 18 items.
fn pairs() -> [[u64; 3]; 153] {
    let mut packages = [[0u64; 3]; 153];
    let twos = (1u64..1 << 18).filter(|x| x.count_ones() == 2);
    for (package, x) in packages.iter_mut().zip(twos) {
        package[0] = x;
    }
    packages
}

// The package, of items below 64, goes behind the first n if there is room; returns how many there are then.
fn put(packages: &mut [[u64; 3]], n: usize, items: u64) -> usize {
    if packages.len() <= n {
        return n;
    }
    packages[n][0] = items;
    n + 1
}

// domino.8.8: all domino placings on 8 by 8 cells, rows in turn; of two that begin at the same cell the one along the row is first.
fn dominoes() -> [[u64; 3]; 112] {
    let mut packages = [[0u64; 3]; 112];
    let mut n = 0;
    for cell in 0..64u32 {
        if cell % 8 < 7 {
            n = put(&mut packages, n, 3 << cell);
        }
        if cell < 56 {
            n = put(&mut packages, n, 257 << cell);
        }
    }
    packages
}

// All m items are covered, with the largest memo.
fn run(rt: &impl Print, name: &str, m: u32, packages: &[[u64; 3]]) -> io::Result<()>
    requires { m ≤ 192 }
{
    let plain = exact_cover::plain_order();
    let week = Week {
        m,
        optional: NO_ITEMS,
        d: itemset::all_below(m),
        words: LARGEST,
        shown: 0,
    };
    print!(rt; "{name}")?;
    Lent {
        week,
        packages: packages.as_flattened(),
        order: &plain[0..m as usize],
    }
    .run_unnumbered(rt)
}

fn main(rt: HostRuntime) -> io::Result<()> {
    run(&rt, "bell-09", 9, &bell())?;
    run(&rt, "doublefact-17", 18, &pairs())?;
    run(&rt, "domino.8.8", 64, &dominoes())
}
