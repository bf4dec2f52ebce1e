// Packages withdrawn in mid-term, and room made, by the public calls: three packages of one item, on a table for six nodes. A withdrawal's line gives the withdrawn
// packages, the listed answers and the working words, then the nodes left or the refusal, and the table's words or that they are unchanged; the lines behind it give
// each listed answer, what stands in its place, and the timetables of that by the packages that remain.
#![tactic(auto)]

use statement::Call;
use std::fmt::Display;
use std::io;
use weeks::{Lent, NO_ITEMS, Week};

// A table for six nodes.
type Table = [u32; 19];

// ---- what is printed

fn print_list<T: Display>(rt: &impl Print, list: &[T]) -> io::Result<()> {
    for x in list {
        print!(rt; " {x}")?;
    }
    Ok(())
}

fn print_table(rt: &impl Print, before: &Table, after: &Table) -> io::Result<()> {
    if before == after {
        return println!(rt; ", table unchanged");
    }
    print!(rt; ", table")?;
    print_list(rt, after)?;
    println!(rt)
}

// The listed answers and what stands in their places.
fn print_entries(
    rt: &impl Print,
    lent: Lent,
    t: &Table,
    listed: &[u32],
    entries: &[u32],
) -> io::Result<()> {
    for (answer, entry) in listed.iter().zip(entries) {
        print!(rt; "  {answer}: answer {entry}")?;
        lent.print_timetables(rt, t, *entry)?;
        println!(rt)?;
    }
    Ok(())
}

// ---- one withdrawal

// The working words, the packages that are withdrawn, and at most six answers that are listed.
type Row = (usize, &'static [u16], &'static [u32]);

// The three answers become one, which a cover finds again.
const TO_ONE: Row = (8, &[1, 2], &[6, 7, 4, 6, 0, 1]);

const ROWS: [Row; 11] = [
    // Package 0: those that remain have new numbers.
    (8, &[0], &[4, 6, 7]),
    // All packages.
    (8, &[0, 1, 2], &[4, 6, 0, 1]),
    // No answer listed, and none that has a node: an empty table.
    (8, &[], &[]),
    (8, &[1], &[1, 0]),
    // Nothing withdrawn and all listed.
    (8, &[], &[7, 6, 4]),
    // An unknown answer before a list that does not rise, and that before too few words: what is wrong is put right one after the other.
    (7, &[2, 1], &[4, 8]),
    (7, &[2, 1], &[4, 7]),
    (7, &[1, 2], &[4, 7]),
    (8, &[1, 2], &[4, 7]),
    // An unknown package, and one twice.
    (8, &[2, 3], &[4]),
    (8, &[1, 1], &[4]),
];

const ROOM_MADE: Row = (8, &[], &[4]);

// The withdrawal, and whether it was not refused.
fn ask(
    rt: &impl Print,
    lent: Lent,
    t: &mut Table,
    gone: &[u16],
    answers: &mut [u32],
    words: usize,
) -> io::Result<bool> {
    print!(rt; "withdraw")?;
    print_list(rt, gone)?;
    print!(rt; ", answers")?;
    print_list(rt, answers)?;
    print!(rt; ", words {words}:")?;
    let mut work = [7u64; 8];
    let end = words.min(8);
    let r = engine::withdraw(
        lent.week.m,
        lent.packages,
        lent.week.optional,
        lent.order,
        t,
        gone,
        answers,
        &mut work[..end],
    );
    weeks::print_answer(rt, " nodes", r)?;
    Ok(r.is_ok())
}

// The packages are equal, so the first of them will do for those that remain.
fn withdraw(rt: &impl Print, lent: Lent, t: &mut Table, row: Row) -> io::Result<()> {
    let (words, gone, listed) = row;
    let before = *t;
    let mut entries = [0; 6];
    let n = listed.len().min(6);
    entries[..n].copy_from_slice(&listed[..n]);
    let answered = ask(rt, lent, t, gone, &mut entries[..n], words)?;
    print_table(rt, &before, t)?;
    let withdrawn = if answered { gone.len().min(3) } else { 0 };
    let rest = Lent {
        packages: &PACKAGES[3 * withdrawn..],
        ..lent
    };
    print_entries(rt, rest, t, listed, &entries)
}

// ---- the week

// {0} three times.
const PACKAGES: [u64; 9] = [1, 0, 0, 1, 0, 0, 1, 0, 0];

fn week() -> Week {
    Week {
        m: 1,
        optional: NO_ITEMS,
        d: itemset::all_below(1),
        words: 256,
        shown: 3,
    }
}

// With or without a package.
fn part(rt: &impl Print, lent: Lent, t: &mut Table, name: &str, c: Call) -> io::Result<()> {
    let Week { m, optional, .. } = lent.week;
    let mut work = [0; 2];
    let r = match c {
        Call::With { a, p } => {
            engine::with(m, lent.packages, optional, lent.order, t, a, p, &mut work)
        }
        Call::Without { a, p } => {
            engine::without(m, lent.packages, optional, lent.order, t, a, p, &mut work)
        }
        _ => engine::answer(m, lent.packages, optional, lent.order, t, c, &mut work),
    };
    print!(rt; "{name}:")?;
    lent.print_report(rt, t, r)?;
    println!(rt)
}

fn cover(rt: &impl Print, lent: Lent, t: &mut Table) -> io::Result<()> {
    print!(rt; "cover:")?;
    lent.cover(rt, t, lent.week.d)
}

// All timetables, those without package 2 and those without package 1.
fn plan(rt: &impl Print, lent: Lent, t: &mut Table) -> io::Result<()> {
    cover(rt, lent, t)?;
    part(rt, lent, t, "without 2", Call::Without { a: 4, p: 2 })?;
    part(rt, lent, t, "without 1", Call::Without { a: 4, p: 1 })
}

// The cover of what remains is by one package.
fn to_one(rt: &impl Print, lent: Lent, plan: &Table) -> io::Result<()> {
    let mut t = *plan;
    withdraw(rt, lent, &mut t, TO_ONE)?;
    let rest = Lent {
        packages: &PACKAGES[..3],
        ..lent
    };
    cover(rt, rest, &mut t)
}

// The rows, each on the same table.
fn rows(rt: &impl Print, lent: Lent, plan: &Table) -> io::Result<()> {
    for row in ROWS {
        let mut t = *plan;
        withdraw(rt, lent, &mut t, row)?;
    }
    Ok(())
}

// The table is full, and the timetable of package 0 alone finds no place. With the cover listed, and no other answer, there is room.
fn room(rt: &impl Print, lent: Lent, plan: &Table) -> io::Result<()> {
    let mut t = *plan;
    let only_0 = Call::With { a: 4, p: 0 };
    println!(rt; "with six nodes the table is full")?;
    part(rt, lent, &mut t, "with 0", only_0)?;
    withdraw(rt, lent, &mut t, ROOM_MADE)?;
    part(rt, lent, &mut t, "with 0", only_0)
}

fn main(rt: HostRuntime) -> io::Result<()> {
    let lent = Lent {
        week: week(),
        packages: &PACKAGES,
        order: &[0],
    };
    let mut t = [0; 19];
    rt.println("packages {0}, {0}, {0}, a table for six nodes")?;
    plan(&rt, lent, &mut t)?;
    to_one(&rt, lent, &t)?;
    rows(&rt, lent, &t)?;
    room(&rt, lent, &t)
}
