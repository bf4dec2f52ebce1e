// What the engine can still refuse of weeks that are read from bids files. Of a week as its reader gives it no call says 1, 2, 29 or 30, nor 34 in the plain
// order (document 02, No. 12); each of the other numbers is met here. week1 is document 01's example, week2 the same in version 2 with slot 1 optional. Each
// line behind their covers is a call in which one thing is wrong, in the order of the tests. The week `many` has 2^64 timetables, one more than count can tell.
#![tactic(auto)]

use bids::Bids;
use itemset::Items;
use statement::{Call, Refusal, Report};
use std::rt::Files;
use std::{fs, io};
use weeks::{Lent, NO_ITEMS, Week};

// ---- what is printed

fn print_reading(rt: &impl Print, r: Result<Bids, Refusal>) -> io::Result<()> {
    match r {
        Ok(b) => println!(rt;
            ": schools {} slots {} packages {} optional {}",
            b.schools, b.slots, b.packages, b.optional.w0
        ),
        Err(refusal) => println!(rt; " {refusal}"),
    }
}

// The answer is given back, 0 after a refusal.
fn print_report(rt: &impl Print, r: Report) -> io::Result<u32> {
    match r.outcome {
        Ok(a) => {
            println!(rt; " answer {a} nodes {} steps {}", r.made, r.steps)?;
            Ok(a)
        }
        Err(refusal) => {
            println!(rt; " {refusal}")?;
            Ok(0)
        }
    }
}

// ---- one call, with working words for 1009 places of cover's memo, a prime, or for answers up to 4035

const WORDS: usize = 4036;

fn check(rt: &impl Print, what: &str, lent: Lent, t: &[u32]) -> io::Result<()> {
    print!(rt; "{what}")?;
    let r = engine::check(
        lent.week.m,
        lent.packages,
        lent.week.optional,
        lent.order,
        t,
    );
    match r {
        Ok(_) => println!(rt; " sound"),
        Err(refusal) => println!(rt; " {refusal}"),
    }
}

// A call that makes an answer.
fn make(rt: &impl Print, what: &str, lent: Lent, t: &mut [u32], c: Call) -> io::Result<u32> {
    print!(rt; "{what}")?;
    let r = engine::answer(
        lent.week.m,
        lent.packages,
        lent.week.optional,
        lent.order,
        t,
        c,
        &mut [0u64; WORDS],
    );
    print_report(rt, r)
}

// With so many working words.
fn count(
    rt: &impl Print,
    what: &str,
    lent: Lent,
    t: &[u32],
    a: u32,
    words: usize,
) -> io::Result<u64> {
    let mut work = [0u64; WORDS];
    let end = words.min(WORDS);
    print!(rt; "{what}")?;
    let c = engine::count(
        lent.week.m,
        lent.packages,
        lent.week.optional,
        lent.order,
        t,
        a,
        &mut work[..end],
    );
    weeks::print_answer(rt, " timetables", c)?;
    println!(rt)?;
    Ok(c.unwrap_or(0))
}

fn cheapest(
    rt: &impl Print,
    what: &str,
    lent: Lent,
    costs: &[u16],
    t: &[u32],
    a: u32,
) -> io::Result<()> {
    print!(rt; "{what}")?;
    let r = engine::cheapest(
        lent.week.m,
        lent.packages,
        lent.week.optional,
        lent.order,
        costs,
        t,
        a,
        &mut [0u64; WORDS],
        &mut [0u16; 64],
    );
    weeks::print_priced(rt, r)?;
    println!(rt)
}

fn place(
    rt: &impl Print,
    what: &str,
    lent: Lent,
    t: &[u32],
    a: u32,
    list: &[u16],
) -> io::Result<()> {
    print!(rt; "{what}")?;
    let r = engine::place(
        lent.week.m,
        lent.packages,
        lent.week.optional,
        lent.order,
        t,
        a,
        list,
        &mut [0u64; WORDS],
    );
    weeks::print_answer(rt, " place", r)?;
    println!(rt)
}

fn pick(
    rt: &impl Print,
    what: &str,
    lent: Lent,
    t: &[u32],
    a: u32,
    k: u64,
    page: &mut [u16],
) -> io::Result<()> {
    print!(rt; "{what}")?;
    let r = engine::pick(
        lent.week.m,
        lent.packages,
        lent.week.optional,
        lent.order,
        t,
        a,
        k,
        &mut [0u64; WORDS],
        page,
    );
    weeks::print_answer(rt, " packages", r)?;
    println!(rt)
}

// ---- a week from its file

#[derive(Clone, Copy)]
enum Version {
    One,
    Two,
}

fn read<R: Files>(
    rt: &R,
    name: &str,
    version: Version,
    packages: &mut [u64],
    costs: &mut [u16],
) -> io::Result<Result<Bids, Refusal>> {
    let mut file = [0u8; 6285];
    let n = console::read_full(&mut fs::open(rt, name)?, &mut file)?;
    Ok(match version {
        Version::One => bids::read(&file[..n], packages, costs),
        Version::Two => bids::read2(&file[..n], packages, costs),
    })
}

// All M items are to be covered.
fn week(m: u32, optional: Items) -> Week {
    Week {
        m,
        optional,
        d: itemset::all_below(m),
        words: 0,
        shown: 4,
    }
}

// The week of a file, with M = S + T, at most 64, so that the sum does not wrap; and N, at most 512.
fn given(r: Result<Bids, Refusal>) -> (Week, usize) {
    match r {
        Ok(b) => (
            week(b.schools.wrapping_add(b.slots), b.optional),
            b.packages,
        ),
        Err(_) => (week(0, NO_ITEMS), 0),
    }
}

// The cover of the week.
fn all(w: Week, limit: u32) -> Call {
    Call::Cover { d: w.d, limit }
}

// How many steps a cover may take where they are not what it is refused for.
const STEPS: u32 = 1000000;

// ---- a small week

// The weeks have four items. Of what check is lent besides the table only the order can be wrong.
fn disordered(rt: &impl Print, lent: Lent, t: &mut [u32]) -> io::Result<()> {
    let order = [0, 0, 2, 3];
    let twice = Lent {
        order: &order,
        ..lent
    };
    let c = all(lent.week, STEPS);
    make(rt, "cover in an order with an item twice:", twice, t, c)?;
    check(rt, "check in that order:", twice, t)
}

fn short_costs_or_table(
    rt: &impl Print,
    lent: Lent,
    costs: &[u16],
    t: &[u32],
    a: u32,
) -> io::Result<()> {
    let few = costs.len().min(5);
    cheapest(
        rt,
        "cheapest with a cost too few:",
        lent,
        &costs[..few],
        t,
        a,
    )?;
    check(rt, "check of the table:", lent, t)?;
    check(
        rt,
        "check of a table whose node has hi 0:",
        lent,
        &[1, 0, 0, 0],
    )
}

// The answer has the last node of the table, and 0 2 is a timetable of it.
fn unknown(rt: &impl Print, lent: Lent, t: &mut [u32], a: u32) -> io::Result<()> {
    let next = a.wrapping_add(1);
    count(
        rt,
        "count of an answer that the table does not have:",
        lent,
        t,
        next,
        WORDS,
    )?;
    // N is the first number that is no package's; there are at most 512.
    let p = (lent.packages.len().min(1536) / 3) as u32;
    make(rt, "with package N:", lent, t, Call::With { a, p })?;
    place(
        rt,
        "place of a list out of precedence:",
        lent,
        t,
        a,
        &[2, 0],
    )
}

// An item that there is not, and answers that have items in common.
fn items(rt: &impl Print, lent: Lent, t: &mut [u32], a: u32) -> io::Result<()> {
    let d = itemset::all_below(lent.week.m.wrapping_add(1));
    let more = Call::Cover { d, limit: STEPS };
    make(rt, "cover of a set with item M:", lent, t, more)?;
    make(
        rt,
        "join of the answer with itself:",
        lent,
        t,
        Call::Join { a, b: a },
    )?;
    Ok(())
}

// The answer has six nodes, and the table of the last cover room for five.
fn short(rt: &impl Print, lent: Lent, t: &[u32], a: u32) -> io::Result<()> {
    let w = lent.week;
    count(rt, "count with a word too few:", lent, t, a, a as usize)?;
    make(rt, "cover in one step:", lent, &mut [0; 31], all(w, 1))?;
    make(
        rt,
        "cover on a table without room:",
        lent,
        &mut [0; 16],
        all(w, STEPS),
    )?;
    Ok(())
}

fn absent(rt: &impl Print, lent: Lent, costs: &[u16], t: &[u32], a: u32) -> io::Result<()> {
    let k = count(rt, "count:", lent, t, a, WORDS)?;
    pick(
        rt,
        "pick of that k, past the end:",
        lent,
        t,
        a,
        k,
        &mut [0; 8],
    )?;
    cheapest(rt, "cheapest of 0:", lent, costs, t, 0)?;
    place(rt, "place of the empty list:", lent, t, a, &[])?;
    pick(rt, "pick on a page of no places:", lent, t, a, 0, &mut [])
}

fn refusals(rt: &impl Print, lent: Lent, costs: &[u16]) -> io::Result<()> {
    let mut t = [0u32; 31];
    let a = make(rt, "cover:", lent, &mut t, all(lent.week, STEPS))?;
    print!(rt; "its answer:")?;
    lent.print_timetables(rt, &t, a)?;
    println!(rt)?;
    disordered(rt, lent, &mut t)?;
    short_costs_or_table(rt, lent, costs, &t, a)?;
    unknown(rt, lent, &mut t, a)?;
    items(rt, lent, &mut t, a)?;
    short(rt, lent, &t, a)?;
    absent(rt, lent, costs, &t, a)
}

fn small<R: Files + Print>(rt: &R, name: &str, version: Version) -> io::Result<()> {
    let mut packages = [0u64; 24];
    let mut costs = [0u16; 8];
    rt.print(name)?;
    let r = read(rt, name, version, &mut packages, &mut costs)?;
    print_reading(rt, r)?;
    let order = exact_cover::plain_order();
    let (w, number) = given(r);
    let m = (w.m as usize).min(64);
    let n = number.min(8);
    let lent = Lent {
        week: w,
        packages: &packages[..3 * n],
        order: &order[..m],
    };
    refusals(rt, lent, &costs[..n])
}

// ---- the week of 2^64 timetables

// Eight groups of four schools and four slots, school and slot i of group g being the items 4 g + i and 32 + 4 g + i: one group behind the other.
fn groups() -> [u8; 64] {
    let mut order = [0; 64];
    for i in 0..64 {
        order[i] = (4 * (i / 8) + i % 4 + 32 * (i % 8 / 4)) as u8;
    }
    order
}

// In the plain order this cover takes too many steps.
fn uncountable(rt: &impl Print, lent: Lent, costs: &[u16]) -> io::Result<()> {
    let mut t = [0u32; 4801];
    let a = make(
        rt,
        "cover group by group:",
        lent,
        &mut t,
        all(lent.week, STEPS),
    )?;
    count(rt, "count:", lent, &t, a, WORDS)?;
    cheapest(rt, "cheapest:", lent, costs, &t, a)
}

fn many<R: Files + Print>(rt: &R) -> io::Result<()> {
    let mut packages = [0u64; 1536];
    let mut costs = [0u16; 512];
    print!(rt; "many")?;
    let r = read(rt, "many", Version::One, &mut packages, &mut costs)?;
    print_reading(rt, r)?;
    let order = groups();
    let (w, _) = given(r);
    let lent = Lent {
        week: w,
        packages: &packages,
        order: &order,
    };
    uncountable(rt, lent, &costs)
}

fn main(rt: HostRuntime) -> io::Result<()> {
    small(&rt, "week1", Version::One)?;
    small(&rt, "week2", Version::Two)?;
    many(&rt)
}
