// What programs that show weeks by the public calls share: a cover in a lent order, and the line of a report. A line gives the answer, nodes made, steps,
// timetables and the first of these in quotes, or the refusal; where only count refuses, its refusal stands behind the steps.
#![tactic(auto)]

use itemset::Items;
use statement::{Priced, Refusal, Report};
use std::fmt::Display;
use std::io;

// The working words of the largest memo: 65,521 places (a prime: item sets share their low bits).
pub const LARGEST: usize = 262084;

// Nothing is optional.
pub const NO_ITEMS: Items = Items {
    w0: 0,
    w1: 0,
    w2: 0,
};

// What cover is lent besides packages, order and table; `words` is how many working words, `shown` how many timetables are printed.
#[derive(Clone, Copy)]
pub struct Week {
    pub m: u32,
    pub optional: Items,
    pub d: Items,
    pub words: usize,
    pub shown: usize,
}

// A week with its packages and the order in which its items are lent.
#[derive(Clone, Copy)]
pub struct Lent<'a> {
    pub week: Week,
    pub packages: &'a [u64],
    pub order: &'a [u8],
}

// ---- what is printed

// What a call answered, behind the name, or its refusal.
pub fn print_answer<T: Copy + Display>(
    rt: &impl Print,
    name: &str,
    r: Result<T, Refusal>,
) -> io::Result<()> {
    match r {
        Ok(answer) => print!(rt; "{name} {answer}"),
        Err(refusal) => print!(rt; " {refusal}"),
    }
}

pub fn print_priced(rt: &impl Print, r: Result<Priced, Refusal>) -> io::Result<()> {
    match r {
        Ok(Priced { packages, cost }) => print!(rt; " packages {packages} cost {cost}"),
        Err(refusal) => print!(rt; " {refusal}"),
    }
}

// The first n packages of the page.
fn print_timetable(rt: &impl Print, page: &[u16], n: usize) -> io::Result<()> {
    print!(rt; " \"")?;
    for (i, p) in page.iter().take(n).enumerate() {
        let space = if i == 0 { "" } else { " " };
        print!(rt; "{space}{p}")?;
    }
    print!(rt; "\"")
}

impl Lent<'_> {
    // Timetable k of the answer.
    pub fn print_pick(&self, rt: &impl Print, t: &[u32], a: u32, k: u64) -> io::Result<()> {
        let w = self.week;
        let mut page = [0u16; 16];
        let r = engine::pick(
            w.m,
            self.packages,
            w.optional,
            self.order,
            t,
            a,
            k,
            &mut [0u64; 65536],
            &mut page,
        );
        match r {
            Ok(n) => print_timetable(rt, &page, n),
            Err(refusal) => print!(rt; " {refusal}"),
        }
    }

    // How many timetables the answer has, and the first of them.
    pub fn print_timetables(&self, rt: &impl Print, t: &[u32], a: u32) -> io::Result<()> {
        let w = self.week;
        let c = engine::count(
            w.m,
            self.packages,
            w.optional,
            self.order,
            t,
            a,
            &mut [0u64; 65536],
        );
        print_answer(rt, " timetables", c)?;
        for k in 0..c.unwrap_or(0).min(w.shown as u64) {
            self.print_pick(rt, t, a, k)?;
        }
        Ok(())
    }

    // Nodes made, steps, and the timetables of the answer.
    pub fn print_made(&self, rt: &impl Print, t: &[u32], r: Report) -> io::Result<()> {
        match r.outcome {
            Ok(a) => {
                print!(rt; " nodes {} steps {}", r.made, r.steps)?;
                self.print_timetables(rt, t, a)
            }
            Err(refusal) => print!(rt; " {refusal}"),
        }
    }

    // What a call that makes an answer reports.
    pub fn print_report(&self, rt: &impl Print, t: &[u32], r: Report) -> io::Result<()> {
        if let Ok(a) = r.outcome {
            print!(rt; " answer {a}")?;
        }
        self.print_made(rt, t, r)
    }

    // Cover of d on the table, in at most the working words of the largest memo.
    fn report(&self, t: &mut [u32], d: Items) -> Report {
        let w = self.week;
        let mut work = [0u64; LARGEST];
        let lent = w.words.min(LARGEST);
        engine::cover(
            w.m,
            self.packages,
            w.optional,
            self.order,
            t,
            d,
            u32::MAX,
            &mut work[0..lent],
        )
    }

    // The line of a cover of d on the table.
    pub fn cover(&self, rt: &impl Print, t: &mut [u32], d: Items) -> io::Result<()> {
        let report = self.report(t, d);
        self.print_report(rt, t, report)?;
        println!(rt)
    }

    // The line of a cover of all that is to be covered, on an empty table of 65,534 nodes.
    pub fn run(&self, rt: &impl Print) -> io::Result<()> {
        let mut t = [0u32; 196603];
        self.cover(rt, &mut t, self.week.d)
    }

    // The same line without the number of the answer.
    pub fn run_unnumbered(&self, rt: &impl Print) -> io::Result<()> {
        let mut t = [0u32; 196603];
        let report = self.report(&mut t, self.week.d);
        self.print_made(rt, &t, report)?;
        println!(rt)
    }
}
