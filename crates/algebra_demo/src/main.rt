// The calls either, both, only, with and without on tables made by hand: every pair of answers of a small table, with room to spare, with room for
// exactly the nodes that are missing, and with one place fewer; each refusal; and answers of 2^400 timetables, which only remembered results end. The items are
// lent in the plain order.
#![tactic(auto)]

ghost use Rattle.std.specs.Prelude.{◌≤◌};

use itemset::Items;
use statement::{Call, Refusal, Report};
use std::{fmt, io};

// ---- the calls

#[derive(Clone, Copy)]
enum Operation {
    Either,
    Both,
    Only,
    With,
    Without,
}

impl Operation {
    // The second operand of with and without is a package.
    fn call(self, a: u32, b: u32) -> Call {
        match self {
            Operation::Either => Call::Either { a, b },
            Operation::Both => Call::Both { a, b },
            Operation::Only => Call::Only { a, b },
            Operation::With => Call::With { a, p: b },
            Operation::Without => Call::Without { a, p: b },
        }
    }
}

impl fmt::Display for Operation {
    fn fmt<W: fmt::Write>(&self, f: &mut fmt::Formatter<W>) -> fmt::Result {
        f.write_str(match self {
            Operation::Either => "either",
            Operation::Both => "both",
            Operation::Only => "only",
            Operation::With => "with",
            Operation::Without => "without",
        })
    }
}

// ---- what is printed

// How a call ended: "answer+made", or the number of the refusal after an r. It gives the answer, 0 where there is none.
fn ended(rt: &impl Print, r: Report) -> io::Result<u32> {
    match r.outcome {
        Ok(k) => {
            print!(rt; "{k}+{}", r.made)?;
            Ok(k)
        }
        Err(refusal) => {
            print!(rt; "r{}", refusal.number())?;
            Ok(0)
        }
    }
}

fn counted(rt: &impl Print, c: Result<u64, Refusal>) -> io::Result<()> {
    match c {
        Ok(n) => println!(rt; " count {n}"),
        Err(refusal) => println!(rt; " count r{}", refusal.number()),
    }
}

// ---- one call

// Nothing is optional.
const NO_ITEMS: Items = Items {
    w0: 0,
    w1: 0,
    w2: 0,
};

// M, and the packages and the order that are lent.
#[derive(Clone, Copy)]
struct Week<'a> {
    m: u32,
    packages: &'a [u64],
    order: &'a [u8],
}

impl<'a> Week<'a> {
    // In the plain order, of which as many items are lent as there are, or all.
    fn plain(m: u32, packages: &'a [[u64; 3]], order: &'a [u8; 192]) -> Week<'a> {
        let items = (m as usize).min(192);
        Week {
            m,
            packages: packages.as_flattened(),
            order: &order[..items],
        }
    }
}

// A number that stands for the words, so that a change of one shows.
fn checksum(t: &[u32]) -> u64 {
    t.iter().fold(
        0,
        |sum, word| (sum % 4294967291 * 65599 + *word as u64) % 4294967291,
    )
}

// The answer, 0 where there is none, the nodes made, and the checksum of the table after the call.
#[derive(Clone, Copy)]
struct Tried {
    answer: u32,
    made: u32,
    sum: u64,
}

// The call by its own name.
fn call(w: Week, t: &mut [u32], c: Call, work: &mut [u64]) -> Report {
    let Week {
        m,
        packages,
        order,
        ..
    } = w;
    match c {
        Call::Either { a, b } => engine::either(m, packages, NO_ITEMS, order, t, a, b, work),
        Call::Both { a, b } => engine::both(m, packages, NO_ITEMS, order, t, a, b, work),
        Call::Only { a, b } => engine::only(m, packages, NO_ITEMS, order, t, a, b, work),
        Call::With { a, p } => engine::with(m, packages, NO_ITEMS, order, t, a, p, work),
        Call::Without { a, p } => engine::without(m, packages, NO_ITEMS, order, t, a, p, work),
        _ => engine::answer(m, packages, NO_ITEMS, order, t, c, work),
    }
}

// The call with so many working words. Each says beforehand that 401 and 602 make 1, which is not to be believed. A call that made nothing has changed nothing.
fn attempt(rt: &impl Print, w: Week, t: &mut [u32], c: Call, words: usize) -> io::Result<Tried> {
    let mut work = [1722321338369u64; 70000];
    let before = checksum(t);
    let lent = words.min(70000);
    let r = call(w, t, c, &mut work[..lent]);
    let answer = ended(rt, r)?;
    let made = r.made;
    let sum = checksum(t);
    if made == 0 && before != sum {
        print!(rt; "!")?;
    }
    Ok(Tried { answer, made, sum })
}

// ---- every pair of the small table

// Eight nodes over six packages in the precedence 0, 1, 5, 2, 3, 4; number 6 holds {0,2,4}, {0,3}, {1,4}, number 9 {0,3}, {5,2}, {5}, {3}.
const SMALL: [u32; 25] = [
    8, 4, 0, 1, 3, 0, 1, 2, 3, 2, 1, 0, 2, 0, 5, 4, 2, 1, 1, 5, 3, 7, 0, 8, 3,
];

fn small() -> [u32; 601] {
    let mut t = [0; 601];
    t[..25].copy_from_slice(&SMALL);
    t
}

// The six packages, three words each.
const SIX: [[u64; 3]; 6] = [
    [1, 0, 0],
    [3, 0, 0],
    [2, 0, 0],
    [6, 0, 0],
    [4, 0, 0],
    [5, 0, 0],
];

// The call on the small table, of which `room` words are lent.
fn on_small(rt: &impl Print, room: usize, c: Call) -> io::Result<Tried> {
    let order = exact_cover::plain_order();
    let mut t = small();
    let lent = room.min(601);
    attempt(rt, Week::plain(3, &SIX, &order), &mut t[..lent], c, 2)
}

// The call with room to spare; where it makes nodes, also with room for exactly those and with one place fewer, which leaves every word as it was.
// It gives the checksum of the table after the first.
fn pair(rt: &impl Print, c: Call) -> io::Result<u64> {
    print!(rt; " ")?;
    let r = on_small(rt, 601, c)?;
    if r.made > 0 {
        let room = 3 * r.made as usize + 25;
        print!(rt; "/")?;
        on_small(rt, room, c)?;
        print!(rt; "/")?;
        on_small(rt, room - 3, c)?;
    }
    Ok(r.sum)
}

// The second operands are those below `end`.
fn row(rt: &impl Print, op: Operation, a: u32, end: u32) -> io::Result<()> {
    print!(rt; "{op} {a}:")?;
    let mut all = 0u64;
    for b in 0..end {
        let sum = pair(rt, op.call(a, b))?;
        all = (all % 4294967291 * 65599 + sum % 4294967291) % 4294967291;
    }
    println!(rt; " sum {all}")
}

fn rows(rt: &impl Print, op: Operation, end: u32) -> io::Result<()> {
    for a in 0..10 {
        row(rt, op, a, end)?;
    }
    Ok(())
}

// ---- one call on a line

// The call, the table's checksum after it, and how many timetables the answer holds.
fn line(
    rt: &impl Print,
    w: Week,
    t: &mut [u32],
    op: Operation,
    a: u32,
    b: u32,
    words: usize,
) -> io::Result<()> {
    print!(rt; "{op} {a} {b}: ")?;
    let Tried { answer, sum, .. } = attempt(rt, w, t, op.call(a, b), words)?;
    print!(rt; " sum {sum}")?;
    let mut tally = [0u64; 4096];
    counted(
        rt,
        engine::count(w.m, w.packages, NO_ITEMS, w.order, t, answer, &mut tally),
    )
}

// ---- refusals

// A call on the small table, of which `room` words are lent. Words 0 and 600 of the table are given, and how many packages there are and the fourth of them.
#[derive(Clone, Copy)]
struct Case {
    op: Operation,
    a: u32,
    b: u32,
    m: u32,
    packages: usize,
    fourth: u64,
    first_word: u32,
    last_word: u32,
    room: usize,
    words: usize,
}

// With nothing wrong but what the operands are.
fn asked(op: Operation, a: u32, b: u32) -> Case {
    Case {
        op,
        a,
        b,
        m: 3,
        packages: 6,
        fourth: 6,
        first_word: 8,
        last_word: 0,
        room: 601,
        words: 2,
    }
}

// 1, 2 and 4, alone and before those behind them.
fn unfit() -> [Case; 6] {
    [
        Case {
            m: 193,
            ..asked(Operation::Either, 6, 8)
        },
        Case {
            packages: 513,
            ..asked(Operation::Both, 6, 8)
        },
        Case {
            m: 2,
            ..asked(Operation::Only, 6, 8)
        },
        Case {
            fourth: 0,
            ..asked(Operation::With, 10, 6)
        },
        Case {
            last_word: 1,
            ..asked(Operation::Without, 10, 6)
        },
        Case {
            last_word: 1,
            room: 0,
            ..asked(Operation::Either, 6, 8)
        },
    ]
}

// 5, 6, 8 and 10, alone and before those behind them. Twenty-five words are the small table with no place free.
fn unknown_or_short() -> [Case; 9] {
    [
        asked(Operation::Either, 10, 6),
        Case {
            words: 1,
            ..asked(Operation::Both, 6, 10)
        },
        asked(Operation::With, 10, 6),
        Case {
            words: 1,
            ..asked(Operation::With, 6, 6)
        },
        asked(Operation::Without, 6, 65535),
        Case {
            room: 25,
            words: 1,
            ..asked(Operation::Either, 6, 9)
        },
        Case {
            room: 25,
            words: 0,
            ..asked(Operation::Without, 6, 0)
        },
        Case {
            room: 25,
            ..asked(Operation::Either, 6, 9)
        },
        Case {
            room: 27,
            ..asked(Operation::Without, 9, 5)
        },
    ]
}

// A table of one word has no place at all: the answers are 0 and 1.
fn on_one_word(op: Operation, a: u32, b: u32) -> Case {
    Case {
        first_word: 0,
        room: 1,
        ..asked(op, a, b)
    }
}

fn without_places() -> [Case; 6] {
    [
        on_one_word(Operation::Either, 0, 1),
        on_one_word(Operation::Both, 0, 1),
        on_one_word(Operation::Only, 1, 0),
        on_one_word(Operation::With, 1, 0),
        on_one_word(Operation::Without, 1, 5),
        on_one_word(Operation::Either, 1, 2),
    ]
}

fn run_case(rt: &impl Print, c: Case) -> io::Result<()> {
    let mut t = small();
    t[0] = c.first_word;
    t[600] = c.last_word;
    let mut packages = [[1, 0, 0]; 513];
    packages[..6].copy_from_slice(&SIX);
    packages[3][0] = c.fourth;
    let order = exact_cover::plain_order();
    let count = c.packages.min(513);
    let w = Week::plain(c.m, &packages[..count], &order);
    let room = c.room.min(601);
    line(rt, w, &mut t[..room], c.op, c.a, c.b, c.words)
}

fn cases(rt: &impl Print, cases: &[Case]) -> io::Result<()> {
    for c in cases {
        run_case(rt, *c)?;
    }
    Ok(())
}

// ---- 400 packages, several to an item

// Package i holds the item 4i / 25, rounded down.
fn items() -> [[u64; 3]; 400] {
    let mut packages = [[0; 3]; 400];
    for (i, p) in packages.iter_mut().enumerate() {
        p[0] = 1 << (i * 4 / 25);
    }
    packages
}

// All sets of the packages, number 401: each node's lo is its hi.
fn chain() -> [u32; 12001] {
    let mut t = [0; 12001];
    t[0] = 400;
    for k in 1..401u32 {
        let end = 3 * k as usize;
        t[end - 2] = 400 - k;
        t[end - 1] = k;
        t[end] = k;
    }
    t
}

// All sets (401), those with 200 (602) and without (802), those with 100 (903), of these those without 300 (1606), and what is made of them.
const STEPS: [(Operation, u32, u32); 19] = [
    (Operation::Either, 401, 401),
    (Operation::Both, 401, 401),
    (Operation::Only, 401, 401),
    (Operation::With, 401, 200),
    (Operation::Without, 401, 200),
    (Operation::Either, 602, 802),
    (Operation::Both, 602, 802),
    (Operation::Only, 401, 602),
    (Operation::Only, 401, 802),
    (Operation::With, 401, 100),
    (Operation::Either, 602, 903),
    (Operation::Either, 903, 602),
    (Operation::Both, 903, 602),
    (Operation::Only, 903, 602),
    (Operation::Only, 602, 903),
    (Operation::Without, 903, 300),
    (Operation::Either, 1606, 802),
    (Operation::Both, 802, 1606),
    (Operation::Only, 802, 1606),
];

// The steps, each on what the one before left, with so many working words.
fn steps(rt: &impl Print, w: Week, words: usize) -> io::Result<()> {
    let mut t = chain();
    for (op, a, b) in STEPS {
        line(rt, w, &mut t, op, a, b, words)?;
    }
    Ok(())
}

// The memory is a local array, and then the lent words.
fn chains(rt: &impl Print) -> io::Result<()> {
    let packages = items();
    let order = exact_cover::plain_order();
    let w = Week::plain(64, &packages, &order);
    steps(rt, w, 2)?;
    steps(rt, w, 70000)
}

fn main(rt: HostRuntime) -> io::Result<()> {
    for op in [Operation::Either, Operation::Both, Operation::Only] {
        rows(&rt, op, 10)?;
    }
    for op in [Operation::With, Operation::Without] {
        rows(&rt, op, 6)?;
    }
    cases(&rt, &unfit())?;
    cases(&rt, &unknown_or_short())?;
    cases(&rt, &without_places())?;
    chains(&rt)
}
