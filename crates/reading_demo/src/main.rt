// Runs the calls that read an answer on three tables made by hand, and prints what each gives. The page holds 9s before each call; its first five
// words are printed after it. The items are lent in the plain order.
//
// The first table is Figure 1 of document 000: number 5 holds "0 2" and "1 4 2". The second holds chains over 66 packages: number j from 2 to 67
// holds all 2^(j - 1) subsets of the last j - 1 packages, and number 67 + i the 2^i - 1 non-empty ones of the last i, for i from 1 to 65. The third is one path
// over 512 packages: number 513 holds the one timetable of them all.
#![tactic(auto)]

use itemset::Items;
use statement::Priced;
use std::io;
use weeks::NO_ITEMS;

// ---- what is printed

fn numbers(rt: &impl Print, list: &[u16]) -> io::Result<()> {
    for n in list {
        print!(rt; " {n}")?;
    }
    Ok(())
}

fn page_after(rt: &impl Print, page: &[u16; 512]) -> io::Result<()> {
    print!(rt; "; page")?;
    numbers(rt, &page[0..5])
}

// ---- the cases

// A call and its own arguments: the length of the page and the place; the packages; the length of the page and the costs; the place.
#[derive(Clone, Copy)]
enum Call {
    Count,
    Pick(usize, u64),
    Place(&'static [u16]),
    Cheapest(usize, &'static [u16]),
    Measure(u64),
}

impl Call {
    fn name(&self) -> &'static str {
        match self {
            Call::Count => "count",
            Call::Pick(_, _) => "pick",
            Call::Place(_) => "place",
            Call::Cheapest(_, _) => "cheapest",
            Call::Measure(_) => "measure",
        }
    }
}

#[derive(Clone, Copy)]
enum Table {
    Figure,
    // Of the figure's packages.
    Spoilt,
    Chains,
    Path,
    // The spoilt one, with optional items.
    Optional,
}

// The call, the table, M, the answer and the working words.
const CASES: [(Call, Table, u32, u32, usize); 101] = [
    // Count: each known number with the least words; then each refusal, where those behind it apply too.
    (Call::Count, Table::Figure, 6, 0, 1),
    (Call::Count, Table::Figure, 6, 1, 2),
    (Call::Count, Table::Figure, 6, 2, 3),
    (Call::Count, Table::Figure, 6, 3, 4),
    (Call::Count, Table::Figure, 6, 4, 5),
    (Call::Count, Table::Figure, 6, 5, 6),
    (Call::Count, Table::Spoilt, 193, 6, 0),
    (Call::Count, Table::Spoilt, 5, 6, 0),
    (Call::Count, Table::Spoilt, 6, 6, 0),
    (Call::Count, Table::Figure, 6, 6, 0),
    (Call::Count, Table::Figure, 6, 5, 5),
    // Pick.
    (Call::Pick(2, 0), Table::Figure, 6, 5, 6),
    (Call::Pick(3, 1), Table::Figure, 6, 5, 6),
    (Call::Pick(66, 1), Table::Figure, 6, 5, 6),
    (Call::Pick(0, 0), Table::Figure, 6, 1, 2),
    (Call::Pick(0, 2), Table::Spoilt, 193, 6, 0),
    (Call::Pick(0, 2), Table::Spoilt, 5, 6, 0),
    (Call::Pick(0, 2), Table::Spoilt, 6, 6, 0),
    (Call::Pick(0, 2), Table::Figure, 6, 6, 0),
    (Call::Pick(0, 2), Table::Figure, 6, 5, 5),
    (Call::Pick(0, 2), Table::Figure, 6, 5, 6),
    (Call::Pick(0, 0), Table::Figure, 6, 0, 6),
    (Call::Pick(2, 1), Table::Figure, 6, 5, 6),
    (Call::Pick(1, 0), Table::Figure, 6, 5, 6),
    // Measure: the same, but for the page.
    (Call::Measure(0), Table::Figure, 6, 5, 6),
    (Call::Measure(1), Table::Figure, 6, 5, 6),
    (Call::Measure(0), Table::Figure, 6, 1, 2),
    (Call::Measure(2), Table::Spoilt, 193, 6, 0),
    (Call::Measure(2), Table::Spoilt, 5, 6, 0),
    (Call::Measure(2), Table::Spoilt, 6, 6, 0),
    (Call::Measure(2), Table::Figure, 6, 6, 0),
    (Call::Measure(2), Table::Figure, 6, 5, 5),
    (Call::Measure(2), Table::Figure, 6, 5, 6),
    (Call::Measure(0), Table::Figure, 6, 0, 6),
    // Place.
    (Call::Place(&[0, 2]), Table::Figure, 6, 5, 6),
    (Call::Place(&[1, 4, 2]), Table::Figure, 6, 5, 6),
    (Call::Place(&[]), Table::Figure, 6, 1, 2),
    (Call::Place(&[5]), Table::Spoilt, 193, 6, 0),
    (Call::Place(&[5]), Table::Spoilt, 5, 6, 0),
    (Call::Place(&[5]), Table::Spoilt, 6, 6, 0),
    (Call::Place(&[5]), Table::Figure, 6, 6, 0),
    (Call::Place(&[5]), Table::Figure, 6, 5, 5),
    (Call::Place(&[1, 2, 4]), Table::Figure, 6, 5, 5),
    (Call::Place(&[0, 2, 2]), Table::Figure, 6, 5, 5),
    (Call::Place(&[0, 3]), Table::Figure, 6, 5, 5),
    (Call::Place(&[0, 3]), Table::Figure, 6, 5, 6),
    (Call::Place(&[0]), Table::Figure, 6, 5, 6),
    (Call::Place(&[0, 4, 2]), Table::Figure, 6, 5, 6),
    (Call::Place(&[]), Table::Figure, 6, 5, 6),
    (Call::Place(&[]), Table::Figure, 6, 0, 1),
    // Cheapest. From a + 1 words on the number of words changes nothing.
    (Call::Cheapest(2, &[3, 2, 2, 0, 2]), Table::Figure, 6, 5, 6),
    (Call::Cheapest(2, &[3, 2, 2, 0, 2]), Table::Figure, 6, 5, 11),
    (Call::Cheapest(2, &[3, 2, 2, 0, 2]), Table::Figure, 6, 5, 12),
    (Call::Cheapest(2, &[3, 1, 2, 0, 2]), Table::Figure, 6, 5, 6),
    (Call::Cheapest(3, &[4, 1, 2, 0, 2]), Table::Figure, 6, 5, 6),
    (
        Call::Cheapest(66, &[65535, 65535, 65535, 0, 65535]),
        Table::Figure,
        6,
        4,
        5,
    ),
    (Call::Cheapest(0, &[1, 1, 1, 1, 1]), Table::Figure, 6, 1, 2),
    (Call::Cheapest(0, &[1]), Table::Spoilt, 193, 6, 0),
    (Call::Cheapest(0, &[1]), Table::Spoilt, 5, 6, 0),
    (Call::Cheapest(0, &[1]), Table::Spoilt, 6, 6, 0),
    (Call::Cheapest(0, &[1, 1, 1, 1, 1]), Table::Spoilt, 6, 6, 0),
    (Call::Cheapest(0, &[1, 1, 1, 1, 1]), Table::Figure, 6, 6, 0),
    (Call::Cheapest(0, &[1, 1, 1, 1, 1]), Table::Figure, 6, 5, 5),
    (Call::Cheapest(0, &[1, 1, 1, 1, 1]), Table::Figure, 6, 0, 0),
    (Call::Cheapest(0, &[1, 1, 1, 1, 1]), Table::Figure, 6, 0, 1),
    (Call::Cheapest(1, &[1, 1, 1, 1, 1]), Table::Figure, 6, 5, 6),
    (
        Call::Cheapest(512, &[65535; 512]),
        Table::Path,
        129,
        513,
        514,
    ),
    (
        Call::Cheapest(512, &[65535; 512]),
        Table::Path,
        129,
        513,
        513,
    ),
    // The chains. Numbers below 131 that it does not reach hold more than 2^64 timetables.
    (Call::Count, Table::Chains, 64, 64, 65),
    (Call::Count, Table::Chains, 64, 65, 66),
    (Call::Count, Table::Chains, 64, 67, 68),
    (Call::Count, Table::Chains, 64, 130, 131),
    (Call::Count, Table::Chains, 64, 131, 132),
    (Call::Count, Table::Chains, 64, 132, 133),
    (Call::Pick(64, 0), Table::Chains, 64, 131, 132),
    (Call::Pick(63, 0), Table::Chains, 64, 131, 132),
    (Call::Pick(66, (1 << 63) - 1), Table::Chains, 64, 131, 132),
    (Call::Pick(66, 1 << 63), Table::Chains, 64, 131, 132),
    (Call::Pick(1, u64::MAX - 1), Table::Chains, 64, 131, 132),
    (Call::Pick(0, u64::MAX), Table::Chains, 64, 131, 132),
    (Call::Pick(0, 0), Table::Chains, 64, 65, 66),
    (Call::Measure(0), Table::Chains, 64, 131, 132),
    (Call::Measure((1 << 63) - 1), Table::Chains, 64, 131, 132),
    (Call::Measure(1 << 63), Table::Chains, 64, 131, 132),
    (Call::Measure(u64::MAX - 1), Table::Chains, 64, 131, 132),
    (Call::Measure(u64::MAX), Table::Chains, 64, 131, 132),
    (Call::Measure(0), Table::Chains, 64, 65, 66),
    (Call::Place(&[2]), Table::Chains, 64, 131, 132),
    (Call::Place(&[65]), Table::Chains, 64, 131, 132),
    (Call::Place(&[]), Table::Chains, 64, 131, 132),
    (Call::Place(&[0]), Table::Chains, 64, 65, 66),
    // 29 and 30 of each call, where those behind them apply too.
    (Call::Count, Table::Optional, 6, 6, 0),
    (Call::Count, Table::Optional, 7, 6, 0),
    (Call::Pick(0, 2), Table::Optional, 6, 6, 0),
    (Call::Pick(0, 2), Table::Optional, 7, 6, 0),
    (Call::Measure(2), Table::Optional, 6, 6, 0),
    (Call::Measure(2), Table::Optional, 7, 6, 0),
    (Call::Place(&[5]), Table::Optional, 6, 6, 0),
    (Call::Place(&[5]), Table::Optional, 7, 6, 0),
    (Call::Cheapest(0, &[1]), Table::Optional, 6, 6, 0),
    (Call::Cheapest(0, &[1]), Table::Optional, 7, 6, 0),
];

// ---- the calls

// What each call is lent but for its own arguments and the working words.
#[derive(Clone, Copy)]
struct Lent<'a> {
    m: u32,
    packages: &'a [u64],
    optional: Items,
    order: &'a [u8],
    table: &'a [u32],
    answer: u32,
}

impl Lent<'_> {
    fn count(&self, rt: &impl Print, work: &mut [u64]) -> io::Result<()> {
        let r = engine::count(
            self.m,
            self.packages,
            self.optional,
            self.order,
            self.table,
            self.answer,
            work,
        );
        print!(rt; ":")?;
        weeks::print_answer(rt, "", r)
    }

    fn measure(&self, rt: &impl Print, k: u64, work: &mut [u64]) -> io::Result<()> {
        let r = engine::measure(
            self.m,
            self.packages,
            self.optional,
            self.order,
            self.table,
            self.answer,
            k,
            work,
        );
        print!(rt; " {k}:")?;
        weeks::print_answer(rt, "", r)
    }

    fn pick(&self, rt: &impl Print, room: usize, k: u64, work: &mut [u64]) -> io::Result<()> {
        let mut page = [9u16; 512];
        let end = room.min(512);
        let r = engine::pick(
            self.m,
            self.packages,
            self.optional,
            self.order,
            self.table,
            self.answer,
            k,
            work,
            &mut page[0..end],
        );
        print!(rt; " {k}:")?;
        weeks::print_answer(rt, "", r)?;
        page_after(rt, &page)
    }

    fn place(&self, rt: &impl Print, list: &[u16], work: &mut [u64]) -> io::Result<()> {
        let r = engine::place(
            self.m,
            self.packages,
            self.optional,
            self.order,
            self.table,
            self.answer,
            list,
            work,
        );
        print!(rt; ",")?;
        numbers(rt, list)?;
        print!(rt; ":")?;
        weeks::print_answer(rt, "", r)
    }

    fn cheapest(
        &self,
        rt: &impl Print,
        room: usize,
        costs: &[u16],
        work: &mut [u64],
    ) -> io::Result<()> {
        let mut page = [9u16; 512];
        let end = room.min(512);
        let r = engine::cheapest(
            self.m,
            self.packages,
            self.optional,
            self.order,
            costs,
            self.table,
            self.answer,
            work,
            &mut page[0..end],
        );
        print!(rt; ":")?;
        match r {
            Ok(Priced { packages, cost }) => print!(rt; " {packages} cost {cost}")?,
            Err(refusal) => print!(rt; " {refusal}")?,
        }
        page_after(rt, &page)
    }

    fn ask(&self, rt: &impl Print, call: Call, words: usize) -> io::Result<()> {
        let mut all = [7u64; 514];
        let end = words.min(514);
        let work = &mut all[0..end];
        print!(rt; "{} {}", call.name(), self.answer)?;
        match call {
            Call::Count => self.count(rt, work)?,
            Call::Pick(room, k) => self.pick(rt, room, k, work)?,
            Call::Place(list) => self.place(rt, list, work)?,
            Call::Cheapest(room, costs) => self.cheapest(rt, room, costs, work)?,
            Call::Measure(k) => self.measure(rt, k, work)?,
        }
        println!(rt)
    }
}

// ---- the tables

// The figure, numbered from 0.
const FIGURE: [u64; 15] = [23, 0, 0, 3, 0, 0, 40, 0, 0, 44, 0, 0, 20, 0, 0];

const DIAGRAM: [u32; 16] = [4, 2, 0, 1, 4, 0, 2, 1, 0, 3, 0, 4, 2, 0, 0, 0];

const SPOILT: [u32; 4] = [1, 0, 0, 0];

// Items 2, 4 and 6: the figure's last package has no other.
const OPTIONAL: Items = Items {
    w0: 84,
    w1: 0,
    w2: 0,
};

// Every package has the items 0, 64 and 128.
const PATH: [u64; 1536] = [1; 1536];

// Item 0 in packages 0, 1 and 2; item i in package i + 2: precedence is the order of the numbers.
fn chain_packages() -> [u64; 198] {
    let mut packages = [0u64; 198];
    packages[0] = 1;
    packages[3] = 1;
    for i in 0..64usize {
        packages[3 * i + 6] = 1 << i;
    }
    packages
}

// Node i has the number i + 2: the chain of all subsets, and behind it that of the non-empty ones, whose first node has the lo 0.
fn chains() -> [u32; 394] {
    let mut t = [0u32; 394];
    t[0] = 131;
    for i in 0..131u32 {
        let w = (3 * i + 1) as usize;
        t[w] = (131 - i) % 66;
        t[w + 1] = i + 1;
        t[w + 2] = i % 66 + 1;
    }
    t[200] = 0;
    t
}

// Node i has the number i + 2.
fn path() -> [u32; 1537] {
    let mut t = [0u32; 1537];
    t[0] = 512;
    for i in 0..512u32 {
        let w = (3 * i + 1) as usize;
        t[w] = 511 - i;
        t[w + 2] = i + 1;
    }
    t
}

// The figure's question, put to the table.
fn run(
    rt: &impl Print,
    figure: Lent<'_>,
    table: Table,
    call: Call,
    words: usize,
) -> io::Result<()> {
    let spoilt = Lent {
        table: &SPOILT,
        ..figure
    };
    match table {
        Table::Figure => figure.ask(rt, call, words),
        Table::Spoilt => spoilt.ask(rt, call, words),
        Table::Chains => Lent {
            packages: &chain_packages(),
            table: &chains(),
            ..figure
        }
        .ask(rt, call, words),
        Table::Path => Lent {
            packages: &PATH,
            table: &path(),
            ..figure
        }
        .ask(rt, call, words),
        Table::Optional => Lent {
            optional: OPTIONAL,
            ..spoilt
        }
        .ask(rt, call, words),
    }
}

fn main(rt: HostRuntime) -> io::Result<()> {
    let plain = exact_cover::plain_order();
    for (call, table, m, answer, words) in CASES {
        let items = (m as usize).min(192);
        let figure = Lent {
            m,
            packages: &FIGURE,
            optional: NO_ITEMS,
            order: &plain[0..items],
            table: &DIAGRAM,
            answer,
        };
        run(&rt, figure, table, call, words)?;
    }
    Ok(())
}
