// The program's text: from the bytes of a bids file to the lines of document 01. It goes to a lent buffer, each part behind the last.
#![tactic(auto)]

ghost use Rattle.std.specs.Prelude.{◌≡◌, ℕ, suc, ◌+◌, ◌^◌, ◌<◌, ◌≤◌, length, get_or};
ghost use Rattle.itemset.specs.Words.{sets_of};
ghost use Rattle.query.specs.Questions.{family_at, nth, cost};
ghost use Rattle.printout.specs.Text.{decimal_in, decimal, field, head, packages_text, timetable_line, refused_line};
ghost use Rattle.printout.specs.Written.{Puts, Adds, Whole};
ghost use Rattle.printout.specs.Weeks.{problem};
ghost use Rattle.statement.specs.Replies.{gives, cheapest_reply};
ghost use Rattle.printout.specs.Program.{timetable_lines, last_line, sheet, answer_text, solved, printed, Askable, Listable};

use itemset::Items;
use statement::{Priced, Refusal};

// Text at the start of a lent buffer, in its first `len` bytes. What no longer fits is left out.
#[derive(Drop)]
struct Writer<'a> {
    buffer: &'a mut [u8],
    len: usize,
}

impl<'a> Writer<'a> {
    fn put(&mut self, part: &[u8])
        ensures { Adds self.old self.new part.now }
    {
        let room = self.buffer.len().saturating_sub(self.len);
        if room == 0 {
            return;
        }
        let n = part.len().min(room);
        let end = self.len + n;
        self.buffer[self.len..end].copy_from_slice(&part[..n]);
        self.len = end;
    }

    // The digits of x, first those of x / 10.
    fn put_digits(&mut self, x: u64)
        ensures { (d : ℕ) → x < 10 ^ suc d → Adds self.old self.new (decimal_in (suc d) x) }
    {
        if x < 10 {
            self.put(&[b'0' + x as u8]);
            return;
        }
        self.put_digits(x / 10);
        self.put(&[b'0' + (x % 10) as u8]);
    }

    fn put_decimal(&mut self, x: u64)
        ensures { Adds self.old self.new (decimal x) }
    {
        self.put_digits(x);
    }

    fn put_field(&mut self, word: &[u8], x: u64)
        ensures { Adds self.old self.new (field word.now x) }
    {
        self.put(word);
        self.put_decimal(x);
    }

    fn put_head(&mut self, c: Compiled, n: u64, count: u64)
        ensures { Adds self.old self.new (head c.s c.t n c.made c.steps count) }
    {
        self.put_field(b"slots ", c.t as u64);
        self.put_field(b" schools ", c.s as u64);
        self.put_field(b" packages ", n);
        self.put_field(b"\nnodes ", c.made as u64);
        self.put_field(b" steps ", c.steps as u64);
        self.put_field(b"\ntimetables ", count);
        self.put(b"\n");
    }

    fn put_packages(&mut self, list: &[u16])
        ensures { Adds self.old self.new (packages_text list.now) }
    {
        for p in list {
            self.put_field(b" ", *p as u64);
        }
    }

    fn put_timetable(&mut self, k: u64, list: &[u16], costs: &[u16])
        requires { length list.now ≤ 64 }
        ensures { Adds self.old self.new (timetable_line costs.now k list.now) }
    {
        let cost = cost_of(costs, list);
        self.put_decimal(k);
        self.put_field(b" cost ", cost);
        self.put(b":");
        self.put_packages(list);
        self.put(b"\n");
    }

    fn put_refused(&mut self, number: u8)
        ensures { Adds self.old self.new (refused_line number) }
    {
        self.put_field(b"refused ", number as u64);
        self.put(b"\n");
    }
}

pub fn put_refused(out: &mut [u8], at: usize, number: u8) -> usize
    ensures { Puts out.old at out.new result (refused_line number) }
{
    let mut writer = Writer {
        buffer: out,
        len: at,
    };
    writer.put_refused(number);
    writer.len
}

// The cost of package p, 0 where there is none.
fn price(costs: &[u16], p: u16) -> u64
    ensures { (result ≡ get_or costs.now p 0) × (result < 65536) }
{
    costs.get(p as usize).map_or(0, |x| *x as u64)
}

fn cost_of(costs: &[u16], list: &[u16]) -> u64
    requires { length list.now ≤ 64 }
    ensures { result ≡ cost costs.now list.now }
{
    let mut sum: u64 = 0;
    for p in list {
        sum += price(costs, *p);
    }
    sum
}

// How many packages cheapest wrote; 0 for a refusal, which the caller rules out.
fn priced(p: Result<Priced, Refusal>) -> usize
    ensures { (n x : ℕ) → cheapest_reply p ≡ gives (n, x) → result ≡ n }
{
    p.map_or(0, |x| x.packages)
}

// What the engine is asked about: a week's packages, and what they cost.
#[derive(Clone, Copy)]
struct Week<'a> {
    m: u32,
    packages: &'a [u64],
    optional: Items,
    order: &'a [u8],
    costs: &'a [u16],
}

// The line of the k-th timetable of the answer a. Pick refuses nothing here.
fn put_nth(week: &Week, t: &[u32], a: u32, k: u64, work: &mut [u64], out: &mut Writer)
    requires listable { Listable (problem week.now) week.now.m t.now a (length work.old) }
    requires k_in_bounds { k < length (family_at t.now a) }
    ensures { Adds out.old out.new (timetable_line week.now.costs.now k (nth (family_at t.now a) k)) }
{
    let mut page = [0u16; 64];
    let picked = engine::pick(
        week.m,
        week.packages,
        week.optional,
        week.order,
        t,
        a,
        k,
        work,
        &mut page,
    );
    let n = picked.unwrap_or(0);
    out.put_timetable(k, &page[..n], week.costs);
}

// The lines of the first n timetables.
fn put_timetables(week: &Week, t: &[u32], a: u32, n: u64, work: &mut [u64], out: &mut Writer)
    requires listable { Listable (problem week.now) week.now.m t.now a (length work.old) }
    requires n_in_bounds { n ≤ length (family_at t.now a) }
    ensures { Adds out.old out.new (timetable_lines week.now.costs.now (family_at t.now a) n) }
{
    for k in 0..n {
        put_nth(week, t, a, k, work, out);
    }
}

// The last line, of an answer that holds count timetables.
fn put_last(week: &Week, t: &[u32], a: u32, count: u64, work: &mut [u64], out: &mut Writer)
    requires listable { Listable (problem week.now) week.now.m t.now a (length work.old) }
    requires costs_len { length week.now.costs.now ≡ length (sets_of week.now.packages.now) }
    requires count_value { count ≡ length (family_at t.now a) }
    ensures { Adds out.old out.new (last_line week.now.costs.now (family_at t.now a)) }
{
    if count == 0 {
        out.put(b"cheapest none\n");
        return;
    }
    let mut page = [0u16; 64];
    let p = engine::cheapest(
        week.m,
        week.packages,
        week.optional,
        week.order,
        week.costs,
        t,
        a,
        work,
        &mut page,
    );
    let n = priced(p);
    let placed = engine::place(
        week.m,
        week.packages,
        week.optional,
        week.order,
        t,
        a,
        &page[..n],
        work,
    );
    let k = placed.unwrap_or(0);
    out.put_field(b"cheapest ", k);
    out.put(b"\n");
}

// What was compiled: s schools and t slots, the answer's number, and the report's counts.
#[derive(Clone, Copy)]
struct Compiled {
    s: u32,
    t: u32,
    answer: u32,
    made: u32,
    steps: u32,
}

// The lines of an answer that holds count timetables.
fn put_sheet(
    c: Compiled,
    week: &Week,
    table: &[u32],
    count: u64,
    work: &mut [u64],
    out: &mut Writer,
)
    requires listable { Listable (problem week.now) week.now.m table.now c.answer (length work.old) }
    requires costs_len { length week.now.costs.now ≡ length (sets_of week.now.packages.now) }
    requires count_value { count ≡ length (family_at table.now c.answer) }
    ensures { Adds out.old out.new (sheet c.s c.t (length (sets_of week.now.packages.now)) week.now.costs.now
        (family_at table.now c.answer) c.made c.steps) }
{
    let n = exact_cover::number(week.packages) as u64;
    out.put_head(c, n, count);
    put_timetables(week, table, c.answer, count.min(10), work, out);
    put_last(week, table, c.answer, count, work, out);
}

// The text of cover's answer.
fn put_answer(c: Compiled, week: &Week, table: &[u32], work: &mut [u64], out: &mut Writer)
    requires askable { Askable (problem week.now) week.now.m table.now c.answer (length work.old) }
    requires costs_len { length week.now.costs.now ≡ length (sets_of week.now.packages.now) }
    ensures { Adds out.old out.new (answer_text c.s c.t (length (sets_of week.now.packages.now)) week.now.costs.now
        (family_at table.now c.answer) c.made c.steps) }
{
    let counted = engine::count(
        week.m,
        week.packages,
        week.optional,
        week.order,
        table,
        c.answer,
        work,
    );
    match counted {
        Err(refusal) => out.put_refused(refusal.number()),
        Ok(count) => put_sheet(c, week, table, count, work, out),
    }
}

// The text for s schools and t slots.
fn put_solution(s: u32, t: u32, week: &Week, out: &mut Writer)
    requires costs_len { length week.now.costs.now ≡ length (sets_of week.now.packages.now) }
    requires m_value { week.now.m ≡ s + t }
    requires t_bound { s + t ≤ 64 }
    ensures { Adds out.old out.new (solved s t (problem week.now) week.now.costs.now) }
{
    let mut table = [0u32; 5401];
    let mut work = [0u64; 3604];
    let d = itemset::all_below(week.m);
    let report = engine::cover(
        week.m,
        week.packages,
        week.optional,
        week.order,
        &mut table,
        d,
        1000000,
        &mut work,
    );
    match report.outcome {
        Err(refusal) => out.put_refused(refusal.number()),
        Ok(answer) => {
            let c = Compiled {
                s,
                t,
                answer,
                made: report.made,
                steps: report.steps,
            };
            put_answer(c, week, &table, &mut work, out)
        }
    }
}

// What the program prints for a file, whole, to the start of the buffer, which is long enough for every text (proofs/Room); returns how long it is.
pub fn lines(file: &[u8], out: &mut [u8; 16384]) -> usize
    ensures { Whole 16384 out.new result (printed file.now) }
{
    // Room for 512 packages, three words each.
    let mut packages = [0u64; 1536];
    let mut costs = [0u16; 512];
    let reading = bids::read(file, &mut packages, &mut costs);
    // A file names no order.
    let order = exact_cover::plain_order();
    match reading {
        Err(refusal) => put_refused(out, 0, refusal.number()),
        Ok(read) => {
            let m = read.schools + read.slots;
            let week = Week {
                m,
                packages: &packages[..3 * read.packages],
                optional: read.optional,
                order: &order[..m as usize],
                costs: &costs[..read.packages],
            };
            let mut writer = Writer {
                buffer: out,
                len: 0,
            };
            put_solution(read.schools, read.slots, &week, &mut writer);
            writer.len
        }
    }
}
