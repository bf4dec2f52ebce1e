// The public calls for C, as exported functions on numbers, slices and structs by value: include/mogedorn.h describes them. Each has the contract of the
// engine's call, of the reply that its struct says (specs/Structs), and none has a `requires`, since nothing checks a C caller.
#![tactic(auto)]

ghost use Rattle.std.specs.Prelude.{◌≡◌, min, length};
ghost use Rattle.itemset.specs.Words.{width, value_of};
ghost use Rattle.exact_cover.specs.Problem.{problem_of};
ghost use Rattle.statement.specs.Replies.{reply, reply_of, cheapest_reply, closest_reply, report_of};
ghost use Rattle.statement.specs.Postconditions.{CheckPost, CountPost, MeasurePost, PickPost, PlacePost, CheapestPost, ClosestPost, WithdrawPost};
ghost use Rattle.statement.specs.Postconditions.{CoverPost, EitherPost, BothPost, OnlyPost, WithPost, WithoutPost, JoinPost};
ghost use Rattle.statement.specs.Examples.{all_items};
ghost use Rattle.bids.specs.Format.{version1, version2};
ghost use Rattle.bids.specs.Contract.{read_reply, ReadPost};
ghost use Rattle.conversion.specs.Contract.{ConvertPost};
ghost use Rattle.capi.specs.Structs.{shown, numbered, packages_in, priced_in, compared_in, read_in};
ghost use Rattle.capi.specs.Structs.{BlankReport, BlankNumber, BlankPick, BlankTimetable, BlankComparison, BlankBids};

use statement::{Compared, Priced, Refusal};

// What the calls that make an answer return. In each struct a refusal of 0 means that the call answered.
#[repr(C)]
#[derive(Clone, Copy)]
pub struct Report {
    pub refusal: u32,
    pub answer: u32,
    pub steps: u32,
    pub made: u32,
}

// What count, measure, place, withdraw and the converters of bids files return.
#[repr(C)]
#[derive(Clone, Copy)]
pub struct Number {
    pub refusal: u32,
    pub value: u64,
}

// What pick and cheapest return: how many packages they wrote, and from cheapest their cost.
#[repr(C)]
#[derive(Clone, Copy)]
pub struct Timetable {
    pub refusal: u32,
    pub cost: u32,
    pub packages: u64,
}

// What closest returns: how many packages it wrote, and in how many they and the given timetable differ.
#[repr(C)]
#[derive(Clone, Copy)]
pub struct Comparison {
    pub refusal: u32,
    pub difference: u32,
    pub packages: u64,
}

// What the readers of bids files return: S, T, N and the optional items.
#[repr(C)]
#[derive(Clone, Copy)]
pub struct Bids {
    pub refusal: u32,
    pub schools: u32,
    pub slots: u32,
    pub packages: u64,
    pub optional: [u64; 3],
}

// The border: no enum crosses it. Each function makes the struct that says what a call's result says.

fn refusal(r: Result<(), Refusal>) -> u32
    ensures { reply result tt ≡ reply_of r }
{
    match r {
        Ok(()) => 0,
        Err(refusal) => refusal.number() as u32,
    }
}

fn reported(r: statement::Report) -> Report
    ensures says { shown result ≡ report_of r }
    ensures blank_report { BlankReport result }
{
    match r.outcome {
        Ok(answer) => Report {
            refusal: 0,
            answer,
            steps: r.steps,
            made: r.made,
        },
        Err(refusal) => Report {
            refusal: refusal.number() as u32,
            answer: 0,
            steps: r.steps,
            made: r.made,
        },
    }
}

fn counted(r: Result<u64, Refusal>) -> Number
    ensures says { numbered result ≡ reply_of r }
    ensures blank_number { BlankNumber result }
{
    match r {
        Ok(value) => Number { refusal: 0, value },
        Err(refusal) => Number {
            refusal: refusal.number() as u32,
            value: 0,
        },
    }
}

// The same of a length, and of a number of nodes.
fn measured(r: Result<usize, Refusal>) -> Number
    ensures says { numbered result ≡ reply_of r }
    ensures blank_number { BlankNumber result }
{
    match r {
        Ok(n) => counted(Ok(n as u64)),
        Err(refusal) => counted(Err(refusal)),
    }
}

fn withdrawn(r: Result<u32, Refusal>) -> Number
    ensures says { numbered result ≡ reply_of r }
    ensures blank_number { BlankNumber result }
{
    match r {
        Ok(n) => counted(Ok(n as u64)),
        Err(refusal) => counted(Err(refusal)),
    }
}

fn picked(r: Result<usize, Refusal>) -> Timetable
    ensures says { packages_in result ≡ reply_of r }
    ensures blank_pick { BlankPick result }
{
    match r {
        Ok(n) => Timetable {
            refusal: 0,
            cost: 0,
            packages: n as u64,
        },
        Err(refusal) => Timetable {
            refusal: refusal.number() as u32,
            cost: 0,
            packages: 0,
        },
    }
}

fn priced(r: Result<Priced, Refusal>) -> Timetable
    ensures says { priced_in result ≡ cheapest_reply r }
    ensures blank_timetable { BlankTimetable result }
{
    match r {
        Ok(p) => Timetable {
            refusal: 0,
            cost: p.cost,
            packages: p.packages as u64,
        },
        Err(refusal) => Timetable {
            refusal: refusal.number() as u32,
            cost: 0,
            packages: 0,
        },
    }
}

fn compared(r: Result<Compared, Refusal>) -> Comparison
    ensures says { compared_in result ≡ closest_reply r }
    ensures blank_comparison { BlankComparison result }
{
    match r {
        Ok(p) => Comparison {
            refusal: 0,
            difference: p.difference,
            packages: p.packages as u64,
        },
        Err(refusal) => Comparison {
            refusal: refusal.number() as u32,
            difference: 0,
            packages: 0,
        },
    }
}

fn read(r: Result<bids::Bids, Refusal>) -> Bids
    ensures says { read_in result ≡ read_reply r }
    ensures blank_bids { BlankBids result }
{
    match r {
        Ok(b) => Bids {
            refusal: 0,
            schools: b.schools,
            slots: b.slots,
            packages: b.packages as u64,
            optional: [b.optional.w0, b.optional.w1, b.optional.w2],
        },
        Err(refusal) => Bids {
            refusal: refusal.number() as u32,
            schools: 0,
            slots: 0,
            packages: 0,
            optional: [0, 0, 0],
        },
    }
}

// The entries.

#[unsafe(no_mangle)]
pub extern "C" fn mogedorn_check(
    m: u32,
    packages: &[u64],
    optional: &[u64; 3],
    order: &[u8],
    t: &[u32],
) -> u32
    ensures { CheckPost (problem_of packages.now (value_of optional.now) order.now) m t.now (reply result tt) }
{
    let o = itemset::of_words(optional);
    refusal(engine::check(m, packages, o, order, t))
}

#[unsafe(no_mangle)]
pub extern "C" fn mogedorn_count(
    m: u32,
    packages: &[u64],
    optional: &[u64; 3],
    order: &[u8],
    t: &[u32],
    answer: u32,
    work: &mut [u64],
) -> Number
    ensures count_post { CountPost (problem_of packages.now (value_of optional.now) order.now) m t.now answer (length work.old) (numbered result) }
    ensures blank_number { BlankNumber result }
{
    let o = itemset::of_words(optional);
    counted(engine::count(m, packages, o, order, t, answer, work))
}

#[unsafe(no_mangle)]
pub extern "C" fn mogedorn_measure(
    m: u32,
    packages: &[u64],
    optional: &[u64; 3],
    order: &[u8],
    t: &[u32],
    answer: u32,
    k: u64,
    work: &mut [u64],
) -> Number
    ensures measure_post { MeasurePost (problem_of packages.now (value_of optional.now) order.now) m t.now answer k (length work.old) (numbered result) }
    ensures blank_number { BlankNumber result }
{
    let o = itemset::of_words(optional);
    measured(engine::measure(m, packages, o, order, t, answer, k, work))
}

#[unsafe(no_mangle)]
pub extern "C" fn mogedorn_pick(
    m: u32,
    packages: &[u64],
    optional: &[u64; 3],
    order: &[u8],
    t: &[u32],
    answer: u32,
    k: u64,
    work: &mut [u64],
    page: &mut [u16],
) -> Timetable
    ensures pick_post { PickPost (problem_of packages.now (value_of optional.now) order.now) m t.now answer k (length work.old)
        page.old (packages_in result) page.new }
    ensures blank_pick { BlankPick result }
{
    let o = itemset::of_words(optional);
    picked(engine::pick(m, packages, o, order, t, answer, k, work, page))
}

#[unsafe(no_mangle)]
pub extern "C" fn mogedorn_place(
    m: u32,
    packages: &[u64],
    optional: &[u64; 3],
    order: &[u8],
    t: &[u32],
    answer: u32,
    list: &[u16],
    work: &mut [u64],
) -> Number
    ensures place_post { PlacePost (problem_of packages.now (value_of optional.now) order.now) m t.now answer list.now
        (length work.old) (numbered result) }
    ensures blank_number { BlankNumber result }
{
    let o = itemset::of_words(optional);
    counted(engine::place(m, packages, o, order, t, answer, list, work))
}

#[unsafe(no_mangle)]
pub extern "C" fn mogedorn_cheapest(
    m: u32,
    packages: &[u64],
    optional: &[u64; 3],
    order: &[u8],
    costs: &[u16],
    t: &[u32],
    answer: u32,
    work: &mut [u64],
    page: &mut [u16],
) -> Timetable
    ensures cheapest_post { CheapestPost (problem_of packages.now (value_of optional.now) order.now) m costs.now
        t.now answer (length work.old) page.old (priced_in result) page.new }
    ensures blank_timetable { BlankTimetable result }
{
    let o = itemset::of_words(optional);
    priced(engine::cheapest(m, packages, o, order, costs, t, answer, work, page))
}

// Of the timetables of the answer that differ from the list in the fewest packages the first listed.
#[unsafe(no_mangle)]
pub extern "C" fn mogedorn_closest(
    m: u32,
    packages: &[u64],
    optional: &[u64; 3],
    order: &[u8],
    t: &[u32],
    answer: u32,
    list: &[u16],
    work: &mut [u64],
    page: &mut [u16],
) -> Comparison
    ensures closest_post { ClosestPost (problem_of packages.now (value_of optional.now) order.now) m t.now answer
        list.now (length work.old) page.old (compared_in result) page.new }
    ensures blank_comparison { BlankComparison result }
{
    let o = itemset::of_words(optional);
    compared(engine::closest(m, packages, o, order, t, answer, list, work, page))
}

#[unsafe(no_mangle)]
pub extern "C" fn mogedorn_cover(
    m: u32,
    packages: &[u64],
    optional: &[u64; 3],
    order: &[u8],
    t: &mut [u32],
    d: &[u64; 3],
    limit: u32,
    work: &mut [u64],
) -> Report
    ensures cover_post { CoverPost (problem_of packages.now (value_of optional.now) order.now) m t.old (value_of d.now) limit
        (length work.old) (shown result) t.new }
    ensures blank_report { BlankReport result }
{
    let o = itemset::of_words(optional);
    let items = itemset::of_words(d);
    reported(engine::cover(m, packages, o, order, t, items, limit, work))
}

#[unsafe(no_mangle)]
pub extern "C" fn mogedorn_either(
    m: u32,
    packages: &[u64],
    optional: &[u64; 3],
    order: &[u8],
    t: &mut [u32],
    a: u32,
    b: u32,
    work: &mut [u64],
) -> Report
    ensures either_post { EitherPost (problem_of packages.now (value_of optional.now) order.now) m t.old a b
        (length work.old) (shown result) t.new }
    ensures blank_report { BlankReport result }
{
    let o = itemset::of_words(optional);
    reported(engine::either(m, packages, o, order, t, a, b, work))
}

#[unsafe(no_mangle)]
pub extern "C" fn mogedorn_both(
    m: u32,
    packages: &[u64],
    optional: &[u64; 3],
    order: &[u8],
    t: &mut [u32],
    a: u32,
    b: u32,
    work: &mut [u64],
) -> Report
    ensures both_post { BothPost (problem_of packages.now (value_of optional.now) order.now) m t.old a b
        (length work.old) (shown result) t.new }
    ensures blank_report { BlankReport result }
{
    let o = itemset::of_words(optional);
    reported(engine::both(m, packages, o, order, t, a, b, work))
}

#[unsafe(no_mangle)]
pub extern "C" fn mogedorn_only(
    m: u32,
    packages: &[u64],
    optional: &[u64; 3],
    order: &[u8],
    t: &mut [u32],
    a: u32,
    b: u32,
    work: &mut [u64],
) -> Report
    ensures only_post { OnlyPost (problem_of packages.now (value_of optional.now) order.now) m t.old a b
        (length work.old) (shown result) t.new }
    ensures blank_report { BlankReport result }
{
    let o = itemset::of_words(optional);
    reported(engine::only(m, packages, o, order, t, a, b, work))
}

#[unsafe(no_mangle)]
pub extern "C" fn mogedorn_with(
    m: u32,
    packages: &[u64],
    optional: &[u64; 3],
    order: &[u8],
    t: &mut [u32],
    a: u32,
    p: u32,
    work: &mut [u64],
) -> Report
    ensures with_post { WithPost (problem_of packages.now (value_of optional.now) order.now) m t.old a p
        (length work.old) (shown result) t.new }
    ensures blank_report { BlankReport result }
{
    let o = itemset::of_words(optional);
    reported(engine::with(m, packages, o, order, t, a, p, work))
}

#[unsafe(no_mangle)]
pub extern "C" fn mogedorn_without(
    m: u32,
    packages: &[u64],
    optional: &[u64; 3],
    order: &[u8],
    t: &mut [u32],
    a: u32,
    p: u32,
    work: &mut [u64],
) -> Report
    ensures without_post { WithoutPost (problem_of packages.now (value_of optional.now) order.now) m t.old a p
        (length work.old) (shown result) t.new }
    ensures blank_report { BlankReport result }
{
    let o = itemset::of_words(optional);
    reported(engine::without(m, packages, o, order, t, a, p, work))
}

// Every union of a timetable of a and one of b, which have no item in common.
#[unsafe(no_mangle)]
pub extern "C" fn mogedorn_join(
    m: u32,
    packages: &[u64],
    optional: &[u64; 3],
    order: &[u8],
    t: &mut [u32],
    a: u32,
    b: u32,
    work: &mut [u64],
) -> Report
    ensures join_post { JoinPost (problem_of packages.now (value_of optional.now) order.now) m t.old a b
        (length work.old) (shown result) t.new }
    ensures blank_report { BlankReport result }
{
    let o = itemset::of_words(optional);
    reported(engine::join(m, packages, o, order, t, a, b, work))
}

// Packages withdrawn: the listed answers are replaced in place by what is left of them, and the nodes left are counted.
#[unsafe(no_mangle)]
pub extern "C" fn mogedorn_withdraw(
    m: u32,
    packages: &[u64],
    optional: &[u64; 3],
    order: &[u8],
    t: &mut [u32],
    gone: &[u16],
    answers: &mut [u32],
    work: &mut [u64],
) -> Number
    ensures withdraw_post { WithdrawPost (problem_of packages.now (value_of optional.now) order.now) m t.old gone.now
        answers.old (length work.old) (numbered result) t.new answers.new }
    ensures blank_number { BlankNumber result }
{
    let o = itemset::of_words(optional);
    withdrawn(engine::withdraw(m, packages, o, order, t, gone, answers, work))
}

// The set of all items below m, to three words; above 192 it is that of 192.
#[unsafe(no_mangle)]
pub extern "C" fn mogedorn_all_items(m: u32, d: &mut [u64; 3])
    ensures { value_of d.new ≡ all_items (min m width) }
{
    let items = itemset::all_below(m);
    itemset::write(d, 0, items);
}

// Reads a bids file of version 1: the packages' item sets, three words each, and costs to the start of the buffers.
#[unsafe(no_mangle)]
pub extern "C" fn mogedorn_read_bids(file: &[u8], packages: &mut [u64], costs: &mut [u16]) -> Bids
    ensures read_post { ReadPost version1 file.now (read_in result) packages.old packages.new costs.old costs.new }
    ensures blank_bids { BlankBids result }
{
    read(bids::read(file, packages, costs))
}

// The same of version 2.
#[unsafe(no_mangle)]
pub extern "C" fn mogedorn_read_bids2(file: &[u8], packages: &mut [u64], costs: &mut [u16]) -> Bids
    ensures read_post { ReadPost version2 file.now (read_in result) packages.old packages.new costs.old costs.new }
    ensures blank_bids { BlankBids result }
{
    read(bids::read2(file, packages, costs))
}

// Writes the version 2 file that says what a version 1 file does to the start of a buffer; and the other way.
#[unsafe(no_mangle)]
pub extern "C" fn mogedorn_convert_up(file: &[u8], out: &mut [u8]) -> Number
    ensures convert_post { ConvertPost version1 version2 file.now (numbered result) out.old out.new }
    ensures blank_number { BlankNumber result }
{
    measured(conversion::up(file, out))
}

#[unsafe(no_mangle)]
pub extern "C" fn mogedorn_convert_down(file: &[u8], out: &mut [u8]) -> Number
    ensures convert_post { ConvertPost version2 version1 file.now (numbered result) out.old out.new }
    ensures blank_number { BlankNumber result }
{
    measured(conversion::down(file, out))
}
