// The public calls of documents 01 and 02. None has a `requires`: each refuses what it cannot take, in the order of the table of refusals, and its one
// `ensures` (a record of `statement`'s specs/Postconditions) fixes the result, the table and the page.
//
// m is M, packages the N item sets, three words each, optional the items that need not be covered, order a list of the m items, each once, by which one is
// earlier than another; t has the table's words, work are the working words, whose contents before a call do not matter.
#![tactic(auto)]

ghost use Rattle.std.specs.Prelude.{◌≡◌, true, ℕ, ◌+◌, ◌≤◌, ◌<◌, List, length, is_some};
ghost use Rattle.base.specs.Lists.{any};
ghost use Rattle.itemset.specs.Words.{value, sets_of};
ghost use Rattle.zdd.specs.Table.{count as nodes};
ghost use Rattle.exact_cover.specs.Problem.{problem_of};
ghost use Rattle.statement.specs.Replies.{number_of, refusal_of, reply_of, cheapest_reply, closest_reply, report_of};
ghost use Rattle.statement.specs.Refusals.{first_of, open_tests, unknown_answer, not_rising};
ghost use Rattle.statement.specs.Postconditions.{Declined, CheckPost, CountPost, MeasurePost, PickPost, PlacePost, CheapestPost, ClosestPost, WithdrawPost};
ghost use Rattle.statement.specs.Postconditions.{AnswerPost, CoverPost, EitherPost, BothPost, OnlyPost, WithPost, WithoutPost, JoinPost};
ghost use Rattle.support.specs.Support.{Labelled};
ghost use Rattle.table.specs.State.{Room};
ghost use Rattle.engine.specs.Opened.{Opened, OpenedAt, OpenedList, OpenedPriced};
ghost use Rattle.engine.specs.Reports.{failure_number, Reported, pair_call, join_front, PairTested, part_call};
ghost use Rattle.engine.specs.Withdrawing.{WithdrawTested};

use compile::Failure;
use family::Operation;
use itemset::Items;
use statement::{Call, Compared, Priced, Refusal, Report};

// The soundness check: 1, 2, 29, 30, 34, 4 or sound.
pub fn check(
    m: u32,
    packages: &[u64],
    optional: Items,
    order: &[u8],
    t: &[u32],
) -> Result<(), Refusal>
    ensures { CheckPost (problem_of packages.now (value optional) order.now) m t.now (reply_of result) }
{
    let mut keys = [0u32; 512];
    let mut index = [0u16; 131072];
    guard::admit(m, packages, optional, order, t, &mut keys, &mut index)
}

// Refusal 1, 2, 29, 30, 34, 4 or 5 of a call that reads an answer; where none applies, the keys are ready.
fn open(
    m: u32,
    packages: &[u64],
    optional: Items,
    order: &[u8],
    t: &[u32],
    answer: u32,
    keys: &mut [u32; 512],
) -> Result<(), Refusal>
    requires { length keys.old ≡ 512 }
    ensures { Opened (open_tests (problem_of packages.now (value optional) order.now) m t.now answer)
        (problem_of packages.now (value optional) order.now) t.now keys.new answer (refusal_of result) }
{
    let mut index = [0u16; 131072];
    guard::admit(m, packages, optional, order, t, keys, &mut index)?;
    if t[0] as usize + 2 <= answer as usize {
        return Err(Refusal::UnknownAnswer);
    }
    Ok(())
}

// How many timetables the answer holds.
pub fn count(
    m: u32,
    packages: &[u64],
    optional: Items,
    order: &[u8],
    t: &[u32],
    answer: u32,
    work: &mut [u64],
) -> Result<u64, Refusal>
    ensures { CountPost (problem_of packages.now (value optional) order.now) m t.now answer (length work.old) (reply_of result) }
{
    let mut keys = [0u32; 512];
    open(m, packages, optional, order, t, answer, &mut keys)?;
    let a = answer as usize;
    if work.len() <= a {
        return Err(Refusal::ShortWork);
    }
    query::count(t, a, work).ok_or(Refusal::Uncountable)
}

// Refusal 1, 2, 29, 30, 34, 4, 5, 8, 11 or 12 of a call for the k-th timetable; where none applies, the words have the counts that the walks go by.
fn open_at(
    m: u32,
    packages: &[u64],
    optional: Items,
    order: &[u8],
    t: &[u32],
    answer: u32,
    k: u64,
    work: &mut [u64],
) -> Result<(), Refusal>
    ensures { OpenedAt (problem_of packages.now (value optional) order.now) m t.now answer k (length work.old) work.new (refusal_of result) }
{
    let mut keys = [0u32; 512];
    open(m, packages, optional, order, t, answer, &mut keys)?;
    let a = answer as usize;
    if work.len() <= a {
        return Err(Refusal::ShortWork);
    }
    let n = query::count(t, a, work).ok_or(Refusal::Uncountable)?;
    if n <= k {
        return Err(Refusal::PastTheEnd);
    }
    Ok(())
}

// How many packages the k-th timetable of the answer has: the first walk of `pick`.
pub fn measure(
    m: u32,
    packages: &[u64],
    optional: Items,
    order: &[u8],
    t: &[u32],
    answer: u32,
    k: u64,
    work: &mut [u64],
) -> Result<usize, Refusal>
    ensures { MeasurePost (problem_of packages.now (value optional) order.now) m t.now answer k (length work.old) (reply_of result) }
{
    open_at(m, packages, optional, order, t, answer, k, work)?;
    Ok(query::measure(t, answer as usize, k, work))
}

// The k-th timetable of the answer, to the start of the page: one walk measures it, and where the page is long enough a second writes it.
pub fn pick(
    m: u32,
    packages: &[u64],
    optional: Items,
    order: &[u8],
    t: &[u32],
    answer: u32,
    k: u64,
    work: &mut [u64],
    page: &mut [u16],
) -> Result<usize, Refusal>
    ensures { PickPost (problem_of packages.now (value optional) order.now) m t.now answer k
        (length work.old) page.old (reply_of result) page.new }
{
    open_at(m, packages, optional, order, t, answer, k, work)?;
    query::pick(t, answer as usize, k, work, page).ok_or(Refusal::ShortPage)
}

// Refusal 1, 2, 29, 30, 34, 4, 5, 6 or 8 of a call that is lent a list of packages; where none applies, the list is in precedence.
fn open_list(
    m: u32,
    packages: &[u64],
    optional: Items,
    order: &[u8],
    t: &[u32],
    answer: u32,
    list: &[u16],
    words: usize,
) -> Result<(), Refusal>
    ensures { OpenedList (problem_of packages.now (value optional) order.now) m t.now answer list.now words (refusal_of result) }
{
    let mut keys = [0u32; 512];
    open(m, packages, optional, order, t, answer, &mut keys)?;
    let n = exact_cover::number(packages);
    if !query::in_precedence(list, &keys[..n]) {
        return Err(Refusal::UnknownPackage);
    }
    if words <= answer as usize {
        return Err(Refusal::ShortWork);
    }
    Ok(())
}

// Where the list stands in the listing of the answer.
pub fn place(
    m: u32,
    packages: &[u64],
    optional: Items,
    order: &[u8],
    t: &[u32],
    answer: u32,
    list: &[u16],
    work: &mut [u64],
) -> Result<u64, Refusal>
    ensures { PlacePost (problem_of packages.now (value optional) order.now) m t.now answer list.now (length work.old) (reply_of result) }
{
    open_list(m, packages, optional, order, t, answer, list, work.len())?;
    let a = answer as usize;
    query::count(t, a, work).ok_or(Refusal::Uncountable)?;
    query::place(t, a, list, work).ok_or(Refusal::Absent)
}

// Refusal 1, 2, 29, 30, 34, 3, 4 or 5: the tests of the packages come before 3, and once more, passed, before those of the table.
fn open_priced(
    m: u32,
    packages: &[u64],
    optional: Items,
    order: &[u8],
    costs: &[u16],
    t: &[u32],
    answer: u32,
    keys: &mut [u32; 512],
) -> Result<(), Refusal>
    requires { length keys.old ≡ 512 }
    ensures { OpenedPriced (problem_of packages.now (value optional) order.now) m costs.now t.now keys.new answer (refusal_of result) }
{
    guard::admit_packages(m, packages, optional, order)?;
    if costs.len() != exact_cover::number(packages) {
        return Err(Refusal::CostList);
    }
    open(m, packages, optional, order, t, answer, keys)
}

// Of the timetables of the answer with the least cost the first listed, to the start of the page.
pub fn cheapest(
    m: u32,
    packages: &[u64],
    optional: Items,
    order: &[u8],
    costs: &[u16],
    t: &[u32],
    answer: u32,
    work: &mut [u64],
    page: &mut [u16],
) -> Result<Priced, Refusal>
    ensures { CheapestPost (problem_of packages.now (value optional) order.now) m costs.now t.now answer (length work.old)
        page.old (cheapest_reply result) page.new }
{
    let mut keys = [0u32; 512];
    open_priced(m, packages, optional, order, costs, t, answer, &mut keys)?;
    let a = answer as usize;
    if work.len() < a + 1 {
        return Err(Refusal::ShortWork);
    }
    if a == 0 {
        return Err(Refusal::Nothing);
    }
    let chosen = query::cheapest(costs, t, a, work, page).ok_or(Refusal::ShortPage)?;
    Ok(Priced {
        packages: chosen.packages,
        cost: chosen.weight,
    })
}

// Of the timetables of the answer that differ from the list in the fewest packages the first listed, to the start of the page.
pub fn closest(
    m: u32,
    packages: &[u64],
    optional: Items,
    order: &[u8],
    t: &[u32],
    answer: u32,
    list: &[u16],
    work: &mut [u64],
    page: &mut [u16],
) -> Result<Compared, Refusal>
    ensures { ClosestPost (problem_of packages.now (value optional) order.now) m t.now answer list.now
        (length work.old) page.old (closest_reply result) page.new }
{
    open_list(m, packages, optional, order, t, answer, list, work.len())?;
    let a = answer as usize;
    if a == 0 {
        return Err(Refusal::Nothing);
    }
    let chosen = query::closest(list, t, a, work, page).ok_or(Refusal::ShortPage)?;
    Ok(Compared {
        packages: chosen.packages,
        difference: chosen.weight,
    })
}

// The report of a refusal: with the table left alone it is what `Declined` asks.
fn declined(refusal: Refusal) -> Report
    ensures { (t : List ℕ) → Declined (number_of refusal) t (report_of result) t }
{
    Report {
        outcome: Err(refusal),
        steps: 0,
        made: 0,
    }
}

// The report of a call whose answer has the number k; None is that there was no room for it. The table had `before` nodes before the call.
fn report(t: &[u32], before: u32, k: Option<u32>) -> Report
    requires t_nonzero { 0 < length t.now }
    requires before_bound { is_some k ≡ true → before ≤ nodes t.now }
    ensures { Reported t.now before k (report_of result) }
{
    match k {
        Some(k) => Report {
            outcome: Ok(k),
            steps: 0,
            made: t[0] - before,
        },
        None => declined(Refusal::Full),
    }
}

// Why a search made no answer, as a refusal.
fn unanswered(failure: Failure) -> Refusal
    ensures { number_of result ≡ failure_number failure }
{
    match failure {
        Failure::Spent => Refusal::Spent,
        Failure::Full => Refusal::Full,
    }
}

// The timetables covering d, with the step limit `limit` [document 01: B]: four working words are one place of the memo.
pub fn cover(
    m: u32,
    packages: &[u64],
    optional: Items,
    order: &[u8],
    t: &mut [u32],
    d: Items,
    limit: u32,
    work: &mut [u64],
) -> Report
    ensures { CoverPost (problem_of packages.now (value optional) order.now) m t.old (value d) limit (length work.old) (report_of result) t.new }
{
    let mut keys = [0u32; 512];
    let mut index = [0u16; 131072];
    if let Err(refusal) = guard::admit(m, packages, optional, order, t, &mut keys, &mut index) {
        return declined(refusal);
    }
    if !itemset::below(d, m) {
        return declined(Refusal::UnknownItem);
    }
    if work.len() < 4 {
        return declined(Refusal::ShortWork);
    }
    let found = compile::cover(
        packages,
        optional,
        order,
        t,
        &mut index,
        work,
        d,
        limit as u64,
    );
    match found {
        Ok(found) => Report {
            outcome: Ok(found.answer),
            steps: found.steps as u32,
            made: found.made,
        },
        Err(failure) => declined(unanswered(failure)),
    }
}

// Refusal 35 or 8 of a join of answers that the table knows, whatever is optional and whatever the order.
fn admit_join(packages: &[u64], t: &[u32], a: u32, b: u32, words: usize) -> Result<(), Refusal>
    requires labelled { Labelled (sets_of packages.now) t.now }
    requires a_bound { (a < nodes t.now + 2) × (b < nodes t.now + 2) }
    ensures { (optional : ℕ) (order : List ℕ) → refusal_of result ≡ first_of (join_front (problem_of packages.now optional order) t.now a b words) }
{
    if support::overlap(packages, t, a, b) {
        return Err(Refusal::Overlap);
    }
    let larger = (a as usize).max(b as usize);
    if words < larger.max(1) + 1 {
        return Err(Refusal::ShortWork);
    }
    Ok(())
}

// Refusal 5, 35 or 8 of a call on the answers a and b, whatever is optional and whatever the order.
fn admit_pair(
    packages: &[u64],
    t: &[u32],
    op: Operation,
    a: u32,
    b: u32,
    words: usize,
) -> Result<(), Refusal>
    requires { Labelled (sets_of packages.now) t.now }
    ensures { (optional : ℕ) (order : List ℕ) → PairTested (problem_of packages.now optional order) t.now op a b words (refusal_of result) }
{
    let n = t[0];
    if n + 2 <= a {
        return Err(Refusal::UnknownAnswer);
    }
    if n + 2 <= b {
        return Err(Refusal::UnknownAnswer);
    }
    match op {
        Operation::Join => admit_join(packages, t, a, b, words),
        _ if words < 2 => Err(Refusal::ShortWork),
        _ => Ok(()),
    }
}

// Union, intersection, difference or join of the answers a and b.
fn answer_pair(
    m: u32,
    packages: &[u64],
    optional: Items,
    order: &[u8],
    t: &mut [u32],
    op: Operation,
    a: u32,
    b: u32,
    work: &mut [u64],
) -> Report
    ensures { AnswerPost (problem_of packages.now (value optional) order.now) m t.old (pair_call op a b) (length work.old) (report_of result) t.new }
{
    let mut keys = [0u32; 512];
    let mut index = [0u16; 131072];
    if let Err(refusal) = guard::admit(m, packages, optional, order, t, &mut keys, &mut index) {
        return declined(refusal);
    }
    if let Err(refusal) = admit_pair(packages, t, op, a, b, work.len()) {
        return declined(refusal);
    }
    let n = t[0];
    let last = exact_cover::number(packages);
    let k = family::apply(t, &keys[..last], &mut index, work, op, a, b);
    report(t, n, k)
}

// The timetables of the answer a that hold the package p, or those that do not.
fn answer_part(
    m: u32,
    packages: &[u64],
    optional: Items,
    order: &[u8],
    t: &mut [u32],
    holding: bool,
    a: u32,
    p: u32,
    work: &mut [u64],
) -> Report
    ensures { AnswerPost (problem_of packages.now (value optional) order.now) m t.old (part_call holding a p) (length work.old) (report_of result) t.new }
{
    let mut keys = [0u32; 512];
    let mut index = [0u16; 131072];
    if let Err(refusal) = guard::admit(m, packages, optional, order, t, &mut keys, &mut index) {
        return declined(refusal);
    }
    let n = t[0];
    if n + 2 <= a {
        return declined(Refusal::UnknownAnswer);
    }
    if exact_cover::number(packages) <= p as usize {
        return declined(Refusal::UnknownPackage);
    }
    if work.len() < 2 {
        return declined(Refusal::ShortWork);
    }
    let last = exact_cover::number(packages);
    let k = family::restriction(t, &keys[..last], &mut index, p, holding, a);
    report(t, n, k)
}

// Any call that makes an answer. (Cover, the pairs and the parts have an index each: with one for all the compiler puts what the parts remember on the
// stack of the others too.)
pub fn answer(
    m: u32,
    packages: &[u64],
    optional: Items,
    order: &[u8],
    t: &mut [u32],
    c: Call,
    work: &mut [u64],
) -> Report
    ensures { AnswerPost (problem_of packages.now (value optional) order.now) m t.old c (length work.old) (report_of result) t.new }
{
    match c {
        Call::Cover { d, limit } => cover(m, packages, optional, order, t, d, limit, work),
        Call::Either { a, b } => answer_pair(
            m,
            packages,
            optional,
            order,
            t,
            Operation::Union,
            a,
            b,
            work,
        ),
        Call::Both { a, b } => answer_pair(
            m,
            packages,
            optional,
            order,
            t,
            Operation::Intersection,
            a,
            b,
            work,
        ),
        Call::Only { a, b } => answer_pair(
            m,
            packages,
            optional,
            order,
            t,
            Operation::Difference,
            a,
            b,
            work,
        ),
        Call::With { a, p } => answer_part(m, packages, optional, order, t, true, a, p, work),
        Call::Without { a, p } => answer_part(m, packages, optional, order, t, false, a, p, work),
        Call::Join { a, b } => answer_pair(
            m,
            packages,
            optional,
            order,
            t,
            Operation::Join,
            a,
            b,
            work,
        ),
    }
}

// Union: the timetables of a and those of b.
pub fn either(
    m: u32,
    packages: &[u64],
    optional: Items,
    order: &[u8],
    t: &mut [u32],
    a: u32,
    b: u32,
    work: &mut [u64],
) -> Report
    ensures { EitherPost (problem_of packages.now (value optional) order.now) m t.old a b (length work.old) (report_of result) t.new }
{
    answer(m, packages, optional, order, t, Call::Either { a, b }, work)
}

// Intersection: the timetables of a that b has too.
pub fn both(
    m: u32,
    packages: &[u64],
    optional: Items,
    order: &[u8],
    t: &mut [u32],
    a: u32,
    b: u32,
    work: &mut [u64],
) -> Report
    ensures { BothPost (problem_of packages.now (value optional) order.now) m t.old a b (length work.old) (report_of result) t.new }
{
    answer(m, packages, optional, order, t, Call::Both { a, b }, work)
}

// Difference: the timetables of a that b has not.
pub fn only(
    m: u32,
    packages: &[u64],
    optional: Items,
    order: &[u8],
    t: &mut [u32],
    a: u32,
    b: u32,
    work: &mut [u64],
) -> Report
    ensures { OnlyPost (problem_of packages.now (value optional) order.now) m t.old a b (length work.old) (report_of result) t.new }
{
    answer(m, packages, optional, order, t, Call::Only { a, b }, work)
}

// The timetables of a that hold p.
pub fn with(
    m: u32,
    packages: &[u64],
    optional: Items,
    order: &[u8],
    t: &mut [u32],
    a: u32,
    p: u32,
    work: &mut [u64],
) -> Report
    ensures { WithPost (problem_of packages.now (value optional) order.now) m t.old a p (length work.old) (report_of result) t.new }
{
    answer(m, packages, optional, order, t, Call::With { a, p }, work)
}

// The timetables of a that do not hold p.
pub fn without(
    m: u32,
    packages: &[u64],
    optional: Items,
    order: &[u8],
    t: &mut [u32],
    a: u32,
    p: u32,
    work: &mut [u64],
) -> Report
    ensures { WithoutPost (problem_of packages.now (value optional) order.now) m t.old a p (length work.old) (report_of result) t.new }
{
    answer(
        m,
        packages,
        optional,
        order,
        t,
        Call::Without { a, p },
        work,
    )
}

// Join: every union of a timetable of a and one of b, which have no item in common.
pub fn join(
    m: u32,
    packages: &[u64],
    optional: Items,
    order: &[u8],
    t: &mut [u32],
    a: u32,
    b: u32,
    work: &mut [u64],
) -> Report
    ensures { JoinPost (problem_of packages.now (value optional) order.now) m t.old a b (length work.old) (report_of result) t.new }
{
    answer(m, packages, optional, order, t, Call::Join { a, b }, work)
}

// ---- the withdrawal

// Whether the table does not know some of the answers.
fn any_unknown(t: &[u32], answers: &[u32]) -> bool
    requires { Room t.now }
    ensures { result ≡ any (unknown_answer t.now) answers.now }
{
    let n = t[0] as usize;
    for &answer in answers {
        if n + 2 <= answer as usize {
            return true;
        }
    }
    false
}

// Whether the list of withdrawn packages repeats itself, does not rise or has an unknown package, whatever is optional and whatever the order.
fn not_rising(packages: &[u64], gone: &[u16]) -> bool
    ensures { (optional : ℕ) (order : List ℕ) → result ≡ not_rising (problem_of packages.now optional order) gone.now }
{
    let n = exact_cover::number(packages);
    let mut least: usize = 0;
    for &package in gone {
        let p = package as usize;
        if p < least {
            return true;
        }
        if n <= p {
            return true;
        }
        least = p + 1;
    }
    false
}

// Refusal 5, 36 or 8 of a withdrawal, whatever is optional and whatever the order.
fn admit_withdrawal(
    packages: &[u64],
    t: &[u32],
    gone: &[u16],
    answers: &[u32],
    words: usize,
) -> Result<(), Refusal>
    requires { Room t.now }
    ensures { (optional : ℕ) (order : List ℕ) → WithdrawTested (problem_of packages.now optional order) t.now gone.now answers.now words (refusal_of result) }
{
    if any_unknown(t, answers) {
        return Err(Refusal::UnknownAnswer);
    }
    if not_rising(packages, gone) {
        return Err(Refusal::NotRising);
    }
    if words < t[0] as usize + 2 {
        return Err(Refusal::ShortWork);
    }
    Ok(())
}

// Packages withdrawn from the problem, and the table brought with them: each entry of the list of answers still in use is replaced by the number of those of
// its timetables that hold no withdrawn package, in the new numbers of the packages that remain; the nodes left are those below the entries. From then on the
// table belongs to the shortened list of packages. It returns how many nodes are left.
pub fn withdraw(
    m: u32,
    packages: &[u64],
    optional: Items,
    order: &[u8],
    t: &mut [u32],
    gone: &[u16],
    answers: &mut [u32],
    work: &mut [u64],
) -> Result<u32, Refusal>
    ensures { WithdrawPost (problem_of packages.now (value optional) order.now) m t.old gone.now answers.old (length work.old) (reply_of result) t.new answers.new }
{
    let mut keys = [0u32; 512];
    let mut index = [0u16; 131072];
    guard::admit(m, packages, optional, order, t, &mut keys, &mut index)?;
    admit_withdrawal(packages, t, gone, answers, work.len())?;
    let n = exact_cover::number(packages);
    Ok(withdraw::withdraw(t, &keys[..n], gone, answers, &mut index, work))
}
