// The exact covers of an item set as a diagram in the node table: search and trial, the memo and the step limit.
//
// Search of an item set and trial of its packages call each other: a trial searches a smaller set, and has fewer packages left after it.
//
// Both work on positions of the lent order, into which cover permutes packages, optional set and the set to cover: there the earliest item is the lowest. Item
// stands for position below.
//
// What the functions are lent: packs, the packages' items; optional, the items that need not be covered; leads, the packages by lowest compulsory item,
// in 193 buckets (entry p is package p - 1, and 0 is none);
// homes, the packages' places in the memo, by their sets in the caller's items; t, the node table, with its index; memo, with `places` places: an item set (none where the place is empty)
// and the number of its covers. A set's place is carried along: what a package leaves of the set has its place by one subtraction, so that no step
// divides. limit is document 01's B. Steps depend on the item sets alone, so a search that finds no room in the table goes on, makes
// nothing more, and its count of steps stays right: spent is told before full.
#![tactic(auto)]

ghost use Rattle.std.specs.Prelude.{◌≡◌, true, false, ℕ, ◌+◌, ◌-◌, ◌*◌, ◌/◌, ◌^◌, ◌<◌, ◌≤◌, map, length, take};
ghost use Rattle.compile.specs.State.{Packs, Searchable, Searched, Tried, Listed, NoPacks, Enlisted, Unkeyed, Sought, Ran, CoverEnded};
ghost use Rattle.itemset.specs.Items.{lowest, without};
ghost use Rattle.itemset.specs.Words.{width, value_of, value, sets_of};
ghost use Rattle.zdd.specs.Table.{Sound};
ghost use Rattle.exact_cover.specs.Problem.{problem_of, lead, done, Rows};
ghost use Rattle.exact_cover.specs.Positions.{positions, in_plain_order, Located};
ghost use Rattle.exact_cover.specs.Cover.{keys_of};
ghost use Rattle.table.specs.State.{Indexed};

use itemset::Items;

// A search's state: the number of the answer so far, the entries so far, whether the table had no room.
#[derive(Clone, Copy)]
pub struct Run {
    pub answer: u32,
    pub steps: u64,
    pub full: bool,
}

// The compulsory items of a set. (The optional set is lent as an array: by value it would be copied for each search.)
fn compulsory(items: Items, optional: &[u64; 3]) -> Items
    ensures { value result ≡ without (value items) (value_of optional.now) }
{
    itemset::without(items, itemset::of_words(optional))
}

// The lowest compulsory item of a set that has one.
fn lowest_compulsory(items: Items, optional: &[u64; 3]) -> u32
    requires { 0 < without (value items) (value_of optional.now) }
    ensures value { result ≡ lowest (without (value items) (value_of optional.now)) }
    ensures upper_bound { result < width }
{
    itemset::lowest(compulsory(items, optional))
}

// The covers of the items, whose place is `at`. Each call is one entry, and counts, unless the limit is met: then there is none.
#[cycle(search_trial)]
fn search(
    packs: &[u64],
    optional: &[u64; 3],
    leads: &[u16; 706],
    homes: &[u64; 512],
    t: &mut [u32],
    index: &mut [u16; 131072],
    memo: &mut [u64],
    places: usize,
    at: usize,
    items: Items,
    limit: u64,
    start: Run,
) -> Option<Run>
    requires packs { Packs (in_plain_order (sets_of packs.now) (value_of optional.now)) places leads.now homes.now }
    requires searchable { Searchable (in_plain_order (sets_of packs.now) (value_of optional.now)) places t.old index.old memo.old start.full }
    requires steps_le_limit { start.steps ≤ limit }
    requires at_lt_places { at < places }
    ensures { Ran (Searched (in_plain_order (sets_of packs.now) (value_of optional.now)) places homes.now at (value items)
        limit t.old memo.old start.steps start.full
        t.new index.new memo.new) result }
{
    let steps = start.steps;
    let full = start.full;
    if limit <= steps {
        return None;
    }
    let entered = steps + 1;
    let due = compulsory(items, optional);
    if itemset::is_empty(due) {
        return Some(Run {
            answer: 1,
            steps: entered,
            full,
        });
    }
    if memo::is_key(memo, places, at, items) {
        return Some(Run {
            answer: memo::number(memo, places, at),
            steps: entered,
            full,
        });
    }
    let low = itemset::lowest(due) as usize;
    trial(
        packs,
        optional,
        leads,
        homes,
        t,
        index,
        memo,
        places,
        at,
        items,
        low,
        limit,
        Run {
            answer: 0,
            steps: entered,
            full,
        },
    )
}

// The covers of items that are neither done nor in the memo, entered already: the packages of the lowest compulsory item, low, are tried, highest number first, and
// the answer goes into the memo, at the items' place.
#[cycle(search_trial)]
fn trial(
    packs: &[u64],
    optional: &[u64; 3],
    leads: &[u16; 706],
    homes: &[u64; 512],
    t: &mut [u32],
    index: &mut [u16; 131072],
    memo: &mut [u64],
    places: usize,
    at: usize,
    items: Items,
    low: usize,
    limit: u64,
    start: Run,
) -> Option<Run>
    requires packs { Packs (in_plain_order (sets_of packs.now) (value_of optional.now)) places leads.now homes.now }
    requires searchable { Searchable (in_plain_order (sets_of packs.now) (value_of optional.now)) places t.old index.old memo.old start.full }
    requires steps_le_limit { start.steps ≤ limit }
    requires value { (done (in_plain_order (sets_of packs.now) (value_of optional.now)) (value items) ≡ false) × (at < places)
        × (low ≡ lead (in_plain_order (sets_of packs.now) (value_of optional.now)) (value items)) }
    ensures { Ran (Tried (in_plain_order (sets_of packs.now) (value_of optional.now)) places homes.now at (value items)
        limit t.old memo.old start.steps start.full
        t.new index.new memo.new) result }
{
    let mut p = leads[low];
    let mut run = Run {
        answer: 0,
        steps: start.steps,
        full: start.full,
    };
    while p != 0 {
        let label = (p - 1) as u32;
        let k = label as usize;
        let pack = exact_cover::items(packs, k);
        let home = homes[k] as usize;
        let later = leads[k + 194];
        if !itemset::inside(pack, items) {
            p = later;
            continue;
        }
        let rest = itemset::without(items, pack);
        let there = itemset::place_without(at, home, places);
        let r = search(
            packs, optional, leads, homes, t, index, memo, places, there, rest, limit, run,
        )?;
        let y = r.answer;
        run.steps = r.steps;
        run.full = r.full;
        p = later;
        if y == 0 {
            continue;
        }
        if r.full {
            continue;
        }
        let z = table::unique(t, index, label, run.answer, y);
        run.answer = z;
        run.full = z == 0;
    }
    memo::store(memo, places, at, items, run.answer);
    Some(run)
}

// The packages in positions of the order.
fn in_positions(
    packages: &[u64],
    order: &[u8],
    inverse: &[u8; 192],
    plain: bool,
    packs: &mut [u64; 1536],
)
    requires located { Located order.now inverse.now plain }
    requires listed { Listed (sets_of packages.now) order.now }
    requires packs_len { length packs.old ≡ 1536 }
    ensures packs_after { sets_of (take (3 * length (sets_of packages.now)) packs.new)
        ≡ map (positions order.now) (sets_of packages.now) }
    ensures packs_len_2 { length packs.new ≡ 1536 }
{
    let n = exact_cover::number(packages);
    for k in 0..n {
        let x = exact_cover::items(packages, k);
        let y = exact_cover::positions(x, order, inverse, plain);
        itemset::write(packs, 3 * k, y);
    }
}

// Every package, in positions, goes into the index by lowest compulsory one, and its place in the memo is computed from its items.
fn enlist(
    packages: &[u64],
    packs: &[u64],
    optional: &[u64; 3],
    places: usize,
    leads: &mut [u16; 706],
    homes: &mut [u64; 512],
)
    requires rows { Rows (in_plain_order (sets_of packs.now) (value_of optional.now)) }
    requires packages_len { length (sets_of packages.now) ≡ length (sets_of packs.now) }
    requires places_nonzero { 0 < places }
    requires no_packs { NoPacks leads.old }
    requires homes_len { length homes.old ≡ 512 }
    ensures { Enlisted (in_plain_order (sets_of packs.now) (value_of optional.now)) (sets_of packages.now) places
        leads.new homes.new }
{
    let n = exact_cover::number(packs);
    for k in 0..n {
        let low = lowest_compulsory(exact_cover::items(packs, k), optional) as usize;
        buckets::insert(leads, 193, low, (k + 1) as u16);
        let x = exact_cover::items(packages, k);
        homes[k] = itemset::place(x, places) as u64;
    }
}

// The covers of the items: search with a memo that holds nothing. (It calls trial, so that search has one caller and is compiled into it.)
fn begin(
    packs: &[u64],
    optional: &[u64; 3],
    leads: &[u16; 706],
    homes: &[u64; 512],
    t: &mut [u32],
    index: &mut [u16; 131072],
    memo: &mut [u64],
    places: usize,
    at: usize,
    items: Items,
    limit: u64,
) -> Option<Run>
    requires packs { Packs (in_plain_order (sets_of packs.now) (value_of optional.now)) places leads.now homes.now }
    requires searchable { Searchable (in_plain_order (sets_of packs.now) (value_of optional.now)) places t.old index.old memo.old false }
    requires unkeyed { Unkeyed places memo.old }
    requires at_lt_places { at < places }
    ensures { Ran (Searched (in_plain_order (sets_of packs.now) (value_of optional.now)) places homes.now at (value items)
        limit t.old memo.old 0 false
        t.new index.new memo.new) result }
{
    if limit == 0 {
        return None;
    }
    let due = compulsory(items, optional);
    if itemset::is_empty(due) {
        return Some(Run {
            answer: 1,
            steps: 1,
            full: false,
        });
    }
    let low = itemset::lowest(due) as usize;
    trial(
        packs,
        optional,
        leads,
        homes,
        t,
        index,
        memo,
        places,
        at,
        items,
        low,
        limit,
        Run {
            answer: 0,
            steps: 1,
            full: false,
        },
    )
}

// The covers of the items, once the memo is cleared: what is lent is permuted into positions of the order, where the earliest item is the lowest, and only
// the memo's places are taken from the item sets.
fn seek(
    packages: &[u64],
    optional: Items,
    order: &[u8],
    t: &mut [u32],
    index: &mut [u16; 131072],
    memo: &mut [u64],
    places: usize,
    items: Items,
    limit: u64,
) -> Option<Run>
    requires rows { Rows (problem_of packages.now (value optional) order.now) }
    requires bound { value items < 2 ^ length order.now }
    requires sound { Sound (keys_of (problem_of packages.now (value optional) order.now)) t.old }
    requires indexed { Indexed t.old index.old }
    requires places_nonzero { (0 < places) × (4 * places ≤ length memo.old) }
    ensures { Ran (Sought (problem_of packages.now (value optional) order.now) places (value items) limit t.old
        t.new index.new) result }
{
    let plain = exact_cover::is_plain(order);
    let mut inverse = [0u8; 192];
    exact_cover::invert(order, &mut inverse);
    let public = exact_cover::positions(optional, order, &inverse, plain);
    let goal = exact_cover::positions(items, order, &inverse, plain);
    let set = [public.w0, public.w1, public.w2];
    let words = 3 * exact_cover::number(packages);
    let mut packs = [0u64; 1536];
    in_positions(packages, order, &inverse, plain, &mut packs);
    let mut leads = [0u16; 706];
    let mut homes = [0u64; 512];
    enlist(
        packages,
        &packs[..words],
        &set,
        places,
        &mut leads,
        &mut homes,
    );
    memo::clear(memo, places);
    let at = itemset::place(items, places);
    begin(
        &packs[..words],
        &set,
        &leads,
        &homes,
        t,
        index,
        memo,
        places,
        at,
        goal,
        limit,
    )
}

// What cover answers: the number of the covers, the entries into search and the nodes made.
#[derive(Clone, Copy)]
pub struct Answer {
    pub answer: u32,
    pub steps: u64,
    pub made: u32,
}

// Why there is no answer: the steps exceed the limit, or else the nodes outnumber the free places.
#[derive(Clone, Copy)]
pub enum Failure {
    Spent,
    Full,
}

// The covers of the items, as a number of the table. Where there is none, the table goes back to what it was.
pub fn cover(
    packages: &[u64],
    optional: Items,
    order: &[u8],
    t: &mut [u32],
    index: &mut [u16; 131072],
    memo: &mut [u64],
    items: Items,
    limit: u64,
) -> Result<Answer, Failure>
    requires rows { Rows (problem_of packages.now (value optional) order.now) }
    requires bound { value items < 2 ^ length order.now }
    requires sound { Sound (keys_of (problem_of packages.now (value optional) order.now)) t.old }
    requires indexed { Indexed t.old index.old }
    requires in_bounds { 4 ≤ length memo.old }
    ensures { CoverEnded (problem_of packages.now (value optional) order.now) (length memo.old / 4) (value items) limit
        t.old t.new index.new result }
{
    let places = memo.len() / 4;
    let n = t[0];
    let Some(r) = seek(
        packages, optional, order, t, index, memo, places, items, limit,
    ) else {
        table::rollback(t, n);
        return Err(Failure::Spent);
    };
    if r.full {
        table::rollback(t, n);
        return Err(Failure::Full);
    }
    Ok(Answer {
        answer: r.answer,
        steps: r.steps,
        made: t[0] - n,
    })
}
