// Union, intersection, difference, join, and the sets with and without a label, on a sound table.
#![tactic(auto)]

ghost use Rattle.std.specs.Prelude.{IfSome, ◌≡◌, ℕ, suc, ◌+◌, ◌-◌, ◌*◌, ◌/◌, ◌%◌, ◌<◌, ◌≤◌, length, get_or, set};
ghost use Rattle.zdd.specs.Table.{node, blank, count, nodes_of, family, Sound, Keys};
ghost use Rattle.table.specs.State.{Indexed};
ghost use Rattle.family.specs.Gives.{Operable, Yields, Returned, Noded};
ghost use Rattle.family.specs.Memo.{odd, restricted, Kept, Soon, lesser_first, operation_of, combined, Combinable, beside_of, Ends, Two, Top, Cut};
ghost use Rattle.family.specs.Memo.{mixed, Packed, place_of, chosen, entry_at, replaced, Recalled, Remembered, Noted};

// What two numbers are combined by.
#[derive(Clone, Copy, PartialEq, Eq)]
pub enum Operation {
    Union,
    Intersection,
    Difference,
    Join,
}

// The number of the node with these three words, found or made: lo where hi is 0; None where there is no room.
fn make(t: &mut [u32], index: &mut [u16; 131072], label: u32, lo: u32, hi: u32) -> Option<u32>
    requires { Indexed t.old index.old }
    ensures { Noded t.old t.new index.new label lo hi result }
{
    if hi == 0 {
        return Some(lo);
    }
    let r = table::unique(t, index, label, lo, hi);
    if r == 0 {
        return None;
    }
    Some(r)
}

// The number of f's sets with p (or without p) where it is plain or remembered; None where it is to be made.
fn soon(t: &[u32], keys: &[u32], memo: &[u16; 65536], p: u32, holding: bool, f: u32) -> Option<u32>
    requires sound { Sound keys.now t.now }
    requires keys { Keys keys.now }
    requires kept { Kept holding keys.now p (nodes_of t.now) memo.now }
    requires f_bound { (f < count t.now + 2) × (p < length keys.now) }
    ensures { Soon holding keys.now p (nodes_of t.now) f result }
{
    if f < 2 {
        if holding {
            return Some(0);
        }
        return Some(f);
    }
    let k = f as usize;
    let w = 3 * k - 5;
    let label = t[w];
    if label == p {
        if holding {
            return None;
        }
        return Some(t[w + 1]);
    }
    if keys[p as usize] < keys[label as usize] {
        if holding {
            return Some(0);
        }
        return Some(f);
    }
    let e = memo[k] as u32;
    if e != 0 {
        return Some(e - 1);
    }
    None
}

// The number of f's sets with p, or of those without p; None where there is no room. p and which of the two are one number q, so that all arguments are in
// registers. (65535, the one number that does not fit into memo, is not remembered.)
fn restrict(
    t: &mut [u32],
    keys: &[u32],
    index: &mut [u16; 131072],
    memo: &mut [u16; 65536],
    q: u64,
    f: u32,
) -> Option<u32>
    requires operable { Operable keys.now t.old index.old }
    requires kept { Kept (odd q) keys.now (q / 2) (nodes_of t.old) memo.old }
    requires f_bound { (f < count t.old + 2) × (q / 2 < length keys.now) }
    requires q_bound { q / 2 < 4294967296 }
    ensures gives { Yields keys.now t.old t.new index.new result
        (restricted (odd q) keys.now (q / 2) (family (nodes_of t.old) f)) }
    ensures kept_2 { IfSome result (λ r. Kept (odd q) keys.now (q / 2) (nodes_of t.new) memo.new) }
{
    let p = (q / 2) as u32;
    let holding = q % 2 == 1;
    if let Some(known) = soon(t, keys, memo, p, holding, f) {
        return Some(known);
    }
    let k = f as usize;
    let w = 3 * k - 5;
    let label = t[w];
    let lo = t[w + 1];
    let hi = t[w + 2];
    if label == p {
        return make(t, index, p, 0, hi);
    }
    let h = restrict(t, keys, index, memo, q, hi)?;
    let l = restrict(t, keys, index, memo, q, lo)?;
    let r = make(t, index, label, l, h)?;
    if r < 65535 {
        memo[k] = (r + 1) as u16;
    }
    Some(r)
}

// A pair mixed, so that pairs that are near each other have places that are not; different pairs stay different.
fn mix(pair: u64) -> u64
    requires { pair < 4294967296 }
    ensures { result ≡ mixed pair }
{
    pair * 4021839121 % 4294967296
}

// Whether the lesser of two numbers is remembered as the first: in union and intersection, where their order does not matter.
fn lesser_first(op: Operation) -> bool
    ensures { result ≡ lesser_first op }
{
    match op {
        Operation::Union | Operation::Intersection => true,
        Operation::Difference | Operation::Join => false,
    }
}

// f and g in one number, mixed, the lesser first where that is remembered.
fn pack(op: Operation, f: u32, g: u32) -> u64
    requires { (f < 65536) × (g < 65536) }
    ensures { Packed op f g result }
{
    if lesser_first(op) && g < f {
        return mix(g as u64 * 65536 + f as u64);
    }
    mix(f as u64 * 65536 + g as u64)
}

// The place of a mixed pair in a memory of so many words, two places a word.
fn place(pair: u64, words: usize) -> usize
    requires { (pair < 4294967296) × (words ≤ 2147483648) }
    ensures { result ≡ place_of words pair }
{
    (pair * (2 * (words as u64)) / 4294967296) as usize
}

// The first at an even place, the second at an odd one. (Apart, so that it is compiled without a jump: which half is next cannot be predicted.)
fn choose(at: usize, even: u64, odd: u64) -> u64
    ensures { result ≡ chosen (at % 2) even odd }
{
    if at % 2 == 0 {
        return even;
    }
    odd
}

// What stands at a place: the low half of a word at an even one, the high half at an odd one.
fn entry(memo: &[u64], at: usize) -> u64
    requires { at / 2 < length memo.now }
    ensures { result ≡ entry_at memo.now at }
{
    let word = memo[at / 2];
    choose(at, word % 4294967296, word / 4294967296)
}

// The word with e in the half of the place.
fn replace(word: u64, at: usize, e: u64) -> u64
    requires { e < 4294967296 }
    ensures { result ≡ replaced (at % 2) word e }
{
    let high = choose(at, word / 4294967296, e);
    high * 4294967296 + choose(at, e, word % 4294967296)
}

// The result r goes to the pair's place. (65535, the one number that does not fit, is not remembered.)
fn remember(memo: &mut [u64], at: usize, pair: u64, r: u32)
    requires { at / 2 < length memo.old }
    ensures { Noted memo.old at pair r memo.new }
{
    if r >= 65535 {
        return;
    }
    let w = at / 2;
    let e = pair % 65536 * 65536 + (r as u64 + 1);
    memo[w] = replace(memo[w], at, e);
}

// The number of f's and g's join where one of them is 1; None where it is to be looked for.
fn ended_join(f: u32, g: u32) -> Option<u32>
    requires { (0 < f) × (0 < g) }
    ensures { Ends Operation.Join f g result }
{
    if f == 1 {
        return Some(g);
    }
    if g == 1 {
        return Some(f);
    }
    None
}

// The number of f's and g's combination where it is plain; None where it is to be looked for.
fn ended(op: Operation, f: u32, g: u32) -> Option<u32>
    ensures { Ends op f g result }
{
    if f == 0 {
        return match op {
            Operation::Union => Some(g),
            _ => Some(0),
        };
    }
    if g == 0 {
        return match op {
            Operation::Union | Operation::Difference => Some(f),
            Operation::Intersection | Operation::Join => Some(0),
        };
    }
    match op {
        Operation::Join => ended_join(f, g),
        Operation::Difference => if f == g { Some(0) } else { None },
        Operation::Union | Operation::Intersection => if f == g { Some(f) } else { None },
    }
}

// The number that is remembered for the pair at its place, if one is.
fn recall(memo: &[u64], at: usize, pair: u64) -> Option<u32>
    requires { at / 2 < length memo.now }
    ensures { Recalled memo.now at pair result }
{
    let e = entry(memo, at);
    if e / 65536 == pair % 65536 {
        if e % 65536 != 0 {
            return Some((e % 65536 - 1) as u32);
        }
    }
    None
}

// The key of f's label; 2 ^ 32, later than every key, for 0 and 1.
fn top(t: &[u32], keys: &[u32], f: u32) -> u64
    requires sound { Sound keys.now t.now }
    requires f_bound { f < count t.now + 2 }
    ensures { Top keys.now (nodes_of t.now) f result }
{
    if f < 2 {
        return 4294967296;
    }
    let at = t[3 * (f as usize) - 5] as usize;
    keys[at] as u64
}

#[derive(Clone, Copy)]
struct Parts {
    label: u32,
    f1: u32,
    g1: u32,
    f0: u32,
    g0: u32,
}

// What a number that lacks a label is combined as, with the other's sets that have the label: itself in a join, and else 0, no set.
fn beside(op: Operation, k: u32) -> u32
    ensures { result ≡ beside_of op k }
{
    match op {
        Operation::Join => k,
        _ => 0,
    }
}

// f and g by the earlier of their first labels: what they have with it, and what without.
fn cut(t: &[u32], keys: &[u32], op: Operation, f: u32, g: u32) -> Parts
    requires sound { Sound keys.now t.now }
    requires keys { Keys keys.now }
    requires f_bound { (f < count t.now + 2) × (g < count t.now + 2) }
    requires two { Two f g }
    requires combinable { Combinable op (nodes_of t.now) f g }
    ensures { Cut op keys.now (nodes_of t.now) f g result.label result.f1 result.g1 result.f0 result.g0 }
{
    let a = top(t, keys, f);
    let b = top(t, keys, g);
    let i = f as usize;
    let j = g as usize;
    if a < b {
        let v = 3 * i - 5;
        return Parts {
            label: t[v],
            f1: t[v + 2],
            g1: beside(op, g),
            f0: t[v + 1],
            g0: g,
        };
    }
    if b < a {
        let w = 3 * j - 5;
        return Parts {
            label: t[w],
            f1: beside(op, f),
            g1: t[w + 2],
            f0: f,
            g0: t[w + 1],
        };
    }
    let v = 3 * i - 5;
    let w = 3 * j - 5;
    Parts {
        label: t[v],
        f1: t[v + 2],
        g1: t[w + 2],
        f0: t[v + 1],
        g0: t[w + 1],
    }
}

// The number of f's and g's combination; None where there is no room.
fn combine(
    t: &mut [u32],
    keys: &[u32],
    index: &mut [u16; 131072],
    memo: &mut [u64],
    op: Operation,
    f: u32,
    g: u32,
) -> Option<u32>
    requires operable { Operable keys.now t.old index.old }
    requires remembered { Remembered op keys.now (nodes_of t.old) memo.old }
    requires f_bound { (f < count t.old + 2) × (g < count t.old + 2) }
    requires combinable { Combinable op (nodes_of t.old) f g }
    ensures gives { Yields keys.now t.old t.new index.new result
        (combined op keys.now (family (nodes_of t.old) f) (family (nodes_of t.old) g)) }
    ensures remembered_2 { IfSome result (λ r. Remembered op keys.now (nodes_of t.new) memo.new) }
{
    if let Some(plain) = ended(op, f, g) {
        return Some(plain);
    }
    let pair = pack(op, f, g);
    let at = place(pair, memo.len());
    if let Some(known) = recall(memo, at, pair) {
        return Some(known);
    }
    let c = cut(t, keys, op, f, g);
    let h = combine(t, keys, index, memo, op, c.f1, c.g1)?;
    let l = combine(t, keys, index, memo, op, c.f0, c.g0)?;
    let r = make(t, index, c.label, l, h)?;
    remember(memo, at, pair, r);
    Some(r)
}

// p, and whether the sets with it are wanted, in one number.
fn wanted(p: u32, holding: bool) -> u64
    ensures { (odd result ≡ holding) × (result / 2 ≡ p) }
{
    let twice = 2 * (p as u64);
    if holding {
        return twice + 1;
    }
    twice
}

// The number of f's sets with p, or of those without p. Where there is no room it is None, and the table is as before.
pub fn restriction(
    t: &mut [u32],
    keys: &[u32],
    index: &mut [u16; 131072],
    p: u32,
    holding: bool,
    f: u32,
) -> Option<u32>
    requires operable { Operable keys.now t.old index.old }
    requires f_bound { (f < count t.old + 2) × (p < length keys.now) }
    ensures { Returned keys.now t.old t.new index.new result
        (restricted holding keys.now p (family (nodes_of t.old) f)) }
{
    let n = t[0];
    let mut memo = [0u16; 65536];
    let q = wanted(p, holding);
    let Some(r) = restrict(t, keys, index, &mut memo, q, f) else {
        table::rollback(t, n);
        return None;
    };
    Some(r)
}

// How many of so many lent words are the memory: no more than have a place for each pair of numbers.
fn used(words: usize) -> usize
    requires { 32768 ≤ words }
    ensures { (32768 ≤ result) × ((result ≤ words) × (result ≤ 2147483648)) }
{
    if words > 2147483648 {
        return 2147483648;
    }
    words
}

// `combine` with a memory that may hold anything before.
fn afresh(
    t: &mut [u32],
    keys: &[u32],
    index: &mut [u16; 131072],
    memo: &mut [u64],
    op: Operation,
    f: u32,
    g: u32,
) -> Option<u32>
    requires operable { Operable keys.now t.old index.old }
    requires in_bounds { (32768 ≤ length memo.old) × (length memo.old ≤ 2147483648) }
    requires f_bound { (f < count t.old + 2) × (g < count t.old + 2) }
    requires combinable { Combinable op (nodes_of t.old) f g }
    ensures { Yields keys.now t.old t.new index.new result
        (combined op keys.now (family (nodes_of t.old) f) (family (nodes_of t.old) g)) }
{
    base::clear(memo);
    combine(t, keys, index, memo, op, f, g)
}

// `combine` with the lent words as its memory where they are many, and a local array where they are few: 65536 places.
fn remembering(
    t: &mut [u32],
    keys: &[u32],
    index: &mut [u16; 131072],
    work: &mut [u64],
    op: Operation,
    f: u32,
    g: u32,
) -> Option<u32>
    requires operable { Operable keys.now t.old index.old }
    requires f_bound { (f < count t.old + 2) × (g < count t.old + 2) }
    requires combinable { Combinable op (nodes_of t.old) f g }
    ensures { Yields keys.now t.old t.new index.new result
        (combined op keys.now (family (nodes_of t.old) f) (family (nodes_of t.old) g)) }
{
    if work.len() < 131072 {
        let mut memo = [0u64; 32768];
        return combine(t, keys, index, &mut memo, op, f, g);
    }
    let size = used(work.len());
    afresh(t, keys, index, &mut work[..size], op, f, g)
}

// The number of f's and g's combination. Where there is no room it is None, and the table is as before.
pub fn apply(
    t: &mut [u32],
    keys: &[u32],
    index: &mut [u16; 131072],
    work: &mut [u64],
    op: Operation,
    f: u32,
    g: u32,
) -> Option<u32>
    requires operable { Operable keys.now t.old index.old }
    requires f_bound { (f < count t.old + 2) × (g < count t.old + 2) }
    requires combinable { Combinable op (nodes_of t.old) f g }
    ensures { Returned keys.now t.old t.new index.new result
        (combined op keys.now (family (nodes_of t.old) f) (family (nodes_of t.old) g)) }
{
    let n = t[0];
    let Some(r) = remembering(t, keys, index, work, op, f, g) else {
        table::rollback(t, n);
        return None;
    };
    Some(r)
}

// The operation of a number: 0, 1 and 2 are union, intersection and difference, all others join.
fn operation_of(op: u8) -> Operation
    ensures { result ≡ operation_of op }
{
    match op {
        0 => Operation::Union,
        1 => Operation::Intersection,
        2 => Operation::Difference,
        _ => Operation::Join,
    }
}

// The same as `apply`, for callers that have the operation's number.
pub fn combination(
    t: &mut [u32],
    keys: &[u32],
    index: &mut [u16; 131072],
    work: &mut [u64],
    op: u8,
    f: u32,
    g: u32,
) -> Option<u32>
    requires operable { Operable keys.now t.old index.old }
    requires f_bound { (f < count t.old + 2) × (g < count t.old + 2) }
    requires combinable { Combinable (operation_of op) (nodes_of t.old) f g }
    ensures { Returned keys.now t.old t.new index.new result
        (combined (operation_of op) keys.now (family (nodes_of t.old) f) (family (nodes_of t.old) g)) }
{
    apply(t, keys, index, work, operation_of(op), f, g)
}
