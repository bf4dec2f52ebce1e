// Sets of at most 192 items, one bit each: item i is bit i % 64 of word i / 64.
#![tactic(auto)]

ghost use Rattle.std.specs.Prelude.{◌≡◌, ◌+◌, ◌*◌, ◌^◌, ◌%◌, ◌-◌, ◌<◌, ◌≤◌, min, eqb, length, get_or, take, drop};
ghost use Rattle.std.proofs.lemmas.List.Edits.{sets};
ghost use Rattle.std.specs.Int.Bits.{bit_and};
ghost use Rattle.itemset.specs.Items.{holds, insideb, apartb, belowb};
ghost use Rattle.itemset.specs.Items as I;
ghost use Rattle.itemset.specs.Words.{width, value, value_of, words_of};

// A set: three words, lowest first.
#[derive(Clone, Copy, PartialEq, Eq, Default)]
pub struct Items {
    pub w0: u64,
    pub w1: u64,
    pub w2: u64,
}

// Whether x has no item.
pub fn is_empty(x: Items) -> bool
    ensures { result ≡ eqb (value x) 0 }
{
    x == Items::default()
}

// The items that x and y have in common.
fn both(x: Items, y: Items) -> Items
    ensures { value result ≡ bit_and (value x) (value y) }
{
    Items {
        w0: x.w0 & y.w0,
        w1: x.w1 & y.w1,
        w2: x.w2 & y.w2,
    }
}

// Whether every item of p is in a.
pub fn inside(p: Items, a: Items) -> bool
    ensures { result ≡ insideb (value p) (value a) }
{
    both(a, p) == p
}

// Whether x and y have no item in common.
pub fn apart(x: Items, y: Items) -> bool
    ensures { result ≡ apartb (value x) (value y) }
{
    is_empty(both(x, y))
}

// The items of a that are not in p.
pub fn without(a: Items, p: Items) -> Items
    ensures { value result ≡ I.without (value a) (value p) }
{
    Items {
        w0: a.w0 - (a.w0 & p.w0),
        w1: a.w1 - (a.w1 & p.w1),
        w2: a.w2 - (a.w2 & p.w2),
    }
}

// The items of x and those of y.
pub fn union(x: Items, y: Items) -> Items
    ensures { value result ≡ I.union (value x) (value y) }
{
    Items {
        w0: x.w0 | y.w0,
        w1: x.w1 | y.w1,
        w2: x.w2 | y.w2,
    }
}

// The set of item i alone.
pub fn single(i: u32) -> Items
    requires { i < width }
    ensures { value result ≡ 2 ^ i }
{
    if i < 64 {
        return Items {
            w0: 1u64 << i,
            w1: 0,
            w2: 0,
        };
    }
    if i < 128 {
        return Items {
            w0: 0,
            w1: 1u64 << (i - 64),
            w2: 0,
        };
    }
    Items {
        w0: 0,
        w1: 0,
        w2: 1u64 << (i - 128),
    }
}

// Word j of x.
fn word(x: Items, j: u32) -> u64
    requires { j < 3 }
    ensures { result ≡ get_or (words_of x) j 0 }
{
    match j {
        0 => x.w0,
        1 => x.w1,
        _ => x.w2,
    }
}

// Whether item i is in x.
pub fn has(x: Items, i: u32) -> bool
    requires { i < width }
    ensures { result ≡ holds i (value x) }
{
    (word(x, i / 64) >> (i % 64)) & 1 == 1
}

// The least item of x, which has one.
pub fn lowest(x: Items) -> u32
    requires { 0 < value x }
    ensures value { result ≡ I.lowest (value x) }
    ensures upper_bound { result < width }
{
    if x.w0 != 0 {
        return x.w0.trailing_zeros();
    }
    if x.w1 != 0 {
        return 64 + x.w1.trailing_zeros();
    }
    128 + x.w2.trailing_zeros()
}

// Whether every item of x, a set of one word, is below m.
pub fn below_word(x: u64, m: u32) -> bool
    ensures { result ≡ belowb x m }
{
    if 64 <= m {
        return true;
    }
    x >> m == 0
}

// Whether every item of x is below m.
pub fn below(x: Items, m: u32) -> bool
    ensures { result ≡ belowb (value x) m }
{
    let m1 = m.saturating_sub(64);
    let m2 = m1.saturating_sub(64);
    below_word(x.w0, m) & (below_word(x.w1, m1) & below_word(x.w2, m2))
}

// The items of one word that are below m.
fn all_of_word(m: u32) -> u64
    ensures { result ≡ 2 ^ min m 64 - 1 }
{
    if 64 <= m {
        return u64::MAX;
    }
    (1u64 << m) - 1
}

// All items below m.
pub fn all_below(m: u32) -> Items
    ensures { value result ≡ 2 ^ min m width - 1 }
{
    let m1 = m.saturating_sub(64);
    let m2 = m1.saturating_sub(64);
    Items {
        w0: all_of_word(m),
        w1: all_of_word(m1),
        w2: all_of_word(m2),
    }
}

// How many items x has.
pub fn size(x: Items) -> u32
    ensures { result ≡ I.size (value x) }
{
    x.w0.count_ones() + (x.w1.count_ones() + x.w2.count_ones())
}

// 2 r + b modulo p, for r below p: no sum exceeds p.
fn twice(r: u64, b: u64, p: u64) -> u64
    requires r_lt_p { r < p }
    requires b_bound { b < 2 }
    ensures { result ≡ (r * 2 + b) % p }
{
    let q = p - r;
    if q <= r {
        return r - q + b;
    }
    let d = r + r + b;
    if d == p {
        return 0;
    }
    d
}

// r × 2 ^ 64 + w modulo p, for r below p, bit by bit: for any p.
fn step_bits(r: u64, w: u64, p: u64) -> u64
    requires { r < p }
    ensures { result ≡ (r * 2 ^ 64 + w) % p }
{
    let mut s = r;
    for i in (0..64u32).rev() {
        s = twice(s, (w >> i) & 1, p);
    }
    s
}

// The same, for a p of at most 2 ^ 32 by two digits of 32 bits.
fn step(r: u64, w: u64, p: u64) -> u64
    requires { r < p }
    ensures { result ≡ (r * 2 ^ 64 + w) % p }
{
    if p <= 4294967296 {
        let s = (r * 4294967296 + w / 4294967296) % p;
        return (s * 4294967296 + w % 4294967296) % p;
    }
    step_bits(r, w, p)
}

// The place of x among so many: x as a number, modulo places.
pub fn place(x: Items, places: usize) -> usize
    requires { 0 < places }
    ensures { result ≡ value x % places }
{
    let p = places as u64;
    if (x.w1 == 0) & (x.w2 == 0) {
        return (x.w0 % p) as usize;
    }
    step(step(x.w2 % p, x.w1, p), x.w0, p) as usize
}

// The place of a set without a part of it, where at is the set's place and home the part's: no division (`place_falls` of proofs/Places).
pub fn place_without(at: usize, home: usize, places: usize) -> usize
    requires at_lt_places { at < places }
    requires home_lt_places { home < places }
    ensures { result ≡ (at + (places - home)) % places }
{
    if at < home {
        return at + (places - home);
    }
    at - home
}

// The set that stands in the words from at on.
pub fn read(words: &[u64], at: usize) -> Items
    requires { at + 3 ≤ length words.now }
    ensures { value result ≡ value_of (take 3 (drop at words.now)) }
{
    Items {
        w0: words[at],
        w1: words[at + 1],
        w2: words[at + 2],
    }
}

// The set that three words are.
pub fn of_words(words: &[u64; 3]) -> Items
    ensures { value result ≡ value_of words.now }
{
    read(words, 0)
}

// The set goes into the words from at on.
pub fn write(words: &mut [u64], at: usize, x: Items)
    requires { at + 3 ≤ length words.old }
    ensures { words.new ≡ sets words.old at (words_of x) }
{
    words[at] = x.w0;
    words[at + 1] = x.w1;
    words[at + 2] = x.w2;
}
