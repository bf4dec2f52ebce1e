// Questions to a sound table: how many sets a number holds, which is the k-th and how long it is, where a set stands, which is the cheapest, and which is closest to
// a given one.
#![tactic(auto)]

ghost use Rattle.std.specs.Prelude.{◌≡◌, true, false, ◌++◌, ℕ, ◌+◌, ◌-◌, ◌*◌, ◌<◌, ◌≤◌, min, length, get_or, drop, Some};
ghost use Rattle.zdd.specs.Table.{count as nodes};
ghost use Rattle.query.specs.Questions.{family_at, nth, cost, cheapest as cheapestOf, difference, closest as closestOf, any_unknown, in_precedence};
ghost use Rattle.query.specs.Reading.{label_of, lo_of, hi_of, Readable, Branch, Filled, count_word};
ghost use Rattle.query.specs.Reading.{Priceable, Comparable, weight, lightest as lightestOf, Weighable, weight_word, Choice, Marked};
ghost use Rattle.query.specs.Answers.{Told, Wrote, PlaceFound, Weighed};

// The lightest set: how many packages it has, which were written to the page, and its weight: for `cheapest` its cost, for `closest` its difference.
#[derive(Clone, Copy)]
pub struct Chosen {
    pub packages: usize,
    pub weight: u32,
}

// How a set is weighed: from `start` on, each package adds what the weights have for it, less `bias`.
#[derive(Clone, Copy)]
pub struct Scale {
    pub start: u64,
    pub bias: u64,
}

// The label, lo and hi of node k.
fn label(t: &[u32], k: usize) -> u32
    requires { Branch t.now k }
    ensures { result ≡ label_of t.now k }
{
    t[1 + 3 * (k - 2)]
}

fn lo(t: &[u32], k: usize) -> usize
    requires { Branch t.now k }
    ensures { result ≡ lo_of t.now k }
{
    t[1 + 3 * (k - 2) + 1] as usize
}

fn hi(t: &[u32], k: usize) -> usize
    requires { Branch t.now k }
    ensures { result ≡ hi_of t.now k }
{
    t[1 + 3 * (k - 2) + 2] as usize
}

// x + y + 1, or the greatest word.
fn plus(x: u64, y: u64) -> u64
    ensures { result ≡ min (x + y + 1) 18446744073709551615 }
{
    if 18446744073709551615 - x <= y {
        18446744073709551615
    } else {
        x + y + 1
    }
}

// The word of number k, from those of the numbers below.
fn count_word(t: &[u32], k: usize, work: &[u64]) -> u64
    requires readable { Readable t.now }
    requires k_nonzero { (0 < k) × (k < nodes t.now + 2) }
    requires filled { Filled (count_word t.now) k work.now }
    ensures { result ≡ count_word t.now k }
{
    if k == 1 {
        return 0;
    }
    let h = hi(t, k);
    let l = lo(t, k);
    let x = work[h];
    let y = work[l];
    if l == 0 {
        return x;
    }
    plus(x, y)
}

// A word for each number up to a: how many sets it holds, less one, at most the greatest word.
pub fn counts(t: &[u32], a: usize, work: &mut [u64])
    requires readable { Readable t.now }
    requires a_bound { (a < nodes t.now + 2) × (a < length work.old) }
    ensures { Filled (count_word t.now) (a + 1) work.new }
{
    work[0] = 0;
    for k in 1..a + 1 {
        let c = count_word(t, k, work);
        work[k] = c;
    }
}

// How many sets number a holds, or None where they are more than 64 bits hold. The words serve `pick` and `place`.
pub fn count(t: &[u32], a: usize, work: &mut [u64]) -> Option<u64>
    requires readable { Readable t.now }
    requires a_bound { (a < nodes t.now + 2) × (a < length work.old) }
    ensures filled { Filled (count_word t.now) (a + 1) work.new }
    ensures told { Told result (length (family_at t.now a)) }
{
    counts(t, a, work);
    if a == 0 {
        return Some(0);
    }
    let c = work[a];
    if c == 18446744073709551615 {
        return None;
    }
    Some(c + 1)
}

// How many packages the k-th set of number a has: down from a, by hi where the set is among hi's, until 1.
pub fn measure(t: &[u32], a: usize, k: u64, work: &[u64]) -> usize
    requires readable { Readable t.now }
    requires a_bound { (a < nodes t.now + 2) × (k < length (family_at t.now a)) }
    requires filled { Filled (count_word t.now) (a + 1) work.now }
    ensures { result ≡ length (nth (family_at t.now a) k) }
{
    let mut node = a;
    let mut rest = k;
    let mut n: usize = 0;
    loop {
        if node == 1 {
            break n;
        }
        let h = hi(t, node);
        let c = work[h];
        if rest <= c {
            n += 1;
            node = h;
            continue;
        }
        rest = rest - c - 1;
        node = lo(t, node);
    }
}

// The same walk, which writes the packages to the start of the page.
fn write(t: &[u32], a: usize, k: u64, work: &[u64], page: &mut [u16]) -> usize
    requires readable { Readable t.now }
    requires a_bound { (a < nodes t.now + 2) × (k < length (family_at t.now a)) }
    requires filled { Filled (count_word t.now) (a + 1) work.now }
    requires k_in_bounds { length (nth (family_at t.now a) k) ≤ length page.old }
    ensures { Wrote (nth (family_at t.now a) k) page.old page.new (Some result) }
{
    let mut node = a;
    let mut left = k;
    let mut n: usize = 0;
    loop {
        if node == 1 {
            break n;
        }
        let h = hi(t, node);
        let c = work[h];
        if left <= c {
            let p = label(t, node);
            page[n] = p as u16;
            n += 1;
            node = h;
            continue;
        }
        left = left - c - 1;
        node = lo(t, node);
    }
}

// The k-th set of number a, to the start of the page: measured first, and written only where it fits. How many packages were written, or None where the page is
// too short.
pub fn pick(t: &[u32], a: usize, k: u64, work: &[u64], page: &mut [u16]) -> Option<usize>
    requires readable { Readable t.now }
    requires a_bound { (a < nodes t.now + 2) × (k < length (family_at t.now a)) }
    requires filled { Filled (count_word t.now) (a + 1) work.now }
    ensures { Wrote (nth (family_at t.now a) k) page.old page.new result }
{
    let many = measure(t, a, k, work);
    if page.len() < many {
        return None;
    }
    let m = write(t, a, k, work, page);
    Some(m)
}

// Whether s goes on with the package p at i.
fn goes_on(s: &[u16], i: usize, p: u32) -> bool
    ensures i_in_bounds { result ≡ true → (i < length s.now) × (get_or s.now i 0 ≡ p) }
    ensures fact { result ≡ false → i < length s.now → get_or s.now i 0 ≡ p → ⊥ }
{
    if s.len() <= i {
        return false;
    }
    s[i] as u32 == p
}

// Where the set s stands among those of number a, from 0, or None where it is none of them: down from a, by hi where s goes on with the label.
pub fn place(t: &[u32], a: usize, s: &[u16], work: &[u64]) -> Option<u64>
    requires readable { Readable t.now }
    requires a_bound { a < nodes t.now + 2 }
    requires filled { Filled (count_word t.now) (a + 1) work.now }
    ensures { PlaceFound s.now (family_at t.now a) result }
{
    let mut node = a;
    let mut i: usize = 0;
    let mut k: u64 = 0;
    loop {
        if node == 0 {
            return None;
        }
        if node == 1 {
            break;
        }
        let h = hi(t, node);
        let p = label(t, node);
        if goes_on(s, i, p) {
            i += 1;
            node = h;
            continue;
        }
        k = plus(k, work[h]);
        node = lo(t, node);
    }
    if i == s.len() {
        return Some(k);
    }
    None
}

// What the weights have for package p.
fn weight_of(weights: &[u16], p: u32) -> u64
    requires { p < length weights.now }
    ensures { result ≡ get_or weights.now p 0 }
{
    weights[p as usize] as u64
}

// What hi's lightest set weighs with the label of node k, the bias not yet taken off.
fn weight_hi(weights: &[u16], t: &[u32], k: usize, work: &[u64]) -> u64
    requires branch { Branch t.now k }
    requires k_in_bounds { (label_of t.now k < length weights.now) × (hi_of t.now k < length work.now) }
    requires k_bound { get_or weights.now (label_of t.now k) 0 + get_or work.now (hi_of t.now k) 0 ≤ 4294967296 }
    ensures { result ≡ get_or weights.now (label_of t.now k) 0 + get_or work.now (hi_of t.now k) 0 }
{
    let h = hi(t, k);
    let p = label(t, k);
    weight_of(weights, p) + work[h]
}

// What lo's lightest set weighs, with the bias added; more than any where there is none.
fn weight_lo(bias: u64, t: &[u32], k: usize, work: &[u64]) -> u64
    requires branch { Branch t.now k }
    requires k_in_bounds { lo_of t.now k < length work.now }
    requires k_bound { (get_or work.now (lo_of t.now k) 0 ≤ 4294967296) × (bias ≤ 65535) }
    ensures { result ≡ get_or work.now (lo_of t.now k) 0 + bias }
{
    let l = lo(t, k);
    work[l] + bias
}

// Whether the lightest set of node k is among hi's, from the least weights of the numbers below.
fn takes_hi(weights: &[u16], scale: Scale, t: &[u32], k: usize, work: &[u64]) -> bool
    requires weighable { Weighable t.now weights.now scale }
    requires lt_k { (1 < k) × (k < nodes t.now + 2) }
    requires filled { Filled (weight_word weights.now scale t.now) k work.now }
    ensures { Choice weights.now scale t.now k result }
{
    weight_hi(weights, t, k, work) <= weight_lo(scale.bias, t, k, work)
}

// The least weight of node k, from those of the numbers below: no branch, since which child it is cannot be foreseen.
fn weight_word(weights: &[u16], scale: Scale, t: &[u32], k: usize, work: &[u64]) -> u64
    requires weighable { Weighable t.now weights.now scale }
    requires lt_k { (1 < k) × (k < nodes t.now + 2) }
    requires filled { Filled (weight_word weights.now scale t.now) k work.now }
    ensures { result ≡ weight_word weights.now scale t.now k }
{
    let x = weight_hi(weights, t, k, work);
    let y = weight_lo(scale.bias, t, k, work);
    x.min(y) - scale.bias
}

// The least weight of each number up to a; the word of 0, which holds no set, is more than any.
fn weigh(weights: &[u16], scale: Scale, t: &[u32], a: usize, work: &mut [u64])
    requires weighable { Weighable t.now weights.now scale }
    requires a_nonzero { (0 < a) × (a < nodes t.now + 2) }
    requires a_in_bounds { a < length work.old }
    ensures { Filled (weight_word weights.now scale t.now) (a + 1) work.new }
{
    work[0] = 4294967296;
    work[1] = scale.start;
    for k in 2..a + 1 {
        let w = weight_word(weights, scale, t, k, work);
        work[k] = w;
    }
}

// How many packages the lightest set of number a has: down from a, by hi where the set is among hi's, until 1.
fn measure_lightest(weights: &[u16], scale: Scale, t: &[u32], a: usize, work: &[u64]) -> usize
    requires weighable { Weighable t.now weights.now scale }
    requires a_nonzero { (0 < a) × (a < nodes t.now + 2) }
    requires filled { Filled (weight_word weights.now scale t.now) (a + 1) work.now }
    ensures { result ≡ length (lightestOf weights.now scale (family_at t.now a)) }
{
    let mut node = a;
    let mut n: usize = 0;
    loop {
        if node == 1 {
            break n;
        }
        if takes_hi(weights, scale, t, node, work) {
            n += 1;
            node = hi(t, node);
            continue;
        }
        node = lo(t, node);
    }
}

// The same walk, which writes the packages to the start of the page.
fn write_lightest(
    weights: &[u16],
    scale: Scale,
    t: &[u32],
    a: usize,
    work: &[u64],
    page: &mut [u16],
) -> usize
    requires weighable { Weighable t.now weights.now scale }
    requires a_nonzero { (0 < a) × (a < nodes t.now + 2) }
    requires filled { Filled (weight_word weights.now scale t.now) (a + 1) work.now }
    requires a_in_bounds { length (lightestOf weights.now scale (family_at t.now a)) ≤ length page.old }
    ensures { Wrote (lightestOf weights.now scale (family_at t.now a)) page.old page.new (Some result) }
{
    let mut node = a;
    let mut n: usize = 0;
    loop {
        if node == 1 {
            break n;
        }
        if takes_hi(weights, scale, t, node, work) {
            let p = label(t, node);
            page[n] = p as u16;
            n += 1;
            node = hi(t, node);
            continue;
        }
        node = lo(t, node);
    }
}

// Of the sets of number a with the least weight the first listed, to the start of the page: measured first, and written only where it fits; or
// None where the page is too short.
fn lightest(
    weights: &[u16],
    scale: Scale,
    t: &[u32],
    a: usize,
    work: &mut [u64],
    page: &mut [u16],
) -> Option<Chosen>
    requires weighable { Weighable t.now weights.now scale }
    requires a_nonzero { (0 < a) × (a < nodes t.now + 2) }
    requires a_in_bounds { a < length work.old }
    ensures { Weighed (lightestOf weights.now scale (family_at t.now a))
        (weight weights.now scale (lightestOf weights.now scale (family_at t.now a))) page.old page.new result }
{
    weigh(weights, scale, t, a, work);
    let n = measure_lightest(weights, scale, t, a, work);
    if page.len() < n {
        return None;
    }
    let m = write_lightest(weights, scale, t, a, work, page);
    let x = work[a] as u32;
    Some(Chosen {
        packages: m,
        weight: x,
    })
}

// Of the sets of number a with the least cost the first listed, to the start of the page, or None where it is too short.
pub fn cheapest(
    costs: &[u16],
    t: &[u32],
    a: usize,
    work: &mut [u64],
    page: &mut [u16],
) -> Option<Chosen>
    requires priceable { Priceable t.now costs.now }
    requires a_nonzero { (0 < a) × (a < nodes t.now + 2) }
    requires a_in_bounds { a < length work.old }
    ensures { Weighed (cheapestOf costs.now (family_at t.now a))
        (cost costs.now (cheapestOf costs.now (family_at t.now a))) page.old page.new result }
{
    let scale = Scale { start: 0, bias: 0 };
    lightest(costs, scale, t, a, work, page)
}

// Whether each package of s is known and comes before the next.
pub fn in_precedence(s: &[u16], keys: &[u32]) -> bool
    ensures { result ≡ in_precedence keys.now s.now }
{
    for i in 0..s.len() {
        let p = s[i] as usize;
        if keys.len() <= p {
            return false;
        }
        if i + 1 == s.len() {
            return true;
        }
        let q = s[i + 1] as usize;
        if keys.len() <= q {
            return false;
        }
        if keys[q] <= keys[p] {
            return false;
        }
    }
    true
}

// The weights of the packages of s become 0.
fn mark(s: &[u16], weights: &mut [u16; 512])
    requires weights_len { length weights.old ≡ 512 }
    requires s_value { any_unknown weights.old s.now ≡ false }
    ensures { Marked s.now weights.old weights.new }
{
    for p in s {
        weights[*p as usize] = 0;
    }
}

// Of the sets of number a that differ from s in the fewest packages the first listed, to the start of the page, or None where it is too short. The empty set
// lacks all of s; each package makes the difference one less where s has it, and else one more.
pub fn closest(s: &[u16], t: &[u32], a: usize, work: &mut [u64], page: &mut [u16]) -> Option<Chosen>
    requires comparable { Comparable t.now s.now }
    requires a_nonzero { (0 < a) × (a < nodes t.now + 2) }
    requires a_in_bounds { a < length work.old }
    ensures { Weighed (closestOf s.now (family_at t.now a))
        (difference s.now (closestOf s.now (family_at t.now a))) page.old page.new result }
{
    let mut weights = [2u16; 512];
    mark(s, &mut weights);
    let scale = Scale {
        start: s.len() as u64,
        bias: 1,
    };
    lightest(&weights, scale, t, a, work, page)
}
