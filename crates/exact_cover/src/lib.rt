// Exact cover: definitions in specs/, laws in proofs/. Here: the packages and the order as they are lent, the positions of items in the order, the keys by
// which the node table knows packages, and the packages that remain after a withdrawal.
#![tactic(auto)]

ghost use Rattle.std.specs.Prelude.{true, ◌&&◌, ◌≡◌, ℕ, ◌+◌, ◌*◌, ◌^◌, ◌<◌, ◌≤◌, eqb, ltb, length, get_or};
ghost use Rattle.itemset.specs.Items.{without};
ghost use Rattle.itemset.specs.Words.{width, value, sets_of};
ghost use Rattle.exact_cover.specs.Problem.{problem_of, Rows, earliest, each_once, up_to};
ghost use Rattle.exact_cover.specs.Cover.{Keyed};
ghost use Rattle.exact_cover.specs.Positions.{plainb, Inverse, Located};
ghost use Rattle.exact_cover.specs.Positions as P;
ghost use Rattle.exact_cover.specs.Shortened.{Shortens};

use itemset::Items;

// How many packages the words are [document 01: N].
pub fn number(packages: &[u64]) -> usize
    ensures { result ≡ length (sets_of packages.now) }
{
    packages.len() / 3
}

// The items of package k.
pub fn items(packages: &[u64], k: usize) -> Items
    requires { k < length (sets_of packages.now) }
    ensures { value result ≡ get_or (sets_of packages.now) k 0 }
{
    itemset::read(packages, 3 * k)
}

// Whether a set has no compulsory item (proofs/Lead, `done_is`).
pub fn is_done(items: Items, optional: Items) -> bool
    ensures { result ≡ eqb (without (value items) (value optional)) 0 }
{
    itemset::is_empty(itemset::without(items, optional))
}

// The plain order of all items: who wants the plain order of M items lends the first M.
pub fn plain_order() -> [u8; 192]
    ensures { result ≡ up_to 192 }
{
    let mut order = [0u8; 192];
    for (i, item) in order.iter_mut().enumerate() {
        *item = i as u8;
    }
    order
}

// Whether the order is plain.
pub fn is_plain(order: &[u8]) -> bool
    ensures { result ≡ plainb order.now }
{
    order
        .iter()
        .enumerate()
        .all(|(j, item)| *item as usize == j)
}

// Where each item stands in the order. The array is lent with 0 everywhere, and stays 0 for an item that the order does not have.
pub fn invert(order: &[u8], inverse: &mut [u8; 192])
    requires order_value { each_once (length order.now) order.now ≡ true }
    requires order_len_bound { length order.now ≤ width }
    requires inverse_len { length inverse.old ≡ 192 }
    requires by_index { (i : ℕ) → get_or inverse.old i 0 ≡ 0 }
    ensures { Inverse order.now inverse.new }
{
    for (j, item) in order.iter().enumerate() {
        inverse[*item as usize] = j as u8;
    }
}

// The positions of the items of a set, item by item: the inverse says them, and the order is lent for the contract to speak of it.
fn permute(x: Items, order: &[u8], inverse: &[u8; 192]) -> Items
    requires order_value { each_once (length order.now) order.now ≡ true }
    requires inverse { Inverse order.now inverse.now }
    requires x_bound { value x < 2 ^ length order.now }
    ensures { value result ≡ P.positions order.now (value x) }
{
    let mut rest = x;
    let mut r = Items::default();
    while !itemset::is_empty(rest) {
        let i = itemset::lowest(rest);
        r = itemset::union(r, itemset::single(inverse[i as usize] as u32));
        rest = itemset::without(rest, itemset::single(i));
    }
    r
}

// The positions of the items of a set, as a set. In the plain order that is the set itself.
pub fn positions(x: Items, order: &[u8], inverse: &[u8; 192], plain: bool) -> Items
    requires located { Located order.now inverse.now plain }
    requires x_bound { value x < 2 ^ length order.now }
    ensures { value result ≡ P.positions order.now (value x) }
{
    if plain {
        return x;
    }
    permute(x, order, inverse)
}

// The key of the package with these items and this number. To compare keys is to compare by precedence (proofs/Order, `key_before`).
fn key(
    items: Items,
    optional: Items,
    order: &[u8],
    inverse: &[u8; 192],
    plain: bool,
    number: usize,
) -> u32
    requires located { Located order.now inverse.now plain }
    requires bound { value items < 2 ^ length order.now }
    requires nonzero { (0 < without (value items) (value optional)) × (number < 512) }
    ensures { result ≡ earliest order.now (without (value items) (value optional)) * 512 + number }
{
    let due = itemset::without(items, optional);
    let at = positions(due, order, inverse, plain);
    itemset::lowest(at) * 512 + (number as u32)
}

// The keys of the packages, to the start of the array.
pub fn keys(packages: &[u64], optional: Items, order: &[u8], keys: &mut [u32])
    requires rows { Rows (problem_of packages.now (value optional) order.now) }
    requires keys_len { length keys.old ≡ 512 }
    ensures { Keyed (problem_of packages.now (value optional) order.now) keys.new }
{
    let plain = is_plain(order);
    let mut inverse = [0u8; 192];
    invert(order, &mut inverse);
    for k in 0..number(packages) {
        let x = items(packages, k);
        keys[k] = key(x, optional, order, &inverse, plain, k);
    }
}

// Whether entry j of gone is p.
fn is_next(gone: &[u16], j: usize, p: usize) -> bool
    ensures { result ≡ (ltb j (length gone.now) && eqb (get_or gone.now j 0) p) }
{
    gone.get(j).is_some_and(|q| *q as usize == p)
}

// The packages that gone, a rising list, does not have move to the front, in their order; it returns how many they are. What stands behind them means nothing.
pub fn shorten(packages: &mut [u64], gone: &[u16]) -> usize
    ensures { Shortens packages.old gone.now packages.new result }
{
    let mut j: usize = 0; // gone's entries before j are below p
    let mut r: usize = 0; // how many remain of the packages before p
    for p in 0..number(packages) {
        if is_next(gone, j, p) {
            j += 1;
            continue;
        }
        let x = itemset::read(packages, 3 * p);
        itemset::write(packages, 3 * r, x);
        r += 1;
    }
    r
}
