// The memo of a search: item sets with the numbers of their answers, four words a place [document 02, No. 7].
//
// The low words and the numbers stand in the first half, the high words in the second, which only sets with items of 64 or above touch: a week of at
// most 64 items clears and reads two words a place.
#![tactic(auto)]

ghost use Rattle.std.specs.Prelude.{◌≡◌, ◌+◌, ◌*◌, ◌<◌, ◌≤◌, eqb, length};
ghost use Rattle.itemset.specs.Words.{value};
ghost use Rattle.memo.specs.Memo.{key_at, number_at, Stored, Cleared};

use itemset::Items;

// No place has a set.
pub fn clear(memo: &mut [u64], places: usize)
    requires { 4 * places ≤ length memo.old }
    ensures { Cleared places memo.old memo.new }
{
    base::clear(&mut memo[..2 * places]);
}

// Whether the place has the set. The high words are read only where it has some.
pub fn is_key(memo: &[u64], places: usize, at: usize, x: Items) -> bool
    requires places_in_bounds { 4 * places ≤ length memo.now }
    requires at_lt_places { at < places }
    ensures { result ≡ eqb (key_at places memo.now at) (value x) }
{
    let low = memo[2 * at];
    let tag = memo[2 * at + 1];
    if tag < 4294967296 {
        let key = Items {
            w0: low,
            w1: 0,
            w2: 0,
        };
        return key == x;
    }
    let high = 2 * places + 2 * at;
    let key = Items {
        w0: low,
        w1: memo[high],
        w2: memo[high + 1],
    };
    key == x
}

// The number that the place has.
pub fn number(memo: &[u64], places: usize, at: usize) -> u32
    requires places_in_bounds { 4 * places ≤ length memo.now }
    requires at_lt_places { at < places }
    ensures { result ≡ number_at memo.now at }
{
    (memo[2 * at + 1] % 4294967296) as u32
}

// The set and its number go to the place.
pub fn store(memo: &mut [u64], places: usize, at: usize, x: Items, number: u32)
    requires places_in_bounds { 4 * places ≤ length memo.old }
    requires at_lt_places { at < places }
    ensures { Stored places memo.old at (value x) number memo.new }
{
    let n = number as u64;
    if (x.w1 == 0) & (x.w2 == 0) {
        memo[2 * at] = x.w0;
        memo[2 * at + 1] = n;
        return;
    }
    let high = 2 * places + 2 * at;
    memo[2 * at] = x.w0;
    memo[2 * at + 1] = n + 4294967296;
    memo[high] = x.w1;
    memo[high + 1] = x.w2;
}
