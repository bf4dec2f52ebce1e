// The node table under every operation: the soundness test that builds the node index, find or make, and rollback. The index has 65536 buckets.
#![tactic(auto)]

ghost use Rattle.std.specs.Prelude.{◌≡◌, ℕ, suc, ◌+◌, ◌-◌, ◌*◌, ◌<◌, ◌≤◌, length, get_or, set};
ghost use Rattle.zdd.specs.Table.{node, blank, count, nodes_of, Over, Fine};
ghost use Rattle.table.specs.State.{Tells, hash_of, Room, Fresh, IndexedTo, Indexed, Found, Labelled, Entered, Checked, Absent, Appends, Unique, Rolled};

// The bucket of a triple: bits 16 to 31 of the sum, on which the low bits of all three numbers have their effect.
pub fn hash(label: u32, lo: u32, hi: u32) -> usize
    ensures { (result ≡ hash_of (node label lo hi)) × (result < 65536) }
{
    (((label as u64) * 951274213 + (lo as u64) * 663608941 + (hi as u64) * 444758373) / 65536
        % 65536) as usize
}

// Whether the node at index i is the triple.
fn is_node(t: &[u32], i: usize, label: u32, lo: u32, hi: u32) -> bool
    requires room { Room t.now }
    requires i_bound { i < count t.now }
    ensures { Tells (get_or (nodes_of t.now) i blank ≡ node label lo hi) result }
{
    let w = 1 + 3 * i;
    t[w] == label && t[w + 1] == lo && t[w + 2] == hi
}

// The number below m of the node that is the triple, whose bucket is h; or 0. (m is for the contract alone.)
pub fn find(
    t: &[u32],
    index: &[u16; 131072],
    m: usize,
    h: usize,
    label: u32,
    lo: u32,
    hi: u32,
) -> u32
    requires room { Room t.now }
    requires m_bound { m ≤ count t.now + 2 }
    requires indexed_to { IndexedTo (nodes_of t.now) m index.now }
    requires h_value { (h ≡ hash_of (node label lo hi)) × (h < 65536) }
    ensures { Found (nodes_of t.now) m (node label lo hi) result }
{
    let mut k = index[h];
    while k != 0 {
        let at = k as usize;
        if is_node(t, at - 2, label, lo, hi) {
            return k as u32;
        }
        k = index[65536 + at];
    }
    0
}

// Whether c may be a child of the node at index i, whose key is given.
fn child_fits(t: &[u32], keys: &[u32], i: usize, key: u32, c: u32) -> bool
    requires room { Room t.now }
    requires i_bound { i < count t.now }
    requires labelled { Labelled keys.now (nodes_of t.now) i }
    ensures { Tells ((c < suc (suc i)) × Over keys.now (nodes_of t.now) (suc key) c) result }
{
    let k = c as usize;
    if k >= i + 2 {
        return false;
    }
    if k < 2 {
        return true;
    }
    let label = t[1 + 3 * (k - 2)] as usize;
    key < keys[label]
}

// Whether the node at index i may stand there, once those before it may.
fn node_fits(t: &[u32], keys: &[u32], i: usize) -> bool
    requires room { Room t.now }
    requires i_bound { i < count t.now }
    requires labelled { Labelled keys.now (nodes_of t.now) i }
    ensures { Tells (Fine keys.now (nodes_of t.now) i (get_or (nodes_of t.now) i blank)) result }
{
    let w = 1 + 3 * i;
    let label = t[w] as usize;
    if label >= keys.len() {
        return false;
    }
    let key = keys[label];
    let lo = t[w + 1];
    let hi = t[w + 2];
    hi != 0 && child_fits(t, keys, i, key, lo) && child_fits(t, keys, i, key, hi)
}

// The node at index i goes into the index of those before it; false where one of those is the same.
fn enter(t: &[u32], index: &mut [u16; 131072], i: usize) -> bool
    requires room { Room t.now }
    requires i_bound { i < count t.now }
    requires indexed_to { IndexedTo (nodes_of t.now) (i + 2) index.old }
    ensures { Entered (nodes_of t.now) i index.new result }
{
    let w = 1 + 3 * i;
    let label = t[w];
    let lo = t[w + 1];
    let hi = t[w + 2];
    let h = hash(label, lo, hi);
    if find(t, index, i + 2, h, label, lo, hi) != 0 {
        return false;
    }
    buckets::insert(index, 65536, h, (i + 2) as u16);
    true
}

// Whether the words are all 0. (It reads all of them, without an early end, so that several are read at a time.)
fn zeros(words: &[u32]) -> bool
    ensures { Tells ((j : ℕ) → get_or words.now j 0 ≡ 0) result }
{
    words.iter().fold(0, |any, word| any | *word) == 0
}

// Whether the words are a sound table over the keys; if so, the index has its nodes. It comes with zeros only.
// (Every call begins with it. In a function of its own the loop has its registers, which it lacks inside a caller's.)
#[inline(never)]
pub fn check(t: &[u32], keys: &[u32], index: &mut [u16; 131072]) -> bool
    requires { Fresh index.old }
    ensures { Checked keys.now t.now index.new result }
{
    if t.is_empty() {
        return false;
    }
    let n = t[0] as usize;
    if n > 65534 {
        return false;
    }
    if 3 * n >= t.len() {
        return false;
    }
    for i in 0..n {
        if !node_fits(t, keys, i) {
            return false;
        }
        if !enter(t, index, i) {
            return false;
        }
    }
    zeros(&t[3 * n + 1..])
}

// One more node, the triple, whose bucket is h: its number. There is room.
pub fn append(
    t: &mut [u32],
    index: &mut [u16; 131072],
    h: usize,
    label: u32,
    lo: u32,
    hi: u32,
) -> u32
    requires indexed { Indexed t.old index.old }
    requires h_value { (h ≡ hash_of (node label lo hi)) × (h < 65536) }
    requires room { (count t.old < 65534) × (3 * count t.old + 3 < length t.old) }
    ensures { Appends t.old t.new index.new (node label lo hi) result }
{
    let n = t[0];
    let w = 3 * n as usize;
    t[w + 1] = label;
    t[w + 2] = lo;
    t[w + 3] = hi;
    t[0] = n + 1;
    buckets::insert(index, 65536, h, (n + 2) as u16);
    n + 2
}

// The same; 0 where there is no room.
fn make(t: &mut [u32], index: &mut [u16; 131072], h: usize, label: u32, lo: u32, hi: u32) -> u32
    requires indexed { Indexed t.old index.old }
    requires h_value { (h ≡ hash_of (node label lo hi)) × (h < 65536) }
    requires absent { Absent t.old (node label lo hi) }
    ensures { Unique t.old t.new index.new (node label lo hi) result }
{
    let n = t[0] as usize;
    if n >= 65534 {
        return 0;
    }
    if t.len() <= 3 * n + 3 {
        return 0;
    }
    append(t, index, h, label, lo, hi)
}

// The number of the triple, found or made; 0 where it is not there and there is no room.
pub fn unique(t: &mut [u32], index: &mut [u16; 131072], label: u32, lo: u32, hi: u32) -> u32
    requires { Indexed t.old index.old }
    ensures { Unique t.old t.new index.new (node label lo hi) result }
{
    let h = hash(label, lo, hi);
    let m = t[0] as usize + 2;
    let old = find(t, index, m, h, label, lo, hi);
    if old != 0 {
        return old;
    }
    make(t, index, h, label, lo, hi)
}

// The nodes from index n on are taken away.
pub fn rollback(t: &mut [u32], n: u32)
    requires { Room t.old }
    ensures { Rolled t.old n t.new }
{
    let start = 3 * n as usize + 1;
    let end = 3 * t[0] as usize + 1;
    if start < end {
        t[start..end].fill(0);
    }
    t[0] = n;
}
