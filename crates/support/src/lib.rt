// Refusal 35: whether the packages on the nodes below two answers have an item in common. The items of the packages on the nodes below one answer, its own
// node included, are its support.
#![tactic(auto)]

ghost use Rattle.std.specs.Prelude.{◌≡◌, false, List, ℕ, ◌+◌, ◌<◌, length, get_or};
ghost use Rattle.itemset.specs.Words.{value, sets_of};
ghost use Rattle.zdd.specs.Table.{count, nodes_of};
ghost use Rattle.exact_cover.specs.Problem.{problem_of};
ghost use Rattle.statement.specs.Refusals.{overlap as overlaps};
ghost use Rattle.support.specs.Support.{Labelled, Supports};

use itemset::Items;

// The items of the packages on the nodes below a. One pass, from a down: children have smaller numbers, so that each node is marked before it is met.
fn gather(packages: &[u64], t: &[u32], a: usize, marks: &mut [bool; 65536]) -> Items
    requires labelled { Labelled (sets_of packages.now) t.now }
    requires a_bound { a < count t.now + 2 }
    requires marks_len { (length marks.old ≡ 65536) × ((k : ℕ) → get_or marks.old k false ≡ false) }
    ensures { Supports (sets_of packages.now) (nodes_of t.now) a (value result) }
{
    let mut items = Items {
        w0: 0,
        w1: 0,
        w2: 0,
    };
    marks[a] = true;
    for k in (2..=a).rev() {
        if !marks[k] {
            continue;
        }
        let w = 3 * k - 5;
        let p = t[w] as usize;
        let lo = t[w + 1] as usize;
        let hi = t[w + 2] as usize;
        items = itemset::union(items, exact_cover::items(packages, p));
        marks[lo] = true;
        marks[hi] = true;
    }
    items
}

// The same, with marks of its own: 35 is told whatever working words are lent.
fn support(packages: &[u64], t: &[u32], a: u32) -> Items
    requires labelled { Labelled (sets_of packages.now) t.now }
    requires a_bound { a < count t.now + 2 }
    ensures { Supports (sets_of packages.now) (nodes_of t.now) a (value result) }
{
    let mut marks = [false; 65536];
    gather(packages, t, a as usize, &mut marks)
}

// Whether some package on a node below a shares an item with one below b.
pub fn overlap(packages: &[u64], t: &[u32], a: u32, b: u32) -> bool
    requires labelled { Labelled (sets_of packages.now) t.now }
    requires a_bound { (a < count t.now + 2) × (b < count t.now + 2) }
    ensures { (optional : ℕ) (order : List ℕ) → result ≡ overlaps (problem_of packages.now optional order) t.now a b }
{
    let x = support(packages, t, a);
    let y = support(packages, t, b);
    !itemset::apart(x, y)
}
