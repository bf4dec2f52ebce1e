// Refusals 1, 2, 29, 30 and 34 (the packages, the optional set and the order) and 4 (the table), which every call tests first; and with them the keys of the
// packages and the index of the nodes.
#![tactic(auto)]

ghost use Rattle.std.specs.Prelude.{◌≡◌, false, not, List, [], ◌∷◌, ℕ, ◌≤◌};
ghost use Rattle.itemset.specs.Words.{value, sets_of};
ghost use Rattle.exact_cover.specs.Problem.{problem_of, Rows};
ghost use Rattle.statement.specs.Replies.{refusal_of};
ghost use Rattle.statement.specs.Refusals.{first_of, oversize, stray, nothing_compulsory, disordered, package_tests};
ghost use Rattle.guard.specs.Admitted.{optional_tests, Blank, Tested, Admitted};

use itemset::Items;
use statement::Refusal;

// Whether no package is empty and none has an item of m or above.
fn clean(m: u32, packages: &[u64]) -> bool
    ensures { result ≡ not (stray m (sets_of packages.now)) }
{
    let n = exact_cover::number(packages);
    for k in 0..n {
        let x = exact_cover::items(packages, k);
        if itemset::is_empty(x) {
            return false;
        }
        if !itemset::below(x, m) {
            return false;
        }
    }
    true
}

// Whether M or N is above its limit.
fn too_large(m: u32, packages: &[u64]) -> bool
    ensures { result ≡ oversize m (sets_of packages.now) }
{
    if m > 192 {
        return true;
    }
    exact_cover::number(packages) > 512
}

// Whether every package has a compulsory item, whatever the order.
fn all_due(packages: &[u64], optional: Items) -> bool
    ensures { (order : List ℕ) → result ≡ not (nothing_compulsory (problem_of packages.now (value optional) order)) }
{
    let n = exact_cover::number(packages);
    for p in 0..n {
        let x = exact_cover::items(packages, p);
        if exact_cover::is_done(x, optional) {
            return false;
        }
    }
    true
}

// Refusal 29 or 30, whatever the order. (With nothing optional a package without a compulsory item is empty: 2 was said.)
fn admit_optional(m: u32, packages: &[u64], optional: Items) -> Result<(), Refusal>
    requires { stray m (sets_of packages.now) ≡ false }
    ensures { (order : List ℕ) → refusal_of result ≡ first_of (optional_tests (problem_of packages.now (value optional) order) m) }
{
    if itemset::is_empty(optional) {
        return Ok(());
    }
    if !itemset::below(optional, m) {
        return Err(Refusal::StrayOptional);
    }
    if !all_due(packages, optional) {
        return Err(Refusal::AllOptional);
    }
    Ok(())
}

// Whether the order is each item below m just once. An item is marked where it was seen.
fn orderly(m: u32, order: &[u8]) -> bool
    requires { m ≤ 192 }
    ensures { result ≡ not (disordered m order.now) }
{
    let n = m as usize;
    if order.len() != n {
        return false;
    }
    let mut marks = [0u8; 192];
    // The first n are all. (Over a longer list the loop would refuse too, and the test of the length above would stand for nothing.)
    for &item in &order[..n] {
        let i = item as usize;
        if i >= n {
            return false;
        }
        if marks[i] != 0 {
            return false;
        }
        marks[i] = 1;
    }
    true
}

// Refusal 1, 2, 29, 30 or 34.
pub fn admit_packages(
    m: u32,
    packages: &[u64],
    optional: Items,
    order: &[u8],
) -> Result<(), Refusal>
    ensures { refusal_of result ≡ first_of (package_tests (problem_of packages.now (value optional) order.now) m []) }
{
    if too_large(m, packages) {
        return Err(Refusal::Oversize);
    }
    if !clean(m, packages) {
        return Err(Refusal::Stray);
    }
    admit_optional(m, packages, optional)?;
    if !orderly(m, order) {
        return Err(Refusal::Disordered);
    }
    Ok(())
}

// Whether the table is sound; where it is, the keys and the index are ready.
fn usable(
    packages: &[u64],
    optional: Items,
    order: &[u8],
    t: &[u32],
    keys: &mut [u32],
    index: &mut [u16; 131072],
) -> bool
    requires rows { Rows (problem_of packages.now (value optional) order.now) }
    requires blank { Blank keys.old index.old }
    ensures { Tested (problem_of packages.now (value optional) order.now) t.now keys.new index.new result }
{
    exact_cover::keys(packages, optional, order, keys);
    let n = exact_cover::number(packages);
    table::check(t, &keys[..n], index)
}

// Refusal 1, 2, 29, 30, 34 or 4; where none applies, the keys and the index are ready.
pub fn admit(
    m: u32,
    packages: &[u64],
    optional: Items,
    order: &[u8],
    t: &[u32],
    keys: &mut [u32],
    index: &mut [u16; 131072],
) -> Result<(), Refusal>
    requires { Blank keys.old index.old }
    ensures { Admitted (problem_of packages.now (value optional) order.now) m t.now keys.new index.new (refusal_of result) }
{
    admit_packages(m, packages, optional, order)?;
    if !usable(packages, optional, order, t, keys, index) {
        return Err(Refusal::Spoilt);
    }
    Ok(())
}
