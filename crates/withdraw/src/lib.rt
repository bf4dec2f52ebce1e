// Labels withdrawn from a sound table, in place: each listed answer becomes the number of what is left of it, in the new numbers of the labels that
// remain, and no node stays that no listed answer needs.
#![tactic(auto)]

ghost use Rattle.std.specs.Prelude.{◌≡◌, ◌+◌, ◌<◌, ◌≤◌, length, get_or};
ghost use Rattle.zdd.specs.Table.{node, count, nodes_of, Sound};
ghost use Rattle.table.specs.State.{Fresh, Indexed};
ghost use Rattle.withdraw.specs.Withdrawal.{Within, Withdraws};
ghost use Rattle.withdraw.specs.State.{Names, Struck, ListedTo, Ready, Roomy, Placed, Renewal, Passing, ReplacedTo, Small};

// ---- the new names of the labels

// The withdrawn labels get 1.
fn strike(gone: &[u16], names: &mut [u32])
    requires within { Within gone.now (length names.old) }
    requires struck { Struck gone.now 0 (length names.old) names.old }
    ensures { Struck gone.now (length gone.now) (length names.old) names.new }
{
    for &p in gone {
        names[p as usize] = 1;
    }
}

// They get 0, and the others are numbered from 1. (gone is for the contract alone.)
fn number(gone: &[u16], names: &mut [u32])
    requires names_len_bound { length names.old ≤ 512 }
    requires struck { Struck gone.now (length gone.now) (length names.old) names.old }
    ensures { Names gone.now (length names.old) names.new }
{
    let mut c = 0;
    for name in names.iter_mut() {
        if *name != 0 {
            *name = 0;
        } else {
            c += 1;
            *name = c;
        }
    }
}

// Of the labels, whose words come as 0, each withdrawn one gets 0, and each other one more than its new number.
fn rename(gone: &[u16], names: &mut [u32])
    requires names_len_bound { length names.old ≤ 512 }
    requires within { Within gone.now (length names.old) }
    requires struck { Struck gone.now 0 (length names.old) names.old }
    ensures { Names gone.now (length names.old) names.new }
{
    strike(gone, names);
    number(gone, names);
}

// ---- the marks

// The listed answers are marked.
fn list(answers: &[u32], m: usize, work: &mut [u64])
    requires listed_to { ListedTo answers.now m 0 work.old }
    requires within { Within answers.now m }
    ensures { ListedTo answers.now m (length answers.now) work.new }
{
    for &a in answers {
        work[a as usize] = 1;
    }
}

// The wanted numbers are marked by 1: the listed answers, lo of each wanted node, and hi where its label remains; the others of the first n + 2 words are 0.
// Then the words 0 and 1 get the new numbers of 0 and 1. (keys and gone are for the contract alone.)
fn mark(t: &[u32], keys: &[u32], gone: &[u16], names: &[u32], answers: &[u32], work: &mut [u64])
    requires sound { Sound keys.now t.now }
    requires names { Names gone.now (length keys.now) names.now }
    requires within { Within answers.now (count t.now + 2) }
    requires t_in_bounds { count t.now + 2 ≤ length work.old }
    ensures { Ready gone.now (nodes_of t.now) answers.now work.old work.new }
{
    let n = t[0] as usize;
    work[..n + 2].fill(0);
    list(answers, n + 2, work);
    for i in (0..n).rev() {
        if work[i + 2] == 0 {
            continue;
        }
        let w = 1 + 3 * i;
        let label = t[w] as usize;
        let lo = t[w + 1] as usize;
        work[lo] = 1;
        let name = names[label];
        if name == 0 {
            continue;
        }
        let hi = t[w + 2] as usize;
        work[hi] = 1;
    }
    work[0] = 0;
    work[1] = 1;
}

// ---- one node

// The number of the triple among the nodes of t, found or made. There is room.
fn place(t: &mut [u32], index: &mut [u16; 131072], label: u32, lo: u32, hi: u32) -> u32
    requires indexed { Indexed t.old index.old }
    requires roomy { Roomy t.old }
    ensures { Placed t.old t.new index.new (node label lo hi) result }
{
    let h = table::hash(label, lo, hi);
    let m = t[0] as usize + 2;
    let old = table::find(t, index, m, h, label, lo, hi);
    if old != 0 {
        return old;
    }
    table::append(t, index, h, label, lo, hi)
}

// The new number of a node: name is that of its label, lo and hi are its children's new numbers.
fn renew(t: &mut [u32], index: &mut [u16; 131072], name: u32, lo: u32, hi: u32) -> u32
    requires indexed { Indexed t.old index.old }
    requires roomy { Roomy t.old }
    ensures { Renewal name lo hi t.old t.new index.new result }
{
    if hi == 0 {
        return lo;
    }
    if name == 0 {
        return lo;
    }
    place(t, index, name - 1, lo, hi)
}

// ---- the pass

// The nodes of t, children first: each marked one gets its new number, and the new nodes stand from the first place on. The words behind the new nodes
// are those of old ones. (keys and gone are for the contract alone.)
fn pass(
    t: &mut [u32],
    keys: &[u32],
    gone: &[u16],
    names: &[u32],
    index: &mut [u16; 131072],
    work: &mut [u64],
)
    requires sound { Sound keys.now t.old }
    requires names { Names gone.now (length keys.now) names.now }
    requires fresh { Fresh index.old }
    requires t_in_bounds { count t.old + 2 ≤ length work.old }
    requires work_value { (get_or work.old 0 0 ≡ 0) × (get_or work.old 1 0 ≡ 1) }
    ensures { Passing gone.now keys.now t.old work.old (count t.old) t.new index.new work.new }
{
    let n = t[0] as usize;
    t[0] = 0;
    for i in 0..n {
        if work[i + 2] == 0 {
            continue;
        }
        let w = 1 + 3 * i;
        let label = t[w] as usize;
        let lo = t[w + 1] as usize;
        let hi = t[w + 2] as usize;
        let a = work[lo] as u32;
        let b = work[hi] as u32;
        let r = renew(t, index, names[label], a, b);
        work[i + 2] = r as u64;
    }
}

// ---- the end

// Each answer is replaced by its new number.
fn replace(answers: &mut [u32], work: &[u64])
    requires within { Within answers.old (length work.now) }
    requires small { Small work.now answers.old }
    ensures { ReplacedTo work.now answers.old (length answers.old) answers.new }
{
    for a in answers.iter_mut() {
        *a = work[*a as usize] as u32;
    }
}

// The labels of gone are withdrawn from the table: each listed answer is replaced by the number of those of its sets that hold none of them, in the new
// numbers of the labels that remain; nodes that are neither a listed answer's own nor below one disappear. It returns how many nodes are left. What the
// index and the working words hold before does not matter.
pub fn withdraw(
    t: &mut [u32],
    keys: &[u32],
    gone: &[u16],
    answers: &mut [u32],
    index: &mut [u16; 131072],
    work: &mut [u64],
) -> u32
    requires sound { Sound keys.now t.old }
    requires keys_len_bound { length keys.now ≤ 512 }
    requires within { Within gone.now (length keys.now) }
    requires within_2 { Within answers.old (count t.old + 2) }
    requires index_len { length index.old ≡ 131072 }
    requires t_in_bounds { count t.old + 2 ≤ length work.old }
    ensures { Withdraws gone.now keys.now t.old answers.old t.new answers.new result }
{
    let n = t[0] as usize;
    let mut words = [0u32; 512];
    let names = &mut words[..keys.len()];
    rename(gone, names);
    mark(t, keys, gone, names, answers, work);
    index.fill(0);
    pass(t, keys, gone, names, index, work);
    let left = t[0];
    t[3 * left as usize + 1..3 * n + 1].fill(0);
    replace(answers, work);
    left
}
