// The kiosk's calls: the soundness check and count on nodes that are lent as a list of triples, their number beside it. They promise what the two
// calls of `engine` promise of the table whose words are that number and then the triples' (`statement`'s specs/Kiosk).
#![tactic(auto)]

ghost use Rattle.std.specs.Prelude.{◌≡◌, length};
ghost use Rattle.itemset.specs.Words.{value};
ghost use Rattle.exact_cover.specs.Problem.{problem_of};
ghost use Rattle.statement.specs.Replies.{reply_of};
ghost use Rattle.statement.specs.Kiosk.{KioskCheckPost, KioskCountPost};
ghost use Rattle.kiosk.specs.Triples.{nodes_in};
ghost use Rattle.kiosk.specs.Flat.{put3, filled, numbered, headed};

use itemset::Items;
use statement::Refusal;

// A triple of the list: a branch node, or all 0.
#[repr(C)]
#[derive(Clone, Copy, Default, PartialEq, Eq)]
pub struct Node {
    pub label: u32,
    pub lo: u32,
    pub hi: u32,
}

// Triple i goes into its three words. A table has room for 65534, in 1 + 3 * 65534 words: of a triple past them only whether it is all 0 matters,
// and where it is not, word 0 says so by a number of nodes that no table can have.
fn put(words: &mut [u32; 196603], i: usize, x: Node)
    ensures { words.new ≡ put3 words.old i x }
{
    if i < 65534 {
        let at = 3 * i + 1;
        words[at] = x.label;
        words[at + 1] = x.lo;
        words[at + 2] = x.hi;
        return;
    }
    if x != Node::default() {
        words[0] = 4294967295;
    }
}

// The number of nodes; where it is above the list's length, a number that no table can have.
fn number(n: u32, len: usize) -> u32
    ensures { result ≡ numbered n len }
{
    if len < n as usize { 4294967295 } else { n }
}

// Every triple, and then the number of nodes in word 0, which the triples may have spoilt.
fn flatten(n: u32, nodes: &[Node], words: &mut [u32; 196603])
    ensures { words.new ≡ headed (filled words.old nodes.now (length nodes.now)) n (length nodes.now) }
{
    for (i, x) in nodes.iter().enumerate() {
        put(words, i, *x);
    }
    if words[0] == 0 {
        words[0] = number(n, nodes.len());
    }
}

// The soundness check: 1, 2, 29, 30, 34, 4 or sound.
pub fn check(
    m: u32,
    packages: &[u64],
    optional: Items,
    order: &[u8],
    n: u32,
    nodes: &[Node],
) -> Result<(), Refusal>
    ensures { KioskCheckPost (problem_of packages.now (value optional) order.now) m n (nodes_in nodes.now) (reply_of result) }
{
    let mut words = [0u32; 196603];
    flatten(n, nodes, &mut words);
    engine::check(m, packages, optional, order, &words)
}

// How many timetables the answer holds.
pub fn count(
    m: u32,
    packages: &[u64],
    optional: Items,
    order: &[u8],
    n: u32,
    nodes: &[Node],
    answer: u32,
    work: &mut [u64],
) -> Result<u64, Refusal>
    ensures { KioskCountPost (problem_of packages.now (value optional) order.now) m n (nodes_in nodes.now) answer (length work.old) (reply_of result) }
{
    let mut words = [0u32; 196603];
    flatten(n, nodes, &mut words);
    engine::count(m, packages, optional, order, &words, answer, work)
}
