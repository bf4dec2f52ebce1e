// Runs a history on the program's example file of document 01 through the runner, on tables of three lengths, and lists the table that it leaves: each node
// with the answers that it is below. A table with room for just the nodes made answers as a longer one does, and with room for one fewer a call is refused.
// Among the calls is one that is refused always: a search cut short by its limit, whose nodes are gone again. The items are lent in the plain order.
#![tactic(auto)]

ghost use Rattle.std.specs.Prelude.{◌≤◌, ◌<◌};

use itemset::Items;
use statement::Call;
use std::io;

// A set of items below 64.
fn low(word: u64) -> Items {
    Items {
        w0: word,
        w1: 0,
        w2: 0,
    }
}

fn cover(d: u64, limit: u32) -> Call {
    Call::Cover { d: low(d), limit }
}

fn calls() -> [Call; 10] {
    [
        // All items, with a limit of 8 steps: 9 are needed.
        cover(0b1111, 8),
        cover(0b1111, 9),
        // With 1, and without 1.
        Call::With { a: 7, p: 1 },
        Call::Without { a: 7, p: 1 },
        // Nothing in both.
        Call::Both { a: 8, b: 9 },
        // The same as without 1.
        Call::Only { a: 7, b: 8 },
        // Items 0 and 2: package 0 alone.
        cover(0b0101, 9),
        // Two nodes are missing.
        Call::Either { a: 9, b: 10 },
        // One is missing: of room for 11 nodes none is left.
        Call::Either { a: 8, b: 10 },
        // With 4: a node that was there already.
        Call::With { a: 7, p: 4 },
    ]
}

// The seven words of a call in a script: its kind, M, its first argument in three words, its second, and the working words that it is lent.
fn request(c: Call) -> [u64; 7] {
    let (kind, x, y, words) = match c {
        Call::Cover { d, limit } => (0, d, limit, 128),
        Call::Either { a, b } => (1, low(a as u64), b, 2),
        Call::Both { a, b } => (2, low(a as u64), b, 2),
        Call::Only { a, b } => (3, low(a as u64), b, 2),
        Call::With { a, p } => (4, low(a as u64), p, 2),
        Call::Without { a, p } => (5, low(a as u64), p, 2),
        Call::Join { a, b } => (6, low(a as u64), b, 2),
    };
    [kind, 4, x.w0, x.w1, x.w2, y as u64, words]
}

// The packages of the file: school 0, school 1, slot 0, slot 1 are the items 0 to 3. Three words each.
const PACKAGES: [u64; 18] = [
    0b0101, 0, 0, 0b1001, 0, 0, 0b1010, 0, 0, 0b0110, 0, 0, 0b1101, 0, 0, 0b0010, 0, 0,
];

// The items in the plain order.
const ORDER: [u8; 4] = [0, 1, 2, 3];

// A branch node of the table.
#[derive(Clone, Copy)]
struct Node {
    label: u32,
    lo: usize,
    hi: usize,
}

// Node k of the table.
fn node_at(t: &[u32; 61], k: usize) -> Node
    requires { (2 ≤ k) × (k < 22) }
{
    Node {
        label: t[3 * k - 5],
        lo: t[3 * k - 4] as usize,
        hi: t[3 * k - 3] as usize,
    }
}

// The numbers below a in the table: they are marked from a down to the children of the nodes marked.
fn below(t: &[u32; 61], a: usize) -> [bool; 22] {
    let mut below = [false; 22];
    for i in (2..22).rev() {
        if i == a {
            below[i] = true;
        }
        if below[i] {
            let n = node_at(t, i);
            if n.lo < i {
                below[n.lo] = true;
            }
            if n.hi < i {
                below[n.hi] = true;
            }
        }
    }
    below
}

// A report of the runner: the word of the outcome, the steps and the nodes made.
type Report = [u64; 3];

// The answers given among the first n reports: a mark at each number.
fn given(reports: &[Report; 10], n: usize) -> [bool; 22] {
    let mut marks = [false; 22];
    for [outcome, _, _] in reports.iter().take(n) {
        if *outcome < 22 {
            marks[*outcome as usize] = true;
        }
    }
    marks
}

// How a call ended, by the first word of its report.
fn show_outcome(rt: &impl Print, word: u64) -> io::Result<()> {
    if word < 4294967296 {
        print!(rt; ": answer {word}")
    } else {
        print!(rt; ": refused {}", word - 4294967296)
    }
}

// The first n reports.
fn show_reports(rt: &impl Print, reports: &[Report; 10], n: usize) -> io::Result<()> {
    for (i, [outcome, _, made]) in reports.iter().take(n).enumerate() {
        print!(rt; "call {i}")?;
        show_outcome(rt, *outcome)?;
        println!(rt; " made {made}")?;
    }
    Ok(())
}

// Node k: its label, lo and hi, and the answers given that it is below.
fn show_node(rt: &impl Print, t: &[u32; 61], marks: &[bool; 22], k: usize) -> io::Result<()>
    requires { (2 ≤ k) × (k < 22) }
{
    let Node { label, lo, hi } = node_at(t, k);
    print!(rt; "node {k}: label {label} lo {lo} hi {hi}, needed by")?;
    for a in 2..22 {
        if marks[a] && below(t, a)[k] {
            print!(rt; " {a}")?;
        }
    }
    println!(rt)
}

// The nodes of the table, each with the answers that need it.
fn show_nodes(rt: &impl Print, t: &[u32; 61], marks: &[bool; 22]) -> io::Result<()> {
    let nodes = t[0];
    println!(rt; "nodes {nodes}")?;
    for k in 2..22 {
        if k < nodes as usize + 2 {
            show_node(rt, t, marks, k)?;
        }
    }
    Ok(())
}

// The history on a table with room for so many nodes.
fn scenario(rt: &impl Print, room: usize) -> io::Result<()>
    requires { room ≤ 20 }
{
    let mut t = [7u32; 61];
    let mut work = [7u64; 128];
    let mut reports = [[0u64; 3]; 10];
    let script = calls().map(request);
    let n = history::run(
        &PACKAGES,
        low(0),
        &ORDER,
        &mut t[..3 * room + 1],
        &mut work,
        script.as_flattened(),
        reports.as_flattened_mut(),
    );
    println!(rt; "room for {room} nodes")?;
    show_reports(rt, &reports, n)?;
    show_nodes(rt, &t, &given(&reports, n))
}

fn main(rt: HostRuntime) -> io::Result<()> {
    for room in [20, 12, 11] {
        scenario(&rt, room)?;
    }
    Ok(())
}
