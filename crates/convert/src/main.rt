// The bids file on standard input in the other version: version 1 to version 2, and version 2 to version 1.
#![tactic(auto)]

use std::io;

fn main(rt: HostRuntime) -> io::Result<()> {
    console::convert(&mut rt.stdin(), &mut io::writer(&rt))
}
