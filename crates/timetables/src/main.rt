// The timetables of the bids file on standard input.
#![tactic(auto)]

use std::io;

fn main(rt: HostRuntime) -> io::Result<()> {
    console::answer(&mut rt.stdin(), &mut io::writer(&rt))
}
