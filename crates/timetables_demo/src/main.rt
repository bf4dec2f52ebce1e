// What the program prints for the files of data/: one for each refusal, and some that are answered.
#![tactic(auto)]

use std::rt::Files;
use std::{fs, io};

const REFUSED_BY_HEADER: [&str; 8] = [
    "short", "mark", "version", "version2", "items", "packages", "cut", "long",
];

const REFUSED_BY_RECORDS: [&str; 5] = ["check", "school", "site", "slot", "twice"];

const READ: [&str; 6] = ["spent", "full", "empty", "none", "number", "twentyfour"];

fn case<R: Files + Print>(rt: &R, name: &str) -> io::Result<()> {
    rt.println(name)?;
    let mut file = fs::open(rt, name)?;
    console::answer(&mut file, &mut io::writer(rt))
}

fn cases<R: Files + Print>(rt: &R, names: &[&str]) -> io::Result<()> {
    for name in names {
        case(rt, name)?;
    }
    Ok(())
}

fn main(rt: HostRuntime) -> io::Result<()> {
    cases(&rt, &REFUSED_BY_HEADER)?;
    cases(&rt, &REFUSED_BY_RECORDS)?;
    cases(&rt, &READ)
}
