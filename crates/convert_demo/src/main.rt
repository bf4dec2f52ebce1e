// The files of data/, of both versions, and one for each refusal: a line gives what each reader and each converter says to the file. Of a file that is converted
// the bytes of the other one follow, and whether the way back restores it, and then what is said and done with a buffer that is a byte too short.
#![tactic(auto)]

ghost use Rattle.std.specs.Prelude.{◌≤◌};

use bids::Bids;
use statement::Refusal;
use std::rt::Files;
use std::{fs, io};

// ---- what is printed

// S, T, N and the optional items, which are in one word.
fn print_reading(rt: &impl Print, reader: &str, r: Result<Bids, Refusal>) -> io::Result<()> {
    print!(rt; "{reader}")?;
    match r {
        Ok(b) => print!(rt;
            " schools {} slots {} packages {} optional {}",
            b.schools, b.slots, b.packages, b.optional.w0
        ),
        Err(refusal) => print!(rt; " {refusal}"),
    }
}

fn print_conversion(rt: &impl Print, converter: &str, r: Result<usize, Refusal>) -> io::Result<()> {
    print!(rt; "{converter}")?;
    match r {
        Ok(n) => print!(rt; " {n} bytes"),
        Err(refusal) => print!(rt; " {refusal}"),
    }
}

// Sixteen bytes a line.
fn print_bytes(rt: &impl Print, bytes: &[u8]) -> io::Result<()> {
    for (i, x) in bytes.iter().enumerate() {
        if i % 16 == 0 {
            print!(rt; "\n ")?;
        }
        print!(rt; " {x:02x}")?;
    }
    Ok(())
}

// Whether all of a buffer, or the rest of it, is as it was lent.
fn print_unchanged(rt: &impl Print, what: &str, bytes: &[u8]) -> io::Result<()> {
    let word = if bytes.iter().all(|x| *x == LENT) {
        "unchanged"
    } else {
        "changed"
    };
    print!(rt; "{what} {word}")
}

// ---- one file

// What each byte of a buffer is before a call.
const LENT: u8 = 9;

// How many bytes were written, at most 256.
fn written(r: Result<usize, Refusal>) -> usize
    ensures { result ≤ 256 }
{
    r.unwrap_or(0).min(256)
}

fn back(rt: &impl Print, file: &[u8], other: &[u8]) -> io::Result<()> {
    let mut again = [LENT; 256];
    let r = conversion::turn(other, &mut again);
    print_conversion(rt, "\n  back:", r)?;
    let same = if file == &again[..written(r)] {
        "the same"
    } else {
        "others"
    };
    print!(rt; ", {same}")
}

// With k bytes lent.
fn short(rt: &impl Print, file: &[u8], k: usize) -> io::Result<()>
    requires { k ≤ 256 }
{
    let mut few = [LENT; 256];
    let r = conversion::turn(file, &mut few[..k]);
    print_conversion(rt, "\n  a byte less:", r)?;
    print_unchanged(rt, ", buffer", &few)
}

fn turned(rt: &impl Print, file: &[u8]) -> io::Result<()> {
    let mut out = [LENT; 256];
    let n = written(conversion::turn(file, &mut out));
    if n == 0 {
        return print_unchanged(rt, ", buffer", &out);
    }
    print_bytes(rt, &out[..n])?;
    print_unchanged(rt, "\n  rest of the buffer", &out[n..])?;
    back(rt, file, &out[..n])?;
    short(rt, file, n - 1)
}

fn said(rt: &impl Print, file: &[u8]) -> io::Result<()> {
    let mut packages = [0u64; 24];
    let mut costs = [0u16; 8];
    let mut out = [0u8; 256];
    print_reading(rt, ": read", bids::read(file, &mut packages, &mut costs))?;
    print_reading(rt, ", read2", bids::read2(file, &mut packages, &mut costs))?;
    print_conversion(rt, ", up", conversion::up(file, &mut out))?;
    print_conversion(rt, ", down", conversion::down(file, &mut out))
}

fn case<R: Files + Print>(rt: &R, name: &str) -> io::Result<()> {
    let mut file = [0u8; 256];
    let n = console::read_full(&mut fs::open(rt, name)?, &mut file)?;
    print!(rt; "{name}")?;
    said(rt, &file[..n])?;
    turned(rt, &file[..n])?;
    println!(rt)
}

// What the program itself writes for a file: the other file byte for byte, or its line.
fn convert<R: Files + Print>(rt: &R, name: &str) -> io::Result<()> {
    let mut file = fs::open(rt, name)?;
    console::convert(&mut file, &mut io::writer(rt))
}

// ---- the files

const CONVERTED: [&str; 4] = ["example1", "empty1", "example2", "empty2"];

const REFUSED_AS_VERSION_1: [&str; 7] = [
    "items1", "cut1", "check1", "school1", "site1", "slot1", "twice1",
];

const REFUSED_AS_VERSION_2: [&str; 13] = [
    "short",
    "mark",
    "version3",
    "low_version",
    "size2",
    "long2",
    "check2",
    "carried",
    "stray_optional",
    "twice2",
    "site2",
    "slot2",
    "package2",
];

const REFUSED_BY_CONVERTER: [&str; 5] = [
    "wide",
    "wide_unused",
    "low_byte",
    "optional",
    "wide_and_optional",
];

// One of each kind.
const OF_EACH_KIND: [&str; 8] = [
    "example1",
    "example2",
    "short",
    "check1",
    "version3",
    "stray_optional",
    "wide",
    "optional",
];

fn cases<R: Files + Print>(rt: &R, names: &[&str]) -> io::Result<()> {
    for name in names {
        case(rt, name)?;
    }
    Ok(())
}

fn main(rt: HostRuntime) -> io::Result<()> {
    cases(&rt, &CONVERTED)?;
    cases(&rt, &REFUSED_AS_VERSION_1)?;
    cases(&rt, &REFUSED_AS_VERSION_2)?;
    cases(&rt, &REFUSED_BY_CONVERTER)?;
    for name in OF_EACH_KIND {
        convert(&rt, name)?;
    }
    Ok(())
}
