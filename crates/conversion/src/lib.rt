// Bids files from one version to the other. What a file says is read by the reader's own functions and written in the other layout, record by record,
// straight to the lent buffer; the check is computed of what was written.
#![tactic(auto)]

ghost use Rattle.std.specs.Prelude.{◌≡◌, ◌+◌, ◌*◌, ◌≤◌, length};
ghost use Rattle.statement.specs.Refusals.{first_of};
ghost use Rattle.statement.specs.Replies.{refusal_of, reply_of};
ghost use Rattle.statement.specs.Postconditions.{written};
ghost use Rattle.bids.specs.Bytes.{bytes_of};
ghost use Rattle.bids.specs.Format.{schools, packages, school_place, package_place, file_length, schools_in, packages_in, contents, version1, version2};
ghost use Rattle.bids.specs.Contract.{Legible, HeaderPost, Sized};
ghost use Rattle.conversion.specs.Writing.{header_bytes, school_bytes, package_bytes, joined, body_of, file_of};
ghost use Rattle.conversion.specs.Contract.{wide_site, lost_tests, says2, own_layout, other_layout, ConvertPost, PutPost};

use bids::{Cursor, Header, Layout, Package, School};
use statement::Refusal;

// Puts the lowest `width` bytes of a number, the lowest first, and returns the place past them.
fn put(out: &mut [u8], at: usize, v: u64, width: usize) -> usize
    requires { at + width ≤ length out.old }
    ensures { PutPost out.old at (bytes_of width v) out.new result }
{
    let mut rest = v;
    for i in 0..width {
        out[at + i] = (rest % 256) as u8;
        rest /= 256;
    }
    at + width
}

fn put_header(out: &mut [u8], layout: Layout, s: u64, t: u64, n: u64, optional: u64) -> usize
    requires { (layout.header ≤ length out.old) × Legible layout }
    ensures { PutPost out.old 0 (header_bytes layout s t n optional) out.new result }
{
    out[..3].copy_from_slice(b"PSB");
    let after_version = put(out, 3, layout.version, 2);
    let after_schools = put(out, after_version, s, 1);
    let after_slots = put(out, after_schools, t, 1);
    let after_packages = put(out, after_slots, n, 2);
    put(out, after_packages, optional, layout.header - 9)
}

fn put_school(out: &mut [u8], at: usize, layout: Layout, school: School) -> usize
    requires { at + (layout.site + 1) ≤ length out.old }
    ensures { PutPost out.old at (school_bytes layout school) out.new result }
{
    let after_site = put(out, at, school.site, layout.site);
    put(out, after_site, school.number, 1)
}

fn put_package(out: &mut [u8], at: usize, layout: Layout, bid: Package) -> usize
    requires { at + (layout.site + 11) ≤ length out.old }
    ensures { PutPost out.old at (package_bytes layout bid) out.new result }
{
    let after_school = put_school(out, at, layout, bid.school);
    let after_slots = put(out, after_school, bid.slots, 8);
    put(out, after_slots, bid.cost, 2)
}

// Puts the records of the file's s schools in the other layout.
fn put_schools(file: &[u8], from: Layout, to: Layout, s: usize, out: &mut [u8], at: usize) -> usize
    requires file_in_bounds { (school_place from (schools file.now) ≤ length file.now) × (s ≡ schools file.now) }
    requires s_in_bounds { at + (to.site + 1) * s ≤ length out.old }
    requires legible { Legible from }
    ensures { PutPost out.old at (joined (school_bytes to) (schools_in from file.now)) out.new result }
{
    let mut cursor = Cursor { at: from.header };
    let mut next = at;
    for _ in 0..s {
        let school = cursor.school_record(file, from);
        next = put_school(out, next, to, school);
    }
    next
}

// Puts the records of the file's n packages in the other layout.
fn put_packages(
    file: &[u8],
    from: Layout,
    to: Layout,
    s: usize,
    n: usize,
    out: &mut [u8],
    at: usize,
) -> usize
    requires n_in_bounds { (package_place from s n ≤ length file.now) × ((s ≡ schools file.now) × (n ≡ packages file.now)) }
    requires n_in_bounds_2 { at + (to.site + 11) * n ≤ length out.old }
    requires s_bound { (s ≤ 64) × Legible from }
    ensures { PutPost out.old at (joined (package_bytes to) (packages_in from file.now)) out.new result }
{
    let mut cursor = bids::first_package(from, s);
    let mut next = at;
    for _ in 0..n {
        let bid = cursor.package_record(file, from);
        next = put_package(out, next, to, bid);
    }
    next
}

// Puts all that stands before the check, and returns the place past it.
fn put_body(file: &[u8], from: Layout, to: Layout, h: Header, out: &mut [u8]) -> usize
    requires header_post { HeaderPost file.now h × Sized from file.now h.schools h.slots h.packages }
    requires packages_in_bounds { (file_length to h.schools h.packages ≤ length out.old) × Legible to }
    ensures { PutPost out.old 0 (body_of to (contents from file.now)) out.new result }
{
    let s = h.schools as usize;
    let n = h.packages as usize;
    let optional = bids::optional_slots(file, from);
    let after_header = put_header(out, to, h.schools, h.slots, h.packages, optional);
    let after_schools = put_schools(file, from, to, s, out, after_header);
    put_packages(file, from, to, s, n, out, after_schools)
}

// Writes the file of the other layout that says the same, with the check of what was written.
fn write(file: &[u8], from: Layout, to: Layout, h: Header, out: &mut [u8])
    requires header_post { HeaderPost file.now h × Sized from file.now h.schools h.slots h.packages }
    requires packages_in_bounds { (file_length to h.schools h.packages ≤ length out.old) × Legible to }
    ensures { out.new ≡ written 0 (file_of to (contents from file.now)) out.old }
{
    let end = put_body(file, from, to, h, out);
    let sum = bids::check(out, end);
    put(out, end, sum as u64, 4);
}

// Whether the site of one of the s schools does not fit the other layout.
fn wide_site(file: &[u8], from: Layout, to: Layout, s: usize) -> bool
    requires file_in_bounds { (school_place from (schools file.now) ≤ length file.now) × (s ≡ schools file.now) }
    requires legible { Legible from × Legible to }
    ensures { result ≡ wide_site to (schools_in from file.now) }
{
    let bits = 8 * to.site as u32;
    let mut cursor = Cursor { at: from.header };
    for _ in 0..s {
        let school = cursor.school_record(file, from);
        if !itemset::below_word(school.site, bits) {
            return true;
        }
    }
    false
}

// The refusal of a file for which the other layout has no room: a wide site, or optional slots.
fn admit_narrow(file: &[u8], from: Layout, to: Layout, s: usize) -> Result<(), Refusal>
    requires file_in_bounds { (school_place from (schools file.now) ≤ length file.now) × (s ≡ schools file.now) }
    requires legible { Legible from × Legible to }
    ensures { refusal_of result ≡ first_of (lost_tests to (contents from file.now)) }
{
    if wide_site(file, from, to, s) {
        return Err(Refusal::WideSite);
    }
    let bits = 8 * (to.header - 9) as u32;
    if !itemset::below_word(bids::optional_slots(file, from), bits) {
        return Err(Refusal::OptionalSlots);
    }
    Ok(())
}

// Converts a file of one layout to the other, and returns the length written.
fn convert(file: &[u8], from: Layout, to: Layout, out: &mut [u8]) -> Result<usize, Refusal>
    requires { Legible from × Legible to }
    ensures { ConvertPost from to file.now (reply_of result) out.old out.new }
{
    let h = bids::admit(file, from)?;
    admit_narrow(file, from, to, h.schools as usize)?;
    let length = bids::file_length(to, h.schools, h.packages);
    if (out.len() as u64) < length {
        return Err(Refusal::ShortPage);
    }
    write(file, from, to, h, out);
    Ok(length as usize)
}

// From version 1 to version 2.
pub fn up(file: &[u8], out: &mut [u8]) -> Result<usize, Refusal>
    ensures { ConvertPost version1 version2 file.now (reply_of result) out.old out.new }
{
    convert(file, bids::version1(), bids::version2(), out)
}

// From version 2 to version 1, where each site fits it and no slot is optional.
pub fn down(file: &[u8], out: &mut [u8]) -> Result<usize, Refusal>
    ensures { ConvertPost version2 version1 file.now (reply_of result) out.old out.new }
{
    convert(file, bids::version2(), bids::version1(), out)
}

// Whether the file says that it is of version 2.
fn says_2(file: &[u8]) -> bool
    ensures { result ≡ says2 file.now }
{
    if file.len() < 13 {
        return false;
    }
    let h = bids::read_header(file);
    h.version == 2
}

// From the version that the file says it has to the other one.
pub fn turn(file: &[u8], out: &mut [u8]) -> Result<usize, Refusal>
    ensures { ConvertPost (own_layout file.now) (other_layout file.now) file.now (reply_of result) out.old out.new }
{
    if says_2(file) {
        return down(file, out);
    }
    up(file, out)
}
