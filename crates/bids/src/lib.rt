// The reader of bids files of both versions. It stands above the engine and knows its contracts only. A cursor is a place in the file; its methods return
// what stands there and move past it. The tests for doubles compare each record with those before it: at most 64 schools and 512 packages.
// Users call `read` and `read2`; the other public functions are for the crate `conversion`, which reads files as these do.
#![tactic(auto)]

ghost use Rattle.std.specs.Prelude.{◌≡◌, ◌+◌, ◌*◌, ◌^◌, ◌<◌, ◌≤◌, length, take, IfOk};
ghost use Rattle.itemset.specs.Words.{spread};
ghost use Rattle.statement.specs.Refusals.{first_of};
ghost use Rattle.statement.specs.Replies.{refusal_of};
ghost use Rattle.statement.specs.Postconditions.{written};
ghost use Rattle.bids.specs.Bytes.{byte_at, number_at, fnv};
ghost use Rattle.bids.specs.Contents.{same_package, school_in, package_in, school_twice, package_twice, packages_of, costs_of};
ghost use Rattle.bids.specs.Contents as C;
ghost use Rattle.bids.specs.Format.{header_tests, record_tests, school_place, package_place, optional_slots, schools_in, packages_in, contents};
ghost use Rattle.bids.specs.Format as F;
ghost use Rattle.bids.specs.Contract.{Legible, FieldPost, SchoolPost, PackagePost, HeaderPost, Sized, Fillable, ReadPost, read_reply};

use itemset::Items;
use statement::Refusal;

// What the versions differ in: the version's number, the bytes before the first school's record, and the bytes of a site.
#[derive(Clone, Copy)]
pub struct Layout {
    pub version: u64,
    pub header: usize,
    pub site: usize,
}

// The reader's place in the file.
#[derive(Clone, Copy)]
pub struct Cursor {
    pub at: usize,
}

#[derive(Clone, Copy)]
pub struct Header {
    pub marked: bool,
    pub version: u64,
    pub schools: u64,
    pub slots: u64,
    pub packages: u64,
}

// A school is known by its site and its number together.
#[derive(Clone, Copy, PartialEq, Eq)]
pub struct School {
    pub site: u64,
    pub number: u64,
}

#[derive(Clone, Copy)]
pub struct Package {
    pub school: School,
    pub slots: u64,
    pub cost: u64,
}

// What the reader gives of an accepted file: S, T, N and the optional items.
#[derive(Clone, Copy)]
pub struct Bids {
    pub schools: u32,
    pub slots: u32,
    pub packages: usize,
    pub optional: Items,
}

// The layout of version 1, and that of version 2, which has a set of optional slots behind N and wider sites.
pub fn version1() -> Layout
    ensures { result ≡ F.version1 }
{
    Layout {
        version: 1,
        header: 9,
        site: 1,
    }
}

pub fn version2() -> Layout
    ensures { result ≡ F.version2 }
{
    Layout {
        version: 2,
        header: 17,
        site: 2,
    }
}

impl Cursor {
    fn byte(&mut self, file: &[u8]) -> u64
        requires { self.old.at < length file.now }
        ensures { FieldPost (byte_at file.now self.old.at) self.old.at 1 result self.new.at }
    {
        let byte = file[self.at];
        self.at += 1;
        byte as u64
    }

    // A number of `width` bytes, the lowest first.
    pub fn number(&mut self, file: &[u8], width: usize) -> u64
        requires width_in_bounds { self.old.at + width ≤ length file.now }
        requires width_bound { width ≤ 8 }
        ensures { FieldPost (number_at file.now self.old.at width) self.old.at width result self.new.at }
    {
        let mut value: u64 = 0;
        for i in (0..width).rev() {
            value = 256 * value + file[self.at + i] as u64;
        }
        self.at += width;
        value
    }

    // A site. Where the width is known in the code the compiler makes no loop of it: the tests for doubles read each site again and again.
    // (2 first: asked the other way round, C's reader of version 1 takes one and a half times as long, by where its loop comes to lie.)
    fn site(&mut self, file: &[u8], width: usize) -> u64
        requires width_in_bounds { self.old.at + width ≤ length file.now }
        requires le_width { (1 ≤ width) × (width ≤ 2) }
        ensures { FieldPost (number_at file.now self.old.at width) self.old.at width result self.new.at }
    {
        if width == 2 {
            return self.number(file, 2);
        }
        self.number(file, 1)
    }

    pub fn school_record(&mut self, file: &[u8], layout: Layout) -> School
        requires site_in_bounds { self.old.at + (layout.site + 1) ≤ length file.now }
        requires legible { Legible layout }
        ensures { SchoolPost layout file.now self.old.at result self.new.at }
    {
        let site = self.site(file, layout.site);
        let number = self.byte(file);
        School { site, number }
    }

    pub fn package_record(&mut self, file: &[u8], layout: Layout) -> Package
        requires site_in_bounds { self.old.at + (layout.site + 11) ≤ length file.now }
        requires legible { Legible layout }
        ensures { PackagePost layout file.now self.old.at result self.new.at }
    {
        let school = self.school_record(file, layout);
        let slots = self.number(file, 8);
        let cost = self.number(file, 2);
        Package {
            school,
            slots,
            cost,
        }
    }
}

// The check of the first n bytes.
pub fn check(file: &[u8], n: usize) -> u32
    requires { n ≤ length file.now }
    ensures { result ≡ fnv (take n file.now) }
{
    let mut h: u32 = 2166136261;
    for &byte in &file[..n] {
        h = (h ^ byte as u32).wrapping_mul(16777619);
    }
    h
}

pub fn read_header(file: &[u8]) -> Header
    requires { 13 ≤ length file.now }
    ensures { HeaderPost file.now result }
{
    let marked = file.starts_with(b"PSB");
    let mut cursor = Cursor { at: 3 };
    let version = cursor.number(file, 2);
    let schools = cursor.byte(file);
    let slots = cursor.byte(file);
    let packages = cursor.number(file, 2);
    Header {
        marked,
        version,
        schools,
        slots,
        packages,
    }
}

// The set of optional slots, which stands between N and the first school: none where no byte does.
pub fn optional_slots(file: &[u8], layout: Layout) -> u64
    requires header_in_bounds { layout.header ≤ length file.now }
    requires legible { Legible layout }
    ensures { result ≡ optional_slots layout file.now }
{
    let mut after_packages = Cursor { at: 9 };
    after_packages.number(file, layout.header - 9)
}

// The slots first: they are one word, whatever the width of a site. The costs are not compared.
fn same_package(a: Package, b: Package) -> bool
    ensures { result ≡ same_package a b }
{
    a.slots == b.slots && a.school == b.school
}

// Which of the first n schools it is, n where none of them is.
fn school_index(file: &[u8], layout: Layout, n: usize, wanted: School) -> usize
    requires n_in_bounds { (school_place layout n ≤ length file.now) × (n ≤ F.schools file.now) }
    requires legible { Legible layout }
    ensures { result ≡ school_in (schools_in layout file.now) n wanted }
{
    let mut cursor = Cursor { at: layout.header };
    for j in 0..n {
        let school = cursor.school_record(file, layout);
        if school == wanted {
            return j;
        }
    }
    n
}

// Where the record of the first package starts, behind s schools.
pub fn first_package(layout: Layout, s: usize) -> Cursor
    requires { (s ≤ 64) × Legible layout }
    ensures { result.at ≡ package_place layout s 0 }
{
    Cursor {
        at: layout.header + (layout.site + 1) * s,
    }
}

// Which of the first n packages it is, n where none of them is. The file has s schools.
fn package_index(file: &[u8], layout: Layout, s: usize, n: usize, wanted: Package) -> usize
    requires n_in_bounds { (package_place layout s n ≤ length file.now) × (n ≤ F.packages file.now) }
    requires s_value { (s ≡ F.schools file.now) × ((s ≤ 64) × Legible layout) }
    ensures { result ≡ package_in (packages_in layout file.now) n wanted }
{
    let mut cursor = first_package(layout, s);
    for k in 0..n {
        let bid = cursor.package_record(file, layout);
        if same_package(bid, wanted) {
            return k;
        }
    }
    n
}

// Whether one of the s schools is among those before it.
fn school_twice(file: &[u8], layout: Layout, s: usize) -> bool
    requires s_in_bounds { school_place layout s ≤ length file.now }
    requires s_value { (s ≡ F.schools file.now) × Legible layout }
    ensures { result ≡ school_twice (schools_in layout file.now) }
{
    let mut cursor = Cursor { at: layout.header };
    for j in 0..s {
        let school = cursor.school_record(file, layout);
        let before = school_index(file, layout, j, school);
        if before < j {
            return true;
        }
    }
    false
}

// Whether one of the n packages has a school that is not listed, or a slot of t or above.
fn stray(file: &[u8], layout: Layout, s: usize, t: u32, n: usize) -> bool
    requires { Sized layout file.now s t n }
    ensures { result ≡ C.stray (contents layout file.now) }
{
    let mut cursor = first_package(layout, s);
    for _ in 0..n {
        let bid = cursor.package_record(file, layout);
        let j = school_index(file, layout, s, bid.school);
        if j >= s {
            return true;
        }
        if !itemset::below_word(bid.slots, t) {
            return true;
        }
    }
    false
}

// Whether one of the n packages is among those before it.
fn package_twice(file: &[u8], layout: Layout, s: usize, n: usize) -> bool
    requires n_in_bounds { package_place layout s n ≤ length file.now }
    requires s_value { (s ≡ F.schools file.now) × (n ≡ F.packages file.now) }
    requires s_bound { (s ≤ 64) × Legible layout }
    ensures { result ≡ package_twice (packages_in layout file.now) }
{
    let mut cursor = first_package(layout, s);
    for k in 0..n {
        let bid = cursor.package_record(file, layout);
        let before = package_index(file, layout, s, k, bid);
        if before < k {
            return true;
        }
    }
    false
}

// The length of a file of s schools and n packages.
pub fn file_length(layout: Layout, s: u64, n: u64) -> u64
    requires { ((s < 256) × (n < 65536)) × Legible layout }
    ensures { result ≡ F.file_length layout s n }
{
    let header = layout.header as u64;
    let site = layout.site as u64;
    header + (site + 1) * s + (site + 11) * n + 4
}

// The first refusal of a header, if it has one.
fn admit_header(file: &[u8], layout: Layout, h: Header) -> Result<(), Refusal>
    requires { HeaderPost file.now h × Legible layout }
    ensures { refusal_of result ≡ first_of (header_tests layout file.now) }
{
    if !h.marked {
        return Err(Refusal::Mark);
    }
    if h.version != layout.version {
        return Err(Refusal::Version);
    }
    if h.schools + h.slots > 64 {
        return Err(Refusal::Size);
    }
    if h.packages > 512 {
        return Err(Refusal::Size);
    }
    if file.len() as u64 != file_length(layout, h.schools, h.packages) {
        return Err(Refusal::Cut);
    }
    Ok(())
}

// The first refusal of the check and the records of s schools and n packages with t slots, if they have one.
fn admit_records(file: &[u8], layout: Layout, s: usize, t: u32, n: usize) -> Result<(), Refusal>
    requires { Sized layout file.now s t n }
    ensures { refusal_of result ≡ first_of (record_tests layout file.now) }
{
    let end = file.len() - 4;
    let mut tail = Cursor { at: end };
    let stored = tail.number(file, 4);
    if check(file, end) as u64 != stored {
        return Err(Refusal::Check);
    }
    if !itemset::below_word(optional_slots(file, layout), t) {
        return Err(Refusal::StraySlot);
    }
    if school_twice(file, layout, s) {
        return Err(Refusal::SchoolTwice);
    }
    if stray(file, layout, s, t, n) {
        return Err(Refusal::StrayPackage);
    }
    if package_twice(file, layout, s, n) {
        return Err(Refusal::PackageTwice);
    }
    Ok(())
}

// The header of the file, where it is accepted as one of this version.
pub fn admit(file: &[u8], layout: Layout) -> Result<Header, Refusal>
    requires { Legible layout }
    ensures refusal { refusal_of result ≡ F.refusal layout file.now }
    ensures header { IfOk result (λ h. HeaderPost file.now h) }
{
    if file.len() < 13 {
        return Err(Refusal::Cut);
    }
    let h = read_header(file);
    admit_header(file, layout, h)?;
    admit_records(
        file,
        layout,
        h.schools as usize,
        h.slots as u32,
        h.packages as usize,
    )?;
    Ok(h)
}

// A set of slots, above s schools: one word, since S + T is at most 64. With 64 schools there are no slots, and no shift by 64.
fn shifted(slots: u64, s: usize) -> u64
    requires s_bound { s ≤ 64 }
    requires s_bound_2 { slots * 2 ^ s < 2 ^ 64 }
    ensures { result ≡ slots * 2 ^ s }
{
    if slots == 0 {
        return 0;
    }
    slots << s
}

// The items of a package of school j among s, with its slots above them.
fn items_of(j: usize, slots: u64, s: usize) -> u64
    requires j_lt_s { (j < s) × (s ≤ 64) }
    requires s_bound { 2 ^ j + slots * 2 ^ s < 2 ^ 64 }
    ensures { result ≡ 2 ^ j + slots * 2 ^ s }
{
    (1u64 << j) + shifted(slots, s)
}

// Writes the n packages' items, three words a package, and their costs to the start of the buffers.
fn fill(
    file: &[u8],
    layout: Layout,
    s: usize,
    t: u32,
    n: usize,
    packages: &mut [u64],
    costs: &mut [u16],
)
    requires fillable { Fillable layout file.now s t n }
    requires n_in_bounds { (3 * n ≤ length packages.old) × (n ≤ length costs.old) }
    ensures packages_after { packages.new ≡ written 0 (spread 3 (packages_of (contents layout file.now))) packages.old }
    ensures costs_after { costs.new ≡ written 0 (costs_of (contents layout file.now)) costs.old }
{
    let mut cursor = first_package(layout, s);
    for k in 0..n {
        let bid = cursor.package_record(file, layout);
        let j = school_index(file, layout, s, bid.school);
        itemset::write(
            packages,
            3 * k,
            Items {
                w0: items_of(j, bid.slots, s),
                w1: 0,
                w2: 0,
            },
        );
        costs[k] = bid.cost as u16;
    }
}

// Reads a file of the version whose layout this is.
fn read_as(
    layout: Layout,
    file: &[u8],
    packages: &mut [u64],
    costs: &mut [u16],
) -> Result<Bids, Refusal>
    requires { Legible layout }
    ensures { ReadPost layout file.now (read_reply result) packages.old packages.new costs.old costs.new }
{
    let h = admit(file, layout)?;
    let s = h.schools as usize;
    let t = h.slots as u32;
    let n = h.packages as usize;
    if packages.len() < 3 * n {
        return Err(Refusal::ShortPage);
    }
    if costs.len() < n {
        return Err(Refusal::ShortPage);
    }
    fill(file, layout, s, t, n, packages, costs);
    let slots = optional_slots(file, layout);
    Ok(Bids {
        schools: h.schools as u32,
        slots: t,
        packages: n,
        optional: Items {
            w0: shifted(slots, s),
            w1: 0,
            w2: 0,
        },
    })
}

// Reads a file of version 1, which has no optional items. Of an accepted one the packages' item sets, three words a package, and costs stand at the start of
// the buffers. A refusal changes nothing; a buffer without room for N is refused as a short page is, after all that the file itself is refused for.
pub fn read(file: &[u8], packages: &mut [u64], costs: &mut [u16]) -> Result<Bids, Refusal>
    ensures { ReadPost F.version1 file.now (read_reply result) packages.old packages.new costs.old costs.new }
{
    read_as(version1(), file, packages, costs)
}

// The same of a file of version 2.
pub fn read2(file: &[u8], packages: &mut [u64], costs: &mut [u16]) -> Result<Bids, Refusal>
    ensures { ReadPost F.version2 file.now (read_reply result) packages.old packages.new costs.old costs.new }
{
    read_as(version2(), file, packages, costs)
}
