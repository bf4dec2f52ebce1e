// The public calls' arguments and answers. What a call promises is in specs/: `Refusals` (when it is refused), `Calls` (the calls that make an answer),
// `Postconditions` (one record for each call). The demand
// on a list of calls is in the crate `history`.
#![tactic(auto)]

ghost use Rattle.std.specs.Prelude.{◌≡◌};
ghost use Rattle.statement.specs.Replies.{number_of};

use itemset::Items;
use std::error::Error;
use std::fmt;

// A call that makes an answer, with its own arguments. Cover has the item set and the step limit [document 01: D, B]; a and b are answers, p is a package.
#[derive(Clone, Copy)]
pub enum Call {
    Cover { d: Items, limit: u32 },
    Either { a: u32, b: u32 },
    Both { a: u32, b: u32 },
    Only { a: u32, b: u32 },
    With { a: u32, p: u32 },
    Without { a: u32, p: u32 },
    Join { a: u32, b: u32 },
}

// Why a call is refused, each with its number (docs/REFUSALS.md says what to do). 20 to 27 and 31 to 33 are said of bids files alone.
#[derive(Clone, Copy, Debug, PartialEq, Eq)]
pub enum Refusal {
    Oversize = 1,
    Stray = 2,
    CostList = 3,
    Spoilt = 4,
    UnknownAnswer = 5,
    UnknownPackage = 6,
    UnknownItem = 7,
    ShortWork = 8,
    Spent = 9,
    Full = 10,
    Uncountable = 11,
    PastTheEnd = 12,
    Nothing = 13,
    Absent = 14,
    ShortPage = 15,
    Cut = 20,
    Mark = 21,
    Version = 22,
    Check = 23,
    Size = 24,
    SchoolTwice = 25,
    StrayPackage = 26,
    PackageTwice = 27,
    StrayOptional = 29,
    AllOptional = 30,
    StraySlot = 31,
    WideSite = 32,
    OptionalSlots = 33,
    Disordered = 34,
    Overlap = 35,
    NotRising = 36,
}

impl Refusal {
    // Its number, which is what is printed, and what C is told.
    pub fn number(self) -> u8
        ensures { result ≡ number_of self }
    {
        self as u8
    }
}

impl fmt::Display for Refusal {
    fn fmt<W: fmt::Write>(&self, f: &mut fmt::Formatter<W>) -> fmt::Result {
        write!(f, "refused {}", self.number())
    }
}

impl Error for Refusal {}

// What a call that makes an answer returns [document 01: report]: the answer's number or the refusal, its entries into Search, and the nodes that it made.
#[derive(Clone, Copy)]
pub struct Report {
    pub outcome: Result<u32, Refusal>,
    pub steps: u32,
    pub made: u32,
}

// What cheapest returns: how many packages it wrote, and their cost.
#[derive(Clone, Copy)]
pub struct Priced {
    pub packages: usize,
    pub cost: u32,
}

// What closest returns: how many packages it wrote, and in how many packages they and the given timetable differ.
#[derive(Clone, Copy)]
pub struct Compared {
    pub packages: usize,
    pub difference: u32,
}
