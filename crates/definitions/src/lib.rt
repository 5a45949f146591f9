// The answers of the calls, and the limits. What each case stands for is said in specs/.
#![tactic(auto)]

ghost use Rattle.std.specs.Prelude.{◌≡◌, ◌==◌, Some};
ghost use Rattle.definitions.specs.Direct.{status_number, fault_place, goes_on, told_of};
ghost use Rattle.definitions.specs.Refusals.{number_of, refusal_shown, numbered};

use std::fmt;

// The most bytes that a rule has, and a plan.
pub const LONGEST: usize = 4064;

pub const LONGEST_PLAN: usize = 4642;

// The most blocks and the most variables of a rule.
pub const BLOCKS: usize = 64;

pub const VARIABLES: usize = 16;

// The most rows of a batch, the most labels and the most rounds of a row.
pub const ROWS: usize = 256;

pub const QUOTA: usize = 16;

pub const BUDGET: usize = 65535;

// How deep expressions and conditions go together, and endings.
pub const DEPTH: u8 = 8;

pub const LEVELS: u8 = 4;

// What a rule's operators, comparisons and joints do, each with its tag.
#[derive(Clone, Copy, Debug, PartialEq, Eq)]
pub enum Operator {
    Add = 0x04,
    Subtract = 0x05,
    Multiply = 0x06,
    Divide = 0x07,
    Remainder = 0x08,
}

#[derive(Clone, Copy, Debug, PartialEq, Eq)]
pub enum Relation {
    Less = 0x10,
    Equal = 0x11,
}

#[derive(Clone, Copy, Debug, PartialEq, Eq)]
pub enum Joint {
    And = 0x13,
    Or = 0x14,
}

// Why an operator has no value, as the status of a row that ends so.
#[derive(Clone, Copy, Debug, PartialEq, Eq)]
pub enum Kind {
    ZeroDivisor = 2,
    OutOfRange = 3,
}

// A fault, handed up whole: why, and the offset of its operator's tag in the rule.
#[derive(Clone, Copy, Debug, PartialEq, Eq)]
pub struct Flaw {
    pub kind: Kind,
    pub place: u16,
}

// How a row ended, or that it has not.
#[derive(Clone, Copy, Debug, PartialEq, Eq)]
pub enum Finish {
    Unfinished,
    Stopped,
    Faulted(Flaw),
    QuotaFull,
}

impl Finish {
    // The status that a record tells; a fault's is the number of its kind.
    pub fn status(self) -> u8
        ensures { result ≡ status_number self }
    {
        match self {
            Finish::Unfinished => 0,
            Finish::Stopped => 1,
            Finish::Faulted(f) => f.kind as u8,
            Finish::QuotaFull => 4,
        }
    }

    // Where the fault lies, 0 if there is none.
    pub fn place(self) -> u16
        ensures { result ≡ fault_place self }
    {
        match self {
            Finish::Faulted(f) => f.place,
            _ => 0,
        }
    }

    // Whether a row that ends so goes on.
    pub fn goes_on(self) -> bool
        ensures { result ≡ goes_on self }
    {
        match self {
            Finish::Unfinished => true,
            _ => false,
        }
    }

    // What a record tells of it.
    pub fn told(self) -> Told
        ensures { result ≡ told_of self }
    {
        Told {
            status: self.status(),
            place: self.place(),
        }
    }
}

// A row's end as a record tells it: any status and any place, also such as no row ends with.
#[derive(Clone, Copy, Debug, PartialEq, Eq)]
pub struct Told {
    pub status: u8,
    pub place: u16,
}

// Whether a row of which this is told goes on.
pub fn goes_on(told: Told) -> bool
    ensures { result ≡ (told.status == 0) }
{
    told.status == 0
}

// Why bad input is refused. Each reason has the number that document 01 gives it.
#[derive(Clone, Copy, Debug, PartialEq, Eq)]
pub enum Reason {
    FileSize = 1,
    PageCheck = 2,
    PageForm = 3,
    BadHeader = 4,
    BadTag = 5,
    BadVariable = 6,
    BadTarget = 7,
    TooDeep = 8,
    EndsEarly = 9,
    BytesAfter = 10,
    TooLong = 11,
    NoRoom = 12,
    Misfit = 13,
    OverLimit = 14,
    NotPlan = 15,
    GotoCycle = 16,
}

impl Reason {
    // The number that a caller is told.
    pub fn number(self) -> u8
        ensures { result ≡ number_of self }
    {
        self as u8
    }

    // A refusal for this reason.
    pub fn at(self, place: usize) -> Refusal
        ensures { result ≡ record { reason = self; place = place } }
    {
        Refusal {
            reason: self,
            place,
        }
    }
}

// Why and where bad input is refused.
#[derive(Clone, Copy, Debug, PartialEq, Eq)]
pub struct Refusal {
    pub reason: Reason,
    pub place: usize,
}

// A refusal by any number, also by none of the table's.
#[derive(Clone, Copy, Debug, PartialEq, Eq)]
pub struct ByNumber {
    pub number: u8,
    pub place: usize,
}

pub fn refuse<T>(number: u8, place: usize) -> Result<T, ByNumber>
    ensures { result ≡ numbered number place }
{
    Err(ByNumber { number, place })
}

impl fmt::Display for Refusal {
    ghost output = { λ f. Some (refusal_shown f) };

    fn fmt<W: fmt::Write>(&self, f: &mut fmt::Formatter<W>) -> fmt::Result {
        write!(f, "refused {} {}", self.reason.number(), self.place)
    }
}

// Where a row's part lies: from a word of the result buffer on, or from one of the working buffer on.
#[derive(Clone, Copy, Debug, PartialEq, Eq)]
pub enum Place {
    InResult(usize),
    InWork(usize),
}
