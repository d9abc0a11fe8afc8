// The numbers of documents 01 and 02 as types: what a class text is refused for, and what a call is refused for. A variant's value is
// its number.
#![tactic(auto)]

ghost use Rattle.std.specs.Prelude.{◌≡◌};
ghost use Rattle.refusals.specs.Numbers.{fault_number, refusal_number};

// What is wrong with a class text, by the line that it is found in.
#[derive(Clone, Copy, Debug, PartialEq, Eq)]
pub enum Fault {
    // The text is too long.
    TooLong = 11,
    // A line in no allowed form or place.
    Misplaced = 12,
    // A name repeated where it must be new.
    Repeated = 13,
    // An unknown class, field or method.
    Unknown = 14,
    // Two parents bring different fields of one name.
    FieldsDiffer = 15,
    // A prefix that is no proper ancestor.
    NoAncestor = 16,
    // More than the limits allow.
    TooMany = 17,
}

// Why a call is refused.
#[derive(Clone, Copy, Debug, PartialEq, Eq)]
pub enum Refusal {
    // A lent buffer or the lent state is too short.
    TooShort = 21,
    // The list of values has another length.
    OtherCount = 22,
    // No statement has this count.
    NoStatement = 23,
    // Text, values and state do not fit.
    Misfit = 24,
    // The slot is above 7.
    NoSlot = 31,
    // The slot is not open.
    NotOpen = 32,
    // A message runs.
    Running = 34,
    // No message runs.
    NotRunning = 35,
    // No such object, class or method.
    NothingThere = 36,
    // The slot's send waits.
    Waiting = 37,
    // The send would close a circle of waits.
    Circle = 42,
}

impl Fault {
    // The fault's number.
    pub fn number(self) -> u32
        ensures { result ≡ fault_number self }
    {
        self as u32
    }
}

impl Refusal {
    // The refusal's number.
    pub fn number(self) -> u32
        ensures { result ≡ refusal_number self }
    {
        self as u32
    }
}
