// The records that calls return.
#![tactic(auto)]

ghost use Rattle.std.specs.Prelude.{◌≡◌, ◌-◌};
ghost use Rattle.terms.specs.Calls.{refusal, completed, rule_number, rule_row};
ghost use Rattle.records.specs.Refusals.{refusal_number, refusal_row, refusal_record};
ghost use Rattle.records.specs.declared.Refusal.TheVariants.{Table};

use terms::{Fault, Record};

// Why a call on a table stops: one of the numbers of "Where a call stops", or the fault of a table.
#[derive(Clone, Copy, PartialEq, Eq)]
pub enum Refusal {
    // 10: a buffer or the work area has too little room
    Room,
    // 11 to 17, and 40
    Table(Fault),
    // 30: the row is absent or an equation
    NoTerm,
    // 31: no pattern of the table
    Pattern,
    // 32: the output has too little room
    Output,
    // 33: no answer has this form
    Form,
    // 34: not the answer's fresh bits
    FreshBits,
    // 41: a variable of the table has not 16 bits, or there is none
    NotWords,
    // 42: the run of words is too long
    LongRun,
    // 43: an equation has a line number
    Lined,
    // 44: the area holds no job
    NoJob,
    // 45: the job has ended
    Ended,
    // 46: the answer of another table
    OtherAnswer,
    // 47: no two recordings of the table's words
    Recordings,
    // 48: the counters of a recording do not rise
    Counters,
    // 49: the second table has other variables
    Variables,
}

impl From<Fault> for Refusal {
    ghost from_gives = { λ fault refusal. refusal ≡ Table fault };

    fn from(fault: Fault) -> Refusal {
        Refusal::Table(fault)
    }
}

impl Refusal {
    // The refusal's number in the documents.
    fn number(self) -> u32
        ensures { result ≡ refusal_number self }
    {
        match self {
            Refusal::Room => 10,
            Refusal::Table(fault) => rule_number(fault),
            Refusal::NoTerm => 30,
            Refusal::Pattern => 31,
            Refusal::Output => 32,
            Refusal::Form => 33,
            Refusal::FreshBits => 34,
            Refusal::NotWords => 41,
            Refusal::LongRun => 42,
            Refusal::Lined => 43,
            Refusal::NoJob => 44,
            Refusal::Ended => 45,
            Refusal::OtherAnswer => 46,
            Refusal::Recordings => 47,
            Refusal::Counters => 48,
            Refusal::Variables => 49,
        }
    }

    // The row that a table's fault tells; 0 in any other refusal.
    fn row(self) -> u32
        ensures { result ≡ refusal_row self }
    {
        match self {
            Refusal::Table(fault) => rule_row(fault),
            _ => 0,
        }
    }

    // The record of a call that stops so.
    pub fn record(self) -> Record
        ensures { result ≡ refusal_record self }
    {
        refuse(self.number(), self.row())
    }
}

// A refusal: its number and its row.
pub fn refuse(number: u32, row: u32) -> Record
    ensures { result ≡ refusal number row }
{
    Record {
        outcome: number,
        pieces: 0,
        fresh: 0,
        free: 0,
        ties: 0,
        row,
    }
}

// An accepted call that counts pieces and a width.
pub fn complete(pieces: u32, width: u32) -> Record
    ensures { result ≡ completed pieces width }
{
    Record {
        outcome: 0,
        pieces,
        fresh: 0,
        free: width,
        ties: 0,
        row: 0,
    }
}

// The number of the rule that a fault tells (documents 01 and 02), and the row that breaks it.
fn rule_number(fault: Fault) -> u32
    ensures { result ≡ rule_number fault }
{
    match fault {
        Fault::Shape => 11,
        Fault::Kind(_) => 12,
        Fault::Unused(_) => 13,
        Fault::Named(_) => 14,
        Fault::Width(_) => 15,
        Fault::Value(_) => 40,
        Fault::Bounds(_) => 16,
        Fault::Count(_) => 17,
    }
}

fn rule_row(fault: Fault) -> u32
    ensures { result ≡ rule_row fault }
{
    match fault {
        Fault::Shape => 512,
        Fault::Kind(r)
        | Fault::Unused(r)
        | Fault::Named(r)
        | Fault::Width(r)
        | Fault::Value(r)
        | Fault::Bounds(r)
        | Fault::Count(r) => r.into(),
    }
}
