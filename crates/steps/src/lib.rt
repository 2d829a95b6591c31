// What the calls are made of: opened sheets, the tests of all sheets together, tables in working arrays, and how a result is written or printed. A step asks
// of its caller what the judges and the steps before it promise.
#![tactic(auto)]

pub mod open;
pub mod printing;
pub mod pushing;
pub mod results;
pub mod tests;

ghost use Rattle.std.specs.Prelude.{◌≡◌};
ghost use Rattle.meaning.specs.Calls.{ensure};
ghost use Rattle.schema.specs.Faults.{number_of};
ghost use Rattle.steps.specs.Answers.{verdict_of};

use schema::faults::Fault;

// Why a call refuses: a fault's number from 1 to 19, and the place of the sheet that it is about, counted from 1, or 0 for all sheets together and for a change
// itself.
// Kept: a number, since a refusal is what a caller is told, and `Demand3` of `migration` speaks of answers with any number.
#[derive(Clone, Copy, Debug, PartialEq, Eq)]
pub struct Refusal {
    pub number: u8,
    pub place: u8,
}

impl Refusal {
    // The refusal of the sheet at a place.
    pub fn at(fault: Fault, place: u8) -> Refusal
        ensures { result ≡ record { number = number_of fault; place = place } }
    {
        Refusal {
            number: fault.number(),
            place,
        }
    }

    // A refusal of all sheets together, or of a change itself.
    pub fn of_all(fault: Fault) -> Refusal
        ensures { result ≡ record { number = number_of fault; place = 0 } }
    {
        Refusal::at(fault, 0)
    }
}

// The answer of a check.
pub type Verdict = Result<(), Refusal>;

// The answer of a call that writes its result into a lent tray: the result's byte length.
pub type Written = Result<usize, Refusal>;

// Refuses with a fault, at place 0, where a test of all sheets together fails.
pub fn ensure(test: bool, fault: Fault) -> Verdict
    ensures { verdict_of result ≡ ensure test (number_of fault) }
{
    if test {
        Ok(())
    } else {
        Err(Refusal::of_all(fault))
    }
}
