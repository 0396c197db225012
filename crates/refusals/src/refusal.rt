// Why a call is refused: each case but the last is a row of the table of refusals, and has its number there.
ghost use Rattle.std.specs.Prelude.{◌≡◌};
ghost use Rattle.refusals.specs.Refusals.{◌when◌};
ghost use Rattle.refusals.specs.Answered.{number_of, number_in};

use crate::own_number::OwnNumber;

// What a test finds wrong with what a call is given.
#[derive(Clone, Copy, Debug, PartialEq, Eq)]
pub enum Refusal {
    // More than 65,536 nodes.
    TooManyNodes,
    // More than 1,048,576 links, or more than 65,536 sources or targets.
    TooManyLinks,
    // A list has another length than stated.
    WrongLength,
    // Starts don't begin at 0, fall somewhere or don't end at the number of links, or a column is not below the node count.
    UnsoundRows,
    // A weight, of a dropped link too, is a NaN, infinite, below zero or above 1,048,576.
    UnsoundWeight,
    // Alpha is not in 0 to 1, or another of the settings is out of its range.
    UnsoundSettings,
    // A precision is not finite or below zero.
    UnsoundPrecision,
    // The bytes of a job have another shape.
    UnsoundJob,
    // What a test that is not ours found, by a number that the table lacks: whoever hands its answer on to us gets it back.
    Other(OwnNumber),
}

impl From<Refusal> for u32 {
    ghost from_gives = { λ refusal number. number ≡ number_of refusal };

    #[tactic(auto, unfolding(crate::specs::Answered::number_of))]
    fn from(refusal: Refusal) -> u32 {
        match refusal {
            Refusal::TooManyNodes => 1,
            Refusal::TooManyLinks => 2,
            Refusal::WrongLength => 3,
            Refusal::UnsoundRows => 4,
            Refusal::UnsoundWeight => 5,
            Refusal::UnsoundSettings => 6,
            Refusal::UnsoundPrecision => 7,
            Refusal::UnsoundJob => 8,
            Refusal::Other(own) => own.number,
        }
    }
}

// Refused where a fact holds.
pub fn refuse_if(fact: bool, refusal: Refusal) -> Result<(), Refusal>
    ensures { number_in result ≡ (number_of refusal when fact) }
{
    if fact { Err(refusal) } else { Ok(()) }
}

// What a test says by a number, of which 0 is that it passes.
#[tactic(auto, unfolding(crate::specs::Answered::number_of))]
pub fn numbered(number: u32) -> Result<(), Refusal>
    ensures { number_in result ≡ number }
{
    match number {
        0 => Ok(()),
        1 => Err(Refusal::TooManyNodes),
        2 => Err(Refusal::TooManyLinks),
        3 => Err(Refusal::WrongLength),
        4 => Err(Refusal::UnsoundRows),
        5 => Err(Refusal::UnsoundWeight),
        6 => Err(Refusal::UnsoundSettings),
        7 => Err(Refusal::UnsoundPrecision),
        8 => Err(Refusal::UnsoundJob),
        _ => Err(Refusal::Other(OwnNumber { number })),
    }
}
