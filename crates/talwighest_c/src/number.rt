// The number by which C knows a refusal.
ghost use Rattle.std.specs.Prelude.{◌≡◌};
ghost use Rattle.refusals.specs.Answered.{number_in};

use refusals::refusal::Refusal;

// The number of a call that answers nothing else: 0 if it is done.
pub fn number_for(answer: Result<(), Refusal>) -> u32
    ensures { result ≡ number_in answer }
{
    match answer {
        Ok(()) => 0,
        Err(refusal) => refusal.into(),
    }
}
