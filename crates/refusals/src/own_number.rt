// The number of a refusal that has no name. It stands in a file of its own, since whatever this file imports, the type does.
ghost use Rattle.std.specs.Prelude.{◌<◌};

// A number that the table of refusals lacks, and that is not 0, which stands for no refusal. So no refusal has two forms.
#[derive(Clone, Copy, Debug, PartialEq, Eq)]
pub struct OwnNumber {
    pub number: u32,
    ghost behind: { 8 < number },
}
