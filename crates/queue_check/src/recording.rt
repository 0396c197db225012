// The records of a recording: what each says was done to the queue, and what came of it.
ghost use Rattle.std.specs.Prelude.{◌+◌, ◌≤◌};

// What was done. A pop that gave nobody has a number of its own.
#[derive(Clone, Copy)]
pub enum Action {
    Start,
    Offer,
    OfferUpTo,
    Pop,
    PopNobody,
    Adapt,
}

impl TryFrom<u16> for Action {
    type Error = u16;

    fn try_from(number: u16) -> Result<Action, u16> {
        match number {
            0 => Ok(Action::Start),
            1 => Ok(Action::Offer),
            2 => Ok(Action::OfferUpTo),
            3 => Ok(Action::Pop),
            4 => Ok(Action::PopNobody),
            5 => Ok(Action::Adapt),
            unknown => Err(unknown),
        }
    }
}

// A record. Its action is None if its number stands for none.
#[derive(Clone, Copy)]
pub struct Operation {
    pub action: Option<Action>,
    pub node: u16,
    pub size: u32,
    pub number: f64,
}

impl Operation {
    // The operation of a record: what is done (u16), a node (u16), the size afterwards (u32) and a number (f64),
    // little-endian. It promises nothing of its result, since no proof leans on a recording: a program compares what
    // is read with what the code gives, where a number read wrongly differs.
    pub fn read(record: &[u8; 16]) -> Operation {
        Operation {
            action: Action::try_from(u16::from_le_bytes(part(record, 0))).ok(),
            node: u16::from_le_bytes(part(record, 2)),
            size: u32::from_le_bytes(part(record, 4)),
            number: numbers::float_of(u64::from_le_bytes(part(record, 8))),
        }
    }
}

// The bytes of a record from a place on.
fn part<const N: usize>(record: &[u8; 16], at: usize) -> [u8; N]
    requires { at + N ≤ 16 }
{
    std::array::from_fn(|k| record[at + k])
}
