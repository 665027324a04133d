// The choices of what a power failure keeps.
ghost use Rattle.halves.specs.Kept.{KeptNumber};

/// What a power failure keeps of each file.
#[derive(Clone, Copy, PartialEq, Eq, Debug)]
pub enum Kept {
    /// What was synced.
    Synced,
    /// What the file holds now.
    Current,
    /// Even places from the current content, odd ones from the synced, at the longer length.
    Mixed,
}

/// All choices, in the order of their numbers.
pub const CHOICES: [Kept; 3] = [Kept::Synced, Kept::Current, Kept::Mixed];

/// A number that no choice has.
#[derive(Clone, Copy, PartialEq, Eq, Debug)]
pub struct UnknownKept(pub u8);

/// The choice by its number.
impl TryFrom<u8> for Kept {
    type Error = UnknownKept;

    ghost try_from_gives = { KeptNumber };

    fn try_from(number: u8) -> Result<Kept, UnknownKept> {
        match number {
            0 => Ok(Kept::Synced),
            1 => Ok(Kept::Current),
            2 => Ok(Kept::Mixed),
            _ => Err(UnknownKept(number)),
        }
    }
}
