// What an edition of a day's file allows: bodies in a file, and rows in a body. An edition that there is not allows
// none.
#![tactic(auto)]

ghost use Rattle.std.specs.Prelude.{◌≡◌};
ghost use Rattle.rules.specs.Bundle.File.{bodies_most, rows_in};
ghost use Rattle.rules.specs.Bundle.Writer.{no_such_edition};
ghost use Rattle.editions.specs.Numbered.{Decodes, edition_number};

use refusals::Refusal;

/// The last edition there is; the first is 1.
pub const EDITIONS: u32 = Edition::Second as u32;

// The editions, by their numbers.
#[derive(Clone, Copy, Debug, PartialEq, Eq)]
enum Edition {
    First = 1,
    Second = 2,
}

impl TryFrom<u32> for Edition {
    type Error = Refusal;

    ghost try_from_gives = { Decodes };

    fn try_from(number: u32) -> Result<Self, Refusal> {
        match number {
            1 => Ok(Edition::First),
            2 => Ok(Edition::Second),
            _ => Err(Refusal::Edition),
        }
    }
}

#[tactic(auto, unfolding(rules::specs::Bundle::File::edition, rules::specs::Bundle::File::editions))]
impl Edition {
    // How many bodies a file may have.
    fn bodies(self) -> usize
        ensures { result ≡ bodies_most (edition_number self) }
    {
        match self {
            Edition::First => rules::FIRST_BODIES,
            Edition::Second => rules::SECOND_BODIES,
        }
    }

    // How many rows a body may have.
    fn rows(self) -> u32
        ensures { result ≡ rows_in (edition_number self) }
    {
        match self {
            Edition::First => rules::FIRST_ROWS as u32,
            Edition::Second => rules::MOST_ROWS as u32,
        }
    }
}

/// Whether there is no such edition.
pub fn is_unknown(edition: u32) -> bool
    ensures { result ≡ no_such_edition edition }
{
    Edition::try_from(edition).is_err()
}

/// How many bodies a file may have.
#[tactic(auto, using(crate::proofs::Editions::edition_other))]
pub fn bodies_in(edition: u32) -> usize
    ensures { result ≡ bodies_most edition }
{
    Edition::try_from(edition).map_or(0, |known| known.bodies())
}

/// How many rows a body may have.
#[tactic(auto, using(crate::proofs::Editions::edition_other))]
pub fn rows_in(edition: u32) -> u32
    ensures { result ≡ rows_in edition }
{
    Edition::try_from(edition).map_or(0, |known| known.rows())
}
