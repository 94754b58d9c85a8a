// Specification, "Answer numbers": the record of a reading, with the values by unit, the mask of the units read and how many
// they are, and by unit where its part began and ended. proofs/record/Units has the laws by which a reader fills it.
ghost use Rattle.std.specs.Prelude.{◌≡◌};
ghost use Rattle.meaning.specs.Promises.{TellsRead};
ghost use Rattle.meaning.specs.Whole.{unit_number};

use meaning::ParseUnit;

// The place of a unit among the values and its bit in the mask: "units in the order of ParseUnit". The way back is `ParseUnit::try_from`.
pub fn unit_number(unit: ParseUnit) -> usize
    ensures { result ≡ unit_number unit }
{
    unit as usize
}

// Whether a unit was read, by the mask of a reading.
pub fn was_read(mask: u16, unit: ParseUnit) -> bool
    ensures { TellsRead mask unit result }
{
    let k = unit_number(unit);
    (mask >> k) & 1 == 1
}
