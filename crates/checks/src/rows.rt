// The row of an event's class, looked up: the rows are filed once by what goes on the air of their identifiers, where no two rows of an
// accepted table are one.
ghost use Rattle.std.specs.Prelude.{◌≡◌, ◌≤◌, ◌<◌, length, IfSome};
ghost use Rattle.input.specs.Limits.{most_rows};
ghost use Rattle.laws.specs.Sound.{ApartOnAir};
ghost use Rattle.tables.specs.Stated.{Finds};
ghost use Rattle.checks.specs.Filed.{AllFiled};

use input::{ON_AIR_IDENTIFIERS, OnAirRows, on_air};

// All rows, each filed by its identifier.
pub fn filed(identifiers: &[u32]) -> OnAirRows
    requires { (0 < length identifiers.now) × (length identifiers.now ≤ most_rows) }
    ensures { AllFiled identifiers.now result }
{
    let mut rows = [0u8; ON_AIR_IDENTIFIERS];
    for r in 0..identifiers.len() {
        rows[on_air(identifiers[r])] = r as u8;
    }
    rows
}

// The row of the class with this identifier. What is filed where the class would be may be another
// row, or row 0 for want of any, so its identifier is looked at.
pub fn row_of(identifiers: &[u32], rows: &OnAirRows, class: u32) -> Option<usize>
    requires { AllFiled identifiers.now rows.now }
    ensures { (ApartOnAir identifiers.now → Finds identifiers.now class result) × IfSome result (λ r. r < length identifiers.now) }
{
    let row = rows[on_air(class)] as usize;
    if identifiers[row] == class {
        return Some(row);
    }
    None
}
