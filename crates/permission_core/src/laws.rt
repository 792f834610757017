//! What the numbers of objects say.
ghost use Rattle.std.specs.Prelude.{◌≡◌, ◌≤◌, ℕ};
ghost use Rattle.permission_core.specs.Objects.{HaveNumbersOfTheirOwn};

use limits::MOST_VEHICLES;

/// A law, for callers' proofs: two objects of an instance, which has at most 1,000 vehicles, that have one number are the same object.
/// So a set of numbers is a set of objects.
pub fn objects_have_numbers_of_their_own()
    ensures { (customers vehicles : ℕ) → vehicles ≤ MOST_VEHICLES → HaveNumbersOfTheirOwn customers vehicles }
{}
