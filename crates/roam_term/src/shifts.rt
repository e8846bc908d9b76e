//! Graphic sets.
ghost use Rattle.std.specs.Prelude.{◌≡◌};
ghost use Rattle.roam_term.specs.Shifts.{shifted_by};

use roam_charset::Sets;
use roam_controls::Shift;

/// Designates a set, or invokes one.
pub fn shift_by(sets: &mut Sets, shift: Shift)
    ensures shifted { sets.new ≡ shifted_by shift sets.old }
{
    match shift {
        Shift::Locking(element) => sets.shift(element),
        Shift::Single(element) => sets.single_shift(element),
        Shift::Designation(element, set) => sets.designate(element, set),
    }
}
