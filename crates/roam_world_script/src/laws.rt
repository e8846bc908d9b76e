//! The laws of the lines of a script.
ghost use Rattle.std.specs.Prelude.{◌≡◌, ℕ, List};
ghost use Rattle.roam_world_script.specs.Values.{LineValue, IsLine};
ghost use Rattle.roam_world_script.specs.Lines.{Says};

use roam_acts::laws::one_act_a_line;

/// A line says one thing.
pub fn one_value_a_line()
    ensures one { (line : List ℕ) (a b : LineValue) → IsLine a → IsLine b → Says line a → Says line b → a ≡ b }
{
    one_act_a_line();
}
