//! Laws of the definitions, each the contract of a function without a body.
ghost use Rattle.std.specs.Prelude.{◌≡◌, ℕ, ◌-◌};
ghost use Rattle.roam_rows.specs.Turned.{in_order};
ghost use Rattle.roam_rows.specs.Rows.{Rows, AreRows, KeepPlaces, buffer_of};
ghost use Rattle.roam_rows.specs.Scrolling.{all_up, all_down};

/// The rows are the buffer's, from the first on and round to it.
pub fn rows_of_the_buffer()
    ensures order { (v : Rows) → AreRows v → in_order v.cols v.first (buffer_of v) ≡ v.cells }
{}

/// If all rows go up by n, those that stay keep their places in the buffer, and nothing of it changes but the rows that come in.
pub fn rows_stay_where_all_go_up()
    ensures kept { (n : ℕ) → (v : Rows) → AreRows v → KeepPlaces n v.rows v (all_up n v) }
{}

/// If all rows go down by n, those that stay keep their places in the buffer, and nothing of it changes but the rows that come in.
pub fn rows_stay_where_all_go_down()
    ensures kept { (n : ℕ) → (v : Rows) → AreRows v → KeepPlaces 0 (v.rows - n) v (all_down n v) }
{}
