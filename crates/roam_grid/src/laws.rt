//! The meaning of marks for a screen, whatever calls were made, and the buffer after a scroll.
ghost use Rattle.std.specs.Prelude.{◌≡◌, ℕ, ◌+◌, ◌-◌, ◌<◌, Bool, true, false, List, length, min, if◌then◌else◌};
ghost use Rattle.roam_cells.specs.Glyph.{Glyph, is_right_half};
ghost use Rattle.roam_rows.specs.Editing.{insertion_source, deletion_source};
ghost use Rattle.roam_rows.specs.Erasing.{erasure_source, unguarded_blanked};
ghost use Rattle.roam_rows.specs.Places.{in_row};
ghost use Rattle.roam_rows.specs.Rows.{AreRows, KeepPlaces};
ghost use Rattle.roam_rows.specs.Scrolling.{up, down};
ghost use Rattle.roam_rows.specs.Writing.{writing_source};
ghost use Rattle.roam_cells.specs.Place.{glyph_at, row_of};
ghost use Rattle.roam_grid.specs.Cursor.{after_index, after_reverse_index};
ghost use Rattle.roam_grid.specs.Editing.{cells_inserted, cells_deleted, cells_erased, is_between_margins, lines_inserted, lines_deleted};
ghost use Rattle.roam_grid.specs.Erasing.{line_from, line_to, page_blanked, page_unguarded_blanked, erased_in_page, erased_in_line, erased_selectively_in_page, erased_selectively_in_line};
ghost use Rattle.roam_grid.specs.Laws.{AreNamedMarked, IsChanged, ShowsUnmarked, grid_up, grid_down};
ghost use Rattle.roam_grid.specs.Marks.{all_on, is_marked, row_marked, marks_scrolled, marks_indexed, marks_reverse_indexed, marks_cells_moved, marks_lines_moved, marks_in_line, marks_erased_in_page, marks_erased_selectively_in_line, marks_erased_selectively_in_page, marks_put, marks_put_all, marks_joined};
ghost use Rattle.roam_grid.specs.Screen.{Screen, GridView, IsScreen, rows_of, has_full_margins};
ghost use Rattle.roam_grid.specs.Scrolling.{scrolled_up, scrolled_down, first_scrolled_up, first_scrolled_down};
ghost use Rattle.roam_grid.specs.Writing.{columns, leaves_row, put_on, put_all, joined_on};
ghost use Rattle.roam_cells.specs.declared.extents.Extent.{Extent};
ghost use Rattle.roam_grid.specs.declared.writing.Writing.{Writing};
ghost use Rattle.roam_cells.specs.Limits.{most_rows};

/// A mark goes on only in a row that has a place which doesn't take itself, and every row that has one is marked: by the map of places of
/// each operation. A cell is written in the row in which `put` leaves the cursor, after the rows have gone up if one leaves. `all` is the
/// marks of alignment, a restart, a switch of screens and another size.
pub fn marks_go_on_in_named_rows()
    ensures scrolled_up { (n : ℕ) (s : Screen) (m : List Bool) → IsScreen s
        → AreNamedMarked s (up s.top s.bottom n) m (marks_scrolled n s m) }
    ensures scrolled_down { (n : ℕ) (s : Screen) (m : List Bool) → IsScreen s
        → AreNamedMarked s (down s.top s.bottom n) m (marks_scrolled n s m) }
    ensures cells_inserted { (n : ℕ) (s : Screen) (m : List Bool) → IsScreen s
        → AreNamedMarked s (in_row s.row (insertion_source s.col n)) m (marks_cells_moved n s m) }
    ensures cells_deleted { (n : ℕ) (s : Screen) (m : List Bool) → IsScreen s
        → AreNamedMarked s (in_row s.row (deletion_source s.cols s.col n)) m (marks_cells_moved n s m) }
    ensures cells_erased { (n : ℕ) (s : Screen) (m : List Bool) → IsScreen s → 0 < n
        → AreNamedMarked s (in_row s.row (erasure_source s.col (min (s.col + n) s.cols))) m (marks_in_line s m) }
    ensures lines_inserted { (n : ℕ) (s : Screen) (m : List Bool) → IsScreen s → is_between_margins s ≡ true
        → AreNamedMarked s (down s.row s.bottom n) m (marks_lines_moved n s m) }
    ensures lines_deleted { (n : ℕ) (s : Screen) (m : List Bool) → IsScreen s → is_between_margins s ≡ true
        → AreNamedMarked s (up s.row s.bottom n) m (marks_lines_moved n s m) }
    ensures erased_in_page { (e : Extent) (s : Screen) (m : List Bool) → IsScreen s
        → AreNamedMarked s (page_blanked e s.row s.col) m (marks_erased_in_page e s m) }
    ensures erased_in_line { (e : Extent) (s : Screen) (m : List Bool) → IsScreen s
        → AreNamedMarked s (in_row s.row (erasure_source (line_from e s.col) (line_to e s.cols s.col))) m (marks_in_line s m) }
    ensures erased_selectively_in_page { (e : Extent) (s : Screen) (m : List Bool) → IsScreen s
        → AreNamedMarked s (page_unguarded_blanked e s.cols s.cells s.row s.col) m (marks_erased_selectively_in_page e s m) }
    ensures erased_selectively_in_line { (e : Extent) (s : Screen) (m : List Bool) → IsScreen s
        → AreNamedMarked s
        (in_row s.row (unguarded_blanked (row_of s.cols s.cells s.row) (line_from e s.col) (line_to e s.cols s.col)))
        m (marks_erased_selectively_in_line e s m) }
    ensures written { (x : Glyph) (s : Screen) (m : List Bool) → IsScreen s
        → AreNamedMarked s (in_row s.row (writing_source x s.col)) m (row_marked s.row m) }
    ensures put { (x : Glyph) (w : Writing) (s : Screen) (m : List Bool) → IsScreen s
        → marks_put x w s m
        ≡ row_marked (put_on x w s).row (if leaves_row (columns x) w s then marks_scrolled 1 s m else m) }
    ensures joined { (c : ℕ) (s : Screen) (m : List Bool) (r : ℕ) → IsScreen s → r < s.rows → is_marked m r ≡ false
        → is_marked (marks_joined c s m) r ≡ true → IsChanged s (joined_on c s) r }
    ensures all { (r : ℕ) → r < most_rows → is_marked all_on r ≡ true }
{}

/// A row without a mark shows the same cells as before, and no mark goes off, whatever was marked before, by each call that changes cells.
/// The calls that name every row (alignment, a restart, a switch of screens, another size) leave no row without a mark. Those that aren't
/// named here leave cells and marks as they are.
pub fn unmarked_rows_show_what_they_showed()
    ensures put { (x : Glyph) (w : Writing) (s : Screen) (m : List Bool) → IsScreen s → is_right_half x ≡ false
        → ShowsUnmarked s (put_on x w s) m (marks_put x w s m) }
    ensures put_all { (xs : List Glyph) (w : Writing) (s : Screen) (m : List Bool) → IsScreen s
        → ((k : ℕ) → k < length xs → is_right_half (glyph_at xs k) ≡ false)
        → ShowsUnmarked s (put_all xs w s) m (marks_put_all xs w s m) }
    ensures joined { (c : ℕ) (s : Screen) (m : List Bool) → IsScreen s
        → ShowsUnmarked s (joined_on c s) m (marks_joined c s m) }
    ensures indexed { (s : Screen) (m : List Bool) → IsScreen s → ShowsUnmarked s (after_index s) m (marks_indexed s m) }
    ensures reverse_indexed { (s : Screen) (m : List Bool) → IsScreen s
        → ShowsUnmarked s (after_reverse_index s) m (marks_reverse_indexed s m) }
    ensures scrolled_up { (n : ℕ) (s : Screen) (m : List Bool) → IsScreen s
        → ShowsUnmarked s (scrolled_up n s) m (marks_scrolled n s m) }
    ensures scrolled_down { (n : ℕ) (s : Screen) (m : List Bool) → IsScreen s
        → ShowsUnmarked s (scrolled_down n s) m (marks_scrolled n s m) }
    ensures cells_inserted { (n : ℕ) (s : Screen) (m : List Bool) → IsScreen s
        → ShowsUnmarked s (cells_inserted n s) m (marks_cells_moved n s m) }
    ensures cells_deleted { (n : ℕ) (s : Screen) (m : List Bool) → IsScreen s
        → ShowsUnmarked s (cells_deleted n s) m (marks_cells_moved n s m) }
    ensures cells_erased { (n : ℕ) (s : Screen) (m : List Bool) → IsScreen s → 0 < n
        → ShowsUnmarked s (cells_erased n s) m (marks_in_line s m) }
    ensures lines_inserted { (n : ℕ) (s : Screen) (m : List Bool) → IsScreen s
        → ShowsUnmarked s (lines_inserted n s) m (marks_lines_moved n s m) }
    ensures lines_deleted { (n : ℕ) (s : Screen) (m : List Bool) → IsScreen s
        → ShowsUnmarked s (lines_deleted n s) m (marks_lines_moved n s m) }
    ensures erased_in_page { (e : Extent) (s : Screen) (m : List Bool) → IsScreen s
        → ShowsUnmarked s (erased_in_page e s) m (marks_erased_in_page e s m) }
    ensures erased_in_line { (e : Extent) (s : Screen) (m : List Bool) → IsScreen s
        → ShowsUnmarked s (erased_in_line e s) m (marks_in_line s m) }
    ensures erased_selectively_in_page { (e : Extent) (s : Screen) (m : List Bool) → IsScreen s
        → ShowsUnmarked s (erased_selectively_in_page e s) m (marks_erased_selectively_in_page e s m) }
    ensures erased_selectively_in_line { (e : Extent) (s : Screen) (m : List Bool) → IsScreen s
        → ShowsUnmarked s (erased_selectively_in_line e s) m (marks_erased_selectively_in_line e s m) }
{}

/// With full margins a scroll moves the place of the first row: rows that stay keep their places in the buffer, and nothing of it changes
/// but the rows that come in. With other margins the first row stays.
pub fn scrolls_leave_the_buffer()
    ensures up { (n : ℕ) (v : GridView) → AreRows (rows_of v) → has_full_margins v.screen ≡ true
        → KeepPlaces n v.screen.rows (rows_of v) (rows_of (grid_up n v)) }
    ensures down { (n : ℕ) (v : GridView) → AreRows (rows_of v) → has_full_margins v.screen ≡ true
        → KeepPlaces 0 (v.screen.rows - n) (rows_of v) (rows_of (grid_down n v)) }
    ensures first_up { (n : ℕ) (s : Screen) (first : ℕ) → has_full_margins s ≡ false → first_scrolled_up n s first ≡ first }
    ensures first_down { (n : ℕ) (s : Screen) (first : ℕ) → has_full_margins s ≡ false → first_scrolled_down n s first ≡ first }
{}
