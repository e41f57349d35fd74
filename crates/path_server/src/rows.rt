//! The rows of a list, with the handles that are shown.

ghost use Rattle.std.specs.Prelude.{◌≡◌, ℕ, option_map, slice_get};
ghost use Rattle.path_server.specs.Rows.{shown_row};

use crate::node::shown;
use server_trait::Listed;

/// Gives each row the handle that is shown after so many starts, in place of the one inside.
pub fn show_rows(starts: u64, rows: &mut Vec<Listed>)
    ensures { (k : ℕ) → slice_get rows.new.items k ≡ option_map (shown_row starts) (slice_get rows.old.items k) }
{
    for k in 0..rows.len() {
        let handle = shown(starts, &rows[k].handle);
        rows[k].handle = handle;
    }
}
