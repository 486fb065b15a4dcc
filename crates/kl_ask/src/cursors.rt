//! Open cursors by their numbers, kept in the same way by every driver.
ghost use Rattle.std.specs.Prelude.{◌≡◌, ◌≢◌, ◌<◌, ℕ, length, None};
ghost use Rattle.kl_ask.specs.Cursors.{open_at};

/// Closes the cursor at a place: it is dropped, and the places behind the last open one are used again.
pub fn close_cursor<C: Drop>(cursors: &mut Vec<Option<C>>, cursor: usize)
    requires { cursor < length cursors.old.items }
    ensures closed { open_at cursors.new.items cursor ≡ None }
    ensures others { (k : ℕ) → k ≢ cursor → open_at cursors.new.items k ≡ open_at cursors.old.items k }
{
    cursors[cursor] = None;
    close_last(cursors);
}

// Drops the places of closed cursors behind the last open one.
fn close_last<C: Drop>(cursors: &mut Vec<Option<C>>)
    ensures { (k : ℕ) → open_at cursors.new.items k ≡ open_at cursors.old.items k }
{
    'places: while let Some(None) = cursors.last() {
        cursors.pop();
    }
}
