// Rows of answers get the answers to one formula more.
ghost use Rattle.std.specs.Prelude.{◌≡◌, ◌+◌, ◌*◌, ◌<◌, ◌≤◌, length};
ghost use Rattle.formulas.specs.Marks.{Extended, RowExtended};

// Sets bit `position` of the row of state `s`, if it holds the formula.
fn extend_row(rows: &mut [u32], w: usize, holds: &[u32], position: usize, s: usize)
    requires state { s < length holds.now }
    requires row { s * w + w ≤ length rows.old }
    requires position { position < 32 * w }
    ensures { RowExtended rows.old holds.now w position s rows.new }
{
    if holds[s] == 1 {
        lent::set_bit(&mut rows[s * w..s * w + w], position);
    }
}

// Sets bit `position` in the rows of the states that hold the formula.
pub fn extend_rows(rows: &mut [u32], w: usize, holds: &[u32], position: usize)
    requires rows { length rows.old ≡ length holds.now * w }
    requires position { position < 32 * w }
    ensures { Extended rows.old holds.now w position (length holds.now) rows.new }
{
    // Kept: the index, since a rule of the project has parts of the lent words that start in their middle written here.
    for s in 0..holds.len() {
        extend_row(rows, w, holds, position, s);
    }
}
