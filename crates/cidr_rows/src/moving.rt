//! Rows that move: the first ones of an array that has room for more.
ghost use Rattle.std.specs.Prelude.{◌≡◌, ◌<◌, ◌≤◌, length};
ghost use Rattle.cidr_rows.specs.Moved.{with_row, without_row};

/// Puts a row before the one at an index, of so many: those from there on move by one.
///
/// The array has to have room for one more, and what is behind that stays.
pub fn insert<T: Copy>(rows: &mut [T], count: usize, index: usize, row: T)
    requires index { index ≤ count }
    requires room { count < length rows.old }
    ensures { rows.new ≡ with_row rows.old count index row }
{
    rows.copy_within(index..count, index + 1);
    rows[index] = row;
}

/// Takes the row at an index out, of so many: those behind it move by one. What is behind all but one stays, the last row too.
pub fn remove<T: Copy>(rows: &mut [T], count: usize, index: usize)
    requires index { index < count }
    requires count { count ≤ length rows.old }
    ensures { rows.new ≡ without_row rows.old count index }
{
    rows.copy_within(index + 1..count, index);
}
