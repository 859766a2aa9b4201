// A fact on an open pair of a sound table is taken in, in place, by passes over the pairs of two lines. What is written
// to is a class count and bytes, and no struct as `Marks`: what one with a `&mut` leaves in the bytes is not known to a
// proof where it ends.
#![tactic(auto)]

mod flags;

ghost use Rattle.std.specs.Prelude.{◌≤◌, length};
ghost use Rattle.order.specs.Facts.{under, not_under};
ghost use Rattle.marks.specs.Shape.{Shape};
ghost use Rattle.promise.specs.Clips.{Flagged};
ghost use Rattle.passes.specs.Spread.{RowMarked, Spread};
ghost use Rattle.passes.specs.Taken.{OpenPair, FactTaken};

use flags::{column_flags, row_flags};
use marks::{Mark, Marks};
use promise::MOST_CLASSES;

// Each flagged byte of a row becomes v. Each byte is stored, changed or not, since a loop without branches becomes
// vector code. The flag is read by its index: a proof knows no element that a loop over `iter_mut().zip(ys)` has
// written.
fn mark_row(row: &mut [u8], ys: &[bool; MOST_CLASSES], v: u8)
    requires { length row.old ≤ 128 }
    ensures { RowMarked ys.now v row.old row.new }
{
    for (y, mark) in row.iter_mut().enumerate() {
        *mark = if ys[y] { v } else { *mark };
    }
}

// (x, y) becomes v, any byte, for every flagged x and every flagged y.
pub fn spread(
    n: usize,
    table: &mut [u8],
    xs: &[bool; MOST_CLASSES],
    ys: &[bool; MOST_CLASSES],
    v: u8,
)
    requires { Shape n table.old }
    ensures { Spread n (λ a b. Flagged xs.now a × Flagged ys.now b) v table.old table.new }
{
    // The same holds of rows by `chunks_exact_mut`.
    for x in 0..n {
        if xs[x] {
            let start = x * n;
            mark_row(&mut table[start..start + n], ys, v);
        }
    }
}

// a is under b. What is under a is under what is above b; what is above b is not under what a is not under; and what is
// not under b is not under what is under a. All four lines are those of the table before.
pub fn take_yes(n: usize, table: &mut [u8], a: usize, b: usize)
    requires { OpenPair n table.old a b }
    ensures { FactTaken n (under a b) table.old table.new }
{
    let marks = Marks {
        classes: n,
        bytes: table,
    };
    let under_a = column_flags(&marks, a, Mark::Yes);
    let above_b = row_flags(&marks, b, Mark::Yes);
    let not_above_a = row_flags(&marks, a, Mark::No);
    let not_under_b = column_flags(&marks, b, Mark::No);
    spread(n, table, &under_a, &above_b, Mark::Yes as u8);
    spread(n, table, &above_b, &not_above_a, Mark::No as u8);
    spread(n, table, &not_under_b, &under_a, Mark::No as u8);
}

// c is not under d. What is above c is not under what is under d.
pub fn take_no(n: usize, table: &mut [u8], c: usize, d: usize)
    requires { OpenPair n table.old c d }
    ensures { FactTaken n (not_under c d) table.old table.new }
{
    let marks = Marks {
        classes: n,
        bytes: table,
    };
    let above_c = row_flags(&marks, c, Mark::Yes);
    let under_d = column_flags(&marks, d, Mark::Yes);
    spread(n, table, &above_c, &under_d, Mark::No as u8);
}
