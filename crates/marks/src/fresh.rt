// The fresh table.
ghost use Rattle.std.specs.Prelude.{◌<◌, ◌≤◌};
ghost use Rattle.marks.specs.Shape.{Shape, IndexOf, MadeFresh};

use crate::Mark;

// Where the mark of (a, b) stands.
pub fn index(n: usize, a: usize, b: usize) -> usize
    requires { (n ≤ 128) × (a < n) × (b < n) }
    ensures { IndexOf n a b result }
{
    a * n + b
}

// Yes on the diagonal, open elsewhere.
#[tactic(auto, unfolding(order::specs::Tables::mark))]
pub fn fresh_marks(n: usize, table: &mut [u8])
    requires { Shape n table.old }
    ensures { MadeFresh n table.old table.new }
{
    table[..n * n].fill(Mark::Open as u8);
    // A step of n + 1 bytes would say less plainly which pairs these are.
    for a in 0..n {
        table[index(n, a, a)] = Mark::Yes as u8;
    }
}
