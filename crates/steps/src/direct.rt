// The direct steps.
ghost use Rattle.std.specs.Prelude.{◌≤◌};
ghost use Rattle.steps.specs.HeadsFound.{StepsNoted};

use crate::heads::Heads;
use buffers::put_pair;

impl Heads<'_> {
    // Counts the direct steps, of which 128 classes have at most 4096. Each is written, two bytes, ordered by a and
    // then b, if it fits: a buffer with room for all gets all. `book` lists pairs too, but knows nothing once for a
    // row.
    pub fn list_steps(&self, steps: &mut [u8]) -> usize
        ensures noted { StepsNoted self.now.marks.classes self.now.marks.bytes.now steps.old result steps.new }
        ensures few { result ≤ 4096 }
    {
        let n = self.marks.classes;
        let mut count = 0;
        for a in 0..n {
            if !self.is_head(a) {
                continue;
            }
            let from_a = self.steps_from(a);
            for b in 0..n {
                if from_a.leads_to(b) {
                    put_pair(&mut *steps, 2 * count, a, b);
                    count += 1;
                }
            }
        }
        count
    }
}
