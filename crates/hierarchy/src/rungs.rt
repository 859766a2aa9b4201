// The rungs of a ladder.
ghost use Rattle.promise.specs.Hierarchy.{NextRung};
ghost use Rattle.hierarchy.specs.Climb.{BelowGoal, Reached, Climbed};

use steps::Heads;

// The lowest-numbered head directly above the rung and under the goal. There is one, since the rung is not the goal's
// head. It is called and not inlined, so that a ladder's stack holds the steps of one rung and not of each.
#[inline(never)]
fn next_rung(heads: &Heads<'_>, goal: usize, rung: usize) -> usize
    requires { BelowGoal heads.now.marks.classes heads.now.marks.bytes.now goal rung }
    ensures { NextRung heads.now.marks.classes heads.now.marks.bytes.now goal rung result }
{
    let steps = heads.steps_from(rung);
    (0..heads.marks.classes)
        .find(|c| steps.leads_to(*c) && heads.marks.under(*c, goal))
        .unwrap()
}

// The ladder from this rung on, which stands behind the rungs before it. It is written from its top down, once the
// count of all rungs is known and only if there is room for all of them. Gives that count.
pub fn climb(heads: &Heads<'_>, goal: usize, rung: usize, before: usize, rungs: &mut [u8]) -> usize
    requires { Reached heads.now.marks.classes heads.now.marks.bytes.now goal rung before }
    ensures { Climbed heads.now.marks.classes heads.now.marks.bytes.now goal rung before
        rungs.old result rungs.new }
{
    let count = if rung == heads.head(goal) {
        before + 1
    } else {
        let next = next_rung(heads, goal, rung);
        climb(heads, goal, next, before + 1, &mut *rungs)
    };
    if count <= rungs.len() {
        rungs[before] = rung as u8;
    }
    count
}
