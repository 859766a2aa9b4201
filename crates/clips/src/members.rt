// Members and non-members: what is looked at before a clip is taken in.
ghost use Rattle.std.specs.Prelude.{◌≡◌, ◌↔◌, true, ◌≤◌, ◌<◌};
ghost use Rattle.order.specs.Tables.{SomeContradicts};
ghost use Rattle.promise.specs.Clips.{Flagged, ClipNo, MemberBeyond};
ghost use Rattle.passes.specs.Spread.{FlagsOf};
ghost use Rattle.clips.specs.Seen.{UnderMembers};

use marks::{Mark, Marks};
use promise::MOST_CLASSES;
use std::array;

// Whether no class of n or more is a member.
pub fn none_beyond(n: usize, played: &[bool]) -> bool
    ensures { (result ≡ true) ↔ (¬ MemberBeyond n played.now) }
{
    !played.iter().skip(n).any(|member| *member)
}

// Whether a class is marked as under members only. The flag is folded without a branch, so that the compiler makes
// vector code of it.
fn under_members(marks: &Marks<'_>, class: usize, played: &[bool; MOST_CLASSES]) -> bool
    requires { class < marks.now.classes }
    ensures { (result ≡ true) ↔ UnderMembers marks.now.classes marks.now.bytes.now played.now class }
{
    let row = marks.row(class).iter().zip(played);
    !row.fold(
        false,
        |wrong, (mark, member)| wrong | ((*mark == Mark::Yes as u8) & !*member),
    )
}

// Whether none of the clip's noes contradicts: no member is marked as under a non-member.
pub fn none_contradicts(marks: &Marks<'_>, played: &[bool; MOST_CLASSES]) -> bool
    ensures { (result ≡ true)
        ↔ (¬ SomeContradicts marks.now.classes marks.now.bytes.now (ClipNo marks.now.classes played.now)) }
{
    (0..marks.classes).all(|class| !played[class] || under_members(marks, class, played))
}

// The classes below n that are no members.
pub fn non_members(n: usize, played: &[bool; MOST_CLASSES]) -> [bool; MOST_CLASSES]
    requires { n ≤ 128 }
    ensures { FlagsOf n (λ x. ¬ Flagged played.now x) result }
{
    array::from_fn(|class| class < n && !played[class])
}
