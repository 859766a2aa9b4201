// Flags that are bytes.
ghost use Rattle.std.specs.Prelude.{◌≤◌, length};
ghost use Rattle.promise.specs.Clips.{flags_of};
ghost use Rattle.clips.specs.Seen.{SameFlags};

use promise::MOST_CLASSES;
use std::array;

// At most 128 flags, one for each class that a table may have; where there is no byte it is not set.
pub fn flags_of(played: &[u8]) -> [bool; MOST_CLASSES]
    requires { length played.now ≤ 128 }
    ensures { SameFlags (flags_of played.now) result }
{
    array::from_fn(|class| played.get(class).copied().unwrap_or(0) != 0)
}
