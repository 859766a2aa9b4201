// The calls for C: a buffer is a slice, and an answer crosses as a struct.
#![tactic(auto)]

ghost use Rattle.std.specs.Prelude.{◌≡◌};
ghost use Rattle.order.specs.Facts.{fact_on};
ghost use Rattle.promise.specs.Calls.{Owed, count_for_c, open_pairs, reply_of, writes_for_c};
ghost use Rattle.promise.specs.Tell.{fresh, tell};
ghost use Rattle.promise.specs.Clips.{clip_bytes};
ghost use Rattle.promise.specs.Next.{next_for_c};
ghost use Rattle.promise.specs.Hierarchy.{hierarchy, ladder};
ghost use Rattle.promise.specs.Book.{BookRead, write};
ghost use Rattle.promise.specs.declared.Kind.TheVariants.{Answered, Told};

use promise::{CrossedCount, CrossedQuestion, Refusal, RefusedBook, Reply, Session};

// What a call outside books replies: a refusal has place 0, and gives this session back.
fn replied(back: Session, answer: Result<Session, Refusal>) -> Reply
    ensures { result ≡ reply_of back answer }
{
    Reply::from(answer.map_err(|why| RefusedBook {
        why,
        place: 0,
        session: back,
    }))
}

// Starts a table.
#[unsafe(no_mangle)]
pub extern "C" fn dawnhangra_fresh(classes: usize, table: &mut [u8]) -> Reply
    ensures { Owed (fresh classes table.old) (result, table.new) }
{
    let none = Session {
        classes: 0,
        tests: 0,
    };
    replied(none, dawnhangra::fresh(classes, table))
}

// Takes a fact in that is told.
#[unsafe(no_mangle)]
pub extern "C" fn dawnhangra_tell(
    session: Session,
    table: &mut [u8],
    lower: usize,
    upper: usize,
    holds: bool,
) -> Reply
    ensures { Owed (tell Told session table.old (fact_on lower upper holds))
        (result, table.new) }
{
    replied(
        session,
        dawnhangra::tell(session, table, lower, upper, holds),
    )
}

// Takes a fact in that a test gave.
#[unsafe(no_mangle)]
pub extern "C" fn dawnhangra_answer(
    session: Session,
    table: &mut [u8],
    lower: usize,
    upper: usize,
    holds: bool,
) -> Reply
    ensures { Owed (tell Answered session table.old (fact_on lower upper holds))
        (result, table.new) }
{
    replied(
        session,
        dawnhangra::answer(session, table, lower, upper, holds),
    )
}

// Takes a clip in, with a byte for each flag.
#[unsafe(no_mangle)]
pub extern "C" fn dawnhangra_clip(session: Session, table: &mut [u8], played: &[u8]) -> Reply
    ensures { Owed (clip_bytes session table.old played.now) (result, table.new) }
{
    replied(session, dawnhangra::clip_bytes(session, table, played))
}

// Names the first open pair.
#[unsafe(no_mangle)]
pub extern "C" fn dawnhangra_next(session: Session, table: &[u8]) -> CrossedQuestion
    ensures { Owed (next_for_c session table.now) result }
{
    CrossedQuestion::from(dawnhangra::next(session, table))
}

// Counts the open pairs.
#[unsafe(no_mangle)]
pub extern "C" fn dawnhangra_open_pairs(session: Session, table: &[u8]) -> CrossedCount
    ensures { Owed (count_for_c (open_pairs session table.now)) result }
{
    CrossedCount::from(dawnhangra::open_pairs(session, table))
}

// Writes heads and direct steps.
#[unsafe(no_mangle)]
pub extern "C" fn dawnhangra_hierarchy(
    session: Session,
    table: &[u8],
    heads: &mut [u8],
    steps: &mut [u8],
) -> CrossedCount
    ensures { Owed
        (writes_for_c (hierarchy session table.now heads.old steps.old))
        (result, (heads.new, steps.new)) }
{
    CrossedCount::from(dawnhangra::hierarchy(session, table, heads, steps))
}

// Writes the rungs from one class to another.
#[unsafe(no_mangle)]
pub extern "C" fn dawnhangra_ladder(
    session: Session,
    table: &[u8],
    lower: usize,
    upper: usize,
    rungs: &mut [u8],
) -> CrossedCount
    ensures { Owed (writes_for_c (ladder session table.now lower upper rungs.old))
        (result, rungs.new) }
{
    CrossedCount::from(dawnhangra::ladder(session, table, lower, upper, rungs))
}

// Reads a book onto a fresh table.
#[unsafe(no_mangle)]
pub extern "C" fn dawnhangra_read(book: &[u8], table: &mut [u8]) -> Reply
    ensures { BookRead book.now table.old result table.new }
{
    Reply::from(dawnhangra::read(book, table))
}

// Writes the book of a table.
#[unsafe(no_mangle)]
pub extern "C" fn dawnhangra_write(session: Session, table: &[u8], out: &mut [u8]) -> CrossedCount
    ensures { Owed (writes_for_c (write session table.now out.old)) (result, out.new) }
{
    CrossedCount::from(dawnhangra::write(session, table, out))
}
