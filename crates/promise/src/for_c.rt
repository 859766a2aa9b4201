// Answers as C gets them.
ghost use Rattle.std.specs.Prelude.{◌≡◌};
ghost use Rattle.promise.specs.Calls.{count_for, count_of};
ghost use Rattle.promise.specs.Next.{question_for, question_of};
ghost use Rattle.promise.specs.Book.{reply_of_read};

use crate::{Asked, CrossedCount, CrossedQuestion, Refusal, RefusedBook, Reply, Session};

impl From<Result<Session, RefusedBook>> for Reply {
    ghost from_gives = { λ answer crossed. crossed ≡ reply_of_read answer };

    fn from(answer: Result<Session, RefusedBook>) -> Reply {
        match answer {
            Ok(session) => Reply {
                number: 0,
                place: 0,
                session,
            },
            Err(refused) => Reply {
                number: refused.why as u8,
                place: refused.place,
                session: refused.session,
            },
        }
    }
}

impl From<Result<Option<Asked>, Refusal>> for CrossedQuestion {
    ghost from_gives = { λ answer crossed. crossed ≡ question_for (question_of answer) };

    fn from(answer: Result<Option<Asked>, Refusal>) -> CrossedQuestion {
        let nothing = CrossedQuestion {
            number: 0,
            place: 0,
            asks: false,
            lower: 0,
            upper: 0,
        };
        match answer {
            Ok(Some(asked)) => CrossedQuestion {
                asks: true,
                lower: asked.lower,
                upper: asked.upper,
                ..nothing
            },
            Ok(None) => nothing,
            Err(why) => CrossedQuestion {
                number: why as u8,
                ..nothing
            },
        }
    }
}

impl From<Result<usize, Refusal>> for CrossedCount {
    ghost from_gives = { λ answer crossed. crossed ≡ count_for (count_of answer) };

    fn from(answer: Result<usize, Refusal>) -> CrossedCount {
        match answer {
            Ok(count) => CrossedCount {
                number: 0,
                place: 0,
                count,
            },
            Err(why) => CrossedCount {
                number: why as u8,
                place: 0,
                count: 0,
            },
        }
    }
}
