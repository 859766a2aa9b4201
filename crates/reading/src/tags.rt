// The table of tags, as far as reading goes by it.
ghost use Rattle.std.specs.Prelude.{◌≡◌, ◌≤◌, length};
ghost use Rattle.promise.specs.Book.{row_of, tag_byte};
ghost use Rattle.reading.specs.Parts.{row_for, width_of, kind_of, verdict_by, stands_at, allows_length};

use promise::{Kind, Stage, Tag};

// The facts of a field: told, with the verdict of their tag, or given as answers, each with a verdict of its own.
#[derive(Clone, Copy, Debug, PartialEq, Eq)]
pub enum Facts {
    Told(u8),
    Answered,
}

impl Facts {
    // How many bytes a fact has.
    pub fn width(self) -> usize
        ensures { result ≡ width_of self }
    {
        match self {
            Facts::Told(_) => 2,
            Facts::Answered => 3,
        }
    }

    // How a fact is taken in.
    pub fn kind(self) -> Kind
        ensures { result ≡ kind_of self }
    {
        match self {
            Facts::Told(_) => Kind::Told,
            Facts::Answered => Kind::Answered,
        }
    }

    // The verdict of the fact with which these bytes begin.
    pub fn verdict(self, bytes: &[u8]) -> u8
        requires { width_of self ≤ length bytes.now }
        ensures { result ≡ verdict_by self bytes.now }
    {
        match self {
            Facts::Told(verdict) => verdict,
            Facts::Answered => bytes[2],
        }
    }
}

// What a field contains: the class count, with which a book begins, or facts.
#[derive(Clone, Copy, Debug, PartialEq, Eq)]
pub enum Contents {
    Classes,
    Facts(Facts),
}

impl Contents {
    // What a field with a tag contains.
    #[tactic(auto, unfolding(promise::specs::Book::row_of))]
    pub fn of(tag: Tag) -> Contents
        ensures { row_of (tag_byte tag) ≡ row_for (tag_byte tag) result }
    {
        match tag {
            Tag::ClassCount => Contents::Classes,
            Tag::YesFacts => Contents::Facts(Facts::Told(1)),
            Tag::NoFacts => Contents::Facts(Facts::Told(0)),
            Tag::Answers => Contents::Facts(Facts::Answered),
        }
    }

    // Whether they may stand at a stage: the class count at the start, facts once it is accepted.
    pub fn stand(self, stage: Stage) -> bool
        ensures { result ≡ stands_at self stage }
    {
        match stage {
            Stage::Start => self == Contents::Classes,
            Stage::Begun => self != Contents::Classes,
        }
    }

    // Whether they may have so many bytes: one for the class count, and whole facts.
    pub fn allow(self, size: usize) -> bool
        ensures { result ≡ allows_length self size }
    {
        match self {
            Contents::Classes => size == 1,
            Contents::Facts(facts) => size % facts.width() == 0,
        }
    }
}
