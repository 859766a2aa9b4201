// The values that the public calls take and give; specs/ says what each call owes. The only code here turns answers
// into what C gets, and a book's byte into the tag that it is.
#![tactic(auto)]

mod for_c;

ghost use Rattle.promise.specs.Book.{Tagged};

// The class count, and the tally of tests.
#[repr(C)]
#[derive(Clone, Copy, Debug, PartialEq, Eq)]
pub struct Session {
    pub classes: usize,
    pub tests: usize,
}

// The set of classes that played a trial clip: the flag of each class.
#[derive(Clone, Copy)]
pub struct Clip {
    pub played: [bool; MOST_CLASSES],
}

// The two ways to take in a fact: it is told, or given as an answer.
#[derive(Clone, Copy, Debug, PartialEq, Eq)]
pub enum Kind {
    Told,
    Answered,
}

// The pair that next asks about.
#[derive(Clone, Copy, Debug, PartialEq, Eq)]
pub struct Asked {
    pub lower: usize,
    pub upper: usize,
}

// Why a call is refused, each with its refusal number.
#[derive(Clone, Copy, Debug, PartialEq, Eq)]
pub enum Refusal {
    BadCount = 1,
    ShortTable = 2,
    NotSound = 3,
    Overcounted = 4,
    NoSuchClass = 5,
    Contradicted = 6,
    StillOpen = 7,
    NoRoom = 8,
    NoLadder = 9,
    CutShort = 10,
    UnknownTag = 11,
    MisplacedTag = 12,
    BadLength = 13,
    BadVerdict = 14,
    TooLong = 15,
}

// A refused book: why, at which place, and the session after the facts before that place.
#[derive(Clone, Copy, Debug, PartialEq, Eq)]
pub struct RefusedBook {
    pub why: Refusal,
    pub place: usize,
    pub session: Session,
}

// What fresh, tell, answer, clip and read give to C: the refusal number, 0 where the call was accepted; its place, 0
// outside books; the session that holds from now on.
#[repr(C)]
#[derive(Clone, Copy)]
pub struct Reply {
    pub number: u8,
    pub place: usize,
    pub session: Session,
}

// What next gives to C: the refusal number, 0 where there is none, and its place; whether a pair is asked about, and
// which.
#[repr(C)]
#[derive(Clone, Copy)]
pub struct CrossedQuestion {
    pub number: u8,
    pub place: usize,
    pub asks: bool,
    pub lower: usize,
    pub upper: usize,
}

// What the calls that count give to C: the refusal number, 0 where there is none, and its place; the count, 0 where
// it is refused.
#[repr(C)]
#[derive(Clone, Copy)]
pub struct CrossedCount {
    pub number: u8,
    pub place: usize,
    pub count: usize,
}

// The stages of reading a book: no field is read yet, and a class count is accepted.
#[derive(Clone, Copy)]
pub enum Stage {
    Start,
    Begun,
}

// The tags of a book's fields.
#[derive(Clone, Copy, Debug, PartialEq, Eq)]
pub enum Tag {
    ClassCount = 1,
    YesFacts = 2,
    NoFacts = 3,
    Answers = 4,
}

// The tag that a byte of a book is, or the refusal of a byte that is none.
impl TryFrom<u8> for Tag {
    type Error = Refusal;

    ghost try_from_gives = { Tagged };

    #[tactic(auto, unfolding(crate::specs::Book::row_of))]
    fn try_from(byte: u8) -> Result<Tag, Refusal> {
        match byte {
            1 => Ok(Tag::ClassCount),
            2 => Ok(Tag::YesFacts),
            3 => Ok(Tag::NoFacts),
            4 => Ok(Tag::Answers),
            _ => Err(Refusal::UnknownTag),
        }
    }
}

// The most classes that a table may have.
pub const MOST_CLASSES: usize = 128;
