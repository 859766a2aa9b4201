// What is kept from call to call.
use crate::draws::Draws;
use crate::given::{Changed, Given, Sizes, untested};
use promise::{Refusal, Session};
use std::io::Stdout;
use std::mem;

// The bytes of the buffers, for 128 classes and a little more than they need.
const TABLE: usize = 16386;

const HEADS: usize = 130;

const STEPS: usize = 32768;

pub const BOOK: usize = 32778;

// Where the lines go, the state of the draws, the session, the five buffers, and how much of the book was last written:
// it is lent in part, and a `Vec` would be on the heap.
#[derive(Drop)]
pub struct Sweep {
    pub out: Stdout,
    pub draws: Draws,
    pub session: Session,
    pub table: [u8; TABLE],
    pub spare: [u8; TABLE],
    pub heads: [u8; HEADS],
    pub steps: [u8; STEPS],
    pub book: [u8; BOOK],
    pub written: usize,
}

impl Sweep {
    // All is 0 but the state of the draws.
    pub fn new(out: Stdout, seed: u32) -> Sweep {
        Sweep {
            out,
            draws: Draws::start(seed),
            session: untested(0),
            table: [0; TABLE],
            spare: [0; TABLE],
            heads: [0; HEADS],
            steps: [0; STEPS],
            book: [0; BOOK],
            written: 0,
        }
    }

    // What a call without trouble is given.
    pub fn untroubled(&self, sizes: Sizes) -> Given {
        Given {
            session: self.session,
            lent: sizes.lent,
            changed: None,
        }
    }

    // What a call with trouble is given.
    pub fn troubled(&mut self, sizes: Sizes) -> Given {
        let mut given = self.untroubled(sizes);
        match self.draws.below(12) {
            0 => given.changed = Some(self.change_byte(sizes)),
            1 => given.session.tests = self.draws.below(sizes.marks() + 1),
            2 => given.session.classes = [0, sizes.classes + 1, 200][self.draws.below(3)],
            3 => given.lent = self.draws.below(sizes.marks()),
            _ => {}
        }
        given
    }

    // A mark of the table becomes another byte.
    fn change_byte(&mut self, sizes: Sizes) -> Changed {
        let place = self.draws.below(sizes.marks());
        let after = self.draws.below(4) as u8;
        let before = mem::replace(&mut self.table[place], after);
        Changed { place, before }
    }

    // A changed byte of the table gets its old value back.
    pub fn put_back(&mut self, given: Given) {
        if let Some(Changed { place, before }) = given.changed {
            self.table[place] = before;
        }
    }

    // After a call: the session after an accepted one holds from now on, and after a refused one what was there before
    // the trouble.
    pub fn settle(&mut self, given: Given, after: Result<Session, Refusal>) {
        match after {
            Ok(session) => self.session = session,
            Err(_) => self.put_back(given),
        }
    }
}
