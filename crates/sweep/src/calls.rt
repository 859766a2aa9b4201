// The calls: what each draws, the call itself on the bytes that are lent to it, its line, and what is kept after it.
use crate::draws::Fact;
use crate::given::{Given, Sizes, untested};
use crate::shown::{Counted, Digest, Next, Replied};
use crate::sweep::{BOOK, Sweep};
use promise::{Asked, Clip, MOST_CLASSES, Refusal, Session};
use std::{array, io};

impl Sweep {
    // A call that may change the table. Gives whether it was accepted.
    fn change<F: FnOnce(Session, &mut [u8]) -> Result<Session, Refusal>>(
        &mut self,
        letter: char,
        given: Given,
        call: F,
    ) -> io::Result<bool>
        requires { F.IsAlwaysCallable call }
    {
        let after = call(given.session, &mut self.table[..given.lent]);
        let replied = Replied::of(after, given.session);
        println!(self.out; "{letter} {replied} {}", Digest(&self.table[..given.lent]))?;
        self.settle(given, after);
        Ok(after.is_ok())
    }

    // fresh is given a class count alone, and gives no session back where it is refused. Gives whether it was accepted.
    pub fn fresh(&mut self, mut given: Given) -> io::Result<bool> {
        let classes = given.session.classes;
        given.session = untested(0);
        self.change('F', given, |_, table| dawnhangra::fresh(classes, table))
    }

    // A fact is told.
    pub fn tell(&mut self, given: Given, fact: Fact) -> io::Result<()> {
        self.change('T', given, |session, table| {
            dawnhangra::tell(session, table, fact.lower, fact.upper, fact.holds)
        })?;
        Ok(())
    }

    // A fact is given as an answer.
    pub fn answer(&mut self, given: Given, fact: Fact) -> io::Result<()> {
        self.change('A', given, |session, table| {
            dawnhangra::answer(session, table, fact.lower, fact.upper, fact.holds)
        })?;
        Ok(())
    }

    // A clip, whose flags are drawn.
    pub fn clip(&mut self, given: Given, sizes: Sizes) -> io::Result<()> {
        let clip = self.draw_clip(sizes);
        self.change(
            'C',
            given,
            |session, table| dawnhangra::clip(session, table, clip),
        )?;
        Ok(())
    }

    // Now and then any set of classes, otherwise those that a row of the table has a yes for. Now and then one class
    // more, which there is not.
    fn draw_clip(&mut self, sizes: Sizes) -> Clip {
        let n = sizes.classes;
        let mut played = if self.draws.below(4) == 0 {
            array::from_fn(|class| class < n && self.draws.verdict())
        } else {
            let start = self.draws.below(n) * n;
            let row = &self.table[start..start + n];
            array::from_fn(|class| row.get(class) == Some(&1))
        };
        if n < MOST_CLASSES && self.draws.below(8) == 0 {
            played[n + self.draws.below(MOST_CLASSES - n)] = true;
        }
        Clip { played }
    }

    // Gives whether next asked: the pair is answered then, without trouble.
    pub fn next(&mut self, given: Given, sizes: Sizes) -> io::Result<bool> {
        let lent = &self.table[..given.lent];
        let next = dawnhangra::next(given.session, lent);
        println!(self.out; "N {} {}", Next(next), Digest(lent))?;
        self.settle(given, next.map(|_| given.session));
        let Ok(Some(Asked { lower, upper })) = next else {
            return Ok(false);
        };
        let fact = self.draws.verdict_on(lower, upper);
        self.answer(self.untroubled(sizes), fact)?;
        Ok(true)
    }

    // How many pairs are open.
    pub fn open_pairs(&mut self, given: Given) -> io::Result<()> {
        let lent = &self.table[..given.lent];
        let counted = dawnhangra::open_pairs(given.session, lent);
        println!(self.out; "O {} {}", Counted(counted), Digest(lent))?;
        self.settle(given, counted.map(|_| given.session));
        Ok(())
    }

    // Onto heads and steps. Here and below as_mut_slice makes a slice of the buffer before a part of it is lent: the
    // check has no rule for `&mut self.heads[..heads]` beside another field that is lent.
    pub fn hierarchy(&mut self, given: Given, sizes: Sizes) -> io::Result<()> {
        let n = sizes.classes;
        let heads = self
            .draws
            .few(n + 1)
            .unwrap_or_else(|| n + self.draws.below(3));
        let steps = self.draws.few(2 * n).unwrap_or(2 * sizes.marks());
        let lent = &self.table[..given.lent];
        let heads = &mut self.heads.as_mut_slice()[..heads];
        let steps = &mut self.steps.as_mut_slice()[..steps];
        let counted = dawnhangra::hierarchy(given.session, lent, heads, steps);
        println!(self.out;
            "H {} {} {} {}",
            Counted(counted),
            Digest(lent),
            Digest(heads),
            Digest(steps)
        )?;
        self.settle(given, counted.map(|_| given.session));
        Ok(())
    }

    // Onto heads.
    pub fn ladder(&mut self, given: Given, sizes: Sizes) -> io::Result<()> {
        let n = sizes.classes;
        let (lower, upper) = self.draws.pair(sizes);
        let rungs = self.draws.few(3).unwrap_or_else(|| n + self.draws.below(2));
        let lent = &self.table[..given.lent];
        let rungs = &mut self.heads.as_mut_slice()[..rungs];
        let counted = dawnhangra::ladder(given.session, lent, lower, upper, rungs);
        println!(self.out; "L {} {} {}", Counted(counted), Digest(lent), Digest(rungs))?;
        self.settle(given, counted.map(|_| given.session));
        Ok(())
    }

    // Onto book.
    pub fn write(&mut self, given: Given, sizes: Sizes) -> io::Result<()> {
        let longest = 10 + 2 * sizes.marks();
        let room = self.draws.few(longest).unwrap_or(longest);
        let lent = &self.table[..given.lent];
        let book = &mut self.book.as_mut_slice()[..room];
        let counted = dawnhangra::write(given.session, lent, book);
        println!(self.out; "W {} {} {}", Counted(counted), Digest(lent), Digest(book))?;
        self.written = counted.unwrap_or(self.written);
        self.settle(given, counted.map(|_| given.session));
        Ok(())
    }

    // A book is read onto spare: no trouble with the table lasts.
    pub fn read(&mut self, given: Given, sizes: Sizes) -> io::Result<()> {
        let written = self.written.min(BOOK);
        let book = &mut self.book.as_mut_slice()[..written];
        let part = self.draws.part(book);
        let book = &book[..part];
        let spare = &mut self.spare.as_mut_slice()[..sizes.lent];
        let replied = dawnhangra::read(book, spare);
        println!(self.out; "R {} {} {}", Replied(replied), Digest(spare), Digest(book))?;
        self.put_back(given);
        Ok(())
    }
}
