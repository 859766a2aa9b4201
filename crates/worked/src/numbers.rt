// The numbers of a line of the script.
ghost use Rattle.std.specs.Prelude.{◌≤◌, length};

// The most numbers that a line has.
const MOST: usize = 32;

// The numbers of a line, each below 256, as far as there is room: a `Vec` would be on the heap.
#[derive(Clone, Copy)]
pub struct Numbers {
    given: [u8; MOST],
    count: usize,
    ghost within: { count ≤ 32 },
}

// What a run of digits says, modulo 256. The low half of a digit's byte is the digit.
fn number(digits: &[u8]) -> u8 {
    digits.iter().fold(0, |value: u8, digit| {
        value.wrapping_mul(10).wrapping_add(*digit & 0x0f)
    })
}

impl Numbers {
    // Each run of digits is a number, whatever stands between.
    pub fn of(line: &[u8]) -> Numbers {
        let mut numbers = Numbers {
            given: [0; MOST],
            count: 0,
        };
        let runs = line.split(|letter| !letter.is_ascii_digit());
        for digits in runs.filter(|run| !run.is_empty()) {
            numbers.push(number(digits));
        }
        numbers
    }

    // One number more, unless there is no room.
    fn push(&mut self, value: u8) {
        if self.count < MOST {
            self.given[self.count] = value;
            self.count += 1;
        }
    }

    // All that the line has.
    pub fn as_slice(&self) -> &[u8]
        ensures { length result.now ≤ 32 }
    {
        &self.given[..self.count]
    }

    // The number at a place, 0 where there is none.
    pub fn at(&self, place: usize) -> u8 {
        self.as_slice().get(place).copied().unwrap_or(0)
    }
}
