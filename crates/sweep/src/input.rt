// The three numbers of standard input.

// Numbers are taken modulo this as their digits are read.
const MODULUS: u64 = 1000000007;

// The seed, the count of rounds and the most classes.
#[derive(Clone, Copy)]
pub struct Input {
    pub seed: u32,
    pub rounds: u32,
    pub most: u32,
}

// The number that a run of digits says. The low half of a digit's byte is the digit.
fn number(digits: &[u8]) -> u32 {
    digits.iter().fold(0, |number: u32, digit| {
        ((u64::from(number) * 10 + u64::from(*digit & 0x0f)) % MODULUS) as u32
    })
}

// The first three runs of digits, whatever bytes stand between; a number that is missing is 0.
impl From<&[u8]> for Input {
    fn from(text: &[u8]) -> Input {
        let runs = text.split(|byte| !byte.is_ascii_digit());
        let mut numbers = runs.filter(|run| !run.is_empty()).map(number);
        Input {
            seed: numbers.next().unwrap_or(0),
            rounds: numbers.next().unwrap_or(0),
            most: numbers.next().unwrap_or(0),
        }
    }
}
