// Numbers as text.
ghost use Rattle.std.specs.Prelude.{◌≡◌, ◌+◌, ◌≤◌, length};
ghost use Rattle.buffers.specs.Placed.{Put};
ghost use Rattle.buffers.specs.Decimal.{decimal};

// How many digits a number has.
#[tactic(auto, using(crate::proofs::Decimals::digits_counted, crate::proofs::Decimals::decimal_one))]
fn count_digits(number: usize) -> usize
    ensures { result ≡ length (decimal number) }
{
    number
        .checked_ilog10()
        .map_or(1, |power| power as usize + 1)
}

// A number in decimal, its digits written from the last to the first. Gives the index behind it.
pub fn put_number(out: &mut [u8], at: usize, number: usize) -> usize
    requires { at + length (decimal number) ≤ length out.old }
    ensures { Put (decimal number) at out.old result out.new }
{
    let behind = at + count_digits(number);
    let mut rest = number;
    // A proof knows nothing of what a loop over `iter_mut().rev()` has written.
    for left in (at..behind).rev() {
        out[left] = b'0' + (rest % 10) as u8;
        rest /= 10;
    }
    behind
}
