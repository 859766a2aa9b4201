// Bytes as they are. The contracts say every byte of a lent buffer, which those of `write!` do not.
ghost use Rattle.std.specs.Prelude.{[], ◌∷◌, ◌<◌, ◌+◌, ◌≤◌, length};
ghost use Rattle.buffers.specs.Placed.{Put};
ghost use Rattle.buffers.specs.Noted.{PairPut};

// One byte. Gives the index behind it.
#[tactic(auto, using(crate::proofs::Placing::put_one))]
pub fn put_byte(out: &mut [u8], at: usize, byte: u8) -> usize
    requires { at < length out.old }
    ensures { Put (byte ∷ []) at out.old result out.new }
{
    out[at] = byte;
    at + 1
}

// A run of bytes. Gives the index behind it.
pub fn put_bytes(out: &mut [u8], at: usize, bytes: &[u8]) -> usize
    requires { at + length bytes.now ≤ length out.old }
    ensures { Put bytes.now at out.old result out.new }
{
    let behind = at + bytes.len();
    out[at..behind].copy_from_slice(bytes);
    behind
}

// A pair of classes, if there is room for it, by two stores, which are faster than a copy. Twice the number of pairs of
// 128 classes bounds the index.
pub fn put_pair(out: &mut [u8], at: usize, a: usize, b: usize)
    requires { (at ≤ 32768) × (a < 256) × (b < 256) }
    ensures { PairPut at a b out.old out.new }
{
    if at + 2 <= out.len() {
        let next = put_byte(out, at, a as u8);
        put_byte(out, next, b as u8);
    }
}
