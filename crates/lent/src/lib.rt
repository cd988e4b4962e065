// Bytes that a caller lends: cleared, and written one behind the other into zeros.
#![tactic(auto)]

ghost use Rattle.std.specs.Prelude.{◌≡◌, ◌+◌, ◌<◌, [], ◌∷◌, length, replicate};
ghost use Rattle.lent.specs.Appending.{Appends};

// All bytes are zero.
pub fn clear(buffer: &mut [u8])
    ensures { buffer.new ≡ replicate (length buffer.old) 0 }
{
    for byte in buffer.iter_mut() {
        *byte = 0;
    }
}

// One byte more.
pub fn put(buffer: &mut [u8], at: usize, byte: u8) -> usize
    requires { at < length buffer.old }
    ensures { (result ≡ at + 1) × Appends buffer.old buffer.new at (byte ∷ []) }
{
    buffer[at] = byte;
    at + 1
}
