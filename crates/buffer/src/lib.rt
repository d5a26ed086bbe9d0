// Bytes stored one after another in a lent buffer. A function put_.. writes from a place on and answers with the place after it.
#![tactic(auto)]

ghost use Rattle.std.specs.Prelude.{[], ◌∷◌};
ghost use Rattle.buffer.specs.Stores.{HasRoom, Puts};

pub fn put_byte(buffer: &mut [u8], at: usize, byte: u8) -> usize
    requires { HasRoom (byte ∷ []) at buffer.old }
    ensures { Puts (byte ∷ []) at buffer.old buffer.new result }
{
    buffer[at] = byte;
    at + 1
}
