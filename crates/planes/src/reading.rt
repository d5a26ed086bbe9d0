// Reads numbers from a file.
ghost use Rattle.std.specs.Prelude.{◌+◌, ◌*◌, ◌<◌, ◌≡◌, length};
ghost use Rattle.working.specs.Slices.{HasPlaces};
ghost use Rattle.working.specs.Lent.{numbers_mut, SameSlices};
ghost use Rattle.grounds.specs.Grounds.{some_unkept};
ghost use Rattle.planes.specs.Planes.{word_at};
ghost use Rattle.planes.specs.Sides.{number_in, side_after, HasSide};

use super::words::is_kept;
use kept::Kept;
use working::NumbersMut;

// Number i of an array of so many that starts with the bytes.
#[tactic(auto, unfolding(crate::specs::Planes::word_at))]
pub fn word_at(count: usize, bytes: &[u8], i: usize) -> u32
    requires { 3 * count + i < length bytes.now }
    ensures { result ≡ word_at count bytes.now i }
{
    let lowest = bytes[i];
    let second = bytes[count + i];
    let third = bytes[2 * count + i];
    let highest = bytes[3 * count + i];
    u32::from_le_bytes([lowest, second, third, highest])
}

// One side of a store in a file: the bytes start with so many numbers.
#[derive(Clone, Copy)]
pub struct FileSide<'a> {
    pub count: usize,
    pub bytes: &'a [u8],
    ghost holds: { HasSide count bytes.now },
}

impl FileSide<'_> {
    // Kept number i.
    #[tactic(auto, unfolding(crate::specs::Sides::number_in, crate::specs::Planes::signed), using(kept::specs::Rounding::Exponents::result_back))]
    fn at(&self, i: usize) -> Kept
        requires { i < self.now.count }
        ensures { result ≡ number_in self.now.count self.now.bytes.now i }
    {
        let exponents = &self.bytes[4 * self.count..];
        Kept {
            significand: word_at(self.count, self.bytes, i),
            exponent: word_at(self.count, exponents, i).cast_signed(),
        }
    }

    // Whether some number is no kept number.
    pub fn some_unkept(&self) -> bool
        ensures { result ≡ some_unkept self.now.count (number_in self.now.count self.now.bytes.now) }
    {
        (0..self.count).any(|i| !is_kept(self.at(i)))
    }

    // Writes the numbers to two slices, from their first place on.
    pub fn read(&self, side: &mut NumbersMut<'_>)
        requires { HasPlaces self.now.count (numbers_mut side.old) }
        ensures same { SameSlices side.old side.new }
        ensures read { numbers_mut side.new ≡ side_after self.now.count (number_in self.now.count self.now.bytes.now) (numbers_mut side.old) }
    {
        // By index: the numbers of a side stand in two slices, and in a file apart from one another.
        for i in 0..self.count {
            side.put(i, self.at(i));
        }
    }
}
