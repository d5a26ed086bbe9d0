// Writes numbers to a file. A function put_.. writes from a place on and answers with the place after it: the file is a lent slice of
// its exact length, to which nothing can be appended.
ghost use Rattle.std.specs.Prelude.{◌<◌, ◌≡◌, false, [], ◌∷◌, map};
ghost use Rattle.working.specs.Slices.{number_at, HasPlaces};
ghost use Rattle.working.specs.Lent.{numbers};
ghost use Rattle.buffer.specs.Stores.{HasRoom, Puts};
ghost use Rattle.grounds.specs.Grounds.{some_unkept};
ghost use Rattle.planes.specs.Planes.{byte_of, planes, laid};
ghost use Rattle.planes.specs.Sides.{array_of, side_arrays, AllFit};

use super::words::{Part, is_kept, word_of};
use buffer::put_byte;
use working::Numbers;

// Whether some of the first so many numbers of a side is no kept number.
pub fn side_unkept(count: usize, side: &Numbers<'_>) -> bool
    requires { HasPlaces count (numbers side.now) }
    ensures value { result ≡ some_unkept count (number_at (numbers side.now)) }
    ensures all_fit { result ≡ false → AllFit count (number_at (numbers side.now)) }
{
    (0..count).any(|i| !is_kept(side.at(i)))
}

// A number on its own.
#[tactic(auto, using(crate::specs::Sides::Laws::lengths))]
pub fn put_word(word: u32, at: usize, file: &mut [u8]) -> usize
    requires { HasRoom (planes (word ∷ [])) at file.old }
    ensures { Puts (planes (word ∷ [])) at file.old file.new result }
{
    let next = at + 4;
    file[at..next].copy_from_slice(&word.to_le_bytes());
    next
}

// Byte k of one part of the first so many numbers of a side.
#[tactic(auto, using(crate::specs::Sides::Laws::lengths, crate::specs::Sides::Laws::plane_none))]
fn put_plane(
    part: Part,
    k: usize,
    count: usize,
    side: &Numbers<'_>,
    at: usize,
    file: &mut [u8],
) -> usize
    requires of_a_word { k < 4 }
    requires has_places { HasPlaces count (numbers side.now) }
    requires has_room { HasRoom (map (byte_of k) (array_of part count (number_at (numbers side.now)))) at file.old }
    ensures { Puts (map (byte_of k) (array_of part count (number_at (numbers side.now)))) at file.old file.new result }
{
    let mut next = at;
    // By index: the numbers of a side stand in two slices.
    for i in 0..count {
        let word = word_of(part, side.at(i));
        next = put_byte(file, next, word.to_le_bytes()[k]);
    }
    next
}

// One part of them in planes.
#[tactic(auto, unfolding(crate::specs::Sides::Laws::first_planes), using(crate::specs::Sides::Laws::lengths, buffer::specs::Stores::puts_none))]
fn put_part(part: Part, count: usize, side: &Numbers<'_>, at: usize, file: &mut [u8]) -> usize
    requires has_places { HasPlaces count (numbers side.now) }
    requires has_room { HasRoom (planes (array_of part count (number_at (numbers side.now)))) at file.old }
    ensures { Puts (planes (array_of part count (number_at (numbers side.now)))) at file.old file.new result }
{
    let mut next = at;
    for k in 0..4 {
        next = put_plane(part, k, count, side, next, file);
    }
    next
}

// The first so many numbers of a side.
#[tactic(auto, using(crate::specs::Sides::Laws::lengths))]
pub fn put_side(count: usize, side: &Numbers<'_>, at: usize, file: &mut [u8]) -> usize
    requires has_places { HasPlaces count (numbers side.now) }
    requires has_room { HasRoom (laid (side_arrays count (number_at (numbers side.now)))) at file.old }
    ensures { Puts (laid (side_arrays count (number_at (numbers side.now)))) at file.old file.new result }
{
    let next = put_part(Part::Significand, count, side, at, file);
    put_part(Part::Exponent, count, side, next, file)
}
