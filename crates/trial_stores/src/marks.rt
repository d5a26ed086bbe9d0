// Arrays that hold random words.
use trial_support::{START, next};

// Which words: a seed, and the places from one to before another that stay as they are.
#[derive(Clone, Copy, Debug, PartialEq, Eq)]
pub struct Marks {
    pub seed: u32,
    pub from: usize,
    pub to: usize,
}

pub fn natural(word: u64) -> u32 {
    (word % 0x1_0000_0000) as u32
}

// The difference of the last 31 bits of either half.
pub fn integer(word: u64) -> i32 {
    (word % 0x8000_0000) as i32 - ((word >> 32) % 0x8000_0000) as i32
}

impl Marks {
    fn first_word(self, array: u32) -> u64 {
        next(next(START ^ (u64::from(self.seed) * 4 + u64::from(array % 4))))
    }

    // Puts numbers in the places of an array, each made of a random word.
    pub fn put<T: Drop, F: Fn(u64) -> T>(self, array: u32, places: &mut [T], number_of: F)
        requires { F.IsAlwaysCallable number_of }
    {
        let mut word = self.first_word(array);
        for (i, place) in places.iter_mut().enumerate() {
            word = next(word);
            if i < self.from || self.to <= i {
                *place = number_of(word);
            }
        }
    }
}
