// Reads a store from a file.
ghost use Rattle.std.specs.Prelude.{◌≡◌, [], ◌∷◌, length, IfOk, IfErr};
ghost use Rattle.grounds.specs.Refusals.{refusal_number};
ghost use Rattle.grounds.specs.Grounds.{first_ground, short_file_ground};
ghost use Rattle.store.specs.Lent.{contents_mut, SameStore};
ghost use Rattle.store_file.specs.Files.{head_in, store_with};
ghost use Rattle.store_file.specs.Calls.{read_refusal, ReadsFile};

use super::side_places;
use grounds::{Refusal, ground};
use planes::{FileSide, word_at};
use refusals::FILE_HEAD;
use steps::Pool;
use store::{Filled, StoreMut};
use working::NumbersMut;

// The head of a file, or the refusal of one that is too short for a head.
#[tactic(auto, unfolding(grounds::specs::Grounds::first_ground, grounds::specs::Grounds::short_file_ground, crate::specs::Files::head_in), using(grounds::specs::Grounds::Laws::first_last))]
fn head_in(file: &[u8]) -> Result<Pool, Refusal>
    ensures refusal { refusal_number result ≡ first_ground (short_file_ground (length file.now) ∷ []) }
    ensures head { IfOk result (λ head. head ≡ head_in file.now) }
{
    if file.len() < FILE_HEAD {
        return Err(Refusal::FileLength);
    }
    Ok(Pool {
        assets: word_at(1, file, 0),
        probability: word_at(1, &file[4..], 0),
        correlation: word_at(1, &file[8..], 0),
    })
}

// Writes what an accepted file holds to the first (n+1)(n+2)/2 places of the slices, and gives its head. Every entry is checked before
// the first is written.
#[tactic(auto, unfolding(store::specs::Stores::store, store::specs::Stores::lengths), using(crate::specs::Calls::Rooms::file_places, grounds::specs::Grounds::Laws::store_places_lem))]
fn read_store(file: &[u8], store: &mut StoreMut<'_>) -> Result<Pool, Refusal>
    ensures same { SameStore store.old store.new }
    ensures refusal { refusal_number result ≡ read_refusal file.now (contents_mut store.old) }
    ensures head { IfOk result (λ head. head ≡ head_in file.now) }
    ensures filled { IfOk result (λ head. contents_mut store.new ≡ store_with file.now (contents_mut store.old)) }
    ensures untouched { IfErr result (λ refusal. contents_mut store.new ≡ contents_mut store.old) }
{
    let head = head_in(file)?;
    let count = side_places(head, file.len(), store.lengths())?;
    let low = FileSide {
        count,
        bytes: &file[FILE_HEAD..],
    };
    let high = FileSide {
        count,
        bytes: &file[FILE_HEAD + 8 * count..],
    };
    ground(Refusal::UnkeptEntry, low.some_unkept() | high.some_unkept())?;
    let mut low_numbers = NumbersMut {
        significands: &mut store.low_significands[..],
        exponents: &mut store.low_exponents[..],
    };
    low.read(&mut low_numbers);
    let mut high_numbers = NumbersMut {
        significands: &mut store.high_significands[..],
        exponents: &mut store.high_exponents[..],
    };
    high.read(&mut high_numbers);
    Ok(head)
}

// Reads a store from a file, and hands back the file's head; on a refusal the head that came.
pub fn read(head: Pool, file: &[u8], store: &mut StoreMut<'_>) -> Filled<Result<(), Refusal>>
    ensures same { SameStore store.old store.new }
    ensures reads { ReadsFile head file.now
        (contents_mut store.old)
        (contents_mut store.new)
        (refusal_number result.answer)
        result.head }
{
    match read_store(file, store) {
        Ok(stored) => Filled {
            answer: Ok(()),
            head: stored,
        },
        Err(refusal) => Filled {
            answer: Err(refusal),
            head,
        },
    }
}
