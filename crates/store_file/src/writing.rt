// Writes a store to a file.
ghost use Rattle.std.specs.Prelude.{◌≡◌, length};
ghost use Rattle.kept.specs.declared.Side.{Side};
ghost use Rattle.steps.specs.Inputs.{largest_pool};
ghost use Rattle.working.specs.Slices.{number_at};
ghost use Rattle.grounds.specs.Refusals.{refusal_number};
ghost use Rattle.grounds.specs.Grounds.{store_places, FileFormAccepted};
ghost use Rattle.planes.specs.Sides.{AllFit};
ghost use Rattle.store.specs.Stores.{lengths, side_of};
ghost use Rattle.store.specs.Lent.{contents};
ghost use Rattle.store_file.specs.Files.{file_of};
ghost use Rattle.store_file.specs.Calls.{write_refusal, WritesFile};

use super::side_places;
use grounds::{Refusal, ground, store_places};
use planes::{put_side, put_word, side_unkept};
use steps::Pool;
use store::Store;

// The refusal of a write to a file of so many bytes.
#[tactic(auto, unfolding(store::specs::Stores::lengths), using(grounds::specs::Grounds::Laws::store_places_lem))]
fn write_refusal(head: Pool, store: &Store<'_>, bytes: usize) -> Result<(), Refusal>
    ensures refusal { refusal_number result ≡ write_refusal head (contents store.now) bytes }
    ensures fits { refusal_number result ≡ 0
        → (side : Side) → AllFit (store_places head.assets) (number_at (side_of side (contents store.now))) }
{
    let count = side_places(head, bytes, store.lengths())?;
    let low = side_unkept(count, &store.low());
    let high = side_unkept(count, &store.high());
    ground(Refusal::UnkeptEntry, low | high)
}

// Writes the head of a file and both sides of a store.
#[tactic(auto, unfolding(store::specs::Stores::lengths), using(planes::specs::Sides::Laws::lengths, crate::specs::Calls::Rooms::file_places, grounds::specs::Grounds::Laws::store_places_lem))]
fn put_store(head: Pool, store: &Store<'_>, file: &mut [u8])
    requires { FileFormAccepted largest_pool head.assets head.probability head.correlation (length file.old) (lengths (contents store.now)) }
    ensures { file.new ≡ file_of head (contents store.now) }
{
    let count = store_places(head.assets);
    let probability = put_word(head.assets, 0, file);
    let correlation = put_word(head.probability, probability, file);
    let low = put_word(head.correlation, correlation, file);
    let high = put_side(count, &store.low(), low, file);
    put_side(count, &store.high(), high, file);
}

// Writes the file of a head and of the first (n+1)(n+2)/2 places of the slices.
pub fn write(head: Pool, store: &Store<'_>, file: &mut [u8]) -> Result<(), Refusal>
    ensures { WritesFile head (contents store.now) file.old file.new (refusal_number result) }
{
    write_refusal(head, store, file.len())?;
    put_store(head, store, file);
    Ok(())
}
