// Each call with the page of demands for its contract. Nothing is added to the calls: that these functions are proved shows that the
// contracts in their source imply the page.
#![tactic(auto)]

ghost use Rattle.std.specs.Prelude.{◌≡◌, ℕ, length};
ghost use Rattle.grounds.specs.Grounds.{first_ground, row_grounds};
ghost use Rattle.grounds.specs.Refusals.{refusal_number};
ghost use Rattle.pool.specs.Demands.{BetaColumnDemands, BetaTranchesDemands};
ghost use Rattle.pool.specs.Demands.{FillDemands, RowDemands, ColumnDemands, ShiftDemands, TranchesDemands, LayerDemands, loss_told, CheckDemands, ScreenColumnDemands, ScreenTranchesDemands, DeskDemands, WriteDemands, ReadDemands};
ghost use Rattle.store.specs.Lent.{SameStore};
ghost use Rattle.demands.specs.Lent.{lent_in, lent_in_mut};

use desk::{DeskRow, Request};
use pool::{Answer, Filled, Loss, Pool, Refusal, Store, StoreMut, TRANCHES, Tranche};

pub fn fill(pool: Pool, head: Pool, store: &mut StoreMut<'_>) -> Filled<Result<(), Refusal>>
    ensures same { SameStore store.old store.new }
    ensures demands { FillDemands pool head
        (lent_in_mut store.old)
        (lent_in_mut store.new)
        (refusal_number result.answer)
        result.head }
{
    pool::fill(pool, head, store)
}

#[tactic(auto, unfolding(store::specs::Calls::row_refusal, steps::specs::Inputs::largest_pool), using(pool::proofs::Demands::Theorems::row_meets))]
pub fn row(n: u32, k: u32, significands: &[u32]) -> &[u32]
    ensures { (refusal : ℕ) → refusal ≡ first_ground (row_grounds 100 n k (length significands.now)) → RowDemands n k significands.now result.now refusal }
{
    pool::row(n, k, significands)
}

#[tactic(auto, unfolding(store::specs::Calls::row_refusal, steps::specs::Inputs::largest_pool))]
pub fn row_refusal(n: u32, k: u32, significands: &[u32]) -> Result<(), Refusal>
    ensures { refusal_number result ≡ first_ground (row_grounds 100 n k (length significands.now)) }
{
    pool::row_refusal(n, k, significands)
}

pub fn column(
    pool: Pool,
    head: Pool,
    store: &mut StoreMut<'_>,
    units: &mut [u32],
) -> Filled<Result<(), Refusal>>
    ensures same { SameStore store.old store.new }
    ensures demands { ColumnDemands pool head
        (lent_in_mut store.old)
        (lent_in_mut store.new)
        units.old
        units.new
        (refusal_number result.answer)
        result.head }
{
    pool::column(pool, head, store, units)
}

pub fn shift_list(
    pool: Pool,
    head: Pool,
    store: &mut StoreMut<'_>,
    shifts: &mut [i32],
) -> Filled<Result<(), Refusal>>
    ensures same { SameStore store.old store.new }
    ensures demands { ShiftDemands pool head
        (lent_in_mut store.old)
        (lent_in_mut store.new)
        shifts.old
        shifts.new
        (refusal_number result.answer)
        result.head }
{
    shift::shift_list(pool, head, store, shifts)
}

pub fn tranche_losses(
    pool: Pool,
    head: Pool,
    tranches: [Tranche; TRANCHES],
    count: u32,
    store: &mut StoreMut<'_>,
) -> Filled<Answer>
    ensures same { SameStore store.old store.new }
    ensures demands { TranchesDemands pool head tranches count
        (lent_in_mut store.old)
        (lent_in_mut store.new)
        result.answer
        result.head }
{
    pool::tranche_losses(pool, head, tranches, count, store)
}

pub fn check_column(
    pool: Pool,
    head: Pool,
    claims: &[u32],
    store: &mut StoreMut<'_>,
) -> Filled<Result<Option<u32>, Refusal>>
    ensures same { SameStore store.old store.new }
    ensures demands { CheckDemands pool head
        claims.now
        (lent_in_mut store.old)
        (lent_in_mut store.new)
        result.answer
        result.head }
{
    column_check::check_column(pool, head, claims, store)
}

pub fn layer_loss(
    pool: Pool,
    head: Pool,
    i: u32,
    j: u32,
    store: &mut StoreMut<'_>,
) -> Filled<Result<Loss, Refusal>>
    ensures same { SameStore store.old store.new }
    ensures demands { LayerDemands pool head i j
        (lent_in_mut store.old)
        (lent_in_mut store.new)
        result.answer
        result.head }
{
    pool::layer_loss(pool, head, i, j, store)
}

pub fn loss_or_untouched(answer: Result<Loss, Refusal>) -> Loss
    ensures { result ≡ loss_told answer }
{
    pool::loss_or_untouched(answer)
}

pub fn desk_read(head: Pool, request: Request, ceiling: u32, store: &Store<'_>) -> DeskRow
    ensures { DeskDemands request.probability request.correlation request.row ceiling head
        (lent_in store.now)
        (refusal_number result.outcome)
        result.low
        result.high }
{
    desk::read(head, request, ceiling, store)
}

pub fn write_file(head: Pool, store: &Store<'_>, file: &mut [u8]) -> Result<(), Refusal>
    ensures { WriteDemands head (lent_in store.now) file.old file.new (refusal_number result) }
{
    store_file::write(head, store, file)
}

pub fn read_file(head: Pool, file: &[u8], store: &mut StoreMut<'_>) -> Filled<Result<(), Refusal>>
    ensures same { SameStore store.old store.new }
    ensures demands { ReadDemands head file.now
        (lent_in_mut store.old)
        (lent_in_mut store.new)
        (refusal_number result.answer)
        result.head }
{
    store_file::read(head, file, store)
}

pub fn screen_column(
    pool: Pool,
    head: Pool,
    store: &mut StoreMut<'_>,
    units: &mut [u32],
) -> Filled<Result<(), Refusal>>
    ensures same { SameStore store.old store.new }
    ensures demands { ScreenColumnDemands pool head
        (lent_in_mut store.old)
        (lent_in_mut store.new)
        units.old
        units.new
        (refusal_number result.answer)
        result.head }
{
    screen::column(pool, head, store, units)
}

pub fn screen_tranche_losses(
    pool: Pool,
    head: Pool,
    tranches: [Tranche; TRANCHES],
    count: u32,
    store: &mut StoreMut<'_>,
) -> Filled<Answer>
    ensures same { SameStore store.old store.new }
    ensures demands { ScreenTranchesDemands pool head tranches count
        (lent_in_mut store.old)
        (lent_in_mut store.new)
        result.answer
        result.head }
{
    screen::tranche_losses(pool, head, tranches, count, store)
}

pub fn beta_column(pool: Pool, units: &mut [u32]) -> Result<(), Refusal>
    ensures { BetaColumnDemands pool units.old units.new (refusal_number result) }
{
    beta_binomial::column(pool, units)
}

pub fn beta_tranche_losses(pool: Pool, tranches: [Tranche; TRANCHES], count: u32) -> Answer
    ensures { BetaTranchesDemands pool tranches count result }
{
    beta_binomial::tranche_losses(pool, tranches, count)
}
