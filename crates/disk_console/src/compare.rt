// Compares the entries of stores.
ghost use Rattle.std.specs.Prelude.{◌≡◌};
ghost use Rattle.std.specs.Bool.{Decides};
ghost use Rattle.disk_console.specs.Compare.{Same, SameEntries};

use store::Store;

// Whether two slices have so many places, and the same numbers in them.
#[tactic(auto, using(crate::proofs::Same::same_decides))]
fn same<T: PartialEq>(count: usize, a: &[T], b: &[T]) -> bool
    ensures { ((x y : T) → Decides (T.eq x y) (x ≡ y)) → Decides result (Same count a.now b.now) }
{
    if a.len() < count || b.len() < count {
        return false;
    }
    a[..count] == b[..count]
}

// The same of the slices of two stores.
pub(crate) fn same_entries(count: usize, a: &Store<'_>, b: &Store<'_>) -> bool
    ensures { Decides result (SameEntries count a.now b.now) }
{
    let low_significands = same(count, a.low_significands, b.low_significands);
    let high_significands = same(count, a.high_significands, b.high_significands);
    let low_exponents = same(count, a.low_exponents, b.low_exponents);
    let high_exponents = same(count, a.high_exponents, b.high_exponents);
    low_significands & high_significands & low_exponents & high_exponents
}
