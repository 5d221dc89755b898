// What a process's refusal tells, by the table of refusals.

ghost use Rattle.std.specs.Prelude.{◌≡◌};
ghost use Rattle.market.specs.Refusals.{process_told};

use market::ProcessRefusal;
use offers::{Layer, Refusal};

// Number, layer and place of a refusal. They are named here by the table, and not by what the refusal's own `told` says.
pub fn told_of(refusal: &ProcessRefusal) -> (u8, Layer, u64)
    ensures number { result.0 ≡ (process_told refusal.now).number }
    ensures layer { result.1 ≡ (process_told refusal.now).layer }
    ensures place { result.2 ≡ (process_told refusal.now).place }
{
    (refusal.number(), refusal.layer(), refusal.place())
}
