// The elements that z may be multiplied with.
ghost use Rattle.std.specs.Prelude.{IfOk};
ghost use Rattle.ff_list.specs.Searches.{AreSlopes};

use ff_alg::{FiniteField, NoMemory, is_zero};
use std::alloc::Global;

/// The elements of the field that are not 0, each once, by rising index.
pub fn slopes<K: FiniteField<E = u32>>(alloc: Global, k: &K) -> Result<Vec<u32>, NoMemory>
    ensures { IfOk result (λ r. AreSlopes (K.elements k.now) r.items) }
{
    let mut slopes = Vec::new(alloc);
    for i in 0..k.count() {
        let a = k.nth(i);
        if !is_zero(k, a) {
            slopes.push(a)?;
        }
    }
    Ok(slopes)
}
