// The search by halves: for sets and records, for shelves and for entities.
ghost use Rattle.std.specs.Prelude.{◌≡◌, ℕ, ◌+◌, ◌-◌, ◌<◌, ◌≤◌, IfOk, IfErr};
ghost use Rattle.std.specs.declared.cmp.Ordering.TheVariants.{Less, Equal, Greater};

use std::cmp::Ordering;

// Where something is among `count` things in order, or where it belongs: `compare` says how it stands to the one at a place.
// By hand: what is searched lies in no slice, and std's binary_search_by asks that its closure may be called at any number.
pub fn binary_search<F: Fn(usize) -> Ordering>(count: usize, compare: F) -> Result<usize, usize>
    requires { (k : ℕ) → k < count → F.pre compare k }
    ensures found { IfOk result (λ k. (k < count) × F.post compare k Equal) }
    ensures absent { IfErr result (λ k. (k ≤ count) × (k < count → F.post compare k Less) × (0 < k → F.post compare (k - 1) Greater)) }
{
    let mut low = 0;
    let mut high = count;
    while low < high {
        let middle = low + (high - low) / 2;
        match compare(middle) {
            Ordering::Less => high = middle,
            Ordering::Equal => return Ok(middle),
            Ordering::Greater => low = middle + 1,
        }
    }
    Err(low)
}
