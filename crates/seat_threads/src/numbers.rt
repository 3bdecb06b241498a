//! Lists of numbers.
ghost use Rattle.std.specs.Prelude.{◌≡◌, ℕ, ◌<◌, ◌+◌, ◌==◌, true, length, slice_index, IsTrue};
ghost use Rattle.std.specs.List.{list_any};

/// Whether each number is less than the next.
pub fn rises(numbers: &[u64]) -> bool
    ensures { IsTrue result → (i : ℕ) → i + 1 < length numbers.now → slice_index numbers.now i < slice_index numbers.now (i + 1) }
{
    for i in 1..numbers.len() {
        if numbers[i - 1] >= numbers[i] {
            return false;
        }
    }
    true
}

/// Whether the number is one of the list.
fn has(numbers: &[u64], wanted: u64) -> bool
    ensures { result ≡ list_any (λ m. m == wanted) numbers.now }
{
    numbers.iter().any(|n| *n == wanted)
}

/// Whether the numbers are those below `count`, each once, in any order.
pub fn each_once(numbers: &[u64], count: u64) -> bool
    ensures length { IsTrue result → length numbers.now ≡ count }
    ensures each { IsTrue result → (n : ℕ) → n < count → list_any (λ m. m == n) numbers.now ≡ true }
{
    if numbers.len() as u64 != count {
        return false;
    }
    for n in 0..count {
        if !has(numbers, n) {
            return false;
        }
    }
    true
}
