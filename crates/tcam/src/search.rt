// Searches among the places of a table or of a row, several places at once.
ghost use Rattle.std.specs.Prelude.{◌≡◌, ℕ, Bool, ◌+◌, ◌<◌, ◌≤◌, IfSome};
ghost use Rattle.tcam.specs.Searches.{any_between, BlockOf};

// How many places are asked before it is asked whether one was found.
const BLOCK: usize = 64;

// Whether one of `count` places from place `from` on has what is sought. The loop has no exit, so that
// several places are asked at once.
fn any_among<F: Fn(usize) -> bool>(from: usize, count: usize, has: &F) -> bool
    requires fits { from + count < 18446744073709551616 }
    requires callable { (j : ℕ) → from ≤ j → j < from + count → F.pre has.now j }
    ensures { (p : ℕ → Bool) → ((j : ℕ) (b : Bool) → from ≤ j → j < from + count → F.post has.now j b → b ≡ p j) → result ≡ any_between p from (from + count) }
{
    let mut found = false;
    for k in 0..count {
        found = has(from + k) | found;
    }
    found
}

// The first block of places, from place `from` up to place `to`, in which one has what is sought: where the
// block begins. That `from` is not behind `to` stays a clause: a struct of the two would be made for each call.
pub(crate) fn first_block<F: Fn(usize) -> bool>(from: usize, to: usize, has: &F) -> Option<usize>
    requires ordered { from ≤ to }
    requires callable { (j : ℕ) → from ≤ j → j < to → F.pre has.now j }
    ensures within { IfSome result (λ j. j < to) }
    ensures found { (p : ℕ → Bool) → ((j : ℕ) (b : Bool) → from ≤ j → j < to → F.post has.now j b → b ≡ p j) → BlockOf p from to result }
{
    for j in (from..to).step_by(BLOCK) {
        if any_among(j, BLOCK.min(to - j), has) {
            return Some(j);
        }
    }
    None
}
