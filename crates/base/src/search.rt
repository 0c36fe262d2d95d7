// The first and the last place of a range at which a test answers true. The caller gives the test as a closure; what each function promises
// holds for every definition `p` that says what the test answers. (A `for`, and no `find`: the closure that hands a place on to `test` would need a
// clause of its own, that `test` may be called there.)
ghost use Rattle.std.specs.Prelude.{◌≡◌, ℕ, Bool, ◌-◌, ◌<◌, ◌≤◌};
ghost use Rattle.std.specs.Option.{unwrap_or};
ghost use Rattle.base.specs.First.{first};
ghost use Rattle.base.specs.Last.{last_end};
ghost use Rattle.base.specs.LastPlace.{last};

// The first place from `a` up to `e` at which `test` answers true, or the later of `a` and `e`. (No `Option`: most callers ask where a run ends.)
pub fn first_place<F: Fn(usize) -> bool>(a: usize, e: usize, test: F) -> usize
    requires { (i : ℕ) → a ≤ i → i < e → F.pre test i }
    ensures { (p : ℕ → Bool) → ((i : ℕ) (r : Bool) → a ≤ i → i < e → F.post test i r → r ≡ p i) → result ≡ first p (e - a) a }
{
    for i in a..e {
        if test(i) {
            return i;
        }
    }
    a.max(e)
}

// The place after the last one from `a` up to `e` at which `test` answers true, or `a`. (Beside `last_place`: callers ask where what follows begins,
// which is a place in any case.)
pub fn after_last<F: Fn(usize) -> bool>(a: usize, e: usize, test: F) -> usize
    requires { (i : ℕ) → a ≤ i → i < e → F.pre test i }
    ensures { (p : ℕ → Bool) → ((i : ℕ) (r : Bool) → a ≤ i → i < e → F.post test i r → r ≡ p i) → result ≡ last_end p (e - a) a a }
{
    for i in (a..e).rev() {
        if test(i) {
            return i + 1;
        }
    }
    a
}

// The last place below `n` at which `test` answers true.
pub fn last_place<F: Fn(usize) -> bool>(n: usize, test: F) -> Option<usize>
    requires { (i : ℕ) → i < n → F.pre test i }
    ensures { (p : ℕ → Bool) → ((i : ℕ) (r : Bool) → i < n → F.post test i r → r ≡ p i) → (d : ℕ) → unwrap_or result d ≡ last p n d }
{
    for i in (0..n).rev() {
        if test(i) {
            return Some(i);
        }
    }
    None
}
