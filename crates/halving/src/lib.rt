// A search by halving over any test of a place, for lists that are no slices of their rows: std's `partition_point`, with its answer also where the
// test changes more than once. The test is a trait and no closure, since what takes a closure has to ask of its caller that it may be called.
#![tactic(auto)]

ghost use Rattle.std.specs.Prelude.{◌≡◌, Bool, ℕ, ◌≤◌, ◌<◌};
ghost use Rattle.wire.specs.Halving.{halve};

// What a search halves: so many places, and a test of each.
pub trait Halved {
    ghost many: { Self → ℕ };

    ghost holds: { Self → ℕ → Bool };

    fn count(&self) -> usize
        ensures { result ≡ many self.now };

    fn test(&self, i: usize) -> bool
        requires { i < many self.now }
        ensures { result ≡ holds self.now i };
}

// The place, of all, at which the test changes from true to false.
pub fn partition_point<T: Halved>(places: &T) -> usize
    ensures within { result ≤ T.many places.now }
    ensures found { result ≡ halve (T.many places.now) (T.holds places.now) 0 (T.many places.now) }
{
    let mut low: usize = 0;
    let mut high = places.count();
    while low < high {
        let mid = low + (high - low) / 2;
        if places.test(mid) {
            low = mid + 1;
        } else {
            high = mid;
        }
    }
    low
}
