// Numbers in rising order, by index.
ghost use Rattle.std.specs.Prelude.{◌≡◌, ℕ, ◌<◌, List, length, get_or};
ghost use Rattle.split.specs.Directory.{Rising, before};

pub trait Sorted {
    ghost numbers: { Self → List ℕ };

    fn count(&self) -> usize
        ensures { result ≡ length (numbers self.now) };

    fn number(&self, at: usize) -> u64
        requires { at < length (numbers self.now) }
        ensures { result ≡ get_or (numbers self.now) at 0 };

    ghost rise: { (s : Self) → Rising 0 (numbers s) };

    // How many stand before a bound, by halving. Not `partition_point`: a section's records are bytes, no slice of items.
    final fn before(&self, bound: u64) -> usize
        ensures { result ≡ before bound (numbers self.now) }
    {
        let mut low = 0;
        let mut high = self.count();
        while low < high {
            let middle = low + (high - low) / 2;
            if self.number(middle) < bound {
                low = middle + 1;
            } else {
                high = middle;
            }
        }
        low
    }
}
