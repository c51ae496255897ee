// How far a section grows.
ghost use Rattle.std.specs.Prelude.{◌≡◌, ◌*◌, ◌^◌, ◌<◌, ◌≤◌};
ghost use Rattle.journal.specs.Rows.{in_limits};

// No size of a section's records, and no end of its stored values, passes this.
const LIMIT: u64 = 1 << 63;

// Does a section of so many rows and stored bytes stay within the limit with one record and one stored value more?
pub fn in_limits(rows: u64, bytes: u64, size: u64, stored: u64) -> bool
    requires counted { rows * size < 2 ^ 64 }
    requires small { (size ≤ 92) × (stored ≤ 4100) }
    ensures { result ≡ in_limits size rows bytes stored }
{
    rows * size <= LIMIT - size && bytes <= LIMIT - stored
}
