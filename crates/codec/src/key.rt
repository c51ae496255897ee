// A kind of key.
ghost use Rattle.std.specs.Prelude.{◌≡◌, ℕ, ◌≤◌, List, length, Decides};
ghost use Rattle.std.specs.Int.Digits.{AllBelowBase};
ghost use Rattle.std.specs.Str.{bytes_eq};

pub trait Key: Sized {
    // How many bytes a key has.
    const WIDTH: usize;

    ghost WIDTH: { ℕ };

    ghost bytes: { Self → List ℕ };

    fn encode(&self, out: &mut [u8])
        requires { length out.old ≡ WIDTH }
        ensures { out.new ≡ bytes self.now };

    fn decode(from: &[u8]) -> Self
        requires { length from.now ≡ WIDTH }
        ensures { bytes result ≡ from.now };

    ghost low: { 1 ≤ WIDTH };

    ghost high: { WIDTH ≤ 64 };

    ghost sized: { (k : Self) → length (bytes k) ≡ WIDTH };

    ghost octets: { (k : Self) → AllBelowBase 256 (bytes k) };

    // Keys of the same bytes are the same key.
    ghost same: { (j k : Self) → bytes j ≡ bytes k → j ≡ k };

    // Every run of bytes of that width is some key's.
    ghost onto: { (bs : List ℕ) → length bs ≡ WIDTH → AllBelowBase 256 bs → (k : Self) × (bytes k ≡ bs) };
}

// Whether two keys are the same: true exactly when all their bytes are equal. Not `==`: a kind of key owes no `Eq`, and
// would owe a law that its `==` is this.
pub fn same_key<K: Key>(a: &K, b: &K) -> bool
    ensures bytes { result ≡ bytes_eq (K.Key.bytes a.now) (K.Key.bytes b.now) }
    ensures key { Decides result (a.now ≡ b.now) }
{
    let width = K::WIDTH;
    let mut left = [0u8; 64];
    let mut right = [0u8; 64];
    a.encode(&mut left[0..width]);
    b.encode(&mut right[0..width]);
    left[0..width] == right[0..width]
}
