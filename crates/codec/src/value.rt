// A kind of value.
ghost use Rattle.std.specs.Prelude.{◌≡◌, ℕ, ◌≤◌, List, ◌++◌, length, drop, Some, Option};
ghost use Rattle.std.specs.Int.Digits.{AllBelowBase};

pub trait Value: Sized {
    // The most bytes that a value encodes to.
    const MOST: usize;

    ghost MOST: { ℕ };

    ghost encoding: { Self → List ℕ };

    ghost decoding: { List ℕ → Option Self };

    fn encode_size(&self) -> usize
        ensures { result ≡ length (encoding self.now) };

    // Writes the encoding to the front, and answers how many bytes that is.
    fn encode(&self, out: &mut [u8]) -> usize
        requires { length (encoding self.now) ≤ length out.old }
        ensures count { result ≡ length (encoding self.now) }
        ensures written { out.new ≡ encoding self.now ++ drop (length (encoding self.now)) out.old };

    // The value that bytes encode, or none where they are no value of this kind.
    fn decode(from: &[u8]) -> Option<Self>
        ensures { result ≡ decoding from.now };

    ghost high: { MOST ≤ 4096 };

    ghost within: { (v : Self) → length (encoding v) ≤ MOST };

    ghost octets: { (v : Self) → AllBelowBase 256 (encoding v) };

    // Decoding an encoding gives the value.
    ghost decodes: { (v : Self) → decoding (encoding v) ≡ Some v };

    // Bytes that are accepted encode to themselves.
    ghost accepted: { (bs : List ℕ) (v : Self) → AllBelowBase 256 bs → decoding bs ≡ Some v → encoding v ≡ bs };
}
