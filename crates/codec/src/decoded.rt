// A kind of key that its bytes name: contracts can then speak of the key that stands in some bytes.
ghost use Rattle.std.specs.Prelude.{◌≡◌, ℕ, List, length};
ghost use Rattle.std.specs.Int.Digits.{AllBelowBase};
ghost use Rattle.codec.specs.Keys.{fingerprint_of, fitted_back, serial_back, serial_of};

use crate::fingerprint::Fingerprint;
use crate::key::Key;
use crate::serial::Serial;

pub trait DecodedKey: Key {
    // The key that a run of bytes of its width is; some key for any other list.
    ghost decoding: { List ℕ → Self };

    // Every run of bytes of that width is that key's.
    ghost decoded: { (bs : List ℕ) → length bs ≡ Self.WIDTH → AllBelowBase 256 bs → Self.bytes (decoding bs) ≡ bs };
}

impl DecodedKey for Serial {
    ghost decoding = { serial_of };

    ghost decoded = { serial_back };
}

impl DecodedKey for Fingerprint {
    ghost decoding = { fingerprint_of };

    ghost decoded = { λ bs l u. fitted_back 32 bs l u };
}
