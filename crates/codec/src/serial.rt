// A number as a key.
ghost use Rattle.std.specs.Prelude.{ℕ, ◌^◌, ◌<◌};
ghost use Rattle.codec.specs.Bytes.{be, number};
ghost use Rattle.codec.specs.Rounds.{under_be, be_same, be_back, number_lt};
ghost use mathlib.Core.HLevel.{is_prop→PathP};
ghost use Rattle.std.proofs.Math.Bridge.{le_prop};
ghost use Rattle.std.proofs.Common.{subst, rules};

use crate::bytes::Number;
use crate::key::Key;

#[derive(Clone, Copy, PartialEq, Eq, Debug)]
pub struct Serial {
    pub value: u64,
    ghost ok: { value < 2 ^ 64 },
}

impl Key for Serial {
    const WIDTH: usize = 8;

    ghost WIDTH = { 8 };

    ghost bytes = { λ s. be 8 s.value };

    ghost low = { Prim.search rules };

    ghost high = { Prim.search rules };

    ghost sized = { Prim.search rules };

    ghost octets = { λ k. under_be 8 k.value };

    ghost same = { λ j k e.
        let v = be_same 8 j.value k.value j.ok k.ok e in
        λ i. record { value = v i; ok = is_prop→PathP (λ i. v i < 2 ^ 64) (λ i. le_prop) j.ok k.ok i } };

    ghost onto = { λ bs l u. (
      record { value = number bs; ok = subst (λ (n : ℕ). number bs < 256 ^ n) l (number_lt bs u) },
      be_back 8 bs l u,
    ) };

    fn encode(&self, out: &mut [u8]) {
        self.value.put(out);
    }

    fn decode(from: &[u8]) -> Serial {
        Serial {
            value: u64::take(from),
        }
    }
}
