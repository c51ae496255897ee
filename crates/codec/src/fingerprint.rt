// 32 bytes as a key.
ghost use Rattle.std.specs.Prelude.{◌≡◌, true, length, refl};
ghost use Rattle.codec.specs.Bytes.{all_bytes};
ghost use Rattle.codec.specs.Rounds.{under_all, all_under};
ghost use Rattle.std.proofs.Common.{rules, arith};

use crate::key::Key;

#[derive(Clone, Copy, PartialEq, Eq)]
pub struct Fingerprint {
    pub digest: [u8; 32],
    ghost ok: { (length digest ≡ 32) × (all_bytes digest ≡ true) },
}

impl Key for Fingerprint {
    const WIDTH: usize = 32;

    ghost WIDTH = { 32 };

    ghost bytes = { λ f. f.digest };

    ghost low = { Prim.search rules };

    ghost high = { Prim.search rules };

    ghost sized = { Prim.search rules };

    ghost octets = { λ k. under_all k.digest k.ok.1 };

    ghost same = { Prim.grind (arith, Self.row.coded.inj) };

    ghost onto = { λ bs l u. (record { digest = bs; ok = (l, all_under bs u) }, refl) };

    fn encode(&self, out: &mut [u8]) {
        out.copy_from_slice(&self.digest);
    }

    fn decode(from: &[u8]) -> Fingerprint {
        Fingerprint {
            digest: from.try_into().unwrap(),
        }
    }
}
