// Making a Sealed, and a Sealed as a value.
ghost use Rattle.std.specs.Prelude.{◌≡◌, Ok, refl};
ghost use Rattle.codec.specs.Seals.{sealed_check, sealed_bytes, sealed_read};
ghost use Rattle.codec.specs.Kept.{sealed_most};
ghost use Rattle.codec.specs.SealedOf.{sealed_octets, sealed_made, sealed_back};
ghost use Rattle.std.proofs.Common.{rules};

use super::{SEALED_MOST, Sealed};
use crate::fault::KindFault;
use crate::value::Value;

impl Sealed {
    // May these bytes be sealed? Refuses with 18 where they are more than the most.
    pub fn check(bytes: &[u8]) -> Result<(), KindFault>
        ensures { result ≡ sealed_check bytes.now }
    {
        if bytes.len() <= SEALED_MOST {
            Ok(())
        } else {
            Err(KindFault::NoValue)
        }
    }

    pub fn new(bytes: &[u8]) -> Sealed
        requires { sealed_check bytes.now ≡ Ok tt }
        ensures { sealed_bytes result ≡ bytes.now }
    {
        let len = bytes.len();
        let mut text = [0u8; SEALED_MOST];
        text[0..len].copy_from_slice(bytes);
        Sealed { len, text }
    }

    pub fn as_bytes(&self) -> &[u8]
        ensures { result.now ≡ sealed_bytes self.now }
    {
        &self.text[0..self.len]
    }
}

impl Value for Sealed {
    const MOST: usize = SEALED_MOST;

    ghost MOST = { sealed_most };

    ghost encoding = { sealed_bytes };

    ghost decoding = { sealed_read };

    ghost high = { Prim.search rules };

    ghost within = { Prim.search rules };

    ghost octets = { sealed_octets };

    ghost decodes = { λ v. sealed_made v _ _ refl refl };

    ghost accepted = { λ bs v u e. sealed_back v bs _ refl e };

    fn encode_size(&self) -> usize {
        self.len
    }

    fn encode(&self, out: &mut [u8]) -> usize {
        let n = self.len;
        out[0..n].copy_from_slice(&self.text[0..n]);
        n
    }

    fn decode(from: &[u8]) -> Option<Sealed> {
        if from.len() > SEALED_MOST {
            return None;
        }
        Some(Sealed::new(from))
    }
}
