// Making a window, and a window as a value.
ghost use Rattle.std.specs.Prelude.{◌≡◌, Ok, refl};
ghost use Rattle.codec.specs.Windows.{window_check, window_bytes, window_read};
ghost use Rattle.codec.specs.Bytes.{be};
ghost use Rattle.codec.specs.Rounds.{under_be, under_append, number-be};
ghost use Rattle.codec.specs.WindowOf.{window_made, first_fits, end_fits, window_back};
ghost use Rattle.std.proofs.Common.{rules};

use super::Window;
use crate::bytes::Number;
use crate::fault::KindFault;
use crate::value::Value;

impl Window {
    // May a window have these days? Refuses with 18 where the first is not below the end.
    pub fn check(first: u64, end: u64) -> Result<(), KindFault>
        ensures { result ≡ window_check first end }
    {
        if first < end {
            Ok(())
        } else {
            Err(KindFault::NoValue)
        }
    }

    pub fn new(first: u64, end: u64) -> Window
        requires { window_check first end ≡ Ok tt }
        ensures first { result.first ≡ first }
        ensures end { result.end ≡ end }
    {
        Window { first, end }
    }

    pub fn first(&self) -> u64
        ensures { result ≡ self.now.first }
    {
        self.first
    }

    pub fn end(&self) -> u64
        ensures { result ≡ self.now.end }
    {
        self.end
    }
}

impl Value for Window {
    const MOST: usize = 16;

    ghost MOST = { 16 };

    ghost encoding = { window_bytes };

    ghost decoding = { window_read };

    ghost high = { Prim.search rules };

    ghost within = { Prim.search rules };

    ghost octets = { λ v. under_append (be 8 v.first) (be 8 v.end) (under_be 8 v.first) (under_be 8 v.end) };

    ghost decodes = { λ v. window_made v _ _ _ refl (number-be 8 v.first (first_fits v)) (number-be 8 v.end (end_fits v)) };

    ghost accepted = { window_back };

    fn encode_size(&self) -> usize {
        Self::MOST
    }

    fn encode(&self, out: &mut [u8]) -> usize {
        let Window { first, end } = *self;
        first.put(&mut out[0..8]);
        end.put(&mut out[8..16]);
        Self::MOST
    }

    fn decode(from: &[u8]) -> Option<Window> {
        if from.len() != 16 {
            return None;
        }
        let first = u64::take(&from[0..8]);
        let end = u64::take(&from[8..16]);
        if first < end {
            Some(Window { first, end })
        } else {
            None
        }
    }
}
