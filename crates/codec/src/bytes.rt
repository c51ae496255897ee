// Numbers as bytes, the highest byte first, and filling a part of a slice.
ghost use Rattle.std.specs.Prelude.{◌≡◌, ℕ, ◌-◌, ◌≤◌, ◌++◌, length, take, drop, replicate};
ghost use Rattle.codec.specs.Bytes.{be, number};

// A number that a format writes, each by the same two definitions at its width.
pub trait Number: Sized {
    // How many bytes it takes.
    ghost width: { ℕ };

    ghost value: { Self → ℕ };

    fn put(self, out: &mut [u8])
        requires { length out.old ≡ width }
        ensures written { out.new ≡ be width (value self) }
        ensures back { number out.new ≡ value self };

    fn take(from: &[u8]) -> Self
        requires { length from.now ≡ width }
        ensures value { value result ≡ number from.now }
        ensures back { be width (value result) ≡ from.now };
}

// The three are alike word for word: an impl is not written by a macro here.
impl Number for u8 {
    ghost width = { 1 };

    ghost value = { λ n. n };

    fn put(self, out: &mut [u8]) {
        out.copy_from_slice(&u8::to_be_bytes(self));
    }

    fn take(from: &[u8]) -> u8 {
        u8::from_be_bytes(from.try_into().unwrap())
    }
}

impl Number for u32 {
    ghost width = { 4 };

    ghost value = { λ n. n };

    fn put(self, out: &mut [u8]) {
        out.copy_from_slice(&u32::to_be_bytes(self));
    }

    fn take(from: &[u8]) -> u32 {
        u32::from_be_bytes(from.try_into().unwrap())
    }
}

impl Number for u64 {
    ghost width = { 8 };

    ghost value = { λ n. n };

    fn put(self, out: &mut [u8]) {
        out.copy_from_slice(&u64::to_be_bytes(self));
    }

    fn take(from: &[u8]) -> u64 {
        u64::from_be_bytes(from.try_into().unwrap())
    }
}

// Fills the places from `from` to `to` with one item.
pub fn fill_part<T: Copy>(items: &mut [T], from: usize, to: usize, item: T)
    requires { (from ≤ to) × (to ≤ length items.old) }
    ensures { items.new ≡ take from items.old ++ (replicate (to - from) item ++ drop to items.old) }
{
    // Not `fill`: it asks that a clone cannot fail, which `Copy` does not say.
    for slot in &mut items[from..to] {
        *slot = item;
    }
}
