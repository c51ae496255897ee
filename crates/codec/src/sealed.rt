// A sealed secret or a certificate: bytes as they are.
ghost use Rattle.codec.specs.Kept.{Padded};

pub mod value;

// The most bytes of a Sealed.
pub const SEALED_MOST: usize = 512;

// No heap, and a fixed size: an array with its length beside it, zeros behind, so that equal bytes are equal values.
#[derive(Clone, Copy)]
pub struct Sealed {
    len: usize,
    text: [u8; SEALED_MOST],
    ghost ok: { Padded len text },
}
