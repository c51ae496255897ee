// Numbers as bytes, and what a kind of key and a kind of value are.
#![tactic(auto)]

mod bytes;
mod decoded;
mod fault;
mod fingerprint;
mod key;
mod sealed;
mod serial;
#[cfg(test)]
mod tests;
mod value;
mod window;

pub use bytes::{Number, fill_part};
pub use decoded::DecodedKey;
pub use fault::KindFault;
pub use fingerprint::Fingerprint;
pub use key::{Key, same_key};
pub use sealed::Sealed;
pub use serial::Serial;
pub use value::Value;
pub use window::Window;
