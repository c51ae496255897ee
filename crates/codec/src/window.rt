// The days on which a serial may be used: from the first day, and no longer on the end day.
ghost use Rattle.std.specs.Prelude.{◌≡◌, true};
ghost use Rattle.codec.specs.Kept.{in_order};

pub mod value;

#[derive(Clone, Copy, PartialEq, Eq, Debug)]
pub struct Window {
    first: u64,
    end: u64,
    ghost ok: { in_order first end ≡ true },
}
