// The numbers that a table is cut at.
ghost use Rattle.std.specs.Prelude.{◌≡◌, ◌<◌, true, length};
ghost use Rattle.roll.specs.Lists.{listed};
ghost use Rattle.query.specs.Lines.{rises};

use roll::UpTo;

mod reading;

// 1 to 63 cuts, each above the one before.
#[derive(Clone, Copy)]
pub struct Cuts {
    cuts: UpTo<u8, 63>,
    ghost some: { 0 < length (listed cuts) },
    ghost rising: { rises 0 (listed cuts) ≡ true },
}
