// What stands for a number released.
ghost use Rattle.std.specs.Prelude.{◌≡◌, ℕ};
ghost use Rattle.noise.specs.Release.{released_number};
ghost use Rattle.bulletin.specs.Released.{place_of};

// A value that stands for a number released: the number itself, or a place of the ring or none.
pub trait AsReleased: Copy {
    // the number that it stands for
    ghost number: { Self → ℕ };

    // The place of the ring that the number is, or none.
    fn place(self) -> Option<u16>
        ensures { result ≡ place_of (number self) };
}

impl AsReleased for u32 {
    ghost number = { λ n. n };

    fn place(self) -> Option<u16> {
        u16::try_from(self).ok()
    }
}

impl AsReleased for Option<u16> {
    ghost number = { released_number };

    fn place(self) -> Option<u16> {
        self
    }
}
