// What an item of one list becomes in another.
ghost use Rattle.std.specs.Prelude.{◌≡◌};

/// A type whose values are made of those of another, by one function and without memory of its own.
pub trait MadeOf<U>: Sized {
    // the value that is made
    ghost make: { U → Self };

    /// The value that is made of the other.
    fn made(of: U) -> Self
        ensures { result ≡ make of };
}
