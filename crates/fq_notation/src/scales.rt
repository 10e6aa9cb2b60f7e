//! How many places decimals have behind their point.
ghost use Rattle.std.specs.Prelude.{◌≡◌, ◌≤◌};
ghost use Rattle.std.specs.Option.{SomeIff};

use std::marker::Model;

/// How many places the decimals of a column have behind their point: from 1 to 18.
///
/// A decimal of 18 places is an int of 64 bits if it lies from -9.22.. to 9.22.., so more places would leave room for no whole number but 0.
#[derive(Clone, Copy, Debug, PartialEq, Eq)]
pub struct Scale {
    places: u8,
}

impl Model for Scale {
    ghost use Rattle.std.specs.Prelude.{ℕ, ◌≤◌};

    ghost Value = { ℕ };

    ghost view = { λ s. s.places };

    ghost inverse = { λ n. record { places = n } };

    ghost invariant = { λ s. (1 ≤ s.places) × (s.places ≤ 18) };
}

impl Scale {
    /// The fewest places.
    pub const MIN: u8 = 1;

    /// The most places.
    pub const MAX: u8 = 18;

    /// The scale of this many places; `None` if they are not 1 to 18.
    pub fn new(places: u8) -> Option<Scale>
        ensures { SomeIff result ((1 ≤ places) × (places ≤ 18)) places }
    {
        if places < Scale::MIN || places > Scale::MAX {
            return None;
        }
        Some(Scale { places })
    }

    /// The number of places.
    pub fn places(self) -> usize
        ensures value { result ≡ self }
        ensures range { (1 ≤ result) × (result ≤ 18) }
    {
        usize::from(self.places)
    }
}
