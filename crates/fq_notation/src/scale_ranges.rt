//! The scales that ints may have, by those of the ints that they are made of.
ghost use Rattle.std.specs.Prelude.{◌≡◌, ◌≤◌, IfSome};
ghost use Rattle.fq_notation.specs.Scales.{between, common, is_possible, is_read_between, only, product, quotient, read_of_product, read_of_quotient, read_on, up_to};

use crate::scales::Scale;
use std::fmt;
use std::fmt::{Display, Formatter, Write};
use std::marker::Model;

/// The scales that ints may have: those from one to another, of 0 to 18 places, and the one that they have unless a name says another.
///
/// The ints of a column have one scale. A sum has a scale of both of its sides, a product the sum of its sides' scales, and a quotient their
/// difference, as the exact numeric types of SQL do.
#[derive(Clone, Copy, Debug, PartialEq, Eq)]
pub struct Scales {
    least: u8,
    most: u8,
    read: Option<u8>,
}

impl Model for Scales {
    ghost use Rattle.std.specs.Prelude.{◌≡◌, ◌≤◌, true};
    ghost use Rattle.fq_notation.specs.Scales.{ScaleRange, is_read_between};

    ghost Value = { ScaleRange };

    ghost view = { λ s. record { least = s.least; most = s.most; read = s.read } };

    ghost inverse = { λ v. record { least = v.least; most = v.most; read = v.read } };

    ghost invariant = { λ s. (s.least ≤ s.most) × (s.most ≤ 18) × (is_read_between s.least s.most s.read ≡ true) };
}

impl Scales {
    /// The most places.
    pub const MAX: u8 = 18;

    /// The scale of a column, and no other.
    pub fn only(scale: u8) -> Scales
        requires { scale ≤ 18 }
        ensures { result ≡ only scale }
    {
        Scales {
            least: scale,
            most: scale,
            read: Some(scale),
        }
    }

    /// The scale of a column of decimals, and no other.
    pub fn of(scale: Scale) -> Scales
        ensures { result ≡ only scale }
    {
        let places = scale.places() as u8;
        Scales {
            least: places,
            most: places,
            read: Some(places),
        }
    }

    /// The scales from 0 on of a number whose last digits may be places, so many of them: 100 may be 100, 10.0 or 1.00.
    pub fn up_to(most: u8) -> Scales
        requires { most ≤ 18 }
        ensures { result ≡ up_to most }
    {
        Scales {
            least: 0,
            most,
            read: None,
        }
    }

    /// The scale that the ints have unless a name says another; `None` where a name has to say it.
    pub fn read(self) -> Option<u8>
        ensures value { result ≡ self.read }
        ensures range { IfSome result (λ scale. scale ≤ 18) }
    {
        self.read
    }

    /// The least scale that the ints may have.
    pub fn least(self) -> u8
        ensures value { result ≡ self.least }
        ensures range { result ≤ 18 }
    {
        self.least
    }

    /// The greatest scale that the ints may have.
    pub fn most(self) -> u8
        ensures value { result ≡ self.most }
        ensures range { result ≤ 18 }
    {
        self.most
    }

    /// Whether the ints may have this scale.
    pub fn may_be(self, scale: u8) -> bool
        ensures { result ≡ is_possible self scale }
    {
        self.least <= scale && scale <= self.most
    }

    /// The scales of a sum, a difference or a remainder, and of numbers that are compared: those of both sides. `None` if there are none, or
    /// if what is read of one side is not that of the other.
    pub fn common(self, other: Scales) -> Option<Scales>
        ensures { result ≡ common self other }
    {
        let read = match (self.read, other.read) {
            (Some(left), Some(right)) => {
                if left != right {
                    return None;
                }
                Some(left)
            }
            (Some(left), None) => Some(left),
            (None, right) => right,
        };
        let least = self.least.max(other.least);
        let most = self.most.min(other.most);
        if let Some(scale) = read {
            if scale < least || scale > most {
                return None;
            }
        }
        if least > most {
            return None;
        }
        Some(Scales { least, most, read })
    }

    /// The scales of a product: the sums of one of each side. `None` if none of them is at most 18.
    pub fn product(self, other: Scales) -> Option<Scales>
        ensures { result ≡ product self other }
    {
        let least = self.least + other.least;
        let most = (self.most + other.most).min(Scales::MAX);
        if least > most {
            return None;
        }
        let read = match (self.read, other.read) {
            (Some(left), Some(right)) if left + right <= Scales::MAX => Some(left + right),
            _ => None,
        };
        Some(Scales { least, most, read })
    }

    /// The scales of a quotient: the differences of one of each side. `None` if none of them is at least 0.
    pub fn quotient(self, divisor: Scales) -> Option<Scales>
        ensures { result ≡ quotient self divisor }
    {
        if self.most < divisor.least {
            return None;
        }
        let least = self.least.saturating_sub(divisor.most);
        let most = self.most - divisor.least;
        let read = match (self.read, divisor.read) {
            (Some(left), Some(right)) if left >= right => Some(left - right),
            _ => None,
        };
        Some(Scales { least, most, read })
    }
}

impl Display for Scales {
    fn fmt<W: Write>(&self, f: &mut Formatter<W>) -> fmt::Result {
        let has = if self.read.is_some() {
            "has"
        } else {
            "may have"
        };
        write!(f, "{has} scale {}", self.least)?;
        for scale in self.least + 1..=self.most {
            let before = if scale == self.most { " or " } else { ", " };
            write!(f, "{before}{scale}")?;
        }
        Ok(())
    }
}
