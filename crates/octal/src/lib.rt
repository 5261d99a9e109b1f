// The field of eight elements u + aα + sα² over the bits, where α³ = α + 1, as a crate above `algebra` would add a field of its own:
// it shows the laws, and all that is proved of elimination holds over it.
#![tactic(auto)]

ghost use Rattle.std.specs.Prelude.{◌≡◌, ℕ, length};
ghost use Rattle.fields.specs.Bit.{bit_ops};
ghost use Rattle.algebra.specs.Grid.{Fits};
ghost use Rattle.algebra.specs.Reduced.{Solved};
ghost use Rattle.algebra.specs.Theorems.{FieldsAgree};
ghost use Rattle.octal.specs.Octal.{octal_ops, octal_laws};

use algebra::Grid;
use algebra::theorems::fields_agree_stands;
use fields::{Bit, Field};

/// An element of the field of eight, by its three coefficients: bools, as in a bit, for the compiler to add by vectors.
#[derive(Clone, Copy, Debug, PartialEq, Eq, Hash)]
pub struct Octal {
    unit: bool,
    alpha: bool,
    square: bool,
}

impl Field for Octal {
    const SIZE: u8 = 8;

    ghost ops = { octal_ops };

    ghost laws = { octal_laws };

    fn zero() -> Octal {
        Octal {
            unit: false,
            alpha: false,
            square: false,
        }
    }

    fn one() -> Octal {
        Octal {
            unit: true,
            alpha: false,
            square: false,
        }
    }

    fn add(self, other: Octal) -> Octal {
        Octal {
            unit: self.unit ^ other.unit,
            alpha: self.alpha ^ other.alpha,
            square: self.square ^ other.square,
        }
    }

    // α³ = α + 1 and α⁴ = α² + α
    fn mul(self, other: Octal) -> Octal {
        let third = (self.alpha & other.square) ^ (self.square & other.alpha);
        let fourth = self.square & other.square;
        let first = (self.unit & other.alpha) ^ (self.alpha & other.unit);
        let second = (self.unit & other.square)
            ^ (self.alpha & other.alpha)
            ^ (self.square & other.unit);
        Octal {
            unit: (self.unit & other.unit) ^ third,
            alpha: first ^ third ^ fourth,
            square: second ^ fourth,
        }
    }

    // each element but zero is one at the seventh power, so its sixth power is its inverse
    fn inv(self) -> Octal {
        let square = self.mul(self);
        square.mul(square.mul(square))
    }

    fn code(self) -> u8 {
        4 * u8::from(self.square) + 2 * u8::from(self.alpha) + u8::from(self.unit)
    }

    fn from_code(code: u8) -> Option<Octal> {
        (code < Self::SIZE).then_some(Octal {
            unit: code % 2 == 1,
            alpha: code / 2 % 2 == 1,
            square: code / 4 == 1,
        })
    }

    fn order() -> u8 {
        Self::SIZE
    }
}

/// Solves a system over the eight elements in the slice that is lent: its coefficients then stand there, and the answer says whether it has any.
pub fn solve(cells: &mut [Octal], rows: usize, cols: usize) -> bool
    ensures { Fits rows cols (length cells.old) → Solved octal_ops rows cols cells.old cells.new result }
{
    Grid::new(cells, rows, cols).solve()
}

/// On columns of zeros and ones the field of eight elements says what the bits say.
pub fn agrees_with_bits()
    ensures { FieldsAgree bit_ops octal_ops }
{
    fields_agree_stands::<Bit, Octal>();
}
