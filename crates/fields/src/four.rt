// The field of four elements: u + aα over the bits, where α·α = α + 1. Two bools in place of an enum let the compiler add rows by vectors.
ghost use Rattle.fields.specs.Four.{four_ops, four_laws};

use crate::field::Field;

#[derive(Clone, Copy, Debug, PartialEq, Eq, Hash)]
pub struct Four {
    unit: bool,
    alpha: bool,
}

const ZERO: Four = Four {
    unit: false,
    alpha: false,
};

const ONE: Four = Four {
    unit: true,
    alpha: false,
};

const ALPHA: Four = Four {
    unit: false,
    alpha: true,
};

const ALPHA_PLUS_ONE: Four = Four {
    unit: true,
    alpha: true,
};

impl Field for Four {
    const SIZE: u8 = 4;

    ghost ops = { four_ops };

    ghost laws = { four_laws };

    fn zero() -> Four {
        ZERO
    }

    fn one() -> Four {
        ONE
    }

    fn add(self, other: Four) -> Four {
        Four {
            unit: self.unit ^ other.unit,
            alpha: self.alpha ^ other.alpha,
        }
    }

    fn mul(self, other: Four) -> Four {
        let squares = self.alpha & other.alpha;
        let crossed = (self.unit & other.alpha) ^ (self.alpha & other.unit);
        Four {
            unit: (self.unit & other.unit) ^ squares,
            alpha: crossed ^ squares,
        }
    }

    fn inv(self) -> Four {
        Four {
            unit: self.unit ^ self.alpha,
            alpha: self.alpha,
        }
    }

    fn code(self) -> u8 {
        2 * u8::from(self.alpha) + u8::from(self.unit)
    }

    fn from_code(code: u8) -> Option<Four> {
        match code {
            0 => Some(ZERO),
            1 => Some(ONE),
            2 => Some(ALPHA),
            3 => Some(ALPHA_PLUS_ONE),
            _ => None,
        }
    }

    fn order() -> u8 {
        Self::SIZE
    }
}
