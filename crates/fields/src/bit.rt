// The field of two elements: a bit, whose sum is exclusive or. A bool in place of an enum lets the compiler add rows by vectors.
ghost use Rattle.fields.specs.Bit.{bit_ops, bit_laws};

use crate::field::Field;

#[derive(Clone, Copy, Debug, PartialEq, Eq, Hash)]
#[repr(C)]
pub struct Bit {
    set: bool,
}

impl Field for Bit {
    const SIZE: u8 = 2;

    ghost ops = { bit_ops };

    ghost laws = { bit_laws };

    fn zero() -> Bit {
        Self { set: false }
    }

    fn one() -> Bit {
        Self { set: true }
    }

    fn add(self, other: Bit) -> Bit {
        Bit {
            set: self.set ^ other.set,
        }
    }

    fn mul(self, other: Bit) -> Bit {
        Bit {
            set: self.set & other.set,
        }
    }

    fn inv(self) -> Bit {
        self
    }

    fn code(self) -> u8 {
        u8::from(self.set)
    }

    fn from_code(code: u8) -> Option<Bit> {
        match code {
            0 => Some(Bit { set: false }),
            1 => Some(Bit { set: true }),
            _ => None,
        }
    }

    fn order() -> u8 {
        Self::SIZE
    }
}
