// That what was written can be read back, proved once for all fields with the laws: the theorem is the contract of a function that
// does nothing else.
ghost use Rattle.layout.specs.Reading.{BytesInverse};

use fields::Field;

/// What is written stands for the coefficients that it was written for, and well-formed bytes stand for one certificate
/// and are what is written for it.
pub fn bytes_stand<F: Field>()
    ensures { BytesInverse F.ops }
{}
