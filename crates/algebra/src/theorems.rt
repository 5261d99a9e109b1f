// What is proved of elimination, and of fields, once for all fields with the laws. A theorem is the contract of a function that does nothing else.
ghost use Rattle.algebra.specs.Theorems.{LastColumn, PivotColumns, OneRepresentation, Alternative, IndependentSuffice, FieldsAgree};

use fields::Field;

/// The last column is a combination of the others exactly when elimination finds no pivot in it.
pub fn last_column_stands<F: Field>()
    ensures { LastColumn F.ops }
{}

/// A column is a combination of earlier columns exactly when elimination finds no pivot in it.
pub fn pivot_columns_stands<F: Field>()
    ensures { PivotColumns F.ops }
{}

/// Columns none of which is a combination of earlier ones represent a vector in at most one way.
pub fn one_representation_stands<F: Field>()
    ensures { OneRepresentation F.ops }
{}

/// A vector is a combination of given columns, or a witness is orthogonal to them all and one on it.
pub fn alternative_stands<F: Field>()
    ensures { Alternative F.ops }
{}

/// A combination can do without the columns that are combinations of earlier ones.
pub fn independent_suffice_stands<F: Field>()
    ensures { IndependentSuffice F.ops }
{}

/// Two fields agree on columns of zeros and ones.
pub fn fields_agree_stands<F: Field, G: Field>()
    ensures { FieldsAgree F.ops G.ops }
{}
