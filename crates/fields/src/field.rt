// What a field asks of its elements: the operations as total calls, and their laws as a ghost member,
// so that every function over a field is proved once from the laws.
ghost use Rattle.std.specs.Prelude.{◌≡◌, ◌≤◌, ◌↔◌, IsTrue, MatchOption};
ghost use Rattle.fields.specs.Field.{Ops, Laws};

pub trait Field: Copy {
    /// The number of elements.
    const SIZE: u8;

    ghost ops: { Ops Self };

    ghost laws: { Laws ops };

    fn zero() -> Self
        ensures { result ≡ ops.zero };

    fn one() -> Self
        ensures { result ≡ ops.one };

    fn add(self, other: Self) -> Self
        ensures { result ≡ ops.add self other };

    fn mul(self, other: Self) -> Self
        ensures { result ≡ ops.mul self other };

    /// The inverse of zero is zero, so that the call is total.
    fn inv(self) -> Self
        ensures { result ≡ ops.inv self };

    fn code(self) -> u8
        ensures { result ≡ ops.code self };

    fn from_code(code: u8) -> Option<Self>
        ensures { MatchOption result (ops.size ≤ code) (λ x. ops.code x ≡ code) };

    /// Whether the element is zero.
    fn is_zero(self) -> bool
        ensures { IsTrue result ↔ (self ≡ ops.zero) }
    {
        self.code() == 0
    }

    /// Ties the constant to the laws, since no clause can cite a constant of a trait.
    fn order() -> u8
        ensures { result ≡ ops.size };
}
