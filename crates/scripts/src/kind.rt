// The kinds of solver that a script can be answered on, and why one isn't answered.
ghost use Rattle.std.specs.Prelude.{◌≡◌};
ghost use Rattle.scripts.specs.Kinds.{Decodes, number_of};

/// The field that a solver works in, and whether its encoding has triangles.
#[derive(Clone, Copy, Debug, PartialEq, Eq)]
pub enum Kind {
    Bits,
    BitsTriangles,
    Four,
    FourTriangles,
}

/// Why a script isn't answered.
#[derive(Clone, Copy, Debug, PartialEq, Eq)]
pub enum Fault {
    /// The number names no kind of solver.
    NoSuchKind,
    /// The script is too long.
    ScriptTooLong,
    /// The memory for the text is too short.
    TextTooShort,
    /// The table is too large.
    TableTooLarge,
}

impl TryFrom<u32> for Kind {
    type Error = Fault;

    ghost try_from_gives = { Decodes };

    fn try_from(number: u32) -> Result<Kind, Fault> {
        match number {
            0 => Ok(Kind::Bits),
            1 => Ok(Kind::BitsTriangles),
            2 => Ok(Kind::Four),
            3 => Ok(Kind::FourTriangles),
            _ => Err(Fault::NoSuchKind),
        }
    }
}

/// The number below zero that a caller in C sees.
impl From<Fault> for i64 {
    ghost from_gives = { λ fault number. number ≡ number_of fault };

    fn from(fault: Fault) -> i64 {
        match fault {
            Fault::NoSuchKind => -1,
            Fault::ScriptTooLong => -10,
            Fault::TextTooShort => -4,
            Fault::TableTooLarge => -3,
        }
    }
}
