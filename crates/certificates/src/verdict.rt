// What working a degree comes to.
ghost use Rattle.std.specs.Prelude.{◌≡◌, Some};
ghost use Rattle.certificates.specs.Verdicts.{infeasible, verdict_text};

use std::fmt;

/// What working a degree came to.
#[derive(Clone, Copy, Debug, PartialEq, Eq, Hash)]
pub enum Verdict {
    /// No proper coloring exists: a certificate of this degree and of so many bytes shows it.
    Infeasible { degree: u8, length: usize },
    /// No certificate of this degree exists; nothing follows about colorings.
    Open { degree: u8 },
}

impl Verdict {
    /// Whether the verdict is that no proper coloring exists.
    pub fn is_infeasible(&self) -> bool
        ensures { result ≡ infeasible self.now }
    {
        matches!(self, Verdict::Infeasible { .. })
    }
}

impl fmt::Display for Verdict {
    ghost output = { λ verdict. Some (verdict_text verdict) };

    fn fmt<W: fmt::Write>(&self, f: &mut fmt::Formatter<W>) -> fmt::Result {
        match self {
            Verdict::Infeasible { degree, .. } => write!(f, "few {degree}"),
            Verdict::Open { degree } => write!(f, "open {degree}"),
        }
    }
}
