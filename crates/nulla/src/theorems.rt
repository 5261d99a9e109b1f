// What holds of every call on every solver, each statement on the contract of a function of its own.
ghost use Rattle.nulla.specs.Runs.{Whole};
ghost use Rattle.nulla.specs.Theorems.{OneOutcome, VerdictsMean};

use coloring::encoding::Encoding;

/// The rules give each call one reply, one state and one memory after it.
pub fn one_outcome<E: Encoding>()
    ensures { (s : E) → OneOutcome E.Coeff.ops (E.lists s) }
{}

/// Infeasible means that a certificate exists and that no coloring is proper; open means that no certificate of the degree exists.
pub fn verdicts_mean<E: Encoding>()
    ensures { (s : E) → VerdictsMean E.Coeff.ops (E.lists s) }
{}

/// Every list of calls on a new solver: the rules give each call one outcome, what the solver says is true after each, and only removing an
/// edge takes infeasible back. Two new solvers over two fields, under encodings that are alike, answer one list alike.
pub fn runs_stand<E: Encoding, D: Encoding>()
    ensures { (s : E) (t : D) → Whole E.Coeff.ops D.Coeff.ops (E.lists s) (D.lists t) }
{}
