// Worked examples: what the definitions say of small numbers, polynomials, certificates and graphs.
#![tactic(auto)]

ghost use Rattle.worked.specs.Examples.{Examples};

/// The examples hold.
pub fn examples_hold()
    ensures { Examples }
{}
