// An encoding as a client writes one: the equations of the plain encoding, listed twice. What it must show is in the laws of
// the trait, and every solver then works with it.
#![tactic(auto)]

ghost use Rattle.std.specs.Prelude.{◌≡◌, ◌*◌, [], length, slice_index_or};
ghost use Rattle.coloring.specs.Encoding.{over};
ghost use Rattle.coloring.specs.Equations.{plain};
ghost use Rattle.custom.specs.Repeated.{twice};
ghost use Rattle.std.proofs.Common.{lit≤};
ghost use Rattle.coloring.specs.Bounds.{plain_bounded};
ghost use Rattle.custom.specs.Again.{twice_bounded, twice_lawful};
ghost use Rattle.coloring.specs.Kept.{plain_lawful};

use coloring::encoding::Encoding;
use coloring::encoding::plain::Plain;
use fields::Field;
use graphs::Graph;
use polynomials::Term;

/// Every plain equation, and then every one again.
#[derive(Clone, Copy, Debug, PartialEq, Eq, Hash)]
pub struct Repeated<F> {
    plain: Plain<F>,
}

impl<F: Field> Repeated<F> {
    /// The repeated encoding over a field.
    pub fn new() -> Repeated<F>
        ensures { result ≡ record { plain = record { field = record {} } } }
    {
        Repeated {
            plain: Plain::new(),
        }
    }

    /// The number of the plain equation that is listed there.
    fn once(&self, graph: &Graph, equation: usize) -> usize
        ensures { slice_index_or (over (plain F.ops.one) graph.now) result [] ≡ slice_index_or (over (twice (plain F.ops.one)) graph.now) equation [] }
    {
        let count = self.plain.count(graph);
        if equation < count {
            equation
        } else {
            equation - count
        }
    }
}

// A derive would ask a `Default` of the field.
impl<F: Field> Default for Repeated<F> {
    ghost is_default = { λ r. r ≡ record { plain = record { field = record {} } } };

    fn default() -> Repeated<F> {
        Repeated::new()
    }
}

impl<F: Field> Encoding for Repeated<F> {
    type Coeff = F;

    ghost lists = { λ _. twice (plain F.ops.one) };

    ghost high = { λ _. 600 };

    ghost bounded = { λ s. twice_bounded F.ops (plain F.ops.one) 300 (lit≤ tt) (plain_bounded F.ops F.laws) };

    ghost lawful = { λ s. twice_lawful F.ops (plain F.ops.one) (plain_lawful F.ops F.laws) };

    fn most(&self) -> usize {
        2 * self.plain.most()
    }

    fn count(&self, graph: &Graph) -> usize {
        2 * self.plain.count(graph)
    }

    fn terms(&self, graph: &Graph, equation: usize) -> usize {
        self.plain.terms(graph, self.once(graph, equation))
    }

    fn term(&self, graph: &Graph, equation: usize, index: usize) -> Term<F> {
        self.plain.term(graph, self.once(graph, equation), index)
    }
}
