// The calls on a solver. Each looks at its grounds for refusal in their order before anything changes. Table and certificate are two
// slices that callers lend: a struct of both would owe, after each call, that it still holds the loans that it was given.
ghost use Rattle.std.specs.Prelude.{◌≡◌, ℕ, ◌+◌, ◌*◌, ◌<◌, ◌≤◌, min, max, true, false, List, length, if◌then◌else◌, MatchResult};
ghost use Rattle.nulla.specs.Standing.{Kept};
ghost use Rattle.nulla.specs.State.{state_of, fresh};
ghost use Rattle.certificates.specs.Outcome.{Memory, memory};
ghost use Rattle.certificates.specs.Grounds.{First, Clear};
ghost use Rattle.nulla.specs.Called.{Called};
ghost use Rattle.nulla.specs.Steps.{ends};
ghost use Rattle.nulla.specs.Replies.{opened, done, said, passed};
ghost use Rattle.nulla.specs.Requests.{request_of, open_vertex, add_edge, remove_edge, raise_degree, try_edge, check_certificate};

use crate::call::Call;
use crate::reply::{Answer, Reply};
use crate::solver::Solver;
use certificates::{Refusal, Verdict, check, work};
use coloring::encoding::Encoding;
use graphs::{Edge, Graph, Trial};

/// The largest number that a vertex can have.
const LAST_VERTEX: usize = 23;

/// The degrees that a trial may work.
const FIRST_DEGREE: usize = 1;

const LAST_DEGREE: usize = 48;

/// No degree is worked yet.
const UNWORKED: Verdict = Verdict::Open { degree: 0 };

// What an open solver has reached is void once its graph has grown; what shows infeasible still does.
fn kept(standing: Verdict) -> Verdict
    ensures { Kept standing result }
{
    match standing {
        Verdict::Infeasible { .. } => standing,
        Verdict::Open { .. } => UNWORKED,
    }
}

impl<E: Encoding> Solver<E> {
    /// A solver without vertices.
    pub fn new(encoding: E) -> Self
        ensures state { state_of result ≡ fresh }
        ensures encoding { result.encoding ≡ encoding }
    {
        Solver {
            encoding,
            graph: Graph::new(),
            standing: UNWORKED,
        }
    }

    /// Opens the next vertex, and gives its number.
    pub fn open_vertex(&mut self) -> Result<u8, Refusal>
        ensures { (m : Memory E.Coeff) → Called E.Coeff.ops E.lists open_vertex self.old m (opened result) self.new m }
    {
        let number = self.graph.open().ok_or(Refusal::NoVertexLeft)?;
        self.standing = kept(self.standing);
        Ok(number)
    }

    // The edge between two open vertices.
    fn edge(&self, i: usize, j: usize) -> Result<Edge, Refusal>
        ensures { MatchResult result (λ e. (e.lower ≡ min i j) × (e.higher ≡ max i j) × Clear (ends i j (state_of self.now))) (λ e. First (ends i j (state_of self.now)) e) }
    {
        if i > LAST_VERTEX || j > LAST_VERTEX {
            return Err(Refusal::OutOfRange);
        }
        let open = self.graph.vertices() as usize;
        if i >= open || j >= open {
            return Err(Refusal::NoSuchVertex);
        }
        Edge::between(i, j).ok_or(Refusal::SameVertex)
    }

    /// Adds the edge between two open vertices, given in either order.
    pub fn add_edge(&mut self, i: usize, j: usize) -> Result<(), Refusal>
        ensures { (m : Memory E.Coeff) → Called E.Coeff.ops E.lists (add_edge i j) self.old m (done result) self.new m }
    {
        let edge = self.edge(i, j)?;
        if self.graph.joins(edge) {
            return Err(Refusal::AlreadyJoined);
        }
        self.graph.join(edge);
        self.standing = kept(self.standing);
        Ok(())
    }

    /// Removes the edge between two open vertices, given in either order.
    pub fn remove_edge(&mut self, i: usize, j: usize) -> Result<(), Refusal>
        ensures { (m : Memory E.Coeff) → Called E.Coeff.ops E.lists (remove_edge i j) self.old m (done result) self.new m }
    {
        let edge = self.edge(i, j)?;
        if !self.graph.joins(edge) {
            return Err(Refusal::NotJoined);
        }
        self.graph.part(edge);
        self.standing = UNWORKED;
        Ok(())
    }

    /// Works the degree after the one reached, which then is reached.
    pub fn raise(
        &mut self,
        table: &mut [E::Coeff],
        certificate: &mut [u8],
    ) -> Result<Verdict, Refusal>
        ensures { Called E.Coeff.ops E.lists raise_degree self.old (memory table.old certificate.old) (said result) self.new (memory table.new certificate.new) }
    {
        let Verdict::Open { degree } = self.standing else {
            return Err(Refusal::AlreadyInfeasible);
        };
        let verdict = work(&self.encoding, &self.graph, degree + 1, table, certificate)?;
        self.standing = verdict;
        Ok(verdict)
    }

    /// Works a degree as a raise to it would if the edge between two open vertices stood. The edge stands until the guard ends, so
    /// the solver after the call is the solver before it.
    pub fn try_edge(
        &mut self,
        i: usize,
        j: usize,
        degree: usize,
        table: &mut [E::Coeff],
        certificate: &mut [u8],
    ) -> Result<Verdict, Refusal>
        ensures called { Called E.Coeff.ops E.lists (try_edge i j degree) self.old (memory table.old certificate.old) (said result) self.new (memory table.new certificate.new) }
        ensures same { self.new ≡ self.old }
    {
        if degree < FIRST_DEGREE || degree > LAST_DEGREE {
            return Err(Refusal::OutOfRange);
        }
        let edge = self.edge(i, j)?;
        if self.graph.joins(edge) {
            return Err(Refusal::AlreadyJoined);
        }
        let trial = Trial::begin(&mut self.graph, edge);
        work(
            &self.encoding,
            trial.graph(),
            degree as u8,
            table,
            certificate,
        )
    }

    /// Passes a certificate exactly when the products of the solver's equations, each by the coefficient that the certificate gives it, add up to
    /// one.
    pub fn check(&self, certificate: &[u8], table: &mut [E::Coeff]) -> Result<(), Refusal>
        ensures { (c : List ℕ) → Called E.Coeff.ops E.lists (check_certificate certificate.now) self.now (memory table.old c) (passed result) self.now (memory table.new c) }
    {
        check(&self.encoding, &self.graph, certificate, table)
    }

    /// Makes a call that is written down.
    pub fn make(&mut self, call: Call<'_>, table: &mut [E::Coeff], certificate: &mut [u8]) -> Reply
        ensures { Called E.Coeff.ops E.lists (request_of call.entry) self.old (memory table.old certificate.old) result self.new (memory table.new certificate.new) }
    {
        match call {
            Call::OpenVertex => self.open_vertex().map(Answer::Opened),
            Call::AddEdge(i, j) => self.add_edge(i, j).map(|()| Answer::Done),
            Call::RemoveEdge(i, j) => self.remove_edge(i, j).map(|()| Answer::Done),
            Call::Raise => self.raise(table, certificate).map(Answer::Worked),
            Call::TryEdge(i, j, degree) => self
                .try_edge(i, j, degree, table, certificate)
                .map(Answer::Worked),
            Call::Check(bytes) => self.check(bytes, table).map(|()| Answer::Passed),
        }
    }
}
