// Lists of calls that are written down, made one after the other on one solver, or on two that are new.
ghost use Rattle.std.specs.Prelude.{◌≡◌, ◌≤◌, min, map, length, take, drop};
ghost use Rattle.certificates.specs.Outcome.{memory};
ghost use Rattle.nulla.specs.Replays.{Replayed, ReplayedNew};
ghost use Rattle.nulla.specs.Requests.{request_of};
ghost use Rattle.nulla.specs.Runs.{Whole};
ghost use Rattle.nulla.specs.State.{state_of, fresh};

use crate::call::Call;
use crate::reply::Reply;
use crate::solver::Solver;
use coloring::encoding::Encoding;

/// Makes the calls on a solver until they or the room for replies ends, each in the memory that the one before it left, and says how many
/// it made.
pub fn make_all<E: Encoding>(
    solver: &mut Solver<E>,
    calls: &[Call<'_>],
    table: &mut [E::Coeff],
    certificate: &mut [u8],
    replies: &mut [Reply],
) -> usize
    ensures count { result ≡ min (length calls.now) (length replies.old) }
    ensures replayed { Replayed E.Coeff.ops (E.lists solver.old.encoding) (map request_of (take result calls.now)) (state_of solver.old) (memory table.old certificate.old) (take result replies.new) (state_of solver.new) (memory table.new certificate.new) }
    ensures beyond { drop result replies.new ≡ drop result replies.old }
    ensures encoding { solver.new.encoding ≡ solver.old.encoding }
{
    let count = calls.len().min(replies.len());
    // A proof sees the replies that are written by their places, and not those that a `zip` would give out.
    for (k, call) in calls[..count].iter().enumerate() {
        replies[k] = solver.make(*call, table, certificate);
    }
    count
}

/// Makes one list of calls on two new solvers, as far as there is room for the replies of both, and says how many calls it made. What is promised of
/// every list of calls, on one solver and on two, is promised here.
pub fn replay<E: Encoding + Drop, D: Encoding + Drop>(
    first: E,
    second: D,
    calls: &[Call<'_>],
    table: &mut [E::Coeff],
    certificate: &mut [u8],
    replies: &mut [Reply],
    other_table: &mut [D::Coeff],
    other_certificate: &mut [u8],
    other_replies: &mut [Reply],
) -> usize
    ensures count { result ≡ min (length calls.now) (min (length replies.old) (length other_replies.old)) }
    ensures first { ReplayedNew E.Coeff.ops (E.lists first) (map request_of (take result calls.now)) (memory table.old certificate.old) (take result replies.new) (memory table.new certificate.new) }
    ensures second { ReplayedNew D.Coeff.ops (D.lists second) (map request_of (take result calls.now)) (memory other_table.old other_certificate.old) (take result other_replies.new) (memory other_table.new other_certificate.new) }
    ensures beyond { (drop result replies.new ≡ drop result replies.old) × (drop result other_replies.new ≡ drop result other_replies.old) }
    ensures whole { Whole E.Coeff.ops D.Coeff.ops (E.lists first) (D.lists second) }
{
    let count = calls.len().min(replies.len().min(other_replies.len()));
    let made = &calls[..count];
    let mut one = Solver::new(first);
    make_all(&mut one, made, table, certificate, replies);
    let mut two = Solver::new(second);
    make_all(
        &mut two,
        made,
        other_table,
        other_certificate,
        other_replies,
    );
    count
}
