// A side that can also be handed a certificate to check. Its memory is on the heap too.
pub mod calls;

/// A solver with the memory of its calls, and the memory for the certificate that a check is handed.
#[derive(Drop)]
pub struct Side<E, C> {
    side: certifying::side::Side<E, C>,
    given: Vec<u8>,
}
