//! Gates, which shares of work pass.

/// A gate before the shares of each phase of work. Each share passes it once per phase.
///
/// No result depends on it. A test may hold a share there until another one has arrived.
pub trait Gate: Sync {
    /// Lets the share of this number, from 0, pass.
    fn pass(&self, share: u32);
}

/// An open gate: every share passes at once.
#[derive(Clone, Copy, Debug, Default, PartialEq, Eq)]
pub struct NoGate;

impl Gate for NoGate {
    fn pass(&self, _share: u32) {}
}
