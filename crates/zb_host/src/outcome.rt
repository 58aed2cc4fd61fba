//! What an event of a node gives beside its changes.
ghost use Rattle.std.specs.Prelude.{◌≡◌, None};

use zb_base::Frame;

/// What an event of a node gives beside its changes, for terms `T` and refusals `R`.
///
/// At most one term is accepted and sealed at each layer. Where something is refused after an acceptance, both are
/// there.
#[derive(Debug, Drop, PartialEq, Eq)]
pub struct Outcome<T, R> {
    /// The term that was accepted at NWK.
    pub accepted_nwk: Option<T>,
    /// The term that was accepted at APS.
    pub accepted_aps: Option<T>,
    /// Why the event was refused.
    pub refused: Option<R>,
    /// The term that was sealed at APS.
    pub sealed_aps: Option<T>,
    /// The term that was sealed at NWK.
    pub sealed_nwk: Option<T>,
    /// The frame that goes on the air.
    pub frame: Option<Frame>,
}

impl<T, R> Default for Outcome<T, R> {
    ghost use Rattle.std.specs.Prelude.{◌≡◌, None};

    ghost is_default = { λ x. (x.accepted_nwk ≡ None) × (x.accepted_aps ≡ None) × (x.refused ≡ None)
        × (x.sealed_aps ≡ None) × (x.sealed_nwk ≡ None) × (x.frame ≡ None) };

    /// Makes the outcome of an event that gives nothing.
    fn default() -> Outcome<T, R> {
        Outcome::nothing()
    }
}

impl<T, R> Outcome<T, R> {
    /// Makes the outcome of an event by which nothing was accepted, refused, sealed or sent.
    pub fn nothing() -> Outcome<T, R>
        ensures { result ≡ record {
          accepted_nwk = None;
          accepted_aps = None;
          refused = None;
          sealed_aps = None;
          sealed_nwk = None;
          frame = None;
        } }
    {
        Outcome {
            accepted_nwk: None,
            accepted_aps: None,
            refused: None,
            sealed_aps: None,
            sealed_nwk: None,
            frame: None,
        }
    }
}
