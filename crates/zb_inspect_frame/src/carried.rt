//! The keys that the contents of a frame carry.
ghost use Rattle.std.specs.Prelude.{◌≡◌};
ghost use Rattle.zb_inspect_frame.specs.Carrying.{key_below, carries, keys_carried};

use crate::layer::Finding;
use crate::shown::{Below, Shown};
use zb_base::Key;
use zb_seal::carried;

/// The keys that the opened contents of a frame carry, from the innermost layer outwards.
#[derive(Clone, Copy, Debug, PartialEq, Eq)]
pub struct Carried {
    /// The key in the APS frame in a Tunnel.
    pub inner: Option<Key>,
    /// The key at the APS layer.
    pub aps: Option<Key>,
    /// The key at the NWK layer.
    pub nwk: Option<Key>,
}

/// Returns the keys in those contents of a frame that a key of the ring opened.
pub fn carried_keys(shown: &Shown) -> Carried
    ensures { result ≡ keys_carried shown.now }
{
    match &shown.below {
        None => Carried {
            inner: None,
            aps: None,
            nwk: carries(&shown.nwk),
        },
        Some(below) => Carried {
            inner: key_below(below),
            aps: carries(&below.aps),
            nwk: carries(&shown.nwk),
        },
    }
}

fn key_below(below: &Below) -> Option<Key>
    ensures { result ≡ key_below below.now.inner }
{
    match &below.inner {
        None => None,
        Some(inner) => carries(inner),
    }
}

fn carries(finding: &Finding) -> Option<Key>
    ensures { result ≡ carries finding.now }
{
    match finding {
        Finding::Opened { term, .. } => carried(term),
        Finding::Malformed => None,
        Finding::NotSecured => None,
        Finding::NoSource => None,
        Finding::Closed { .. } => None,
    }
}
