//! A command as a node received it.
use zb_base::{Eui, Label};
use zb_row_changes::LinkRow;
use zb_setting::Network;

/// The form in which a command came, and from whom.
#[derive(Debug, Drop)]
pub enum Heard {
    /// Not secured at APS, in a secured NWK frame.
    Clear {
        /// The source of the NWK layer.
        nwk: Eui,
    },
    /// Sealed at APS.
    Sealed {
        /// The source of the APS layer.
        sender: Eui,
        /// Which key was derived from the base key.
        label: Label,
        /// The row whose key opened it.
        row: LinkRow,
        /// The source of the NWK layer, if that was secured.
        nwk: Option<Eui>,
    },
}

impl Heard {
    ghost use Rattle.std.specs.Prelude.{◌≡◌, ◌<◌, ◌^◌, Some, option_map};
    ghost use Rattle.std.specs.Option.{option_copied};
    ghost use Rattle.zb_model.specs.Commands.{labelled, is_clear, clear_or_data, nwk_secured, row_is, names_eui};
    ghost use Rattle.zb_model.specs.Rules.{from_centre, acts_as_router};
    ghost use Rattle.zb_row_changes.specs.Terms.{model_label};
    ghost use Rattle.zb_row_changes.specs.RowViews.{link_key};
    ghost use Rattle.zb_rules.specs.Hearing.{heard_of};

    /// Returns whether the command wasn't secured at APS.
    pub fn is_clear(&self) -> bool
        ensures { result ≡ is_clear (heard_of self.now) }
    {
        matches!(self, Heard::Clear { .. })
    }

    /// Returns whether the command was sealed with that label.
    pub fn is_sealed_for(&self, label: Label) -> bool
        ensures { result ≡ labelled (model_label label) (heard_of self.now).label }
    {
        match self {
            Heard::Clear { .. } => false,
            Heard::Sealed { label: found, .. } => *found == label,
        }
    }

    /// Returns whether the command was not secured at APS, or sealed for data.
    pub fn is_clear_or_data(&self) -> bool
        ensures { result ≡ clear_or_data (heard_of self.now) }
    {
        self.is_clear() || self.is_sealed_for(Label::Data)
    }

    /// Returns the source of the NWK layer, if that was secured.
    pub fn nwk_source(&self) -> Option<Eui>
        ensures { option_map (λ e. e.0) result ≡ (heard_of self.now).nwk_source }
    {
        match self {
            Heard::Clear { nwk } => Some(*nwk),
            Heard::Sealed { nwk, .. } => *nwk,
        }
    }

    /// Returns whether the NWK layer was secured.
    pub fn is_nwk_secured(&self) -> bool
        ensures { result ≡ nwk_secured (heard_of self.now) }
    {
        self.nwk_source().is_some()
    }

    /// Returns the source of the sealed layer: that of APS, else that of NWK.
    pub fn sender(&self) -> Eui
        ensures { result.0 ≡ (heard_of self.now).sender }
    {
        match self {
            Heard::Clear { nwk } => *nwk,
            Heard::Sealed { sender, .. } => *sender,
        }
    }

    /// Returns whether the sealed layer's source is the centre.
    pub fn is_from_centre(&self, network: &Network) -> bool
        ensures { result ≡ from_centre network.now (heard_of self.now).sender }
    {
        network.from_centre(self.sender())
    }

    /// Returns whether the sealed layer's source is declared as a router.
    pub fn is_from_router(&self, network: &Network) -> bool
        ensures { result ≡ acts_as_router network.now (heard_of self.now).sender }
    {
        network.acts_as_router(self.sender())
    }

    /// Returns whether that row's key is the one that opened the command.
    pub fn is_under(&self, row: Option<&LinkRow>) -> bool
        ensures { result ≡ row_is (heard_of self.now).row (option_map link_key (option_copied row.entry)) }
    {
        match self {
            Heard::Clear { .. } => false,
            Heard::Sealed { row: found, .. } => match row {
                Some(row) => found.key == row.key,
                None => false,
            },
        }
    }
}
