//! Reading and writing the words for one of a few things: roles, layers, key identifiers, attributes, states,
//! rollovers, the places of refusals and answers.

ghost use Rattle.std.specs.Prelude.{◌≡◌, codes};
ghost use Rattle.zb_text.specs.Choices as spec;

use zb_base::{Attribute, Label, Layer, Place, Role, Rollover, State};

/// Reads the word for a role: `centre`, `router` or `device`.
pub fn role(word: &[u8]) -> Option<Role>
    ensures { result ≡ spec.role_of word.now }
{
    if word == b"centre".as_slice() {
        Some(Role::Centre)
    } else if word == b"router".as_slice() {
        Some(Role::Router)
    } else if word == b"device".as_slice() {
        Some(Role::Device)
    } else {
        None
    }
}

/// Returns the word for the role of a node.
pub fn role_text(role: Role) -> &'static [u8]
    ensures { result.now ≡ spec.role_text role }
{
    match role {
        Role::Centre => b"centre",
        Role::Router => b"router",
        Role::Device => b"device",
    }
}

/// Reads the word for a layer: `nwk` or `aps`.
pub fn layer(word: &[u8]) -> Option<Layer>
    ensures { result ≡ spec.layer_of word.now }
{
    if word == b"nwk".as_slice() {
        Some(Layer::Nwk)
    } else if word == b"aps".as_slice() {
        Some(Layer::Aps)
    } else {
        None
    }
}

/// Returns the word for a layer.
pub fn layer_text(layer: Layer) -> &'static [u8]
    ensures { result.now ≡ spec.layer_text layer }
{
    match layer {
        Layer::Nwk => b"nwk",
        Layer::Aps => b"aps",
    }
}

/// Reads the word for a key identifier: `data`, `network`, `transport` or `load`.
pub fn label(word: &[u8]) -> Option<Label>
    ensures { result ≡ spec.label_of word.now }
{
    if word == b"data".as_slice() {
        Some(Label::Data)
    } else if word == b"network".as_slice() {
        Some(Label::Network)
    } else if word == b"transport".as_slice() {
        Some(Label::Transport)
    } else if word == b"load".as_slice() {
        Some(Label::Load)
    } else {
        None
    }
}

/// Returns the word for a key identifier.
pub fn label_text(label: Label) -> &'static [u8]
    ensures { result.now ≡ spec.label_text label }
{
    match label {
        Label::Data => b"data",
        Label::Network => b"network",
        Label::Transport => b"transport",
        Label::Load => b"load",
    }
}

/// Reads the word for a link key's attribute: `provisional`, `unverified` or `verified`.
pub fn attribute(word: &[u8]) -> Option<Attribute>
    ensures { result ≡ spec.attribute_of word.now }
{
    if word == b"provisional".as_slice() {
        Some(Attribute::Provisional)
    } else if word == b"unverified".as_slice() {
        Some(Attribute::Unverified)
    } else if word == b"verified".as_slice() {
        Some(Attribute::Verified)
    } else {
        None
    }
}

/// Returns the word for the attribute of a link key.
pub fn attribute_text(attribute: Attribute) -> &'static [u8]
    ensures { result.now ≡ spec.attribute_text attribute }
{
    match attribute {
        Attribute::Provisional => b"provisional",
        Attribute::Unverified => b"unverified",
        Attribute::Verified => b"verified",
    }
}

/// Reads the word for a node's state: `fresh`, `knocked`, `joined`, `offered`, `confirmed`, `rejoining` or `gone`.
pub fn state(word: &[u8]) -> Option<State>
    ensures { result ≡ spec.state_of word.now }
{
    if word == b"fresh".as_slice() {
        Some(State::Fresh)
    } else if word == b"knocked".as_slice() {
        Some(State::Knocked)
    } else if word == b"joined".as_slice() {
        Some(State::Joined)
    } else if word == b"offered".as_slice() {
        Some(State::Offered)
    } else if word == b"confirmed".as_slice() {
        Some(State::Confirmed)
    } else if word == b"rejoining".as_slice() {
        Some(State::Rejoining)
    } else if word == b"gone".as_slice() {
        Some(State::Gone)
    } else {
        None
    }
}

/// Returns the word for the state of a node.
pub fn state_text(state: State) -> &'static [u8]
    ensures { result.now ≡ spec.state_text state }
{
    match state {
        State::Fresh => b"fresh",
        State::Knocked => b"knocked",
        State::Joined => b"joined",
        State::Offered => b"offered",
        State::Confirmed => b"confirmed",
        State::Rejoining => b"rejoining",
        State::Gone => b"gone",
    }
}

/// Reads the word for a rollover: `sending` or `idle`.
pub fn rollover(word: &[u8]) -> Option<Rollover>
    ensures { result ≡ spec.rollover_of word.now }
{
    if word == b"sending".as_slice() {
        Some(Rollover::Sending)
    } else if word == b"idle".as_slice() {
        Some(Rollover::Idle)
    } else {
        None
    }
}

/// Returns the word for a rollover.
pub fn rollover_text(rollover: Rollover) -> &'static [u8]
    ensures { result.now ≡ spec.rollover_text rollover }
{
    match rollover {
        Rollover::Sending => b"sending",
        Rollover::Idle => b"idle",
    }
}

/// Reads the word for the place of a refusal: `nwk`, `aps` or `event`.
pub fn place(word: &[u8]) -> Option<Place>
    ensures { result ≡ spec.place_of word.now }
{
    if word == b"nwk".as_slice() {
        Some(Place::Nwk)
    } else if word == b"aps".as_slice() {
        Some(Place::Aps)
    } else if word == b"event".as_slice() {
        Some(Place::Event)
    } else {
        None
    }
}

/// Returns the word for the place of a refusal.
pub fn place_text(place: Place) -> &'static [u8]
    ensures { result.now ≡ spec.place_text place }
{
    match place {
        Place::Nwk => b"nwk",
        Place::Aps => b"aps",
        Place::Event => b"event",
    }
}

/// Reads the word for an answer: `yes` or `no`.
pub fn answer(word: &[u8]) -> Option<bool>
    ensures { result ≡ spec.answer_of word.now }
{
    if word == b"yes".as_slice() {
        Some(true)
    } else if word == b"no".as_slice() {
        Some(false)
    } else {
        None
    }
}

/// Returns the word for an answer.
pub fn answer_text(answer: bool) -> &'static [u8]
    ensures { result.now ≡ spec.answer_text answer }
{
    if answer { b"yes" } else { b"no" }
}
