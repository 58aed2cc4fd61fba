//! The outgoing counters as rules see them, and the numbers that are drawn for frames.
ghost use Rattle.std.specs.Prelude.{◌≡◌, ◌≤◌, IfSome, is_some, nat_le, not, option_map};
ghost use Rattle.std.specs.Option.{option_copied};
ghost use Rattle.zb_node_types.specs.Changes.{model_layer};
ghost use Rattle.zb_record.specs.RowViews.{net_key};
ghost use Rattle.zb_model.specs.Answer.{first_counter, is_started_key, row_is_started};
ghost use Rattle.zb_model.specs.Rules.{both_spent, spent};
ghost use Rattle.zb_model.specs.State.{greatest_counter, next_counter};
ghost use Rattle.zb_rows.specs.Drawing.{drawn_of, is_end, ready_of, reserve_at};

use crate::nets::net_of;
use zb_base::{Key, Layer};
use zb_counter::{Draw, Outgoing};
use zb_keys::{NetRow, Tables};
use zb_setting::Network;

/// The number under which a frame is sealed.
#[derive(Clone, Copy, Debug, PartialEq, Eq)]
pub struct Drawn {
    /// The number, which is the frame's counter.
    pub number: u32,
    /// The limit that is stored before the frame goes out, if a new block is reserved for it.
    pub reserve: Option<u32>,
}

/// Returns the number of a draw, if one is ready. The limit was stored for it.
fn ready(draw: Draw, reserve: Option<u32>) -> Option<Drawn>
    ensures { result ≡ ready_of reserve draw }
{
    match draw {
        Draw::Ready(number) => Some(Drawn { number, reserve }),
        Draw::Reserve { .. } => None,
        Draw::Spent => None,
    }
}

/// Draws a number from a counter. If none is reserved, it reserves a block and draws again.
fn drawn_from(counter: Outgoing) -> Option<Drawn>
    requires { 1 ≤ counter.block }
    ensures { result ≡ drawn_of counter }
{
    let mut outgoing = counter;
    match outgoing.draw() {
        Draw::Ready(number) => Some(Drawn {
            number,
            reserve: None,
        }),
        Draw::Reserve { limit } => {
            outgoing.reserved(limit);
            ready(outgoing.draw(), Some(limit))
        }
        Draw::Spent => None,
    }
}

/// Draws the number for a frame that is sealed at a layer, unless its counter has reached its end.
///
/// The number may be used once the limit that comes with it is stored, if there is one. The tables don't change.
#[tactic(auto, unfolding(zb_model::specs::Rules::spent))]
pub fn draw_number(network: &Network, tables: &Tables, layer: Layer) -> Option<Drawn>
    ensures there { is_some result ≡ not (spent (model_layer layer) tables.now) }
    ensures number { IfSome result (λ drawn. drawn.number ≡ next_counter (model_layer layer) tables.now) }
    ensures reserve { IfSome result (λ drawn. drawn.reserve
        ≡ reserve_at network.now tables.now (model_layer layer)) }
{
    drawn_from(tables.outgoing(layer, network.out_block()))
}

/// Returns the counter of the next frame that is sealed at a layer.
///
/// At NWK it is that of the active row, or the declared start while no row is active.
pub fn next_counter(tables: &Tables, layer: Layer) -> u32
    ensures { result ≡ next_counter (model_layer layer) tables.now }
{
    tables.outgoing(layer, 1).next
}

/// Returns whether a draw found its counter at its end.
fn is_end(draw: Draw) -> bool
    ensures { result ≡ is_end draw }
{
    match draw {
        Draw::Ready(_) => false,
        Draw::Reserve { .. } => false,
        Draw::Spent => true,
    }
}

/// Returns whether a counter has reached its end.
fn is_at_end(counter: Outgoing) -> bool
    ensures { result ≡ nat_le greatest_counter counter.next }
{
    let mut outgoing = counter;
    is_end(outgoing.draw())
}

/// Returns whether the counter of a layer has reached its end.
#[tactic(auto, unfolding(zb_model::specs::Rules::spent))]
pub fn is_spent(tables: &Tables, layer: Layer) -> bool
    ensures { result ≡ spent (model_layer layer) tables.now }
{
    is_at_end(tables.outgoing(layer, 1))
}

/// Returns whether the counter of one of the two layers has reached its end.
#[tactic(auto, unfolding(zb_model::specs::Rules::both_spent))]
pub fn is_any_spent(tables: &Tables) -> bool
    ensures { result ≡ both_spent tables.now }
{
    is_spent(tables, Layer::Nwk) || is_spent(tables, Layer::Aps)
}

/// Returns the first counter of a network key that becomes active for the first time.
///
/// It is 0 if the counter has passed half of its range, else the counter itself.
pub fn first_counter(tables: &Tables) -> u32
    ensures { result ≡ first_counter tables.now }
{
    let next = next_counter(tables, Layer::Nwk);
    if next >= 2147483648 { 0 } else { next }
}

/// Returns whether a network key has a row that was ever active.
pub fn has_started(tables: &Tables, key: &Key) -> bool
    ensures { result ≡ is_started_key tables.now key.now.0 }
{
    is_started(net_of(tables, key))
}

/// Returns whether there is a row that was ever active.
fn is_started(row: Option<&NetRow>) -> bool
    ensures { result ≡ row_is_started (option_map net_key (option_copied row.entry)) }
{
    match row {
        Some(row) => row.started,
        None => false,
    }
}
