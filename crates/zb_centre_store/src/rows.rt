//! The lines of a list: what the tables of the centre hold.
ghost use Rattle.std.specs.Prelude.{◌≡◌, ◌<◌, ◌^◌, ◌++◌, length, map, option_map, OnOk};
ghost use Rattle.zb_centre_store.specs.RowWords.{attribute_word, live_word, net_word};
ghost use Rattle.zb_centre_store.specs.Rows.{link_line, listed, net_line, numbered};
ghost use Rattle.zb_model.specs.State.{is_active_key};
ghost use Rattle.zb_node_types.specs.Changes.{model_attribute};
ghost use Rattle.zb_record.specs.RowViews.{link_key, net_key};
ghost use Rattle.zb_text.specs.Pages.{ended, page as page_of};

use std::alloc::AllocError;
use zb_base::{Attribute, Key};
use zb_keys::{LinkRow, NetRow, Tables};
use zb_text::choices::attribute_text;
use zb_text::page::{add_eui, add_key, add_number, add_word, end_line, put};

// Returns the word for whether a row is used.
fn live_word(live: bool) -> &'static [u8]
    ensures { result.now ≡ live_word live }
{
    if live { b"live" } else { b"dropped" }
}

// Returns whether a key is the active one.
fn is_active(active: &Option<Key>, key: &Key) -> bool
    ensures { result ≡ is_active_key (option_map (λ k. k.0) active.now) key.now.0 }
{
    match active {
        Some(other) => *other == *key,
        None => false,
    }
}

// Returns the word for whether a network key is used.
fn net_word(active: &Option<Key>, row: &NetRow) -> &'static [u8]
    ensures { result.now ≡ net_word (option_map (λ k. k.0) active.now) (net_key row.now) }
{
    if is_active(active, &row.key) {
        b"active"
    } else {
        live_word(row.live)
    }
}

// Returns the word for what is known of a link key.
fn attribute_word(attribute: Attribute) -> &'static [u8]
    ensures { result.now ≡ attribute_word (model_attribute attribute) }
{
    attribute_text(attribute)
}

// Prints a network key.
#[tactic(auto, using(std::proofs::Common::append_assoc), unfolding(crate::specs::Rows::net_line))]
fn put_net(
    page: &mut Vec<u8>,
    active: &Option<Key>,
    place: u32,
    row: &NetRow,
) -> Result<(), AllocError>
    ensures { OnOk result (page.new.items
        ≡ page.old.items ++ ended (net_line (option_map (λ k. k.0) active.now) place (net_key row.now))) }
{
    put(page, b"net")?;
    add_number(page, place)?;
    add_key(page, &row.key)?;
    add_number(page, u32::from(row.sequence))?;
    add_word(page, net_word(active, row))?;
    end_line(page)?;
    Ok(())
}

// Prints a link key.
#[tactic(auto, using(std::proofs::Common::append_assoc), unfolding(crate::specs::Rows::link_line))]
fn put_link(page: &mut Vec<u8>, place: u32, row: &LinkRow) -> Result<(), AllocError>
    ensures { OnOk result (page.new.items ≡ page.old.items ++ ended (link_line place (link_key row.now))) }
{
    put(page, b"link")?;
    add_number(page, place)?;
    add_eui(page, row.partner)?;
    add_key(page, &row.key)?;
    add_word(page, attribute_word(row.attribute))?;
    add_word(page, live_word(row.live))?;
    end_line(page)?;
    Ok(())
}

// Prints all network keys. Requires that their places are numbers of 32 bits.
fn put_nets(page: &mut Vec<u8>, active: &Option<Key>, rows: &[NetRow]) -> Result<(), AllocError>
    requires { length rows.now < 2 ^ 32 }
    ensures { OnOk result (page.new.items ≡ page.old.items
        ++ page_of (numbered (net_line (option_map (λ k. k.0) active.now)) 0 (map net_key rows.now))) }
{
    for place in 0..rows.len() {
        put_net(page, active, place as u32, &rows[place])?;
    }
    Ok(())
}

// Prints all link keys. Requires that their places are numbers of 32 bits.
fn put_links(page: &mut Vec<u8>, rows: &[LinkRow]) -> Result<(), AllocError>
    requires { length rows.now < 2 ^ 32 }
    ensures { OnOk result
        (page.new.items ≡ page.old.items ++ page_of (numbered link_line 0 (map link_key rows.now))) }
{
    for place in 0..rows.len() {
        put_link(page, place as u32, &rows[place])?;
    }
    Ok(())
}

/// Prints what the tables hold, a line for each row.
///
/// # Errors
/// Out of memory.
pub fn put_tables(page: &mut Vec<u8>, tables: &Tables) -> Result<(), AllocError>
    ensures { OnOk result (page.new.items ≡ page.old.items ++ page_of (listed tables.now)) }
{
    tables.keep_rules();
    put_nets(page, &tables.active_key(), tables.nets())?;
    put_links(page, tables.links())?;
    Ok(())
}
