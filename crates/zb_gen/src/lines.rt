//! The lines of declarations and joins.

ghost use Rattle.std.specs.Prelude.{◌≡◌, ◌+◌, ◌*◌, ◌-◌, ◌<◌, ◌≤◌, ◌++◌, [], ◌∷◌, map, codes, decimal, OnOk};
ghost use Rattle.std.specs.List.{range_with_len, flat_map};
ghost use Rattle.arrayvec.specs.ArrayString.{array_string_len};
ghost use Rattle.zb_text.specs.Choices.{role_text};
ghost use Rattle.zb_text.specs.Pages.{line_of_words};
ghost use Rattle.zb_sched_line.specs.Said.{Happens, Introduces};
ghost use Rattle.zb_sched_line.specs.Views.{event_of};
ghost use Rattle.zb_gen.specs.Made.{centre_line, code_line, code_word, deliver_line, draw_line, join_lines, netkey_line, node_line, node_name, own_line, role_word};
ghost use Rattle.zb_gen.specs.Progress.{after_sentence, after_texts, Comes};
ghost use Rattle.zb_base.specs.Limits.{most_made};
ghost use Rattle.zb_gen.specs.Bounds.{before_line, before_deliveries, before_lines, before_part, most_sent};

use crate::codes::Codes;
use crate::maker::{GenFault, Maker};
use crate::words::Words;
use zb_base::{Eui, Name, Peer, Role, Short};
use zb_sched_line::{Event, Line};

/// Makes the name of a node.
pub fn name_of(i: u32) -> Name
    requires { i ≤ most_made }
    ensures { result.bytes ≡ node_name i }
{
    let mut name = Name::new();
    if i == 0 {
        name.push('c');
    } else {
        name.push('d');
        push_number(&mut name, i);
    }
    name
}

fn push_number(name: &mut Name, i: u32)
    requires { (i ≤ most_made) × (array_string_len name.old ≤ 1) }
    ensures { name.new.bytes ≡ name.old.bytes ++ decimal i }
{
    if i < 10 {
        name.push(digit(i));
    } else {
        name.push(digit(i / 10));
        name.push(digit(i % 10));
    }
}

fn digit(number: u32) -> char
    requires { number < 10 }
    ensures { result ≡ 48 + number }
{
    (b'0' + number as u8) as char
}

fn role_of(i: u32) -> Role
    ensures { role_text result ≡ role_word i }
{
    if i % 5 == 1 {
        Role::Router
    } else {
        Role::Device
    }
}

fn take_node(maker: &mut Maker, peer: Peer) -> Result<(), GenFault>
    requires { maker.old.line ≤ before_line }
    ensures line { Comes result maker.new (after_sentence maker.old
        (Introduces peer.name.bytes peer.role peer.eui.0 peer.short.0 8 4)) }
    ensures count { OnOk result (maker.new.line ≡ maker.old.line + 1) }
{
    maker.take(Line::Node {
        peer,
        out_block: 8,
        in_block: 4,
    })
}

/// Takes the line of the centre.
///
/// # Errors
/// Those of `Maker::take`.
pub fn take_centre_line(maker: &mut Maker) -> Result<(), GenFault>
    requires { maker.old.line ≤ before_line }
    ensures lines { Comes result maker.new (after_texts maker.old (centre_line ∷ [])) }
    ensures count { OnOk result (maker.new.line ≡ maker.old.line + 1) }
{
    let peer = Peer {
        name: name_of(0),
        eui: Eui(0x0012_4B00_0000_0001),
        short: Short(0),
        role: Role::Centre,
    };
    take_node(maker, peer)
}

fn take_node_line(maker: &mut Maker, i: u32) -> Result<(), GenFault>
    requires { (1 ≤ i) × (i ≤ most_made) × (maker.old.line ≤ before_line) }
    ensures lines { Comes result maker.new (after_texts maker.old (node_line i ∷ [])) }
    ensures count { OnOk result (maker.new.line ≡ maker.old.line + 1) }
{
    let peer = Peer {
        name: name_of(i),
        eui: Eui(0x0012_4B00_0000_0100 + i as u64),
        short: Short(0x1000 + i as u16),
        role: role_of(i),
    };
    take_node(maker, peer)
}

fn take_code_line(maker: &mut Maker, install_codes: &Codes, i: u32) -> Result<(), GenFault>
    requires { (1 ≤ i) × (i ≤ install_codes.now.count) × (i ≤ most_made) × (maker.old.line ≤ before_line) }
    ensures lines { Comes result maker.new (after_texts maker.old (code_line install_codes.now.start i ∷ [])) }
    ensures count { OnOk result (maker.new.line ≡ maker.old.line + 1) }
{
    maker.take(Line::Code {
        name: name_of(i),
        code: Some(install_codes.code(i)),
    })
}

fn take_netkey_line(maker: &mut Maker, words: &mut Words, n: u32) -> Result<(), GenFault>
    requires { (n ≤ most_made) × (words.old.place ≡ 4 * n) × (maker.old.line ≤ before_line) }
    ensures lines { Comes result maker.new (after_texts maker.old (netkey_line words.old.start n ∷ [])) }
    ensures count { OnOk result (maker.new.line ≡ maker.old.line + 1) }
    ensures words { words.new ≡ record { start = words.old.start; place = 4 * n + 4 } }
{
    maker.take(Line::NetKey {
        name: name_of(0),
        key: words.key(),
        sequence: 0,
    })
}

fn take_draw_line(maker: &mut Maker, words: &mut Words, n: u32, j: u32) -> Result<(), GenFault>
    requires { (n ≤ most_made) × (j ≤ most_made) × (words.old.place ≡ 4 * n + 4 + 4 * j)
        × (maker.old.line ≤ before_line) }
    ensures lines { Comes result maker.new (after_texts maker.old (draw_line words.old.start n j ∷ [])) }
    ensures count { OnOk result (maker.new.line ≡ maker.old.line + 1) }
    ensures words { words.new ≡ record { start = words.old.start; place = 4 * n + 8 + 4 * j } }
{
    maker.take(Line::Draw { key: words.key() })
}

/// Takes the line of an event.
///
/// # Errors
/// Those of `Maker::take`.
pub fn take_event(maker: &mut Maker, event: Event) -> Result<(), GenFault>
    requires { maker.old.line ≤ before_line }
    ensures line { Comes result maker.new (after_sentence maker.old (Happens (event_of event))) }
    ensures count { OnOk result (maker.new.line ≡ maker.old.line + 1) }
{
    maker.take(Line::Event(event))
}

/// Takes the line of a node's timer.
///
/// # Errors
/// Those of `Maker::take`.
pub fn take_timer_line(maker: &mut Maker, i: u32) -> Result<(), GenFault>
    requires { (i ≤ most_made) × (maker.old.line ≤ before_line) }
    ensures lines { Comes result maker.new (after_texts maker.old (own_line (codes "timer") i ∷ [])) }
    ensures count { OnOk result (maker.new.line ≡ maker.old.line + 1) }
{
    take_event(maker, Event::Timer { name: name_of(i) })
}

/// Takes the line of a delivery.
///
/// # Errors
/// Those of `Maker::take`.
pub fn take_deliver_line(maker: &mut Maker, frame: u32, i: u32) -> Result<(), GenFault>
    requires { (1 ≤ frame) × (i ≤ most_made) × (maker.old.line ≤ before_line) }
    ensures lines { Comes result maker.new (after_texts maker.old (deliver_line frame i ∷ [])) }
    ensures count { OnOk result (maker.new.line ≡ maker.old.line + 1) }
{
    take_event(
        maker,
        Event::Deliver {
            frame,
            name: name_of(i),
        },
    )
}

fn take_provision_line(maker: &mut Maker, install_codes: &Codes, i: u32) -> Result<(), GenFault>
    requires { (1 ≤ i) × (i ≤ install_codes.now.count) × (i ≤ most_made) × (maker.old.line ≤ before_line) }
    ensures lines { Comes result maker.new (after_texts maker.old
        (line_of_words (codes "provision" ∷ node_name i ∷ code_word install_codes.now.start i ∷ []) ∷ [])) }
    ensures count { OnOk result (maker.new.line ≡ maker.old.line + 1) }
{
    take_event(
        maker,
        Event::Provision {
            name: name_of(i),
            code: install_codes.code(i),
        },
    )
}

fn take_knock_line(maker: &mut Maker, i: u32) -> Result<(), GenFault>
    requires { (i ≤ most_made) × (maker.old.line ≤ before_line) }
    ensures lines { Comes result maker.new (after_texts maker.old (own_line (codes "knock") i ∷ [])) }
    ensures count { OnOk result (maker.new.line ≡ maker.old.line + 1) }
{
    take_event(maker, Event::Knock { name: name_of(i) })
}

fn take_child_line(maker: &mut Maker, i: u32) -> Result<(), GenFault>
    requires { (i ≤ most_made) × (maker.old.line ≤ before_line) }
    ensures lines { Comes result maker.new (after_texts maker.old
        (line_of_words (codes "child" ∷ codes "c" ∷ node_name i ∷ codes "join" ∷ []) ∷ [])) }
    ensures count { OnOk result (maker.new.line ≡ maker.old.line + 1) }
{
    take_event(
        maker,
        Event::Child {
            parent: name_of(0),
            name: name_of(i),
            rejoin: false,
        },
    )
}

fn take_join(maker: &mut Maker, install_codes: &Codes, i: u32) -> Result<(), GenFault>
    requires { (1 ≤ i) × (i ≤ install_codes.now.count) × (i ≤ most_made) × (maker.old.line ≤ before_lines) }
    ensures lines { Comes result maker.new (after_texts maker.old (join_lines install_codes.now.start i)) }
    ensures count { OnOk result (maker.new.line ≡ maker.old.line + 10) }
{
    let sent = 5 * (i - 1);
    take_provision_line(maker, install_codes, i)?;
    take_knock_line(maker, i)?;
    take_child_line(maker, i)?;
    take_deliver_line(maker, sent + 1, i)?;
    take_timer_line(maker, i)?;
    take_rest_of_join(maker, sent, i)
}

fn take_rest_of_join(maker: &mut Maker, sent: u32, i: u32) -> Result<(), GenFault>
    requires { (i ≤ most_made) × (sent ≤ most_sent) × (maker.old.line ≤ before_deliveries) }
    ensures lines { Comes result maker.new (after_texts maker.old
        (deliver_line (sent + 2) 0 ∷ deliver_line (sent + 3) i ∷ own_line (codes "timer") i
        ∷ deliver_line (sent + 4) 0 ∷ deliver_line (sent + 5) i ∷ [])) }
    ensures count { OnOk result (maker.new.line ≡ maker.old.line + 5) }
{
    take_deliver_line(maker, sent + 2, 0)?;
    take_deliver_line(maker, sent + 3, i)?;
    take_timer_line(maker, i)?;
    take_deliver_line(maker, sent + 4, 0)?;
    take_deliver_line(maker, sent + 5, i)
}

/// Takes the lines of all nodes but the centre.
///
/// # Errors
/// Those of `Maker::take`.
pub fn take_nodes(maker: &mut Maker, n: u32) -> Result<(), GenFault>
    requires { (n ≤ most_made) × (maker.old.line ≤ before_part) }
    ensures lines { Comes result maker.new (after_texts maker.old (map node_line (range_with_len 1 n))) }
    ensures count { OnOk result (maker.new.line ≤ maker.old.line + n) }
{
    for i in 0..n {
        take_node_line(maker, i + 1)?;
    }
    Ok(())
}

/// Takes the lines of all install codes.
///
/// # Errors
/// Those of `Maker::take`.
pub fn take_codes(maker: &mut Maker, install_codes: &Codes, n: u32) -> Result<(), GenFault>
    requires { (n ≤ install_codes.now.count) × (n ≤ most_made) × (maker.old.line ≤ before_part) }
    ensures lines { Comes result maker.new
        (after_texts maker.old (map (λ i. code_line install_codes.now.start i) (range_with_len 1 n))) }
    ensures count { OnOk result (maker.new.line ≤ maker.old.line + n) }
{
    for i in 0..n {
        take_code_line(maker, install_codes, i + 1)?;
    }
    Ok(())
}

/// Takes the line of the network key and those of the supply.
///
/// # Errors
/// Those of `Maker::take`.
pub fn take_supply(maker: &mut Maker, words: &mut Words, n: u32) -> Result<(), GenFault>
    requires { (n ≤ most_made) × (words.old.place ≡ 4 * n) × (maker.old.line ≤ before_part) }
    ensures lines { Comes result maker.new (after_texts maker.old
        (netkey_line words.old.start n ∷ map (λ j. draw_line words.old.start n j) (range_with_len 0 (n + 1)))) }
    ensures count { OnOk result (maker.new.line ≤ maker.old.line + n + 2) }
    ensures words { OnOk result (words.new ≡ record { start = words.old.start; place = 8 * n + 8 }) }
{
    take_netkey_line(maker, words, n)?;
    take_draws(maker, words, n)
}

fn take_draws(maker: &mut Maker, words: &mut Words, n: u32) -> Result<(), GenFault>
    requires { (n ≤ most_made) × (words.old.place ≡ 4 * n + 4) × (maker.old.line ≤ before_lines) }
    ensures lines { Comes result maker.new
        (after_texts maker.old (map (λ j. draw_line words.old.start n j) (range_with_len 0 (n + 1)))) }
    ensures count { OnOk result (maker.new.line ≤ maker.old.line + n + 1) }
    ensures words { OnOk result (words.new ≡ record { start = words.old.start; place = 8 * n + 8 }) }
{
    for j in 0..n + 1 {
        take_draw_line(maker, words, n, j)?;
    }
    Ok(())
}

/// Takes the joins of all nodes.
///
/// # Errors
/// Those of `Maker::take`.
pub fn take_joins(maker: &mut Maker, install_codes: &Codes, n: u32) -> Result<(), GenFault>
    requires { (n ≤ install_codes.now.count) × (n ≤ most_made) × (maker.old.line ≤ before_part) }
    ensures lines { Comes result maker.new
        (after_texts maker.old (flat_map (λ i. join_lines install_codes.now.start i) (range_with_len 1 n))) }
    ensures count { OnOk result (maker.new.line ≤ maker.old.line + 10 * n) }
{
    for i in 0..n {
        take_join(maker, install_codes, i + 1)?;
    }
    Ok(())
}
