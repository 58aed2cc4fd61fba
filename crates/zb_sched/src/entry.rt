//! A node while its schedule is read, and what is asked of all nodes so far.

ghost use Rattle.std.specs.Prelude.{◌≡◌, ◌==◌, ◌&&◌, not, find, position, map, is_some, IfOk};
ghost use Rattle.std.specs.List.{list_any, AllByRecursion};
ghost use Rattle.std.specs.Option.{option_map};
ghost use Rattle.zb_sched.specs.Drafts.{seat_of, is_linked, AreNamedApart, IsLinked, role_among};
ghost use Rattle.zb_install.specs.Code.{code_key};
ghost use Rattle.zb_sched.specs.Reading.{is_centre};
ghost use Rattle.zb_sched.specs.Judge.{changed, coded, has_name, holding, starting, is_declared, is_key, is_taken as clashes_with, network_of};

use crate::schedule::Node;
use std::alloc::{AllocError, Global};
use zb_base::{Key, Layer, Name, Peer, Role};
use zb_install::InstallCode;

/// A node so far, the link key of its install code, and which of its counters were declared.
#[derive(Drop)]
pub struct Entry {
    /// The node.
    pub node: Node,
    /// The link key of its install code.
    pub link: Option<Key>,
    /// Whether its NWK counter was declared.
    pub nwk_declared: bool,
    /// Whether its APS counter was declared.
    pub aps_declared: bool,
}

/// Returns whether a node's name, EUI or short address is taken.
pub fn is_taken(entries: &[Entry], peer: &Peer) -> bool
    ensures { result ≡ list_any
        (λ entry. clashes_with peer.now.name.bytes peer.now.eui.0 peer.now.short.0 (seat_of entry)) entries.now }
{
    entries.iter().any(|entry| {
        let other = &entry.node.peer;
        other.name == peer.name || other.eui.0 == peer.eui.0 || other.short.0 == peer.short.0
    })
}

/// Returns where the node of a name stands.
pub fn place(entries: &[Entry], name: &Name) -> Option<usize>
    ensures { result ≡ position (λ entry. has_name name.now.bytes (seat_of entry)) entries.now }
{
    entries
        .iter()
        .position(|entry| entry.node.peer.name == *name)
}

/// Returns the part of the node of a name.
pub fn role(entries: &[Entry], name: &Name) -> Option<Role>
    ensures { result ≡ role_among name.now.bytes entries.now }
{
    let entry = find(entries, name)?;
    Some(entry.node.peer.role)
}

fn find<'a>(entries: &'a [Entry], name: &Name) -> Option<&'a Entry>
    ensures { option_map (λ entry. entry.now) result
        ≡ find (λ entry. has_name name.now.bytes (seat_of entry)) entries.now }
{
    entries.iter().find(|entry| entry.node.peer.name == *name)
}

/// Returns the part of the node of a name, which may stand at a guessed place.
pub fn role_near(entries: &[Entry], name: &Name, guess: usize) -> Option<Role>
    ensures { AreNamedApart (map seat_of entries.now) → result ≡ role_among name.now.bytes entries.now }
{
    match entries.get(guess) {
        Some(entry) if entry.node.peer.name == *name => Some(entry.node.peer.role),
        _ => role(entries, name),
    }
}

/// Returns whether the node of a name has an install code.
pub fn has_code(entries: &[Entry], name: &Name) -> bool
    ensures { result ≡ list_any
        (λ entry. has_name name.now.bytes (seat_of entry) && is_some (seat_of entry).node.code) entries.now }
{
    entries.iter().any(|entry| entry.node.peer.name == *name && entry.node.code.is_some())
}

/// Returns whether the node of a name holds a network key.
pub fn has_network(entries: &[Entry], name: &Name) -> bool
    ensures { result ≡ list_any
        (λ entry. has_name name.now.bytes (seat_of entry) && is_some (seat_of entry).node.network) entries.now }
{
    entries.iter().any(|entry| entry.node.peer.name == *name && entry.node.network.is_some())
}

/// Returns whether a counter of the node of a name was declared.
pub fn has_counter(entries: &[Entry], name: &Name, layer: Layer) -> bool
    ensures { result ≡ list_any
        (λ entry. has_name name.now.bytes (seat_of entry) && is_declared layer (seat_of entry)) entries.now }
{
    entries.iter().any(|entry| entry.node.peer.name == *name && entry.is_declared(layer))
}

/// Returns whether a key is the link key of a node.
pub fn is_link(entries: &[Entry], key: &Key) -> bool
    ensures { result ≡ list_any (λ entry. is_linked key.now.0 entry) entries.now }
{
    entries.iter().any(|entry| entry.has_link(key))
}

/// Returns whether a key is the link key of a node of another name.
pub fn is_link_of_other(entries: &[Entry], key: &Key, name: &Name) -> bool
    ensures { result ≡ list_any
        (λ entry. is_linked key.now.0 entry && not (has_name name.now.bytes (seat_of entry))) entries.now }
{
    entries.iter().any(|entry| entry.has_link(key) && entry.node.peer.name != *name)
}

/// Returns whether a key is the network key of a node.
pub fn is_network(entries: &[Entry], key: &Key) -> bool
    ensures { result ≡ list_any (λ entry. is_key key.now.0 (network_of (seat_of entry).node)) entries.now }
{
    entries.iter().any(|entry| entry.has_network(key))
}

/// Sets the install code of the node of a name, and its link key.
pub fn set_code(entries: &mut Vec<Entry>, name: &Name, code: InstallCode, link: Key)
    requires { link.0 ≡ code_key code }
    ensures seats { map seat_of entries.new.items
        ≡ changed name.now.bytes (λ seat. coded code seat) (map seat_of entries.old.items) }
    ensures linked { AllByRecursion IsLinked entries.old.items → AllByRecursion IsLinked entries.new.items }
    ensures named { AreNamedApart (map seat_of entries.old.items) → AreNamedApart (map seat_of entries.new.items) }
{
    match place(entries.as_slice(), name) {
        Some(at) => entries[at].set_code(code, link),
        None => {}
    }
}

/// Sets the network key of the node of a name.
pub fn set_network(entries: &mut Vec<Entry>, name: &Name, key: Key, sequence: u8)
    ensures seats { map seat_of entries.new.items
        ≡ changed name.now.bytes (λ seat. holding key.0 sequence seat) (map seat_of entries.old.items) }
    ensures linked { AllByRecursion IsLinked entries.old.items → AllByRecursion IsLinked entries.new.items }
    ensures named { AreNamedApart (map seat_of entries.old.items) → AreNamedApart (map seat_of entries.new.items) }
{
    match place(entries.as_slice(), name) {
        Some(at) => entries[at].set_network(key, sequence),
        None => {}
    }
}

/// Sets a stored outgoing limit of the node of a name.
pub fn set_counter(entries: &mut Vec<Entry>, name: &Name, layer: Layer, limit: u32)
    ensures seats { map seat_of entries.new.items
        ≡ changed name.now.bytes (λ seat. starting layer limit seat) (map seat_of entries.old.items) }
    ensures linked { AllByRecursion IsLinked entries.old.items → AllByRecursion IsLinked entries.new.items }
    ensures named { AreNamedApart (map seat_of entries.old.items) → AreNamedApart (map seat_of entries.new.items) }
{
    match place(entries.as_slice(), name) {
        Some(at) => entries[at].start_at(layer, limit),
        None => {}
    }
}

/// Takes the nodes alone.
///
/// # Errors
/// `AllocError`.
pub fn nodes_of(alloc: Global, entries: Vec<Entry>) -> Result<Vec<Node>, AllocError>
    ensures { IfOk result (λ nodes. nodes.items ≡ map (λ entry. entry.node) entries.items) }
{
    let mut nodes = Vec::with_capacity(alloc, entries.len())?;
    for entry in entries {
        nodes.push(entry.node)?;
    }
    Ok(nodes)
}

/// Returns whether a node is the centre.
pub fn has_centre(entries: &[Entry]) -> bool
    ensures { result ≡ list_any (λ entry. is_centre (seat_of entry).node.role) entries.now }
{
    entries.iter().any(|entry| match entry.node.peer.role {
        Role::Centre => true,
        _ => false,
    })
}

impl Entry {
    ghost use Rattle.std.specs.Prelude.{◌≡◌};
    ghost use Rattle.zb_sched.specs.Drafts.{seat_of, is_linked, IsLinked};
    ghost use Rattle.zb_sched.specs.Judge.{is_declared, is_key, network_of, coded, holding, new_seat, starting};
    ghost use Rattle.zb_install.specs.Code.{code_key};

    /// Makes a node of which only its own line was read.
    pub fn new(peer: Peer, out_block: u32, in_block: u32) -> Entry
        ensures seat { seat_of result
            ≡ new_seat peer.name.bytes peer.role peer.eui.0 peer.short.0 out_block in_block }
        ensures linked { IsLinked result }
    {
        let node = Node {
            peer,
            out_block,
            in_block,
            code: None,
            network: None,
            start_nwk: 0,
            start_aps: 0,
        };
        Entry {
            node,
            link: None,
            nwk_declared: false,
            aps_declared: false,
        }
    }

    fn set_code(&mut self, code: InstallCode, link: Key)
        requires { link.0 ≡ code_key code }
        ensures seat { seat_of self.new ≡ coded code (seat_of self.old) }
        ensures linked { IsLinked self.old → IsLinked self.new }
    {
        self.node.code = Some(code);
        self.link = Some(link);
    }

    fn set_network(&mut self, key: Key, sequence: u8)
        ensures seat { seat_of self.new ≡ holding key.0 sequence (seat_of self.old) }
        ensures linked { IsLinked self.old → IsLinked self.new }
    {
        self.node.network = Some((key, sequence));
    }

    /// Sets the stored outgoing limit of a layer.
    pub fn start_at(&mut self, layer: Layer, limit: u32)
        ensures seat { seat_of self.new ≡ starting layer limit (seat_of self.old) }
        ensures linked { IsLinked self.old → IsLinked self.new }
    {
        match layer {
            Layer::Nwk => {
                self.node.start_nwk = limit;
                self.nwk_declared = true;
            }
            Layer::Aps => {
                self.node.start_aps = limit;
                self.aps_declared = true;
            }
        }
    }

    fn is_declared(&self, layer: Layer) -> bool
        ensures { result ≡ is_declared layer (seat_of self.now) }
    {
        match layer {
            Layer::Nwk => self.nwk_declared,
            Layer::Aps => self.aps_declared,
        }
    }

    fn has_link(&self, key: &Key) -> bool
        ensures { result ≡ is_linked key.now.0 self.now }
    {
        match &self.link {
            Some(link) => link.0 == key.0,
            None => false,
        }
    }

    fn has_network(&self, key: &Key) -> bool
        ensures { result ≡ is_key key.now.0 (network_of (seat_of self.now).node) }
    {
        match &self.node.network {
            Some((held, _)) => held.0 == key.0,
            None => false,
        }
    }
}
