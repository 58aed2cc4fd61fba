//! The names in lines, and what was declared about them.
ghost use Rattle.std.specs.Prelude.{◌≡◌, ◌++◌, ◌∷◌, [], ◌&&◌, List, None, Some, OnOk, IfOk, IfSome, bytes_eq, if◌then◌else◌, not};
ghost use Rattle.std.specs.BTreeMap.{get};
ghost use Rattle.zb_model.specs.Data.{Bytes, Station};
ghost use Rattle.zb_model.specs.State.{is_centre};
ghost use Rattle.zb_node_types.specs.Changes.{model_role};
ghost use Rattle.zb_trace.specs.declared.line.Line.{Line as AnyLine};
ghost use Rattle.zb_audit_names.specs.Naming.{declared_in, declares, named_by, names_in, place_in, station_named, with_name, with_station};
ghost use Rattle.zb_audit_names.specs.Standing.{name_cmp, AreKnown, IsKnown, IsSpeaker, IsStation, Stands, Tells};

use crate::lines::speaker;
use crate::node::{NOBODY, Node, Who};
use std::alloc::Global;
use std::collections::BTreeMap;
use zb_base::{Name, NoMemory, Role};
use zb_trace::Line;

/// The names of a transcript so far. A name is looked up once for each line; everything else uses its place.
#[derive(Drop)]
pub struct Directory {
    /// The node of each name.
    pub names: BTreeMap<Name, Who>,
    /// Whether a centre was declared.
    pub has_centre: bool,
    /// Declared names that were looked up. The hash of a name gives its place. There are no places before the first
    /// such name.
    pub looked_up: Vec<Option<Known>>,
}

/// A name and its node.
#[derive(Clone, Copy)]
pub struct Known {
    /// The name.
    pub name: Name,
    /// The node.
    pub who: Who,
}

impl Known {
    /// Returns the node, if it has that name.
    fn who_of(&self, name: &Name) -> Option<Who>
        ensures { result ≡ (if bytes_eq self.now.name.bytes name.now.bytes then Some self.now.who else None) }
    {
        if self.name == *name {
            Some(self.who)
        } else {
            None
        }
    }
}

impl Directory {
    /// Makes the directory of no lines.
    pub fn new(alloc: Global) -> Directory
        ensures { Stands result [] [] }
    {
        Directory {
            names: BTreeMap::new(alloc),
            has_centre: false,
            looked_up: Vec::new(alloc),
        }
    }

    /// Processes one line, and returns its node by the lines before it. For a line that names no node the value has
    /// no meaning.
    ///
    /// # Errors
    /// `NoMemory`, if memory runs out.
    pub fn line(&mut self, line: &Line) -> Result<Who, NoMemory>
        ensures stands { OnOk result ((h : List AnyLine) → Stands self.old (names_in h) (declared_in h)
            → Stands self.new (names_in (h ++ line.now ∷ [])) (declared_in (h ++ line.now ∷ []))) }
        ensures tells { IfOk result (λ who. (h : List AnyLine) → Stands self.old (names_in h) (declared_in h)
            → IsSpeaker who (names_in (h ++ line.now ∷ [])) (declared_in h) line.now) }
    {
        let who = self.speaker(line)?;
        self.declare(line, who)?;
        Ok(who)
    }

    /// Returns the node of a line.
    fn speaker(&mut self, line: &Line) -> Result<Who, NoMemory>
        ensures stands { OnOk result ((names : List Bytes) (known : List Station) → Stands self.old names known
            → Stands self.new (named_by names line.now) known) }
        ensures tells { IfOk result (λ who. (names : List Bytes) (known : List Station) → Stands self.old names known
            → IsSpeaker who (named_by names line.now) known line.now) }
    {
        match speaker(line) {
            Some(name) => self.who(&name),
            None => Ok(NOBODY),
        }
    }

    /// Returns the node of a name. A new name gets the next place.
    fn who(&mut self, name: &Name) -> Result<Who, NoMemory>
        ensures stands { OnOk result ((names : List Bytes) (known : List Station) → Stands self.old names known
            → Stands self.new (with_name names name.now.bytes) known) }
        ensures tells { IfOk result (λ who. (names : List Bytes) (known : List Station) → Stands self.old names known
            → Tells who (with_name names name.now.bytes) known name.now.bytes) }
    {
        match self.remembered(name) {
            Some(who) => Ok(who),
            None => self.look_up(name),
        }
    }

    /// Returns the node of a name, if it was looked up before.
    fn remembered(&self, name: &Name) -> Option<Who>
        ensures { IfSome result (λ who. (names : List Bytes) (known : List Station) → Stands self.now names known
            → Tells who names known name.now.bytes) }
    {
        match known_at(self.looked_up.as_slice(), place_of(name)) {
            Some(known) => known.who_of(name),
            None => None,
        }
    }

    /// Returns the node of a name from all names. A new name gets the next place.
    fn look_up(&mut self, name: &Name) -> Result<Who, NoMemory>
        ensures stands { OnOk result ((names : List Bytes) (known : List Station) → Stands self.old names known
            → Stands self.new (with_name names name.now.bytes) known) }
        ensures tells { IfOk result (λ who. (names : List Bytes) (known : List Station) → Stands self.old names known
            → Tells who (with_name names name.now.bytes) known name.now.bytes) }
    {
        match self.names.get(name).copied() {
            Some(who) => {
                keep(&mut self.looked_up, Known { name: *name, who })?;
                Ok(who)
            }
            None => self.new_name(*name),
        }
    }

    fn new_name(&mut self, name: Name) -> Result<Who, NoMemory>
        ensures stands { OnOk result (get name_cmp self.old.names name ≡ None → (names : List Bytes)
            (known : List Station) → Stands self.old names known
            → Stands self.new (with_name names name.bytes) known) }
        ensures tells { IfOk result (λ who. get name_cmp self.old.names name ≡ None → (names : List Bytes)
            (known : List Station) → Stands self.old names known
            → Tells who (with_name names name.bytes) known name.bytes) }
    {
        let who = Who {
            place: self.names.len(),
            node: None,
            is_centre: false,
        };
        self.names.insert(name, who)?;
        Ok(who)
    }

    /// Notes what a line declares, if anything. `who` is its node by the lines before it.
    fn declare(&mut self, line: &Line, who: Who) -> Result<(), NoMemory>
        ensures { OnOk result ((names : List Bytes) (known : List Station) → IsSpeaker who names known line.now
            → Stands self.old names known → Stands self.new names (declares known line.now)) }
    {
        match line {
            Line::Node {
                name,
                role,
                eui,
                out_block,
                in_block,
                ..
            } => self.declare_node(
                *name,
                who,
                Node {
                    eui: *eui,
                    role: *role,
                    out_block: *out_block,
                    in_block: *in_block,
                },
            ),
            _ => Ok(()),
        }
    }

    fn declare_node(&mut self, name: Name, who: Who, node: Node) -> Result<(), NoMemory>
        ensures { OnOk result ((names : List Bytes) (known : List Station) (s : Station) → IsStation s name.bytes node
            → Tells who names known name.bytes → Stands self.old names known
            → Stands self.new names (with_station known s)) }
    {
        match who.node {
            Some(_) => Ok(()),
            None => self.first_node(name, who.place, node),
        }
    }

    /// Declares the first node of a name.
    fn first_node(&mut self, name: Name, place: usize, node: Node) -> Result<(), NoMemory>
        ensures { OnOk result ((names : List Bytes) (known : List Station) (s : Station) → IsStation s name.bytes node
            → place_in names name.bytes ≡ Some place → station_named known name.bytes ≡ None
            → Stands self.old names known → Stands self.new names (known ++ s ∷ [])) }
    {
        let is_centre = self.is_first_centre(node.role);
        let who = Who {
            place,
            node: Some(node),
            is_centre,
        };
        self.names.insert(name, who)?;
        self.has_centre = self.has_centre || is_centre;
        Ok(())
    }

    fn is_first_centre(&self, role: Role) -> bool
        ensures { result ≡ (is_centre (model_role role) && not self.now.has_centre) }
    {
        role == Role::Centre && !self.has_centre
    }
}

/// How many places there are for names that were looked up.
const PLACES: usize = 1024;

/// Returns the place that the bytes of a name give. Two names may have one place.
fn place_of(name: &Name) -> usize {
    let mut number: u64 = 0;
    for byte in name.as_str().as_bytes() {
        number = (number << 8) | u64::from(*byte);
    }
    (number.wrapping_mul(0x9E37_79B9_7F4A_7C15) >> 54) as usize
}

/// Keeps the node of a declared name at the place of the name. It overwrites what was there.
fn keep(looked_up: &mut Vec<Option<Known>>, found: Known) -> Result<(), NoMemory>
    ensures { OnOk result ((names : List Bytes) (known : List Station) → Tells found.who names known found.name.bytes
        → AreKnown looked_up.old.items names known → AreKnown looked_up.new.items names known) }
{
    if found.who.node.is_none() {
        return Ok(());
    }
    make_places(looked_up)?;
    put_known(looked_up, place_of(&found.name), found);
    Ok(())
}

/// Makes the places, if there are none.
fn make_places(looked_up: &mut Vec<Option<Known>>) -> Result<(), NoMemory>
    ensures { OnOk result ((names : List Bytes) (known : List Station) → AreKnown looked_up.old.items names known
        → AreKnown looked_up.new.items names known) }
{
    while looked_up.len() < PLACES {
        looked_up.push(None)?;
    }
    Ok(())
}

/// Writes the node of a name at a place, if there is such a place.
fn put_known(looked_up: &mut Vec<Option<Known>>, place: usize, found: Known)
    ensures { (names : List Bytes) (known : List Station) → IsKnown (Some found) names known
        → AreKnown looked_up.old.items names known → AreKnown looked_up.new.items names known }
{
    if place < looked_up.len() {
        looked_up[place] = Some(found);
    }
}

/// Returns the name and node at a place, if there are any.
fn known_at(looked_up: &[Option<Known>], place: usize) -> Option<Known>
    ensures { IfSome result (λ found. (names : List Bytes) (known : List Station) → AreKnown looked_up.now names known
        → IsKnown (Some found) names known) }
{
    if place < looked_up.len() {
        looked_up[place]
    } else {
        None
    }
}
