//! The watch over the lines of a run.
ghost use Rattle.zb_model.specs.Lines as log;
ghost use Rattle.std.specs.Prelude.{◌≡◌, ◌++◌, ◌∷◌, [], List, IfOk, OnOk};
ghost use Rattle.zb_model.specs.Readings.{stations_of};
ghost use Rattle.zb_model.specs.Secrets.{ideal as ideal_of, private as private_of};
ghost use Rattle.zb_model.specs.Tools.{Tools};
ghost use Rattle.zb_trace.specs.Views.{logged};
ghost use Rattle.zb_model.specs.Data.{Station};
ghost use Rattle.zb_model.specs.Lines.{Declared};
ghost use Rattle.zb_trace_watch.specs.Nodes.{no_node, who_is, IsOf};
ghost use Rattle.zb_trace_watch.specs.Watching.{Follows, FollowsBy, Stands};

use crate::nodes::Nodes;
use crate::speaker::NOBODY;
use crate::words::EndWords;
use std::alloc::Global;
use zb_base::{Eui, Name, NoMemory, Role};
use zb_trace::Line;

/// What is known about the lines of a run so far. A watch keeps no line.
#[derive(Drop)]
pub struct Watch {
    /// The declared nodes.
    pub nodes: Nodes,
    /// What the two words need.
    pub words: EndWords,
}

impl Watch {
    /// Makes a watch over no lines.
    ///
    /// # Errors
    /// `NoMemory`, if memory runs out.
    pub fn new(alloc: Global) -> Result<Watch, NoMemory>
        ensures { IfOk result (λ watch. (tools : Tools) → Stands tools watch []) }
    {
        Ok(Watch {
            nodes: Nodes::new(alloc),
            words: EndWords::new(alloc)?,
        })
    }

    /// Returns whether everything accepted or installed came from earlier terms.
    pub fn ideal(&self) -> bool
        ensures { (tools : Tools) (h : List log.Line) → Stands tools self.now h → result ≡ ideal_of tools h }
    {
        self.words.ideal()
    }

    /// Returns whether outsiders forged only under keys that they may know, and passed on no key of the network.
    pub fn private(&self) -> bool
        ensures { (tools : Tools) (h : List log.Line) → Stands tools self.now h → result ≡ private_of tools h }
    {
        self.words.private()
    }

    /// Processes one line.
    ///
    /// # Errors
    /// `NoMemory`. The watch must not be used after that.
    pub fn line(&mut self, alloc: Global, line: &Line) -> Result<(), NoMemory>
        ensures { OnOk result ((tools : Tools) (h : List log.Line)
            → Follows self.old self.new (logged (stations_of h) line.now) h tools) }
    {
        match line {
            Line::Node {
                name,
                role,
                eui,
                ..
            } => self.declare(*name, *eui, *role),
            Line::GivenNet { node, .. } => self.of_node(alloc, line, node),
            Line::GivenLink { node, .. } => self.of_node(alloc, line, node),
            Line::Install { node, .. } => self.of_node(alloc, line, node),
            Line::Row { node, .. } => self.of_node(alloc, line, node),
            _ => self.of_nobody(alloc, line),
        }
    }

    // Adds a declared node.
    fn declare(&mut self, name: Name, eui: Eui, role: Role) -> Result<(), NoMemory>
        ensures { OnOk result ((tools : Tools) (h : List log.Line) (station : Station)
            → IsOf station name.bytes eui.0 role → Follows self.old self.new (Declared station) h tools) }
    {
        self.nodes.add(name, eui, role)?;
        Ok(())
    }

    // Processes a line that needs to know who the node of this name is.
    fn of_node(&mut self, alloc: Global, line: &Line, node: &Name) -> Result<(), NoMemory>
        ensures words { OnOk result ((tools : Tools) → FollowsBy tools (who_is self.old.nodes node.now) line.now
            self.old.words self.new.words) }
        ensures nodes { self.new.nodes ≡ self.old.nodes }
    {
        let who = self.nodes.who(node);
        self.words.line(alloc, line, who)?;
        Ok(())
    }

    // Processes a line that doesn't need to know who a node is.
    fn of_nobody(&mut self, alloc: Global, line: &Line) -> Result<(), NoMemory>
        ensures words { OnOk result ((tools : Tools)
            → FollowsBy tools no_node line.now self.old.words self.new.words) }
        ensures nodes { self.new.nodes ≡ self.old.nodes }
    {
        self.words.line(alloc, line, NOBODY)?;
        Ok(())
    }
}
