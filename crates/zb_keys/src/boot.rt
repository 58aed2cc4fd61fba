//! What a boot does to tables: counters and floors are set back to what is stored, in place.
ghost use Rattle.std.specs.Prelude.{◌≡◌};
ghost use Rattle.zb_keys.specs.Tables.{links_booted, nets_booted, state_of, IsSound};
ghost use Rattle.zb_model.specs.State.{after_boot};

use crate::Tables;
use crate::contents::Contents;
use zb_record::link_row::boot_links;
use zb_record::net_row::boot_nets;

impl Contents {
    /// Sets the network keys back to what is stored.
    fn set_nets_back(&mut self)
        requires sound { IsSound self.old }
        ensures state { state_of self.new ≡ nets_booted (state_of self.old) }
        ensures sound { IsSound self.new }
    {
        boot_nets(&mut self.nets);
    }

    /// Sets the floors of the link keys back to the stored ones.
    fn set_links_back(&mut self)
        requires sound { IsSound self.old }
        ensures state { state_of self.new ≡ links_booted (state_of self.old) }
        ensures sound { IsSound self.new }
    {
        boot_links(&mut self.links);
    }

    /// Sets counters and floors back to what is stored.
    fn boot(&mut self)
        requires sound { IsSound self.old }
        ensures state { state_of self.new ≡ after_boot (state_of self.old) }
        ensures sound { IsSound self.new }
    {
        self.set_nets_back();
        self.set_links_back();
        self.aps_next = self.aps_limit;
    }
}

impl Tables {
    /// Sets counters and floors back to what is stored, as after a boot.
    pub fn boot(&mut self)
        ensures { self.new ≡ after_boot self.old }
    {
        self.contents.boot();
    }
}
