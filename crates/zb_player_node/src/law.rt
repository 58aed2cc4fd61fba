//! What holds of nodes in a condition. Each function here says laws and does nothing.
ghost use Rattle.std.specs.Prelude.{◌≡◌, ◌+◌, ℕ, Some, false, is_some};
ghost use Rattle.zb_disk.specs.Memory.{Medium};
ghost use Rattle.law_run_steps.specs.Conditions.{Condition};
ghost use Rattle.law_run_steps.specs.Swaps.{Stood, after_swap};
ghost use Rattle.zb_player_node.specs.Nodes.{CanBootFrom, IsIn};
ghost use Rattle.zb_player_node.specs.Values.{NodeValue};

/// States that a node on which nothing acts is in the same condition before the next event.
pub fn a_later_event()
    ensures { (x : Condition) (number : ℕ) (node : NodeValue) (m : Medium) → IsIn x number node m
        → IsIn x (number + 1) node m }
{}

/// States that a node has a host exactly while it has power.
pub fn a_host_has_power()
    ensures { (x : Condition) (number : ℕ) (node : NodeValue) (m : Medium) → IsIn x number node m
        → is_some node.machine ≡ x.up }
{}

/// States that a node without power is, over another disk, in the condition that a swap sets.
///
/// The disk is one that a node of its role can boot from.
pub fn another_disk_sets_the_condition()
    ensures { (x : Condition) (number : ℕ) (node : NodeValue) (old other : Medium) (s : Stood) → IsIn x number node old
        → x.up ≡ false → CanBootFrom x.setting.me.role number other s
        → IsIn (after_swap (Some s) x) number node other }
{}
