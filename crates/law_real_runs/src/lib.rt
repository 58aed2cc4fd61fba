//! What the laws over every run ask of frames and commands, proved for the real ones. So all laws hold for real
//! frames: one record of them all. Each law is the contract of a function with an empty body.
#![tactic(auto)]

ghost use Rattle.law_run.specs.Commanding.{ShowsKeys, SpellsConfirm};
ghost use Rattle.law_run.specs.Premises.{Premises};
ghost use Rattle.zb_model.specs.Play.{Schedule};
ghost use Rattle.law_real_runs.specs.Headline.{Holds};
ghost use Rattle.zb_model_real.specs.Real.{real};

/// States that only a Confirm-Key is spelled so that it reads as a Confirm-Key of status 0.
///
/// The device that is read is its own, if that has at most 64 bits.
pub fn only_confirmations_read_as_such()
    ensures { SpellsConfirm real }
{}

/// States that a node's own frame shows no key other than that of the command in it.
///
/// - A spelled command reads as one with its own key, or with none.
/// - What doesn't begin as a command isn't read as one.
/// - A command in clear is read after its control and its counter.
/// - A sealed APS frame shows that it is sealed.
pub fn frames_show_their_own_keys()
    ensures { ShowsKeys real }
{}

/// States that all laws hold for every run with real frames.
///
/// `Premises` is about the schedule: its numbers are in their ranges, it names declared nodes, has one centre, and
/// its keys are different keys. The fields of `Holds` say:
/// - `lawful`: each group of lines answers its event by the policy.
/// - `counted`: each counter is the next, and reserves, floors and starts are exactly where they must be.
/// - `alone`: no other lines are lawful and counted.
/// - `in_order`: no counter is skipped without a boot.
/// - `floors`: no floor is more than one incoming block above the counter for which it was stored.
/// - `spent`: a node that answers counter-spent is at the greatest counter, 2^32 - 1, at one of the layers.
/// - `granted`: before each event every node has what the rules take for granted.
/// - `draws`: the centre answers no-draw only if the supply is empty.
/// - `suited`: no event of a node's own is refused as policy.
/// - `room`: before each event every node has room for the floor of each declared sender.
/// - `fresh`: no node seals twice under one key and nonce.
/// - `once`: no receiver accepts a sender's counter twice under one key, resets included.
/// - `confirms`: only stored keys are confirmed.
/// - `locked`: if the end line says `yes yes`, removed devices are locked out until they are admitted again.
pub fn every_run_of_real_frames_holds()
    ensures { (w : Schedule) → Premises w → Holds w }
{}
