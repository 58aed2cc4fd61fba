//! The lines of random steps, of the rollover, and of late deliveries.

ghost use Rattle.std.specs.Prelude.{◌≡◌, ◌+◌, ◌*◌, ◌-◌, ◌%◌, ◌<◌, ◌≤◌, ◌^◌, ◌++◌, [], ◌∷◌, map, codes, OnOk};
ghost use Rattle.std.specs.List.{range_with_len, flat_map};
ghost use Rattle.zb_gen.specs.Steps.{step_at};
ghost use Rattle.zb_gen.specs.Made.{late_line, own_line, rollover_lines, say_line, step_lines, step_of, stop_line};
ghost use Rattle.zb_gen.specs.Progress.{after_texts, Comes};
ghost use Rattle.zb_base.specs.Limits.{most_made};
ghost use Rattle.zb_gen.specs.Bounds.{before_line, before_lines, before_part};

use crate::lines::{name_of, take_deliver_line, take_event, take_timer_line};
use crate::maker::{GenFault, Maker};
use crate::words::Words;
use arrayvec::ArrayVec;
use zb_base::Short;
use zb_sched_line::Event;

fn take_say_line(maker: &mut Maker, i: u32, byte: u8) -> Result<(), GenFault>
    requires { (i ≤ most_made) × (maker.old.line ≤ before_line) }
    ensures lines { Comes result maker.new (after_texts maker.old (say_line i byte ∷ [])) }
    ensures count { OnOk result (maker.new.line ≡ maker.old.line + 1) }
{
    let mut bytes = ArrayVec::new();
    bytes.push(byte);
    take_event(
        maker,
        Event::Say {
            name: name_of(i),
            to: Short(0xFFFF),
            bytes,
        },
    )
}

fn take_stop_line(maker: &mut Maker, i: u32, calls: u8, byte: u8) -> Result<(), GenFault>
    requires { (i ≤ most_made) × (calls ≤ 5) × (maker.old.line ≤ before_line) }
    ensures lines { Comes result maker.new (after_texts maker.old (stop_line i calls byte ∷ [])) }
    ensures count { OnOk result (maker.new.line ≡ maker.old.line + 1) }
{
    let mut torn = ArrayVec::new();
    torn.push(byte);
    take_event(
        maker,
        Event::Stop {
            name: name_of(i),
            calls,
            torn,
        },
    )
}

fn take_reset_line(maker: &mut Maker, i: u32) -> Result<(), GenFault>
    requires { (i ≤ most_made) × (maker.old.line ≤ before_line) }
    ensures lines { Comes result maker.new (after_texts maker.old (own_line (codes "reset") i ∷ [])) }
    ensures count { OnOk result (maker.new.line ≡ maker.old.line + 1) }
{
    take_event(maker, Event::Reset { name: name_of(i) })
}

fn take_boot_line(maker: &mut Maker, i: u32) -> Result<(), GenFault>
    requires { (i ≤ most_made) × (maker.old.line ≤ before_line) }
    ensures lines { Comes result maker.new (after_texts maker.old (own_line (codes "boot") i ∷ [])) }
    ensures count { OnOk result (maker.new.line ≡ maker.old.line + 1) }
{
    take_event(maker, Event::Boot { name: name_of(i) })
}

/// What a step does: its kind, its node and two words.
#[derive(Clone, Copy)]
struct Step {
    kind: u32,
    node: u32,
    p: u32,
    q: u32,
}

fn take_restart(maker: &mut Maker, i: u32) -> Result<(), GenFault>
    requires { (i ≤ most_made) × (maker.old.line ≤ before_lines) }
    ensures lines { Comes result maker.new
        (after_texts maker.old (own_line (codes "reset") i ∷ own_line (codes "boot") i ∷ [])) }
    ensures count { OnOk result (maker.new.line ≡ maker.old.line + 2) }
{
    take_reset_line(maker, i)?;
    take_boot_line(maker, i)
}

fn take_power_cut(maker: &mut Maker, i: u32, calls: u8, byte: u8) -> Result<(), GenFault>
    requires { (i ≤ most_made) × (calls ≤ 5) × (maker.old.line ≤ before_lines) }
    ensures lines { Comes result maker.new
        (after_texts maker.old (stop_line i calls byte ∷ say_line i 0 ∷ own_line (codes "boot") i ∷ [])) }
    ensures count { OnOk result (maker.new.line ≡ maker.old.line + 3) }
{
    take_stop_line(maker, i, calls, byte)?;
    take_say_line(maker, i, 0)?;
    take_boot_line(maker, i)
}

fn take_step(maker: &mut Maker, n: u32, step: Step) -> Result<(), GenFault>
    requires { (1 ≤ n) × (n ≤ most_made) × (step.node ≤ most_made) × (maker.old.line ≤ before_lines) }
    ensures lines { Comes result maker.new
        (after_texts maker.old (step_of n step.kind step.node step.p step.q)) }
    ensures count { OnOk result (maker.new.line ≤ maker.old.line + 3) }
{
    let i = step.node;
    if step.kind < 2 {
        take_say_line(maker, i, (step.p % 256) as u8)
    } else if step.kind < 5 {
        take_deliver_line(maker, 1 + step.p % (10 * n), i)
    } else if step.kind == 5 {
        take_timer_line(maker, i)
    } else if step.kind == 6 {
        take_restart(maker, i)
    } else {
        take_power_cut(maker, i, (step.p % 6) as u8, (step.q % 256) as u8)
    }
}

fn next_step(words: &mut Words, n: u32) -> Step
    requires { (n ≤ most_made) × (words.old.place + 4 < 2 ^ 32) }
    ensures step { result ≡ step_at words.old.start n words.old.place }
    ensures node { result.node ≤ n }
    ensures next { words.new ≡ record { start = words.old.start; place = words.old.place + 4 } }
{
    let kind = words.word() % 8;
    let node = words.word() % (n + 1);
    let p = words.word();
    let q = words.word();
    Step { kind, node, p, q }
}

/// Takes the lines of all random steps.
///
/// # Errors
/// Those of `Maker::take`.
pub fn take_steps(maker: &mut Maker, words: &mut Words, n: u32) -> Result<(), GenFault>
    requires { (1 ≤ n) × (n ≤ most_made) × (words.old.place ≡ 8 * n + 8) × (maker.old.line ≤ before_part) }
    ensures lines { Comes result maker.new (after_texts maker.old
        (flat_map (λ k. step_lines words.old.start n (8 * n + 8 + 4 * k)) (range_with_len 0 (20 * n)))) }
    ensures count { OnOk result (maker.new.line ≤ maker.old.line + 60 * n) }
    ensures words { OnOk result (words.new ≡ record { start = words.old.start; place = 88 * n + 8 }) }
{
    for k in 0..20 * n {
        let step = next_step(words, n);
        take_step(maker, n, step)?;
    }
    Ok(())
}

/// Takes the removal of the first node and the rollover.
///
/// # Errors
/// Those of `Maker::take`.
pub fn take_rollover(maker: &mut Maker, n: u32) -> Result<(), GenFault>
    requires { (1 ≤ n) × (n ≤ most_made) × (maker.old.line ≤ before_part) }
    ensures lines { Comes result maker.new (after_texts maker.old (rollover_lines n)) }
    ensures count { OnOk result (maker.new.line ≤ maker.old.line + n + 2) }
{
    take_removal(maker)?;
    take_roll_line(maker)?;
    take_timers(maker, n - 1)?;
    take_switch_line(maker)
}

fn take_removal(maker: &mut Maker) -> Result<(), GenFault>
    requires { maker.old.line ≤ before_line }
    ensures lines { Comes result maker.new (after_texts maker.old (codes "remove d1 via c" ∷ [])) }
    ensures count { OnOk result (maker.new.line ≡ maker.old.line + 1) }
{
    take_event(
        maker,
        Event::Remove {
            name: name_of(1),
            parent: name_of(0),
        },
    )
}

fn take_roll_line(maker: &mut Maker) -> Result<(), GenFault>
    requires { maker.old.line ≤ before_line }
    ensures lines { Comes result maker.new (after_texts maker.old (codes "roll" ∷ [])) }
    ensures count { OnOk result (maker.new.line ≡ maker.old.line + 1) }
{
    take_event(maker, Event::Roll)
}

fn take_switch_line(maker: &mut Maker) -> Result<(), GenFault>
    requires { maker.old.line ≤ before_line }
    ensures lines { Comes result maker.new (after_texts maker.old (codes "switch" ∷ [])) }
    ensures count { OnOk result (maker.new.line ≡ maker.old.line + 1) }
{
    take_event(maker, Event::Switch)
}

fn take_timers(maker: &mut Maker, count: u32) -> Result<(), GenFault>
    requires { (count ≤ most_made) × (maker.old.line ≤ before_lines) }
    ensures lines { Comes result maker.new
        (after_texts maker.old (map (λ k. codes "timer c") (range_with_len 0 count))) }
    ensures count { OnOk result (maker.new.line ≤ maker.old.line + count) }
{
    for k in 0..count {
        take_timer_line(maker, 0)?;
    }
    Ok(())
}

fn take_late_line(maker: &mut Maker, words: &mut Words, n: u32) -> Result<(), GenFault>
    requires { (1 ≤ n) × (n ≤ most_made) × (words.old.place + 2 < 2 ^ 32) × (maker.old.line ≤ before_line) }
    ensures lines { Comes result maker.new
        (after_texts maker.old (late_line words.old.start n words.old.place ∷ [])) }
    ensures count { OnOk result (maker.new.line ≡ maker.old.line + 1) }
    ensures next { words.new ≡ record { start = words.old.start; place = words.old.place + 2 } }
{
    let node = words.word() % (n + 1);
    let p = words.word();
    take_deliver_line(maker, 1 + p % (20 * n), node)
}

/// Takes the late deliveries.
///
/// # Errors
/// Those of `Maker::take`.
pub fn take_late(maker: &mut Maker, words: &mut Words, n: u32) -> Result<(), GenFault>
    requires { (1 ≤ n) × (n ≤ most_made) × (words.old.place ≡ 88 * n + 8) × (maker.old.line ≤ before_part) }
    ensures lines { Comes result maker.new (after_texts maker.old
        (map (λ k. late_line words.old.start n (88 * n + 8 + 2 * k)) (range_with_len 0 (10 * n)))) }
    ensures count { OnOk result (maker.new.line ≤ maker.old.line + 10 * n) }
{
    for k in 0..10 * n {
        take_late_line(maker, words, n)?;
    }
    Ok(())
}
