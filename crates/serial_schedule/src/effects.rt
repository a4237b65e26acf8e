//! What the lines of the fault script change at once.

ghost use Rattle.std.specs.Prelude.{◌≡◌, ◌<◌, ℕ, remove};
ghost use Rattle.std.specs.Vec.{vec_capacity, vec_len};
ghost use Rattle.schedule_model.specs.Scheduling.{hold_after, plans_after, queue_after};

use crate::hold::Hold;
use crate::letters::Letter;
use command_frame::Item;
use disk_base::Plan;
use fault_script::Fault;
use schedule_model::Planned;
use std::collections::VecDeque;

/// What a line changes at once: a hold begins or ends, a letter is taken out undelivered, or disks are to be told
/// of a failure to come, for which there is room.
pub fn take_effect(
    fault: &Fault,
    hold: &mut Hold,
    queue: &mut VecDeque<Letter>,
    plans: &mut Vec<Planned>,
)
    requires { vec_len plans.old < vec_capacity plans.old }
    ensures hold { (lane : ℕ) → hold.new ≡ hold_after (Item.Fault lane fault.now) hold.old }
    ensures queue { (lane : ℕ) → queue.new.items ≡ queue_after (Item.Fault lane fault.now) queue.old.items }
    ensures plans { (lane : ℕ) → plans.new.items ≡ plans_after (Item.Fault lane fault.now) plans.old.items }
{
    match fault {
        Fault::Hold => hold.begin(),
        Fault::Settle => hold.end(),
        Fault::Drop { letter } => drop_letter(queue, *letter),
        Fault::StopAfter { node, after, keep } => plans.push_reserved(Planned {
            node: *node,
            plan: Plan {
                after: *after,
                keep: *keep,
                lose: false,
            },
        }),
        Fault::Lose { node, after } => plans.push_reserved(Planned {
            node: *node,
            plan: Plan {
                after: *after,
                keep: 0,
                lose: true,
            },
        }),
        _ => {}
    }
}

/// The letter with a number is taken out of the queue, if there is one.
pub fn drop_letter(queue: &mut VecDeque<Letter>, letter: u32)
    ensures { queue.new.items ≡ remove queue.old.items letter }
{
    let _ = queue.remove(letter as usize);
}
