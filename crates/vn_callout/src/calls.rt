ghost use Rattle.std.specs.Prelude.{◌≡◌, ℕ, ◌<◌, ◌^◌, OnOk, IfOk};
ghost use Rattle.vn_rules.specs.Timers.{least};
ghost use Rattle.vn_callout.specs.Stacks.{of};
ghost use Rattle.vn_callout.specs.Calls.{after_call, reply, replies_of};

use crate::wheel::Wheel;
use std::alloc::Global;
use vn_rules::Timer;
use vn_types::{HalfId, List, NoMemory, Sid};

/// A call of a wheel.
#[derive(Clone, Copy)]
pub enum Call {
    Arm {
        sid: Sid,
        deadline: u64,
        what: Timer,
    },
    Stop {
        sid: Sid,
        arm: u64,
    },
    StopOfInterface {
        sid: Sid,
        half: HalfId,
    },
    StopOfStack {
        sid: Sid,
    },
    Due {
        sid: Sid,
        now: u64,
    },
    NextDeadline,
}

/// What a call answers.
#[derive(PartialEq, Eq, Drop)]
pub enum Reply {
    /// The arm number of the timer that was armed.
    Number(u64),
    /// Whether the timer stood that was to be stopped.
    Stood(bool),
    /// Nothing: the timers were stopped.
    Done,
    /// The timer that was due.
    Due(Option<Timer>),
    /// The least deadline of all stacks.
    Deadline(Option<u64>),
}

/// Makes calls on a new wheel in turn. Whatever the calls, each stack answers as if it alone kept a
/// plain list of its timers.
pub fn replies(alloc: Global, calls: &[Call]) -> Result<List<Reply>, NoMemory>
    ensures { IfOk result (λ answers. answers ≡ replies_of calls.now) }
{
    let mut wheel = Wheel::new(alloc)?;
    let mut answers = List::new(alloc);
    for call in calls {
        let answer = perform(&mut wheel, *call)?;
        answers.push(answer)?;
    }
    Ok(answers)
}

fn perform(wheel: &mut Wheel, call: Call) -> Result<Reply, NoMemory>
    requires { (q : ℕ) → (of wheel.old q).armed < 2 ^ 63 }
    ensures reply { IfOk result (λ r. r ≡ reply (of wheel.old) (least wheel.old) call) }
    ensures after { OnOk result ((q : ℕ) → of wheel.new q ≡ after_call call (of wheel.old) q) }
{
    match call {
        Call::Arm {
            sid,
            deadline,
            what,
        } => Ok(Reply::Number(wheel.arm(sid, deadline, what)?)),
        Call::Stop { sid, arm } => Ok(Reply::Stood(wheel.stop(sid, arm))),
        Call::StopOfInterface { sid, half } => {
            wheel.stop_of_interface(sid, half);
            Ok(Reply::Done)
        }
        Call::StopOfStack { sid } => {
            wheel.stop_of_stack(sid);
            Ok(Reply::Done)
        }
        Call::Due { sid, now } => Ok(Reply::Due(wheel.due(sid, now))),
        Call::NextDeadline => Ok(Reply::Deadline(wheel.next_deadline())),
    }
}
