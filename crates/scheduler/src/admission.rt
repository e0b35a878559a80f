// The calls that admit a thread: with a reservation, to a group and the list, or as a best-effort one, with a weight.
ghost use Rattle.std.specs.Prelude.{◌≡◌, true, cond, ◌+◌, ◌<◌};
ghost use Rattle.rule.specs.Sound.{sound};
ghost use Rattle.rule.specs.Refusals.{admit, admit_effort};
ghost use Rattle.scheduler.specs.Answers.{answered_to};
ghost use Rattle.scheduler.specs.View.{view};

use crate::{Answered, Scheduler, threads};
use answers::Outcome;

// The list's length after a call to admit a thread.
// Not one with `count_after`: each has a bound of its own, where it counts.
fn count_if(accepted: bool, count: u32) -> u32
    requires { accepted ≡ true → count < 64 }
    ensures { result ≡ cond accepted (count + 1) count }
{
    if accepted { count + 1 } else { count }
}

impl Scheduler {
    // Admits a thread to a group with a reservation: runnable, with a full allotment, at the rear of the list.
    pub fn admit(mut self, number: u64, group: u64, reservation: u64) -> Answered
        ensures { result ≡ answered_to (admit number group reservation) (view self) }
    {
        let sums = self.tested();
        let reserved = sums.unwrap_or([0; 16]);
        let groups = self.groups;
        let used = tree::load_of(groups, reserved, group);
        let at = (number % 64) as usize;
        let old = self.threads[at];
        let check = tree::admit_check(
            sums.is_some(),
            old.status,
            groups,
            used,
            number,
            group,
            reservation,
        );
        let accepted = check.is_ok();
        let count = self.count;
        let rear = (count % 64) as usize;
        let last = self.order[rear];
        let thread = old.admitted_if(
            accepted,
            self.meter,
            self.settings.thousandth,
            group,
            reservation,
        );
        self.threads[at] = thread;
        self.order[rear] = threads::either(accepted, at as u8, last);
        self.count = count_if(accepted, count);
        Answered {
            answer: threads::answered(check, Outcome::Done),
            state: self,
        }
    }

    // Admits a best-effort thread with a weight: runnable, in no group and outside the list.
    pub fn admit_effort(self, number: u64, weight: u64) -> Answered
        ensures { result ≡ answered_to (admit_effort number weight) (view self) }
    {
        let ok = self.sound();
        self.admit_effort_given(ok, number, weight)
    }

    pub(crate) fn admit_effort_given(mut self, ok: bool, number: u64, weight: u64) -> Answered
        requires { ok ≡ sound (view self) }
        ensures { result ≡ answered_to (admit_effort number weight) (view self) }
    {
        let at = (number % entry::THREADS as u64) as usize;
        let old = self.threads[at];
        let check = refusals::effort_check(ok, number, old.status, weight);
        let thread = old.effort_if(check.is_ok(), self.meter, self.time, weight);
        self.threads[at] = thread;
        Answered {
            answer: threads::answered(check, Outcome::Done),
            state: self,
        }
    }
}
