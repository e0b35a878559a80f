// A batch of records as a stretch of calls, so that the share guarantee and fairness are about what `Scheduler::run` leaves and answers:
// definitions and theorems, no code.
#![tactic(auto)]
