// What a call answers. specs/ sets out the numbers of each case.
#![tactic(auto)]

ghost use Rattle.std.specs.Prelude.{◌≡◌};
ghost use Rattle.answers.specs.Numbers.{refusal_number};

// Why a call is refused, with its number.
#[derive(Clone, Copy, Debug, PartialEq, Eq)]
pub enum Refusal {
    // m, P or O is outside its range.
    Settings = 1,

    // The group or parent is above 15 or not open, or group 0 is to be closed.
    NoGroup = 2,

    // The group's number is above 15, already open or not above the parent's.
    GroupNumber = 3,

    // The ceiling, reservation, weight or priority, or a table's number of rows, is outside its range.
    Amount = 4,

    // The ceiling or reservation exceeds what the group has free.
    NoRoom = 5,

    // The group has a thread or a child.
    GroupInUse = 6,

    // The thread's number is above 63 or not admitted, or the thread whose reservation is to be changed is a best-effort one.
    NoThread = 7,

    // The thread is already admitted.
    AlreadyAdmitted = 8,

    // The thread to remove or to change is running.
    ThreadRunning = 9,

    // The thread to wake is not blocked.
    NotBlocked = 10,

    // Nothing is running.
    NothingRunning = 11,

    // A thread is running.
    Busy = 12,

    // More is used than the slice and the overrun limit.
    OverSlice = 13,

    // The reason is above 3.
    Reason = 14,

    // The meter is at its limit.
    MeterFull = 15,

    // The state is not sound.
    Unsound = 16,

    // What a record of an unknown kind answers, and one but a start after a refused block until a start is accepted.
    UnknownKind = 19,

    Halted = 20,
}

impl From<Refusal> for u32 {
    ghost from_gives = { λ r n. n ≡ refusal_number r };

    fn from(r: Refusal) -> u32 {
        r as u32
    }
}

// What an accepted call answers beside the state. A dispatch is idle, with the number of threads, or says who runs, for how long, and how
// many threads stood before it.
#[derive(Clone, Copy, Debug, PartialEq, Eq)]
pub enum Outcome {
    Done,
    Idle(u32),
    Run {
        thread: u32,
        slice: u32,
        before: u32,
    },
}

// What a call answers.
pub type Answer = Result<Outcome, Refusal>;
