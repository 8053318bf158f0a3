// The answers of the calls. A refused call answers `Err` with the refusal.
use state::layout::Target;

#[derive(Clone, Copy)]
pub enum Appended {
    // With the new entry's handle.
    Linked(u32),
    // USE_ONCE had a fit: nothing is linked.
    Taken,
}

// Put and get. An ack is the number that the C interface names.
#[derive(Clone, Copy)]
pub enum RequestAnswer {
    Priority { length: u32, offset: u64, ack: u16 },
    Overflow { length: u32, offset: u64, ack: u16 },
    Dropped(u16),
    PermissionViolation(u16),
    OperationViolation(u16),
}

// The state that a call leaves, and its answer.
#[derive(Clone, Copy)]
pub struct Done<A> {
    pub target: Target,
    pub answer: A,
}
