// What a call that is served makes of a record, by value: its reply, the record after it, and what is then done with the list.
use crate::replies::{Ask, Finished};
use standing::records::Session;
use standing::searches::Waiter;

// Who is put into the list, and where, if the list has the place; nobody, if granted.
#[derive(Clone, Copy)]
pub struct Asked {
    pub reply: Ask,
    pub session: Session,
    pub waiter: Option<Waiter>,
}

// Of the first `used` entries, the one at the place is taken out, if it is one of them.
#[derive(Clone, Copy)]
pub struct Taken {
    pub used: usize,
    pub place: usize,
}

// What is taken out; nothing, if nobody is granted.
#[derive(Clone, Copy)]
pub struct Handed {
    pub reply: Finished,
    pub session: Session,
    pub taken: Option<Taken>,
}

// What is taken out; its place is the reply.
#[derive(Clone, Copy)]
pub struct Withdrawn {
    pub session: Session,
    pub taken: Taken,
}
