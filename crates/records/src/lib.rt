// The session record, and what a call that takes it by value comes to.
#![tactic(auto)]

pub mod answers;

use tables::Answer;

// The session record: moves kept, evaluations of the last accepted call, and how many stored values are blank.
#[repr(C)]
#[derive(Clone, Copy)]
pub struct Session {
    pub kept: u32,
    pub evaluations: u32,
    pub blanks: u32,
}

// What a call comes to: its answer, and the session record after it.
#[derive(Clone, Copy)]
pub struct Done {
    pub answer: Answer,
    pub session: Session,
}
