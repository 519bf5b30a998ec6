// No functions: what the public calls answer. What they promise of it is in specs/, what that comes to in proofs/.
#![tactic(auto)]

use refusal::Refusal;

// What a call that makes, withdraws, returns or indexes has written: the length of the book or index, and the number of
// states listed, which a return has gained and the others have dropped.
#[derive(Clone, Copy)]
pub struct Wrote {
    pub length: u32,
    pub drops: u32,
}

// What a preview tells: the number of states that the withdrawal would drop and that of the states it would keep.
#[derive(Clone, Copy)]
pub struct Preview {
    pub drops: u32,
    pub kept: u32,
}

// What consult gives in a kept state: the move (`action`) and the wait of the goal arrived at, and that goal, to be
// sought from here on (`seek`).
#[derive(Clone, Copy)]
pub struct NextMove {
    pub action: u16,
    pub wait: u16,
    pub seek: u16,
}

// What consult answers: a refusal, none in a lost state, or the move to make next.
pub type Advised = Result<Option<NextMove>, Refusal>;

// What consulting a step answers: the advice for the state in which it begins, whether the move advised there may lead
// to the state that followed, and the advice for that one, where the goal of the first is sought.
#[derive(Clone, Copy)]
pub struct Step {
    pub here: Advised,
    pub leads: bool,
    pub next: Advised,
}
