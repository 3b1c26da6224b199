// A slot's job, accepted and not yet collected.
use lock::Class;

#[derive(Clone, Copy)]
pub struct Job {
    pub number: u32,
    pub class: Class,
    // Plain numbers: a step makes the range of them anew.
    pub first: usize,
    pub count: usize,
    // How many places are done, the last one never counted, and whether the next one's given is joined already. That
    // stands beside the class, so that after a place both classes go on alike.
    pub done: usize,
    pub joined: bool,
}
