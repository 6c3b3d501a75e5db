/// The turns of a program: the number of the site that takes its next command, from 0, turn by turn.
#[derive(Drop)]
pub struct Schedule {
    pub turns: Vec<u8>,
}
