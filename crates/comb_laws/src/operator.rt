use program_text::Sign;

/// What acts at a gap: an exchange of its two strands, or the projection on a charge of both.
#[derive(Clone, Copy, Debug, Drop)]
pub enum Operator {
    Exchange(Sign),
    Project(u8),
}
