use cyclo_core::Cyclo;
use fusion_rules::Names;
use symbol_table::Draft;

/// What a category text says: the names of its labels, and the draft over their numbers. There are as many names as
/// the rules of the draft have labels.
#[derive(Drop)]
pub struct Named {
    pub names: Names,
    pub draft: Draft<Cyclo>,
}
