/// A labelled fusion tree: a leaf has its strand's label, a node the label of its charge.
#[cycle(tree)]
#[derive(Drop)]
pub enum Tree {
    Leaf(u8),
    Node(Box<Fork>),
}

/// A node of a fusion tree, with the label of its charge.
#[cycle(tree)]
#[derive(Drop)]
pub struct Fork {
    pub left: Tree,
    pub right: Tree,
    pub label: u8,
}
