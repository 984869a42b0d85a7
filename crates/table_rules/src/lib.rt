// Rows as memory that holds a priority trie, once over the width and over where a row lies: definitions and laws, and the
// row that they and the table's code speak of.
#![tactic(auto)]

// A row of the table: a route, and the rows of its two children, 0 for none.
#[derive(Clone, Copy, Debug, Default, PartialEq, Eq)]
pub struct Row {
    pub value: u32,
    pub len: u32,
    pub port: u32,
    pub left: u32,
    pub right: u32,
}
