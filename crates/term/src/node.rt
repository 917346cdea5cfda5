// One node of a word or a literal. The nodes of a word stand in preorder: a symbol, then the words in its places.
// No tree of boxes, since the library has no heap; and a node's index is its place in the written order.

// What a node's places belong to: a function symbol, or a predicate with its sign. A literal is a word whose first
// symbol is a predicate.
#[derive(Clone, Copy, PartialEq, Debug)]
pub enum Symbol {
    Function(u16),
    Positive(u16),
    Negative(u16),
}

// A variable, or a symbol with its count of places.
#[derive(Clone, Copy, PartialEq, Debug)]
pub enum Node {
    Variable(u16),
    Applied(Symbol, u8),
}
