// What equality of symbols and of nodes says. It is derived, and a derive's contract gives its own definition alone.
ghost use Rattle.term.specs.Sameness.{SymbolsExact, NodesExact};

// `==` tells of any two symbols, and of any two nodes, whether they are the same.
pub fn equality_is_exact()
    ensures symbols { SymbolsExact }
    ensures nodes { NodesExact }
{}
