// Tidying.
use super::notation::{clause, same};
use class::Kind;
use std::test::Fail;

#[test]
fn clauses_are_tidied(rt: HostRuntime) -> Result<(), Fail> {
    let cases = [
        // a won game: o says which mark stands in a square of a position, w that it is won
        (
            "-o(1, x, P), -o(N, x, P), -o(M, X, P), -o(2, X, P), w(P)",
            "-o(1, x, P), -o(2, X, P), w(P)",
        ),
        ("q(Y), q(X), p(f)", "q(X), p(f)"),
        ("q(X), p(f), q(f)", "p(f), q(f)"),
        ("p(X), p(Y), p(f(h)), p(f(X))", "p(X), p(f(h)), p(f(X))"),
        // a raw join
        (
            "p(f(A), B), p(C, D), p(f(E), F), p(G, g(A))",
            "p(f(A), B), p(G, g(A))",
        ),
    ];
    for (text, tidied) in cases {
        let mut record = clause(text)?;
        record.tidy();
        same(&rt, &record, tidied)?;
    }
    Ok(())
}
