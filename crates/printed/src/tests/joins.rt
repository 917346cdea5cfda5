// Joins of two clauses.
use super::notation::{clause, joined};
use joining::{RawClause, raw_clause};
use std::process::Abort;
use std::test::Fail;

#[test]
fn clauses_are_joined(rt: HostRuntime) -> Result<(), Fail> {
    joined(
        &rt,
        &[
            // crows are black, with the sign of an implication and without
            ("-c(1), b(1)", "-c(2), b(2)", "-c(X), b(X)"),
            ("c(1), b(1)", "c(2), b(2)", "c(X), b(X)"),
            // two games that are won
            (
                "-o(1, x, a), -o(2, o, a), w(a)",
                "-o(1, x, b), -o(2, x, b), w(b)",
                "-o(1, x, P), -o(2, X, P), w(P)",
            ),
            ("q(f)", "q(X), p(f), p(X)", "q(X)"),
            ("p(f), q(f)", "q(X), p(f), p(X)", "p(f), p(X), q(X)"),
            (
                "p(h), p(f(h))",
                "p(f(h)), p(f(f(h)))",
                "p(X), p(f(h)), p(f(X))",
            ),
            ("p(f), q(f)", "p(g), q(g)", "p(X), q(X)"),
            ("p(f), q(f)", "p(h)", "p(X)"),
            ("p(g), q(g)", "p(h)", "p(X)"),
            // tigers
            ("i(t), -s(t), -t(t)", "i(b), -s(b), -w(b)", "i(X), -s(X)"),
        ],
    )
}

#[test]
fn tables_are_joined(rt: HostRuntime) -> Result<(), Fail> {
    joined(
        &rt,
        &[
            // two bears, by size, colour and kind: dangerous
            (
                "-s(1, s), -c(1, k), -a(1, b), d(1)",
                "-s(2, m), -c(2, k), -a(2, b), d(2)",
                "-s(X, S), -c(X, k), -a(X, b), d(X)",
            ),
            // fathers are ancestors: by a table of facts, and by one that says more
            (
                "-f(r, k), a(r, k)",
                "-f(g, t), a(g, t)",
                "-f(X, Y), a(X, Y)",
            ),
            (
                "-d(k, r), -f(r, k), a(r, k)",
                "-f(g, t), a(g, t)",
                "-f(X, Y), a(X, Y)",
            ),
        ],
    )
}

// Two records, and their join before it is tidied.
fn raw(rt: &impl Abort, first: &str, second: &str, join: &str) -> Result<(), Fail> {
    let left = clause(first)?;
    let right = clause(second)?;
    let wanted = clause(join)?;
    let mut joined = RawClause::new();
    raw_clause(left.view(), right.view(), &mut joined);
    assert_eq!(rt; joined.view().nodes, wanted.nodes(), "{first} and {second}");
    Ok(())
}

#[test]
fn raw_joins(rt: HostRuntime) -> Result<(), Fail> {
    raw(
        &rt,
        "-o(1, x, a), -o(2, o, a), w(a)",
        "-o(1, x, b), -o(2, x, b), w(b)",
        "-o(1, x, P), -o(N, x, P), -o(M, X, P), -o(2, X, P), w(P)",
    )?;
    raw(
        &rt,
        "p(h), p(f(h))",
        "p(f(h)), p(f(f(h)))",
        "p(X), p(Y), p(f(h)), p(f(X))",
    )?;
    raw(
        &rt,
        "p(f(a), f(X)), p(f(X), g(a)), q(a)",
        "p(f(b), X), p(Y, g(b))",
        "p(f(A), B), p(C, D), p(f(E), F), p(G, g(A))",
    )
}
