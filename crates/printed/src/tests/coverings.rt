// Covering between clauses, and its witnesses.
use super::notation::{clause, covered, narrows};
use class::Kind;
use std::process::Abort;
use std::test::Fail;
use witness::witness;

#[test]
fn clauses_cover(rt: HostRuntime) -> Result<(), Fail> {
    covered(
        &rt,
        &[
            ("p(X), p(f)", "p(f)", true),
            ("p(f)", "p(X), p(f)", true),
            ("p(f), p(X), q(X)", "q(X), p(f)", false),
            ("p(X), p(f(X))", "p(X), p(f(h)), p(f(X))", true),
            ("p(X), p(f(h)), p(f(X))", "p(X), p(f(X))", false),
            ("q(X)", "q(f)", true),
            ("q(f)", "p(f), q(f)", true),
            ("q(f)", "p(f), p(X), q(X)", false),
            ("q(X), p(f)", "q(f)", false),
            // noughts in some row and crosses on the diagonal: a position that is won
            (
                "-o(Q, N, P), w(P)",
                "-x(2, 2, P), -x(K, K, P), -x(N, K, P), -o(Q, N, P), w(P)",
                true,
            ),
            (
                "-x(2, 2, P), -x(K, K, P), -x(N, K, P), -o(Q, N, P), w(P)",
                "-o(Q, N, P), w(P)",
                false,
            ),
        ],
    )
}

#[test]
fn narrower_and_narrower(rt: HostRuntime) -> Result<(), Fail> {
    narrows(
        &rt,
        &["q(X)", "q(X), p(f)", "p(f), p(X), q(X)", "p(f), q(f)"],
    )?;
    narrows(&rt, &["a(X)", "a(X), b(X)", "a(X), b(X), c(X)"])?;
    narrows(&rt, &["q(f(X))", "q(f(f(X)))", "q(f(f(f(X))))"])?;
    // i is a tiger, s has stripes, t is tawny, w is white: tigers, striped ones, Tom, and Tom who is tawny too
    narrows(
        &rt,
        &["i(X)", "i(X), -s(X)", "i(t), -s(t)", "i(t), -s(t), -t(t)"],
    )?;
    narrows(
        &rt,
        &["i(X)", "i(X), -t(X)", "i(t), -t(t)", "i(t), -s(t), -t(t)"],
    )?;
    narrows(
        &rt,
        &["i(X)", "i(X), -s(X)", "i(b), -s(b)", "i(b), -s(b), -w(b)"],
    )?;
    narrows(
        &rt,
        &["i(X)", "i(X), -w(X)", "i(b), -w(b)", "i(b), -s(b), -w(b)"],
    )?;
    // as printed, of Bob and Tom
    covered(&rt, &[("i(X), -w(X)", "i(b), -w(t)", false)])
}

// Each of the mounts is covered by one of the rules.
fn some_cover(rt: &impl Abort, rules: &[&str], mounts: &[&str]) -> Result<(), Fail> {
    for mount in mounts {
        let mut covered = false;
        for rule in rules {
            if clause(rule)?.covers(&clause(mount)?) {
                covered = true;
            }
        }
        assert!(rt; covered, "{mount}");
    }
    Ok(())
}

#[test]
fn sets_of_clauses_cover(rt: HostRuntime) -> Result<(), Fail> {
    some_cover(
        &rt,
        &["q(h)", "p(X), p(f)", "p(X), q(X)"],
        &["p(f)", "p(g), q(g)"],
    )?;
    // emeralds that were looked at before a year y are green
    some_cover(
        &rt,
        &["-e(X), g(X)"],
        &["-e(1), -x(1, y), g(1)", "-e(2), -x(2, y), g(2)"],
    )?;
    some_cover(
        &rt,
        &["-a(X), -b(X), q(X)", "-a(X), -c(X), q(X)"],
        &[
            "-a(1), -c(1), q(1)",
            "-a(2), -b(2), q(2)",
            "-a(3), -c(3), q(3)",
            "-a(4), -b(4), q(4)",
        ],
    )
}

#[test]
fn substitutions_are_told(rt: HostRuntime) -> Result<(), Fail> {
    let cases: [(&str, &str, &[u16]); 3] = [
        // X becomes k(a), and Y the variable
        ("p(X, X, f(g(Y)))", "p(k(a), k(a), f(g(X)))", &[1, 7]),
        // X becomes f
        ("p(X), p(f)", "p(f)", &[1]),
        // X becomes 1, and Y becomes 2
        ("m(X, l(X, l(Y, n)))", "m(1, l(1, l(2, n)))", &[1, 5]),
    ];
    for (rule, mount, nodes) in cases {
        let mut list = [9; 2];
        let answer = witness(&clause(rule)?, &clause(mount)?, &mut list)?;
        assert_eq!(rt; answer, Some(nodes.len()), "{rule} in {mount}");
        assert!(rt; list.starts_with(nodes), "{rule} in {mount}: {list:?}");
    }
    Ok(())
}
