// Words, and literals, which are words of a predicate: most are run both as place words and as records of one literal.
use super::notation::{clause, covered, joined, same, word};
use class::Kind;
use std::process::Abort;
use std::test::Fail;

// Of a rule and a mount, whether it is covered.
fn words_covered(rt: &impl Abort, cases: &[(&str, &str, bool)]) -> Result<(), Fail> {
    for (rule, mount, answer) in cases {
        assert_eq!(rt;
            word(rule)?.covers(&word(mount)?),
            *answer,
            "{rule} over {mount}"
        );
    }
    Ok(())
}

// Two words and their join.
fn words_joined(rt: &impl Abort, cases: &[(&str, &str, &str)]) -> Result<(), Fail> {
    for (first, second, join) in cases {
        let mut place = word(first)?;
        place.join(&word(second)?)?;
        let wanted = word(join)?;
        assert_eq!(rt; place.nodes(), wanted.nodes(), "{first} and {second}");
    }
    Ok(())
}

// Here and below m is membership, l a list of a head and a tail, and n the empty list.
const INSTANCES: [(&str, &str, bool); 12] = [
    ("p(X, X, f(g(Y)))", "p(k(a), k(a), f(g(X)))", true),
    ("m(X, l(X, l(Y, n)))", "m(1, l(1, l(2, n)))", true),
    // variants
    ("p(X)", "p(Y)", true),
    ("m(X, l(X, l(Y, n)))", "m(Z, l(Z, l(W, n)))", true),
    // an instance of both
    ("p(X, X)", "p(f(g(Z)), f(g(Z)))", true),
    ("p(f(Y), f(g(Z)))", "p(f(g(Z)), f(g(Z)))", true),
    // narrower and narrower
    ("p(f(X), Y)", "p(f(X), f(Y))", true),
    ("p(f(X), f(Y))", "p(f(X), Y)", false),
    ("p(f(X))", "p(f(f(X)))", true),
    ("p(f(f(X)))", "p(f(X))", false),
    ("p(f(f(X)))", "p(f(f(f(X))))", true),
    ("p(f(f(f(X))))", "p(f(f(X)))", false),
];

#[test]
fn instances(rt: HostRuntime) -> Result<(), Fail> {
    words_covered(&rt, &INSTANCES)?;
    covered(&rt, &INSTANCES)?;
    words_covered(
        &rt,
        &[
            ("X", "f(Y)", true),
            ("f(Y)", "f(g(Z))", true),
            ("X", "f(g(Z))", true),
        ],
    )
}

const JOINS: [(&str, &str, &str); 11] = [
    ("p(X, X)", "p(f(Y), f(g(Z)))", "p(X, Y)"),
    // black crows
    ("b(1)", "b(2)", "b(X)"),
    (
        "p(f(a, g(Y)), X, g(Y))",
        "p(h(a, g(X)), X, g(X))",
        "p(Y, X, g(Z))",
    ),
    ("p(X, X)", "p(f(X), f(Y))", "p(X, Y)"),
    ("p(f(X), f(X))", "p(f(X), f(Y))", "p(f(X), f(Y))"),
    (
        "m(1, l(1, l(2, n)))",
        "m(2, l(2, l(4, n)))",
        "m(X, l(X, l(Y, n)))",
    ),
    // the longer lists that are printed for these
    (
        "m(1, l(1, l(1, l(2, n))))",
        "m(2, l(2, l(2, l(4, n))))",
        "m(X, l(X, l(X, l(Y, n))))",
    ),
    // parents: a is Ann, m is Mary, t is Tom
    ("p(a, m)", "p(a, t)", "p(a, X)"),
    // e is equality or the unit of a group, m its product: b.c = c.b and c.b = b.c
    (
        "e(m(b, c), m(c, b))",
        "e(m(c, b), m(b, c))",
        "e(m(X, Y), m(Y, X))",
    ),
    // (a.a).e = a.(a.e) and (c.b).b = c.(b.b), and with a for c, as the text has it
    (
        "e(m(m(a, a), e), m(a, m(a, e)))",
        "e(m(m(c, b), b), m(c, m(b, b)))",
        "e(m(m(X, Y), Z), m(X, m(Y, Z)))",
    ),
    (
        "e(m(m(a, a), e), m(a, m(a, e)))",
        "e(m(m(a, b), b), m(a, m(b, b)))",
        "e(m(m(a, Y), Z), m(a, m(Y, Z)))",
    ),
];

#[test]
fn joins(rt: HostRuntime) -> Result<(), Fail> {
    words_joined(&rt, &JOINS)?;
    joined(&rt, &JOINS)?;
    words_joined(
        &rt,
        &[(
            "l(a, l(b, l(c, n)))",
            "l(a, l(c, l(d, n)))",
            "l(a, l(X, l(Y, n)))",
        )],
    )
}

#[test]
fn joins_of_literals_with_a_sign(rt: HostRuntime) -> Result<(), Fail> {
    joined(
        &rt,
        &[
            // not e.a = e and not a.a = a
            ("-e(m(e, a), e)", "-e(m(a, a), a)", "-e(m(X, a), X)"),
            // of another sign or predicate: nothing is shared
            ("p(a, m)", "-p(a, t)", ""),
            ("p(a, X)", "d(m, a)", ""),
        ],
    )
}
