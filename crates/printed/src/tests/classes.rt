// Records of one class.
use super::notation::{alike, clause, covered, same};
use class::Kind;
use record::Record;
use std::process::Abort;
use std::test::Fail;

// The rule of a class.
fn gathered(rt: &impl Abort, first: &str, others: &[&str]) -> Result<Record, Fail> {
    let mut class = generaliser::begin(clause(first)?);
    for other in others {
        class.admit(&clause(other)?)?;
    }
    let issued = class.issue();
    assert!(rt; issued.fits(&clause(first)?));
    for other in others {
        assert!(rt; issued.fits(&clause(other)?), "{other}");
    }
    let (rule, _) = issued.into_parts();
    Ok(rule)
}

#[test]
fn classes_are_gathered(rt: HostRuntime) -> Result<(), Fail> {
    let literal = gathered(&rt, "p(f(a), g(c))", &["p(f(a), h(d))", "p(f(b), X)"])?;
    same(&rt, &literal, "p(f(X), Y)")?;
    let three = gathered(&rt, "p(f), q(f)", &["p(g), q(g)", "p(h)"])?;
    same(&rt, &three, "p(X)")?;
    // what is idle falls away
    let idle = gathered(
        &rt,
        "-a(1), -c(1), q(1)",
        &["-a(2), -b(2), q(2)", "-a(3), -c(3), q(3)"],
    )?;
    same(&rt, &idle, "-a(X), q(X)")
}

// By size, colour and kind.
#[test]
fn large_animals_are_dangerous(rt: HostRuntime) -> Result<(), Fail> {
    let rule = gathered(
        &rt,
        "-s(3, l), -c(3, n), -a(3, d), d(3)",
        &[
            "-s(6, l), -c(6, k), -a(6, h), d(6)",
            "-s(7, l), -c(7, n), -a(7, h), d(7)",
        ],
    )?;
    same(&rt, &rule, "-s(X, l), -c(X, C), -a(X, A), d(X)")
}

// Two families by father f, daughter d and ancestor a in the male line: Adam, Reg (g), Rod (r), Kaija (k) and Viivi (v), and
// Isa, Manuel and Karen (n). The order of the two relations is that of the table, which the printed rule has the other way round.
#[test]
fn an_ancestor_of_a_father(rt: HostRuntime) -> Result<(), Fail> {
    let kaija = "-a(g, r), -f(r, k), a(g, k)";
    let viivi = "-a(g, r), -f(r, v), a(g, v)";
    let karen = "-a(i, m), -f(m, n), a(i, n)";
    let rule = gathered(&rt, kaija, &[viivi, karen])?;
    same(&rt, &rule, "-a(X, Z), -f(Z, Y), a(X, Y)")?;
    let printed = "-f(X, Z), -a(Z, Y), a(X, Y)";
    covered(
        &rt,
        &[
            (printed, kaija, false),
            (printed, viivi, false),
            (printed, karen, false),
        ],
    )
}

// The printed rules are those of a program that drops more than is idle, to save time: they are wider.
#[test]
fn an_ancestor_of_an_ancestor(rt: HostRuntime) -> Result<(), Fail> {
    let kaija = "-f(g, r), -d(k, r), -f(r, k), -a(r, k), -a(g, r), a(g, k)";
    let adam = "-a(a, g), -a(g, k), -a(r, k), -f(g, r), -f(r, k), a(a, k)";
    let both = gathered(&rt, kaija, &[adam])?;
    let wider_than_both =
        "-a(X, Y), -f(X, Y), -a(g, Y), -f(g, r), -f(r, k), -a(r, k), -a(Z, U), -a(U, k), a(Z, k)";
    narrower(&rt, &both, wider_than_both)?;
    alike(
        &rt,
        &both,
        "-f(U, W), -a(X, Y), -f(X, Y), -a(g, Y), -f(g, r), -f(r, k), -a(r, k), -a(Z, U), -a(U, k), a(Z, k)",
    )?;
    let all = gathered(
        &rt,
        kaija,
        &[
            "-f(g, r), -d(v, r), -f(r, v), -a(r, v), -a(g, r), a(g, v)",
            "-a(i, m), -a(m, n), -f(i, m), -f(m, n), -d(n, m), a(i, n)",
            adam,
        ],
    )?;
    narrower(
        &rt,
        &all,
        "-f(W, U), -f(U, Z), -a(U, Z), -a(X, Y), -a(Y, Z), a(X, Z)",
    )?;
    alike(
        &rt,
        &all,
        "-f(W, U), -f(U, Z), -a(U, Z), -a(X, Y), -a(Y, Z), a(X, Z), -f(Y, A), -f(B, C), -a(B, C), -a(W, C)",
    )
}

// The rule is covered, and does not cover.
fn narrower(rt: &impl Abort, rule: &Record, wide: &str) -> Result<(), Fail> {
    let other = clause(wide)?;
    assert!(rt; other.covers(rule), "{wide}");
    assert!(rt; !rule.covers(&other), "{wide}");
    Ok(())
}

// Rounds of 2, 4 and 8 with a mark: the rule is the longest, with variables.
#[test]
fn rounds_are_gathered(rt: HostRuntime) -> Result<(), Fail> {
    let two = "p(a, b), p(b, a), q(a)";
    let rule = gathered(
        &rt,
        two,
        &[
            "p(c, d), p(d, e), p(e, f), p(f, c), q(c)",
            "p(g, h), p(h, i), p(i, j), p(j, k), p(k, l), p(l, m), p(m, n), p(n, g), q(g)",
        ],
    )?;
    alike(
        &rt,
        &rule,
        "p(A, B), p(B, C), p(C, D), p(D, E), p(E, F), p(F, G), p(G, H), p(H, A), q(A)",
    )?;
    let same_size = gathered(&rt, two, &["p(c, d), p(d, c), q(c)"])?;
    same(&rt, &same_size, "p(X, Y), p(Y, X), q(X)")
}
