// Examples that the literature prints, run as tests over the public calls. `docs/EXAMPLES.md` lists them.
#![tactic(auto)]

#[cfg(test)]
mod tests;
